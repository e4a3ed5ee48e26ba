use crate::nodes::Spot;
use crate::spots::kept;
use std::alloc::Global;
use tape_types::NoMemory;

/// Nodes by the marks of their directories and names: in each slot the last one that came there, half of its mark above
/// half of its number. They only choose which node is looked at first, and may be none or wrong ones, so nothing is
/// promised of them.
#[derive(Drop)]
pub struct Guesses {
    pub slots: Vec<u32>,
}

/// There are so many slots for each place of a node, at least.
const FEWEST: usize = 2;

/// There are so many when they are made. Each time all nodes are noted again, so that isn't done at each doubling.
const MOST: usize = 8;

/// Past what half a slot holds.
const HALF: u32 = 1 << 16;

/// A number that a directory and a name give (FNV).
fn mark_of(dir: u32, name: &[u8]) -> u32 {
    let mut mark = dir.wrapping_mul(0x9e37_79b9);
    for byte in name {
        mark = (mark ^ u32::from(*byte)).wrapping_mul(16_777_619);
    }
    mark
}

impl Guesses {
    /// No nodes, with slots for so many places.
    pub fn new(alloc: Global, places: usize) -> Result<Guesses, NoMemory> {
        let mut guesses = Guesses {
            slots: Vec::new(alloc),
        };
        guesses.make_slots(places)?;
        Ok(guesses)
    }

    /// Makes empty slots for so many places.
    fn make_slots(&mut self, places: usize) -> Result<(), NoMemory> {
        self.slots.clear();
        Ok(self.slots.resize(places.saturating_mul(MOST), 0)?)
    }

    /// The slot of a mark.
    fn place(&self, mark: u32) -> usize {
        (u64::from(mark).wrapping_mul(self.slots.len() as u64) >> 32) as usize
    }

    /// The node that may be under a name in a directory.
    pub fn likely(&self, dir: u32, name: &[u8]) -> u32 {
        let mark = mark_of(dir, name);
        match self.slots.get(self.place(mark)) {
            Some(slot) if slot / HALF == mark % HALF => slot % HALF,
            _ => 0,
        }
    }

    /// A node came under its name into its directory.
    pub fn note(&mut self, spots: &[Option<Spot>], number: u32) {
        if let Some(spot) = kept(spots, number) {
            self.note_spot(spot);
        }
    }

    fn note_spot(&mut self, spot: &Spot) {
        let mark = mark_of(spot.parent, spot.name.as_str().as_bytes());
        let place = self.place(mark);
        if let Some(slot) = self.slots.get_mut(place) {
            *slot = mark % HALF * HALF + spot.node.number % HALF;
        }
    }

    /// Makes slots for as many places as there are, where there are too few.
    pub fn widen(&mut self, spots: &[Option<Spot>]) -> Result<(), NoMemory> {
        if spots.len().saturating_mul(FEWEST) <= self.slots.len() {
            return Ok(());
        }
        self.make_slots(spots.len())?;
        for spot in spots {
            if let Some(spot) = spot {
                self.note_spot(spot);
            }
        }
        Ok(())
    }
}
