//! All generations of a volume.

ghost use Rattle.std.specs.Prelude.{◌≡◌, ◌≤◌, ◌+◌, ◌*◌, length, Some, IfOk, IfErr, IfSome};
ghost use Rattle.tape_types.specs.Bounds.{most_nodes};
ghost use Rattle.tape_types.specs.declared.cartridges.Cartridge.{Cartridge};
ghost use Rattle.tape_drive.specs.Looks.{Looks};
ghost use Rattle.cartridge_meaning.specs.Meaning.{Found};
ghost use Rattle.volume_scan.specs.Scans.{AreBetween};
ghost use Rattle.mount_recover.specs.Steps.{Blames, IsFree, IsSince, IsStep};
ghost use Rattle.generation_view.specs.Told.{AreKnown, HasCounts, IsToldOf, RefusesChain, TellsChain, TellsWalk};

use crate::errors::{BreakWhy, ViewErr, refusal};
use crate::links::{Step, read_link};
use cartridge_meaning::MountErr;
use index_model::Index;
use ltfs_label::Label;
use mount_recover::{Start, begin, mount_by_scan};
use std::alloc::Global;
use tape_drive::Drive;
use tape_types::{List, Moment, Part, Place};
use volume_scan::Construct;

/// A generation of a volume, as its index on the data partition tells it.
#[derive(Clone, Copy, Debug, PartialEq, Eq)]
pub struct Generation {
    pub number: u64,
    /// The first block of the index.
    pub block: u64,
    /// When the volume was last changed.
    pub updated: Moment,
    /// How many nodes its tree has, the root among them.
    pub nodes: u32,
}

/// How a chain ends.
#[derive(Drop)]
pub enum Walked {
    /// It is whole: its generations, the newest first.
    Whole(List<Generation>),
    /// It breaks at the index with this first block.
    Broken(u64, BreakWhy),
}

/// The generations that the data partition of a volume still has, the newest first. Nothing is written (LTFS 2.4 on
/// back pointers).
///
/// # Errors
///
/// `Mount` where the cartridge doesn't mount; `Broken` at the first index from the newest back that is no link, with
/// its first block and the first test that it fails; `Drive` where the drive failed, and `NoMemory` where memory was
/// refused.
pub fn generations<D: Drive>(alloc: Global, drive: &mut D) -> Result<List<Generation>, ViewErr>
    ensures found { IfOk result (λ told. (c : Cartridge) → D.held drive.old ≡ Some c → TellsChain told c) }
    ensures refused { IfErr result (λ e. (c : Cartridge) → D.held drive.old ≡ Some c → RefusesChain e c) }
    ensures counts { HasCounts (D.faults drive.old) (D.faults drive.new) result }
    ensures looks { Looks D.Drive
        ((26 + 2 * (D.limits drive.old).cap_ip + 5 * (D.limits drive.old).cap_dp) * D.MOST) drive.old drive.new }
{
    let start = begin(drive);
    match walk_all(alloc, drive, start) {
        Ok(Walked::Whole(told)) => Ok(told),
        Ok(Walked::Broken(pos, why)) => Err(ViewErr::Broken(
            Place {
                part: Part::Dp,
                pos,
            },
            why,
        )),
        Err(fault) => Err(refusal(fault)),
    }
}

/// Mounts the cartridge, and walks along the chain.
fn walk_all<D: Drive>(alloc: Global, drive: &mut D, start: Start) -> Result<Walked, MountErr>
    requires since { IsSince D.Drive start drive.old }
    requires now { start.faults ≡ D.faults drive.old }
    ensures { IsStep D.Drive start
        ((23 + 2 * start.limits.cap_ip + 2 * start.limits.cap_dp) + start.limits.cap_dp) drive.old drive.new
        (λ walk c. (found : Found c) × TellsWalk c found walk) (λ walk. Unit {0}) Blames result }
{
    let scanned = mount_by_scan(alloc, drive, start)?;
    let places = scanned.places.into_vec();
    let mounted = &scanned.mounted;
    walk(alloc, drive, start, &mounted.label, mounted.end_ip, places)
}

/// Goes back along the chain, whose indexes stand there with the oldest first.
fn walk<D: Drive>(
    alloc: Global,
    drive: &mut D,
    start: Start,
    label: &Label,
    end_ip: u64,
    places: Vec<Construct>,
) -> Result<Walked, MountErr>
    requires since { IsSince D.Drive start drive.old }
    requires inside { AreBetween 4 start.limits.cap_dp places.items }
    requires known { IfSome (D.held drive.old) (AreKnown end_ip places.items) }
    ensures { IsStep D.Drive start start.limits.cap_dp drive.old drive.new
        (λ walk c. (found : Found c) → found.labels.ip ≡ label.now → TellsWalk c found walk) (λ walk. Unit {0})
        IsFree result }
{
    let mut left = places;
    let mut after = None;
    let mut document = Vec::new(alloc);
    let mut told = List::new(alloc);
    while let Some(place) = left.pop() {
        match read_link(
            alloc,
            drive,
            start,
            label,
            end_ip,
            place,
            left.as_slice(),
            after,
            &mut document,
        ) {
            Ok(Step::Link(block, index)) => {
                after = Some(index.generation);
                match told.push(told_of(block, &index)) {
                    Ok(()) => {}
                    Err(_) => return Err(MountErr::NoMemory),
                }
            }
            Ok(Step::Broken(block, why)) => return Ok(Walked::Broken(block, why)),
            Err(fault) => return Err(fault),
        }
    }
    Ok(Walked::Whole(told))
}

/// What is told of an index with this first block.
fn told_of(block: u64, index: &Index) -> Generation
    requires { length index.now.nodes ≤ most_nodes }
    ensures { IsToldOf block index.now result }
{
    Generation {
        number: index.generation,
        block,
        updated: index.updated,
        nodes: index.nodes.len() as u32,
    }
}
