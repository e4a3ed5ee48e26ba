//! Reads, which are answered at once where all their blocks are held or kept, and else wait for the others.

ghost use Rattle.std.specs.Prelude.{◌≡◌, ◌≢◌, ◌+◌, ◌*◌, ◌≤◌, ◌<◌, ℕ, List as Items, None, IfOk, OnErr, OnOk};
ghost use Rattle.std.specs.Prelude.{length, true};
ghost use Rattle.tape_types.specs.Bounds.{longest_file};
ghost use Rattle.extent_map.specs.Replies.{bytes_in as bytes_of_piece, size_of};
ghost use Rattle.file_tree.specs.Tree.{plain_of, whole};
ghost use Rattle.head_queue.specs.EventLaws.Trail.{IsTrail, is_trail_from};
ghost use Rattle.held_volume.specs.Reads.{IsReadable};
ghost use Rattle.plain_tree.specs.Paths.{Path};
ghost use Rattle.plain_tree.specs.Refusals.{refusal_of};
ghost use Rattle.plain_tree.specs.declared.calls.Call.TheVariants as calls;
ghost use Rattle.tape_layout.specs.Ops.{held_in};
ghost use Rattle.promises.specs.GroupLaws.Laws.{wants_at};
ghost use Rattle.block_cache.specs.Kept.{bytes_at};
ghost use Rattle.event_journal.specs.Trails.{state};
ghost use Rattle.promises.specs.declared.serving_promise.answers.Submitted.TheVariants as submitted;
ghost use Rattle.volume_core.specs.VolumeSteps.Asking.{CanAsk, IsSubmitted, Reserves, Stands};
ghost use Rattle.volume_core.specs.VolumeSteps.Seen.{seen_parts};
ghost use Rattle.volume_core.specs.VolumeSteps.Wanted.{AreTakenFrom, AsksBlocks, CanWantBlocks, HasEvents, HasRequests};
ghost use Rattle.volume_core.specs.VolumeSteps.Wanted.{IsFetched};
ghost use Rattle.volume_core.specs.VolumeSteps.Wanted.{IsTakenFrom, TiedReadsMayWant};

use crate::volume_steps::parts::Parts;
use crate::volume_steps::placing::Asked;
use block_cache::BlockCache;
use event_journal::Trail;
use extent_map::Piece;
use head_queue::Queue;
use held_volume::Stock;
use plain_tree::Answer;
use promises::serving_promise::Submitted;
use session_script::Event;
use std::alloc::Global;
use tape_drive::Drive;
use tape_layout::AdmitErr;
use tape_types::{LONGEST_FILE, List, NoMemory, Place, Text};
use waiting_reads::{Reading, Readings};

/// A read that has the blocks that are held or kept, the places of those that it wants, and of those that were kept.
struct Fetched {
    reading: Reading,
    wanted: List<Place>,
    found: List<Place>,
}

impl<D: Drive> Parts<D> {
    /// Reads at most so many bytes of a file, from an offset on.
    #[tactic(auto, using(crate::proofs::VolumeSteps::SubmitLemmas::ready_no_drain))]
    pub fn read_bytes(
        &mut self,
        asked: Asked,
        alloc: Global,
        path: &[Text],
        offset: u64,
        count: u64,
    ) -> Submitted
        requires can { CanAsk asked.who (seen_parts self.old) }
        requires stands { Stands (seen_parts self.old) }
        requires wants { CanWantBlocks (seen_parts self.old) }
        ensures submits { IsSubmitted D.Drive asked.who asked.nth asked.at (seen_parts self.old) (seen_parts self.new)
            (calls.Read path.now offset count) result }
        ensures answered { self.new.reads.answered ≡ self.old.reads.answered }
        ensures placed { result ≢ submitted.Drain }
    {
        match self.stock.file_at(path) {
            Ok(file) => self.read_file(asked, alloc, file, offset, count),
            Err(refusal) => {
                self.answer(asked, Answer::Refused(refusal), Answer::Refused(refusal))
            }
        }
    }

    /// Reads a file that is there.
    #[tactic(auto, using(crate::proofs::VolumeSteps::SubmitLemmas::ready_no_drain))]
    fn read_file(
        &mut self,
        asked: Asked,
        alloc: Global,
        file: u32,
        offset: u64,
        count: u64,
    ) -> Submitted
        requires can { CanAsk asked.who (seen_parts self.old) }
        requires stands { Stands (seen_parts self.old) }
        requires wants { CanWantBlocks (seen_parts self.old) }
        requires file { (path : Path) × IsReadable self.old.stock.tree path file }
        ensures submits { (path : Path) → IsReadable self.old.stock.tree path file
            → IsSubmitted D.Drive asked.who asked.nth asked.at (seen_parts self.old) (seen_parts self.new)
            (calls.Read path offset count) result }
        ensures answered { self.new.reads.answered ≡ self.old.reads.answered }
        ensures placed { result ≢ submitted.Drain }
    {
        let here = self.placements.len();
        match fetch(&self.stock, &self.cache, alloc, here, file, offset, count) {
            Ok(fetched) => {
                let Fetched {
                    reading,
                    wanted,
                    found,
                } = fetched;
                self.read_on(asked, reading, wanted, found)
            }
            Err(NoMemory) => self.void(asked, AdmitErr::NoMemory),
        }
    }

    /// Answers a read that wants no block, and has another wait. The blocks that it found were used then.
    #[tactic(auto, using(crate::proofs::VolumeSteps::SubmitLemmas::ready_no_drain))]
    fn read_on(
        &mut self,
        asked: Asked,
        reading: Reading,
        wanted: List<Place>,
        found: List<Place>,
    ) -> Submitted
        requires can { CanAsk asked.who (seen_parts self.old) }
        requires may { is_trail_from (state self.old.trail) (wants_at (length self.old.placements.history) wanted)
            ≡ true }
        ensures submits { (path : Items (Items ℕ)) (offset count : ℕ)
            → refusal_of (plain_of whole self.old.stock.tree) (calls.Read path offset count) ≡ None
            → IsFetched self.old.stock self.old.cache (length self.old.placements.history) path offset count reading
            wanted found
            → IsSubmitted D.Drive asked.who asked.nth asked.at (seen_parts self.old) (seen_parts self.new)
            (calls.Read path offset count) result }
        ensures answered { self.new.reads.answered ≡ self.old.reads.answered }
        ensures placed { result ≢ submitted.Drain }
    {
        if wanted.len() == 0 {
            let (told, kept) = reading.pair();
            self.cache.used_all(found.as_slice());
            self.answer(asked, told, kept)
        } else {
            self.wait_for(asked, reading, wanted, found)
        }
    }

    /// A read waits for these blocks, one or more. Those that it found were used then.
    #[tactic(auto, using(crate::proofs::VolumeSteps::AwaitLemmas::can_place_on, crate::proofs::VolumeSteps::SubmitLemmas::ready_no_drain, crate::proofs::VolumeSteps::SubmitLemmas::waits_no_drain))]
    fn wait_for(
        &mut self,
        asked: Asked,
        reading: Reading,
        wanted: List<Place>,
        found: List<Place>,
    ) -> Submitted
        requires can { CanAsk asked.who (seen_parts self.old) }
        requires some { 1 ≤ length wanted }
        requires may { is_trail_from (state self.old.trail) (wants_at (length self.old.placements.history) wanted)
            ≡ true }
        ensures submits { (path : Items (Items ℕ)) (offset count : ℕ)
            → refusal_of (plain_of whole self.old.stock.tree) (calls.Read path offset count) ≡ None
            → IsFetched self.old.stock self.old.cache (length self.old.placements.history) path offset count reading
            wanted found
            → IsSubmitted D.Drive asked.who asked.nth asked.at (seen_parts self.old) (seen_parts self.new)
            (calls.Read path offset count) result }
        ensures answered { self.new.reads.answered ≡ self.old.reads.answered }
        ensures placed { result ≢ submitted.Drain }
    {
        match self.ask(reading, wanted.as_slice()) {
            Ok(()) => {
                self.cache.used_all(found.as_slice());
                self.place_waiting(asked)
            }
            Err(NoMemory) => self.void(asked, AdmitErr::NoMemory),
        }
    }

    /// Asks for blocks, and has the read wait for them.
    #[tactic(auto, using(crate::proofs::VolumeSteps::AwaitLemmas::asks_blocks, crate::proofs::VolumeSteps::AwaitLemmas::may_still))]
    fn ask(&mut self, reading: Reading, wanted: &[Place]) -> Result<(), NoMemory>
        requires may { is_trail_from (state self.old.trail) (wants_at (length self.old.placements.history) wanted.now)
            ≡ true }
        ensures ok { OnOk result (AsksBlocks (length self.old.placements.history) wanted.now reading
            (seen_parts self.old) (seen_parts self.new)) }
        ensures err { OnErr result (Reserves (seen_parts self.old) (seen_parts self.new)) }
        ensures answered { self.new.reads.answered ≡ self.old.reads.answered }
    {
        let here = self.placements.len();
        self.reserve_asked(wanted.len())?;
        ask_all(&mut self.trail, &mut self.queue, here, wanted);
        self.reads.add(reading);
        Ok(())
    }

    /// Makes room for a read that asks for so many blocks.
    #[tactic(auto, using(crate::proofs::VolumeSteps::SubmitLemmas::reserved))]
    fn reserve_asked(&mut self, count: usize) -> Result<(), NoMemory>
        ensures reserves { Reserves (seen_parts self.old) (seen_parts self.new) }
        ensures stock { self.new.stock ≡ self.old.stock }
        ensures placements { self.new.placements ≡ self.old.placements }
        ensures answered { self.new.reads.answered ≡ self.old.reads.answered }
        ensures events { OnOk result (2 * count ≤ self.new.trail.spare) }
        ensures requests { OnOk result (count ≤ self.new.queue.spare) }
        ensures reads { OnOk result (1 ≤ self.new.reads.spare) }
    {
        self.trail.reserve(count)?;
        reserve_requests(&mut self.queue, count)?;
        self.reads.reserve()
    }
}

/// Makes room for so many requests.
fn reserve_requests(queue: &mut Queue, count: usize) -> Result<(), NoMemory>
    ensures waiting { queue.new.waiting ≡ queue.old.waiting }
    ensures arrived { queue.new.arrived ≡ queue.old.arrived }
    ensures room { OnOk result (count ≤ queue.new.spare) }
{
    let most = u32::MAX as usize;
    let there = queue.len();
    if there > most || count > most - there {
        return Err(NoMemory);
    }
    queue.reserve(count as u32)
}

/// Asks for blocks, one after the other.
#[tactic(auto, using(crate::proofs::VolumeSteps::RequestLemmas::asking_begins, crate::proofs::VolumeSteps::RequestLemmas::asking_allowed, crate::proofs::VolumeSteps::RequestLemmas::asking_room, crate::proofs::VolumeSteps::RequestLemmas::asking_requests, crate::proofs::VolumeSteps::RequestLemmas::asking_events, crate::proofs::VolumeSteps::RequestLemmas::asking_ends))]
fn ask_all(trail: &mut Trail, queue: &mut Queue, ticket: u64, wanted: &[Place])
    requires may { is_trail_from (state trail.old) (wants_at ticket wanted.now) ≡ true }
    requires events { 2 * length wanted.now ≤ trail.old.spare }
    requires requests { length wanted.now ≤ queue.old.spare }
    ensures events { HasEvents ticket wanted.now trail.old trail.new }
    ensures trail { IsTrail trail.new.events }
    ensures requests { HasRequests ticket wanted.now queue.old queue.new }
{
    for place in wanted {
        let head = trail.head();
        let place = *place;
        trail.write(Event::Wants { ticket, place }, head, 0);
        let _node = queue.add(ticket, place);
    }
    // The events are a trail.
    let _head = trail.head();
}

/// A read of a range, with all blocks that are held or kept.
fn fetch(
    stock: &Stock,
    cache: &BlockCache,
    alloc: Global,
    ticket: u64,
    file: u32,
    offset: u64,
    count: u64,
) -> Result<Fetched, NoMemory>
    requires { (path : Path) × IsReadable stock.now.tree path file }
    ensures { IfOk result (λ f. (path : Path) → IsReadable stock.now.tree path file
        → IsFetched stock.now cache.now ticket path offset count f.reading f.wanted f.found) }
{
    let pieces = stock.plan(file, offset, count)?;
    if !is_small(pieces.as_slice()) {
        return Err(NoMemory);
    }
    let mut reading = Reading::new(alloc, ticket, pieces)?;
    let places = reading.places(alloc)?;
    let mut wanted = List::new(alloc);
    let mut found = List::new(alloc);
    let places = places.as_slice();
    take_held(stock, cache, &mut reading, places, &mut wanted, &mut found)?;
    Ok(Fetched {
        reading,
        wanted,
        found,
    })
}

/// Whether there is room for the bytes of these pieces.
fn is_small(pieces: &[Piece]) -> bool
    ensures { result ≡ true → size_of pieces.now ≤ longest_file }
{
    let mut total = 0;
    for piece in pieces {
        let count = bytes_in(piece);
        if count > LONGEST_FILE - total {
            return false;
        }
        total += count;
    }
    true
}

/// How many bytes a piece has.
fn bytes_in(piece: &Piece) -> u64
    ensures { result ≡ bytes_of_piece piece.now }
{
    match piece {
        Piece::Zeros { count } => *count,
        Piece::Stored { count, .. } => u64::from(*count),
    }
}

/// Puts what is held or kept of these places into a read, and notes the others; those that were kept are noted, too.
#[tactic(auto, using(crate::proofs::VolumeSteps::FillLemmas::taken_begins, crate::proofs::VolumeSteps::FillLemmas::taken_ends))]
fn take_held(
    stock: &Stock,
    cache: &BlockCache,
    reading: &mut Reading,
    places: &[Place],
    wanted: &mut List<Place>,
    found: &mut List<Place>,
) -> Result<(), NoMemory>
    ensures { OnOk result (AreTakenFrom stock.now.layout.ops cache.now places.now reading.old reading.new wanted.old
        wanted.new found.old found.new) }
{
    for place in places {
        take_block(stock, cache, reading, *place, wanted, found)?;
    }
    Ok(())
}

/// Puts the block at a place into a read, where it is held or kept, and else notes the place.
fn take_block(
    stock: &Stock,
    cache: &BlockCache,
    reading: &mut Reading,
    place: Place,
    wanted: &mut List<Place>,
    found: &mut List<Place>,
) -> Result<(), NoMemory>
    ensures { OnOk result (IsTakenFrom (held_in place stock.now.layout.ops) (bytes_at cache.now place) place reading.old
        reading.new wanted.old wanted.new found.old found.new) }
{
    match stock.layout().held(place) {
        Some(bytes) => {
            reading.fill(place, bytes.as_slice());
            Ok(())
        }
        None => take_kept(cache, reading, place, wanted, found),
    }
}

/// Puts the block at a place into a read, where it is kept, and else notes the place.
fn take_kept(
    cache: &BlockCache,
    reading: &mut Reading,
    place: Place,
    wanted: &mut List<Place>,
    found: &mut List<Place>,
) -> Result<(), NoMemory>
    ensures { OnOk result (IsTakenFrom None (bytes_at cache.now place) place reading.old reading.new wanted.old
        wanted.new found.old found.new) }
{
    match cache.find(place) {
        Some(bytes) => {
            found.push(place)?;
            reading.fill(place, bytes.as_slice());
        }
        None => wanted.push(place)?,
    }
    Ok(())
}

/// Reads of a volume that is tied may want blocks.
pub fn tied_reads_may_want<D: Drive>()
    ensures { TiedReadsMayWant D.Drive }
{}
