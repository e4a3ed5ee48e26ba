//! One index of a chain.

ghost use Rattle.std.specs.Prelude.{◌≡◌, ◌<◌, ◌-◌, ◌++◌, ◌∷◌, ◌↔◌, List, Option, Some, IfNone, IfSome, IsTrue};
ghost use Rattle.std.specs.Prelude.{MatchOption, map, reverse};
ghost use Rattle.std.specs.List.{AllByRecursion};
ghost use Rattle.tape_types.specs.declared.cartridges.Cartridge.{Cartridge};
ghost use Rattle.content_laws.specs.Readings.{Construct as ConstructOf};
ghost use Rattle.cartridge_meaning.specs.Meaning.{FitsNode, ip_end};
ghost use Rattle.cartridge_meaning.specs.Pointers.{IsOfVolume, indexes_of};
ghost use Rattle.volume_scan.specs.Scans.{places_of};
ghost use Rattle.mount_recover.specs.Lasts.{HasIndexAt, IsInPlace, IsSound};
ghost use Rattle.mount_recover.specs.Steps.{IsFree, IsSince, IsStep};
ghost use Rattle.generation_view.specs.Chain.{Breaks, IsLink, IsOlder};
ghost use Rattle.generation_view.specs.Steps.{IsSoundStep, IsStepTo, why_in};

use crate::errors::BreakWhy;
use cartridge_meaning::MountErr;
use index_model::Index;
use ltfs_label::Label;
use mount_recover::{Ends, Start, first_outside, points_on_dp, read_index_at};
use std::alloc::Global;
use tape_drive::Drive;
use tape_types::Part;
use volume_scan::Construct;

/// What one index of a data partition is to the chain.
#[derive(Drop)]
pub enum Step {
    /// A link, with this first block.
    Link(u64, Index),
    /// None, with this first block: the chain breaks.
    Broken(u64, BreakWhy),
}

/// What the index that stands there is to the chain, behind these older ones and before one of a generation.
pub fn read_link<D: Drive>(
    alloc: Global,
    drive: &mut D,
    start: Start,
    label: &Label,
    end_ip: u64,
    place: Construct,
    older: &[Construct],
    after: Option<u64>,
    document: &mut Vec<u8>,
) -> Result<Step, MountErr>
    requires since { IsSince D.Drive start drive.old }
    requires place { IsInPlace start.limits.cap_dp place }
    requires known { IfSome (D.held drive.old) (λ c. HasIndexAt c.dp place × (end_ip ≡ ip_end c)) }
    ensures { IsStep D.Drive start (place.after - place.first) drive.old drive.new
        (λ step c. (newer : List ConstructOf) (k : ConstructOf) (ks : List ConstructOf)
        → indexes_of c.dp ≡ newer ++ k ∷ ks → places_of k ≡ place → older.now ≡ map places_of (reverse ks)
        → IsStepTo label.now c k ks after step) (IsSoundStep label.now end_ip place.mark) IsFree result }
{
    match read_index_at(alloc, drive, start, label, Part::Dp, place, document) {
        Ok(index) => Ok(step_of(label, end_ip, place, older, after, index)),
        Err(fault) => match why_in(fault) {
            Some(why) => Ok(Step::Broken(place.first, why)),
            None => Err(fault),
        },
    }
}

/// Why the text of an index breaks a chain, as a mount tells it.
fn why_in(fault: MountErr) -> Option<BreakWhy>
    ensures { result ≡ why_in fault }
{
    match fault {
        MountErr::BadIndex(_, why) => Some(BreakWhy::Text(why)),
        MountErr::WrongVolume(_) => Some(BreakWhy::Volume),
        _ => None,
    }
}

/// What an index of the volume is to the chain, which stands there.
fn step_of(
    label: &Label,
    end_ip: u64,
    place: Construct,
    older: &[Construct],
    after: Option<u64>,
    index: Index,
) -> Step
    ensures told { (c : Cartridge) (k : ConstructOf) (ks : List ConstructOf) → end_ip ≡ ip_end c → places_of k ≡ place
        → older.now ≡ map places_of (reverse ks) → IsOfVolume label.now k index
        → IsStepTo label.now c k ks after result }
    ensures sound { IsSound label.now index → IsSoundStep label.now end_ip place.mark result }
{
    match first_failing(label, end_ip, place, older, after, &index) {
        None => Step::Link(place.first, index),
        Some(why) => Step::Broken(place.first, why),
    }
}

/// The first test behind that of the volume that an index fails.
fn first_failing(
    label: &Label,
    end_ip: u64,
    place: Construct,
    older: &[Construct],
    after: Option<u64>,
    index: &Index,
) -> Option<BreakWhy>
    ensures told { (c : Cartridge) (k : ConstructOf) (ks : List ConstructOf) → end_ip ≡ ip_end c → places_of k ≡ place
        → older.now ≡ map places_of (reverse ks) → IsOfVolume label.now k index.now
        → MatchOption result (IsLink label.now c k ks after index.now) (Breaks label.now c k ks after) }
    ensures fits { IfNone result (AllByRecursion (FitsNode label.now end_ip place.mark) index.now.nodes) }
{
    if !points_on_dp(label, place.first, older, index) {
        return Some(BreakWhy::Pointer);
    }
    if !is_older(index, after) {
        return Some(BreakWhy::Rises);
    }
    let ends = Ends {
        ip: end_ip,
        dp: place.mark,
    };
    match first_outside(label, ends, index.nodes.as_slice()) {
        None => None,
        Some(uid) => Some(BreakWhy::Extent(uid)),
    }
}

/// Whether an index is older than the one after it, where there is one.
fn is_older(index: &Index, after: Option<u64>) -> bool
    ensures { IsTrue result ↔ IsOlder index.now after }
{
    match after {
        None => true,
        Some(generation) => index.generation < generation,
    }
}
