//! The way back to a generation.

ghost use Rattle.std.specs.Prelude.{◌≡◌, IfSome};
ghost use Rattle.cartridge_meaning.specs.Meaning.{Found};
ghost use Rattle.volume_scan.specs.Scans.{AreBetween};
ghost use Rattle.mount_recover.specs.Steps.{IsFree, IsSince, IsStep};
ghost use Rattle.generation_view.specs.Told.{AreKnown};
ghost use Rattle.generation_view.specs.Views.{IsSoundWay, IsWayAs};

use crate::errors::BreakWhy;
use crate::links::{Step, read_link};
use cartridge_meaning::MountErr;
use index_model::Index;
use ltfs_label::Label;
use mount_recover::Start;
use std::alloc::Global;
use tape_drive::Drive;
use volume_scan::Construct;

/// How the way back to a generation ends.
#[derive(Drop)]
pub enum Way {
    /// At the first index that isn't newer, with this first block.
    Link(u64, Index),
    /// All are newer.
    Ended,
    /// It breaks at the index with this first block.
    Broken(u64, BreakWhy),
}

/// Goes back along the chain to the first index that isn't newer than a generation. The indexes stand there, with the
/// oldest first.
pub fn walk_back<D: Drive>(
    alloc: Global,
    drive: &mut D,
    start: Start,
    label: &Label,
    end_ip: u64,
    places: Vec<Construct>,
    generation: u64,
) -> Result<Way, MountErr>
    requires since { IsSince D.Drive start drive.old }
    requires inside { AreBetween 4 start.limits.cap_dp places.items }
    requires known { IfSome (D.held drive.old) (AreKnown end_ip places.items) }
    ensures { IsStep D.Drive start start.limits.cap_dp drive.old drive.new
        (λ way c. (found : Found c) → found.labels.ip ≡ label.now → IsWayAs c found generation way)
        (IsSoundWay label.now end_ip start.limits.cap_dp) IsFree result }
{
    let mut left = places;
    let mut after = None;
    let mut document = Vec::new(alloc);
    while let Some(place) = left.pop() {
        match read_link(
            alloc,
            drive,
            start,
            label,
            end_ip,
            place,
            left.as_slice(),
            after,
            &mut document,
        ) {
            Ok(Step::Link(block, index)) => {
                if index.generation <= generation {
                    return Ok(Way::Link(block, index));
                }
                after = Some(index.generation);
            }
            Ok(Step::Broken(block, why)) => return Ok(Way::Broken(block, why)),
            Err(fault) => return Err(fault),
        }
    }
    Ok(Way::Ended)
}
