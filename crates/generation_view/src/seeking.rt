//! What is found of a generation.

ghost use Rattle.std.specs.Prelude.{◌≡◌, ◌+◌, ◌*◌, IfOk, IfSome};
ghost use Rattle.cartridge_meaning.specs.Meaning.{Found};
ghost use Rattle.cartridge_meaning.specs.Mounts.{Mounts};
ghost use Rattle.volume_scan.specs.Scans.{AreBetween};
ghost use Rattle.mount_recover.specs.Lasts.{IsSoundMount};
ghost use Rattle.mount_recover.specs.Steps.{Blames, IsSince, IsStep};
ghost use Rattle.generation_view.specs.Told.{AreKnown};
ghost use Rattle.generation_view.specs.Views.{CanBeTree, IsMadeOf, IsSought, IsSoundSought};

use crate::errors::BreakWhy;
use crate::ways::{Way, walk_back};
use cartridge_meaning::{MountErr, Mounted};
use file_tree::Tree;
use index_model::Spot;
use ltfs_label::Label;
use mount_recover::{Start, mount_by_scan};
use std::alloc::Global;
use tape_drive::Drive;
use tape_types::NoMemory;
use volume_scan::Construct;

/// What is found of a generation.
#[derive(Drop)]
pub enum Sought {
    /// Its tree, and where its index stands.
    There(Tree, Spot),
    /// There is none.
    Lacking,
    /// The way to it breaks at the index with this first block.
    Broken(u64, BreakWhy),
}

/// Mounts the cartridge, and looks for a generation.
pub fn seek<D: Drive>(
    alloc: Global,
    drive: &mut D,
    start: Start,
    generation: u64,
) -> Result<Sought, MountErr>
    requires since { IsSince D.Drive start drive.old }
    requires now { start.faults ≡ D.faults drive.old }
    ensures { IsStep D.Drive start
        ((23 + 2 * start.limits.cap_ip + 2 * start.limits.cap_dp) + start.limits.cap_dp) drive.old drive.new
        (λ s c. (found : Found c) × IsSought c found generation s) (IsSoundSought start.limits) Blames result }
{
    let scanned = mount_by_scan(alloc, drive, start)?;
    let places = scanned.places.into_vec();
    seek_behind(alloc, drive, start, &scanned.mounted, places, generation)
}

/// Looks for a generation of what was mounted, where the indexes of the data partition stand there, the oldest first.
fn seek_behind<D: Drive>(
    alloc: Global,
    drive: &mut D,
    start: Start,
    mounted: &Mounted,
    places: Vec<Construct>,
    generation: u64,
) -> Result<Sought, MountErr>
    requires since { IsSince D.Drive start drive.old }
    requires inside { AreBetween 4 start.limits.cap_dp places.items }
    requires known { IfSome (D.held drive.old) (λ c. Mounts c mounted.now × AreKnown mounted.now.end_ip places.items c) }
    requires sound { IsSoundMount start.limits mounted.now }
    ensures { IsStep D.Drive start start.limits.cap_dp drive.old drive.new
        (λ s c. (found : Found c) × IsSought c found generation s) (IsSoundSought start.limits) Blames result }
{
    match walk_back(
        alloc,
        drive,
        start,
        &mounted.label,
        mounted.end_ip,
        places,
        generation,
    ) {
        Ok(way) => match sought_of(alloc, &mounted.label, way, generation) {
            Ok(sought) => Ok(sought),
            Err(NoMemory) => Err(MountErr::NoMemory),
        },
        Err(fault) => Err(fault),
    }
}

/// What is found of a generation at the end of the way back to it.
fn sought_of(alloc: Global, label: &Label, way: Way, generation: u64) -> Result<Sought, NoMemory>
    requires { CanBeTree label.now way }
    ensures { IfOk result (IsMadeOf label.now generation way) }
{
    match way {
        Way::Link(block, index) => {
            if index.generation < generation {
                return Ok(Sought::Lacking);
            }
            let letters = (label.index, label.dpart);
            match Tree::from_index(alloc, &index, letters, label.block) {
                Ok(tree) => Ok(Sought::There(
                    tree,
                    Spot {
                        letter: label.dpart,
                        block,
                    },
                )),
                Err(NoMemory) => Err(NoMemory),
            }
        }
        Way::Ended => Ok(Sought::Lacking),
        Way::Broken(block, why) => Ok(Sought::Broken(block, why)),
    }
}
