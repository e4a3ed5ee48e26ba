ghost use Rattle.std.specs.Prelude.{◌≡◌, ◌*◌, Bool, Some, IfOk, IfErr, IfSome};
ghost use Rattle.extent_map.specs.Cells.{Tape, tape_of};
ghost use Rattle.tape_drive.specs.Looks.{Looks};
ghost use Rattle.cartridge_meaning.specs.Notes.{HasHonestNotes};
ghost use Rattle.cartridge_meaning.specs.Pointers.{letter_of};
ghost use Rattle.tape_types.specs.declared.cartridges.Cartridge.{Cartridge};
ghost use Rattle.mount_recover.specs.Known.{mount_most};
ghost use Rattle.mount_recover.specs.Labels.{HasCounts};
ghost use Rattle.mount_recover.specs.Steps.{Blames};
ghost use Rattle.commands.specs.BasicCommands.Listings.{IsListingOf, listing_of};
ghost use Rattle.commands.specs.BasicCommands.Outcomes.{IsListingTold};
ghost use Rattle.commands.specs.BasicCommands.Promises.{DoesList};
ghost use Rattle.commands.specs.BasicCommands.Runs.{written};
ghost use Rattle.commands.specs.BasicCommands.Statuses.{status_number};

use crate::basic_commands::ended::{Ended, Status};
use crate::basic_commands::labels::{mount_status, mount_text};
use crate::basic_commands::telling::tell_made;
use file_tree::Tree;
use index_model::Spot;
use mount_recover::{MountErr, Mounted, mount};
use std::alloc::Global;
use tape_drive::Drive;
use tape_edge::Sink;
use tape_types::{NoMemory, Part};
use tree_listing::{ListErr, write_tree};

/// The tree for which a cartridge stands.
#[derive(Drop)]
pub struct FoundTree {
    pub tree: Tree,
    /// Its generation.
    pub generation: u64,
    /// Where the index of that generation stands.
    pub spot: Spot,
}

/// The command `list`: mounts the cartridge, and writes a line for each node of its tree and one for its index, a piece
/// at a time; where all is told, lines of attributes and of the lock state too. Nothing is written to the cartridge.
pub fn run_list<D: Drive, K: Sink>(alloc: Global, all: bool, drive: D, out: &mut K) -> Ended<D>
    requires honest { IfSome (D.held drive) HasHonestNotes }
    ensures { DoesList all D.Drive drive result.drive (written K.Sink out.old out.new) result.status result.log }
{
    let mut drive = drive;
    match find_tree(alloc, &mut drive) {
        Ok(found) => {
            let status = write_found(alloc, all, &found, out);
            Ended {
                status: status.number(),
                drive,
                log: None,
            }
        }
        Err(error) => tell_made(
            out,
            mount_text(alloc, error),
            mount_status(error),
            None,
            drive,
        ),
    }
}

/// Mounts the cartridge in a drive, and makes the tree of the index that is found.
fn find_tree<D: Drive>(alloc: Global, drive: &mut D) -> Result<FoundTree, MountErr>
    requires honest { IfSome (D.held drive.old) HasHonestNotes }
    ensures found { IfOk result (λ f. (c : Cartridge) → D.held drive.old ≡ Some c
        → (all : Bool) → IsListingOf c (listing_of all (tape_of c) f)) }
    ensures refused { IfErr result (λ e. (c : Cartridge) → D.held drive.old ≡ Some c → Blames e c) }
    ensures counts { HasCounts (D.faults drive.old) (D.faults drive.new) result }
    ensures looks { Looks D.Drive
        (mount_most (D.limits drive.old) * D.MOST) drive.old drive.new }
{
    // The capacities are in their range.
    let _capacities_are_in_range = drive.limits();
    let mounted = match mount(alloc, drive) {
        Ok(mounted) => mounted,
        Err(error) => return Err(error),
    };
    let letters = (mounted.label.index, mounted.label.dpart);
    match Tree::from_index(alloc, &mounted.index, letters, mounted.label.block) {
        Ok(tree) => Ok(FoundTree {
            tree,
            generation: mounted.newest,
            spot: spot_of(&mounted),
        }),
        Err(NoMemory) => Err(MountErr::NoMemory),
    }
}

/// Where the chosen index stands.
fn spot_of(mounted: &Mounted) -> Spot
    ensures { result ≡ record {
      letter = letter_of mounted.now.label mounted.now.chosen.part;
      block = mounted.now.chosen.pos;
    } }
{
    let letter = match mounted.chosen.part {
        Part::Ip => mounted.label.index,
        Part::Dp => mounted.label.dpart,
    };
    Spot {
        letter,
        block: mounted.chosen.pos,
    }
}

/// Writes the listing of a tree, and answers the status with which the run ends.
pub fn write_found<K: Sink>(alloc: Global, all: bool, found: &FoundTree, out: &mut K) -> Status
    ensures { (tape : Tape)
        → IsListingTold (listing_of all tape found.now) (written K.Sink out.old out.new) (status_number result) }
{
    match write_tree(alloc, all, &found.tree, found.generation, found.spot, out) {
        Ok(()) => Status::Done,
        Err(ListErr::Sink) => Status::Sink,
        Err(ListErr::NoMemory) => match out.write(b"memory\n") {
            Ok(()) => Status::NoMemory,
            Err(_) => Status::Sink,
        },
    }
}
