ghost use Rattle.commands.specs.BasicCommands.Runs.{written};
ghost use Rattle.generation_view.specs.ViewCommands.Promises.{DoesGenerations};

use crate::generations;
use crate::view_commands::texts::{generations_text, view_status, view_text};
use commands::basic_commands::{Ended, Status, tell_made};
use std::alloc::Global;
use tape_drive::Drive;
use tape_edge::Sink;

/// The command `generations`: tells the generations that the data partition of the cartridge still has, the newest
/// first, a line for each. Nothing is written to the cartridge.
pub fn run_generations<D: Drive, K: Sink>(alloc: Global, drive: D, out: &mut K) -> Ended<D>
    ensures { DoesGenerations D.Drive drive result.drive (written K.Sink out.old out.new) result.status result.log }
{
    let mut drive = drive;
    match generations(alloc, &mut drive) {
        Ok(told) => tell_made(
            out,
            generations_text(alloc, told.as_slice()),
            Status::Done,
            None,
            drive,
        ),
        Err(error) => tell_made(
            out,
            view_text(alloc, error),
            view_status(error),
            None,
            drive,
        ),
    }
}
