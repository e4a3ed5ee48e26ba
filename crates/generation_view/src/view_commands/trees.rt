ghost use Rattle.std.specs.Prelude.{◌≡◌, None, Some};
ghost use Rattle.plain_tree.specs.Paths.{Path};
ghost use Rattle.tape_drive.specs.Looks.{Looks};
ghost use Rattle.generation_view.specs.Views.{Opened};
ghost use Rattle.commands.specs.BasicCommands.Runs.{written};
ghost use Rattle.generation_view.specs.ViewCommands.Outcomes.{IsReadTold, IsSeenTold};
ghost use Rattle.generation_view.specs.ViewCommands.Promises.{DoesView};

use crate::view_commands::answers::answer_line;
use crate::view_commands::texts::{view_status, view_text};
use crate::{ReadErr, View, open_view};
use commands::basic_commands::{
    Ended, FoundTree, Status, drive_text, tell, tell_made, write_found,
};
use commands::command_line::ViewWords;
use std::alloc::Global;
use tape_drive::Drive;
use tape_edge::Sink;
use tape_types::{List, Text};

/// How many bytes of a file are read at most.
const MOST: u64 = 1_048_576;

/// The command `view`: writes the tree of a generation as `list` writes the newest one, with as much as is asked for,
/// or, where a path is asked for, the reply to a read of the file there. Nothing is written to the cartridge.
pub fn run_view<D: Drive, K: Sink>(
    alloc: Global,
    asked: ViewWords,
    drive: D,
    out: &mut K,
) -> Ended<D>
    ensures { DoesView asked D.Drive drive result.drive (written K.Sink out.old out.new) result.status result.log }
{
    let mut drive = drive;
    let ViewWords {
        generation,
        path,
        all,
    } = asked;
    match open_view(alloc, &mut drive, generation) {
        Ok(view) => {
            // The tree is good.
            let _tree_is_good = view.tree().count();
            match path {
                None => write_view(alloc, all, view, drive, out),
                Some(path) => read_view(alloc, view, path, drive, out),
            }
        }
        Err(error) => tell_made(
            out,
            view_text(alloc, error),
            view_status(error),
            None,
            drive,
        ),
    }
}

/// Writes the listing of a view.
fn write_view<D: Drive, K: Sink>(
    alloc: Global,
    all: bool,
    view: View<D>,
    drive: D,
    out: &mut K,
) -> Ended<D>
    ensures told { IsSeenTold all view (written K.Sink out.old out.new) result.status }
    ensures drive { result.drive ≡ drive }
    ensures log { result.log ≡ None }
{
    let generation = view.generation();
    let spot = view.spot();
    let found = FoundTree {
        tree: view.into_tree(),
        generation,
        spot,
    };
    let status = write_found(alloc, all, &found, out);
    Ended {
        status: status.number(),
        drive,
        log: None,
    }
}

/// Writes the reply to a read of a file of a view.
fn read_view<D: Drive, K: Sink>(
    alloc: Global,
    view: View<D>,
    path: List<Text>,
    drive: D,
    out: &mut K,
) -> Ended<D>
    requires told { D.held drive ≡ view.told }
    requires limits { D.limits drive ≡ view.limits }
    ensures { IsReadTold D.Drive view path drive result.drive (written K.Sink out.old out.new) result.status
        result.log }
{
    let mut drive = drive;
    match view.read(alloc, &mut drive, path, 0, MOST) {
        Ok(answer) => tell_made(out, answer_line(alloc, answer), Status::Done, None, drive),
        Err(ReadErr::Drive(counts)) => tell_made(
            out,
            drive_text(alloc, counts),
            Status::Drive,
            None,
            drive,
        ),
        Err(ReadErr::NoMemory) => tell(out, b"memory\n", Status::NoMemory, None, drive),
    }
}
