ghost use Rattle.std.specs.Prelude.{◌≡◌, None, IfOk};
ghost use Rattle.tape_drive.specs.Crashes.{AllowsAll};
ghost use Rattle.format_volume.specs.Refusals.{spec_fault};
ghost use Rattle.commands.specs.BasicCommands.Formats.{format_status, format_text, formatted_text, full_text};
ghost use Rattle.commands.specs.BasicCommands.Promises.{DoesFormat};
ghost use Rattle.commands.specs.BasicCommands.Runs.{written};
ghost use Rattle.commands.specs.BasicCommands.Statuses.{status_number};

use crate::basic_commands::ended::{Ended, Status};
use crate::basic_commands::labels::drive_text;
use crate::basic_commands::session::moment;
use crate::basic_commands::telling::{bytes_of, tell, tell_made};
use crate::command_line::FormatWords;
use format_volume::{FormatErr, format};
use std::alloc::Global;
use tape_drive::Drive;
use tape_edge::{Clock, Sink};
use tape_types::{Bytes, NoMemory, uuid_text};

/// The command `format`: makes the cartridge the empty volume of the words, whatever it held, and writes its UUID. Its
/// moment is the given one, or else the clock's next. A crash may leave anything on the way.
pub fn run_format<D: Drive, K: Sink, C: Clock>(
    alloc: Global,
    asked: FormatWords,
    drive: D,
    out: &mut K,
    mut clock: C,
) -> Ended<D>
    requires fine { spec_fault asked.volume ≡ None }
    requires all { AllowsAll D.allows }
    ensures { DoesFormat asked (C.gives clock) D.Drive drive result.drive (written K.Sink out.old out.new)
        result.status result.log }
{
    let at = moment(asked.at, &mut clock);
    let line = match formatted_text(alloc, asked.volume.uuid) {
        Ok(line) => line,
        Err(NoMemory) => return tell(out, b"memory\n", Status::NoMemory, None, drive),
    };
    let mut spec = asked.volume;
    spec.at = at;
    let mut drive = drive;
    match format(alloc, &mut drive, &spec) {
        Ok(()) => tell(out, line.as_slice(), Status::Done, None, drive),
        Err(error) => tell_made(
            out,
            format_text(alloc, error),
            format_status(error),
            None,
            drive,
        ),
    }
}

/// That the volume with this UUID was made.
fn formatted_text(alloc: Global, uuid: u128) -> Result<Bytes, NoMemory>
    ensures { IfOk result (λ text. text ≡ formatted_text uuid) }
{
    let mut text = Vec::new(alloc);
    text.extend_from_slice(b"formatted ")?;
    text.extend_from_slice(&uuid_text(uuid))?;
    text.push(b'\n')?;
    Ok(Bytes::from_vec(text))
}

/// That a partition has too few positions.
pub fn full_text(alloc: Global, need: u64, limit: u64) -> Result<Bytes, NoMemory>
    ensures { IfOk result (λ text. text ≡ full_text need limit) }
{
    Ok(bytes_of(format!(in alloc; "full {need} {limit}\n")?))
}

/// Why a cartridge was not formatted. A value that a volume may not have is a word of no form.
fn format_text(alloc: Global, error: FormatErr) -> Result<Bytes, NoMemory>
    ensures { IfOk result (λ text. text ≡ format_text error) }
{
    match error {
        FormatErr::BadSpec(_) => Ok(bytes_of(format!(in alloc; "words\n")?)),
        FormatErr::Full { need, limit } => full_text(alloc, need, limit),
        FormatErr::Drive(counts) => drive_text(alloc, counts),
        FormatErr::NoMemory => Ok(bytes_of(format!(in alloc; "memory\n")?)),
    }
}

fn format_status(error: FormatErr) -> Status
    ensures { status_number result ≡ format_status error }
{
    match error {
        FormatErr::BadSpec(_) => Status::Words,
        FormatErr::Full { .. } => Status::Full,
        FormatErr::Drive(_) => Status::Drive,
        FormatErr::NoMemory => Status::NoMemory,
    }
}
