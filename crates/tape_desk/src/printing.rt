//! How the log is printed: each line in the turn in which it can be.

ghost use Rattle.std.specs.Prelude.{◌≡◌, false, length, option_map, slice_get};
ghost use Rattle.event_journal.specs.LetGo.{is_past};
ghost use Rattle.event_journal.specs.Placements.{there};
ghost use Rattle.line_printer.specs.Printing.{IsOver};
ghost use Rattle.tape_desk.specs.Printed.{IsHereFrom, IsPrinted, IsTakenTo};

use line_printer::Printer;
use session_script::Reply;
use tape_drive::Drive;
use tape_edge::{Clock, Sink};
use volume_core::Volume;

/// Prints the lines of all places whose replies, and those of all before them, are there. Where a write has failed or
/// the sink is left alone, nothing is printed. The reply of the next line isn't gone, nor any behind it: when the last
/// call was placed it had not been handed out.
pub fn print_ready<D: Drive, C: Clock, K: Sink>(volume: &Volume<D, C>, printer: &mut Printer<K>)
    requires count { length volume.now.replies ≡ length volume.now.history }
    requires taken { IsTakenTo K.Sink volume.now.history volume.now.replies printer.old }
    requires here { printer.old.quiet ≡ false → printer.old.broken ≡ false
        → is_past printer.old.lines volume.now.marks ≡ false }
    ensures over { IsOver printer.old printer.new }
    ensures printed { IsPrinted K.Sink volume.now printer.new }
{
    // Placements are counted in 64 bits.
    let _few = volume.placements();
    while printer.is_open() {
        let place = printer.lines();
        let Some(reply) = reply_here(volume, place) else {
            break;
        };
        printer.print(&volume.placed(place), reply);
    }
    printer.send();
}

/// The reply at a place, where it is there. It isn't gone, as one up to this place had not been handed out when the last
/// call was placed.
fn reply_here<'a, D: Drive, C: Clock>(volume: &'a Volume<D, C>, place: u64) -> Option<&'a Reply>
    requires { IsHereFrom place volume.now.marks }
    ensures { option_map (λ r. r.now) result ≡ there (slice_get volume.now.replies place) }
{
    volume.reply(place)
}
