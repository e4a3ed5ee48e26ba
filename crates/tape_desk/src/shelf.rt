//! The volume and what prints its log, as the lock sees them.

ghost use Rattle.std.specs.Prelude.{◌≡◌, length};
ghost use Rattle.session_script.specs.Grammar.{calls_of};
ghost use Rattle.promises.specs.ServingPromise.Ends.{begun};
ghost use Rattle.line_printer.specs.Printing.{blank};

use crate::printing::print_ready;
use line_printer::Printer;
use promises::serving_promise::{Drained, Mark, Submitted, Turn};
use run_laws::log_laws::logs_go_on;
use std::marker::Model;
use std::snapshot::Snapshot;
use tape_drive::Drive;
use tape_edge::{Clock, Sink};
use turn_lock::Logged;
use volume_core::Volume;

/// A volume that is shared, with all that is promised of it, and what prints its log: whenever it is handed on, all that
/// can be printed has been. Its history is the list of the volume's marks.
pub struct Shelf<D: Drive, C: Clock, K: Sink> {
    pub volume: Volume<D, C>,
    pub printer: Printer<K>,
}

impl<D: Drive, C: Clock, K: Sink> Model for Shelf<D, C, K> {
    ghost use Rattle.std.specs.FinMap as fin;
    ghost use Rattle.std.specs.Coded.{codes, coded_list, coded_ℕ};
    ghost use Rattle.plain_tree.specs.Paths.{path_cmp};
    ghost use Rattle.plain_tree.specs.contracts.nodes.Node as node;
    ghost use Rattle.tape_desk.specs.Held.{HeldView};
    ghost use Rattle.tape_desk.specs.Printed.{IsPrinted};
    ghost use Rattle.tape_desk.specs.Promised.{IsPromised};

    ghost Value = { HeldView D K };

    ghost coded = { Prim.hlevel (codes, fin.code {R = path_cmp} (coded_list (coded_list coded_ℕ)) node.the_row.coded) };

    ghost view = { λ s. record { volume = s.volume; printer = s.printer } };

    ghost invariant = { λ s. IsPromised D.Drive s.volume × IsPrinted K.Sink s.volume s.printer };
}

impl<D: Drive, C: Clock, K: Sink> Shelf<D, C, K> {
    ghost use Rattle.promises.specs.ServingPromise.Marks.{draining, phase, waits};
    ghost use Rattle.promises.specs.ServingPromise.Submits.{CanSubmit};
    ghost use Rattle.tape_desk.specs.Held.{HasAdded};
    ghost use Rattle.tape_desk.specs.Turns.{kinds_of_drain, kinds_of_submit, kinds_of_turn};

    /// Of the volume nothing was asked, and nothing was printed.
    pub fn new(volume: Volume<D, C>, printer: Printer<K>) -> Shelf<D, C, K>
        requires fresh { volume ≡ begun volume.fixed volume.next }
        requires blank { printer ≡ blank printer.first printer.quiet }
        ensures { result ≡ record { volume = volume; printer = printer } }
    {
        volume.keeps();
        logs_go_on::<D>();
        Shelf { volume, printer }
    }

    /// How many calls the script has for a session.
    pub(crate) fn count(&self, who: u16) -> u32
        ensures { result ≡ length (calls_of self.now.volume.fixed.script who) }
    {
        self.volume.count(who)
    }

    /// Places the session's next call, or puts it off, and prints what can be printed.
    pub(crate) fn submit(&mut self, who: u16, nth: u32) -> Submitted
        requires { CanSubmit self.old.volume who nth }
        ensures { HasAdded who (kinds_of_submit (length self.old.volume.history) result) self.old self.new }
    {
        logs_go_on::<D>();
        let answer = self.volume.submit(who, nth);
        print_ready(&self.volume, &mut self.printer);
        answer
    }

    /// A turn of a session that waits for the reply of a place. What can be printed then is printed.
    pub(crate) fn turn(&mut self, who: u16, ticket: u64) -> Turn
        requires { phase who self.old.volume.marks ≡ waits ticket }
        ensures { HasAdded who (kinds_of_turn ticket result) self.old self.new }
    {
        logs_go_on::<D>();
        let answer = self.volume.turn(ticket);
        print_ready(&self.volume, &mut self.printer);
        answer
    }

    /// A turn of a session that drains. What can be printed then is printed.
    pub(crate) fn drain_turn(&mut self, who: u16) -> Drained
        requires { phase who self.old.volume.marks ≡ draining }
        ensures { HasAdded who (kinds_of_drain (length self.old.volume.history) result) self.old self.new }
    {
        logs_go_on::<D>();
        let answer = self.volume.drain_turn(who);
        print_ready(&self.volume, &mut self.printer);
        answer
    }
}

/// A shelf as the lock has it: what changes hands with a turn is one word.
pub(crate) struct BoxedShelf<D: Drive, C: Clock, K: Sink> {
    pub(crate) shelf: Box<Shelf<D, C, K>>,
}

/// What no call changes of the two. No value of it is made.
pub struct Constant<D: Drive, C: Clock, K: Sink> {
    of: Snapshot<Shelf<D, C, K>>,
}

impl<D: Drive, C: Clock, K: Sink> Model for Constant<D, C, K> {
    ghost use Rattle.std.specs.FinMap as fin;
    ghost use Rattle.std.specs.Coded.{codes, coded_list, coded_ℕ};
    ghost use Rattle.plain_tree.specs.Paths.{path_cmp};
    ghost use Rattle.plain_tree.specs.contracts.nodes.Node as node;
    ghost use Rattle.tape_desk.specs.Held.{Constants, constants};

    ghost Value = { Constants D K };

    ghost coded = { Prim.hlevel (codes, fin.code {R = path_cmp} (coded_list (coded_list coded_ℕ)) node.the_row.coded) };

    ghost view = { λ c. constants c.of.value };
}

impl<D: Drive, C: Clock, K: Sink> Logged for BoxedShelf<D, C, K> {
    ghost use Rattle.tape_desk.specs.Held.{constants};

    type Mark = Mark;

    type Fixed = Constant<D, C, K>;

    ghost history = { λ s. s.shelf.value.volume.marks };

    ghost names = { λ m. m.who };

    ghost fixed = { λ s. constants s.shelf.value };

    fn placed(&self) -> u64 {
        self.shelf.volume.marks()
    }
}
