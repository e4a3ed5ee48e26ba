//! The passes of sessions.

ghost use Rattle.std.specs.Prelude.{◌≡◌};
ghost use Rattle.tape_desk.specs.Passes.{HasCount, IsRested};

use crate::shelf::BoxedShelf;
use std::marker::Model;
use tape_drive::Drive;
use tape_edge::{Clock, Sink};
use turn_lock::Pass;

/// What a session makes its calls with. Contracts see which desk it is of, its session, how many calls it has placed,
/// and what it has seen of the volume's marks.
#[derive(Drop)]
pub struct DeskPass<D: Drive, C: Clock, K: Sink> {
    pub(crate) pass: Pass<BoxedShelf<D, C, K>>,
    pub(crate) who: u16,
    pub(crate) placed: u32,
    pub(crate) count: u32,
}

impl<D: Drive, C: Clock, K: Sink> Model for DeskPass<D, C, K> {
    ghost use Rattle.std.specs.FinMap as fin;
    ghost use Rattle.std.specs.Coded.{codes, coded_list, coded_ℕ};
    ghost use Rattle.plain_tree.specs.Paths.{path_cmp};
    ghost use Rattle.plain_tree.specs.contracts.nodes.Node as node;
    ghost use Rattle.tape_desk.specs.Passes.{DeskView, IsHeld, view_of};

    ghost Value = { DeskView D K };

    ghost coded = { Prim.hlevel (codes, fin.code {R = path_cmp} (coded_list (coded_list coded_ℕ)) node.the_row.coded) };

    ghost view = { λ p. view_of p.pass p.who p.placed };

    ghost invariant = { λ p. IsHeld p.pass p.who p.placed p.count };
}

impl<D: Drive, C: Clock, K: Sink> DeskPass<D, C, K> {
    /// Its session.
    pub fn who(&self) -> u16
        ensures { result ≡ self.now.who }
    {
        self.who
    }

    /// How many of its session's calls were placed. Each has its reply.
    pub fn placed(&self) -> u32
        ensures placed { result ≡ self.now.placed }
        ensures rests { IsRested self.now }
    {
        self.placed
    }

    /// How many calls the script has for its session.
    pub fn count(&self) -> u32
        ensures { HasCount self.now result }
    {
        self.count
    }
}
