ghost use Rattle.std.specs.Prelude.{◌≡◌, OnOk, OnErr, IfOk};
ghost use Rattle.plain_tree.specs.Calls.{after, answer};
ghost use Rattle.plain_tree.specs.Tree.{empty_tree};

use crate::calls::{Answer, Call};
use crate::map_tree::MapTree;
use std::alloc::Global;
use std::marker::Model;
use tape_types::{Moment, NoMemory};

/// The slow tree: what the calls of a session make of the empty tree.
#[derive(Drop)]
pub struct Plain {
    tree: MapTree,
}

impl Model for Plain {
    ghost use Rattle.std.specs.FinMap as fin;
    ghost use Rattle.std.specs.Prelude.{ℕ, refl};
    ghost use Rattle.std.specs.Coded.{codes, coded_list, coded_ℕ};
    ghost use Rattle.plain_tree.specs.declared.nodes.Node.{Node};
    ghost use Rattle.plain_tree.specs.contracts.nodes.Node as node;
    ghost use Rattle.plain_tree.specs.contracts.calls.LockState as state;
    ghost use Rattle.plain_tree.specs.Paths.{path_cmp};
    ghost use Rattle.plain_tree.specs.Tree.{Tree};
    ghost use Rattle.plain_tree.specs.Valid.{IsValid};

    ghost Value = { Tree };

    ghost coded = { Prim.hlevel (
      codes,
      state.the_row.coded,
      fin.code {R = path_cmp} (coded_list (coded_list coded_ℕ)) node.the_row.coded,
    ) };

    ghost view = { λ a. a.tree };

    ghost invariant = { λ a. IsValid a.tree };
}

impl Plain {
    /// The tree with the root alone, which has uid 1 and was made at this moment.
    pub fn empty(alloc: Global, at: Moment) -> Result<Plain, NoMemory>
        ensures { IfOk result (λ t. t ≡ empty_tree at) }
    {
        Ok(Plain {
            tree: MapTree::empty(alloc, at)?,
        })
    }

    /// Answers a call that is placed at a moment, and changes the tree as it says. Without memory nothing changes.
    pub fn apply(&mut self, call: &Call, at: Moment) -> Result<Answer, NoMemory>
        ensures answer { IfOk result (λ a. a ≡ answer self.old call.now) }
        ensures after { OnOk result (self.new ≡ after self.old call.now at) }
        ensures err { OnErr result (self.new ≡ self.old) }
    {
        self.tree.apply(call, at)
    }
}
