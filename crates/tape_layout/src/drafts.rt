ghost use Rattle.std.specs.Prelude.{◌≡◌, ◌+◌, ◌*◌, ◌<◌, ◌≤◌, ◌^◌, [], ◌∷◌, ◌++◌, length, OnOk};
ghost use Rattle.std.specs.Int.{div_ceil};
ghost use Rattle.tape_layout.specs.Ops.{construct, place_of, puts};
ghost use Rattle.tape_layout.specs.Plans.{drafted, more};

use crate::index_construct::{blocks, piece};
use crate::ops::Op;
use crate::standing::{Ends, Standing};
use std::alloc::Global;
use std::collections::VecDeque;
use std::marker::Model;
use tape_types::{Bytes, NoMemory, Place};

/// Ops that are made to be admitted together.
#[derive(Drop)]
pub struct Draft {
    pub start: Ends,
    pub ends: Ends,
    pub items: VecDeque<Standing>,
}

impl Model for Draft {
    ghost use Rattle.tape_layout.specs.Ops.{ops_of};
    ghost use Rattle.tape_layout.specs.Plans.{Drafted, IsDraft, drafted};

    ghost Value = { Drafted };

    ghost view = { λ a. drafted a.start (ops_of a.items.items) };

    ghost invariant = { λ a. IsDraft (drafted a.start (ops_of a.items.items)) a.ends a.items.items };
}

impl Draft {
    /// No ops, to be admitted at these ends.
    pub fn new(alloc: Global, start: Ends) -> Draft
        ensures { result ≡ drafted start [] }
    {
        Draft {
            start,
            ends: start,
            items: VecDeque::new(alloc),
        }
    }

    /// Appends an op.
    pub fn push(&mut self, op: Op) -> Result<(), NoMemory>
        requires { (place_of op).pos + 1 < 2 ^ 64 }
        ensures { OnOk result (self.new ≡ more self.old (op ∷ [])) }
    {
        let ends = self.ends.after(&op);
        match self.items.push_back(Standing { op, ends }) {
            Ok(()) => {
                self.ends = ends;
                Ok(())
            }
            Err(_) => Err(NoMemory),
        }
    }

    /// Appends the blocks of a document, one after the other from a place on.
    pub fn put_all(
        &mut self,
        alloc: Global,
        place: Place,
        doc: &[u8],
        block: u32,
    ) -> Result<(), NoMemory>
        requires size { 1 ≤ block }
        requires room { place.pos + div_ceil (length doc.now) block < 2 ^ 64 }
        ensures { OnOk result (self.new ≡ more self.old (puts block place.part place.pos doc.now)) }
    {
        for k in 0..blocks(doc.len() as u64, block) {
            let mut bytes = Bytes::new(alloc);
            bytes.extend(piece(doc, block, k))?;
            let pos = place.pos + k;
            self.push(Op::Put {
                place: Place { pos, ..place },
                bytes,
            })?;
        }
        Ok(())
    }

    /// Appends an index with this text from a place on: a mark, its blocks and a mark, and then a flush.
    pub fn put_index(
        &mut self,
        alloc: Global,
        place: Place,
        doc: &[u8],
        block: u32,
    ) -> Result<(), NoMemory>
        requires size { 1 ≤ block }
        requires room { place.pos + 3 + div_ceil (length doc.now) block < 2 ^ 64 }
        ensures { OnOk result (self.new ≡ more self.old (construct block place.part place.pos doc.now)) }
    {
        let first = place.pos + 1;
        let last = first + blocks(doc.len() as u64, block);
        self.push(Op::Mark { place })?;
        self.put_all(
            alloc,
            Place {
                pos: first,
                ..place
            },
            doc,
            block,
        )?;
        self.push(Op::Mark {
            place: Place { pos: last, ..place },
        })?;
        self.push(Op::Flush {
            place: Place {
                pos: last + 1,
                ..place
            },
        })
    }
}
