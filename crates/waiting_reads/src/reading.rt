//! One read that waits.

ghost use Rattle.std.specs.Prelude.{◌≡◌, ◌≢◌, ◌≤◌, false, length, replicate, IfOk};
ghost use Rattle.tape_types.specs.Bounds.{longest_file};
ghost use Rattle.extent_map.specs.Cells.{Tape};
ghost use Rattle.extent_map.specs.Replies.{places_in, size_of};
ghost use Rattle.plain_tree.specs.declared.calls.Answer.TheVariants as answers;
ghost use Rattle.waiting_reads.specs.Gathering.{IsAnswered, IsGathering};
ghost use Rattle.waiting_reads.specs.Waiting.{IsFilledBy};

use crate::stands::{Stand, bytes_in, fill_at, stands_of};
use extent_map::{Piece, places_of};
use plain_tree::{Answer, Refusal};
use std::alloc::Global;
use std::marker::Model;
use tape_types::{Bytes, List, NoMemory, Place};

/// A read that waits for blocks: its place in the history, its pieces, and the bytes so far, which are zeros where a
/// block is to come. There is room for a copy of them, and where the pieces stand is noted.
#[derive(Drop)]
pub struct Reading {
    ticket: u64,
    pieces: List<Piece>,
    stands: Vec<Stand>,
    bytes: Vec<u8>,
    copy: Vec<u8>,
    whole: bool,
}

impl Model for Reading {
    ghost use Rattle.waiting_reads.specs.Gathering.{Gathering, IsSized};
    ghost use Rattle.waiting_reads.specs.Stands.{AreStands};

    ghost Value = { Gathering };

    ghost view = { λ a. record { ticket = a.ticket; pieces = a.pieces; bytes = a.bytes.items; whole = a.whole } };

    ghost invariant = { λ a. IsSized a.pieces a.bytes.items a.copy.items × AreStands a.pieces a.stands.items };
}

impl Reading {
    /// A read of these pieces, for which no block was read.
    pub fn new(alloc: Global, ticket: u64, pieces: List<Piece>) -> Result<Reading, NoMemory>
        requires { size_of pieces ≤ longest_file }
        ensures ticket { IfOk result (λ g. g.ticket ≡ ticket) }
        ensures pieces { IfOk result (λ g. g.pieces ≡ pieces) }
        ensures begins { IfOk result (λ g. (tape : Tape) → IsGathering tape (λ place. false) g) }
    {
        let count = size(pieces.as_slice());
        let stands = stands_of(alloc, pieces.as_slice())?;
        let bytes = zeros(alloc, count)?;
        let copy = zeros(alloc, count)?;
        Ok(Reading {
            ticket,
            pieces,
            stands,
            bytes,
            copy,
            whole: true,
        })
    }

    /// Puts in the bytes of the block at a place, or none where no block stands there. The blocks may come in any
    /// order. Takes no memory.
    pub fn fill(&mut self, place: Place, block: &[u8])
        ensures { IsFilledBy place block.now self.old self.new }
    {
        if self.whole {
            let stands = self.stands.as_slice();
            self.whole = fill_at(
                stands,
                self.pieces.as_slice(),
                &mut self.bytes,
                place,
                block,
            );
        }
    }

    /// The places of the blocks that it needs, each once.
    pub fn places(&self, alloc: Global) -> Result<List<Place>, NoMemory>
        ensures { IfOk result (λ places. places ≡ places_in self.now.pieces) }
    {
        places_of(alloc, self.pieces.as_slice())
    }

    /// What it is answered once all its blocks were read.
    pub fn answer(self) -> Answer
        ensures answered { IsAnswered self result }
        ensures no_sync { result ≢ answers.Synced }
    {
        if self.whole {
            Answer::Got(Bytes::from_vec(self.bytes))
        } else {
            Answer::Refused(Refusal::Damaged)
        }
    }

    /// The same answer twice. Takes no memory.
    pub fn pair(self) -> (Answer, Answer)
        ensures answered { IsAnswered self result.0 }
        ensures no_sync { result.0 ≢ answers.Synced }
        ensures copied { result.1 ≡ result.0 }
    {
        let Reading {
            bytes,
            copy,
            whole,
            ..
        } = self;
        if whole {
            twice(bytes, copy)
        } else {
            let lost = Refusal::Damaged;
            (Answer::Refused(lost), Answer::Refused(lost))
        }
    }

    /// Its place in the history.
    pub fn ticket(&self) -> u64
        ensures { result ≡ self.now.ticket }
    {
        self.ticket
    }
}

/// The bytes as an answer, and again in memory that is there.
fn twice(bytes: Vec<u8>, copy: Vec<u8>) -> (Answer, Answer)
    requires { length copy.items ≡ length bytes.items }
    ensures first { result.0 ≡ answers.Got bytes.items }
    ensures second { result.1 ≡ answers.Got bytes.items }
{
    let mut copy = copy;
    copy.copy_from_slice(bytes.as_slice());
    (
        Answer::Got(Bytes::from_vec(bytes)),
        Answer::Got(Bytes::from_vec(copy)),
    )
}

/// How many bytes these pieces have.
fn size(pieces: &[Piece]) -> usize
    requires { size_of pieces.now ≤ longest_file }
    ensures { result ≡ size_of pieces.now }
{
    let mut total = 0;
    for piece in pieces {
        total += bytes_in(piece);
    }
    total
}

/// So many zeros.
fn zeros(alloc: Global, count: usize) -> Result<Vec<u8>, NoMemory>
    ensures { IfOk result (λ bytes. bytes.items ≡ replicate count 0) }
{
    Ok(vec![in alloc; 0u8; count]?)
}
