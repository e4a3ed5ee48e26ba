//! The reads that wait.

ghost use Rattle.std.specs.Prelude.{◌≡◌, ◌+◌, ◌-◌, ◌<◌, ◌≤◌, ◌∷◌, ◌++◌, [], false, length, take, vec_len, vec_capacity};
ghost use Rattle.std.specs.Prelude.{OnOk, IfSome, None, slice_get};
ghost use Rattle.waiting_reads.specs.Waiting.{HasTicket, IsAnswerAt, IsFilledOne, IsFinished, IsForgotten, IsTakenOut};
ghost use Rattle.waiting_reads.specs.Waiting.{answer_for, for_others, has_ticket};

use crate::reading::Reading;
use plain_tree::Answer;
use std::alloc::Global;
use std::marker::Model;
use tape_types::{NoMemory, Place};

/// The reads that wait, in the order in which they came, and the answers that are kept until they are handed out, each
/// with its read's ticket. There is room for the answers of all reads that wait.
#[derive(Drop)]
pub struct Readings {
    reads: Vec<Reading>,
    answered: Vec<(u64, Answer)>,
}

impl Model for Readings {
    ghost use Rattle.std.specs.Prelude.{◌-◌, ◌≤◌, min, vec_len, vec_capacity};
    ghost use Rattle.waiting_reads.specs.Waiting.{Waiting};

    ghost Value = { Waiting };

    ghost view = { λ a. record {
      reads = a.reads.items;
      answered = a.answered.items;
      spare = min (vec_capacity a.reads - vec_len a.reads)
          (vec_capacity a.answered - vec_len a.answered - vec_len a.reads);
    } };

    ghost invariant = { λ a. vec_len a.reads ≤ vec_capacity a.answered - vec_len a.answered };
}

impl Readings {
    /// None. Takes no memory.
    pub fn new(alloc: Global) -> Readings
        ensures reads { result.reads ≡ [] }
        ensures answered { result.answered ≡ [] }
    {
        Readings {
            reads: Vec::new(alloc),
            answered: Vec::new(alloc),
        }
    }

    /// Makes room for one more read, and for its answer.
    pub fn reserve(&mut self) -> Result<(), NoMemory>
        ensures reads { self.new.reads ≡ self.old.reads }
        ensures answered { self.new.answered ≡ self.old.answered }
        ensures room { OnOk result (1 ≤ self.new.spare) }
    {
        self.reads.reserve(1)?;
        self.answered.reserve(self.reads.len() + 1)?;
        Ok(())
    }

    /// One more read waits. Needs one `reserve` before, and takes no memory.
    pub fn add(&mut self, reading: Reading)
        requires { 1 ≤ self.old.spare }
        ensures reads { self.new.reads ≡ self.old.reads ++ reading ∷ [] }
        ensures answered { self.new.answered ≡ self.old.answered }
        ensures room { self.old.spare ≤ self.new.spare + 1 }
    {
        push(&mut self.reads, reading);
    }

    /// A block was read for the read with this ticket. Takes no memory.
    pub fn fill(&mut self, ticket: u64, place: Place, block: &[u8])
        requires { HasTicket self.old.reads ticket }
        ensures filled { IsFilledOne ticket place block.now self.old.reads self.new.reads }
        ensures answered { self.new.answered ≡ self.old.answered }
        ensures room { self.new.spare ≡ self.old.spare }
    {
        let at = place_of(&self.reads, ticket);
        self.reads[at].fill(place, block);
    }

    /// Takes out the read with this ticket.
    pub fn take(&mut self, ticket: u64) -> Reading
        requires { HasTicket self.old.reads ticket }
        ensures taken { IsTakenOut ticket self.old.reads self.new.reads result }
        ensures answered { self.new.answered ≡ self.old.answered }
        ensures room { self.old.spare + 1 ≡ self.new.spare }
    {
        let at = place_of(&self.reads, ticket);
        self.reads.remove(at)
    }

    /// All blocks were read of the read with this ticket, so it is answered. The answer is kept as well, until it is
    /// handed out. Takes no memory.
    pub fn finish(&mut self, ticket: u64) -> Answer
        requires { HasTicket self.old.reads ticket }
        ensures finished { IsFinished ticket self.old.reads self.new.reads result }
        ensures answered { self.new.answered ≡ self.old.answered ++ (ticket, result) ∷ [] }
        ensures room { self.old.spare ≤ self.new.spare }
    {
        let (answer, copy) = self.take(ticket).pair();
        self.keep(ticket, copy);
        answer
    }

    /// The read with this ticket has failed, so it waits no more. Takes no memory.
    pub fn forget(&mut self, ticket: u64)
        requires { HasTicket self.old.reads ticket }
        ensures forgotten { IsForgotten ticket self.old.reads self.new.reads }
        ensures answered { self.new.answered ≡ self.old.answered }
        ensures room { self.old.spare ≤ self.new.spare }
    {
        drop(self.take(ticket));
    }

    /// The answer that is kept for this ticket, which is handed out: it is kept no more. Takes no memory.
    pub fn hand(&mut self, ticket: u64) -> Option<Answer>
        ensures handed { result ≡ answer_for ticket self.old.answered }
        ensures reads { self.new.reads ≡ self.old.reads }
        ensures answered { self.new.answered ≡ for_others ticket self.old.answered }
        ensures room { self.old.spare ≤ self.new.spare }
    {
        let found = take_first(&mut self.answered, ticket);
        keep_others(&mut self.answered, ticket);
        found
    }

    /// Keeps an answer, for which there is room.
    fn keep(&mut self, ticket: u64, answer: Answer)
        requires { 1 ≤ self.old.spare }
        ensures reads { self.new.reads ≡ self.old.reads }
        ensures answered { self.new.answered ≡ self.old.answered ++ (ticket, answer) ∷ [] }
        ensures room { self.old.spare ≤ self.new.spare + 1 }
    {
        push_answer(&mut self.answered, (ticket, answer));
    }

    /// A read waits with this ticket.
    pub fn has(&self, ticket: u64) -> bool
        ensures { result ≡ has_ticket ticket self.now.reads }
    {
        self.reads.iter().any(|reading| reading.ticket() == ticket)
    }

    /// How many wait.
    pub fn len(&self) -> usize
        ensures { result ≡ length self.now.reads }
    {
        self.reads.len()
    }
}

/// One more read, for which there is room.
fn push(reads: &mut Vec<Reading>, reading: Reading)
    requires { vec_len reads.old < vec_capacity reads.old }
    ensures items { reads.new.items ≡ reads.old.items ++ reading ∷ [] }
    ensures len { vec_len reads.new ≡ vec_len reads.old + 1 }
    ensures capacity { vec_capacity reads.old ≤ vec_capacity reads.new }
{
    if reads.push(reading).is_err() {
        unreachable!();
    }
}

/// One more answer, for which there is room.
fn push_answer(answered: &mut Vec<(u64, Answer)>, one: (u64, Answer))
    requires { vec_len answered.old < vec_capacity answered.old }
    ensures items { answered.new.items ≡ answered.old.items ++ one ∷ [] }
    ensures len { vec_len answered.new ≡ vec_len answered.old + 1 }
    ensures capacity { vec_capacity answered.old ≤ vec_capacity answered.new }
{
    if answered.push(one).is_err() {
        unreachable!();
    }
}

/// Takes out the first answer for this ticket.
#[tactic(auto, using(crate::proofs::AnswerLemmas::taken_first, crate::proofs::AnswerLemmas::others_stay))]
fn take_first(answered: &mut Vec<(u64, Answer)>, ticket: u64) -> Option<Answer>
    ensures found { result ≡ answer_for ticket answered.old.items }
    ensures others { for_others ticket answered.new.items ≡ for_others ticket answered.old.items }
    ensures len { vec_len answered.new ≤ vec_len answered.old }
    ensures capacity { vec_capacity answered.new ≡ vec_capacity answered.old }
{
    let at = place_for(answered.as_slice(), ticket)?;
    let (_, answer) = answered.remove(at);
    Some(answer)
}

/// Where the first answer for this ticket is.
fn place_for(answered: &[(u64, Answer)], ticket: u64) -> Option<usize>
    ensures within { IfSome result (λ at. at < length answered.now) }
    ensures found { IfSome result (λ at. IsAnswerAt ticket at answered.now) }
    ensures none { result ≡ None → answer_for ticket answered.now ≡ None }
{
    for at in 0..answered.len() {
        if answered[at].0 == ticket {
            return Some(at);
        }
    }
    None
}

/// Keeps only the answers for other tickets.
fn keep_others(answered: &mut Vec<(u64, Answer)>, ticket: u64)
    ensures left { answered.new.items ≡ for_others ticket answered.old.items }
    ensures len { vec_len answered.new ≤ vec_len answered.old }
    ensures capacity { vec_capacity answered.new ≡ vec_capacity answered.old }
{
    answered.retain(|kept| kept.0 != ticket);
}

/// Where the first read with this ticket is.
fn place_of(reads: &[Reading], ticket: u64) -> usize
    requires { HasTicket reads.now ticket }
    ensures within { result < length reads.now }
    ensures before { has_ticket ticket (take result reads.now) ≡ false }
    ensures here { IfSome (slice_get reads.now result) (λ g. g.ticket ≡ ticket) }
{
    for at in 0..reads.len() {
        if reads[at].ticket() == ticket {
            return at;
        }
    }
    unreachable!();
}
