//! A line of the log, written in pieces.

ghost use Rattle.std.specs.Prelude.{◌≡◌, ◌⊎◌, ◌+◌, ◌<◌, ◌≤◌, [], ◌++◌, length, take, drop};
ghost use Rattle.session_script.specs.LogText.{line_text};

use crate::beginnings::{put_place, put_reply};
use crate::logs::Reply;
use crate::short::Short;
use crate::tails::{Tail, next_bytes};
use plain_tree::Placed;
use std::marker::Model;

/// The line of a placement and its reply, as far as it isn't written yet. Contracts see it as that text. It takes no
/// memory, however long the reply is.
#[derive(Drop)]
pub struct LogLine<'a> {
    /// The bytes that come next, of which so many are written.
    short: Short,
    given: usize,
    tail: Tail<'a>,
}

impl<'a> Model for LogLine<'a> {
    ghost use Rattle.std.specs.Prelude.{ℕ, ◌≤◌, List, ◌++◌, length, drop};
    ghost use Rattle.session_script.specs.LogLines.{tail_text};

    ghost Value = { List ℕ };

    ghost view = { λ l. drop l.given l.short ++ tail_text l.tail };

    ghost invariant = { λ l. l.given ≤ length l.short };
}

impl<'a> LogLine<'a> {
    /// The whole line, of which nothing is written yet.
    pub fn new(place: u64, placed: &Placed, reply: &'a Reply) -> LogLine<'a>
        ensures { result ≡ line_text place placed.now reply.now }
    {
        let mut short = Short::new();
        put_place(&mut short, place, placed);
        let tail = put_reply(&mut short, reply);
        LogLine {
            short,
            given: 0,
            tail,
        }
    }

    /// Writes the next bytes of the line from the front of the room on, and tells how many they are: as many as have
    /// room, but where the line ends before. So a line is written once fewer came than had room.
    pub fn fill(&mut self, room: &mut [u8]) -> usize
        ensures piece { self.old ≡ take result room.new ++ self.new }
        ensures within { result ≤ length room.old }
        ensures full { (result ≡ length room.old) ⊎ (self.new ≡ []) }
        ensures behind { drop result room.new ≡ drop result room.old }
    {
        let mut used = 0;
        while used < room.len() {
            let end = self.go_on(room, used);
            if end == used {
                return used;
            }
            used = end;
        }
        used
    }

    /// Writes a few of the next bytes from a place of the room on, and tells where they end. It is that place where none
    /// are left.
    fn go_on(&mut self, room: &mut [u8], at: usize) -> usize
        requires { at < length room.old }
        ensures same { take result room.new ++ self.new ≡ take at room.old ++ self.old }
        ensures later { at ≤ result }
        ensures within { result ≤ length room.old }
        ensures left { (at < result) ⊎ (self.new ≡ []) }
        ensures behind { drop result room.new ≡ drop result room.old }
    {
        if self.given < self.short.len() {
            let count = give(&self.short.as_slice()[self.given..], room, at);
            self.given += count;
            return at + count;
        }
        self.tail = next_bytes(&mut self.short, self.tail);
        self.given = give(self.short.as_slice(), room, at);
        at + self.given
    }
}

/// Copies as many bytes as have room from a place on.
fn give(bytes: &[u8], room: &mut [u8], at: usize) -> usize
    requires { at ≤ length room.old }
    ensures copied { take (at + result) room.new ≡ take at room.old ++ take result bytes.now }
    ensures within { at + result ≤ length room.old }
    ensures few { result ≤ length bytes.now }
    ensures some { 0 < length bytes.now → at < length room.old → 0 < result }
    ensures behind { drop (at + result) room.new ≡ drop (at + result) room.old }
{
    let count = bytes.len().min(room.len() - at);
    put(room, at, &bytes[..count]);
    count
}

fn put(room: &mut [u8], at: usize, bytes: &[u8])
    requires { at + length bytes.now ≤ length room.old }
    ensures { room.new ≡ take at room.old ++ bytes.now ++ drop (at + length bytes.now) room.old }
{
    room[at..at + bytes.len()].copy_from_slice(bytes);
}
