//! The characters for which a text stands, one after the other.

ghost use Rattle.std.specs.Prelude.{◌≡◌, ◌≤◌, ◌<◌, ◌+◌, ◌^◌, Bool, IfSome, IsUtf8, length};
ghost use Rattle.std.specs.Str.{chars};
ghost use Rattle.std.specs.Str.Iter.{chars_rest};
ghost use Rattle.ltfs_documents.specs.DocFields.Texts.{resolved};

use crate::doc_fields::errors::FieldErr;
use crate::doc_fields::texts::unit;
use std::marker::Model;
use std::str::Chars;

/// The characters for which a text stands that has been read up to a place. References are resolved, and each end of a
/// line is a line feed (XML 1.0, 2.11 and 4.6). It takes no memory.
#[derive(Clone, Drop)]
pub struct Characters<'a> {
    cut: bool,
    place: usize,
    rest: Chars<'a>,
}

impl<'a> Model for Characters<'a> {
    ghost use Rattle.std.specs.Str.Iter.{chars_rest};
    ghost use Rattle.ltfs_documents.specs.DocFields.Characters.{IsLeft, Left};

    ghost Value = { Left };

    ghost view = { λ a. record { cut = a.cut; place = a.place; rest = chars_rest a.rest } };

    ghost invariant = { λ a. IsLeft (record { cut = a.cut; place = a.place; rest = chars_rest a.rest }) };
}

/// Passes over so many characters, and gives the place behind them.
fn pass(rest: &mut Chars, place: usize, count: usize) -> usize
    requires utf8 { IsUtf8 (chars_rest rest.old) }
    requires fits { place + length (chars_rest rest.old) < 2 ^ 64 }
    ensures utf8 { IsUtf8 (chars_rest rest.new) }
    ensures place { result + length (chars_rest rest.new) ≡ place + length (chars_rest rest.old) }
    ensures fewer { length (chars_rest rest.new) ≤ length (chars_rest rest.old) }
    ensures stands { (cut : Bool) → resolved cut count place (chars (chars_rest rest.old))
        ≡ resolved cut 0 result (chars (chars_rest rest.new)) }
{
    let mut at = place;
    for i in 0..count {
        match rest.next() {
            Some(c) => at += c.len_utf8(),
            None => return at,
        }
    }
    at
}

impl<'a> Characters<'a> {
    ghost use Rattle.std.specs.Prelude.{◌≡◌, ◌<◌, ◌+◌, ◌^◌, length, IfSome};
    ghost use Rattle.ltfs_documents.specs.DocFields.Characters.{IsTaken, characters};

    /// Those of a text that begins at a place. `cut` says that the document ends behind it.
    pub(crate) fn of(cut: bool, place: usize, text: &'a str) -> Characters<'a>
        requires { place + length text.now < 2 ^ 64 }
        ensures { result ≡ record { cut = cut; place = place; rest = text.now } }
    {
        Characters {
            cut,
            place,
            rest: text.chars(),
        }
    }

    /// Takes the next character, or tells what may not stand there.
    pub fn next(&mut self) -> Option<Result<char, FieldErr>>
        ensures value { IsTaken result (characters self.old) (characters self.new) }
        ensures less { IfSome result (λ _. length self.new.rest < length self.old.rest) }
    {
        let at = self.place;
        let c = self.rest.next()?;
        self.place += c.len_utf8();
        match unit(self.cut, at, c, self.rest.as_str().as_bytes()) {
            Ok((given, more)) => {
                self.place = pass(&mut self.rest, self.place, more);
                Some(Ok(given))
            }
            Err(fault) => Some(Err(fault)),
        }
    }
}
