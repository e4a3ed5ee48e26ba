//! A path in a word.

ghost use Rattle.std.specs.Prelude.{◌≡◌, ◌<◌, ◌==◌, ◌∷◌, length, IfOk, IfSome};
ghost use Rattle.std.specs.List.{slice_split};
ghost use Rattle.session_script.specs.Readings.{pieces_left};
ghost use Rattle.session_script.specs.Words.{name_of, names_of, path_of, text_of};
ghost use Rattle.commands.specs.CommandLine.Options.{IsReadTo};

use crate::command_line::forms::WordsErr;
use memchr::memchr;
use percent_encoding::percent_decode;
use std::alloc::Global;
use tape_types::{List, NoMemory, Text};

/// The path that a word spells: `/`, or `/` before each name, with names escaped as in a script.
pub fn read_path(alloc: Global, word: &str) -> Result<List<Text>, WordsErr>
    ensures { IsReadTo (path_of word.now) result }
{
    match word.as_bytes() {
        [b'/'] => Ok(List::new(alloc)),
        [b'/', rest @ ..] => match read_names(alloc, rest) {
            Ok(Some(names)) => Ok(names),
            Ok(None) => Err(WordsErr::Form),
            Err(NoMemory) => Err(WordsErr::NoMemory),
        },
        _ => Err(WordsErr::Form),
    }
}

/// The names between slashes.
fn read_names(alloc: Global, text: &[u8]) -> Result<Option<List<Text>>, NoMemory>
    ensures { IfOk result (λ names. names ≡ names_of (slice_split (λ b. b == 47) text.now)) }
{
    let mut names = List::new(alloc);
    let mut left = Some(text);
    while let Some(rest) = left {
        let (piece, more) = cut(rest, b'/');
        let Some(name) = read_name(alloc, piece)? else {
            return Ok(None);
        };
        names.push(name)?;
        left = more;
    }
    Ok(Some(names))
}

/// What stands before the first such byte, and what stands behind it, where there is one.
fn cut(text: &[u8], byte: u8) -> (&[u8], Option<&[u8]>)
    ensures pieces { slice_split (λ b. b == byte) text.now ≡ result.0.now ∷ pieces_left byte result.1 }
    ensures shorter { IfSome result.1 (λ left. length left.now < length text.now) }
{
    match memchr(byte, text) {
        Some(at) => (&text[..at], Some(&text[at + 1..])),
        None => (text, None),
    }
}

/// The name that a piece spells, where it is one.
fn read_name(alloc: Global, piece: &[u8]) -> Result<Option<Text>, NoMemory>
    ensures { IfOk result (λ name. name ≡ name_of piece.now) }
{
    if piece.is_empty() {
        return Ok(None);
    }
    let mut bytes = Vec::new(alloc);
    percent_decode(piece).append_to(&mut bytes)?;
    Ok(text_of(bytes))
}

/// The text of bytes that are UTF-8.
fn text_of(bytes: Vec<u8>) -> Option<Text>
    ensures { result ≡ text_of bytes.items }
{
    match String::from_utf8(bytes) {
        Ok(text) => Some(Text::from_string(text)),
        Err(_) => None,
    }
}
