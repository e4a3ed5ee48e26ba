ghost use Rattle.std.specs.Prelude.{◌≡◌, ◌==◌, IfOk};
ghost use Rattle.std.specs.List.{slice_split};
ghost use Rattle.session_script.specs.Words.{key_of, path_of, names_of, text_of, unescaped};
ghost use Rattle.session_script.specs.Readings.{IsReadWord};
ghost use Rattle.session_script.specs.declared.scripts.ScriptWhy.TheVariants as reasons;

use crate::faults::LineFault;
use crate::scripts::ScriptWhy;
use crate::words::cut;
use percent_encoding::percent_decode;
use std::alloc::Global;
use tape_types::{List, NoMemory, Text};

/// The path that a word spells.
pub fn read_path(alloc: Global, word: &[u8]) -> Result<List<Text>, LineFault>
    ensures { IsReadWord result (path_of word.now) reasons.Path }
{
    match word {
        [b'/'] => Ok(List::new(alloc)),
        [b'/', rest @ ..] => read_names(alloc, rest)?.ok_or(LineFault::Bad(ScriptWhy::Path)),
        _ => Err(LineFault::Bad(ScriptWhy::Path)),
    }
}

/// The names between slashes.
fn read_names(alloc: Global, text: &[u8]) -> Result<Option<List<Text>>, NoMemory>
    ensures { IfOk result (λ names. names ≡ names_of (slice_split (λ b. b == 47) text.now)) }
{
    let mut names = List::new(alloc);
    let mut left = Some(text);
    while let Some(rest) = left {
        let (piece, more) = cut(rest, b'/');
        let Some(name) = read_escaped(alloc, piece)? else {
            return Ok(None);
        };
        names.push(name)?;
        left = more;
    }
    Ok(Some(names))
}

/// The key that a word spells.
pub fn read_key(alloc: Global, word: &[u8]) -> Result<Text, LineFault>
    ensures { IsReadWord result (key_of word.now) reasons.Key }
{
    read_escaped(alloc, word)?.ok_or(LineFault::Bad(ScriptWhy::Key))
}

/// The text that a word spells with its escapes, where it is one.
fn read_escaped(alloc: Global, word: &[u8]) -> Result<Option<Text>, NoMemory>
    ensures { IfOk result (λ text. text ≡ unescaped word.now) }
{
    if word.is_empty() {
        return Ok(None);
    }
    let mut bytes = Vec::new(alloc);
    percent_decode(word).append_to(&mut bytes)?;
    Ok(text_of(bytes))
}

/// The text of bytes that are UTF-8.
fn text_of(bytes: Vec<u8>) -> Option<Text>
    ensures { result ≡ text_of bytes.items }
{
    match String::from_utf8(bytes) {
        Ok(text) => Some(Text::from_string(text)),
        Err(_) => None,
    }
}
