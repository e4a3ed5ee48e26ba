ghost use Rattle.std.specs.Prelude.{◌≡◌, ◌<◌, ◌==◌, ◌∷◌, length, IfSome};
ghost use Rattle.std.specs.List.{slice_split};
ghost use Rattle.std.specs.Str.{bytes_eq, is_utf8};
ghost use Rattle.session_script.specs.Words.{flag_of, number_of, session_of, verb_of};
ghost use Rattle.session_script.specs.Grammar.{is_skipped, call_with};
ghost use Rattle.session_script.specs.Readings.{pieces_left, call_given};
ghost use Rattle.session_script.specs.declared.words.Verb.{Verb};

use crate::limits::MOST_SESSIONS;
use memchr::memchr;

/// The word that names a call.
#[derive(Clone, Copy, Debug, PartialEq, Eq)]
pub enum Verb {
    Mkdir,
    Create,
    Write,
    Truncate,
    Read,
    List,
    Stat,
    Rename,
    Remove,
    Setx,
    Getx,
    Dropx,
    Readonly,
    Lock,
    Unlock,
    Permlock,
    Sync,
}

/// The words behind a verb.
#[derive(Clone, Copy)]
pub enum Arguments<'a> {
    Nothing,
    One(&'a [u8]),
    Two(&'a [u8], &'a [u8]),
    Three(&'a [u8], &'a [u8], &'a [u8]),
    /// There are more than three, or one of them is empty.
    Wrong,
}

/// What stands before the first such byte, and what stands behind it, where there is one.
pub fn cut(text: &[u8], byte: u8) -> (&[u8], Option<&[u8]>)
    ensures pieces { slice_split (λ b. b == byte) text.now ≡ result.0.now ∷ pieces_left byte result.1 }
    ensures shorter { IfSome result.1 (λ left. length left.now < length text.now) }
{
    match memchr(byte, text) {
        Some(at) => (&text[..at], Some(&text[at + 1..])),
        None => (text, None),
    }
}

/// Whether the line is UTF-8.
pub fn is_text(line: &[u8]) -> bool
    ensures { result ≡ is_utf8 line.now }
{
    simdutf8::is_utf8(line)
}

/// Whether the line is empty or a comment.
pub fn is_skipped(line: &[u8]) -> bool
    ensures { result ≡ is_skipped line.now }
{
    line.is_empty() || line[0] == b'#'
}

/// The number that 1 to 20 decimal digits spell, where it is below 2^64.
pub fn read_number(word: &[u8]) -> Option<u64>
    ensures { result ≡ number_of word.now }
{
    if word.is_empty() || word.len() > 20 {
        return None;
    }
    let mut value = 0u128;
    for byte in word {
        if !byte.is_ascii_digit() {
            return None;
        }
        value = value * 10 + u128::from(*byte - b'0');
    }
    u64::try_from(value).ok()
}

/// The session that a word names.
pub fn read_session(word: &[u8]) -> Option<u16>
    ensures { result ≡ session_of word.now }
{
    let who = read_number(word)?;
    if who >= 1 && who <= u64::from(MOST_SESSIONS) && !word.starts_with(b"0") {
        Some(who as u16)
    } else {
        None
    }
}

fn is_word(word: &[u8], text: &[u8]) -> bool
    ensures { result ≡ bytes_eq word.now text.now }
{
    word == text
}

/// The call that a word names.
pub fn read_verb(word: &[u8]) -> Option<Verb>
    ensures { result ≡ verb_of word.now }
{
    if is_word(word, b"mkdir") {
        Some(Verb::Mkdir)
    } else if is_word(word, b"create") {
        Some(Verb::Create)
    } else if is_word(word, b"write") {
        Some(Verb::Write)
    } else if is_word(word, b"truncate") {
        Some(Verb::Truncate)
    } else if is_word(word, b"read") {
        Some(Verb::Read)
    } else if is_word(word, b"list") {
        Some(Verb::List)
    } else if is_word(word, b"stat") {
        Some(Verb::Stat)
    } else if is_word(word, b"rename") {
        Some(Verb::Rename)
    } else if is_word(word, b"remove") {
        Some(Verb::Remove)
    } else if is_word(word, b"setx") {
        Some(Verb::Setx)
    } else if is_word(word, b"getx") {
        Some(Verb::Getx)
    } else if is_word(word, b"dropx") {
        Some(Verb::Dropx)
    } else if is_word(word, b"readonly") {
        Some(Verb::Readonly)
    } else if is_word(word, b"lock") {
        Some(Verb::Lock)
    } else if is_word(word, b"unlock") {
        Some(Verb::Unlock)
    } else if is_word(word, b"permlock") {
        Some(Verb::Permlock)
    } else if is_word(word, b"sync") {
        Some(Verb::Sync)
    } else {
        None
    }
}

/// What a flag says.
pub fn read_flag(word: &[u8]) -> Option<bool>
    ensures { result ≡ flag_of word.now }
{
    if is_word(word, b"true") {
        Some(true)
    } else if is_word(word, b"false") {
        Some(false)
    } else {
        None
    }
}

/// The words that are left of a line behind its verb.
pub fn read_arguments(left: Option<&[u8]>) -> Arguments<'_>
    ensures { (verb : Verb) → call_given verb result ≡ call_with verb (pieces_left 32 left.entry) }
{
    let Some(left) = left else {
        return Arguments::Nothing;
    };
    let (first, left) = cut(left, b' ');
    if first.is_empty() {
        return Arguments::Wrong;
    }
    let Some(left) = left else {
        return Arguments::One(first);
    };
    let (second, left) = cut(left, b' ');
    if second.is_empty() {
        return Arguments::Wrong;
    }
    let Some(left) = left else {
        return Arguments::Two(first, second);
    };
    let (third, left) = cut(left, b' ');
    if third.is_empty() {
        return Arguments::Wrong;
    }
    match left {
        None => Arguments::Three(first, second, third),
        Some(_) => Arguments::Wrong,
    }
}
