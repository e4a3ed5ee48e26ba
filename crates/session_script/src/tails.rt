//! What a reply tells at length, a few bytes at a time.

ghost use Rattle.std.specs.Prelude.{◌≡◌, ◌⊎◌, ◌+◌, ◌*◌, ◌<◌, ◌≤◌, [], ◌++◌, length, codes, true};
ghost use Rattle.std.specs.Fmt.{digit_glyph};
ghost use Rattle.std.specs.List.{flat_map};
ghost use Rattle.session_script.specs.Escapes.{escaped, escaped_byte};
ghost use Rattle.session_script.specs.LogText.{hex_byte, sort_letter};
ghost use Rattle.session_script.specs.LogLines.{end_text, tail_text};

use crate::escapes::is_escaped;
use crate::short::Short;
use plain_tree::{Entry, Sort};
use tape_types::{Moment, time_text};

/// So many bytes stand in hexadecimal in a `Short`, and so many with their escapes.
const MOST_HEX: usize = 128;

const MOST_ESCAPED: usize = 85;

/// How a line ends.
#[derive(Clone, Copy)]
pub enum End {
    Nothing,
    Feed,
    /// A moment stands before the line feed.
    Time(Moment),
}

/// What is left of a line: bytes in hexadecimal, a text with its escapes, entries, and the end.
#[derive(Clone, Copy)]
pub struct Tail<'a> {
    pub hex: &'a [u8],
    pub text: &'a [u8],
    pub entries: &'a [Entry],
    pub end: End,
}

/// Takes the next few bytes off what is left. There are none where nothing is left.
pub fn next_bytes<'a>(short: &mut Short, tail: Tail<'a>) -> Tail<'a>
    ensures same { short.new ++ tail_text result ≡ tail_text tail.entry }
    ensures some { (0 < length short.new) ⊎ (tail_text result ≡ []) }
{
    short.clear();
    if !tail.hex.is_empty() {
        let hex = put_hex(short, tail.hex);
        return Tail { hex, ..tail };
    }
    if !tail.text.is_empty() {
        let text = put_escaped(short, tail.text);
        return Tail { text, ..tail };
    }
    if let [entry, entries @ ..] = tail.entries {
        short.put(entry_front(entry.sort));
        let text = entry.name.as_str().as_bytes();
        return Tail {
            text,
            entries,
            ..tail
        };
    }
    put_end(short, tail.end);
    Tail {
        end: End::Nothing,
        ..tail
    }
}

/// Puts the first of the bytes in hexadecimal, and gives the others.
fn put_hex<'a>(short: &mut Short, bytes: &'a [u8]) -> &'a [u8]
    requires { short.old ≡ [] }
    ensures same { short.new ++ flat_map hex_byte result.now ≡ flat_map hex_byte bytes.now }
    ensures some { 0 < length bytes.now → 0 < length short.new }
{
    let count = bytes.len().min(MOST_HEX);
    short.put_hex(&bytes[..count]);
    &bytes[count..]
}

/// Puts the first of the bytes with their escapes, and gives the others.
fn put_escaped<'a>(short: &mut Short, text: &'a [u8]) -> &'a [u8]
    requires { short.old ≡ [] }
    ensures same { short.new ++ escaped result.now ≡ escaped text.now }
    ensures some { 0 < length text.now → 0 < length short.new }
{
    let count = text.len().min(MOST_ESCAPED);
    for byte in &text[..count] {
        put_byte(short, *byte);
    }
    &text[count..]
}

fn put_byte(short: &mut Short, byte: u8)
    requires { length short.old + 3 ≤ 256 }
    ensures text { short.new ≡ short.old ++ escaped_byte byte }
    ensures some { length short.old < length short.new }
    ensures few { length short.new ≤ length short.old + 3 }
{
    if is_escaped(byte) {
        short.push(b'%');
        short.push(glyph(byte / 16));
        short.push(glyph(byte % 16));
    } else {
        short.push(byte);
    }
}

/// The hexadecimal digit of a value below 16, in upper case.
fn glyph(value: u8) -> u8
    requires { value < 16 }
    ensures { result ≡ digit_glyph true value }
{
    if value < 10 {
        b'0' + value
    } else {
        b'A' + (value - 10)
    }
}

/// What stands in front of a name.
fn entry_front(sort: Sort) -> &'static [u8]
    ensures text { result.now ≡ codes " " ++ sort_letter sort ++ codes ":" }
    ensures short { length result.now ≡ 3 }
{
    match sort {
        Sort::Dir => b" d:",
        Sort::File => b" f:",
        Sort::Link => b" l:",
    }
}

fn put_end(short: &mut Short, end: End)
    requires { short.old ≡ [] }
    ensures text { short.new ≡ end_text end }
{
    match end {
        End::Nothing => {}
        End::Feed => short.push(b'\n'),
        End::Time(at) => {
            short.push(b' ');
            short.put(&time_text(at));
            short.push(b'\n');
        }
    }
}
