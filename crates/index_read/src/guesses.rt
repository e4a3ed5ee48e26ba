//! How a front of a document is likely to be spelled with other pointers. What is made here has no contract: whoever
//! takes it reads it.

ghost use Rattle.std.specs.Prelude.{◌≤◌, length};

use index_model::Spot;
use std::alloc::Global;

/// A front with other pointers, each spelled as the one before it; a back pointer that is new as the self pointer, at
/// the end.
pub fn respelled(
    alloc: Global,
    front: &[u8],
    lone: bool,
    here: Spot,
    back: Spot,
) -> Option<Vec<u8>> {
    if lone {
        let with_back = with_new(alloc, front)?;
        return respelled_both(alloc, with_back.as_slice(), here, back);
    }
    respelled_both(alloc, front, here, back)
}

fn respelled_both(alloc: Global, front: &[u8], here: Spot, back: Spot) -> Option<Vec<u8>> {
    let own = with_spot(alloc, front, b"<location", here)?;
    with_spot(alloc, own.as_slice(), b"<previousgenerationlocation", back)
}

/// A front that ends with the self pointer, and then has it again under the name of a back pointer, with the white
/// space that stands before it.
fn with_new(alloc: Global, front: &[u8]) -> Option<Vec<u8>> {
    let inside = behind(front, 0, b"<location")?;
    let begin = inside.checked_sub(b"<location".len())?;
    let name_end = behind(front, inside, b"</location")?;
    let close = name_end.checked_sub(b"location".len())?;
    let mut other = Vec::new(alloc);
    other.extend_from_slice(front).ok()?;
    other
        .extend_from_slice(front.get(space_begin(front, begin)..begin)?)
        .ok()?;
    other
        .extend_from_slice(b"<previousgenerationlocation")
        .ok()?;
    other.extend_from_slice(front.get(inside..close)?).ok()?;
    other.extend_from_slice(b"previousgenerationlocation").ok()?;
    other.extend_from_slice(front.get(name_end..)?).ok()?;
    Some(other)
}

/// Where the white space begins that ends at a place.
fn space_begin(text: &[u8], end: usize) -> usize {
    let mut begin = 0;
    for at in 0..end.min(text.len()) {
        if !text[at].is_ascii_whitespace() {
            begin = at + 1;
        }
    }
    begin
}

/// A text with another place on tape in the first parent of a name.
fn with_spot(alloc: Global, text: &[u8], parent: &[u8], spot: Spot) -> Option<Vec<u8>> {
    let block = format!(in alloc; "{}", spot.block).ok()?;
    let moved = with_value(alloc, text, parent, b"<startblock", block.as_bytes())?;
    let letter = [spot.letter];
    with_value(alloc, moved.as_slice(), parent, b"<partition", &letter)
}

/// A text with another value in the first leaf of a name behind the first parent of a name.
fn with_value(
    alloc: Global,
    text: &[u8],
    parent: &[u8],
    leaf: &[u8],
    value: &[u8],
) -> Option<Vec<u8>> {
    let inside = behind(text, 0, parent)?;
    let tag = behind(text, inside, leaf)?;
    let begin = value_begin(text, behind(text, tag, b">")?);
    let end = value_end(text, begin);
    let mut other = Vec::new(alloc);
    other.extend_from_slice(text.get(..begin)?).ok()?;
    other.extend_from_slice(value).ok()?;
    other.extend_from_slice(text.get(end..)?).ok()?;
    Some(other)
}

/// The place behind the first bytes like these, from a place on.
fn behind(text: &[u8], from: usize, word: &[u8]) -> Option<usize> {
    for at in from..text.len() {
        if text[at..].starts_with(word) {
            return at.checked_add(word.len());
        }
    }
    None
}

/// Where the white space ends that begins at a place.
fn value_begin(text: &[u8], from: usize) -> usize {
    for at in from..text.len() {
        if !text[at].is_ascii_whitespace() {
            return at;
        }
    }
    from
}

/// Where the letters and digits end that begin at a place.
fn value_end(text: &[u8], from: usize) -> usize {
    for at in from..text.len() {
        if !text[at].is_ascii_alphanumeric() {
            return at;
        }
    }
    from
}
