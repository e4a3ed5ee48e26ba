//! Each call appends a text.

ghost use Rattle.std.specs.Prelude.{◌≡◌, ◌++◌, decimal, OnOk};
ghost use Rattle.session_script.specs.Escapes.{escaped};
ghost use Rattle.tree_listing.specs.Listing.{generation_line, key_line, last_lines, line_end, lock_line, lock_word};
ghost use Rattle.tree_listing.specs.Listing.{spot_text};
ghost use Rattle.tree_listing.specs.Steps.{shown, told_line, told_words_of};

use index_model::{Node, NodeKind, Spot};
use itoa::Buffer;
use plain_tree::LockState;
use session_script::push_escaped;
use std::alloc::Global;
use tape_types::node_keys::Xattr;
use tape_types::{NoMemory, Text};

fn put(out: &mut Vec<u8>, bytes: &[u8]) -> Result<(), NoMemory>
    ensures { OnOk result (out.new.items ≡ out.old.items ++ bytes.now) }
{
    out.extend_from_slice(bytes)?;
    Ok(())
}

fn put_number(out: &mut Vec<u8>, number: u64) -> Result<(), NoMemory>
    ensures { OnOk result (out.new.items ≡ out.old.items ++ decimal number) }
{
    let mut buffer = Buffer::new();
    put(out, buffer.format(number).as_bytes())
}

fn put_text(alloc: Global, out: &mut Vec<u8>, text: &Text) -> Result<(), NoMemory>
    ensures { OnOk result (out.new.items ≡ out.old.items ++ escaped text.now) }
{
    let mut words = String::new(alloc);
    push_escaped(&mut words, text.as_str().as_bytes())?;
    put(out, words.as_bytes())
}

/// The text of a path, of which the names have this text.
fn shown(names: &[u8]) -> &[u8]
    ensures { result.now ≡ shown names.now }
{
    if names.is_empty() {
        return b"/";
    }
    names
}

/// Appends the line of a node, of whose path the names have this text. Where all is told it says whether the node is
/// read-only.
pub fn put_line(
    alloc: Global,
    out: &mut Vec<u8>,
    all: bool,
    names: &[u8],
    node: &Node,
) -> Result<(), NoMemory>
    ensures { OnOk result (out.new.items ≡ out.old.items ++ told_line all names.now node.now) }
{
    put_words(alloc, out, shown(names), node)?;
    put(out, line_end(all, node.readonly))
}

/// Appends the words of a node at this path.
fn put_words(alloc: Global, out: &mut Vec<u8>, path: &[u8], node: &Node) -> Result<(), NoMemory>
    ensures { OnOk result (out.new.items ≡ out.old.items ++ told_words_of path.now node.now.uid node.now.kind) }
{
    match &node.kind {
        NodeKind::Dir => {
            put(out, b"d ")?;
            put_number(out, node.uid)?;
            put(out, b" ")?;
            put(out, path)
        }
        NodeKind::File { length, .. } => {
            put(out, b"f ")?;
            put_number(out, node.uid)?;
            put(out, b" ")?;
            put_number(out, *length)?;
            put(out, b" ")?;
            put(out, path)
        }
        NodeKind::Link { text } => {
            put(out, b"l ")?;
            put_number(out, node.uid)?;
            put(out, b" ")?;
            put(out, path)?;
            put(out, b" ")?;
            put_text(alloc, out, text)
        }
    }
}

/// What ends the line of a node.
fn line_end(all: bool, readonly: bool) -> &'static [u8]
    ensures { result.now ≡ line_end all readonly }
{
    if all && readonly {
        return b" readonly\n";
    }
    b"\n"
}

/// Appends the line of an attribute of a node, of whose path the names have this text.
pub fn put_key(
    alloc: Global,
    out: &mut Vec<u8>,
    names: &[u8],
    xattr: &Xattr,
) -> Result<(), NoMemory>
    ensures { OnOk result
        (out.new.items ≡ out.old.items ++ key_line (shown names.now) (xattr.now.key, xattr.now.value)) }
{
    put(out, b"x ")?;
    put_number(out, xattr.value.len() as u64)?;
    put(out, b" ")?;
    put(out, shown(names))?;
    put(out, b" ")?;
    put_text(alloc, out, &xattr.key)?;
    put(out, b"\n")
}

/// Appends what stands behind the lines of the nodes.
pub fn put_last(
    out: &mut Vec<u8>,
    all: bool,
    state: LockState,
    generation: u64,
    spot: Spot,
) -> Result<(), NoMemory>
    ensures { OnOk result (out.new.items ≡ out.old.items ++ last_lines all state generation spot) }
{
    put_lock(out, all, state)?;
    put_generation(out, generation, spot)
}

/// Appends the line of a lock state, where all is told.
fn put_lock(out: &mut Vec<u8>, all: bool, state: LockState) -> Result<(), NoMemory>
    ensures { OnOk result (out.new.items ≡ out.old.items ++ lock_line all state) }
{
    if !all {
        return Ok(());
    }
    put(out, b"lock ")?;
    put(out, lock_word(state))?;
    put(out, b"\n")
}

fn lock_word(state: LockState) -> &'static [u8]
    ensures { result.now ≡ lock_word state }
{
    match state {
        LockState::Absent => b"absent",
        LockState::Unlocked => b"unlocked",
        LockState::Locked => b"locked",
        LockState::PermLocked => b"permlocked",
    }
}

fn put_spot(out: &mut Vec<u8>, spot: Spot) -> Result<(), NoMemory>
    ensures { OnOk result (out.new.items ≡ out.old.items ++ spot_text spot) }
{
    out.push(spot.letter)?;
    put(out, b" ")?;
    put_number(out, spot.block)
}

/// Appends the line of an index.
fn put_generation(out: &mut Vec<u8>, generation: u64, spot: Spot) -> Result<(), NoMemory>
    ensures { OnOk result (out.new.items ≡ out.old.items ++ generation_line generation spot) }
{
    put(out, b"generation ")?;
    put_number(out, generation)?;
    put(out, b" ")?;
    put_spot(out, spot)?;
    put(out, b"\n")?;
    Ok(())
}
