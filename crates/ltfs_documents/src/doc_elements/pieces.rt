//! The piece of a document that follows.

ghost use Rattle.std.specs.Prelude.{◌≡◌, ◌≤◌, ◌<◌, ◌+◌, ℕ, true, List, length, IfOk};
ghost use Rattle.tape_types.specs.Bounds.{most_nodes};
ghost use Rattle.ltfs_documents.specs.declared.doc_fields.tags.Tag.{Tag};
ghost use Rattle.ltfs_documents.specs.DocElements.Children.{Holds, first_missing};
ghost use Rattle.ltfs_documents.specs.DocElements.Pieces.{beside, child_at, close_at, has_any, made, none_missing};
ghost use Rattle.ltfs_documents.specs.DocElements.Pieces.{opens_node};
ghost use Rattle.ltfs_documents.specs.DocElements.Pieces.{piece_at, verdict};
ghost use Rattle.ltfs_documents.specs.DocElements.Schema.{required};
ghost use Rattle.ltfs_documents.specs.DocElements.Answers.{Gives, HasRoom, piece_of};

use crate::doc_elements::children::Children;
use crate::doc_elements::errors::PieceErr;
use crate::doc_elements::likely::likely;
use crate::doc_elements::schema::{
    Child, Container, child_of, excludes, is_node, may_repeat, required, tag_of,
};
use crate::doc_elements::values::{Value, leaf};
use crate::doc_fields::{
    Start, Tag, Why, byte, plain_start, read_end, read_name, read_rest, skip_space,
};
use std::alloc::Global;
use tape_types::MOST_NODES;

/// A start tag or an end tag of a parent, or a whole element.
#[derive(Drop)]
pub enum Piece {
    Opens(Container),
    /// A parent without children, as one tag.
    Whole(Container),
    Closes,
    Leaf(Tag, Value),
}

/// An open parent, and which children have stood in it.
#[derive(Clone, Copy, Debug)]
pub struct Frame {
    pub place: Container,
    pub seen: Children,
}

/// Whether one of these elements has stood there.
fn has_any(tags: &[Tag], seen: Children) -> bool
    ensures { (there : List Tag) → Holds seen there → result ≡ has_any tags.now there }
{
    for tag in tags {
        if seen.has(*tag) {
            return true;
        }
    }
    false
}

fn opens_node(child: Child) -> bool
    ensures { result ≡ opens_node child }
{
    match child {
        Child::Parent(place) => is_node(place),
        _ => false,
    }
}

/// Whether an element may stand as a child here, with so many nodes before it.
#[tactic(auto, unfolding(crate::specs::DocElements::Pieces::verdict))]
fn verdict(frame: Frame, nodes: u32, at: usize, tag: Tag) -> Result<Child, PieceErr>
    ensures room { IfOk result (λ c. opens_node c ≡ true → nodes < most_nodes) }
    ensures value { (tags : List Tag) → Holds frame.seen tags →
        result ≡ verdict (record { place = frame.place; seen = tags }) nodes at tag }
{
    let child = child_of(frame.place, tag);
    match child {
        Child::Unknown => Err(PieceErr::Unknown(at)),
        known => beside(frame, nodes, at, tag, known),
    }
}

/// The same of an element that is known there.
fn beside(frame: Frame, nodes: u32, at: usize, tag: Tag, child: Child) -> Result<Child, PieceErr>
    ensures room { IfOk result (λ c. opens_node c ≡ true → nodes < most_nodes) }
    ensures value { (tags : List Tag) → Holds frame.seen tags →
        result ≡ beside (record { place = frame.place; seen = tags }) nodes at tag child }
{
    if has_any(excludes(tag), frame.seen) {
        return Err(PieceErr::Unknown(at));
    }
    if frame.seen.has(tag) && !may_repeat(frame.place, tag) {
        return Err(PieceErr::Twice(at));
    }
    if opens_node(child) && nodes >= MOST_NODES {
        return Err(PieceErr::TooMany);
    }
    Ok(child)
}

fn none_missing(place: Container, seen: Children) -> Result<(), PieceErr>
    ensures { (tags : List Tag) → Holds seen tags →
        Gives (λ _. tt) result (none_missing (first_missing (required place) tags)) }
{
    match seen.first_missing(required(place)) {
        None => Ok(()),
        Some(tag) => Err(PieceErr::Missing(tag)),
    }
}

#[tactic(auto, unfolding(crate::specs::DocElements::Pieces::made))]
fn made(
    alloc: Global,
    child: Child,
    tag: Tag,
    from: usize,
    start: Start,
    text: &[u8],
) -> Result<(Piece, usize), PieceErr>
    requires { start.next ≤ length text.now }
    ensures room { IfOk result (λ x. (nodes : ℕ) → (opens_node child ≡ true → nodes < most_nodes) → HasRoom x.0 nodes) }
    ensures value { Gives (λ x. (piece_of x.0, x.1)) result (made child tag from start text.now) }
    ensures within { IfOk result (λ x. (start.next ≤ x.1) × (x.1 ≤ length text.now)) }
{
    match child {
        Child::Unknown => Err(PieceErr::Unknown(start.next)),
        Child::Leaf(form) => {
            let (value, next) = leaf(alloc, form, tag, from, start, text)?;
            Ok((Piece::Leaf(tag, value), next))
        }
        Child::Parent(place) => {
            if !start.empty {
                return Ok((Piece::Opens(place), start.next));
            }
            none_missing(place, Children::none())?;
            Ok((Piece::Whole(place), start.next))
        }
    }
}

#[tactic(auto, unfolding(crate::specs::DocElements::Pieces::close_at))]
#[inline(always)]
fn close(frame: Frame, text: &[u8], at: usize) -> Result<(Piece, usize), PieceErr>
    requires { at ≤ length text.now }
    ensures room { IfOk result (λ x. (nodes : ℕ) → HasRoom x.0 nodes) }
    ensures value { (tags : List Tag) → Holds frame.seen tags →
        Gives (λ x. (piece_of x.0, x.1)) result (close_at (record { place = frame.place; seen = tags }) text.now at) }
    ensures within { IfOk result (λ x. (at < x.1) × (x.1 ≤ length text.now)) }
{
    let next = read_end(text, at, tag_of(frame.place))?;
    none_missing(frame.place, frame.seen)?;
    Ok((Piece::Closes, next))
}

/// A child, by its start tag as it is written where that is the likely one.
#[tactic(auto, unfolding(crate::specs::DocElements::Pieces::child_at))]
#[inline(always)]
fn child(
    alloc: Global,
    frame: Frame,
    nodes: u32,
    text: &[u8],
    at: usize,
) -> Result<(Piece, usize), PieceErr>
    requires { at ≤ length text.now }
    ensures room { IfOk result (λ x. HasRoom x.0 nodes) }
    ensures value { (tags : List Tag) → Holds frame.seen tags → Gives (λ x. (piece_of x.0, x.1)) result
        (child_at (record { place = frame.place; seen = tags }) nodes text.now at) }
    ensures within { IfOk result (λ x. (at < x.1) × (x.1 ≤ length text.now)) }
{
    let tag = likely(frame);
    if let Some(start) = plain_start(tag, text, at) {
        let child = verdict(frame, nodes, at, tag)?;
        return made(alloc, child, tag, at, start, text);
    }
    any_child(alloc, frame, nodes, text, at)
}

/// The same, whatever stands there.
#[tactic(auto, unfolding(crate::specs::DocElements::Pieces::child_at))]
#[inline(always)]
fn any_child(
    alloc: Global,
    frame: Frame,
    nodes: u32,
    text: &[u8],
    at: usize,
) -> Result<(Piece, usize), PieceErr>
    requires { at ≤ length text.now }
    ensures room { IfOk result (λ x. HasRoom x.0 nodes) }
    ensures value { (tags : List Tag) → Holds frame.seen tags → Gives (λ x. (piece_of x.0, x.1)) result
        (child_at (record { place = frame.place; seen = tags }) nodes text.now at) }
    ensures within { IfOk result (λ x. (at < x.1) × (x.1 ≤ length text.now)) }
{
    let (tag, next) = read_name(text, at)?;
    match read_rest(tag, at, text, next) {
        Ok(start) => {
            let child = verdict(frame, nodes, at, tag)?;
            made(alloc, child, tag, at, start, text)
        }
        Err(fault) => {
            match fault.why {
                Why::Unknown => return Err(PieceErr::Unknown(fault.at)),
                _ => {}
            }
            verdict(frame, nodes, at, tag)?;
            Err(PieceErr::from(fault))
        }
    }
}

/// The piece that follows inside an open parent, in a document with so many nodes before it, and
/// the place behind the piece.
#[tactic(auto, unfolding(crate::specs::DocElements::Pieces::piece_at))]
#[inline(always)]
pub fn next_piece(
    alloc: Global,
    frame: Frame,
    nodes: u32,
    text: &[u8],
    at: usize,
) -> Result<(Piece, usize), PieceErr>
    requires { at ≤ length text.now }
    ensures room { IfOk result (λ x. HasRoom x.0 nodes) }
    ensures value { (tags : List Tag) → Holds frame.seen tags → Gives (λ x. (piece_of x.0, x.1)) result
        (piece_at (record { place = frame.place; seen = tags }) nodes text.now at) }
    ensures within { IfOk result (λ x. (at < x.1) × (x.1 ≤ length text.now)) }
{
    let start = skip_space(text, at);
    if byte(text, start) == b'<' && byte(text, start + 1) == b'/' {
        close(frame, text, start)
    } else {
        child(alloc, frame, nodes, text, start)
    }
}
