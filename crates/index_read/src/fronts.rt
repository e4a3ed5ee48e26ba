//! Other pointers in the text of an index.

ghost use Rattle.std.specs.Prelude.{◌≡◌, ◌++◌, ◌≤◌, ◌∷◌, [], List, true, drop, length, IfSome, IsTrue, IsUtf8, None};
ghost use Rattle.std.specs.Prelude.{Some};
ghost use Rattle.tape_types.specs.Times.{civil_of};
ghost use Rattle.ltfs_documents.specs.DocElements.Children.{Holds};
ghost use Rattle.ltfs_documents.specs.declared.doc_fields.tags.Tag.{Tag as TagOf};
ghost use Rattle.ltfs_documents.specs.declared.doc_fields.tags.Tag.TheVariants.{PreviousGenerationLocation};
ghost use Rattle.index_model.specs.Grammar.{IndexText};
ghost use Rattle.index_read.specs.Drafts.{state_of};
ghost use Rattle.index_read.specs.Fronts.{AreDraftedAlike, AreNamedAlike, AreNumberedAlike, AreRuledAlike};
ghost use Rattle.index_read.specs.Fronts.{HasBack, IsFront, repointed, with_pointers};

use crate::drafts::Draft;
use crate::guesses::respelled;
use crate::walking::front_behind;
use index_model::{Index, Node, Spot};
use ltfs_documents::doc_elements::{Children, Container, readable, skip_head};
use ltfs_documents::doc_fields::Tag;
use std::alloc::Global;
use tape_types::{Bytes, Moment, Text};

/// The front of a document: what it tells, the children of the root that have stood there, and where it ends.
#[derive(Drop)]
pub struct Front {
    pub draft: Draft,
    pub seen: Children,
    pub at: usize,
}

/// Puts other pointers in the text of an index, as they are likely to be spelled there, and tells whether it is now the
/// text of that index with these pointers. Where it isn't, any bytes may stand there. What follows the pointers isn't
/// read: it is as it was.
pub fn repoint(alloc: Global, index: &Index, text: &mut Vec<u8>, here: Spot, back: Spot) -> bool
    ensures { IsTrue result → IndexText text.old.items index.now
        → IndexText text.new.items (with_pointers index.now here back) }
{
    let lone = is_lone(index);
    let Some(first) = front_of(alloc, text.as_slice(), lone) else {
        return false;
    };
    let front = &text[..first.at];
    if !is_text(front) {
        return false;
    }
    let Some(other) = respelled(alloc, front, lone, here, back) else {
        return false;
    };
    if !is_text(other.as_slice()) {
        return false;
    }
    let length = other.len();
    if !put_front(text, first.at, other) {
        return false;
    }
    let Some(second) = front_of(alloc, text.as_slice(), false) else {
        return false;
    };
    is_repointed(&first, &second, length, here, back)
}

/// Whether an index has no back pointer.
fn is_lone(index: &Index) -> bool
    ensures { result ≡ true → index.now.back ≡ None }
{
    match index.back {
        Some(_) => false,
        None => true,
    }
}

/// Whether a second front has so many bytes, and tells these pointers and all else that the first one tells.
fn is_repointed(first: &Front, second: &Front, length: usize, here: Spot, back: Spot) -> bool
    ensures at { IsTrue result → second.now.at ≡ length }
    ensures seen { IsTrue result → (tags : List TagOf) → Holds first.now.seen tags
        → Holds second.now.seen (PreviousGenerationLocation ∷ tags) }
    ensures told { IsTrue result → state_of second.now.draft ≡ repointed here back (state_of first.now.draft) }
{
    ends_alike(first, second, length) && tells_alike(&first.draft, &second.draft, here, back)
}

/// Whether a second front has so many bytes, and the same children of the root have stood there, and a back pointer.
fn ends_alike(first: &Front, second: &Front, length: usize) -> bool
    ensures at { IsTrue result → second.now.at ≡ length }
    ensures seen { IsTrue result → (tags : List TagOf) → Holds first.now.seen tags
        → Holds second.now.seen (PreviousGenerationLocation ∷ tags) }
{
    second.at == length && has_more(first.seen, second.seen)
}

fn has_more(first: Children, second: Children) -> bool
    ensures { IsTrue result → (tags : List TagOf) → Holds first tags
        → Holds second (PreviousGenerationLocation ∷ tags) }
{
    let more = first.with(Tag::PreviousGenerationLocation);
    second == more
}

/// The shortest front of a text that tells the pointers of its index, where they stand before the nodes.
fn front_of(alloc: Global, text: &[u8], lone: bool) -> Option<Front>
    ensures front { IfSome result (λ f. IsFront text.now f.at f.seen (state_of f.draft)) }
    ensures back { IfSome result (λ f. (tags : List TagOf) → Holds f.seen tags → HasBack lone tags) }
    ensures within { IfSome result (λ f. f.at ≤ length text.now) }
{
    match skip_head(Container::Index, text) {
        Ok(inside) => front_behind(alloc, text, inside, lone),
        Err(_) => None,
    }
}

/// Puts bytes in place of the front of others.
fn put_front(text: &mut Vec<u8>, at: usize, front: Vec<u8>) -> bool
    requires { at ≤ length text.old.items }
    ensures { IsTrue result → text.new.items ≡ front.items ++ drop at text.old.items }
{
    let more = front.len().saturating_sub(at);
    let Ok(()) = text.reserve_exact(more) else {
        return false;
    };
    let Ok(_) = text.splice(..at, front) else {
        return false;
    };
    true
}

fn is_text(bytes: &[u8]) -> bool
    ensures { IsTrue result → IsUtf8 bytes.now }
{
    readable(bytes).len() == bytes.len()
}

fn are_one_text(a: &Text, b: &Text) -> bool
    ensures { IsTrue result → a.now ≡ b.now }
{
    a == b
}

fn are_one_comment(a: &Option<Text>, b: &Option<Text>) -> bool
    ensures { IsTrue result → a.now ≡ b.now }
{
    match (a, b) {
        (Some(a), Some(b)) => are_one_text(a, b),
        (None, None) => true,
        _ => false,
    }
}

fn are_one_moment(a: Moment, b: Moment) -> bool
    ensures { IsTrue result → civil_of a ≡ civil_of b }
{
    are_one(a, b)
}

fn are_one(a: Moment, b: Moment) -> bool
    ensures { IsTrue result → a ≡ b }
{
    a == b
}

fn are_named_alike(a: &Index, b: &Index) -> bool
    ensures { IsTrue result → AreNamedAlike a.now b.now }
{
    are_one_text(&a.creator, &b.creator)
        && are_one_comment(&a.comment, &b.comment)
        && are_one_moment(a.updated, b.updated)
}

fn are_numbered_alike(a: &Index, b: &Index) -> bool
    ensures { IsTrue result → AreNumberedAlike a.now b.now }
{
    a.uuid == b.uuid && a.generation == b.generation && a.highest == b.highest
}

fn lack_policy(a: &Index, b: &Index) -> bool
    ensures { IsTrue result → a.now.policy ≡ b.now.policy }
{
    match (&a.policy, &b.policy) {
        (None, None) => true,
        _ => false,
    }
}

fn are_ruled_alike(a: &Index, b: &Index) -> bool
    ensures { IsTrue result → AreRuledAlike a.now b.now }
{
    a.allow == b.allow && lack_policy(a, b) && a.lock == b.lock
}

fn are_drafted_alike(a: &Draft, b: &Draft) -> bool
    ensures { IsTrue result → AreDraftedAlike a.now b.now }
{
    are_empty(a.nodes.as_slice(), b.nodes.as_slice())
        && a.extent == b.extent
        && are_one_text(&a.xattr.key, &b.xattr.key)
        && are_one_value(&a.xattr.value, &b.xattr.value)
}

fn are_empty(a: &[Node], b: &[Node]) -> bool
    ensures first { IsTrue result → a.now ≡ [] }
    ensures second { IsTrue result → b.now ≡ [] }
{
    a.len() == 0 && b.len() == 0
}

fn are_one_value(a: &Bytes, b: &Bytes) -> bool
    ensures { IsTrue result → a.now ≡ b.now }
{
    a.as_slice() == b.as_slice()
}

/// Whether a second draft tells these pointers, and all else that the first one tells.
fn tells_alike(first: &Draft, second: &Draft, here: Spot, back: Spot) -> bool
    ensures { IsTrue result → state_of second.now ≡ repointed here back (state_of first.now) }
{
    are_named_alike(&first.index, &second.index)
        && are_numbered_alike(&first.index, &second.index)
        && are_ruled_alike(&first.index, &second.index)
        && are_drafted_alike(first, second)
        && has_pointers(&second.index, here, back)
}

fn has_pointers(index: &Index, here: Spot, back: Spot) -> bool
    ensures here { IsTrue result → index.now.here ≡ here }
    ensures back { IsTrue result → index.now.back ≡ Some back }
{
    index.here == here && index.back == Some(back)
}
