//! Pieces one after the other.

ghost use Rattle.std.specs.Prelude.{◌≡◌, ◌≤◌, ◌<◌, ℕ, List, Ok, true, length, OnOk, IfOk, IfErr, IfSome, IsTrue};
ghost use Rattle.tape_types.specs.Bounds.{most_nodes};
ghost use Rattle.ltfs_documents.specs.DocElements.Schema.{is_node};
ghost use Rattle.ltfs_documents.specs.declared.doc_elements.schema.Container.TheVariants as place;
ghost use Rattle.ltfs_documents.specs.DocElements.Answers.{HasRoom, UnlessMemory, piece_of};
ghost use Rattle.index_read.specs.Drafts.{state_of};
ghost use Rattle.index_read.specs.Told.{State, blank, node_in, piece_told};
ghost use Rattle.ltfs_documents.specs.DocElements.Children.{Holds, member};
ghost use Rattle.ltfs_documents.specs.DocElements.Documents.{Halted, head_of};
ghost use Rattle.ltfs_documents.specs.declared.doc_fields.tags.Tag.{Tag as TagOf};
ghost use Rattle.ltfs_documents.specs.declared.doc_fields.tags.Tag.TheVariants.{Location};
ghost use Rattle.index_read.specs.Fronts.{HasBack, IsFront, IsRootPointed};
ghost use Rattle.index_read.specs.Walks.{Keeps, Opened, Walked, coded, level_in, opened_after, stacked, with_tag};

use crate::drafts::Draft;
use crate::fronts::Front;
use ltfs_documents::doc_elements::{
    Children, Container, Frame, Piece, PieceErr, is_node, next_piece, tag_of,
};
use ltfs_documents::doc_fields::Tag;
use std::alloc::{AllocError, Global};
use tape_types::NoMemory;

/// An open parent, and the node that its children speak of: its own, or the one that it is in.
#[derive(Clone, Copy, Debug)]
pub struct Level {
    pub frame: Frame,
    pub node: u32,
}

/// The node that the children of a parent speak of, which stands in a node; so many nodes have
/// begun before it.
fn node_in(place: Container, node: u32, nodes: u32) -> u32
    ensures { (s : State) → length s.nodes ≡ nodes → result ≡ node_in place node s }
{
    if is_node(place) { nodes } else { node }
}

/// Opens and closes parents as a piece says; true where none is left.
#[inline(always)]
fn moved(
    piece: &Piece,
    nodes: u32,
    top: &mut Level,
    outer: &mut Vec<Level>,
) -> Result<bool, AllocError>
    ensures { IfOk result (λ done. (s : State) (o : Opened) (os : List Opened) → length s.nodes ≡ nodes →
        top.old ≡ coded o → outer.old.items ≡ stacked os
        → Keeps (opened_after (piece_of piece.now) o os s) top.new outer.new.items done) }
{
    let level = *top;
    match piece {
        Piece::Opens(place) => {
            outer.push(with_child(level, tag_of(*place)))?;
            *top = Level {
                frame: Frame {
                    place: *place,
                    seen: Children::none(),
                },
                node: node_in(*place, level.node, nodes),
            };
            Ok(false)
        }
        Piece::Whole(place) => {
            *top = with_child(level, tag_of(*place));
            Ok(false)
        }
        Piece::Leaf(tag, _) => {
            *top = with_child(level, *tag);
            Ok(false)
        }
        Piece::Closes => match outer.pop() {
            None => Ok(true),
            Some(parent) => {
                *top = parent;
                Ok(false)
            }
        },
    }
}

/// An open parent in which one child more has stood.
fn with_child(level: Level, tag: Tag) -> Level
    ensures { (o : Opened) → level ≡ coded o → result ≡ coded (with_tag tag o) }
{
    Level {
        frame: Frame {
            place: level.frame.place,
            seen: level.frame.seen.with(tag),
        },
        node: level.node,
    }
}

/// Takes in what a piece tells, which stands in an open parent.
#[inline(always)]
fn tell(alloc: Global, draft: &mut Draft, level: Level, piece: Piece) -> Result<(), NoMemory>
    requires { length draft.old.nodes.items ≤ most_nodes }
    ensures { OnOk result (state_of draft.new ≡ piece_told (piece_of piece) (level_in level) (state_of draft.old)) }
{
    match piece {
        Piece::Opens(place) => draft.begin(alloc, place, level.node),
        Piece::Whole(place) => {
            let node = node_in(place, level.node, draft.nodes.len() as u32);
            draft.begin(alloc, place, level.node)?;
            draft.end(alloc, place, node)
        }
        Piece::Closes => draft.end(alloc, level.frame.place, level.node),
        Piece::Leaf(tag, value) => draft.tell(level.frame.place, level.node, tag, value),
    }
}

/// What the pieces tell behind the root's start tag, which ends at `inside`, and where its end
/// tag ends.
pub fn walk(alloc: Global, text: &[u8], inside: usize) -> Result<(Draft, usize), PieceErr>
    requires { inside ≤ length text.now }
    ensures found { IfOk result (λ x. Walked text.now inside x.1 (state_of x.0)) }
    ensures within { IfOk result (λ x. x.1 ≤ length text.now) }
    ensures refused { IfErr result (λ e. UnlessMemory e (Halted place.Index text.now inside e)) }
{
    let mut draft = Draft::new(alloc);
    let mut outer: Vec<Level> = Vec::new(alloc);
    let mut top = Level {
        frame: Frame {
            place: Container::Index,
            seen: Children::none(),
        },
        node: 0,
    };
    let mut at = inside;
    while at <= text.len() {
        let nodes = draft.nodes.len() as u32;
        let level = top;
        let (piece, next) = match next_piece(alloc, top.frame, nodes, text, at) {
            Ok(found) => found,
            Err(fault) => return Err(fault),
        };
        at = next;
        let done = moved(&piece, nodes, &mut top, &mut outer)?;
        tell(alloc, &mut draft, level, piece)?;
        if done {
            return Ok((draft, at));
        }
    }
    unreachable!()
}

/// Whether an open parent is the root, and the pointers have stood in it, of which `lone` says that there is but one.
fn is_root_pointed(top: Level, lone: bool) -> bool
    ensures { IsTrue result → IsRootPointed lone top }
{
    match top.frame.place {
        Container::Index => top.node == 0 && has_pointers(top.frame.seen, lone),
        _ => false,
    }
}

fn has_pointers(seen: Children, lone: bool) -> bool
    ensures here { IsTrue result → (tags : List TagOf) → Holds seen tags → member Location tags ≡ true }
    ensures back { IsTrue result → (tags : List TagOf) → Holds seen tags → HasBack lone tags }
{
    seen.has(Tag::Location) && has_back(seen, lone)
}

fn has_back(seen: Children, lone: bool) -> bool
    ensures { IsTrue result → (tags : List TagOf) → Holds seen tags → HasBack lone tags }
{
    if lone {
        return true;
    }
    seen.has(Tag::PreviousGenerationLocation)
}

/// The shortest front of a text that tells the pointers behind the root's start tag, which ends at `inside`: both, or
/// the self pointer where there is no other; none where nodes come before them, where the text isn't read, or where
/// memory is refused.
pub fn front_behind(alloc: Global, text: &[u8], inside: usize, lone: bool) -> Option<Front>
    requires { inside ≤ length text.now }
    ensures front { IfSome result (λ f. head_of place.Index text.now ≡ Ok inside
        → IsFront text.now f.at f.seen (state_of f.draft)) }
    ensures back { IfSome result (λ f. (tags : List TagOf) → Holds f.seen tags → HasBack lone tags) }
    ensures within { IfSome result (λ f. f.at ≤ length text.now) }
{
    let mut draft = Draft::new(alloc);
    let mut outer: Vec<Level> = Vec::new(alloc);
    let mut top = Level {
        frame: Frame {
            place: Container::Index,
            seen: Children::none(),
        },
        node: 0,
    };
    let mut at = inside;
    while draft.nodes.len() == 0 {
        let open = outer.len();
        if open == 0 && is_root_pointed(top, lone) {
            return Some(Front {
                draft,
                seen: top.frame.seen,
                at,
            });
        }
        let level = top;
        let Ok((piece, next)) = next_piece(alloc, top.frame, 0, text, at) else {
            return None;
        };
        at = next;
        let Ok(done) = moved(&piece, 0, &mut top, &mut outer) else {
            return None;
        };
        let Ok(()) = tell(alloc, &mut draft, level, piece) else {
            return None;
        };
        if done {
            return None;
        }
    }
    None
}
