//! Pieces one after the other.

ghost use Rattle.std.specs.Prelude.{◌≡◌, ◌≤◌, ◌<◌, List, length, IfOk, IfErr};
ghost use Rattle.tape_types.specs.Times.{civil_of};
ghost use Rattle.ltfs_documents.specs.declared.doc_elements.schema.Container.TheVariants as place;
ghost use Rattle.ltfs_documents.specs.DocElements.Answers.{UnlessMemory, piece_of, val_of};
ghost use Rattle.ltfs_documents.specs.DocElements.Documents.{Halted, after};
ghost use Rattle.ltfs_documents.specs.DocElements.Pieces as pieces;
ghost use Rattle.ltfs_label.specs.Reading.{FitsBlock, Keeps, Walked, coded, set, stacked};
ghost use Rattle.ltfs_label.specs.Values.{blank, epoch, label_of, set_leaf};

use crate::Label;
use ltfs_documents::doc_elements::{
    Children, Container, Frame, Piece, PieceErr, Value, next_piece, tag_of,
};
use ltfs_documents::doc_fields::Tag;
use std::alloc::{AllocError, Global};
use tape_types::{Moment, Text};

/// Opens and closes parents as a piece says; true where none is left.
fn moved(piece: &Piece, top: &mut Frame, outer: &mut Vec<Frame>) -> Result<bool, AllocError>
    ensures { IfOk result (λ done. (f : pieces.Frame) (fs : List pieces.Frame) → top.old ≡ coded f →
        outer.old.items ≡ stacked fs
        → Keeps (after (piece_of piece.now) f fs) top.new outer.new.items done) }
{
    match piece {
        Piece::Opens(place) => {
            let parent = Frame {
                place: top.place,
                seen: top.seen.with(tag_of(*place)),
            };
            outer.push(parent)?;
            *top = Frame {
                place: *place,
                seen: Children::none(),
            };
            Ok(false)
        }
        Piece::Whole(place) => {
            top.seen = top.seen.with(tag_of(*place));
            Ok(false)
        }
        Piece::Leaf(tag, _) => {
            top.seen = top.seen.with(*tag);
            Ok(false)
        }
        Piece::Closes => match outer.pop() {
            None => Ok(true),
            Some(parent) => {
                *top = parent;
                Ok(false)
            }
        },
    }
}

fn put_text(label: &mut Label, tag: Tag, text: Text)
    ensures { label_of label.new ≡ set_leaf tag (pieces.words text) (label_of label.old) }
{
    match tag {
        Tag::Creator => label.creator = text,
        _ => {}
    }
}

fn put_letter(label: &mut Label, tag: Tag, letter: u8)
    ensures { label_of label.new ≡ set_leaf tag (pieces.letter letter) (label_of label.old) }
{
    match tag {
        Tag::Partition => label.location = letter,
        Tag::IndexLetter => label.index = letter,
        Tag::DataLetter => label.dpart = letter,
        _ => {}
    }
}

fn put_time(label: &mut Label, tag: Tag, moment: Moment)
    ensures { label_of label.new ≡ set_leaf tag (pieces.time (civil_of moment)) (label_of label.old) }
{
    match tag {
        Tag::FormatTime => label.formatted = moment,
        _ => {}
    }
}

fn put_uuid(label: &mut Label, tag: Tag, uuid: u128)
    ensures { label_of label.new ≡ set_leaf tag (pieces.uuid uuid) (label_of label.old) }
{
    match tag {
        Tag::VolumeUuid => label.uuid = uuid,
        _ => {}
    }
}

fn put_number(label: &mut Label, tag: Tag, number: u64)
    requires { FitsBlock (pieces.leaf tag (pieces.number number)) }
    ensures { label_of label.new ≡ set_leaf tag (pieces.number number) (label_of label.old) }
{
    match tag {
        Tag::BlockSize => label.block = number as u32,
        _ => {}
    }
}

fn put_truth(label: &mut Label, tag: Tag, truth: bool)
    ensures { label_of label.new ≡ set_leaf tag (pieces.truth truth) (label_of label.old) }
{
    match tag {
        Tag::Compression => label.compression = truth,
        _ => {}
    }
}

/// Puts the value of a leaf in its place.
fn put_leaf(label: &mut Label, tag: Tag, value: Value)
    requires { FitsBlock (pieces.leaf tag (val_of value)) }
    ensures { label_of label.new ≡ set_leaf tag (val_of value) (label_of label.old) }
{
    match value {
        Value::Text(text) => put_text(label, tag, text),
        Value::Time(moment) => put_time(label, tag, moment),
        Value::Uuid(uuid) => put_uuid(label, tag, uuid),
        Value::Letter(letter) => put_letter(label, tag, letter),
        Value::Number(number) => put_number(label, tag, number),
        Value::Truth(truth) => put_truth(label, tag, truth),
        _ => {}
    }
}

fn put(label: &mut Label, piece: Piece)
    requires { FitsBlock (piece_of piece) }
    ensures { label_of label.new ≡ set (piece_of piece) (label_of label.old) }
{
    match piece {
        Piece::Leaf(tag, value) => put_leaf(label, tag, value),
        _ => {}
    }
}

/// A label of which nothing has been told.
fn blank(alloc: Global) -> Label
    ensures { label_of result ≡ blank }
{
    Label {
        creator: Text::from_string(String::new(alloc)),
        formatted: Moment { secs: 0, nanos: 0 },
        uuid: 0,
        location: 0,
        index: 0,
        dpart: 0,
        block: 0,
        compression: false,
    }
}

/// The label whose root's start tag ends at `inside`, and where its end tag ends.
pub fn walk(alloc: Global, text: &[u8], inside: usize) -> Result<(Label, usize), PieceErr>
    requires { inside ≤ length text.now }
    ensures found { IfOk result (λ x. Walked text.now inside x.1 (label_of x.0)) }
    ensures within { IfOk result (λ x. x.1 ≤ length text.now) }
    ensures refused { IfErr result (λ e. UnlessMemory e (Halted place.Label text.now inside e)) }
{
    let mut label = blank(alloc);
    let mut outer: Vec<Frame> = Vec::new(alloc);
    let mut top = Frame {
        place: Container::Label,
        seen: Children::none(),
    };
    let mut at = inside;
    while at <= text.len() {
        let (piece, next) = match next_piece(alloc, top, 0, text, at) {
            Ok(found) => found,
            Err(fault) => return Err(fault),
        };
        at = next;
        let done = moved(&piece, &mut top, &mut outer)?;
        put(&mut label, piece);
        if done {
            return Ok((label, at));
        }
    }
    unreachable!()
}
