//! The text of an index as a whole.

ghost use Rattle.std.specs.Prelude.{◌≡◌, map, IfOk, IfErr};
ghost use Rattle.ltfs_documents.specs.declared.doc_elements.schema.Container.TheVariants as place;
ghost use Rattle.ltfs_documents.specs.DocElements.Answers as pieces;
ghost use Rattle.ltfs_documents.specs.DocElements.Documents.{Halts};
ghost use Rattle.index_model.specs.Valid.{Agrees};
ghost use Rattle.index_model.specs.Values.{value_of, volume_of};
ghost use Rattle.index_model.specs.declared.indexes.Index.{Index as IndexOf};
ghost use Rattle.index_model.specs.Grammar.{IndexText, Stops};
ghost use Rattle.index_read.specs.Answers.{IsReadOr, UnlessMemory};
ghost use Rattle.index_read.specs.Drafts.{state_of};
ghost use Rattle.index_read.specs.Walks.{IsReadAs, IsRefused, IsWhole};

use crate::drafts::Draft;
use crate::walking::walk;
use index_model::index_faults::first_fault;
use index_model::{Index, IndexErr};
use ltfs_documents::doc_elements::{Container, PieceErr, readable, skip_head};
use ltfs_documents::doc_fields::skip_space;
use std::alloc::Global;
use tape_types::{List, NoMemory};

/// What a text tells, as far as it is UTF-8.
fn whole(alloc: Global, text: &[u8]) -> Result<Draft, PieceErr>
    ensures found { IfOk result (λ d. IsWhole text.now (state_of d)) }
    ensures refused { IfErr result (λ e. pieces.UnlessMemory e (Halts place.Index text.now e)) }
{
    let inside = match skip_head(Container::Index, text) {
        Ok(inside) => inside,
        Err(fault) => return Err(fault),
    };
    let (draft, at) = match walk(alloc, text, inside) {
        Ok(walked) => walked,
        Err(fault) => return Err(fault),
    };
    let end = skip_space(text, at);
    if end != text.len() {
        return Err(PieceErr::Syntax(end));
    }
    Ok(draft)
}

fn into_index(draft: Draft) -> Index
    ensures volume { volume_of result ≡ (state_of draft).volume }
    ensures nodes { map value_of result.nodes ≡ (state_of draft).nodes }
{
    Index {
        nodes: List::from_vec(draft.nodes),
        ..draft.index
    }
}

/// Reads all of a text.
#[tactic(auto, using(crate::proofs::Whole::ends_badly))]
fn read(alloc: Global, text: &[u8]) -> Result<Index, IndexErr>
    ensures found { IfOk result (λ index. IsReadAs text.now index) }
    ensures agrees { IfOk result (λ index. Agrees index) }
    ensures refused { IfErr result (λ e. UnlessMemory e (IsRefused text.now e)) }
{
    let front = readable(text);
    let draft = match whole(alloc, front) {
        Ok(draft) => draft,
        Err(fault) => return Err(IndexErr::from(fault)),
    };
    if front.len() != text.len() {
        return Err(IndexErr::Syntax(front.len()));
    }
    let index = into_index(draft);
    match first_fault(alloc, &index) {
        Ok(None) => Ok(index),
        Ok(Some(fault)) => Err(IndexErr::from(fault)),
        Err(NoMemory) => Err(IndexErr::NoMemory),
    }
}

/// Reads the index that a text is (LTFS 2.4 on the index). The index is valid
/// (`indexes_read_are_valid`); whether its UUID, its pointers and its extents fit its volume, only
/// the volume can tell.
///
/// # Errors
///
/// What is wrong with the first piece that doesn't fit, a tag of a parent or a whole leaf: the
/// first variant that holds of it, in the order `Unknown`, `Twice`, `Version`, `TooMany`,
/// `Missing`, `Number`, `Name`, `Syntax`. Where all of the text is read, the first fault of the
/// index as a whole: `Uid`, `SameName`, `SameKey`, `Extent` or `Overlap`. `NoMemory` where memory
/// is refused.
pub fn read_index(alloc: Global, text: &[u8]) -> Result<Index, IndexErr>
    ensures found { IfOk result (λ index. IndexText text.now index) }
    ensures only { (index : IndexOf) → IndexText text.now index → IsReadOr result index }
    ensures refused { IfErr result (λ e. UnlessMemory e (Stops text.now e)) }
{
    read(alloc, text)
}
