//! The text of a label as a whole.

ghost use Rattle.std.specs.Prelude.{◌≡◌, ℕ, List, IfOk, IfErr};
ghost use Rattle.ltfs_documents.specs.declared.doc_elements.schema.Container.TheVariants as place;
ghost use Rattle.ltfs_documents.specs.DocElements.Answers as pieces;
ghost use Rattle.ltfs_documents.specs.DocElements.Documents.{Halts};
ghost use Rattle.ltfs_label.specs.declared.errors.LabelErr.{LabelErr};
ghost use Rattle.ltfs_label.specs.Grammar.{LabelText};
ghost use Rattle.ltfs_label.specs.Reading.{IsReadOr, Reads, Stops, UnlessMemory};
ghost use Rattle.ltfs_label.specs.Values.{LabelValue, label_of};

use crate::Label;
use crate::errors::{LabelErr, told};
use crate::walking::walk;
use ltfs_documents::doc_elements::{Container, PieceErr, readable, skip_head};
use ltfs_documents::doc_fields::skip_space;
use std::alloc::Global;

/// The label that a text is, as far as it is UTF-8.
fn whole(alloc: Global, text: &[u8]) -> Result<Label, PieceErr>
    ensures found { IfOk result (λ l. Reads text.now (label_of l)) }
    ensures refused { IfErr result (λ e. pieces.UnlessMemory e (Halts place.Label text.now e)) }
{
    let inside = match skip_head(Container::Label, text) {
        Ok(inside) => inside,
        Err(fault) => return Err(fault),
    };
    let (label, at) = match walk(alloc, text, inside) {
        Ok(walked) => walked,
        Err(fault) => return Err(fault),
    };
    let end = skip_space(text, at);
    if end != text.len() {
        return Err(PieceErr::Syntax(end));
    }
    Ok(label)
}

/// Reads all of a text.
#[tactic(auto, using(crate::proofs::Texts::ends_badly))]
fn read(alloc: Global, text: &[u8]) -> Result<Label, LabelErr>
    ensures found { IfOk result (λ l. LabelText text.now (label_of l)) }
    ensures refused { IfErr result (λ e. UnlessMemory e (Stops text.now e)) }
{
    let front = readable(text);
    let label = match whole(alloc, front) {
        Ok(label) => label,
        Err(fault) => return Err(told(fault)),
    };
    if front.len() != text.len() {
        return Err(LabelErr::Syntax(front.len()));
    }
    Ok(label)
}

/// Reads the label that a text is (LTFS 2.4 on the format label).
///
/// # Errors
///
/// What is wrong with the first piece that doesn't fit, a tag of a parent or a whole leaf: the
/// first variant that holds of it, in the order `Unknown`, `Twice`, `Version`, `Missing`,
/// `Number`, `Syntax`. `NoMemory` where memory is refused.
pub fn read_label(alloc: Global, text: &[u8]) -> Result<Label, LabelErr>
    ensures found { IfOk result (λ l. LabelText text.now (label_of l)) }
    ensures only { (v : LabelValue) → LabelText text.now v → IsReadOr result v }
    ensures refused { IfErr result (λ e. UnlessMemory e (Stops text.now e)) }
{
    read(alloc, text)
}

/// A text is that of one label at most, it stops at one place at most and for one reason, and
/// none does both.
pub fn texts_are_read_in_one_way()
    ensures one_value { (text : List ℕ) (v w : LabelValue) → LabelText text v → LabelText text w → v ≡ w }
    ensures never_both { (text : List ℕ) (v : LabelValue) (e : LabelErr) → LabelText text v → Stops text e → ⊥ }
    ensures one_refusal { (text : List ℕ) (e f : LabelErr) → Stops text e → Stops text f → e ≡ f }
{}
