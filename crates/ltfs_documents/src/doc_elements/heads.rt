//! What stands in front of the first child of a document.

ghost use Rattle.std.specs.Prelude.{◌≡◌, ◌≤◌, ◌<◌, length, IfOk, IsUtf8};
ghost use Rattle.ltfs_documents.specs.DocElements.Documents.{begins, head_of, readable, root_at};

use crate::doc_elements::errors::PieceErr;
use crate::doc_elements::schema::Container;
use crate::doc_fields::{Tag, Why, read_head, read_name, read_rest, skip_space};
use std::str;

fn begins(root: Container, tag: Tag) -> bool
    ensures { result ≡ begins root tag }
{
    match root {
        Container::Label => match tag {
            Tag::LtfsLabel => true,
            _ => false,
        },
        Container::Index => match tag {
            Tag::LtfsIndex => true,
            _ => false,
        },
        _ => false,
    }
}

/// Reads the start tag with which the one element begins, and gives the place behind it.
#[tactic(auto, unfolding(crate::specs::DocElements::Documents::root_at))]
fn root(root: Container, text: &[u8], at: usize) -> Result<usize, PieceErr>
    requires { at ≤ length text.now }
    ensures value { result ≡ root_at root text.now at }
    ensures within { IfOk result (λ x. x ≤ length text.now) }
{
    let (tag, next) = read_name(text, at)?;
    match read_rest(tag, at, text, next) {
        Ok(start) => {
            if !begins(root, tag) {
                return Err(PieceErr::Unknown(at));
            }
            if start.empty {
                return Err(PieceErr::Missing(Tag::Creator));
            }
            Ok(start.next)
        }
        Err(fault) => {
            match fault.why {
                Why::Unknown => return Err(PieceErr::Unknown(fault.at)),
                _ => {}
            }
            if !begins(root, tag) {
                return Err(PieceErr::Unknown(at));
            }
            Err(PieceErr::from(fault))
        }
    }
}

/// Goes past the declaration and the start tag of the one element, and gives the place behind them.
#[tactic(auto, unfolding(crate::specs::DocElements::Documents::head_of))]
pub fn skip_head(place: Container, text: &[u8]) -> Result<usize, PieceErr>
    ensures value { result ≡ head_of place text.now }
    ensures within { IfOk result (λ x. x ≤ length text.now) }
{
    let from = read_head(text, 0)?;
    root(place, text, skip_space(text, from))
}

/// The front of a text that is UTF-8.
pub fn readable(text: &[u8]) -> &[u8]
    ensures front { result.now ≡ readable text.now }
    ensures valid { length result.now ≡ length text.now → IsUtf8 text.now }
{
    match str::from_utf8(text) {
        Ok(_) => text,
        Err(fault) => &text[..fault.valid_up_to()],
    }
}
