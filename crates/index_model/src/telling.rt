ghost use Rattle.std.specs.Prelude.{◌≡◌, ◌++◌, codes, decimal, IfOk, string_bytes};
ghost use Rattle.ltfs_documents.specs.DocFields.Tags.{spelled};
ghost use Rattle.index_model.specs.Telling.{refusal_text};

use crate::errors::IndexErr;
use ltfs_documents::doc_fields::{Tag, name_of};
use std::alloc::Global;
use tape_types::{Bytes, NoMemory};

fn plain(text: String) -> Bytes
    ensures { result ≡ string_bytes text }
{
    Bytes::from_vec(text.into_bytes())
}

fn missing_text(alloc: Global, tag: Tag) -> Result<Bytes, NoMemory>
    ensures { IfOk result (λ text. text ≡ codes "Missing " ++ spelled tag) }
{
    let mut text = plain(String::from_str(alloc, "Missing ")?);
    text.extend(name_of(tag))?;
    Ok(text)
}

/// How a refusal is told in one line: its kind, and the place, the element or the UID that it
/// has.
pub fn refusal_text(alloc: Global, refusal: IndexErr) -> Result<Bytes, NoMemory>
    ensures { IfOk result (λ text. text ≡ refusal_text refusal) }
{
    let text = match refusal {
        IndexErr::Syntax(at) => format!(in alloc; "Syntax {at}")?,
        IndexErr::Unknown(at) => format!(in alloc; "Unknown {at}")?,
        IndexErr::Twice(at) => format!(in alloc; "Twice {at}")?,
        IndexErr::Version => format!(in alloc; "Version")?,
        IndexErr::Missing(tag) => return missing_text(alloc, tag),
        IndexErr::Number(at) => format!(in alloc; "Number {at}")?,
        IndexErr::Name(at) => format!(in alloc; "Name {at}")?,
        IndexErr::TooMany => format!(in alloc; "TooMany")?,
        IndexErr::Uid(uid) => format!(in alloc; "Uid {uid}")?,
        IndexErr::SameName(uid) => format!(in alloc; "SameName {uid}")?,
        IndexErr::SameKey(uid) => format!(in alloc; "SameKey {uid}")?,
        IndexErr::Extent(uid) => format!(in alloc; "Extent {uid}")?,
        IndexErr::Overlap(uid) => format!(in alloc; "Overlap {uid}")?,
        IndexErr::NoMemory => format!(in alloc; "NoMemory")?,
    };
    Ok(plain(text))
}
