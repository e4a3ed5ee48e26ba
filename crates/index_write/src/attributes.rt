//! The text of extended attributes. Each call appends it; where memory is refused, what stood there stands in front of
//! what was appended.

ghost use Rattle.std.specs.Prelude.{◌≡◌, ◌++◌, OnOk, OnErr, MatchOption, true, false};
ghost use Rattle.std.specs.List.{flat_map, list_all};
ghost use Rattle.std.specs.Str.{chars};
ghost use Rattle.base64.specs.Engines.{standard};
ghost use Rattle.base64.specs.GeneralPurpose.{encode_of};
ghost use Rattle.ltfs_documents.specs.DocElements.Written.{is_text};
ghost use Rattle.ltfs_documents.specs.DocFields.Texts.{is_allowed};
ghost use Rattle.ltfs_documents.specs.DocFields.Written.{Keeps};
ghost use Rattle.index_model.specs.Canonical as canonical;
ghost use Rattle.index_write.specs.Parts.{value_text};

use crate::fields::{put, put_key, put_words};
use base64::engine::general_purpose::STANDARD;
use std::str;
use tape_types::NoMemory;
use tape_types::node_keys::Xattr;

fn is_allowed(c: u32) -> bool
    ensures { result ≡ is_allowed c }
{
    matches!(c, 9 | 10 | 13 | 0x20..=0xD7FF | 0xE000..=0xFFFD | 0x1_0000..=0x10_FFFF)
}

/// Whether a document may have each character of a text.
fn are_allowed(text: &str) -> bool
    ensures { result ≡ list_all is_allowed (chars text.now) }
{
    text.chars().all(|c| is_allowed(u32::from(c)))
}

/// The bytes as a text, where they are one of characters that a document may have.
#[tactic(auto, using(ltfs_documents::proofs::DocElements::Names::utf8_is, ltfs_documents::proofs::DocElements::Names::utf8_none))]
pub fn text_of(bytes: &[u8]) -> Option<&str>
    ensures { MatchOption result (is_text bytes.now ≡ false)
        (λ text. (text.now ≡ bytes.now) × (is_text bytes.now ≡ true)) }
{
    match str::from_utf8(bytes) {
        Ok(text) if are_allowed(text) => Some(text),
        _ => None,
    }
}

/// Bytes in base64, without a copy of the whole.
fn put_symbols(out: &mut Vec<u8>, bytes: &[u8]) -> Result<(), NoMemory>
    ensures ok { OnOk result (out.new.items ≡ out.old.items ++ encode_of standard bytes.now) }
    ensures err { OnErr result (Keeps out.old.items out.new.items) }
{
    let mut symbols = [0u8; 1024];
    for piece in bytes.chunks(768) {
        let Ok(count) = STANDARD.encode_slice(piece, &mut symbols) else {
            unreachable!();
        };
        put(out, &symbols[..count])?;
    }
    Ok(())
}

/// The element of a value.
fn put_value(out: &mut Vec<u8>, bytes: &[u8]) -> Result<(), NoMemory>
    ensures ok { OnOk result (out.new.items ≡ out.old.items ++ value_text bytes.now) }
    ensures err { OnErr result (Keeps out.old.items out.new.items) }
{
    if let Some(text) = text_of(bytes) {
        return put_words(out, b"<value type=\"text\">", text, b"</value>");
    }
    put(out, b"<value type=\"base64\">")?;
    put_symbols(out, bytes)?;
    put(out, b"</value>")
}

fn put_xattr(out: &mut Vec<u8>, xattr: &Xattr) -> Result<(), NoMemory>
    ensures ok { OnOk result (out.new.items ≡ out.old.items ++ canonical.xattr xattr.now) }
    ensures err { OnErr result (Keeps out.old.items out.new.items) }
{
    put(out, b"<xattr>")?;
    put_key(out, xattr.key.as_str())?;
    put_value(out, xattr.value.as_slice())?;
    put(out, b"</xattr>")
}

fn put_xattrs(out: &mut Vec<u8>, xattrs: &[Xattr]) -> Result<(), NoMemory>
    ensures ok { OnOk result (out.new.items ≡ out.old.items ++ flat_map canonical.xattr xattrs.now) }
    ensures err { OnErr result (Keeps out.old.items out.new.items) }
{
    for xattr in xattrs {
        put_xattr(out, xattr)?;
    }
    Ok(())
}

/// The element of all attributes of a node, or nothing where it has none.
pub fn put_attributes(out: &mut Vec<u8>, xattrs: &[Xattr]) -> Result<(), NoMemory>
    ensures ok { OnOk result (out.new.items ≡ out.old.items ++ canonical.attributes xattrs.now) }
    ensures err { OnErr result (Keeps out.old.items out.new.items) }
{
    if xattrs.is_empty() {
        return Ok(());
    }
    put(out, b"<extendedattributes>")?;
    put_xattrs(out, xattrs)?;
    put(out, b"</extendedattributes>")
}
