//! Elements that hold a value. Each call appends its text; where memory is refused, what stood
//! there stands in front of what was appended.

ghost use Rattle.std.specs.Prelude.{◌≡◌, ◌++◌, ◌∷◌, [], OnOk, OnErr};
ghost use Rattle.std.specs.Fmt.{decimal};
ghost use Rattle.ltfs_documents.specs.DocFields.Written.{bool_text, escape, Keeps};
ghost use Rattle.ltfs_documents.specs.declared.doc_fields.tags.Tag.TheVariants.{Key, Name, Symlink};
ghost use Rattle.index_model.specs.Canonical as canonical;
ghost use Rattle.ltfs_documents.specs.LtfsText.Names.{encoded, written};
ghost use Rattle.tape_types.specs.Times.{civil_of, civil_text};

use ltfs_documents::doc_fields::{put_bool, put_letter, put_text, put_time, put_u64};
use ltfs_documents::ltfs_text::{ESCAPED, has_special};
use percent_encoding::percent_encode;
use tape_types::{Moment, NoMemory};

/// Bytes as they are.
pub fn put(out: &mut Vec<u8>, bytes: &[u8]) -> Result<(), NoMemory>
    ensures ok { OnOk result (out.new.items ≡ out.old.items ++ bytes.now) }
    ensures err { OnErr result (Keeps out.old.items out.new.items) }
{
    out.extend_from_slice(bytes)?;
    Ok(())
}

/// A number in its shortest decimal form between these tags.
pub fn put_number(out: &mut Vec<u8>, start: &[u8], n: u64, end: &[u8]) -> Result<(), NoMemory>
    ensures ok { OnOk result (out.new.items ≡ out.old.items ++ (start.now ++ decimal n ++ end.now)) }
    ensures err { OnErr result (Keeps out.old.items out.new.items) }
{
    put(out, start)?;
    put_u64(out, n)?;
    put(out, end)
}

/// A truth between these tags.
pub fn put_truth(out: &mut Vec<u8>, start: &[u8], is: bool, end: &[u8]) -> Result<(), NoMemory>
    ensures ok { OnOk result (out.new.items ≡ out.old.items ++ (start.now ++ bool_text is ++ end.now)) }
    ensures err { OnErr result (Keeps out.old.items out.new.items) }
{
    put(out, start)?;
    put_bool(out, is)?;
    put(out, end)
}

/// The 30 bytes of a moment's text between these tags.
#[tactic(auto, unfolding(tape_types::specs::Times::time_text))]
pub fn put_moment(out: &mut Vec<u8>, start: &[u8], at: Moment, end: &[u8]) -> Result<(), NoMemory>
    ensures ok { OnOk result (out.new.items ≡ out.old.items ++ (start.now ++ civil_text (civil_of at) ++ end.now)) }
    ensures err { OnErr result (Keeps out.old.items out.new.items) }
{
    put(out, start)?;
    put_time(out, at)?;
    put(out, end)
}

/// A partition's letter between these tags.
pub fn put_sign(out: &mut Vec<u8>, start: &[u8], letter: u8, end: &[u8]) -> Result<(), NoMemory>
    ensures ok { OnOk result (out.new.items ≡ out.old.items ++ (start.now ++ (letter ∷ []) ++ end.now)) }
    ensures err { OnErr result (Keeps out.old.items out.new.items) }
{
    put(out, start)?;
    put_letter(out, letter)?;
    put(out, end)
}

/// A text with escapes between these tags.
pub fn put_words(out: &mut Vec<u8>, start: &[u8], text: &str, end: &[u8]) -> Result<(), NoMemory>
    ensures ok { OnOk result (out.new.items ≡ out.old.items ++ (start.now ++ escape text.now ++ end.now)) }
    ensures err { OnErr result (Keeps out.old.items out.new.items) }
{
    put(out, start)?;
    put_text(out, text)?;
    put(out, end)
}

/// The percent-encoded form of a text, with escapes.
fn put_encoded(out: &mut Vec<u8>, text: &str) -> Result<(), NoMemory>
    ensures ok { OnOk result (out.new.items ≡ out.old.items ++ escape (encoded text.now)) }
    ensures err { OnErr result (Keeps out.old.items out.new.items) }
{
    for piece in percent_encode(text.as_bytes(), ESCAPED) {
        put_text(out, piece)?;
    }
    Ok(())
}

/// The element of a name, or of a pattern.
pub fn put_name(out: &mut Vec<u8>, name: &str) -> Result<(), NoMemory>
    ensures ok { OnOk result (out.new.items ≡ out.old.items ++ canonical.name Name name.now) }
    ensures err { OnErr result (Keeps out.old.items out.new.items) }
{
    if has_special(name) {
        put(out, b"<name percentencoded=\"true\">")?;
        put_encoded(out, name)?;
        put(out, b"</name>")
    } else {
        put_words(out, b"<name>", name, b"</name>")
    }
}

/// The element of the text of a symbolic link.
pub fn put_symlink(out: &mut Vec<u8>, text: &str) -> Result<(), NoMemory>
    ensures ok { OnOk result (out.new.items ≡ out.old.items ++ canonical.name Symlink text.now) }
    ensures err { OnErr result (Keeps out.old.items out.new.items) }
{
    if has_special(text) {
        put(out, b"<symlink percentencoded=\"true\">")?;
        put_encoded(out, text)?;
        put(out, b"</symlink>")
    } else {
        put_words(out, b"<symlink>", text, b"</symlink>")
    }
}

/// The element of the key of an extended attribute.
pub fn put_key(out: &mut Vec<u8>, key: &str) -> Result<(), NoMemory>
    ensures ok { OnOk result (out.new.items ≡ out.old.items ++ canonical.name Key key.now) }
    ensures err { OnErr result (Keeps out.old.items out.new.items) }
{
    if has_special(key) {
        put(out, b"<key percentencoded=\"true\">")?;
        put_encoded(out, key)?;
        put(out, b"</key>")
    } else {
        put_words(out, b"<key>", key, b"</key>")
    }
}
