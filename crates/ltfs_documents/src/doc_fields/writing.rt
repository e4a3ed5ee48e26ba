//! Writing: each call appends the one text of its field, or nothing where memory is refused.

ghost use Rattle.std.specs.Prelude.{◌≡◌, ◌≤◌, ◌++◌, ◌∷◌, [], length, take, OnOk, OnErr};
ghost use Rattle.std.specs.Fmt.{decimal};
ghost use Rattle.ltfs_documents.specs.DocFields.Values.{lock_word};
ghost use Rattle.ltfs_documents.specs.DocFields.Written.{attribute_text, bool_text, end_text, escape, IsEscape, Keeps};
ghost use Rattle.ltfs_documents.specs.DocFields.Written.{start_text};
ghost use Rattle.tape_types.specs.Times as times;
ghost use Rattle.tape_types.specs.Uuids as uuids;

use crate::doc_fields::starts::Attribute;
use crate::doc_fields::tags::{Tag, name_of};
use crate::doc_fields::values::LockState;
use itoa::Buffer;
use tape_types::{Moment, NoMemory, time_text, uuid_text};

fn put(out: &mut Vec<u8>, bytes: &[u8]) -> Result<(), NoMemory>
    ensures ok { OnOk result (out.new.items ≡ out.old.items ++ bytes.now) }
    ensures err { OnErr result (out.new.items ≡ out.old.items) }
{
    out.extend_from_slice(bytes)?;
    Ok(())
}

fn attribute_text(attribute: Attribute) -> &'static [u8]
    ensures { result.now ≡ attribute_text attribute }
{
    match attribute {
        Attribute::Absent => b"",
        Attribute::Version => b" version=\"2.4.0\"",
        Attribute::Percent(true) => b" percentencoded=\"true\"",
        Attribute::Percent(false) => b" percentencoded=\"false\"",
        Attribute::Base64 => b" type=\"base64\"",
        Attribute::Plain => b" type=\"text\"",
    }
}

/// Appends a start tag, or a part of it.
fn put_start_parts(out: &mut Vec<u8>, tag: Tag, attribute: Attribute) -> Result<(), NoMemory>
    ensures ok { OnOk result (out.new.items ≡ out.old.items ++ start_text tag attribute) }
    ensures err { OnErr result (Keeps out.old.items out.new.items) }
{
    put(out, b"<")?;
    put(out, name_of(tag))?;
    put(out, attribute_text(attribute))?;
    put(out, b">")
}

/// Appends a start tag.
pub fn put_start(out: &mut Vec<u8>, tag: Tag, attribute: Attribute) -> Result<(), NoMemory>
    ensures ok { OnOk result (out.new.items ≡ out.old.items ++ start_text tag attribute) }
    ensures err { OnErr result (out.new.items ≡ out.old.items) }
{
    let before = out.len();
    let done = put_start_parts(out, tag, attribute);
    if done.is_err() {
        out.truncate(before);
    }
    done
}

/// Appends an end tag, or a part of it.
fn put_end_parts(out: &mut Vec<u8>, tag: Tag) -> Result<(), NoMemory>
    ensures ok { OnOk result (out.new.items ≡ out.old.items ++ end_text tag) }
    ensures err { OnErr result (Keeps out.old.items out.new.items) }
{
    put(out, b"</")?;
    put(out, name_of(tag))?;
    put(out, b">")
}

/// Appends an end tag.
pub fn put_end(out: &mut Vec<u8>, tag: Tag) -> Result<(), NoMemory>
    ensures ok { OnOk result (out.new.items ≡ out.old.items ++ end_text tag) }
    ensures err { OnErr result (out.new.items ≡ out.old.items) }
{
    let before = out.len();
    let done = put_end_parts(out, tag);
    if done.is_err() {
        out.truncate(before);
    }
    done
}

/// Appends a number in its shortest decimal form.
pub fn put_u64(out: &mut Vec<u8>, number: u64) -> Result<(), NoMemory>
    ensures ok { OnOk result (out.new.items ≡ out.old.items ++ decimal number) }
    ensures err { OnErr result (out.new.items ≡ out.old.items) }
{
    let mut buffer = Buffer::new();
    put(out, buffer.format(number).as_bytes())
}

/// Appends `true` or `false`.
pub fn put_bool(out: &mut Vec<u8>, value: bool) -> Result<(), NoMemory>
    ensures ok { OnOk result (out.new.items ≡ out.old.items ++ bool_text value) }
    ensures err { OnErr result (out.new.items ≡ out.old.items) }
{
    put(out, if value { b"true" } else { b"false" })
}

/// Appends a partition's letter.
pub fn put_letter(out: &mut Vec<u8>, letter: u8) -> Result<(), NoMemory>
    ensures ok { OnOk result (out.new.items ≡ out.old.items ++ letter ∷ []) }
    ensures err { OnErr result (out.new.items ≡ out.old.items) }
{
    out.push(letter)?;
    Ok(())
}

/// Appends the 30 bytes of a moment's text.
pub fn put_time(out: &mut Vec<u8>, moment: Moment) -> Result<(), NoMemory>
    ensures ok { OnOk result (out.new.items ≡ out.old.items ++ times.time_text moment) }
    ensures err { OnErr result (out.new.items ≡ out.old.items) }
{
    put(out, &time_text(moment))
}

/// Appends the 36 characters of a UUID, in lower case.
pub fn put_uuid(out: &mut Vec<u8>, uuid: u128) -> Result<(), NoMemory>
    ensures ok { OnOk result (out.new.items ≡ out.old.items ++ uuids.uuid_text uuid) }
    ensures err { OnErr result (out.new.items ≡ out.old.items) }
{
    put(out, &uuid_text(uuid))
}

fn lock_word(state: LockState) -> &'static [u8]
    ensures { result.now ≡ lock_word state }
{
    match state {
        LockState::Unlocked => b"unlocked",
        LockState::Locked => b"locked",
        LockState::PermLocked => b"permlocked",
    }
}

/// Appends `unlocked`, `locked` or `permlocked`.
pub fn put_lock(out: &mut Vec<u8>, state: LockState) -> Result<(), NoMemory>
    ensures ok { OnOk result (out.new.items ≡ out.old.items ++ lock_word state) }
    ensures err { OnErr result (out.new.items ≡ out.old.items) }
{
    put(out, lock_word(state))
}

/// What stands for a byte that can't stand raw.
fn escape_of(byte: u8) -> Option<&'static [u8]>
    ensures { IsEscape byte result }
{
    match byte {
        b'&' => Some(b"&amp;"),
        b'<' => Some(b"&lt;"),
        b'>' => Some(b"&gt;"),
        b'\r' => Some(b"&#13;"),
        _ => None,
    }
}

/// Appends a text with escapes, or a part of it.
fn put_text_parts(out: &mut Vec<u8>, text: &[u8]) -> Result<(), NoMemory>
    ensures ok { OnOk result (out.new.items ≡ out.old.items ++ escape text.now) }
    ensures err { OnErr result (Keeps out.old.items out.new.items) }
{
    let mut from = 0;
    for i in 0..text.len() {
        if let Some(escape) = escape_of(text[i]) {
            put(out, &text[from..i])?;
            put(out, escape)?;
            from = i + 1;
        }
    }
    put(out, &text[from..])
}

/// Appends a text, with `&amp;`, `&lt;`, `&gt;` and `&#13;` for the characters that can't stand
/// raw.
pub fn put_text(out: &mut Vec<u8>, text: &str) -> Result<(), NoMemory>
    ensures ok { OnOk result (out.new.items ≡ out.old.items ++ escape text.now) }
    ensures err { OnErr result (out.new.items ≡ out.old.items) }
{
    let before = out.len();
    let done = put_text_parts(out, text.as_bytes());
    if done.is_err() {
        out.truncate(before);
    }
    done
}
