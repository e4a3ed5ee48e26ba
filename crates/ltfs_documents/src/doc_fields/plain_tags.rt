//! Tags as they are written: without white space, and start tags without an attribute.

ghost use Rattle.std.specs.Prelude.{◌≡◌, ◌≤◌, ◌<◌, ◌+◌, length, drop, true, false, Ok, IfSome};
ghost use Rattle.ltfs_documents.specs.DocFields.EndTag.{end_at};
ghost use Rattle.ltfs_documents.specs.DocFields.Reading.{begins};
ghost use Rattle.ltfs_documents.specs.DocFields.StartTag.{named_at, rest_at};
ghost use Rattle.ltfs_documents.specs.DocFields.Tags.{is_root, spelled};
ghost use Rattle.ltfs_documents.specs.DocFields.Written.{end_text, start_text};
ghost use Rattle.ltfs_documents.specs.declared.doc_fields.starts.Attribute.TheVariants as attribute;

use crate::doc_fields::starts::{Attribute, Start};
use crate::doc_fields::tags::Tag;

/// The place behind a word, where it stands at a place.
#[inline(always)]
fn past(word: &[u8], text: &[u8], at: usize) -> Option<usize>
    requires { at ≤ length text.now }
    ensures there { IfSome result (λ _. begins word.now (drop at text.now) ≡ true) }
    ensures place { IfSome result (λ next. next ≡ at + length word.now) }
    ensures within { IfSome result (λ next. next ≤ length text.now) }
{
    if text[at..].starts_with(word) {
        Some(at + word.len())
    } else {
        None
    }
}

/// The place behind a start tag that stands at a place as it is written, of an element that nodes and extents have.
fn past_start(tag: Tag, text: &[u8], at: usize) -> Option<usize>
    requires { at ≤ length text.now }
    ensures there { IfSome result (λ _. begins (start_text tag attribute.Absent) (drop at text.now) ≡ true) }
    ensures place { IfSome result (λ next. next ≡ at + length (start_text tag attribute.Absent)) }
    ensures within { IfSome result (λ next. next ≤ length text.now) }
    ensures no_root { IfSome result (λ _. is_root tag ≡ false) }
{
    match tag {
        Tag::Directory => past(b"<directory>", text, at),
        Tag::File => past(b"<file>", text, at),
        Tag::FileUid => past(b"<fileuid>", text, at),
        Tag::Name => past(b"<name>", text, at),
        Tag::Length => past(b"<length>", text, at),
        Tag::CreationTime => past(b"<creationtime>", text, at),
        Tag::ChangeTime => past(b"<changetime>", text, at),
        Tag::ModifyTime => past(b"<modifytime>", text, at),
        Tag::AccessTime => past(b"<accesstime>", text, at),
        Tag::BackupTime => past(b"<backuptime>", text, at),
        Tag::ReadOnly => past(b"<readonly>", text, at),
        Tag::OpenForWrite => past(b"<openforwrite>", text, at),
        Tag::Contents => past(b"<contents>", text, at),
        Tag::ExtentInfo => past(b"<extentinfo>", text, at),
        Tag::Symlink => past(b"<symlink>", text, at),
        Tag::Extent => past(b"<extent>", text, at),
        Tag::FileOffset => past(b"<fileoffset>", text, at),
        Tag::Partition => past(b"<partition>", text, at),
        Tag::StartBlock => past(b"<startblock>", text, at),
        Tag::ByteOffset => past(b"<byteoffset>", text, at),
        Tag::ByteCount => past(b"<bytecount>", text, at),
        _ => None,
    }
}

/// The same of an end tag.
fn past_end(tag: Tag, text: &[u8], at: usize) -> Option<usize>
    requires { at ≤ length text.now }
    ensures there { IfSome result (λ _. begins (end_text tag) (drop at text.now) ≡ true) }
    ensures place { IfSome result (λ next. next ≡ at + length (end_text tag)) }
    ensures within { IfSome result (λ next. next ≤ length text.now) }
{
    match tag {
        Tag::Directory => past(b"</directory>", text, at),
        Tag::File => past(b"</file>", text, at),
        Tag::FileUid => past(b"</fileuid>", text, at),
        Tag::Name => past(b"</name>", text, at),
        Tag::Length => past(b"</length>", text, at),
        Tag::CreationTime => past(b"</creationtime>", text, at),
        Tag::ChangeTime => past(b"</changetime>", text, at),
        Tag::ModifyTime => past(b"</modifytime>", text, at),
        Tag::AccessTime => past(b"</accesstime>", text, at),
        Tag::BackupTime => past(b"</backuptime>", text, at),
        Tag::ReadOnly => past(b"</readonly>", text, at),
        Tag::OpenForWrite => past(b"</openforwrite>", text, at),
        Tag::Contents => past(b"</contents>", text, at),
        Tag::ExtentInfo => past(b"</extentinfo>", text, at),
        Tag::Symlink => past(b"</symlink>", text, at),
        Tag::Extent => past(b"</extent>", text, at),
        Tag::FileOffset => past(b"</fileoffset>", text, at),
        Tag::Partition => past(b"</partition>", text, at),
        Tag::StartBlock => past(b"</startblock>", text, at),
        Tag::ByteOffset => past(b"</byteoffset>", text, at),
        Tag::ByteCount => past(b"</bytecount>", text, at),
        _ => None,
    }
}

/// The start tag that stands at a place as it is written, if one of this element does and is looked for.
#[tactic(auto, using(crate::proofs::DocFields::PlainTags::named, crate::proofs::DocFields::PlainTags::rest))]
#[inline(always)]
pub fn plain_start(tag: Tag, text: &[u8], at: usize) -> Option<Start>
    requires { at ≤ length text.now }
    ensures named { IfSome result (λ _. named_at text.now at ≡ Ok (tag, at + 1 + length (spelled tag))) }
    ensures rest { IfSome result (λ s. rest_at tag at text.now (at + 1 + length (spelled tag)) ≡ Ok s) }
    ensures within { IfSome result (λ s. (at < s.next) × (s.next ≤ length text.now)) }
{
    let next = past_start(tag, text, at)?;
    Some(Start {
        tag,
        attribute: Attribute::Absent,
        empty: false,
        next,
    })
}

/// The place behind an end tag that stands at a place as it is written, if one of this element does and is looked for.
#[tactic(auto, using(crate::proofs::DocFields::PlainTags::ended))]
pub fn plain_end(tag: Tag, text: &[u8], at: usize) -> Option<usize>
    requires { at ≤ length text.now }
    ensures value { IfSome result (λ next. end_at text.now at tag ≡ Ok next) }
    ensures within { IfSome result (λ next. (at < next) × (next ≤ length text.now)) }
{
    let next = past_end(tag, text, at)?;
    Some(next)
}
