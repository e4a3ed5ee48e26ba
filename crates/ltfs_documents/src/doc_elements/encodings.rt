//! Bytes that stand in a document as a text or in base64.

ghost use Rattle.std.specs.Prelude.{◌≡◌, ◌≤◌, ◌<◌, ◌++◌, ◌∷◌, ℕ, List, length, if◌then◌else◌, None, Some, Ok};
ghost use Rattle.std.specs.Prelude.{IfOk, IfSome, MatchOption, OnOk};
ghost use Rattle.std.specs.Option.{option_map};
ghost use Rattle.std.specs.Str.{encode_utf8_all};
ghost use Rattle.base64.specs.Engines.{standard};
ghost use Rattle.base64.specs.GeneralPurpose.{IsBytes, decoded_of};
ghost use Rattle.ltfs_documents.specs.DocFields.Characters.{characters};
ghost use Rattle.ltfs_documents.specs.DocFields.Reading.{between};
ghost use Rattle.ltfs_documents.specs.DocFields.Texts.{text_at};
ghost use Rattle.ltfs_documents.specs.DocElements.Bare.{is_bare, is_lined};
ghost use Rattle.ltfs_documents.specs.DocElements.Blocks.{behind};
ghost use Rattle.ltfs_documents.specs.DocElements.Pieces.{bytes_told, from_base64, without_space};

use crate::doc_fields::{Characters, is_space};
use base64::DecodeAllocError;
use base64::engine::general_purpose::STANDARD;
use std::alloc::{AllocError, Global};
use tape_types::{Bytes, NoMemory};

/// Whether a byte stands for itself in a text, and is a character.
fn is_bare(byte: u8) -> bool
    ensures { result ≡ is_bare byte }
{
    byte == b'\t' || byte == b'\n' || b' ' <= byte && byte < 128 && byte != b'&'
}

/// Where the text ends that begins at a place and has bare bytes alone; none of other texts.
#[tactic(auto, using(crate::proofs::DocElements::BareTexts::run_none, crate::proofs::DocElements::BareTexts::run_more_to, crate::proofs::DocElements::BareTexts::bare_read))]
pub fn bare_end(text: &[u8], at: usize) -> Option<usize>
    requires { at ≤ length text.now }
    ensures within { IfSome result (λ end. (at ≤ end) × (end < length text.now)) }
    ensures text { IfSome result (λ end. text_at text.now at ≡ Ok (between text.now at end, end)) }
{
    for i in at..text.len() {
        if text[i] == b'<' {
            return Some(i);
        }
        if !is_bare(text[i]) {
            return None;
        }
    }
    None
}

/// Whether a byte is bare, or a carriage return.
fn is_lined(byte: u8) -> bool
    ensures { result ≡ is_lined byte }
{
    is_bare(byte) || byte == b'\r'
}

/// Where the text ends that begins at a place and has bare bytes and carriage returns alone; none of other texts. What is
/// read of it differs from what stands there in white space.
#[tactic(auto, using(crate::proofs::DocElements::BareTexts::run_none, crate::proofs::DocElements::BareTexts::run_more_to, crate::proofs::DocElements::LinedTexts::lined_read))]
pub fn lined_end(text: &[u8], at: usize) -> Option<usize>
    requires { at ≤ length text.now }
    ensures within { IfSome result (λ end. (at ≤ end) × (end < length text.now)) }
    ensures text { IfSome result (λ end. (read : List ℕ) × (text_at text.now at ≡ Ok (read, end))
        × (without_space read ≡ without_space (between text.now at end))) }
{
    for i in at..text.len() {
        if text[i] == b'<' {
            return Some(i);
        }
        if !is_lined(text[i]) {
            return None;
        }
    }
    None
}

/// The bytes that symbols of base64 stand for, or none.
fn decode_symbols(alloc: Global, symbols: &[u8]) -> Result<Option<Vec<u8>>, AllocError>
    ensures value { IfOk result (λ found. option_map (λ v. v.items) found ≡ decoded_of standard symbols.now) }
    ensures bytes { IfOk result (λ found. IfSome found (λ v. IsBytes v.items)) }
    ensures symbols { IsBytes symbols.now }
{
    match STANDARD.decode(alloc, symbols) {
        Ok(bytes) => Ok(Some(bytes)),
        Err(DecodeAllocError::OutOfMemory) => Err(AllocError),
        Err(DecodeAllocError::DecodeError(_)) => Ok(None),
    }
}

/// Decodes a full block in front of a symbol, with which the next one begins; or tells that the whole stands for none.
fn take_block(
    alloc: Global,
    out: &mut Vec<u8>,
    block: &mut Vec<u8>,
    next: u8,
) -> Result<bool, AllocError>
    requires { length block.old.items ≡ 1024 }
    ensures { IfOk result (λ taken. (rest : List ℕ) → IsBytes rest
        → behind out.old.items (block.old.items ++ next ∷ rest)
        ≡ (if taken then behind out.new.items (block.new.items ++ rest) else None)) }
{
    let Some(bytes) = decode_symbols(alloc, block.as_slice())? else {
        return Ok(false);
    };
    if bytes.len() != 768 {
        return Ok(false);
    }
    out.extend_from_slice(bytes.as_slice())?;
    block.clear();
    block.push(next)?;
    Ok(true)
}

/// Takes the next byte of a text in base64; or tells that the whole stands for no bytes.
fn take_byte(
    alloc: Global,
    out: &mut Vec<u8>,
    block: &mut Vec<u8>,
    byte: u8,
) -> Result<bool, AllocError>
    ensures { IfOk result (λ taken. (rest : List ℕ) → IsBytes rest
        → behind out.old.items (block.old.items ++ without_space (byte ∷ rest))
        ≡ (if taken then behind out.new.items (block.new.items ++ without_space rest) else None)) }
{
    if is_space(byte) {
        return Ok(true);
    }
    if block.len() == 1024 {
        return take_block(alloc, out, block, byte);
    }
    block.push(byte)?;
    Ok(true)
}

/// Takes the next bytes of a text in base64; or tells that the whole stands for no bytes.
fn take_bytes(
    alloc: Global,
    out: &mut Vec<u8>,
    block: &mut Vec<u8>,
    bytes: &[u8],
) -> Result<bool, AllocError>
    ensures { IfOk result (λ taken. (rest : List ℕ) → IsBytes rest
        → behind out.old.items (block.old.items ++ without_space (bytes.now ++ rest))
        ≡ (if taken then behind out.new.items (block.new.items ++ without_space rest) else None)) }
{
    for byte in bytes {
        if !take_byte(alloc, out, block, *byte)? {
            return Ok(false);
        }
    }
    Ok(true)
}

/// The bytes that a text in base64 stands for whose last symbols are in a block, or none.
fn take_last(alloc: Global, out: Vec<u8>, block: &[u8]) -> Result<Option<Vec<u8>>, AllocError>
    ensures { IfOk result (λ v. option_map (λ b. b.items) v ≡ behind out.items block.now) }
{
    let mut out = out;
    let Some(last) = decode_symbols(alloc, block)? else {
        return Ok(None);
    };
    out.extend_from_slice(last.as_slice())?;
    Ok(Some(out))
}

fn symbol_count(text: &[u8]) -> usize {
    text.iter().filter(|byte| !is_space(**byte)).count()
}

/// Puts the symbols of a text in base64 behind others.
fn push_symbols(symbols: &mut Vec<u8>, text: &[u8]) -> Result<(), AllocError>
    ensures { OnOk result (symbols.new.items ≡ symbols.old.items ++ without_space text.now) }
{
    for byte in text {
        if !is_space(*byte) {
            symbols.push(*byte)?;
        }
    }
    Ok(())
}

/// The bytes that a text in base64 stands for whose symbols fit in one block, or none.
#[tactic(auto, unfolding(crate::specs::DocElements::Pieces::from_base64))]
fn decode_short(alloc: Global, text: &[u8]) -> Result<Option<Vec<u8>>, AllocError>
    ensures { IfOk result (λ v. option_map (λ b. b.items) v ≡ from_base64 text.now) }
{
    let mut symbols = Vec::with_capacity(alloc, text.len())?;
    push_symbols(&mut symbols, text)?;
    decode_symbols(alloc, symbols.as_slice())
}

/// The bytes that a text in base64 stands for, or none. It is decoded in blocks of 1,024 symbols.
fn decode(alloc: Global, text: &[u8]) -> Result<Option<Vec<u8>>, AllocError>
    ensures { IfOk result (λ v. option_map (λ b. b.items) v ≡ from_base64 text.now) }
{
    if text.len() <= 1024 {
        return decode_short(alloc, text);
    }
    let mut out = Vec::with_capacity(alloc, symbol_count(text) / 4 * 3)?;
    let mut block = Vec::with_capacity(alloc, 1024)?;
    if !take_bytes(alloc, &mut out, &mut block, text)? {
        return Ok(None);
    }
    take_last(alloc, out, block.as_slice())
}

/// How many of the characters that are left of a text aren't white space.
fn count_symbols(left: Characters) -> usize {
    let mut left = left;
    let mut count: usize = 0;
    while let Some(Ok(c)) = left.next() {
        if !c.is_ascii_whitespace() {
            count = count.saturating_add(1);
        }
    }
    count
}

/// The same of a text with references or carriage returns, character by character, so that it takes no memory beside
/// that of [`decode`].
fn decode_characters(alloc: Global, left: Characters) -> Result<Option<Vec<u8>>, AllocError>
    ensures { (cs : List ℕ) → characters left.entry ≡ Ok cs
        → IfOk result (λ v. option_map (λ b. b.items) v ≡ from_base64 (encode_utf8_all cs)) }
{
    let mut out = Vec::with_capacity(alloc, count_symbols(left.clone()?) / 4 * 3)?;
    let mut block = Vec::with_capacity(alloc, 1024)?;
    let mut left = left;
    while let Some(taken) = left.next() {
        let Ok(c) = taken else {
            return Ok(None);
        };
        let mut spelled = [0; 4];
        let bytes = c.encode_utf8(&mut spelled).as_bytes();
        if !take_bytes(alloc, &mut out, &mut block, bytes)? {
            return Ok(None);
        }
    }
    take_last(alloc, out, block.as_slice())
}

/// The bytes that a text stands for, in base64 or as it is, or none.
pub fn bytes_told(alloc: Global, text: &[u8], in_base64: bool) -> Result<Option<Bytes>, NoMemory>
    ensures { IfOk result (λ found. MatchOption found (bytes_told in_base64 text.now ≡ None)
        (λ bs. bytes_told in_base64 text.now ≡ Some bs)) }
{
    if !in_base64 {
        return Ok(Some(Bytes::from_vec(Vec::from_slice(alloc, text)?)));
    }
    match decode(alloc, text)? {
        None => Ok(None),
        Some(bytes) => Ok(Some(Bytes::from_vec(bytes))),
    }
}

/// The bytes that the characters which are left of a text stand for in base64, or none.
pub fn bytes_of_characters(alloc: Global, left: Characters) -> Result<Option<Bytes>, NoMemory>
    ensures { (cs : List ℕ) → characters left.entry ≡ Ok cs → IfOk result (λ found. MatchOption found
        (from_base64 (encode_utf8_all cs) ≡ None) (λ bs. from_base64 (encode_utf8_all cs) ≡ Some bs)) }
{
    match decode_characters(alloc, left)? {
        None => Ok(None),
        Some(bytes) => Ok(Some(Bytes::from_vec(bytes))),
    }
}
