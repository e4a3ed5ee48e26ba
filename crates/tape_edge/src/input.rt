//! An input as a whole.

ghost use Rattle.std.specs.Prelude.{◌≡◌, ◌≤◌, ◌<◌, ◌+◌, ◌^◌, length, IfOk, IfErr};
ghost use Rattle.std.specs.Io.KnownBytes.{Consumes, IsAtEnd};
ghost use Rattle.tape_edge.specs.Inputs.{IsReadFailure, ReadsPiece};

use crate::traits::{ReadFault, Source};
use std::alloc::{AllocError, Global};
use tape_types::Twin;

/// How many bytes are read at a time, at most.
const PIECE: usize = 131072;

/// Why there is no input.
#[derive(Clone, Copy)]
pub enum ReadFailure {
    /// The source failed: its count of faults before and after.
    Fault(Twin),
    NoMemory,
}

impl From<AllocError> for ReadFailure {
    ghost use Rattle.std.specs.Prelude.{◌≡◌};
    ghost use Rattle.tape_edge.specs.declared.input.ReadFailure.TheVariants as failures;

    ghost from_gives = { λ _ e. e ≡ failures.NoMemory };

    fn from(_e: AllocError) -> ReadFailure {
        ReadFailure::NoMemory
    }
}

/// What a source has left: all of it, or one byte more than the most that is wanted.
pub fn read_input<S: Source>(
    alloc: Global,
    source: &mut S,
    most: usize,
) -> Result<Vec<u8>, ReadFailure>
    requires { most + 1 < 2 ^ 64 }
    ensures read { IfOk result (λ text. Consumes (S.left source.old) (S.left source.new) text.items) }
    ensures whole { IfOk result (λ text. length text.items ≤ most → IsAtEnd (S.left source.new)) }
    ensures fault { IfErr result (IsReadFailure (S.faults source.old) (S.faults source.new)) }
    ensures later { S.faults source.old ≤ S.faults source.new }
{
    let mut buffer = zeros(alloc, PIECE)?;
    read_by(alloc, source, buffer.as_mut_slice(), most)
}

/// A buffer of so many zeros.
fn zeros(alloc: Global, count: usize) -> Result<Vec<u8>, AllocError>
    ensures { IfOk result (λ buffer. length buffer.items ≡ count) }
{
    vec![in alloc; 0u8; count]
}

/// The same, read by pieces as large as the buffer.
fn read_by<S: Source>(
    alloc: Global,
    source: &mut S,
    buffer: &mut [u8],
    most: usize,
) -> Result<Vec<u8>, ReadFailure>
    requires some { 0 < length buffer.old }
    requires most { most + 1 < 2 ^ 64 }
    ensures read { IfOk result (λ text. Consumes (S.left source.old) (S.left source.new) text.items) }
    ensures whole { IfOk result (λ text. length text.items ≤ most → IsAtEnd (S.left source.new)) }
    ensures fault { IfErr result (IsReadFailure (S.faults source.old) (S.faults source.new)) }
    ensures later { S.faults source.old ≤ S.faults source.new }
{
    let mut text = Vec::new(alloc);
    while text.len() <= most {
        let room = buffer.len().min(most + 1 - text.len());
        if !read_piece(source, &mut buffer[..room], &mut text)? {
            return Ok(text);
        }
    }
    Ok(text)
}

/// Appends what one read gives, and answers whether it gave anything. It doesn't at the end.
fn read_piece<S: Source>(
    source: &mut S,
    piece: &mut [u8],
    text: &mut Vec<u8>,
) -> Result<bool, ReadFailure>
    requires { 0 < length piece.old }
    ensures read { IfOk result (λ more.
        ReadsPiece more (S.left source.old) (S.left source.new) text.old.items text.new.items) }
    ensures fault { IfErr result (IsReadFailure (S.faults source.old) (S.faults source.new)) }
    ensures later { S.faults source.old ≤ S.faults source.new }
{
    let before = source.faults();
    match source.read(piece) {
        Ok(0) => Ok(false),
        Ok(count) => {
            text.extend_from_slice(&piece[..count])?;
            Ok(true)
        }
        Err(ReadFault) => Err(ReadFailure::Fault(Twin {
            before,
            after: source.faults(),
        })),
    }
}
