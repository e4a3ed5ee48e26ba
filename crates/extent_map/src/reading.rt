ghost use Rattle.std.specs.Prelude.{◌≡◌, ◌+◌, ◌++◌, map, replicate, Some, OnErr, IfOk, slice_get};
ghost use Rattle.std.specs.List.{range_with_len};
ghost use Rattle.plain_tree.specs.Cells.{bytes_of};
ghost use Rattle.extent_map.specs.Cells.{Tape};
ghost use Rattle.extent_map.specs.Pieces.{read_piece, Shows, IsTaken};

use crate::pieces::Piece;
use tape_types::NoMemory;

impl Piece {
    /// Appends the bytes of the piece, given the block at its place, or no bytes where no block stands there. False
    /// where the block has not all of them: then one is lost, and nothing is appended.
    pub fn append(self, bytes: &mut Vec<u8>, block: &[u8]) -> Result<bool, NoMemory>
        ensures told { IfOk result (λ whole. (tape : Tape) → Shows tape block.now self
            → IsTaken bytes.old.items bytes.new.items whole (bytes_of (read_piece tape self))) }
        ensures err { OnErr result (bytes.new.items ≡ bytes.old.items) }
    {
        match self {
            Piece::Zeros { count } => append_zeros(bytes, count),
            Piece::Stored { byte, count, .. } => append_part(bytes, block, byte, count),
        }
    }
}

/// Appends bytes that are 0, and gives true.
fn append_zeros(bytes: &mut Vec<u8>, count: u64) -> Result<bool, NoMemory>
    ensures ok { IfOk result (λ whole. IsTaken bytes.old.items bytes.new.items whole
        (bytes_of (replicate count (Some 0)))) }
    ensures err { OnErr result (bytes.new.items ≡ bytes.old.items) }
{
    let length = bytes.len().checked_add(count as usize).ok_or(NoMemory)?;
    bytes.resize(length, 0)?;
    Ok(true)
}

/// Appends a part of a block, and gives true; or false where the block has not all of it.
fn append_part(bytes: &mut Vec<u8>, block: &[u8], byte: u32, count: u32) -> Result<bool, NoMemory>
    ensures ok { IfOk result (λ whole. IsTaken bytes.old.items bytes.new.items whole
        (bytes_of (map (λ i. slice_get block.now (byte + i)) (range_with_len 0 count)))) }
    ensures err { OnErr result (bytes.new.items ≡ bytes.old.items) }
{
    let from = byte as usize;
    let to = from + count as usize;
    if count == 0 {
        return Ok(true);
    }
    if to > block.len() {
        return Ok(false);
    }
    bytes.extend_from_slice(&block[from..to])?;
    Ok(true)
}
