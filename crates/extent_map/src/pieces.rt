ghost use Rattle.std.specs.Prelude.{◌≡◌, ℕ, ◌+◌, ◌-◌, ◌*◌, ◌^◌, ◌<◌, ◌≤◌, List, ◌++◌, OnOk, IfOk, IfSome};
ghost use Rattle.std.specs.List.{flat_map, All};
ghost use Rattle.std.specs.Option.{option_to_list};
ghost use Rattle.tape_types.specs.Bounds.{longest_file};
ghost use Rattle.tape_types.specs.declared.cartridges.Extent.{Extent};
ghost use Rattle.extent_map.specs.Laid.{before, past, cut, left_from};
ghost use Rattle.extent_map.specs.Pieces.{zeros, piece_in as piece_of, pieces_of, with_gaps};

use crate::edits::rest_of;
use std::alloc::AllocError;
use tape_types::{Extent, Place};

/// A part of a file, as it is read.
#[derive(Clone, Copy, Debug, PartialEq, Eq)]
pub enum Piece {
    /// Bytes that are 0 and stand nowhere on tape.
    Zeros { count: u64 },
    /// Bytes of one block, from byte `byte` of it on.
    Stored { place: Place, byte: u32, count: u32 },
}

/// Appends what lies in the range from `from` up to `end`, given the extents that have bytes there.
pub fn push_range(
    pieces: &mut Vec<Piece>,
    extents: &[Extent],
    from: u64,
    end: u64,
    block_size: u32,
) -> Result<(), AllocError>
    requires byte { All (λ (e : Extent). e.byte < block_size) extents.now }
    requires far { All (λ (e : Extent). e.block + e.count ≤ 2 ^ 62 + longest_file) extents.now }
    requires range { end ≤ longest_file }
    ensures { OnOk result (pieces.new.items ≡ pieces.old.items
        ++ with_gaps block_size from end (left_from block_size from (cut end extents.now))) }
{
    let mut at = from;
    for extent in extents {
        at = push_next(pieces, at, *extent, from, end, block_size)?;
    }
    push_zeros(pieces, at, end)
}

/// Appends the pieces of what the next extent has in the range from `from` up to `end`, with the gap before it. All
/// before `at` is there. Gives the byte up to which it is there then.
fn push_next(
    pieces: &mut Vec<Piece>,
    at: u64,
    extent: Extent,
    from: u64,
    end: u64,
    block_size: u32,
) -> Result<u64, AllocError>
    requires byte { extent.byte < block_size }
    requires far { extent.block + extent.count ≤ 2 ^ 62 + longest_file }
    requires range { end ≤ longest_file }
    ensures { IfOk result (λ next. (more : List Extent) → pieces.old.items
        ++ with_gaps block_size at end (flat_map (past block_size from) (before end extent) ++ more)
        ≡ pieces.new.items ++ with_gaps block_size next end more) }
{
    match clip(extent, from, end, block_size) {
        None => Ok(at),
        Some(run) => {
            push_zeros(pieces, at, run.offset)?;
            push_run(pieces, run, block_size)?;
            Ok(run.offset + run.count)
        }
    }
}

/// What of an extent lies in a range.
fn clip(extent: Extent, from: u64, end: u64, block_size: u32) -> Option<Extent>
    requires byte { extent.byte < block_size }
    requires far { extent.block + extent.count ≤ 2 ^ 62 + longest_file }
    ensures run { option_to_list result ≡ flat_map (past block_size from) (before end extent) }
    ensures byte { IfSome result (λ run. run.byte < block_size) }
    ensures far { IfSome result (λ run. run.block + run.count ≤ extent.block + extent.count) }
{
    let count = extent.count.min(end.saturating_sub(extent.offset));
    let skipped = from.saturating_sub(extent.offset);
    if skipped >= count {
        return None;
    }
    let front = Extent { count, ..extent };
    Some(rest_of(front, skipped, block_size))
}

/// Appends the zeros from one byte of the file up to another.
fn push_zeros(pieces: &mut Vec<Piece>, from: u64, to: u64) -> Result<(), AllocError>
    ensures { OnOk result (pieces.new.items ≡ pieces.old.items ++ zeros (to - from)) }
{
    if from < to {
        pieces.push(Piece::Zeros { count: to - from })?;
    }
    Ok(())
}

/// Appends a run of bytes, cut at the ends of blocks.
fn push_run(pieces: &mut Vec<Piece>, run: Extent, block_size: u32) -> Result<(), AllocError>
    requires byte { run.byte < block_size }
    requires far { run.block + run.count ≤ 2 ^ 62 + longest_file }
    ensures { OnOk result (pieces.new.items ≡ pieces.old.items ++ pieces_of block_size run) }
{
    let bytes = u64::from(run.byte) + run.count;
    for k in 0..bytes.div_ceil(u64::from(block_size)) {
        pieces.push(piece_in(run, k, block_size))?;
    }
    Ok(())
}

/// What of a run lies in its k-th block.
fn piece_in(run: Extent, k: u64, block_size: u32) -> Piece
    requires byte { run.byte < block_size }
    requires far { run.block + run.count ≤ 2 ^ 62 + longest_file }
    requires there { k * block_size < run.byte + run.count }
    ensures { result ≡ piece_of block_size run k }
{
    let size = u64::from(block_size);
    let before = k * size;
    let from = u64::from(run.byte).saturating_sub(before);
    let to = size.min(u64::from(run.byte) + run.count - before);
    Piece::Stored {
        place: Place {
            part: run.part,
            pos: run.block + k,
        },
        byte: from as u32,
        count: (to - from) as u32,
    }
}
