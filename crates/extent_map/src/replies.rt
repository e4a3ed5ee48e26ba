ghost use Rattle.std.specs.Prelude.{◌≡◌, ℕ, ◌+◌, ◌^◌, ◌<◌, ◌≤◌, take, drop, false, true, length, map, Some, None};
ghost use Rattle.std.specs.Prelude.{slice_get, OnOk, IfOk};
ghost use Rattle.std.specs.List.{range_with_len};
ghost use Rattle.plain_tree.specs.Cells.{bytes_of};
ghost use Rattle.extent_map.specs.Cells.{Tape};
ghost use Rattle.extent_map.specs.Replies.{Places, places_in, place_in, with_new, AreMet, bytes_in as bytes_of_piece};
ghost use Rattle.extent_map.specs.Replies.{size_of, same_part, same_place as is_same_place, IsBlock, IsGathered};
ghost use Rattle.extent_map.specs.Replies.{IsFilled, IsGatheredPiece, IsFilledPiece, IsPutAt};

use crate::pieces::Piece;
use std::alloc::Global;
use std::collections::BTreeSet;
use tape_types::{List, NoMemory, Part, Place};

/// The places that were met, each by whether it is on the data partition, and its position.
type Met = BTreeSet<(bool, u64)>;

/// The places of the blocks in which a plan's bytes stand, each once, in the order of the plan.
pub fn places_of(alloc: Global, pieces: &[Piece]) -> Result<List<Place>, NoMemory>
    ensures { IfOk result (λ places. places ≡ places_in pieces.now) }
{
    let mut met = BTreeSet::new(alloc);
    let mut places = List::new(alloc);
    for piece in pieces {
        put_place(&mut met, &mut places, piece)?;
    }
    Ok(places)
}

/// Puts in the place of a piece, where it wasn't met.
fn put_place(met: &mut Met, places: &mut List<Place>, piece: &Piece) -> Result<(), NoMemory>
    requires { AreMet met.old places.old }
    ensures places { OnOk result (places.new ≡ with_new places.old (place_in piece.now)) }
    ensures met { OnOk result (AreMet met.new places.new) }
{
    let Piece::Stored { place, .. } = piece else {
        return Ok(());
    };
    if met.insert((is_dp(place.part), place.pos))? {
        places.push(*place)?;
    }
    Ok(())
}

fn is_dp(part: Part) -> bool
    ensures { result ≡ same_part part Part.Dp }
{
    match part {
        Part::Ip => false,
        Part::Dp => true,
    }
}

/// Puts the bytes of a block, or none where no block stands at this place, where a plan wants them among the bytes of
/// its range, and leaves all others. The blocks may come in any order. False where the block has not all of them: then
/// a byte of the range is lost. Takes no memory.
pub fn fill(bytes: &mut [u8], pieces: &[Piece], place: Place, block: &[u8]) -> bool
    requires { length bytes.old ≡ size_of pieces.now }
    ensures filled { (tape : Tape) (read : Places) → IsBlock tape place block.now
        → IsGathered tape read pieces.now bytes.old → IsFilled tape read place pieces.now bytes.new result }
    ensures long { length bytes.new ≡ length bytes.old }
{
    let mut at = 0;
    for piece in pieces {
        let count = bytes_in(piece);
        if !fill_at(bytes, at, count, piece, place, block) {
            return false;
        }
        at += count;
    }
    true
}

/// The same for the piece that has so many bytes from a place of the range on.
fn fill_at(
    bytes: &mut [u8],
    at: usize,
    count: usize,
    piece: &Piece,
    place: Place,
    block: &[u8],
) -> bool
    requires count { count ≡ bytes_of_piece piece.now }
    requires within { at + count ≤ length bytes.old }
    ensures filled { (tape : Tape) (read : Places) → IsBlock tape place block.now
        → IsGatheredPiece tape read piece.now (take count (drop at bytes.old))
        → IsPutAt tape read place piece.now at count bytes.old bytes.new result }
    ensures long { length bytes.new ≡ length bytes.old }
    ensures fits { at + count < 2 ^ 64 }
{
    fill_piece(&mut bytes[at..at + count], piece, place, block)
}

/// How many bytes a piece has.
fn bytes_in(piece: &Piece) -> usize
    ensures { result ≡ bytes_of_piece piece.now }
{
    match piece {
        Piece::Zeros { count } => *count as usize,
        Piece::Stored { count, .. } => *count as usize,
    }
}

/// The same for one piece.
fn fill_piece(part: &mut [u8], piece: &Piece, place: Place, block: &[u8]) -> bool
    requires { length part.old ≡ bytes_of_piece piece.now }
    ensures filled { (tape : Tape) (read : Places) → IsBlock tape place block.now
        → IsGatheredPiece tape read piece.now part.old
        → IsFilledPiece tape read place piece.now part.new result }
    ensures long { length part.new ≡ length part.old }
{
    match piece {
        Piece::Zeros { .. } => true,
        Piece::Stored {
            place: stands,
            byte,
            ..
        } => {
            if !same_place(place, *stands) {
                return true;
            }
            fill_part(part, block, *byte)
        }
    }
}

fn same_place(one: Place, other: Place) -> bool
    ensures { result ≡ is_same_place one other }
{
    let same_part = match (one.part, other.part) {
        (Part::Ip, Part::Ip) | (Part::Dp, Part::Dp) => true,
        (Part::Ip, Part::Dp) | (Part::Dp, Part::Ip) => false,
    };
    same_part && one.pos == other.pos
}

/// Takes the bytes of a block from one of them on, where it has all of them.
fn fill_part(part: &mut [u8], block: &[u8], byte: u32) -> bool
    ensures whole { result ≡ true
        → bytes_of (map (λ i. slice_get block.now (byte + i)) (range_with_len 0 (length part.old))) ≡ Some part.new }
    ensures lost { result ≡ false
        → bytes_of (map (λ i. slice_get block.now (byte + i)) (range_with_len 0 (length part.old))) ≡ None }
    ensures long { length part.new ≡ length part.old }
{
    if part.is_empty() {
        return true;
    }
    let from = byte as usize;
    let to = from + part.len();
    if to > block.len() {
        return false;
    }
    part.copy_from_slice(&block[from..to]);
    true
}
