//! Where the pieces of a read stand on tape.

ghost use Rattle.std.specs.Prelude.{◌≡◌, ◌≤◌, ◌++◌, true, false, nat_le, nat_lt, length, take, drop};
ghost use Rattle.std.specs.Prelude.{Some, OnOk, IfOk, slice_get};
ghost use Rattle.std.specs.List.Sorted.{IsNonDecreasingBy, IsPartitionPoint};
ghost use Rattle.tape_types.specs.Bounds.{longest_file};
ghost use Rattle.extent_map.specs.Cells.{Tape};
ghost use Rattle.extent_map.specs.Replies.{IsBlock, IsFilled, IsGathered, IsGatheredPiece, IsPutAt, Places};
ghost use Rattle.extent_map.specs.Replies.{bytes_in as bytes_of_piece, size_of};
ghost use Rattle.extent_map.specs.declared.pieces.Piece.{Piece};
ghost use Rattle.waiting_reads.specs.Stands.{AreStands, IsStand, at_pos, stand_in};
ghost use Rattle.waiting_reads.specs.declared.stands.Stand.{Stand};

use extent_map::{Piece, fill};
use std::alloc::Global;
use std::slice::from_ref;
use tape_types::{NoMemory, Place};

/// A piece of a read that stands on tape: the position of its block, its number among the pieces, and where its bytes
/// begin among those of the read.
#[derive(Clone, Copy)]
pub struct Stand {
    pos: u64,
    number: usize,
    at: usize,
}

/// The pieces that stand on tape, by the positions of their blocks, and those at one position in the order of the
/// pieces.
pub fn stands_of(alloc: Global, pieces: &[Piece]) -> Result<Vec<Stand>, NoMemory>
    requires { size_of pieces.now ≤ longest_file }
    ensures { IfOk result (λ stands. AreStands pieces.now stands.items) }
{
    let mut stands = Vec::with_capacity(alloc, pieces.len())?;
    let mut at = 0;
    for number in 0..pieces.len() {
        put_stand(&mut stands, number, at, &pieces[number])?;
        at += bytes_in(&pieces[number]);
    }
    stands.sort_by_key(|stand| stand.pos)?;
    Ok(stands)
}

/// Notes where a piece stands, unless it has no bytes on tape.
fn put_stand(
    stands: &mut Vec<Stand>,
    number: usize,
    at: usize,
    piece: &Piece,
) -> Result<(), NoMemory>
    ensures { OnOk result (stands.new.items ≡ stands.old.items ++ stand_in number at piece.now) }
{
    let Piece::Stored { place, .. } = piece else {
        return Ok(());
    };
    stands.push(Stand {
        pos: place.pos,
        number,
        at,
    })?;
    Ok(())
}

/// Puts the bytes of the block at a place, or none where no block stands there, among the bytes of the pieces. It looks
/// only at those that stand at its position. False where a byte is lost. Takes no memory.
pub fn fill_at(
    stands: &[Stand],
    pieces: &[Piece],
    bytes: &mut [u8],
    place: Place,
    block: &[u8],
) -> bool
    requires stands { AreStands pieces.now stands.now }
    requires long { length bytes.old ≡ size_of pieces.now }
    ensures filled { (tape : Tape) (read : Places) → IsBlock tape place block.now
        → IsGathered tape read pieces.now bytes.old → IsFilled tape read place pieces.now bytes.new result }
    ensures long { length bytes.new ≡ length bytes.old }
{
    for stand in run(stands, place.pos) {
        if !fill_one(*stand, pieces, bytes, place, block) {
            return false;
        }
    }
    true
}

/// The same for the piece that stands so.
fn fill_one(stand: Stand, pieces: &[Piece], bytes: &mut [u8], place: Place, block: &[u8]) -> bool
    requires stand { IsStand pieces.now stand }
    requires long { length bytes.old ≡ size_of pieces.now }
    ensures filled { (piece : Piece) (tape : Tape) (read : Places) → slice_get pieces.now stand.number ≡ Some piece
        → IsBlock tape place block.now
        → IsGatheredPiece tape read piece (take (bytes_of_piece piece) (drop stand.at bytes.old))
        → IsPutAt tape read place piece stand.at (bytes_of_piece piece) bytes.old bytes.new result }
    ensures long { length bytes.new ≡ length bytes.old }
{
    let piece = &pieces[stand.number];
    let end = stand.at + bytes_in(piece);
    fill(&mut bytes[stand.at..end], from_ref(piece), place, block)
}

/// Those that stand at a position.
fn run(stands: &[Stand], pos: u64) -> &[Stand]
    requires { IsNonDecreasingBy (λ (s : Stand). s.pos) stands.now }
    ensures { result.now ≡ at_pos pos stands.now }
{
    let behind = &stands[before(stands, pos)..];
    &behind[..up_to(behind, pos)]
}

/// How many of the first stand before a position.
fn before(stands: &[Stand], pos: u64) -> usize
    requires { IsNonDecreasingBy (λ (s : Stand). s.pos) stands.now }
    ensures bound { result ≤ length stands.now }
    ensures parts { IsPartitionPoint (λ (s : Stand). nat_lt s.pos pos ≡ true)
        (λ (s : Stand). nat_lt s.pos pos ≡ false) stands.now result }
{
    stands.partition_point(|stand| stand.pos < pos)
}

/// How many of the first stand before a position or at it.
fn up_to(stands: &[Stand], pos: u64) -> usize
    requires { IsNonDecreasingBy (λ (s : Stand). s.pos) stands.now }
    ensures bound { result ≤ length stands.now }
    ensures parts { IsPartitionPoint (λ (s : Stand). nat_le s.pos pos ≡ true)
        (λ (s : Stand). nat_le s.pos pos ≡ false) stands.now result }
{
    stands.partition_point(|stand| stand.pos <= pos)
}

/// How many bytes a piece has.
pub fn bytes_in(piece: &Piece) -> usize
    ensures { result ≡ bytes_of_piece piece.now }
{
    match piece {
        Piece::Zeros { count } => *count as usize,
        Piece::Stored { count, .. } => *count as usize,
    }
}
