ghost use Rattle.std.specs.Prelude.{◌≡◌, ℕ, ◌+◌, ◌^◌, ◌<◌, ◌≤◌, [], OnOk, IfOk};
ghost use Rattle.std.specs.List.{All, flat_map};
ghost use Rattle.tape_types.specs.Bounds.{longest_file};
ghost use Rattle.plain_tree.specs.Cells as plain;
ghost use Rattle.extent_map.specs.Laid.{IsLaid, overlaid, resized};
ghost use Rattle.extent_map.specs.Cells.{Tape, cells_of, file_cells};
ghost use Rattle.extent_map.specs.Pieces.{planned, read_piece, IsInOneBlock};
ghost use Rattle.extent_map.specs.Replies.{size_of};

use crate::edits::{begun_by, cut_off, ended_by, part, put};
use crate::pieces::{Piece, push_range};
use std::alloc::Global;
use std::marker::Model;
use tape_types::{Extent, List, NoMemory};

/// The extents of one file by their offsets, and the file's length. Bytes of the file that no extent has are 0.
#[derive(Drop)]
pub struct Extents {
    block_size: u32,
    length: u64,
    extents: Vec<Extent>,
}

impl Model for Extents {
    ghost use Rattle.std.specs.Prelude.{◌-◌, vec_len, vec_capacity};
    ghost use Rattle.extent_map.specs.Laid.{IsLaid, Room};

    ghost Value = { Room };

    ghost view = { λ a. record {
      laid = record {
        block_size = a.block_size;
        length = a.length;
        extents = a.extents.items;
      };
      spare = vec_capacity a.extents - vec_len a.extents;
    } };

    ghost invariant = { λ a. IsLaid (record {
      block_size = a.block_size;
      length = a.length;
      extents = a.extents.items;
    }) };
}

impl Extents {
    /// A file of no bytes on a volume whose blocks have this many. Takes no memory.
    pub fn new(alloc: Global, block_size: u32) -> Extents
        requires { 1 ≤ block_size }
        ensures { result.laid ≡ record { block_size = block_size; length = 0; extents = [] } }
    {
        Extents {
            block_size,
            length: 0,
            extents: Vec::new(alloc),
        }
    }

    /// Makes room for one overlay.
    pub fn reserve(&mut self) -> Result<(), NoMemory>
        ensures same { self.new.laid ≡ self.old.laid }
        ensures room { OnOk result (2 ≤ self.new.spare) }
    {
        Ok(self.extents.reserve(2)?)
    }

    /// Puts an extent in place of what the file has in its range, and makes the file longer where it ends past it.
    /// Needs one `reserve` before, and takes no memory.
    pub fn overlay(&mut self, new: Extent)
        requires room { 2 ≤ self.old.spare }
        requires some { 1 ≤ new.count }
        requires fits { new.offset + new.count ≤ longest_file }
        requires byte { new.byte < self.old.laid.block_size }
        requires block { new.block ≤ 2 ^ 62 }
        ensures extents { self.new.laid ≡ overlaid self.old.laid new }
        ensures laid { IsLaid self.new.laid }
        ensures bytes { (tape : Tape)
            → file_cells tape self.new.laid
            ≡ plain.written (file_cells tape self.old.laid) new.offset (cells_of tape self.old.laid.block_size new) }
    {
        put(&mut self.extents, new, self.block_size);
        self.length = self.length.max(new.offset + new.count);
    }

    /// Cuts the file, or makes it longer by bytes that are 0. Takes no memory.
    pub fn set_length(&mut self, length: u64)
        requires { length ≤ longest_file }
        ensures extents { self.new.laid ≡ resized self.old.laid length }
        ensures laid { IsLaid self.new.laid }
        ensures bytes { (tape : Tape)
            → file_cells tape self.new.laid ≡ plain.resized (file_cells tape self.old.laid) length }
    {
        cut_off(&mut self.extents, length);
        self.length = length;
    }

    /// How many bytes a block of the volume has.
    pub fn block_size(&self) -> u32
        ensures { result ≡ self.now.laid.block_size }
    {
        self.block_size
    }

    /// In bytes.
    pub fn length(&self) -> u64
        ensures { result ≡ self.now.laid.length }
    {
        self.length
    }

    /// The extents by their offsets.
    pub fn as_slice(&self) -> &[Extent]
        ensures extents { result.now ≡ self.now.laid.extents }
        ensures laid { IsLaid self.now.laid }
    {
        self.extents.as_slice()
    }

    /// What lies in a range of the file, piece by piece.
    pub fn plan(&self, alloc: Global, offset: u64, count: u64) -> Result<List<Piece>, NoMemory>
        requires { offset + count ≤ self.now.laid.length }
        ensures pieces { IfOk result (λ pieces. pieces ≡ planned self.now.laid offset count) }
        ensures size { IfOk result (λ pieces. size_of pieces ≡ count) }
        ensures blocks { IfOk result (All (IsInOneBlock self.now.laid.block_size)) }
        ensures bytes { IfOk result (λ pieces. (tape : Tape)
            → flat_map (read_piece tape) pieces ≡ plain.range_of (file_cells tape self.now.laid) offset count) }
    {
        let first = ended_by(&self.extents, offset);
        let end = offset + count;
        let last = begun_by(&self.extents, end);
        let extents = part(&self.extents, first, last);
        let mut pieces = Vec::new(alloc);
        push_range(&mut pieces, extents, offset, end, self.block_size)?;
        Ok(List::from_vec(pieces))
    }
}
