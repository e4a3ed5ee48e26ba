// The pieces of the three files of a disk.
ghost use Rattle.std.specs.Prelude.{◌≡◌, ◌≤◌, ◌<◌, ◌+◌, ◌^◌, [], Some, length, IfOk, IfSome, OnOk};
ghost use Rattle.byte_disk.specs.declared.disk.File.{File};
ghost use Rattle.byte_disk.specs.Files.{Files, bytes_at, bytes_of};
ghost use Rattle.disk_layers.specs.Ahead.{AreRight, IsForgotten, Looks, span_of};

use crate::piece::Piece;
use byte_disk::{ByteDisk, DiskFault, File};
use std::alloc::Global;
use std::marker::Model;
use tape_types::NoMemory;

/// Of each file one piece.
#[derive(Drop)]
pub(crate) struct Pieces {
    ip: Piece,
    dp: Piece,
    cm: Piece,
}

impl Model for Pieces {
    ghost use Rattle.disk_layers.specs.Ahead.{Spans};

    ghost Value = { Spans };

    ghost view = { λ p. record { ip = p.ip; dp = p.dp; cm = p.cm } };
}

impl Pieces {
    /// No bytes, and room for pieces.
    pub fn new(alloc: Global) -> Result<Pieces, NoMemory>
        ensures { IfOk result (λ p. (file : File) → (span_of file p).bytes ≡ []) }
    {
        Ok(Pieces {
            ip: Piece::new(alloc)?,
            dp: Piece::new(alloc)?,
            cm: Piece::new(alloc)?,
        })
    }

    /// Fills the buffer with the bytes of a file from a place on.
    pub fn read<B: ByteDisk>(
        &mut self,
        disk: &mut B,
        file: File,
        at: u64,
        buf: &mut [u8],
    ) -> Result<(), DiskFault>
        requires within { IfSome (B.held disk.old) (λ d. at + length buf.old ≤ length (bytes_of file d)) }
        requires right { AreRight B.ByteDisk disk.old self.old }
        ensures size { length buf.new ≡ length buf.old }
        ensures value { (d : Files) → B.held disk.old ≡ Some d
            → OnOk result (buf.new ≡ bytes_at at (length buf.old) (bytes_of file d)) }
        ensures right { AreRight B.ByteDisk disk.new self.new }
        ensures looks { Looks B.ByteDisk result disk.old disk.new }
    {
        match file {
            File::Ip => self.ip.read(disk, file, at, buf),
            File::Dp => self.dp.read(disk, file, at, buf),
            File::Cm => self.cm.read(disk, file, at, buf),
        }
    }

    /// Forgets the piece of a file, where some of it lies in a range.
    pub fn forget(&mut self, file: File, at: u64, count: usize)
        requires { at + count < 2 ^ 62 }
        ensures { IsForgotten file at count self.old self.new }
    {
        match file {
            File::Ip => self.ip.forget(at, count),
            File::Dp => self.dp.forget(at, count),
            File::Cm => self.cm.forget(at, count),
        }
    }
}
