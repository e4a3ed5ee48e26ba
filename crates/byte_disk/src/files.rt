// The files of a disk in memory.
ghost use Rattle.std.specs.Prelude.{◌≡◌, ◌≤◌, ◌<◌, ◌+◌, ◌^◌, length, take, drop, All, IfOk, OnOk, OnErr};
ghost use Rattle.byte_disk.specs.Files.{bytes_of, bytes_at, with_bytes, written, AreBytes};
ghost use Rattle.byte_disk.specs.Record.{change_of};

use crate::disk::File;
use crate::record::Change;
use std::alloc::Global;
use std::marker::Model;
use tape_types::{Bytes, NoMemory};

/// Three files of bytes.
#[derive(Drop)]
pub(crate) struct FileBytes {
    ip: Vec<u8>,
    dp: Vec<u8>,
    cm: Vec<u8>,
}

impl Model for FileBytes {
    ghost use Rattle.byte_disk.specs.Files.{Files};

    ghost Value = { Files };

    ghost view = { λ m. record { ip = m.ip.items; dp = m.dp.items; cm = m.cm.items } };
}

impl FileBytes {
    pub fn new(ip: Bytes, dp: Bytes, cm: Bytes) -> FileBytes
        ensures value { result ≡ record { ip = ip; dp = dp; cm = cm } }
        ensures ip { AreBytes ip }
        ensures dp { AreBytes dp }
        ensures cm { AreBytes cm }
    {
        are_bytes(ip.as_slice());
        are_bytes(dp.as_slice());
        are_bytes(cm.as_slice());
        FileBytes {
            ip: ip.into_vec(),
            dp: dp.into_vec(),
            cm: cm.into_vec(),
        }
    }

    pub fn bytes(&self, file: File) -> &[u8]
        ensures { result.now ≡ bytes_of file self.now }
    {
        match file {
            File::Ip => self.ip.as_slice(),
            File::Dp => self.dp.as_slice(),
            File::Cm => self.cm.as_slice(),
        }
    }

    /// Puts bytes into a file from a place on. Answers what leads back; without memory all stays.
    pub fn put(
        &mut self,
        alloc: Global,
        file: File,
        at: u64,
        count: u64,
        bytes: &[u8],
    ) -> Result<Change, NoMemory>
        requires within { at ≤ length (bytes_of file self.old) }
        requires end { at + length bytes.now < 2 ^ 62 }
        ensures change { IfOk result (λ w. w ≡ change_of at count bytes.now (bytes_of file self.old)) }
        ensures ok { OnOk result (self.new ≡ with_bytes file (written at bytes.now (bytes_of file self.old)) self.old) }
        ensures err { OnErr result (self.new ≡ self.old) }
    {
        match file {
            File::Ip => put_in(alloc, &mut self.ip, at, count, bytes),
            File::Dp => put_in(alloc, &mut self.dp, at, count, bytes),
            File::Cm => put_in(alloc, &mut self.cm, at, count, bytes),
        }
    }
}

// Shows that each of the numbers in a slice of bytes is one of a byte.
pub(crate) fn are_bytes(bytes: &[u8])
    ensures { AreBytes bytes.now }
{
    for byte in bytes {
        // It is below 256.
        let _byte = *byte;
    }
}

fn put_in(
    alloc: Global,
    old: &mut Vec<u8>,
    at: u64,
    count: u64,
    bytes: &[u8],
) -> Result<Change, NoMemory>
    requires within { at ≤ length old.old.items }
    requires end { at + length bytes.now < 2 ^ 62 }
    ensures change { IfOk result (λ w. w ≡ change_of at count bytes.now old.old.items) }
    ensures ok { OnOk result (old.new.items ≡ written at bytes.now old.old.items) }
    ensures err { OnErr result (old.new.items ≡ old.old.items) }
{
    let old_len = old.len() as u64;
    let gone = overwrite(alloc, old, at as usize, bytes)?;
    Ok(Change {
        at,
        count,
        old_len,
        gone,
    })
}

// Puts bytes over others from a place on, or behind the last one. Answers those that they took the place of.
fn overwrite(alloc: Global, old: &mut Vec<u8>, at: usize, bytes: &[u8]) -> Result<Bytes, NoMemory>
    requires within { at ≤ length old.old.items }
    requires end { at + length bytes.now < 2 ^ 62 }
    ensures gone { IfOk result (λ gone. gone ≡ bytes_at at (length bytes.now) old.old.items) }
    ensures ok { OnOk result (old.new.items ≡ written at bytes.now old.old.items) }
    ensures err { OnErr result (old.new.items ≡ old.old.items) }
{
    let covered = bytes.len().min(old.len() - at);
    let gone = Vec::from_slice(alloc, &old[at..at + covered])?;
    old.extend_from_slice(&bytes[covered..])?;
    old[at..at + covered].copy_from_slice(&bytes[..covered]);
    Ok(Bytes::from_vec(gone))
}
