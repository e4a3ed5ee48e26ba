// A piece of a file in memory, and the heads that lie in it.
ghost use Rattle.std.specs.Prelude.{◌≡◌, ◌≤◌, ◌+◌, ◌-◌, ◌^◌, ◌/◌, min, length, take, Some, IfSome, IfOk, OnOk, OnErr};
ghost use Rattle.tape_types.specs.Counts.{Rose};
ghost use Rattle.byte_disk.specs.Files.{Files, bytes_at, bytes_of};
ghost use Rattle.image_slots.specs.State.{file_of};
ghost use Rattle.image_format.specs.Looks.{Looks};
ghost use Rattle.image_format.specs.Records.{head_of, size_of};
ghost use Rattle.image_format.specs.Walks.{HasHeadAt, IsPiece, Shows, width_at, width_within};

use crate::heads::{Head, decode_head};
use byte_disk::{ByteDisk, DiskFault};
use image_slots::Slots;
use std::alloc::Global;
use tape_types::{NoMemory, Part};

/// How many bytes are read at once.
const PIECE: usize = 65_536;

/// Bytes of a file from a place on.
#[derive(Drop)]
pub(crate) struct Window {
    pub from: u64,
    /// How many of the bytes are the file's.
    pub filled: u64,
    pub bytes: Vec<u8>,
}

/// A piece in which nothing lies.
pub(crate) fn empty_window(alloc: Global) -> Result<Window, NoMemory>
    ensures { IfOk result (λ w. length w.bytes.items ≡ 65536) }
{
    Ok(Window {
        from: 0,
        filled: 0,
        bytes: zeros(alloc, PIECE)?,
    })
}

fn zeros(alloc: Global, count: usize) -> Result<Vec<u8>, NoMemory>
    ensures { IfOk result (λ bytes. length bytes.items ≡ count) }
{
    Ok(vec![in alloc; 0u8; count]?)
}

/// Reads a piece from a place on, up to an end.
pub(crate) fn fill<B: ByteDisk>(
    window: &mut Window,
    slots: &mut Slots<B>,
    part: Part,
    from: u64,
    end: u64,
) -> Result<(), DiskFault>
    requires size { length window.old.bytes.items ≡ 65536 }
    requires from { from ≤ end }
    requires within { (d : Files) → B.held slots.old.disk ≡ Some d → end ≤ length (bytes_of (file_of part) d) }
    ensures piece { IsPiece end window.new }
    ensures from { window.new.from ≡ from }
    ensures shows { (d : Files) → B.held slots.old.disk ≡ Some d
        → OnOk result (Shows (bytes_of (file_of part) d) window.new) }
    ensures looks { Looks B.ByteDisk 1 slots.old slots.new }
    ensures cause { OnErr result (Rose (B.faults slots.old.disk) (B.faults slots.new.disk)) }
{
    let filled = (end - from).min(PIECE as u64);
    window.from = from;
    window.filled = filled;
    read_front(slots, part, from, &mut window.bytes, filled as usize)
}

// Reads the first bytes of a buffer.
fn read_front<B: ByteDisk>(
    slots: &mut Slots<B>,
    part: Part,
    at: u64,
    bytes: &mut [u8],
    count: usize,
) -> Result<(), DiskFault>
    requires count { count ≤ length bytes.old }
    requires within { (d : Files) → B.held slots.old.disk ≡ Some d → at + count ≤ length (bytes_of (file_of part) d) }
    ensures size { length bytes.new ≡ length bytes.old }
    ensures value { (d : Files) → B.held slots.old.disk ≡ Some d
        → OnOk result (take count bytes.new ≡ bytes_at at count (bytes_of (file_of part) d)) }
    ensures looks { Looks B.ByteDisk 1 slots.old slots.new }
    ensures cause { OnErr result (Rose (B.faults slots.old.disk) (B.faults slots.new.disk)) }
{
    slots.read(part, at, &mut bytes[..count])
}

/// How many bytes the record has that stands at a place, where a whole one stands there up to an end.
pub(crate) fn width_at<B: ByteDisk>(
    window: &mut Window,
    slots: &mut Slots<B>,
    part: Part,
    at: u64,
    end: u64,
) -> Result<Option<u64>, DiskFault>
    requires piece { IsPiece end window.old }
    requires low { window.old.from ≤ at }
    requires high { at ≤ end }
    requires commands { B.commands slots.old.disk ≤ 2 ^ 64 - 1 }
    requires within { (d : Files) → B.held slots.old.disk ≡ Some d → end ≤ length (bytes_of (file_of part) d) }
    requires shows { (d : Files) → B.held slots.old.disk ≡ Some d → Shows (bytes_of (file_of part) d) window.old }
    ensures piece { IsPiece end window.new }
    ensures low { window.new.from ≤ at }
    ensures further { window.old.from ≤ window.new.from }
    ensures shows { (d : Files) → B.held slots.old.disk ≡ Some d
        → OnOk result (Shows (bytes_of (file_of part) d) window.new) }
    ensures told { (d : Files) → B.held slots.old.disk ≡ Some d
        → IfOk result (λ w. w ≡ width_at at end (bytes_of (file_of part) d)) }
    ensures within { IfOk result (λ w. IfSome w (λ n. at + n ≤ end)) }
    ensures looks { Looks B.ByteDisk (min 1 (window.new.from / 65532 - window.old.from / 65532)) slots.old slots.new }
    ensures cause { OnErr result (Rose (B.faults slots.old.disk) (B.faults slots.new.disk)) }
{
    if end - at < 5 {
        return Ok(None);
    }
    match bring(window, slots, part, at, end) {
        Ok(()) => Ok(width_within(at, end, head_in(window, at))),
        Err(fault) => Err(fault),
    }
}

// Has the five bytes at a place lie in the piece.
fn bring<B: ByteDisk>(
    window: &mut Window,
    slots: &mut Slots<B>,
    part: Part,
    at: u64,
    end: u64,
) -> Result<(), DiskFault>
    requires piece { IsPiece end window.old }
    requires low { window.old.from ≤ at }
    requires high { at + 5 ≤ end }
    requires commands { B.commands slots.old.disk ≤ 2 ^ 64 - 1 }
    requires within { (d : Files) → B.held slots.old.disk ≡ Some d → end ≤ length (bytes_of (file_of part) d) }
    requires shows { (d : Files) → B.held slots.old.disk ≡ Some d → Shows (bytes_of (file_of part) d) window.old }
    ensures piece { IsPiece end window.new }
    ensures head { HasHeadAt at window.new }
    ensures further { window.old.from ≤ window.new.from }
    ensures shows { (d : Files) → B.held slots.old.disk ≡ Some d
        → OnOk result (Shows (bytes_of (file_of part) d) window.new) }
    ensures looks { Looks B.ByteDisk (min 1 (window.new.from / 65532 - window.old.from / 65532)) slots.old slots.new }
    ensures cause { OnErr result (Rose (B.faults slots.old.disk) (B.faults slots.new.disk)) }
{
    if at + 5 <= window.from + window.filled {
        return Ok(());
    }
    fill(window, slots, part, at, end)
}

// The head at a place that lies in the piece.
fn head_in(window: &Window, at: u64) -> Option<Head>
    requires head { HasHeadAt at window.now }
    requires filled { window.now.filled ≤ length window.now.bytes.items }
    ensures { result ≡ head_of (bytes_at (at - window.now.from) 5 window.now.bytes.items) }
{
    let from = (at - window.from) as usize;
    let mut head = [0; 5];
    head.copy_from_slice(&window.bytes[from..from + 5]);
    decode_head(&head)
}

// How many bytes the record of a head has that stands at a place, where it ends by an end.
fn width_within(at: u64, end: u64, head: Option<Head>) -> Option<u64>
    requires { at ≤ end }
    ensures value { result ≡ width_within (end - at) head }
    ensures within { IfSome result (λ n. at + n ≤ end) }
{
    let width = 5 + u64::from(head?.size());
    if width <= end - at {
        return Some(width);
    }
    None
}
