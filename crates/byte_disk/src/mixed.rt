// Bytes by a seed.
ghost use Rattle.std.specs.Prelude.{◌≡◌, ◌≤◌, ◌<◌, ◌^◌, IfOk, get_or};
ghost use Rattle.byte_disk.specs.Mixed.{seed_of, stir, drawn, mixed_byte, mixed_bytes};

use crate::disk::File;
use std::alloc::Global;
use tape_types::NoMemory;

// The number after this one in a row of numbers by chance.
pub(crate) fn stirred(state: u64) -> u64
    ensures { result ≡ stir state }
{
    state
        .wrapping_mul(6_364_136_223_846_793_005)
        .wrapping_add(1_442_695_040_888_963_407)
}

// The number from which a file's row begins.
pub(crate) fn seed_of(file: File, seed: u64) -> u64
    ensures { result ≡ seed_of file seed }
{
    match file {
        File::Ip => seed,
        File::Dp => stirred(stirred(seed)),
        File::Cm => stirred(stirred(stirred(stirred(seed)))),
    }
}

// A number below another one, from one of such a row.
pub(crate) fn drawn(state: u64, below: u64) -> u64
    requires { 1 ≤ below }
    ensures value { result ≡ drawn state below }
    ensures below { result < below }
{
    (state >> 33) % below
}

// So many bytes: each is the one that reads, the one from before, or any.
pub(crate) fn mix(
    alloc: Global,
    seed: u64,
    size: u64,
    held: &[u8],
    old: &[u8],
) -> Result<Vec<u8>, NoMemory>
    ensures { IfOk result (λ v. v.items ≡ mixed_bytes seed 0 size held.now old.now) }
{
    let mut bytes = Vec::new(alloc);
    let mut state = seed;
    for place in 0..size {
        state = stirred(state);
        bytes.push(mixed_byte(state, place, held, old))?;
    }
    Ok(bytes)
}

fn mixed_byte(state: u64, place: u64, held: &[u8], old: &[u8]) -> u8
    ensures { result ≡ mixed_byte state place held.now old.now }
{
    let any = drawn(state, 256) as u8;
    match drawn(state, 3) {
        0 => byte_at(held, place, any),
        1 => byte_at(old, place, any),
        _ => any,
    }
}

fn byte_at(bytes: &[u8], place: u64, any: u8) -> u8
    ensures { result ≡ get_or bytes.now place any }
{
    if place < bytes.len() as u64 {
        return bytes[place as usize];
    }
    any
}
