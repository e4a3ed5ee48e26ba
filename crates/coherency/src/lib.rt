//! Notes on the partitions of a cartridge: the volume coherency attribute.
#![tactic(auto)]

ghost use Rattle.std.specs.Prelude.{◌≡◌, ◌↔◌, ◌+◌, ◌≤◌, ◌++◌, length, take, drop, Some, IfSome, IsTrue};
ghost use Rattle.std.specs.Int.{w64, from_be_bytes};
ghost use Rattle.coherency.specs.declared.Coherency.{Coherency};
ghost use Rattle.coherency.specs.Notes.{IsCurrent, IsNote, note_of};
ghost use Rattle.coherency.specs.Frame.{has_frame};

use tape_types::{Note, parse_uuid, uuid_text};

/// What a note says of its partition.
#[derive(Clone, Copy, Debug, PartialEq, Eq)]
pub struct Coherency {
    /// The volume change reference of the cartridge after the partition's last index.
    pub vcr: u64,
    /// The generation of that index.
    pub generation: u64,
    /// The position of its first block.
    pub block: u64,
    /// The UUID of the volume.
    pub uuid: u128,
}

/// The note with these values (LTFS 2.4 on volume coherency information): the UUID in lower case, and
/// version 1.
pub fn encode_note(values: &Coherency) -> [u8; 70]
    ensures bytes { result ≡ note_of values.now }
    ensures decodes { IsNote result values.now }
{
    let Coherency {
        vcr,
        generation,
        block,
        uuid,
    } = *values;
    let mut note = [0; 70];
    put(&mut note, 0, &[8]);
    put(&mut note, 1, &vcr.to_be_bytes());
    put(&mut note, 9, &generation.to_be_bytes());
    put(&mut note, 17, &block.to_be_bytes());
    put(&mut note, 25, &[0, 43]);
    put(&mut note, 27, b"LTFS\0");
    put(&mut note, 32, &uuid_text(uuid));
    put(&mut note, 69, &[1]);
    note
}

/// Writes a field at its offset.
fn put(note: &mut [u8], at: usize, field: &[u8])
    requires { at + length field.now ≤ length note.old }
    ensures { note.new ≡ take at note.old ++ field.now ++ drop (at + length field.now) note.old }
{
    note[at..at + field.len()].copy_from_slice(field);
}

/// The values in a note, whose version is 0 or 1 and whose UUID may have letters in either
/// case. There are none unless every byte is in form.
pub fn decode_note(note: &[u8; 70]) -> Option<Coherency>
    ensures some { IfSome result (λ c. IsNote note.now c) }
    ensures all { (c : Coherency) → IsNote note.now c → result ≡ Some c }
{
    if !has_frame(note) {
        return None;
    }
    match parse_uuid(&note[32..68]) {
        Some(uuid) => Some(Coherency {
            vcr: number(&note[1..9]),
            generation: number(&note[9..17]),
            block: number(&note[17..25]),
            uuid,
        }),
        None => None,
    }
}

/// Whether the bytes that no value gives are in form.
fn has_frame(note: &[u8; 70]) -> bool
    ensures { result ≡ has_frame note.now }
{
    note[0] == 8
        && &note[25..27] == [0, 43].as_slice()
        && &note[27..32] == b"LTFS\0".as_slice()
        && note[68] == 0
        && note[69] <= 1
}

/// The number in eight bytes.
fn number(bytes: &[u8]) -> u64
    requires { length bytes.now ≡ 8 }
    ensures { result ≡ from_be_bytes w64 bytes.now }
{
    let mut number = [0; 8];
    number.copy_from_slice(bytes);
    u64::from_be_bytes(number)
}

/// Whether both partitions have notes that tell of the cartridge as it is: with its volume
/// change reference and the volume's UUID.
pub fn coherent(ip: &Note, dp: &Note, vcr: u64, uuid: u128) -> bool
    ensures { IsTrue result ↔ (IsCurrent ip.now vcr uuid × IsCurrent dp.now vcr uuid) }
{
    is_current(ip, vcr, uuid) && is_current(dp, vcr, uuid)
}

fn is_current(note: &Note, vcr: u64, uuid: u128) -> bool
    ensures { IsTrue result ↔ IsCurrent note.now vcr uuid }
{
    match note {
        Note::Absent => false,
        Note::Kept(bytes) => match decode_note(bytes) {
            Some(c) => c.vcr == vcr && c.uuid == uuid,
            None => false,
        },
    }
}
