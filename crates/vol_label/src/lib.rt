//! The VOL1 record, with which each partition of a volume begins.
#![tactic(auto)]

ghost use Rattle.std.specs.Prelude.{◌≡◌, ◌+◌, ◌<◌, ◌≤◌, ◌++◌, length, take, drop, slice_range, Ok, IfOk, IfErr};
ghost use Rattle.vol_label.specs.declared.Vol1.{Vol1};
ghost use Rattle.vol_label.specs.Table.{IsFault, IsRecord, IsVol1, is_printable, may_stand, record_of};

/// The label in a VOL1 record. Each byte is a space or a visible character of ASCII, 20h
/// to 7Eh.
#[derive(Clone, Copy, Debug, PartialEq, Eq)]
pub struct Vol1 {
    /// The volume identifier.
    pub volume: [u8; 6],
    /// The owner identifier.
    pub owner: [u8; 14],
}

/// Why bytes are no VOL1 record.
#[derive(Clone, Copy, Debug, PartialEq, Eq)]
pub enum Vol1Err {
    /// There aren't 80 bytes.
    Length,
    /// The first offset, 0 to 79, whose byte may not stand there.
    Byte(u8),
}

/// The record of a label (LTFS 2.4 on labels). Its reserved fields are spaces.
pub fn encode(label: &Vol1) -> [u8; 80]
    requires { IsVol1 label.now }
    ensures bytes { result ≡ record_of label.now }
    ensures decodes { IsRecord result label.now }
{
    let mut bytes = [b' '; 80];
    put(&mut bytes, 0, b"VOL1");
    put(&mut bytes, 4, &label.volume);
    put(&mut bytes, 10, b"L");
    put(&mut bytes, 24, b"LTFS");
    put(&mut bytes, 37, &label.owner);
    put(&mut bytes, 79, b"4");
    bytes
}

/// Writes a field at its offset.
fn put(bytes: &mut [u8], at: usize, field: &[u8])
    requires { at + length field.now ≤ length bytes.old }
    ensures { bytes.new ≡ take at bytes.old ++ field.now ++ drop (at + length field.now) bytes.old }
{
    bytes[at..at + field.len()].copy_from_slice(field);
}

/// The label in a record. The reserved fields, at 11 to 23 and at 51 to 78, are not read.
pub fn decode(bytes: &[u8]) -> Result<Vol1, Vol1Err>
    ensures ok { IfOk result (λ label. IsRecord bytes.now label) }
    ensures all { (label : Vol1) → IsRecord bytes.now label → result ≡ Ok label }
    ensures err { IfErr result (λ fault. IsFault bytes.now fault) }
{
    if bytes.len() != 80 {
        return Err(Vol1Err::Length);
    }
    for (at, byte) in bytes.iter().enumerate() {
        if !may_stand(at, *byte) {
            return Err(Vol1Err::Byte(at as u8));
        }
    }
    Ok(label_of(bytes))
}

/// The identifiers in a record.
fn label_of(bytes: &[u8]) -> Vol1
    requires { length bytes.now ≡ 80 }
    ensures volume { result.volume ≡ slice_range bytes.now 4 10 }
    ensures owner { result.owner ≡ slice_range bytes.now 37 51 }
{
    let mut label = Vol1 {
        volume: [b' '; 6],
        owner: [b' '; 14],
    };
    label.volume.copy_from_slice(&bytes[4..10]);
    label.owner.copy_from_slice(&bytes[37..51]);
    label
}

/// Whether a byte may stand at an offset of a record.
fn may_stand(at: usize, byte: u8) -> bool
    requires { at < 80 }
    ensures { result ≡ may_stand at byte }
{
    match at {
        0..=3 => byte == b"VOL1"[at],
        4..=9 | 37..=50 => is_printable(byte),
        10 => byte == b'L',
        24..=36 => byte == b"LTFS         "[at - 24],
        79 => byte == b'4',
        _ => true,
    }
}

fn is_printable(byte: u8) -> bool
    ensures { result ≡ is_printable byte }
{
    (b' '..=b'~').contains(&byte)
}
