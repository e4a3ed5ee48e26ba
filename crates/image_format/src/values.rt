// The value of a slot, read and written.
ghost use Rattle.std.specs.Prelude.{◌≡◌, ◌+◌, ◌≤◌, ◌++◌, length, take, drop};
ghost use Rattle.std.specs.Int.{w64, from_be_bytes};
ghost use Rattle.image_format.specs.Values.{flag, flag_in, half_bytes, half_of, note_by, note_bytes};
ghost use Rattle.image_format.specs.Values.{value_bytes, value_of};

use tape_types::Note;

/// What a slot says of a partition.
#[derive(Clone, Copy)]
pub struct Half {
    /// How many records count.
    pub count: u64,
    /// Where they end, in bytes.
    pub end: u64,
    /// What can't be read stands behind them.
    pub torn: bool,
    /// The partition's coherency attribute.
    pub note: Note,
}

/// What a slot says.
#[derive(Clone, Copy)]
pub struct SlotValue {
    pub serial: u64,
    /// The volume change reference.
    pub vcr: u64,
    pub ip: Half,
    pub dp: Half,
}

/// The bytes of a slot behind its gate. What no field takes is zero.
pub fn encode_value(value: &SlotValue) -> [u8; 255]
    ensures { result ≡ value_bytes value.now }
{
    let SlotValue {
        serial,
        vcr,
        ip,
        dp,
    } = *value;
    let mut bytes = [0; 255];
    put(&mut bytes, 0, &serial.to_be_bytes());
    put(&mut bytes, 8, &vcr.to_be_bytes());
    put(&mut bytes, 16, &encode_half(&ip));
    put(&mut bytes, 104, &encode_half(&dp));
    bytes
}

fn encode_half(half: &Half) -> [u8; 88]
    ensures { result ≡ half_bytes half.now }
{
    let Half {
        count,
        end,
        torn,
        note,
    } = *half;
    let mut bytes = [0; 88];
    put(&mut bytes, 0, &count.to_be_bytes());
    put(&mut bytes, 8, &end.to_be_bytes());
    put(&mut bytes, 16, &[flag(torn)]);
    put(&mut bytes, 17, &encode_note(&note));
    bytes
}

// A note's flag and its bytes.
fn encode_note(note: &Note) -> [u8; 71]
    ensures { result ≡ note_bytes note.now }
{
    match note {
        Note::Absent => [0; 71],
        Note::Kept(bytes) => {
            let mut field = [1; 71];
            field[1..].copy_from_slice(bytes);
            field
        }
    }
}

fn flag(is: bool) -> u8
    ensures { result ≡ flag is }
{
    if is { 1 } else { 0 }
}

// Writes a field at its offset.
fn put(bytes: &mut [u8], at: usize, field: &[u8])
    requires { at + length field.now ≤ length bytes.old }
    ensures { bytes.new ≡ take at bytes.old ++ field.now ++ drop (at + length field.now) bytes.old }
{
    bytes[at..at + field.len()].copy_from_slice(field);
}

/// What the bytes of a slot behind its gate say. There is nothing unless each flag is 00h or 01h. The bytes of a note
/// whose flag is 00h, and the last 63 bytes, are not read.
pub fn decode_value(bytes: &[u8; 255]) -> Option<SlotValue>
    ensures { result ≡ value_of bytes.now }
{
    let ip = decode_half(&bytes[16..104])?;
    let dp = decode_half(&bytes[104..192])?;
    Some(SlotValue {
        serial: number(&bytes[0..8]),
        vcr: number(&bytes[8..16]),
        ip,
        dp,
    })
}

fn decode_half(bytes: &[u8]) -> Option<Half>
    requires { length bytes.now ≡ 88 }
    ensures { result ≡ half_of bytes.now }
{
    let torn = flag_in(bytes[16])?;
    let noted = flag_in(bytes[17])?;
    Some(Half {
        count: number(&bytes[0..8]),
        end: number(&bytes[8..16]),
        torn,
        note: decode_note(noted, &bytes[18..88]),
    })
}

fn decode_note(noted: bool, bytes: &[u8]) -> Note
    requires { length bytes.now ≡ 70 }
    ensures { result ≡ note_by noted bytes.now }
{
    if !noted {
        return Note::Absent;
    }
    let mut note = [0; 70];
    note.copy_from_slice(bytes);
    Note::Kept(note)
}

fn flag_in(byte: u8) -> Option<bool>
    ensures { result ≡ flag_in byte }
{
    match byte {
        0 => Some(false),
        1 => Some(true),
        _ => None,
    }
}

fn number(bytes: &[u8]) -> u64
    requires { length bytes.now ≡ 8 }
    ensures { result ≡ from_be_bytes w64 bytes.now }
{
    let mut number = [0; 8];
    number.copy_from_slice(bytes);
    u64::from_be_bytes(number)
}
