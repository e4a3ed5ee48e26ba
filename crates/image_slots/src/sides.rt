//! The two slots of a header, and the value that counts.
ghost use Rattle.std.specs.Prelude.{◌≡◌, ◌+◌, ◌≤◌, ◌==◌, ℕ, List, ◌++◌, length, take, drop, IfSome, IfNone};
ghost use Rattle.std.specs.Int.{w64, to_be_bytes};
ghost use Rattle.image_slots.specs.Sides.{IsRead, gate_in, gate_of, other_of, side_by, side_in, value_at};
ghost use Rattle.image_slots.specs.Slots.{HasValue, serial_of};

/// One of the two slots of a header.
#[derive(Clone, Copy, Debug, PartialEq, Eq)]
pub enum Side {
    First,
    Second,
}

impl Side {
    /// The place of its gate; its value lies behind it.
    pub fn gate(self) -> u64
        ensures place { result ≡ gate_of self }
        ensures most { gate_of self ≤ 256 }
    {
        match self {
            Side::First => 0,
            Side::Second => 256,
        }
    }

    pub fn other(self) -> Side
        ensures { result ≡ other_of self }
    {
        match self {
            Side::First => Side::Second,
            Side::Second => Side::First,
        }
    }
}

/// What a header says: which slot counts, its value, and whether the gate of the slot beside it is open.
#[derive(Drop)]
pub struct Found {
    pub side: Side,
    pub value: [u8; 255],
    pub beside: bool,
}

/// The value that counts in a header, where one does.
pub(crate) fn found_in(header: &[u8; 512]) -> Option<Found>
    ensures some { IfSome result (λ f. IsRead f.side f.beside f.value header.now) }
    ensures none { IfNone result ((v : List ℕ) → ¬ (HasValue header.now v)) }
{
    match counting(header) {
        Some(side) => Some(Found {
            side,
            value: copied(body(header, side)),
            beside: is_open(header, side.other()),
        }),
        None => None,
    }
}

// The slot that counts.
fn counting(header: &[u8; 512]) -> Option<Side>
    ensures { result ≡ side_in header.now }
{
    later(
        is_open(header, Side::First),
        is_open(header, Side::Second),
        serial_of(body(header, Side::First)),
        serial_of(body(header, Side::Second)),
    )
}

// Of two open slots the one with the greater serial number counts, and none of two with the same.
fn later(first_open: bool, second_open: bool, first: u64, second: u64) -> Option<Side>
    ensures { result ≡ side_by first_open second_open first second }
{
    match (first_open, second_open) {
        (true, true) => {
            if first < second {
                Some(Side::Second)
            } else if second < first {
                Some(Side::First)
            } else {
                None
            }
        }
        (true, false) => Some(Side::First),
        (false, true) => Some(Side::Second),
        (false, false) => None,
    }
}

fn is_open(header: &[u8; 512], side: Side) -> bool
    ensures { result ≡ (gate_in side header.now == 1) }
{
    match side {
        Side::First => header[0] == 1,
        Side::Second => header[256] == 1,
    }
}

// The 255 bytes behind a gate.
fn body(header: &[u8; 512], side: Side) -> &[u8]
    ensures value { result.now ≡ value_at side header.now }
    ensures size { length result.now ≡ 255 }
{
    match side {
        Side::First => &header[1..256],
        Side::Second => &header[257..512],
    }
}

fn copied(bytes: &[u8]) -> [u8; 255]
    requires { length bytes.now ≡ 255 }
    ensures { result ≡ bytes.now }
{
    let mut copy = [0; 255];
    copy.copy_from_slice(bytes);
    copy
}

/// The serial number with which a value begins.
pub(crate) fn serial_of(value: &[u8]) -> u64
    requires { 8 ≤ length value.now }
    ensures { result ≡ serial_of value.now }
{
    let mut number = [0; 8];
    number.copy_from_slice(&value[..8]);
    u64::from_be_bytes(number)
}

/// A value of a serial number and the rest.
pub(crate) fn value_of(serial: u64, rest: &[u8; 247]) -> [u8; 255]
    ensures value { result ≡ to_be_bytes w64 serial ++ rest.now }
    ensures serial { serial_of result ≡ serial }
{
    let mut value = [0; 255];
    fill(&mut value, 0, &serial.to_be_bytes());
    fill(&mut value, 8, rest);
    value
}

// Writes a field at its offset.
fn fill(value: &mut [u8], at: usize, field: &[u8])
    requires { at + length field.now ≤ length value.old }
    ensures { value.new ≡ take at value.old ++ field.now ++ drop (at + length field.now) value.old }
{
    value[at..at + field.len()].copy_from_slice(field);
}
