// What a header says of either partition.
ghost use Rattle.std.specs.Prelude.{◌≡◌, length};
ghost use Rattle.image_tape.specs.Halves.{ended, half_of, with_half, with_note, with_serial, with_vcr};
ghost use Rattle.image_format.specs.Values.{IsSized, IsSizedHalf, IsSizedNote};
ghost use Rattle.image_tape.specs.Tape.{cut_to};

use image_format::{Half, Room, SlotValue};
use tape_types::{Note, Part};

/// What a value says of a partition.
pub(crate) fn half_of(part: Part, value: &SlotValue) -> Half
    ensures { result ≡ half_of part value.now }
{
    match part {
        Part::Ip => value.ip,
        Part::Dp => value.dp,
    }
}

/// The value that says this of a partition.
pub(crate) fn with_half(part: Part, half: Half, value: &SlotValue) -> SlotValue
    ensures { result ≡ with_half part half value.now }
{
    let SlotValue {
        serial,
        vcr,
        ip,
        dp,
    } = *value;
    match part {
        Part::Ip => SlotValue {
            serial,
            vcr,
            ip: half,
            dp,
        },
        Part::Dp => SlotValue {
            serial,
            vcr,
            ip,
            dp: half,
        },
    }
}

/// Leaves as many records of each partition as the value says.
pub(crate) fn cut_to(reads: &SlotValue, room: &mut Room)
    ensures { room.new ≡ cut_to reads.now room.old }
{
    room.cut(Part::Ip, reads.ip.count);
    room.cut(Part::Dp, reads.dp.count);
}

/// The value with this attribute of a partition.
pub(crate) fn with_note(part: Part, note: Note, value: &SlotValue) -> SlotValue
    ensures { result ≡ with_note part note value.now }
{
    let Half {
        count,
        end,
        torn,
        ..
    } = half_of(part, value);
    let half = Half {
        count,
        end,
        torn,
        note,
    };
    with_half(part, half, value)
}

/// The value that says that a partition ends behind so many records, in this place.
pub(crate) fn ended(part: Part, count: u64, end: u64, torn: bool, value: &SlotValue) -> SlotValue
    ensures { result ≡ with_half part (ended count end torn (half_of part value.now)) value.now }
{
    let Half { note, .. } = half_of(part, value);
    let half = Half {
        count,
        end,
        torn,
        note,
    };
    with_half(part, half, value)
}

/// The value with another volume change reference.
pub(crate) fn with_vcr(vcr: u64, value: &SlotValue) -> SlotValue
    ensures { result ≡ with_vcr vcr value.now }
{
    let SlotValue { serial, ip, dp, .. } = *value;
    SlotValue {
        serial,
        vcr,
        ip,
        dp,
    }
}

/// The value with another serial number.
pub(crate) fn with_serial(serial: u64, value: &SlotValue) -> SlotValue
    ensures { result ≡ with_serial serial value.now }
{
    let SlotValue { vcr, ip, dp, .. } = *value;
    SlotValue {
        serial,
        vcr,
        ip,
        dp,
    }
}

/// What a value has in its fields is of their sizes.
pub(crate) fn fields_are_sized(value: &SlotValue)
    ensures { IsSized value.now }
{
    let SlotValue {
        serial: _serial,
        vcr: _vcr,
        ip,
        dp,
    } = *value;
    half_is_sized(&ip);
    half_is_sized(&dp);
}

fn half_is_sized(half: &Half)
    ensures { IsSizedHalf half.now }
{
    let Half {
        count: _count,
        end: _end,
        torn: _torn,
        note,
    } = *half;
    note_is_sized(&note);
}

fn note_is_sized(note: &Note)
    ensures { IsSizedNote note.now }
{
    match note {
        Note::Absent => {}
        Note::Kept(bytes) => bytes_are_sized(bytes),
    }
}

fn bytes_are_sized(bytes: &[u8; 70])
    ensures { length bytes.now ≡ 70 }
{
    // An array of 70 bytes has 70.
    let _bytes = bytes;
}
