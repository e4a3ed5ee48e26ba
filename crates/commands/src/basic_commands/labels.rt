ghost use Rattle.std.specs.Prelude.{◌≡◌, ◌++◌, codes, IfOk, OnOk, string_bytes};
ghost use Rattle.commands.specs.BasicCommands.Labels.{facts_text, label_line, labels_text, mount_status, mount_text};
ghost use Rattle.commands.specs.BasicCommands.Labels.{part_name};
ghost use Rattle.commands.specs.BasicCommands.Labels.{place_line, truth_name, volume_text};
ghost use Rattle.commands.specs.BasicCommands.Promises.{DoesLabel};
ghost use Rattle.commands.specs.BasicCommands.Runs.{written};
ghost use Rattle.commands.specs.BasicCommands.Statuses.{status_number};

use crate::basic_commands::ended::{Ended, Status};
use crate::basic_commands::telling::{bytes_of, tell_made};
use index_model::{IndexErr, refusal_text};
use ltfs_label::Label;
use mount_recover::{Labels, MountErr, read_labels};
use session_script::push_escaped;
use std::alloc::Global;
use tape_drive::Drive;
use tape_edge::Sink;
use tape_types::{Bytes, NoMemory, Part, Place, Twin, time_text, uuid_text};
use vol_label::Vol1;

/// The command `label`: reads the labels of the cartridge, and writes a line for each partition. Nothing is written to
/// the cartridge.
pub fn run_label<D: Drive, K: Sink>(alloc: Global, drive: D, out: &mut K) -> Ended<D>
    ensures { DoesLabel D.Drive drive result.drive (written K.Sink out.old out.new) result.status result.log }
{
    let mut drive = drive;
    match read_labels(alloc, &mut drive) {
        Ok(labels) => tell_made(out, labels_text(alloc, &labels), Status::Done, None, drive),
        Err(error) => tell_made(
            out,
            mount_text(alloc, error),
            mount_status(error),
            None,
            drive,
        ),
    }
}

/// A line for the label of each partition.
fn labels_text(alloc: Global, labels: &Labels) -> Result<Bytes, NoMemory>
    ensures { IfOk result (λ text. text ≡ labels_text labels.now) }
{
    let mut text = Vec::new(alloc);
    push_line(alloc, &mut text, Part::Ip, &labels.ip_record, &labels.ip)?;
    push_line(alloc, &mut text, Part::Dp, &labels.dp_record, &labels.dp)?;
    Ok(Bytes::from_vec(text))
}

fn push_line(
    alloc: Global,
    text: &mut Vec<u8>,
    part: Part,
    vol1: &Vol1,
    label: &Label,
) -> Result<(), NoMemory>
    ensures { OnOk result (text.new.items ≡ text.old.items ++ label_line part vol1.now label.now) }
{
    text.extend_from_slice(volume_words(alloc, part, vol1)?.as_bytes())?;
    text.push(label.location)?;
    text.push(b' ')?;
    text.extend_from_slice(&uuid_text(label.uuid))?;
    text.extend_from_slice(facts_words(alloc, label)?.as_bytes())?;
    text.extend_from_slice(&time_text(label.formatted))?;
    text.push(b'\n')?;
    Ok(())
}

/// The partition and the volume's identifier.
fn volume_words(alloc: Global, part: Part, vol1: &Vol1) -> Result<String, NoMemory>
    ensures { IfOk result (λ words. string_bytes words ≡ volume_text part vol1.now) }
{
    let name = part_name(part);
    let mut words = format!(in alloc; "{name} ")?;
    push_escaped(&mut words, &vol1.volume)?;
    words.push(' ')?;
    Ok(words)
}

/// The block size and whether the drive is to compress.
fn facts_words(alloc: Global, label: &Label) -> Result<String, NoMemory>
    ensures { IfOk result (λ words. string_bytes words ≡ facts_text label.now) }
{
    let block = label.block;
    let compression = truth_name(label.compression);
    Ok(format!(in alloc; " {block} {compression} ")?)
}

fn part_name(part: Part) -> &'static str
    ensures { result.now ≡ part_name part }
{
    match part {
        Part::Ip => "ip",
        Part::Dp => "dp",
    }
}

fn truth_name(truth: bool) -> &'static str
    ensures { result.now ≡ truth_name truth }
{
    if truth { "true" } else { "false" }
}

/// Why an index is none, which stands at a place.
fn bad_index_text(alloc: Global, place: Place, why: IndexErr) -> Result<Bytes, NoMemory>
    ensures { IfOk result (λ text. text ≡ mount_text (MountErr.BadIndex place why)) }
{
    let part = part_name(place.part);
    let pos = place.pos;
    let mut text = bytes_of(format!(in alloc; "volume BadIndex {part} {pos} ")?);
    text.extend(refusal_text(alloc, why)?.as_slice())?;
    text.extend(b"\n")?;
    Ok(text)
}

/// Which check of an index's place fails.
fn place_text(alloc: Global, check: &str, place: Place) -> Result<Bytes, NoMemory>
    ensures { IfOk result (λ text. text ≡ place_line check.now place) }
{
    let part = part_name(place.part);
    let pos = place.pos;
    Ok(bytes_of(format!(in alloc; "{check}{part} {pos}\n")?))
}

/// Why the labels were not read.
fn label_check_text(alloc: Global, check: &str, part: Part) -> Result<Bytes, NoMemory>
    ensures { IfOk result (λ text. text ≡ check.now ++ part_name part ++ codes "\n") }
{
    let part = part_name(part);
    Ok(bytes_of(format!(in alloc; "{check}{part}\n")?))
}

/// That the drive failed, with its counts of faults before and after.
pub fn drive_text(alloc: Global, counts: Twin) -> Result<Bytes, NoMemory>
    ensures { IfOk result (λ text. text ≡ mount_text (MountErr.Drive counts)) }
{
    let Twin { before, after } = counts;
    Ok(bytes_of(format!(in alloc; "drive {before} {after}\n")?))
}

/// Why a cartridge isn't read.
pub fn mount_text(alloc: Global, error: MountErr) -> Result<Bytes, NoMemory>
    ensures { IfOk result (λ text. text ≡ mount_text error) }
{
    match error {
        MountErr::Vol1(part) => label_check_text(alloc, "volume Vol1 ", part),
        MountErr::Label(part) => label_check_text(alloc, "volume Label ", part),
        MountErr::LabelsDiffer => Ok(bytes_of(format!(in alloc; "volume LabelsDiffer\n")?)),
        MountErr::Layout(place) => place_text(alloc, "volume Layout ", place),
        MountErr::NoIndex => Ok(bytes_of(format!(in alloc; "volume NoIndex\n")?)),
        MountErr::BadIndex(place, why) => bad_index_text(alloc, place, why),
        MountErr::WrongVolume(place) => place_text(alloc, "volume WrongVolume ", place),
        MountErr::WrongPointer(place) => place_text(alloc, "volume WrongPointer ", place),
        MountErr::BadExtent(uid) => Ok(bytes_of(format!(in alloc; "volume BadExtent {uid}\n")?)),
        MountErr::Drive(counts) => drive_text(alloc, counts),
        MountErr::NoMemory => Ok(bytes_of(format!(in alloc; "memory\n")?)),
    }
}

pub fn mount_status(error: MountErr) -> Status
    ensures { status_number result ≡ mount_status error }
{
    match error {
        MountErr::Drive(_) => Status::Drive,
        MountErr::NoMemory => Status::NoMemory,
        _ => Status::Volume,
    }
}
