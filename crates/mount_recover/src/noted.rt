//! The index for which a cartridge stands, by its notes.

ghost use Rattle.std.specs.Prelude.{◌≡◌, ◌≢◌, ◌≤◌, ◌↔◌, ◌+◌, Some, IfNone, IfOk, IfSome, IsTrue, MatchOption};
ghost use Rattle.tape_types.specs.declared.cartridges.Cartridge.{Cartridge};
ghost use Rattle.tape_types.specs.declared.cartridges.Limits.{Limits as LimitsOf};
ghost use Rattle.tape_types.specs.declared.cartridges.Part.TheVariants.{Ip, Dp};
ghost use Rattle.index_model.specs.declared.indexes.Index.{Index as IndexOf};
ghost use Rattle.content_laws.specs.Ends.{EndsWithLast};
ghost use Rattle.cartridge_meaning.specs.Labels.{HasLabels};
ghost use Rattle.cartridge_meaning.specs.Meaning.{Found};
ghost use Rattle.cartridge_meaning.specs.Notes.{HasHonestNotes};
ghost use Rattle.cartridge_meaning.specs.Pointers.{indexes_of, letter_of};
ghost use Rattle.mount_recover.specs.Known.{IsKnownByNotes, blocks_of_newest, last_blocks};
ghost use Rattle.mount_recover.specs.Labels.{AreLabels};
ghost use Rattle.mount_recover.specs.Lasts.{AreLasts, IsLastDp, IsSoundChoice, dp_in};
ghost use Rattle.mount_recover.specs.Noted.{AreNotes, AreNotedLasts, AreTold, CanBegin, EndWithLasts, EndsAt};
ghost use Rattle.mount_recover.specs.Noted.{Follows, IsAsNoted, IsChosenByNotes, IsNotedRead, IsNotedText};
ghost use Rattle.mount_recover.specs.Noted.{IsOfNote, IsTold};
ghost use Rattle.mount_recover.specs.Noted.{lacks_memory};
ghost use Rattle.mount_recover.specs.declared.lasts.LastIndex.{LastIndex as LastOf};
ghost use Rattle.mount_recover.specs.declared.lasts.Lasts.{Lasts as LastsOf};
ghost use Rattle.mount_recover.specs.declared.lasts.Lasts.TheVariants as lasts;
ghost use Rattle.mount_recover.specs.declared.notes.Named.{Named as NamedOf};
ghost use Rattle.mount_recover.specs.Steps.{IsFree, IsSince, IsStepBy};

use crate::choices::{Choice, decide, ends_noted};
use crate::endings::read_ending;
use crate::lasts::{LastIndex, Lasts, TwinIndex};
use crate::notes::{Named, Notes, what_is_named};
use crate::starts::Start;
use cartridge_meaning::{Labels, MountErr};
use coherency::Coherency;
use index_model::{Index, IndexErr, Spot};
use index_read::{read_index, repoint};
use ltfs_label::Label;
use std::alloc::Global;
use tape_drive::Drive;
use tape_types::{NoMemory, Part};
use volume_scan::Construct;

/// The chosen index of a cartridge with these labels and these notes, where its notes tell it. There is none where they
/// aren't coherent, or anything else is read than they say.
pub fn choose_by_notes<D: Drive>(
    alloc: Global,
    drive: &mut D,
    start: Start,
    labels: &Labels,
    notes: &Notes,
) -> Result<Option<Choice>, MountErr>
    requires since { IsSince D.Drive start drive.old }
    requires sound { AreLabels labels.now }
    requires honest { IfSome (D.held drive.old) HasHonestNotes }
    requires known { IfSome (D.held drive.old) (λ c. HasLabels c labels.now × AreNotes notes.now c) }
    ensures { IsStepBy D.Drive start (start.limits.cap_dp + start.limits.cap_ip) (λ c n. n ≤ 8 + last_blocks c)
        drive.old drive.new
        (λ found c. MatchOption found (¬ IsKnownByNotes c) (λ choice. IsChosenByNotes labels.now choice c))
        (λ found. IfSome found (IsSoundChoice labels.now.ip start.limits)) IsFree result }
{
    match what_is_named(notes, labels.ip.uuid, start.limits) {
        Some(named) => choose_named(alloc, drive, start, labels, named),
        None => Ok(None),
    }
}

/// The chosen index, where both notes are coherent and name places at which an index may begin.
fn choose_named<D: Drive>(
    alloc: Global,
    drive: &mut D,
    start: Start,
    labels: &Labels,
    named: Named,
) -> Result<Option<Choice>, MountErr>
    requires since { IsSince D.Drive start drive.old }
    requires sound { AreLabels labels.now }
    requires ip { CanBegin start.limits.cap_ip named.ip.block }
    requires dp { CanBegin start.limits.cap_dp named.dp.block }
    requires known { IfSome (D.held drive.old) (AreTold labels.now named) }
    ensures { IsStepBy D.Drive start (start.limits.cap_dp + start.limits.cap_ip) (λ c n. n ≤ 8 + last_blocks c)
        drive.old drive.new
        (λ found c. MatchOption found (¬ IsKnownByNotes c) (λ choice. IsChosenByNotes labels.now choice c))
        (λ found. IfSome found (IsSoundChoice labels.now.ip start.limits)) IsFree result }
{
    match read_noted(alloc, drive, start, labels, named) {
        Ok(Some(lasts)) => Ok(decide_noted(labels, lasts)),
        Ok(None) => Ok(None),
        Err(fault) => Err(fault),
    }
}

/// The last indexes, where the notes name them and the partitions end with them. The second document takes the memory
/// of the first one.
fn read_noted<D: Drive>(
    alloc: Global,
    drive: &mut D,
    start: Start,
    labels: &Labels,
    named: Named,
) -> Result<Option<Lasts>, MountErr>
    requires since { IsSince D.Drive start drive.old }
    requires sound { AreLabels labels.now }
    requires ip { CanBegin start.limits.cap_ip named.ip.block }
    requires dp { CanBegin start.limits.cap_dp named.dp.block }
    requires known { IfSome (D.held drive.old) (AreTold labels.now named) }
    ensures { IsStepBy D.Drive start (start.limits.cap_dp + start.limits.cap_ip) (λ c n. n ≤ 8 + last_blocks c)
        drive.old drive.new (λ found c. MatchOption found (¬ IsKnownByNotes c)
        (λ lasts. AreLasts labels.now.ip lasts c × EndWithLasts c))
        (λ found. IfSome found (AreNotedLasts labels.now.ip named start.limits)) IsFree result }
{
    let mut document = Vec::new(alloc);
    match noted_on_dp(alloc, drive, start, labels, named.dp, &mut document) {
        Ok(Some(dp)) => noted_on_ip(alloc, drive, start, labels, named, dp, &mut document),
        Ok(None) => Ok(None),
        Err(fault) => Err(fault),
    }
}

/// The last index of the data partition, where its note names it and the partition ends with it.
fn noted_on_dp<D: Drive>(
    alloc: Global,
    drive: &mut D,
    start: Start,
    labels: &Labels,
    note: Coherency,
    document: &mut Vec<u8>,
) -> Result<Option<LastIndex>, MountErr>
    requires since { IsSince D.Drive start drive.old }
    requires begins { CanBegin start.limits.cap_dp note.block }
    requires known { IfSome (D.held drive.old) (IsTold labels.now.ip Dp note) }
    ensures { IsStepBy D.Drive start start.limits.cap_dp (λ c n. n ≤ 4 + blocks_of_newest (indexes_of c.dp))
        drive.old drive.new (λ found c. MatchOption found (¬ EndsWithLast c.dp (indexes_of c.dp))
        (λ last. IsLastDp labels.now.ip (Some last) c × EndsWithLast c.dp (indexes_of c.dp)))
        (λ found. IfSome found (IsNotedRead labels.now.ip Dp note start.limits.cap_dp document.new.items))
        IsFree result }
{
    match read_ending(alloc, drive, start, Part::Dp, note.block - 1, document) {
        Ok(Some(e)) => {
            match noted_text(
                alloc,
                &labels.ip,
                labels.ip.dpart,
                note,
                e.place,
                document.as_slice(),
            ) {
                Ok(last) => Ok(last),
                Err(NoMemory) => Err(MountErr::NoMemory),
            }
        }
        Ok(None) => Ok(None),
        Err(fault) => Err(fault),
    }
}

/// The last indexes, where that of the data partition is this one, the note of the index partition names its last one,
/// and that partition ends with it. Mostly it is the other one but for its pointers. The document of the data
/// partition's stands there.
fn noted_on_ip<D: Drive>(
    alloc: Global,
    drive: &mut D,
    start: Start,
    labels: &Labels,
    named: Named,
    dp: LastIndex,
    document: &mut Vec<u8>,
) -> Result<Option<Lasts>, MountErr>
    requires since { IsSince D.Drive start drive.old }
    requires sound { AreLabels labels.now }
    requires begins { CanBegin start.limits.cap_ip named.ip.block }
    requires noted { IsNotedRead labels.now.ip Dp named.dp start.limits.cap_dp document.old.items dp }
    requires known { IfSome (D.held drive.old) (λ c. AreTold labels.now named c × IsLastDp labels.now.ip (Some dp) c
        × EndsWithLast c.dp (indexes_of c.dp)) }
    ensures { IsStepBy D.Drive start start.limits.cap_ip (λ c n. n ≤ 4 + blocks_of_newest (indexes_of c.ip))
        drive.old drive.new (λ found c. MatchOption found (¬ IsKnownByNotes c)
        (λ lasts. AreLasts labels.now.ip lasts c × EndWithLasts c))
        (λ found. IfSome found (AreNotedLasts labels.now.ip named start.limits)) IsFree result }
{
    let here = Spot {
        letter: labels.ip.index,
        block: named.ip.block,
    };
    let back = Spot {
        letter: labels.ip.dpart,
        block: dp.place.first,
    };
    let likely = repoint(alloc, &dp.index, document, here, back);
    match read_ending(alloc, drive, start, Part::Ip, named.ip.block - 1, document) {
        Ok(Some(e)) => {
            if likely && e.same {
                let place = e.place;
                Ok(alike(named.ip, TwinIndex { place, here, back }, dp))
            } else {
                match told_by_note(
                    alloc,
                    &labels.ip,
                    named.ip,
                    e.place,
                    dp,
                    document.as_slice(),
                ) {
                    Ok(lasts) => Ok(lasts),
                    Err(NoMemory) => Err(MountErr::NoMemory),
                }
            }
        }
        Ok(None) => Ok(None),
        Err(fault) => Err(fault),
    }
}

/// The last indexes, where that of the index partition is the other one but for its pointers, and the note has its
/// generation.
fn alike(note: Coherency, ip: TwinIndex, dp: LastIndex) -> Option<Lasts>
    ensures some { IfSome result (λ l. (l ≡ lasts.Alike ip dp) × (dp.index.generation ≡ note.generation)) }
    ensures none { IfNone result (dp.index.generation ≢ note.generation) }
{
    if dp.index.generation == note.generation {
        Some(Lasts::Alike { ip, dp })
    } else {
        None
    }
}

/// The last indexes, where this is the document of that of the index partition, and it is as its note says.
fn told_by_note(
    alloc: Global,
    label: &Label,
    note: Coherency,
    place: Construct,
    dp: LastIndex,
    document: &[u8],
) -> Result<Option<Lasts>, NoMemory>
    ensures some { IfOk result (λ found. IfSome found (λ l. (ip : LastOf) × (l ≡ lasts.OnBoth ip dp)
        × (ip.place ≡ place) × IsNotedText document.now label.now label.now.index note place ip.index
        × Follows label.now ip.index dp)) }
    ensures all { IfOk result (λ found. (index : IndexOf)
        → IsNotedText document.now label.now label.now.index note place index → Follows label.now index dp
        → (l : LastsOf) × (found ≡ Some l)) }
{
    match noted_text(alloc, label, label.index, note, place, document) {
        Ok(Some(ip)) => {
            if follows(label, &ip.index, &dp) {
                Ok(Some(Lasts::OnBoth { ip, dp }))
            } else {
                Ok(None)
            }
        }
        Ok(None) => Ok(None),
        Err(NoMemory) => Err(NoMemory),
    }
}

/// Whether an index is no older than the last one of the data partition, and points back to it.
fn follows(label: &Label, index: &Index, dp: &LastIndex) -> bool
    ensures { IsTrue result ↔ Follows label.now index.now dp.now }
{
    let back = Spot {
        letter: label.dpart,
        block: dp.place.first,
    };
    dp.index.generation <= index.generation && index.back == Some(back)
}

/// The index of the volume with this label that a document is, which stands there, on the partition with this letter,
/// where it is as a note says.
fn noted_text(
    alloc: Global,
    label: &Label,
    letter: u8,
    note: Coherency,
    place: Construct,
    document: &[u8],
) -> Result<Option<LastIndex>, NoMemory>
    ensures some { IfOk result (λ found. IfSome found (λ l. (l.place ≡ place)
        × IsNotedText document.now label.now letter note place l.index)) }
    ensures all { IfOk result (λ found. (index : IndexOf) → IsNotedText document.now label.now letter note place index
        → (l : LastOf) × (found ≡ Some l)) }
{
    match read_index(alloc, document) {
        Ok(index) => {
            if is_of_note(label, letter, note, place, &index) {
                Ok(Some(LastIndex { index, place }))
            } else {
                Ok(None)
            }
        }
        Err(fault) => {
            if lacks_memory(fault) {
                Err(NoMemory)
            } else {
                Ok(None)
            }
        }
    }
}

/// Whether an index is of the volume with this label, and as a note says.
fn is_of_note(label: &Label, letter: u8, note: Coherency, place: Construct, index: &Index) -> bool
    ensures { IsTrue result ↔ IsOfNote label.now letter note place index.now }
{
    index.uuid == label.uuid && is_as_noted(letter, note, place, index)
}

/// Whether an index points to its place, and has the generation of a note.
fn is_as_noted(letter: u8, note: Coherency, place: Construct, index: &Index) -> bool
    ensures { IsTrue result ↔ IsAsNoted letter note place index.now }
{
    let here = Spot {
        letter,
        block: place.first,
    };
    index.here == here && index.generation == note.generation
}

fn lacks_memory(fault: IndexErr) -> bool
    ensures { result ≡ lacks_memory fault }
{
    match fault {
        IndexErr::NoMemory => true,
        _ => false,
    }
}

/// The choice between these last indexes, with which the partitions end; none where an extent of the chosen one lies
/// elsewhere than before them.
fn decide_noted(labels: &Labels, lasts: Lasts) -> Option<Choice>
    ensures found { IfSome result (λ choice. (c : Cartridge) (n : NamedOf) (limits : LimitsOf) → AreTold labels.now n c
        → AreLasts labels.now.ip lasts c → EndWithLasts c → AreNotedLasts labels.now.ip n limits lasts
        → IsChosenByNotes labels.now choice c) }
    ensures none { IfNone result ((c : Cartridge) (n : NamedOf) (limits : LimitsOf) → AreTold labels.now n c
        → AreLasts labels.now.ip lasts c → EndWithLasts c → AreNotedLasts labels.now.ip n limits lasts
        → ¬ Found c) }
    ensures any { IfSome result (λ choice. (n : NamedOf) (limits : LimitsOf)
        → AreNotedLasts labels.now.ip n limits lasts → IsSoundChoice labels.now.ip limits choice) }
{
    let Some(ends) = ends_noted(&lasts) else {
        return None;
    };
    match decide(labels, ends, lasts) {
        Ok(choice) => Some(choice),
        Err(_) => None,
    }
}
