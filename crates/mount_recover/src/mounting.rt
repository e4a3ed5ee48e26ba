//! Mounting a cartridge.

ghost use Rattle.std.specs.Prelude.{◌≡◌, ◌≤◌, ◌+◌, ◌*◌, ◌↔◌, true, Some, IfOk, IfErr, IfSome, IsTrue};
ghost use Rattle.tape_drive.specs.Looks.{Looks};
ghost use Rattle.tape_types.specs.declared.cartridges.Cartridge.{Cartridge};
ghost use Rattle.cartridge_meaning.specs.Labels.{HasLabels};
ghost use Rattle.cartridge_meaning.specs.Meaning.{Found};
ghost use Rattle.cartridge_meaning.specs.Mounts.{Mounts};
ghost use Rattle.cartridge_meaning.specs.Notes.{HasHonestNotes};
ghost use Rattle.mount_recover.specs.Known.{IsKnownByNotes, last_blocks, mount_most};
ghost use Rattle.mount_recover.specs.Labels.{AreLabels, HasCounts};
ghost use Rattle.std.specs.Option.{option_map};
ghost use Rattle.mount_recover.specs.declared.choices.Standing.{Standing as StandingOf};
ghost use Rattle.mount_recover.specs.Lasts.{Agrees, AreInPlaces, AreLasts, AreSoundLasts, IsMounted, IsMountedAs};
ghost use Rattle.mount_recover.specs.Lasts.{IsScan, IsScannedMount, IsSoundMount, IsSoundScanned};
ghost use Rattle.mount_recover.specs.Noted.{AreNotes};
ghost use Rattle.mount_recover.specs.Steps.{Blames, IsSince, IsStep, IsStepBy};

use crate::choices::{Choice, Standing, decide, ends_scanned};
use crate::flags::{Flags, read_flags};
use crate::labels::read_all;
use crate::lasts::{Lasts, read_lasts};
use crate::noted::choose_by_notes;
use crate::notes::{Notes, read_notes};
use crate::scans::{Scans, scan_both};
use crate::starts::{Start, begin};
use cartridge_meaning::{Labels, MountErr, Mounted};
use index_model::Spot;
use ltfs_label::Label;
use std::alloc::Global;
use tape_drive::Drive;
use tape_types::{List, Part};
use volume_scan::Construct;

/// Both partitions end with their last indexes, of which both notes tell.
const ALL_DONE: Flags = Flags {
    ip_ends: true,
    dp_ends: true,
    noted: true,
};

/// Reads what the cartridge in a drive stands for, and writes nothing (LTFS 2.4 on mounting). Where its notes are
/// coherent and name the indexes with which both partitions end, it reads the labels and these alone, however much the
/// cartridge holds; else all that stands on it.
///
/// A place that a note names is gone to unseen, so the notes of a cartridge that the drive tells have to be honest.
///
/// # Errors
///
/// The first check that fails, in the order of `MountErr`. `Drive` where the drive failed, and `NoMemory` where memory
/// was refused.
pub fn mount<D: Drive>(alloc: Global, drive: &mut D) -> Result<Mounted, MountErr>
    requires honest { IfSome (D.held drive.old) HasHonestNotes }
    ensures found { IfOk result (λ m. (c : Cartridge) → D.held drive.old ≡ Some c → Mounts c m) }
    ensures refused { IfErr result (λ e. (c : Cartridge) → D.held drive.old ≡ Some c → Blames e c) }
    ensures only { (c : Cartridge) → D.held drive.old ≡ Some c → Found c → IsMounted result }
    ensures any { IfOk result (IsSoundMount (D.limits drive.old)) }
    ensures counts { HasCounts (D.faults drive.old) (D.faults drive.new) result }
    ensures looks { Looks D.Drive (mount_most (D.limits drive.old) * D.MOST) drive.old drive.new }
    ensures by_notes { (c : Cartridge) → D.held drive.old ≡ Some c → IsKnownByNotes c
        → Looks D.Drive ((32 + last_blocks c) * D.MOST) drive.old drive.new }
{
    let start = begin(drive);
    find(alloc, drive, start)
}

/// The notes, and then the checks in their order, the labels first.
fn find<D: Drive>(alloc: Global, drive: &mut D, start: Start) -> Result<Mounted, MountErr>
    requires since { IsSince D.Drive start drive.old }
    requires honest { IfSome (D.held drive.old) HasHonestNotes }
    ensures { IsStepBy D.Drive start (mount_most start.limits)
        (λ c n. IsKnownByNotes c → n ≤ 32 + last_blocks c)
        drive.old drive.new (λ m c. Mounts c m) (IsSoundMount start.limits) Blames result }
{
    let notes = match read_notes(drive, start) {
        Ok(notes) => notes,
        Err(fault) => return Err(fault),
    };
    find_by_notes(alloc, drive, start, &notes)
}

/// Where the notes are known.
fn find_by_notes<D: Drive>(
    alloc: Global,
    drive: &mut D,
    start: Start,
    notes: &Notes,
) -> Result<Mounted, MountErr>
    requires since { IsSince D.Drive start drive.old }
    requires honest { IfSome (D.held drive.old) HasHonestNotes }
    requires notes { IfSome (D.held drive.old) (AreNotes notes.now) }
    ensures { IsStepBy D.Drive start (20 + 3 * start.limits.cap_ip + 3 * start.limits.cap_dp)
        (λ c n. IsKnownByNotes c → n ≤ 20 + last_blocks c)
        drive.old drive.new (λ m c. Mounts c m) (IsSoundMount start.limits) Blames result }
{
    let labels = match find_labels(alloc, drive, start) {
        Ok(labels) => labels,
        Err(fault) => return Err(fault),
    };
    find_by_labels(alloc, drive, start, labels, notes)
}

fn find_labels<D: Drive>(alloc: Global, drive: &mut D, start: Start) -> Result<Labels, MountErr>
    requires since { IsSince D.Drive start drive.old }
    ensures { IsStep D.Drive start 12 drive.old drive.new (λ l c. HasLabels c l) AreLabels Blames result }
{
    read_all(alloc, drive, start.faults)
}

/// Where the labels are known, too: by the notes, or else by all that stands on both partitions.
fn find_by_labels<D: Drive>(
    alloc: Global,
    drive: &mut D,
    start: Start,
    labels: Labels,
    notes: &Notes,
) -> Result<Mounted, MountErr>
    requires since { IsSince D.Drive start drive.old }
    requires sound { AreLabels labels }
    requires honest { IfSome (D.held drive.old) HasHonestNotes }
    requires known { IfSome (D.held drive.old) (λ c. HasLabels c labels × AreNotes notes.now c) }
    ensures { IsStepBy D.Drive start (8 + 3 * start.limits.cap_ip + 3 * start.limits.cap_dp)
        (λ c n. IsKnownByNotes c → n ≤ 8 + last_blocks c)
        drive.old drive.new (λ m c. Mounts c m) (IsSoundMount start.limits) Blames result }
{
    match choose_by_notes(alloc, drive, start, &labels, notes) {
        Ok(Some(choice)) => Ok(mounted(labels.ip, choice, ALL_DONE)),
        Ok(None) => match find_by_scan(alloc, drive, start, labels, notes) {
            Ok(scanned) => Ok(scanned.mounted),
            Err(fault) => Err(fault),
        },
        Err(fault) => Err(fault),
    }
}

/// What a mount by a scan finds.
#[derive(Drop)]
pub struct Scanned {
    pub mounted: Mounted,
    /// Where the indexes of the data partition stand, the oldest first.
    pub places: List<Construct>,
}

/// Reads what the cartridge in a drive stands for by all that stands on both partitions, whatever its notes say, and
/// writes nothing: for what needs all indexes of the data partition. The errors are those of [`mount`].
pub fn mount_by_scan<D: Drive>(
    alloc: Global,
    drive: &mut D,
    start: Start,
) -> Result<Scanned, MountErr>
    requires since { IsSince D.Drive start drive.old }
    ensures { IsStep D.Drive start (23 + 2 * start.limits.cap_ip + 2 * start.limits.cap_dp) drive.old drive.new
        IsScannedMount (IsSoundScanned start.limits) Blames result }
{
    let notes = match read_notes(drive, start) {
        Ok(notes) => notes,
        Err(fault) => return Err(fault),
    };
    scan_with_notes(alloc, drive, start, &notes)
}

/// Where the notes are known.
fn scan_with_notes<D: Drive>(
    alloc: Global,
    drive: &mut D,
    start: Start,
    notes: &Notes,
) -> Result<Scanned, MountErr>
    requires since { IsSince D.Drive start drive.old }
    requires notes { IfSome (D.held drive.old) (AreNotes notes.now) }
    ensures { IsStep D.Drive start (20 + 2 * start.limits.cap_ip + 2 * start.limits.cap_dp) drive.old drive.new
        IsScannedMount (IsSoundScanned start.limits) Blames result }
{
    let labels = match find_labels(alloc, drive, start) {
        Ok(labels) => labels,
        Err(fault) => return Err(fault),
    };
    find_by_scan(alloc, drive, start, labels, notes)
}

/// By all that stands on both partitions.
fn find_by_scan<D: Drive>(
    alloc: Global,
    drive: &mut D,
    start: Start,
    labels: Labels,
    notes: &Notes,
) -> Result<Scanned, MountErr>
    requires since { IsSince D.Drive start drive.old }
    requires sound { AreLabels labels }
    requires known { IfSome (D.held drive.old) (λ c. HasLabels c labels × AreNotes notes.now c) }
    ensures { IsStep D.Drive start (((1 + start.limits.cap_ip) + (1 + start.limits.cap_dp))
        + (((1 + start.limits.cap_dp) + (1 + start.limits.cap_ip)) + 4))
        drive.old drive.new IsScannedMount (IsSoundScanned start.limits) Blames result }
{
    let scans = scan_both(alloc, drive, start)?;
    let mounted = find_by_scans(alloc, drive, start, labels, notes, &scans)?;
    Ok(Scanned {
        mounted,
        places: scans.dp.constructs,
    })
}

/// Where both partitions are scanned.
fn find_by_scans<D: Drive>(
    alloc: Global,
    drive: &mut D,
    start: Start,
    labels: Labels,
    notes: &Notes,
    scans: &Scans,
) -> Result<Mounted, MountErr>
    requires since { IsSince D.Drive start drive.old }
    requires sound { AreLabels labels }
    requires places { AreInPlaces start.limits scans.now }
    requires known { IfSome (D.held drive.old) (λ c. IsScan labels scans.now c × AreNotes notes.now c) }
    ensures { IsStep D.Drive start (((1 + start.limits.cap_dp) + (1 + start.limits.cap_ip)) + 4)
        drive.old drive.new (λ m c. Mounts c m) (IsSoundMount start.limits) Blames result }
{
    let lasts = read_lasts(alloc, drive, start, &labels, scans)?;
    find_by_lasts(alloc, drive, start, labels, notes, scans, lasts)
}

/// Where the last indexes are read.
fn find_by_lasts<D: Drive>(
    alloc: Global,
    drive: &mut D,
    start: Start,
    labels: Labels,
    notes: &Notes,
    scans: &Scans,
    lasts: Lasts,
) -> Result<Mounted, MountErr>
    requires since { IsSince D.Drive start drive.old }
    requires sound { AreLabels labels }
    requires places { AreInPlaces start.limits scans.now }
    requires sound_lasts { AreSoundLasts labels.ip start.limits lasts }
    requires known { IfSome (D.held drive.old) (λ c. IsScan labels scans.now c × AreNotes notes.now c
        × AreLasts labels.ip lasts c) }
    ensures { IsStep D.Drive start 4 drive.old drive.new (λ m c. Mounts c m) (IsSoundMount start.limits) Blames result }
{
    let ends = ends_scanned(scans, &lasts);
    let choice = match decide(&labels, ends, lasts) {
        Ok(choice) => choice,
        Err(fault) => return Err(fault),
    };
    let flags = read_flags(alloc, drive, start, labels.ip.uuid, notes, scans, &choice)?;
    Ok(mounted(labels.ip, choice, flags))
}

/// What is found, with what a close has to do.
fn mounted(label: Label, choice: Choice, flags: Flags) -> Mounted
    ensures { IsMountedAs label choice flags result }
{
    let ip_on = choice.chosen.part == Part::Dp;
    Mounted {
        newest: choice.index.generation,
        end_ip: choice.ends.ip,
        end_dp: choice.ends.dp,
        last_dp: first_of(choice.dp),
        ip_on,
        dp_done: ip_on && flags.dp_ends,
        ip_done: flags.ip_ends && agrees(label.dpart, &choice),
        noted: flags.noted,
        chosen: choice.chosen,
        label,
        index: choice.index,
    }
}

fn first_of(last: Option<Standing>) -> Option<u64>
    ensures { result ≡ option_map (λ (s : StandingOf). s.place.first) last }
{
    match last {
        None => None,
        Some(last) => Some(last.place.first),
    }
}

/// Whether the last index of the index partition is of the chosen generation, and points back to that of the data
/// partition with this letter.
fn agrees(dpart: u8, choice: &Choice) -> bool
    ensures { IsTrue result ↔ Agrees dpart choice.now }
{
    match (choice.ip, choice.dp) {
        (Some(ip), Some(dp)) => {
            let last = Spot {
                letter: dpart,
                block: dp.place.first,
            };
            ip.generation == choice.index.generation && ip.back == Some(last)
        }
        _ => false,
    }
}
