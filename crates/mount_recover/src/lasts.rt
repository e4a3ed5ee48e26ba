//! The last indexes of a cartridge.

ghost use Rattle.std.specs.Prelude.{◌≡◌, ◌+◌, ℕ, None, Option, Some, IfErr, IfOk, IfSome};
ghost use Rattle.index_model.specs.declared.indexes.Index.{Index as IndexOf};
ghost use Rattle.cartridge_meaning.specs.Pointers.{indexes_of};
ghost use Rattle.tape_types.specs.declared.cartridges.Cartridge.{Cartridge};
ghost use Rattle.mount_recover.specs.Labels.{AreCounts, AreLabels};
ghost use Rattle.mount_recover.specs.Lasts.{AreInPlaces, AreLasts, AreLastsWith, AreSoundLasts, AreSoundWith};
ghost use Rattle.mount_recover.specs.Lasts.{IsDocument, IsInPlace, IsKnownDp, IsKnownIp};
ghost use Rattle.mount_recover.specs.Lasts.{IsLastDp, IsLastIp, IsScan, IsSoundLast, IsSoundRead};
ghost use Rattle.mount_recover.specs.Lasts.{IsTwinAt, generation_in};
ghost use Rattle.mount_recover.specs.Steps.{Blames, IsSince, IsStep};

use crate::documents::{read_document, read_index_at, read_text};
use crate::pointers::{points_on_dp, points_on_ip};
use crate::scans::Scans;
use crate::starts::Start;
use cartridge_meaning::{Labels, MountErr};
use index_model::{Index, Spot};
use index_read::repoint;
use ltfs_label::Label;
use std::alloc::Global;
use tape_drive::Drive;
use tape_types::{Part, Place};
use volume_scan::Construct;

/// The last index of a partition, and where it stands.
#[derive(Drop)]
pub struct LastIndex {
    pub index: Index,
    pub place: Construct,
}

/// An index of the index partition that is the data partition's last one but for its pointers: where it stands, and
/// what they are.
#[derive(Clone, Copy)]
pub struct TwinIndex {
    pub place: Construct,
    pub here: Spot,
    pub back: Spot,
}

/// The last index of each partition that has one.
#[derive(Drop)]
pub enum Lasts {
    None,
    OnIp(LastIndex),
    OnDp(LastIndex),
    OnBoth { ip: LastIndex, dp: LastIndex },
    Alike { ip: TwinIndex, dp: LastIndex },
}

/// What the last indexes of a cartridge are read by: its labels, and what stands on both partitions.
#[derive(Drop)]
struct Basis<'a> {
    alloc: Global,
    start: Start,
    labels: &'a Labels,
    scans: &'a Scans,
}

/// Reads the last index of each partition, that of the data partition first. The second document takes the memory of
/// the first one.
pub fn read_lasts<D: Drive>(
    alloc: Global,
    drive: &mut D,
    start: Start,
    labels: &Labels,
    scans: &Scans,
) -> Result<Lasts, MountErr>
    requires since { IsSince D.Drive start drive.old }
    requires sound { AreLabels labels.now }
    requires places { AreInPlaces start.limits scans.now }
    requires known { IfSome (D.held drive.old) (IsScan labels.now scans.now) }
    ensures { IsStep D.Drive start ((1 + start.limits.cap_dp) + (1 + start.limits.cap_ip)) drive.old drive.new
        (AreLasts labels.now.ip) (AreSoundLasts labels.now.ip start.limits) Blames result }
{
    let basis = Basis {
        alloc,
        start,
        labels,
        scans,
    };
    let mut document = Vec::new(alloc);
    let dp = last_on_dp(drive, &basis, &mut document)?;
    last_on_ip(drive, &basis, dp, &mut document)
}

fn last_on_dp<D: Drive>(
    drive: &mut D,
    basis: &Basis<'_>,
    document: &mut Vec<u8>,
) -> Result<Option<LastIndex>, MountErr>
    requires since { IsSince D.Drive basis.now.start drive.old }
    requires places { AreInPlaces basis.now.start.limits basis.now.scans.now }
    requires known { IfSome (D.held drive.old) (IsScan basis.now.labels.now basis.now.scans.now) }
    ensures { IsStep D.Drive basis.now.start (1 + basis.now.start.limits.cap_dp) drive.old drive.new
        (IsLastDp basis.now.labels.now.ip)
        (λ last. IfSome last (IsSoundRead basis.now.labels.now.ip basis.now.start.limits.cap_dp document.new.items))
        Blames result }
{
    match basis.scans.dp.constructs.as_slice().split_last() {
        None => Ok(None),
        Some((place, older)) => read_on_dp(drive, basis, *place, older, document),
    }
}

/// Reads the last index of the data partition, which stands there behind others.
fn read_on_dp<D: Drive>(
    drive: &mut D,
    basis: &Basis<'_>,
    place: Construct,
    older: &[Construct],
    document: &mut Vec<u8>,
) -> Result<Option<LastIndex>, MountErr>
    requires since { IsSince D.Drive basis.now.start drive.old }
    requires place { IsInPlace basis.now.start.limits.cap_dp place }
    requires known { IfSome (D.held drive.old) (IsKnownDp basis.now.labels.now place older.now) }
    ensures { IsStep D.Drive basis.now.start (1 + basis.now.start.limits.cap_dp) drive.old drive.new
        (IsLastDp basis.now.labels.now.ip)
        (λ last. IfSome last (IsSoundRead basis.now.labels.now.ip basis.now.start.limits.cap_dp document.new.items))
        Blames result }
{
    let label = &basis.labels.ip;
    let index = read_index_at(
        basis.alloc,
        drive,
        basis.start,
        label,
        Part::Dp,
        place,
        document,
    )?;
    if !points_on_dp(label, place.first, older, &index) {
        return Err(MountErr::WrongPointer(Place {
            part: Part::Dp,
            pos: place.first,
        }));
    }
    Ok(Some(LastIndex { index, place }))
}

/// Reads the last index of the index partition, in place of the document of the data partition's.
fn last_on_ip<D: Drive>(
    drive: &mut D,
    basis: &Basis<'_>,
    dp: Option<LastIndex>,
    document: &mut Vec<u8>,
) -> Result<Lasts, MountErr>
    requires since { IsSince D.Drive basis.now.start drive.old }
    requires sound { AreLabels basis.now.labels.now }
    requires places { AreInPlaces basis.now.start.limits basis.now.scans.now }
    requires known { IfSome (D.held drive.old) (IsScan basis.now.labels.now basis.now.scans.now) }
    requires dp { IfSome (D.held drive.old) (IsLastDp basis.now.labels.now.ip dp) }
    requires sound_dp { IfSome dp
        (IsSoundRead basis.now.labels.now.ip basis.now.start.limits.cap_dp document.old.items) }
    ensures { IsStep D.Drive basis.now.start (1 + basis.now.start.limits.cap_ip) drive.old drive.new
        (AreLastsWith basis.now.labels.now.ip dp)
        (AreSoundWith basis.now.labels.now.ip basis.now.start.limits.cap_ip dp) Blames result }
{
    match (basis.scans.ip.constructs.as_slice().split_last(), dp) {
        (None, None) => Ok(Lasts::None),
        (None, Some(dp)) => Ok(Lasts::OnDp(dp)),
        (Some((place, _)), None) => read_alone(drive, basis, *place, document),
        (Some((place, _)), Some(dp)) => read_beside(drive, basis, *place, dp, document),
    }
}

/// Reads the last index of the index partition, where the data partition has none.
fn read_alone<D: Drive>(
    drive: &mut D,
    basis: &Basis<'_>,
    place: Construct,
    document: &mut Vec<u8>,
) -> Result<Lasts, MountErr>
    requires since { IsSince D.Drive basis.now.start drive.old }
    requires place { IsInPlace basis.now.start.limits.cap_ip place }
    requires known { IfSome (D.held drive.old) (IsKnownIp basis.now.labels.now place basis.now.scans.now.dp.constructs None) }
    ensures { IsStep D.Drive basis.now.start (1 + basis.now.start.limits.cap_ip) drive.old drive.new
        (AreLastsWith basis.now.labels.now.ip None)
        (AreSoundWith basis.now.labels.now.ip basis.now.start.limits.cap_ip None) Blames result }
{
    read_document(
        basis.alloc,
        drive,
        basis.start,
        Part::Ip,
        place,
        basis.labels.ip.block,
        document,
    )?;
    match told_on_ip(basis, place, None, document.as_slice()) {
        Ok(ip) => Ok(Lasts::OnIp(ip)),
        Err(fault) => Err(fault),
    }
}

/// Reads the last index of the index partition beside that of the data partition, which it mostly is but for its
/// pointers. The document of the data partition's stands there.
fn read_beside<D: Drive>(
    drive: &mut D,
    basis: &Basis<'_>,
    place: Construct,
    dp: LastIndex,
    document: &mut Vec<u8>,
) -> Result<Lasts, MountErr>
    requires since { IsSince D.Drive basis.now.start drive.old }
    requires sound { AreLabels basis.now.labels.now }
    requires place { IsInPlace basis.now.start.limits.cap_ip place }
    requires known { IfSome (D.held drive.old)
        (IsKnownIp basis.now.labels.now place basis.now.scans.now.dp.constructs (Some dp.index)) }
    requires dp { IfSome (D.held drive.old) (IsLastDp basis.now.labels.now.ip (Some dp)) }
    requires sound_dp { IsSoundRead basis.now.labels.now.ip basis.now.start.limits.cap_dp document.old.items dp }
    ensures { IsStep D.Drive basis.now.start (1 + basis.now.start.limits.cap_ip) drive.old drive.new
        (AreLastsWith basis.now.labels.now.ip (Some dp))
        (AreSoundWith basis.now.labels.now.ip basis.now.start.limits.cap_ip (Some dp)) Blames result }
{
    let twin = twin_at(&basis.labels.ip, place, dp.place);
    let likely = repoint(basis.alloc, &dp.index, document, twin.here, twin.back);
    let same = read_document(
        basis.alloc,
        drive,
        basis.start,
        Part::Ip,
        place,
        basis.labels.ip.block,
        document,
    )?;
    if likely && same {
        return Ok(Lasts::Alike { ip: twin, dp });
    }
    let generation = Some(dp.index.generation);
    match told_on_ip(basis, place, generation, document.as_slice()) {
        Ok(ip) => Ok(Lasts::OnBoth { ip, dp }),
        Err(fault) => Err(fault),
    }
}

/// What an index that stands there on the index partition points to, where it is not older than the last one of the
/// data partition.
fn twin_at(label: &Label, place: Construct, dp: Construct) -> TwinIndex
    ensures { IsTwinAt label.now place dp result }
{
    TwinIndex {
        place,
        here: Spot {
            letter: label.index,
            block: place.first,
        },
        back: Spot {
            letter: label.dpart,
            block: dp.first,
        },
    }
}

/// The last index of the index partition, whose document this is, beside one of this generation on the data partition,
/// or none.
fn told_on_ip(
    basis: &Basis<'_>,
    place: Construct,
    on_dp: Option<u64>,
    document: &[u8],
) -> Result<LastIndex, MountErr>
    ensures sound { IfOk result (λ ip. (capacity : ℕ) → IsInPlace capacity place
        → IsSoundLast basis.now.labels.now.ip capacity ip) }
    ensures found { IfOk result (λ ip. (c : Cartridge) (dp : Option IndexOf) → on_dp ≡ generation_in dp
        → IsKnownIp basis.now.labels.now place basis.now.scans.now.dp.constructs dp c
        → IsDocument document.now (indexes_of c.ip) → IsLastIp basis.now.labels.now.ip dp (Some ip) c) }
    ensures refused { IfErr result (λ e. (c : Cartridge) (dp : Option IndexOf) → on_dp ≡ generation_in dp
        → IsKnownIp basis.now.labels.now place basis.now.scans.now.dp.constructs dp c
        → IsDocument document.now (indexes_of c.ip) → Blames e c) }
    ensures counts { IfErr result (λ e. (before now : ℕ) → AreCounts before now e) }
{
    let at = Place {
        part: Part::Ip,
        pos: place.first,
    };
    let label = &basis.labels.ip;
    let index = match read_text(basis.alloc, document, label, at) {
        Ok(index) => index,
        Err(fault) => return Err(fault),
    };
    let dps = basis.scans.dp.constructs.as_slice();
    if !points_on_ip(label, place.first, dps, on_dp, &index) {
        return Err(MountErr::WrongPointer(at));
    }
    Ok(LastIndex { index, place })
}
