//! A cartridge becomes an empty volume.

ghost use Rattle.std.specs.Prelude.{◌≡◌, ◌+◌, ◌≤◌, length, Some, None, IfErr, OnOk};
ghost use Rattle.std.specs.Int.{div_ceil};
ghost use Rattle.tape_drive.specs.Crashes.{AllowsAll, IsSure};
ghost use Rattle.tape_types.specs.declared.cartridges.Cartridge.{Cartridge};
ghost use Rattle.tape_types.specs.declared.cartridges.Part.TheVariants as parts;
ghost use Rattle.tape_types.specs.Counts.{HasCause};
ghost use Rattle.format_volume.specs.Meanings.{IsEmptyVolume};
ghost use Rattle.format_volume.specs.Outcomes.{CanStand, HasCounts, IsSureSince, IsUntouched};
ghost use Rattle.format_volume.specs.Outcomes.{Refuses};
ghost use Rattle.format_volume.specs.Refusals.{spec_fault};
ghost use Rattle.format_volume.specs.Steps.{HasNotes, HoldsVolume, WritesBoth};
ghost use Rattle.format_volume.specs.Texts.{AreTextsOf};
ghost use Rattle.format_volume.specs.Volumes.{construct, full, items_on};
ghost use Rattle.format_volume.specs.Writes.{Goes, HasItems, IsOneBlock, Writes, marked};

use crate::notes::write_notes;
use crate::refusals::spec_fault;
use crate::requests::{FormatErr, FormatSpec};
use crate::texts::Texts;
use crate::writing::{write_index, write_labels};
use std::alloc::Global;
use tape_drive::{Drive, DriveErr};
use tape_layout::index_construct::blocks;
use tape_types::{Bytes, Limits, Part, Twin};

/// Makes the cartridge in a drive an empty volume (LTFS 2.4 on labels, index constructs and volume coherency
/// information), whatever it held before. Nothing is pending then. On the way a crash may leave anything, so the drive's
/// owner has to allow that.
///
/// # Errors
///
/// `BadSpec` with the first field that may not be so, and then `Full` with how many positions the first partition needs
/// that has fewer, and how many it has: both before any command. `Drive` where the drive failed, with its count of
/// faults before and after, and `NoMemory` where memory was refused, which is before any command too.
pub fn format<D: Drive>(alloc: Global, drive: &mut D, spec: &FormatSpec) -> Result<(), FormatErr>
    requires all { AllowsAll D.allows }
    ensures stands { OnOk result ((c : Cartridge) → D.held drive.new ≡ Some c → IsEmptyVolume spec.now c) }
    ensures holds { OnOk result (HoldsVolume D.Drive spec.now drive.old drive.new) }
    ensures sure { OnOk result (IsSure (D.held drive.new) (D.leaves drive.new)) }
    ensures since { OnOk result (IsSureSince D.Drive drive.new) }
    ensures fits { OnOk result (CanStand spec.now (D.limits drive.old)) }
    ensures refused { IfErr result (Refuses spec.now (D.limits drive.old)) }
    ensures untouched { IfErr result (λ e. IsUntouched e drive.old drive.new) }
    ensures counts { HasCounts (D.faults drive.old) (D.faults drive.new) result }
    ensures goes { Goes D.Drive drive.old drive.new }
{
    if let Some(field) = spec_fault(spec) {
        return Err(FormatErr::BadSpec(field));
    }
    let texts = Texts::new(alloc, spec)?;
    if let Some((need, limit)) = full(&texts, spec, drive.limits()) {
        return Err(FormatErr::Full { need, limit });
    }
    let before = drive.faults();
    match write_volume(drive, &texts, spec) {
        Ok(()) => Ok(()),
        Err(_) => Err(FormatErr::Drive(Twin {
            before,
            after: drive.faults(),
        })),
    }
}

/// How many positions a partition needs for its labels and this index.
#[tactic(auto, using(crate::proofs::RoomLemmas::few))]
fn need(doc: &Bytes, block: u32) -> u64
    requires { 4096 ≤ block }
    ensures { result ≡ 6 + div_ceil (length doc.now) block }
{
    6 + blocks(doc.len() as u64, block)
}

/// How many positions the first partition needs that has fewer, and how many it has.
#[tactic(auto, using(crate::proofs::TextLemmas::some_block))]
fn full(texts: &Texts, spec: &FormatSpec, limits: Limits) -> Option<(u64, u64)>
    requires fine { spec_fault spec.now ≡ None }
    requires texts { AreTextsOf spec.now texts.now }
    ensures { result ≡ full spec.now limits }
{
    let on_ip = need(&texts.ip_index, spec.block);
    if limits.cap_ip < on_ip {
        return Some((on_ip, limits.cap_ip));
    }
    let on_dp = need(&texts.dp_index, spec.block);
    if limits.cap_dp < on_dp {
        return Some((on_dp, limits.cap_dp));
    }
    None
}

/// Writes all of a volume: its labels, its indexes and its notes.
#[tactic(auto, using(crate::proofs::WriteLemmas::then_goes))]
fn write_volume<D: Drive>(drive: &mut D, texts: &Texts, spec: &FormatSpec) -> Result<(), DriveErr>
    requires all { AllowsAll D.allows }
    requires texts { AreTextsOf spec.now texts.now }
    requires can { CanStand spec.now (D.limits drive.old) }
    ensures holds { OnOk result (HoldsVolume D.Drive spec.now drive.old drive.new) }
    ensures notes { OnOk result (HasNotes D.Drive spec.now drive.old) }
    ensures sure { OnOk result (IsSure (D.held drive.new) (D.leaves drive.new)) }
    ensures goes { Goes D.Drive drive.old drive.new }
    ensures cause { HasCause (D.faults drive.old) (D.faults drive.new) result }
{
    match write_items(drive, texts, spec) {
        Ok(()) => write_notes(drive, spec),
        Err(failed) => Err(failed),
    }
}

/// Writes the items of both partitions.
#[tactic(auto, using(crate::proofs::WriteLemmas::then_goes, crate::proofs::TextLemmas::ip_one_block, crate::proofs::TextLemmas::dp_one_block))]
fn write_items<D: Drive>(drive: &mut D, texts: &Texts, spec: &FormatSpec) -> Result<(), DriveErr>
    requires all { AllowsAll D.allows }
    requires texts { AreTextsOf spec.now texts.now }
    requires can { CanStand spec.now (D.limits drive.old) }
    ensures done { OnOk result (WritesBoth D.Drive 0 (items_on parts.Ip spec.now) (items_on parts.Dp spec.now)
        drive.old drive.new) }
    ensures sure { OnOk result (IsSure (D.held drive.new) (D.leaves drive.new)) }
    ensures goes { Goes D.Drive drive.old drive.new }
    ensures cause { HasCause (D.faults drive.old) (D.faults drive.new) result }
{
    match write_both_labels(drive, texts) {
        Ok(()) => write_both_indexes(drive, texts, spec.block),
        Err(failed) => Err(failed),
    }
}

/// Writes the labels of both partitions.
#[tactic(auto, using(crate::proofs::WriteLemmas::then_goes))]
fn write_both_labels<D: Drive>(drive: &mut D, texts: &Texts) -> Result<(), DriveErr>
    requires all { AllowsAll D.allows }
    requires ip_room { 4 ≤ (D.limits drive.old).cap_ip }
    requires dp_room { 4 ≤ (D.limits drive.old).cap_dp }
    requires ip_label { IsOneBlock texts.now.ip_label }
    requires dp_label { IsOneBlock texts.now.dp_label }
    ensures done { OnOk result (WritesBoth D.Drive 0 (marked texts.now.record texts.now.ip_label)
        (marked texts.now.record texts.now.dp_label) drive.old drive.new) }
    ensures goes { Goes D.Drive drive.old drive.new }
    ensures cause { HasCause (D.faults drive.old) (D.faults drive.new) result }
{
    match write_labels(
        drive,
        Part::Ip,
        texts.record.as_slice(),
        texts.ip_label.as_slice(),
    ) {
        Ok(()) => write_labels(
            drive,
            Part::Dp,
            texts.record.as_slice(),
            texts.dp_label.as_slice(),
        ),
        Err(failed) => Err(failed),
    }
}

/// Writes the indexes of both partitions: first that of the data partition, to which the other points back.
#[tactic(auto, using(crate::proofs::WriteLemmas::then_goes))]
fn write_both_indexes<D: Drive>(drive: &mut D, texts: &Texts, block: u32) -> Result<(), DriveErr>
    requires all { AllowsAll D.allows }
    requires ip_labels { HasItems 4 parts.Ip (D.held drive.old) }
    requires dp_labels { HasItems 4 parts.Dp (D.held drive.old) }
    requires ip_room { 6 + div_ceil (length texts.now.ip_index) block ≤ (D.limits drive.old).cap_ip }
    requires dp_room { 6 + div_ceil (length texts.now.dp_index) block ≤ (D.limits drive.old).cap_dp }
    requires some { 1 ≤ block }
    requires size { block ≤ 1048576 }
    ensures done { OnOk result (WritesBoth D.Drive 4 (construct block texts.now.ip_index)
        (construct block texts.now.dp_index) drive.old drive.new) }
    ensures sure { OnOk result (IsSure (D.held drive.new) (D.leaves drive.new)) }
    ensures goes { Goes D.Drive drive.old drive.new }
    ensures cause { HasCause (D.faults drive.old) (D.faults drive.new) result }
{
    match write_index(drive, Part::Dp, texts.dp_index.as_slice(), block) {
        Ok(()) => write_pointing(drive, texts.ip_index.as_slice(), block),
        Err(failed) => Err(failed),
    }
}

/// Writes the index of the index partition, where that to which it points back is durable.
fn write_pointing<D: Drive>(drive: &mut D, doc: &[u8], block: u32) -> Result<(), DriveErr>
    requires all { AllowsAll D.allows }
    requires labels { HasItems 4 parts.Ip (D.held drive.old) }
    requires durable { IsSure (D.held drive.old) (D.leaves drive.old) }
    requires room { 6 + div_ceil (length doc.now) block ≤ (D.limits drive.old).cap_ip }
    requires some { 1 ≤ block }
    requires size { block ≤ 1048576 }
    ensures done { OnOk result (Writes D.Drive parts.Ip 4 (construct block doc.now) drive.old drive.new) }
    ensures sure { OnOk result (IsSure (D.held drive.new) (D.leaves drive.new)) }
    ensures goes { Goes D.Drive drive.old drive.new }
    ensures cause { HasCause (D.faults drive.old) (D.faults drive.new) result }
{
    write_index(drive, Part::Ip, doc, block)
}
