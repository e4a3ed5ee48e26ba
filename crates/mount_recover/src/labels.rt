//! The labels of a volume.

ghost use Rattle.std.specs.Prelude.{◌≡◌, ◌≤◌, ◌*◌, Some, length, IfOk, IfErr, IfSome, IsTrue, ◌↔◌};
ghost use Rattle.ltfs_label.specs.Values.{label_of};
ghost use Rattle.tape_drive.specs.Looks.{Looks};
ghost use Rattle.cartridge_meaning.specs.Labels.{AreInTheirPlaces, AreOfOneLayout, AreOfOneOrigin, AreOfOneVolume};
ghost use Rattle.cartridge_meaning.specs.Labels.{HasLabel, HasLabels, HasRecord, HasSomeLabel, HasSomeRecord};
ghost use Rattle.cartridge_meaning.specs.declared.labels.Labels.{Labels as Found};
ghost use Rattle.cartridge_meaning.specs.declared.errors.MountErr.TheVariants as errors;
ghost use Rattle.mount_recover.specs.Labels.{AreLabels, Fails, HasCounts, IsReadAs, IsSpelled, Refuses};
ghost use Rattle.tape_types.specs.Times.{civil_of};
ghost use Rattle.tape_types.specs.Cartridges.{capacity, items_of};
ghost use Rattle.tape_types.specs.declared.cartridges.Cartridge.{Cartridge};

use crate::items::{Buffers, Stop, read_label_of, read_record};
use cartridge_meaning::{Labels, MountErr};
use ltfs_label::Label;
use std::alloc::Global;
use tape_drive::Drive;
use tape_types::{Moment, Part, Twin};
use vol_label::Vol1;

/// Reads the labels of the cartridge in a drive, and writes nothing (LTFS 2.4 on labels).
///
/// # Errors
///
/// The first check that fails: the VOL1 records, of the index partition first; then the labels; then whether they are
/// of one volume. `Drive` where the drive failed, and `NoMemory` where memory was refused.
pub fn read_labels<D: Drive>(alloc: Global, drive: &mut D) -> Result<Labels, MountErr>
    ensures found { IfOk result (λ l. (c : Cartridge) → D.held drive.old ≡ Some c → HasLabels c l) }
    ensures refused { IfErr result (λ e. (c : Cartridge) → D.held drive.old ≡ Some c → Fails c e) }
    ensures only { (c : Cartridge) (l : Found) → D.held drive.old ≡ Some c → HasLabels c l → IsReadAs l result }
    ensures any { IfOk result AreLabels }
    ensures counts { HasCounts (D.faults drive.old) (D.faults drive.new) result }
    ensures looks { Looks D.Drive (12 * D.MOST) drive.old drive.new }
{
    let before = drive.faults();
    read_all(alloc, drive, before)
}

/// The same, without the clause that follows from the others. `before` is an earlier count of the drive's faults.
pub fn read_all<D: Drive>(alloc: Global, drive: &mut D, before: u64) -> Result<Labels, MountErr>
    requires before { before ≤ D.faults drive.old }
    ensures found { IfOk result (λ l. (c : Cartridge) → D.held drive.old ≡ Some c → HasLabels c l) }
    ensures refused { IfErr result (λ e. (c : Cartridge) → D.held drive.old ≡ Some c → Fails c e) }
    ensures any { IfOk result AreLabels }
    ensures counts { HasCounts before (D.faults drive.new) result }
    ensures looks { Looks D.Drive (12 * D.MOST) drive.old drive.new }
{
    // The capacities are in their range.
    let _capacities_are_in_range = drive.limits();
    // The number of commands is in its range.
    let _commands_are_in_range = drive.commands();
    let mut buffers = Buffers::new(alloc)?;
    let ip_record = find_record(drive, Part::Ip, before, &mut buffers)?;
    let dp_record = find_record(drive, Part::Dp, before, &mut buffers)?;
    let ip = find_label(alloc, drive, Part::Ip, before, &mut buffers)?;
    let dp = find_label(alloc, drive, Part::Dp, before, &mut buffers)?;
    if !are_of_one_volume(&ip, &dp) {
        return Err(MountErr::LabelsDiffer);
    }
    Ok(Labels {
        ip_record,
        ip,
        dp_record,
        dp,
    })
}

/// The VOL1 record of a partition, or why there is none. `before` is an earlier count of the drive's faults.
fn find_record<D: Drive>(
    drive: &mut D,
    part: Part,
    before: u64,
    buffers: &mut Buffers,
) -> Result<Vol1, MountErr>
    requires room { 4 ≤ capacity part (D.limits drive.old) }
    requires before { before ≤ D.faults drive.old }
    ensures found { IfOk result (λ r. (c : Cartridge) → D.held drive.old ≡ Some c → HasRecord (items_of part c) r) }
    ensures refused { IfErr result (λ e. (c : Cartridge) → D.held drive.old ≡ Some c
        → Refuses (errors.Vol1 part) (¬ HasSomeRecord (items_of part c)) e) }
    ensures looks { Looks D.Drive (3 * D.MOST) drive.old drive.new }
    ensures counts { HasCounts before (D.faults drive.new) result }
{
    match read_record(drive, part, buffers) {
        Ok(Some(found)) => Ok(found),
        Ok(None) => Err(MountErr::Vol1(part)),
        Err(_) => Err(failed(drive, before)),
    }
}

/// The label of a partition with a VOL1 record, or why there is none.
fn find_label<D: Drive>(
    alloc: Global,
    drive: &mut D,
    part: Part,
    before: u64,
    buffers: &mut Buffers,
) -> Result<Label, MountErr>
    requires within { IfSome (D.held drive.old) (λ c. HasSomeRecord (items_of part c)) }
    requires room { 4 ≤ capacity part (D.limits drive.old) }
    requires before { before ≤ D.faults drive.old }
    ensures found { IfOk result (λ l. (c : Cartridge) → D.held drive.old ≡ Some c
        → HasLabel (items_of part c) (label_of l)) }
    ensures refused { IfErr result (λ e. (c : Cartridge) → D.held drive.old ≡ Some c
        → Refuses (errors.Label part) (¬ HasSomeLabel (items_of part c)) e) }
    ensures spelled { IfOk result IsSpelled }
    ensures looks { Looks D.Drive (3 * D.MOST) drive.old drive.new }
    ensures counts { HasCounts before (D.faults drive.new) result }
{
    match read_label_of(alloc, drive, part, buffers) {
        Ok(Some(found)) => Ok(found),
        Ok(None) => Err(MountErr::Label(part)),
        Err(Stop::Drive) => Err(failed(drive, before)),
        Err(Stop::NoMemory) => Err(MountErr::NoMemory),
    }
}

/// The error of a drive that failed since it had this count of faults.
pub fn failed<D: Drive>(drive: &D, before: u64) -> MountErr
    ensures { result ≡ errors.Drive (record { before = before; after = D.faults drive.now }) }
{
    MountErr::Drive(Twin {
        before,
        after: drive.faults(),
    })
}

/// Whether the labels of both partitions are of one volume.
fn are_of_one_volume(ip: &Label, dp: &Label) -> bool
    ensures { IsTrue result ↔ AreOfOneVolume (label_of ip.now) (label_of dp.now) }
{
    are_of_one_origin(ip, dp) && are_of_one_layout(ip, dp) && are_in_their_places(ip, dp)
}

fn are_of_one_origin(ip: &Label, dp: &Label) -> bool
    ensures { IsTrue result ↔ AreOfOneOrigin (label_of ip.now) (label_of dp.now) }
{
    ip.creator == dp.creator && are_at_one_time(ip.formatted, dp.formatted) && ip.uuid == dp.uuid
}

/// Whether two moments have one date and time of day.
fn are_at_one_time(ip: Moment, dp: Moment) -> bool
    ensures { IsTrue result ↔ (civil_of ip ≡ civil_of dp) }
{
    are_one(ip, dp)
}

fn are_one(ip: Moment, dp: Moment) -> bool
    ensures { IsTrue result ↔ (ip ≡ dp) }
{
    ip == dp
}

fn are_of_one_layout(ip: &Label, dp: &Label) -> bool
    ensures { IsTrue result ↔ AreOfOneLayout (label_of ip.now) (label_of dp.now) }
{
    ip.index == dp.index
        && ip.dpart == dp.dpart
        && ip.block == dp.block
        && ip.compression == dp.compression
}

/// Whether each label stands in the partition of its location, and the partitions have two letters.
fn are_in_their_places(ip: &Label, dp: &Label) -> bool
    ensures { IsTrue result ↔ AreInTheirPlaces (label_of ip.now) (label_of dp.now) }
{
    ip.index != ip.dpart && ip.location == ip.index && dp.location == dp.dpart
}
