//! The notes of a volume that was written.

ghost use Rattle.std.specs.Prelude.{◌≡◌, OnOk, IfOk, Some};
ghost use Rattle.coherency.specs.Notes.{IsNote, note_of};
ghost use Rattle.tape_drive.specs.Commands.{IsNoted};
ghost use Rattle.tape_drive.specs.Crashes.{AllowsAll, IsSure};
ghost use Rattle.tape_types.specs.declared.cartridges.Cartridge.{Cartridge};
ghost use Rattle.tape_types.specs.declared.cartridges.Note.TheVariants.{Kept};
ghost use Rattle.tape_types.specs.Counts.{HasCause};
ghost use Rattle.format_volume.specs.Steps.{with_notes};
ghost use Rattle.format_volume.specs.Volumes.{noted};
ghost use Rattle.format_volume.specs.Writes.{Goes};

use crate::requests::FormatSpec;
use coherency::{Coherency, encode_note};
use tape_drive::{Drive, DriveErr};
use tape_types::Part;

/// Writes the note of a partition, with nothing pending before and after.
#[tactic(auto, using(crate::proofs::WriteLemmas::goes))]
fn put_note<D: Drive>(drive: &mut D, part: Part, note: &[u8; 70]) -> Result<(), DriveErr>
    requires all { AllowsAll D.allows }
    requires sure { IsSure (D.held drive.old) (D.leaves drive.old) }
    ensures told { OnOk result ((c : Cartridge) → D.held drive.old ≡ Some c
        → (d : Cartridge) × (D.held drive.new ≡ Some d) × IsNoted part (Kept note.now) c d) }
    ensures sure { OnOk result (IsSure (D.held drive.new) (D.leaves drive.new)) }
    ensures goes { Goes D.Drive drive.old drive.new }
    ensures cause { HasCause (D.faults drive.old) (D.faults drive.new) result }
{
    match drive.write_note(part, note) {
        Ok(()) => Ok(()),
        Err(failed) => Err(failed),
    }
}

/// Writes this note on both partitions.
#[tactic(auto, using(crate::proofs::WriteLemmas::then_goes))]
fn put_both<D: Drive>(drive: &mut D, note: &[u8; 70]) -> Result<(), DriveErr>
    requires all { AllowsAll D.allows }
    requires sure { IsSure (D.held drive.old) (D.leaves drive.old) }
    ensures told { OnOk result ((c : Cartridge) → D.held drive.old ≡ Some c
        → D.held drive.new ≡ Some (record c { note_ip = Kept note.now; note_dp = Kept note.now })) }
    ensures sure { OnOk result (IsSure (D.held drive.new) (D.leaves drive.new)) }
    ensures goes { Goes D.Drive drive.old drive.new }
    ensures cause { HasCause (D.faults drive.old) (D.faults drive.new) result }
{
    match put_note(drive, Part::Ip, note) {
        Ok(()) => put_note(drive, Part::Dp, note),
        Err(failed) => Err(failed),
    }
}

/// The volume change reference, of a drive with nothing pending.
#[tactic(auto, using(crate::proofs::WriteLemmas::looked))]
fn reference<D: Drive>(drive: &mut D) -> Result<u64, DriveErr>
    requires sure { IsSure (D.held drive.old) (D.leaves drive.old) }
    ensures value { IfOk result (λ n. (c : Cartridge) → D.held drive.old ≡ Some c → n ≡ c.vcr) }
    ensures held { D.held drive.new ≡ D.held drive.old }
    ensures sure { OnOk result (IsSure (D.held drive.new) (D.leaves drive.new)) }
    ensures goes { Goes D.Drive drive.old drive.new }
    ensures cause { HasCause (D.faults drive.old) (D.faults drive.new) result }
{
    match drive.vcr() {
        Ok(vcr) => Ok(vcr),
        Err(failed) => Err(failed),
    }
}

/// Writes the notes of a volume of which nothing is pending, with its volume change reference.
#[tactic(auto, using(crate::proofs::WriteLemmas::then_goes))]
pub fn write_notes<D: Drive>(drive: &mut D, spec: &FormatSpec) -> Result<(), DriveErr>
    requires all { AllowsAll D.allows }
    requires sure { IsSure (D.held drive.old) (D.leaves drive.old) }
    ensures told { OnOk result ((c : Cartridge) → D.held drive.old ≡ Some c
        → (D.held drive.new ≡ Some (with_notes spec.now c))
        × IsNote (note_of (noted spec.now c.vcr)) (noted spec.now c.vcr)) }
    ensures sure { OnOk result (IsSure (D.held drive.new) (D.leaves drive.new)) }
    ensures goes { Goes D.Drive drive.old drive.new }
    ensures cause { HasCause (D.faults drive.old) (D.faults drive.new) result }
{
    match reference(drive) {
        Ok(vcr) => {
            let note = encode_note(&Coherency {
                vcr,
                generation: 1,
                block: 5,
                uuid: spec.uuid,
            });
            put_both(drive, &note)
        }
        Err(failed) => Err(failed),
    }
}
