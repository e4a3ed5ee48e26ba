//! What an owner allows.

ghost use Rattle.fenced_drive.specs.Laws.{AllowsThePromise, ForbidsErasing};

use tape_drive::Drive;

/// An owner allows what is promised of a run: each image is sound, and stands for the tree after some first calls.
#[tactic(auto, using(crate::proofs::Owned::allows_the_promise))]
pub fn an_owner_allows_the_promise()
    ensures { AllowsThePromise }
{}

/// An owner forbids to write over the beginning of the data partition, whatever a crash may leave of his drive.
pub fn an_owner_forbids_erasing<D: Drive>(drive: &D)
    ensures { ForbidsErasing (D.leaves drive.now) }
{
    // What is said of a drive holds of this one.
    let _drive = drive;
}
