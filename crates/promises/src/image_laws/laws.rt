//! What is kept of a volume over each event, and what that gives.

ghost use Rattle.std.specs.Prelude.{◌≡◌, ℕ, List, [], ◌∷◌, ◌++◌};
ghost use Rattle.tape_types.specs.declared.cartridges.Cartridge.{Cartridge};
ghost use Rattle.session_script.specs.declared.logs.Ack.{Ack};
ghost use Rattle.promises.specs.ImageLaws.Kept.{Kept, Wait};
ghost use Rattle.promises.specs.ImageLaws.Made.{Job, Made, Trees, Volume};
ghost use Rattle.promises.specs.ImageLaws.Moments.{moment_of};
ghost use Rattle.promises.specs.ImageLaws.Laws.{AdmissionsKeep, ClosesLeave, HistoriesGoOn, ImagesAreFine, KeptGives};
ghost use Rattle.promises.specs.ImageLaws.Laws.{StartsAreKept, StepsKeep, SyncsAreHeld};

use tape_drive::Drive;

/// What a crash may leave stands for the tree of a prefix of the history.
#[tactic(auto, using(crate::proofs::ImageLaws::Stated::images_are_fine))]
pub fn images_are_fine()
    ensures { ImagesAreFine }
{}

/// Over any drive that tells its cartridge: a volume that was mounted is kept.
#[tactic(auto, using(crate::proofs::ImageLaws::Stated::starts_are_kept))]
pub fn starts_are_kept<D: Drive>()
    ensures { StartsAreKept D.Drive }
{}

/// So it is over each step of the drive: an op that was done or failed, a read, a note.
#[tactic(auto, using(crate::proofs::ImageLaws::Stated::steps_keep))]
pub fn steps_keep<D: Drive>()
    ensures { StepsKeep D.Drive }
{}

/// And over each admission of data and of an index.
#[tactic(auto, using(crate::proofs::ImageLaws::Stated::admissions_keep))]
pub fn admissions_keep<D: Drive>()
    ensures { AdmissionsKeep D.Drive }
{}

/// A sync that waits for all ops that stand is covered by what is flushed once they are done.
#[tactic(auto, using(crate::proofs::ImageLaws::Stated::syncs_are_held))]
pub fn syncs_are_held<D: Drive>()
    ensures { SyncsAreHeld D.Drive }
{}

/// All is kept as the history goes on.
#[tactic(auto, using(crate::proofs::ImageLaws::Stated::histories_go_on))]
pub fn histories_go_on<D: Drive>()
    ensures { HistoriesGoOn D.Drive }
{}

/// What is kept gives the promise: now, since the start, and since each acknowledgement.
#[tactic(auto, using(crate::proofs::ImageLaws::Stated::kept_gives))]
pub fn kept_gives<D: Drive>()
    ensures { KeptGives D.Drive }
{}

/// A sync is acknowledged once the job is done for which it waits: it is told with the drive's number of commands.
pub fn acks_are_kept<D: Drive>()
    ensures { (v : Volume) (t : Trees) (s : Made) (since : ℕ) (drive : D) (c : Cartridge) (done : ℕ)
        (jobs : List Job) (front : List Wait) (w : Wait) (behind : List Wait) (acks : List Ack)
        → Kept v t s since (moment_of D.Drive drive c) done jobs (front ++ w ∷ behind) acks → w.due ≡ done
        → Kept v t s since (moment_of D.Drive drive c) done jobs (front ++ behind)
        (acks ++ record { place = w.place; command = D.commands drive } ∷ []) }
{}

/// What stands once a close is done.
#[tactic(auto, using(crate::proofs::ImageLaws::Stated::closes_leave))]
pub fn closes_leave<D: Drive>()
    ensures { ClosesLeave D.Drive }
{}
