//! Calls that look at the tree.

ghost use Rattle.std.specs.Prelude.{◌≡◌, ◌≢◌, true, Ok, IfOk};
ghost use Rattle.extent_map.specs.Cells.{Tape};
ghost use Rattle.file_tree.specs.Tree.{plain_of};
ghost use Rattle.plain_tree.specs.Calls.{answer};
ghost use Rattle.plain_tree.specs.declared.calls.Call.{Call};
ghost use Rattle.plain_tree.specs.declared.calls.Call.TheVariants as calls;
ghost use Rattle.volume_state.specs.StateLaws.Placing.{only_looks};
ghost use Rattle.promises.specs.declared.serving_promise.answers.Submitted.TheVariants as submitted;
ghost use Rattle.volume_core.specs.VolumeSteps.Asking.{CanAsk, IsSubmitted};
ghost use Rattle.volume_core.specs.VolumeSteps.Seen.{seen_parts};

use crate::volume_steps::parts::Parts;
use crate::volume_steps::placing::Asked;
use plain_tree::Answer;
use promises::serving_promise::Submitted;
use std::alloc::Global;
use tape_drive::Drive;
use tape_layout::AdmitErr;
use tape_types::{NoMemory, Text};

/// An answer that is told, and one that is kept.
struct Twice {
    told: Answer,
    kept: Answer,
}

impl<D: Drive> Parts<D> {
    /// Answers a listing.
    pub fn list(&mut self, asked: Asked, alloc: Global, path: &[Text]) -> Submitted
        requires { CanAsk asked.who (seen_parts self.old) }
        ensures submits { IsSubmitted D.Drive asked.who asked.nth asked.at (seen_parts self.old) (seen_parts self.new)
            (calls.Listing path.now) result }
        ensures answered { self.new.reads.answered ≡ self.old.reads.answered }
        ensures placed { result ≢ submitted.Drain }
    {
        let told = self.stock.list(path);
        self.tell(asked, alloc, told)
    }

    /// Answers the bytes of a key.
    pub fn get_key(&mut self, asked: Asked, alloc: Global, path: &[Text], key: &Text) -> Submitted
        requires { CanAsk asked.who (seen_parts self.old) }
        ensures submits { IsSubmitted D.Drive asked.who asked.nth asked.at (seen_parts self.old) (seen_parts self.new)
            (calls.Getx path.now key.now) result }
        ensures answered { self.new.reads.answered ≡ self.old.reads.answered }
        ensures placed { result ≢ submitted.Drain }
    {
        let told = self.stock.get_key(path, key);
        self.tell(asked, alloc, told)
    }

    /// Tells the facts of a node.
    pub fn stat(&mut self, asked: Asked, alloc: Global, path: &[Text]) -> Submitted
        requires { CanAsk asked.who (seen_parts self.old) }
        ensures submits { IsSubmitted D.Drive asked.who asked.nth asked.at (seen_parts self.old) (seen_parts self.new)
            (calls.Stat path.now) result }
        ensures answered { self.new.reads.answered ≡ self.old.reads.answered }
        ensures placed { result ≢ submitted.Drain }
    {
        let told = self.stock.stat(path);
        self.tell(asked, alloc, told)
    }

    /// Places a call that looks at the tree, with what it is answered.
    #[tactic(auto, using(crate::proofs::VolumeSteps::SubmitLemmas::no_memory_here, crate::proofs::VolumeSteps::SubmitLemmas::ready_no_drain))]
    fn tell(&mut self, asked: Asked, alloc: Global, told: Result<Answer, NoMemory>) -> Submitted
        requires { CanAsk asked.who (seen_parts self.old) }
        ensures submits { (call : Call) → only_looks call ≡ true
            → IfOk told (λ a. (tape : Tape) → a ≡ answer (plain_of tape self.old.stock.tree) call)
            → IsSubmitted D.Drive asked.who asked.nth asked.at (seen_parts self.old) (seen_parts self.new) call result }
        ensures answered { self.new.reads.answered ≡ self.old.reads.answered }
        ensures placed { result ≢ submitted.Drain }
    {
        match keep_too(told, alloc) {
            Ok(both) => {
                let Twice { told, kept } = both;
                self.answer(asked, told, kept)
            }
            Err(NoMemory) => self.void(asked, AdmitErr::NoMemory),
        }
    }
}

/// An answer, and what is kept of it. A listing is made once.
fn keep_too(told: Result<Answer, NoMemory>, alloc: Global) -> Result<Twice, NoMemory>
    ensures told { IfOk result (λ both. told ≡ Ok both.told) }
    ensures same { IfOk result (λ both. both.kept ≡ both.told) }
{
    let told = told?;
    let kept = told.try_clone(alloc)?;
    Ok(Twice { told, kept })
}
