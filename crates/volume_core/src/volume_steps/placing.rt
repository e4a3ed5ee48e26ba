//! Placements, and calls that are answered at once.

ghost use Rattle.std.specs.Prelude.{◌≡◌, Some};
ghost use Rattle.plain_tree.specs.declared.calls.Fate.TheVariants as fates;
ghost use Rattle.session_script.specs.declared.logs.Reply.TheVariants as replies;
ghost use Rattle.volume_state.specs.StateLaws.Placing.{PlacesCall};
ghost use Rattle.volume_core.specs.VolumeSteps.Asking.{Awaits, CanPlace, Finishes, told_void};
ghost use Rattle.volume_core.specs.VolumeSteps.Seen.{seen_parts};

use crate::volume_steps::parts::Parts;
use plain_tree::{Answer, Fate, Placed};
use promises::serving_promise::Submitted;
use session_script::Reply;
use tape_drive::Drive;
use tape_layout::AdmitErr;
use tape_types::Moment;

/// Which call of which session is placed, and when.
#[derive(Clone, Copy)]
pub struct Asked {
    pub who: u16,
    pub nth: u32,
    pub at: Moment,
}

impl<D: Drive> Parts<D> {
    /// Places a call that is void.
    pub fn void(&mut self, asked: Asked, error: AdmitErr) -> Submitted
        requires { CanPlace asked.who self.old.placements }
        ensures { Finishes asked.who asked.nth asked.at fates.Void (told_void error) result (seen_parts self.old)
            (seen_parts self.new) }
    {
        match error {
            AdmitErr::Full { need, limit } => self.finish(
                asked,
                Fate::Void,
                Reply::Full { need, limit },
                Reply::Full { need, limit },
            ),
            AdmitErr::NoMemory => self.finish(asked, Fate::Void, Reply::NoMemory, Reply::NoMemory),
        }
    }

    /// Places a call that is done and answered at once. The answer is given twice: one is kept.
    pub fn answer(&mut self, asked: Asked, told: Answer, kept: Answer) -> Submitted
        requires can { CanPlace asked.who self.old.placements }
        requires same { kept ≡ told }
        ensures { Finishes asked.who asked.nth asked.at fates.Done (replies.Answer told) result (seen_parts self.old)
            (seen_parts self.new) }
    {
        self.finish(asked, Fate::Done, Reply::Answer(told), Reply::Answer(kept))
    }

    /// Places a call that waits for turns.
    pub fn place_waiting(&mut self, asked: Asked) -> Submitted
        requires { CanPlace asked.who self.old.placements }
        ensures { Awaits asked.who asked.nth asked.at result (seen_parts self.old) (seen_parts self.new) }
    {
        let here = self.placements.len();
        self.placements.place(placed(asked, Fate::Done));
        Submitted::Wait(here)
    }

    /// Places a call with its reply. The reply is given twice: one is kept.
    fn finish(&mut self, asked: Asked, fate: Fate, told: Reply, kept: Reply) -> Submitted
        requires can { CanPlace asked.who self.old.placements }
        requires same { kept ≡ told }
        ensures { Finishes asked.who asked.nth asked.at fate told result (seen_parts self.old) (seen_parts self.new) }
    {
        self.place_answered(asked, fate, kept);
        Submitted::Ready(told)
    }

    /// Places a call, keeps its reply, and notes that it is handed out.
    fn place_answered(&mut self, asked: Asked, fate: Fate, reply: Reply)
        requires { CanPlace asked.who self.old.placements }
        ensures places { PlacesCall asked.who asked.nth asked.at fate (Some reply) (seen_parts self.old)
            (seen_parts self.new) }
        ensures others { self.new ≡ record self.old { placements = self.new.placements } }
    {
        let here = self.placements.len();
        self.placements.place(placed(asked, fate));
        self.placements.answer(here, reply);
        self.placements.hand(asked.who, here);
    }
}

/// A call as it is placed.
fn placed(asked: Asked, fate: Fate) -> Placed
    ensures { result ≡ record { who = asked.who; nth = asked.nth; at = asked.at; fate = fate } }
{
    Placed {
        who: asked.who,
        nth: asked.nth,
        at: asked.at,
        fate,
    }
}
