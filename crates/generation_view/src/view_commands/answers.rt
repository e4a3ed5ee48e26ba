//! The reply to a read, as a line.

ghost use Rattle.std.specs.Prelude.{◌≡◌, ◌∷◌, [], drop, pos, IfOk};
ghost use Rattle.session_script.specs.LogText.{log_text};
ghost use Rattle.session_script.specs.declared.logs.Reply.TheVariants as replies;
ghost use Rattle.generation_view.specs.ViewCommands.Texts.{answer_line};
ghost use Rattle.generation_view.specs.ViewCommands.Lines.{IsLogOf};

use plain_tree::{Answer, Fate, Placed};
use session_script::{KeptReply, Log, Reply, log_text};
use std::alloc::Global;
use tape_types::{Bytes, List, Moment, NoMemory};

/// How many bytes a line of a log has before its reply, where it is the first call of session 1 in place 0.
const BEHIND: usize = 6;

/// The reply to a read, as the log of a script has it.
pub fn answer_line(alloc: Global, answer: Answer) -> Result<Bytes, NoMemory>
    ensures { IfOk result (λ text. text ≡ answer_line answer) }
{
    let log = log_of(alloc, answer)?;
    let line = log_text(alloc, &log)?;
    behind(alloc, line.as_slice())
}

/// What stands behind the beginning of a line.
fn behind(alloc: Global, line: &[u8]) -> Result<Bytes, NoMemory>
    ensures { IfOk result (λ text. text ≡ drop 6 line.now) }
{
    let mut text = Vec::new(alloc);
    if let Some(rest) = line.get(BEHIND..) {
        text.extend_from_slice(rest)?;
    }
    Ok(Bytes::from_vec(text))
}

/// A log with this reply alone.
fn log_of(alloc: Global, answer: Answer) -> Result<Log, NoMemory>
    ensures { IfOk result (IsLogOf answer) }
{
    let mut history = List::new(alloc);
    history.push(first_call())?;
    let mut replies = List::new(alloc);
    replies.push(KeptReply::here(Reply::Answer(answer)))?;
    Ok(Log {
        history,
        replies,
        events: List::new(alloc),
        acks: List::new(alloc),
    })
}

/// The first call of session 1.
fn first_call() -> Placed
    ensures who { result.who ≡ 1 }
    ensures nth { result.nth ≡ 1 }
{
    Placed {
        who: 1,
        nth: 1,
        at: Moment { secs: 0, nanos: 0 },
        fate: Fate::Done,
    }
}
