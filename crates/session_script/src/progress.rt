ghost use Rattle.std.specs.Prelude.{◌≡◌, ◌*◌, ◌≤◌, [], ◌∷◌, ◌++◌, length, IfOk, IfSome};
ghost use Rattle.session_script.specs.Bounds.{most_calls, most_sessions};
ghost use Rattle.session_script.specs.Grammar.{limit_passed, line_of};
ghost use Rattle.session_script.specs.Readings.{call_drafted, IsRead};
ghost use Rattle.session_script.specs.Limits.{CanFollow};

use crate::drafts::{Draft, bytes_asked, bytes_written, read_words};
use crate::faults::LineFault;
use crate::limits::{MOST_ASKED, MOST_CALLS, MOST_IN_ALL, MOST_WRITTEN};
use crate::scripts::{Script, ScriptLine, ScriptWhy};
use crate::words::{is_skipped, is_text};
use std::alloc::Global;
use std::marker::Model;
use tape_types::NoMemory;

/// A script that is read line by line, as far as it goes. Contracts see it as the list of its calls.
///
/// A caller cuts its input into lines by itself: `read_line` tells what a line spells behind those before it, and
/// `with` takes that in. So several scripts can be read from one input, or lines that have something in front.
#[derive(Drop)]
pub struct Progress {
    script: Script,
    /// How many bytes the calls write in all.
    written: u64,
    /// How many bytes the calls ask to read in all.
    asked: u64,
}

impl Model for Progress {
    ghost use Rattle.std.specs.Prelude.{List};
    ghost use Rattle.session_script.specs.declared.scripts.ScriptLine.{ScriptLine};
    ghost use Rattle.session_script.specs.Limits.{AreCounted};

    ghost Value = { List ScriptLine };

    ghost view = { λ p. p.script };

    ghost invariant = { λ p. AreCounted p.script p.written p.asked };
}

impl Progress {
    /// A script without a line.
    pub fn new(alloc: Global) -> Result<Progress, NoMemory>
        ensures { IfOk result (λ progress. progress ≡ []) }
    {
        Ok(Progress {
            script: Script::new(alloc)?,
            written: 0,
            asked: 0,
        })
    }

    /// What the next line spells, without its line feed: a session and its call, or nothing where the line is empty or
    /// a comment. The script stays as it is.
    ///
    /// # Errors
    ///
    /// `Bad` where the line isn't of its form or passes a limit, with the first reason; `NoMemory` where memory is
    /// refused.
    #[tactic(auto, using(crate::proofs::Bounds::can_follow))]
    pub fn read_line(&self, alloc: Global, line: &[u8]) -> Result<Option<ScriptLine>, LineFault>
        ensures read { IsRead result (line_of self.now line.now) }
        ensures follows { IfOk result (λ read. IfSome read (CanFollow self.now)) }
    {
        self.read(alloc, line)
    }

    fn read(&self, alloc: Global, line: &[u8]) -> Result<Option<ScriptLine>, LineFault>
        ensures { IsRead result (line_of self.now line.now) }
    {
        if !is_text(line) {
            return Err(LineFault::Bad(ScriptWhy::Utf8));
        }
        if is_skipped(line) {
            return Ok(None);
        }
        let (who, draft) = read_words(alloc, line)?;
        match self.limit_passed(who, &draft) {
            Some(why) => Err(LineFault::Bad(why)),
            None => Ok(Some(ScriptLine {
                who,
                call: draft.into_call(alloc)?,
            })),
        }
    }

    /// The first limit that the next line passes.
    fn limit_passed(&self, who: u16, draft: &Draft) -> Option<ScriptWhy>
        ensures { result ≡ limit_passed self.now (record { who = who; call = call_drafted draft.now }) }
    {
        if self.script.count(who) >= MOST_CALLS {
            return Some(ScriptWhy::Calls);
        }
        let written = draft.bytes_written();
        let asked = draft.bytes_asked();
        if written > MOST_WRITTEN || asked > MOST_ASKED {
            return Some(ScriptWhy::Big);
        }
        if self.written + written > MOST_IN_ALL || self.asked + asked > MOST_IN_ALL {
            return Some(ScriptWhy::Sum);
        }
        None
    }

    /// The script with one more line, which can follow it: `read_line` gives only such.
    ///
    /// # Errors
    ///
    /// `NoMemory`. The script is gone then.
    pub fn with(self, line: ScriptLine) -> Result<Progress, NoMemory>
        requires { CanFollow self line }
        ensures { IfOk result (λ progress. progress ≡ self ++ line ∷ []) }
    {
        let Progress {
            script,
            written,
            asked,
        } = self;
        let written = written + bytes_written(&line.call);
        let asked = asked + bytes_asked(&line.call);
        Ok(Progress {
            script: script.push(line)?,
            written,
            asked,
        })
    }

    /// The script of the lines so far.
    pub fn script(&self) -> &Script
        ensures { result.now ≡ self.now }
    {
        &self.script
    }

    /// The script of all lines.
    pub fn into_script(self) -> Script
        ensures script { result ≡ self }
        ensures few { length result ≤ most_sessions * most_calls }
    {
        self.script
    }
}
