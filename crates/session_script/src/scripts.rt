ghost use Rattle.std.specs.Prelude.{◌≡◌, [], replicate, IfOk, Some};
ghost use Rattle.session_script.specs.Bounds.{most_sessions};
ghost use Rattle.session_script.specs.ReasonNames.{reason_name};

use crate::limits::MOST_SESSIONS;
use plain_tree::Call;
use std::alloc::Global;
use std::fmt;
use std::marker::Model;
use tape_types::{List, NoMemory};

/// Why a line is refused, in the order in which the reasons are tested.
#[derive(Clone, Copy, Debug, PartialEq, Eq)]
pub enum ScriptWhy {
    /// The input has more than 16,777,216 bytes. This is told of line 0.
    Long,
    /// The line isn't UTF-8.
    Utf8,
    /// The first word is no session from 1 to 16.
    Who,
    /// The second word is missing, or no call.
    Verb,
    /// The call has another count of words, or a word is empty.
    Words,
    /// A path is not of its form.
    Path,
    /// A key is not of its form.
    Key,
    /// A flag is neither of its two words.
    Flag,
    /// A number is not of its form.
    Number,
    /// Bytes that are to be written are not of their form.
    Bytes,
    /// It is the session's 1,025th call.
    Calls,
    /// A write or the value of a key has more than 65,536 bytes, or a read asks for more than 1,048,576.
    Big,
    /// All writes and values of keys so far, or all reads so far, have more than 67,108,864 bytes.
    Sum,
}

impl fmt::Display for ScriptWhy {
    ghost output = { λ w. Some (reason_name w) };

    fn fmt<W: fmt::Write>(&self, f: &mut fmt::Formatter<W>) -> fmt::Result {
        f.write_str(match self {
            ScriptWhy::Long => "Long",
            ScriptWhy::Utf8 => "Utf8",
            ScriptWhy::Who => "Who",
            ScriptWhy::Verb => "Verb",
            ScriptWhy::Words => "Words",
            ScriptWhy::Path => "Path",
            ScriptWhy::Key => "Key",
            ScriptWhy::Flag => "Flag",
            ScriptWhy::Number => "Number",
            ScriptWhy::Bytes => "Bytes",
            ScriptWhy::Calls => "Calls",
            ScriptWhy::Big => "Big",
            ScriptWhy::Sum => "Sum",
        })
    }
}

/// The first line that is refused, counted from 1, and why.
#[derive(Clone, Copy, Debug, PartialEq, Eq)]
pub struct ScriptErr {
    pub line: u64,
    pub why: ScriptWhy,
}

/// Why there is no script.
#[derive(Clone, Copy, Debug, PartialEq, Eq)]
pub enum ScriptFault {
    Bad(ScriptErr),
    NoMemory,
}

impl From<NoMemory> for ScriptFault {
    ghost use Rattle.std.specs.Prelude.{◌≡◌};
    ghost use Rattle.session_script.specs.declared.scripts.ScriptFault.TheVariants as faults;

    ghost from_gives = { λ _ e. e ≡ faults.NoMemory };

    fn from(_e: NoMemory) -> ScriptFault {
        ScriptFault::NoMemory
    }
}

/// A call, and the session that makes it.
#[derive(Drop)]
pub struct ScriptLine {
    pub who: u16,
    pub call: Call,
}

/// The calls of all sessions in the order of their lines. Contracts see it as the list of these.
#[derive(Drop)]
pub struct Script {
    lines: List<ScriptLine>,
    /// For each line, how many calls of its session stand before it.
    nths: Vec<u32>,
    /// For each session from 1 to 16, the places of its lines.
    places: Vec<List<u32>>,
    sessions: u16,
}

impl Model for Script {
    ghost use Rattle.std.specs.Prelude.{List as Items};
    ghost use Rattle.session_script.specs.declared.scripts.ScriptLine.{ScriptLine};
    ghost use Rattle.session_script.specs.Sessions.{IsIndexed};

    ghost Value = { Items ScriptLine };

    ghost view = { λ s. s.lines };

    ghost invariant = { λ s. IsIndexed s.lines s.nths.items s.places.items s.sessions };
}

impl Script {
    ghost use Rattle.std.specs.Prelude.{◌≡◌, ℕ, ◌+◌, ◌-◌, ◌^◌, ◌<◌, ◌≤◌, [], ◌∷◌, ◌++◌, length, IfOk, IfSome};
    ghost use Rattle.std.specs.Prelude.{slice_get, take};
    ghost use Rattle.std.specs.Option.{option_map};
    ghost use Rattle.session_script.specs.Grammar.{calls_of};
    ghost use Rattle.session_script.specs.Sessions.{HasSessions, greatest_session};

    /// A script with no call.
    pub(crate) fn new(alloc: Global) -> Result<Script, NoMemory>
        ensures { IfOk result (λ script. script ≡ []) }
    {
        Ok(Script {
            lines: List::new(alloc),
            nths: Vec::new(alloc),
            places: empty_lists(alloc)?,
            sessions: 0,
        })
    }

    /// The script with one more line.
    pub(crate) fn push(self, line: ScriptLine) -> Result<Script, NoMemory>
        requires session { (1 ≤ line.who) × (line.who ≤ most_sessions) }
        requires small { length self + 1 < 2 ^ 32 }
        ensures { IfOk result (λ script. script ≡ self ++ line ∷ []) }
    {
        let Script {
            mut lines,
            mut nths,
            mut places,
            sessions,
        } = self;
        let who = line.who;
        let session = who as usize - 1;
        let place = lines.len() as u32;
        let nth = places[session].len() as u32;
        places[session].push(place)?;
        nths.push(nth)?;
        lines.push(line)?;
        Ok(Script {
            lines,
            nths,
            places,
            sessions: if who > sessions { who } else { sessions },
        })
    }

    /// The lines in order.
    pub fn lines(&self) -> &[ScriptLine]
        ensures { result.now ≡ self.now }
    {
        self.lines.as_slice()
    }

    /// How many calls there are.
    pub fn len(&self) -> u32
        ensures { result ≡ length self.now }
    {
        self.lines.len() as u32
    }

    /// The greatest session that has a call, or 0. Sessions are numbered from 1 to 16.
    pub fn sessions(&self) -> u16
        ensures greatest { result ≡ greatest_session self.now }
        ensures each { HasSessions self.now }
    {
        self.sessions
    }

    /// The session of the k-th line, counted from 0.
    pub fn who_at(&self, k: u32) -> u16
        requires { k < length self.now }
        ensures { option_map (λ l. l.who) (slice_get self.now k) ≡ Some result }
    {
        self.lines.as_slice()[k as usize].who
    }

    /// The number of the k-th line's call: how many calls of its session stand before it.
    pub fn nth_at(&self, k: u32) -> u32
        requires { k < length self.now }
        ensures { IfSome (slice_get self.now k) (λ line. result ≡ length (calls_of (take k self.now) line.who)) }
    {
        self.nths[k as usize]
    }

    /// How many calls a session has.
    pub fn count(&self, who: u16) -> u32
        ensures { result ≡ length (calls_of self.now who) }
    {
        if who >= 1 && who <= MOST_SESSIONS {
            self.places[who as usize - 1].len() as u32
        } else {
            0
        }
    }

    /// A session's call of this number, counted from 0.
    pub fn call(&self, who: u16, nth: u32) -> &Call
        requires { nth < length (calls_of self.now who) }
        ensures { slice_get (calls_of self.now who) nth ≡ Some result.now }
    {
        let place = self.places[who as usize - 1].as_slice()[nth as usize];
        &self.lines.as_slice()[place as usize].call
    }
}

/// A list with no place for each session from 1 to 16.
fn empty_lists(alloc: Global) -> Result<Vec<List<u32>>, NoMemory>
    ensures { IfOk result (λ lists. lists.items ≡ replicate most_sessions []) }
{
    let mut lists = Vec::new(alloc);
    for _session in 0..MOST_SESSIONS as usize {
        lists.push(List::new(alloc))?;
    }
    Ok(lists)
}
