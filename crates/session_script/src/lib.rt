// Scripts of sessions, and the log of a run.
#![tactic(auto)]

mod beginnings;
mod bytes;
mod drafts;
mod escapes;
mod faults;
mod kept;
mod laws;
mod limits;
mod log_lines;
mod logs;
mod made;
mod paths;
mod printing;
mod progress;
mod reading;
mod scripts;
mod short;
mod tails;
mod words;

pub use escapes::push_escaped;
pub use faults::LineFault;
pub use kept::{GoneReply, HeldReply, KeptReply};
pub use laws::{limits_are, reads_the_grammar, refuses_the_first};
pub use limits::{
    LONGEST_SCRIPT, MOST_ASKED, MOST_CALLS, MOST_IN_ALL, MOST_SESSIONS, MOST_WRITTEN,
};
pub use log_lines::LogLine;
pub use logs::{Ack, Event, Log, Reply};
pub use made::make_script;
pub use printing::log_text;
pub use progress::Progress;
pub use reading::read_script;
pub use scripts::{Script, ScriptErr, ScriptFault, ScriptLine, ScriptWhy};
