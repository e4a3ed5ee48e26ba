ghost use Rattle.std.specs.Prelude.{◌≡◌};
ghost use Rattle.session_script.specs.Bounds.{longest_script, most_asked, most_calls, most_in_all};
ghost use Rattle.session_script.specs.Bounds.{most_sessions, most_written};
ghost use Rattle.session_script.specs.ScriptRefusals.{RefusesTheFirst};
ghost use Rattle.session_script.specs.ScriptText.{ReadsGrammar};

use crate::limits::{
    LONGEST_SCRIPT, MOST_ASKED, MOST_CALLS, MOST_IN_ALL, MOST_SESSIONS, MOST_WRITTEN,
};

/// Each constant is the limit that definitions name.
pub fn limits_are()
    ensures sessions { MOST_SESSIONS ≡ most_sessions }
    ensures calls { MOST_CALLS ≡ most_calls }
    ensures written { MOST_WRITTEN ≡ most_written }
    ensures asked { MOST_ASKED ≡ most_asked }
    ensures in_all { MOST_IN_ALL ≡ most_in_all }
    ensures script { LONGEST_SCRIPT ≡ longest_script }
{}

/// What is read as a script is spelled as one, and what is spelled as one is read.
pub fn reads_the_grammar()
    ensures { ReadsGrammar }
{}

/// A text is refused at its first line that lacks a form or passes a limit, for the first of the reasons in their order
/// that holds of it; and a text that has such a line is refused so.
pub fn refuses_the_first()
    ensures { RefusesTheFirst }
{}
