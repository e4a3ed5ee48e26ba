ghost use Rattle.std.specs.Prelude.{◌≡◌, ◌*◌, ◌≤◌, [], length, Ok, IfOk, MatchResult};
ghost use Rattle.session_script.specs.Bounds.{longest_script, most_calls, most_sessions};
ghost use Rattle.session_script.specs.Grammar.{script_of, script_from, lines_of, IsFault};

use crate::faults::LineFault;
use crate::limits::LONGEST_SCRIPT;
use crate::progress::Progress;
use crate::scripts::{Script, ScriptErr, ScriptFault, ScriptWhy};
use crate::words::cut;
use std::alloc::Global;

/// The script that a text spells, or the first line that is refused.
pub fn read_script(alloc: Global, text: &[u8]) -> Result<Script, ScriptFault>
    ensures read { MatchResult result (λ script. script_of text.now ≡ Ok script)
        (λ fault. IsFault fault (script_of text.now)) }
    ensures few { IfOk result (λ script. length script ≤ most_sessions * most_calls) }
{
    if text.len() > LONGEST_SCRIPT {
        return Err(ScriptFault::Bad(ScriptErr {
            line: 0,
            why: ScriptWhy::Long,
        }));
    }
    read_lines(alloc, text)
}

fn read_lines(alloc: Global, text: &[u8]) -> Result<Script, ScriptFault>
    requires { length text.now ≤ longest_script }
    ensures read { MatchResult result (λ script. script_from 1 [] (lines_of text.now) ≡ Ok script)
        (λ fault. IsFault fault (script_from 1 [] (lines_of text.now))) }
    ensures few { IfOk result (λ script. length script ≤ most_sessions * most_calls) }
{
    let mut progress = Progress::new(alloc)?;
    let mut left = Some(text);
    let mut number = 0;
    while let Some(rest) = left {
        let (line, more) = cut(rest, b'\n');
        number += 1;
        match progress.read_line(alloc, line) {
            Ok(None) => {}
            Ok(Some(spelled)) => progress = progress.with(spelled)?,
            Err(LineFault::Bad(why)) => {
                return Err(ScriptFault::Bad(ScriptErr { line: number, why }));
            }
            Err(LineFault::NoMemory) => return Err(ScriptFault::NoMemory),
        }
        left = more;
    }
    Ok(progress.into_script())
}
