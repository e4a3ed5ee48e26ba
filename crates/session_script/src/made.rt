//! Scripts that are made from a number.

ghost use Rattle.std.specs.Prelude.{◌≡◌, ◌+◌, ◌*◌, ◌<◌, ◌≤◌, ◌^◌, [], ◌∷◌, ◌++◌, length, decimal, IfOk};
ghost use Rattle.session_script.specs.Bounds.{most_calls};
ghost use Rattle.session_script.specs.Made.{numbered, folder_of, write_of, last_of, call_for, made_call, made_round};
ghost use Rattle.session_script.specs.Made.{made_script};

use crate::scripts::{Script, ScriptLine};
use plain_tree::Call;
use std::alloc::Global;
use tape_types::{Bytes, List, NoMemory, Text};

/// A name of a letter and a number.
fn name(alloc: Global, letter: &str, number: u32) -> Result<Text, NoMemory>
    ensures { IfOk result (λ name. name ≡ letter.now ++ decimal number) }
{
    Ok(Text::from_string(format!(in alloc; "{letter}{number}")?))
}

/// The folder of a session.
fn folder_path(alloc: Global, who: u16) -> Result<List<Text>, NoMemory>
    ensures { IfOk result (λ path. path ≡ folder_of who) }
{
    let mut path = List::new(alloc);
    path.push(name(alloc, "s", u32::from(who))?)?;
    Ok(path)
}

/// A file of a session, by the letter of its name.
fn file_path(alloc: Global, who: u16, letter: &str, file: u32) -> Result<List<Text>, NoMemory>
    ensures { IfOk result (λ path. path ≡ numbered 115 who ∷ (letter.now ++ decimal file) ∷ []) }
{
    let mut path = folder_path(alloc, who)?;
    path.push(name(alloc, letter, file)?)?;
    Ok(path)
}

/// The write to a file.
fn write_call(alloc: Global, who: u16, file: u32) -> Result<Call, NoMemory>
    requires { file ≤ most_calls }
    ensures { IfOk result (λ call. call ≡ write_of who file) }
{
    let session = u32::from(who);
    let value = ((16 * session + file) % 256) as u8;
    let count = 1 + (37 * file + 101 * session) % 5000;
    Ok(Call::Write {
        path: file_path(alloc, who, "f", file)?,
        offset: u64::from(file % 7) * 1000,
        bytes: Bytes::from_vec(vec![in alloc; value; count as usize]?),
    })
}

/// The last call for a file.
fn last_call(alloc: Global, who: u16, file: u32) -> Result<Call, NoMemory>
    ensures { IfOk result (λ call. call ≡ last_of who file) }
{
    if file % 32 == 31 {
        return Ok(Call::Sync);
    }
    Ok(Call::Rename {
        from: file_path(alloc, who, "f", file)?,
        to: file_path(alloc, who, "g", file)?,
    })
}

/// A call for a file, by its place among the four.
fn file_call(alloc: Global, who: u16, file: u32, step: u32) -> Result<Call, NoMemory>
    requires { file ≤ most_calls }
    ensures { IfOk result (λ call. call ≡ call_for who file step) }
{
    match step {
        0 => Ok(Call::Create {
            path: file_path(alloc, who, "f", file)?,
        }),
        1 => write_call(alloc, who, file),
        2 => Ok(Call::Read {
            path: file_path(alloc, who, "f", file)?,
            offset: 0,
            count: 6000,
        }),
        _ => last_call(alloc, who, file),
    }
}

/// A session's call of a number, counted from 0.
fn nth_call(alloc: Global, who: u16, nth: u32) -> Result<Call, NoMemory>
    requires { nth ≤ most_calls }
    ensures { IfOk result (λ call. call ≡ made_call who nth) }
{
    if nth == 0 {
        return Ok(Call::Mkdir {
            path: folder_path(alloc, who)?,
        });
    }
    file_call(alloc, who, (nth - 1) / 4, (nth - 1) % 4)
}

/// The script with one call more of each session.
fn with_round(alloc: Global, script: Script, nth: u32) -> Result<Script, NoMemory>
    requires few { nth < most_calls }
    requires small { length script ≤ 8 * nth }
    ensures { IfOk result (λ longer. longer ≡ script ++ made_round nth) }
{
    let mut longer = script;
    for who in 1..9u16 {
        let call = nth_call(alloc, who, nth)?;
        longer = longer.push(ScriptLine { who, call })?;
    }
    Ok(longer)
}

/// The script of eight sessions, each with so many calls in a folder of its own: it makes the folder, and then creates,
/// writes, reads and renames one file after the other, with a sync in place of each 32nd rename. No session has more
/// than 1,024 calls.
pub fn make_script(alloc: Global, count: u32) -> Result<Script, NoMemory>
    requires { count ≤ most_calls }
    ensures { IfOk result (λ script. script ≡ made_script count) }
{
    let mut script = Script::new(alloc)?;
    for nth in 0..count {
        script = with_round(alloc, script, nth)?;
    }
    Ok(script)
}
