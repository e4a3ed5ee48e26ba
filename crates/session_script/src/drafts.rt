ghost use Rattle.std.specs.Prelude.{◌≡◌, [], ◌∷◌, IfOk};
ghost use Rattle.session_script.specs.Grammar.{bytes_written, bytes_asked, call_by, spelled_by};
ghost use Rattle.session_script.specs.Words.{words_of};
ghost use Rattle.session_script.specs.declared.words.Verb.TheVariants as verbs;
ghost use Rattle.session_script.specs.Readings.{call_drafted, call_given, IsDrafted, IsReadLine};

use crate::bytes::{Content, read_bytes};
use crate::faults::LineFault;
use crate::paths::{read_key, read_path};
use crate::scripts::ScriptWhy;
use crate::words::{
    Arguments, Verb, cut, read_arguments, read_flag, read_number, read_session, read_verb,
};
use plain_tree::Call;
use std::alloc::Global;
use tape_types::{List, NoMemory, Text};

/// A call, before the bytes that it writes are made.
#[derive(Drop)]
pub enum Draft {
    Write {
        path: List<Text>,
        offset: u64,
        content: Content,
    },
    Setx {
        path: List<Text>,
        key: Text,
        content: Content,
    },
    Whole(Call),
}

impl Draft {
    /// How many bytes the call writes.
    pub fn bytes_written(&self) -> u64
        ensures { result ≡ bytes_written (call_drafted self.now) }
    {
        match self {
            Draft::Write { content, .. } => content.len(),
            Draft::Setx { content, .. } => content.len(),
            Draft::Whole(call) => bytes_written(call),
        }
    }

    /// How many bytes the call asks to read.
    pub fn bytes_asked(&self) -> u64
        ensures { result ≡ bytes_asked (call_drafted self.now) }
    {
        match self {
            Draft::Write { .. } => 0,
            Draft::Setx { .. } => 0,
            Draft::Whole(call) => bytes_asked(call),
        }
    }

    pub fn into_call(self, alloc: Global) -> Result<Call, NoMemory>
        ensures { IfOk result (λ call. call ≡ call_drafted self) }
    {
        match self {
            Draft::Write {
                path,
                offset,
                content,
            } => Ok(Call::Write {
                path,
                offset,
                bytes: content.into_bytes(alloc)?,
            }),
            Draft::Setx { path, key, content } => Ok(Call::Setx {
                path,
                key,
                bytes: content.into_bytes(alloc)?,
            }),
            Draft::Whole(call) => Ok(call),
        }
    }
}

/// How many bytes a call writes.
pub fn bytes_written(call: &Call) -> u64
    ensures { result ≡ bytes_written call.now }
{
    match call {
        Call::Write { bytes, .. } => bytes.len() as u64,
        Call::Setx { bytes, .. } => bytes.len() as u64,
        _ => 0,
    }
}

/// How many bytes a call asks to read.
pub fn bytes_asked(call: &Call) -> u64
    ensures { result ≡ bytes_asked call.now }
{
    match call {
        Call::Read { count, .. } => *count,
        _ => 0,
    }
}

/// The session and the call that the words of a line spell.
pub fn read_words(alloc: Global, line: &[u8]) -> Result<(u16, Draft), LineFault>
    ensures { IsReadLine result (spelled_by (words_of line.now)) }
{
    let (first, left) = cut(line, b' ');
    let who = read_session(first).ok_or(ScriptWhy::Who)?;
    let left = left.ok_or(ScriptWhy::Verb)?;
    let (second, left) = cut(left, b' ');
    let verb = read_verb(second).ok_or(ScriptWhy::Verb)?;
    let draft = read_call(alloc, verb, read_arguments(left))?;
    Ok((who, draft))
}

/// The call that a verb and the words behind it spell.
fn read_call(alloc: Global, verb: Verb, words: Arguments) -> Result<Draft, LineFault>
    ensures { IsDrafted result (call_given verb words.entry) }
{
    match (verb, words) {
        (Verb::Mkdir, Arguments::One(path)) => read_mkdir(alloc, path),
        (Verb::Create, Arguments::One(path)) => read_create(alloc, path),
        (Verb::Write, Arguments::Three(path, offset, bytes)) => {
            read_write(alloc, path, offset, bytes)
        }
        (Verb::Truncate, Arguments::Two(path, length)) => read_truncate(alloc, path, length),
        (Verb::Read, Arguments::Three(path, offset, count)) => {
            read_read(alloc, path, offset, count)
        }
        (Verb::List, Arguments::One(path)) => read_list(alloc, path),
        (Verb::Stat, Arguments::One(path)) => read_stat(alloc, path),
        (Verb::Rename, Arguments::Two(from, to)) => read_rename(alloc, from, to),
        (Verb::Remove, Arguments::One(path)) => read_remove(alloc, path),
        (Verb::Setx, Arguments::Three(path, key, bytes)) => read_setx(alloc, path, key, bytes),
        (Verb::Getx, Arguments::Two(path, key)) => read_getx(alloc, path, key),
        (Verb::Dropx, Arguments::Two(path, key)) => read_dropx(alloc, path, key),
        (Verb::Readonly, Arguments::Two(path, flag)) => read_readonly(alloc, path, flag),
        (Verb::Lock, Arguments::Nothing) => Ok(Draft::Whole(Call::LockVolume)),
        (Verb::Unlock, Arguments::Nothing) => Ok(Draft::Whole(Call::UnlockVolume)),
        (Verb::Permlock, Arguments::Nothing) => Ok(Draft::Whole(Call::PermLock)),
        (Verb::Sync, Arguments::Nothing) => Ok(Draft::Whole(Call::Sync)),
        _ => Err(LineFault::Bad(ScriptWhy::Words)),
    }
}

fn read_mkdir(alloc: Global, path: &[u8]) -> Result<Draft, LineFault>
    ensures { IsDrafted result (call_by verbs.Mkdir (path.now ∷ [])) }
{
    let path = read_path(alloc, path)?;
    Ok(Draft::Whole(Call::Mkdir { path }))
}

fn read_create(alloc: Global, path: &[u8]) -> Result<Draft, LineFault>
    ensures { IsDrafted result (call_by verbs.Create (path.now ∷ [])) }
{
    let path = read_path(alloc, path)?;
    Ok(Draft::Whole(Call::Create { path }))
}

fn read_write(alloc: Global, path: &[u8], offset: &[u8], bytes: &[u8]) -> Result<Draft, LineFault>
    ensures { IsDrafted result (call_by verbs.Write (path.now ∷ offset.now ∷ bytes.now ∷ [])) }
{
    let path = read_path(alloc, path)?;
    let offset = read_number(offset).ok_or(ScriptWhy::Number)?;
    let content = read_bytes(alloc, bytes)?;
    Ok(Draft::Write {
        path,
        offset,
        content,
    })
}

fn read_truncate(alloc: Global, path: &[u8], length: &[u8]) -> Result<Draft, LineFault>
    ensures { IsDrafted result (call_by verbs.Truncate (path.now ∷ length.now ∷ [])) }
{
    let path = read_path(alloc, path)?;
    let length = read_number(length).ok_or(ScriptWhy::Number)?;
    Ok(Draft::Whole(Call::Truncate { path, length }))
}

fn read_read(alloc: Global, path: &[u8], offset: &[u8], count: &[u8]) -> Result<Draft, LineFault>
    ensures { IsDrafted result (call_by verbs.Read (path.now ∷ offset.now ∷ count.now ∷ [])) }
{
    let path = read_path(alloc, path)?;
    let offset = read_number(offset).ok_or(ScriptWhy::Number)?;
    let count = read_number(count).ok_or(ScriptWhy::Number)?;
    Ok(Draft::Whole(Call::Read {
        path,
        offset,
        count,
    }))
}

fn read_list(alloc: Global, path: &[u8]) -> Result<Draft, LineFault>
    ensures { IsDrafted result (call_by verbs.List (path.now ∷ [])) }
{
    let path = read_path(alloc, path)?;
    Ok(Draft::Whole(Call::Listing { path }))
}

fn read_stat(alloc: Global, path: &[u8]) -> Result<Draft, LineFault>
    ensures { IsDrafted result (call_by verbs.Stat (path.now ∷ [])) }
{
    let path = read_path(alloc, path)?;
    Ok(Draft::Whole(Call::Stat { path }))
}

fn read_rename(alloc: Global, from: &[u8], to: &[u8]) -> Result<Draft, LineFault>
    ensures { IsDrafted result (call_by verbs.Rename (from.now ∷ to.now ∷ [])) }
{
    let from = read_path(alloc, from)?;
    let to = read_path(alloc, to)?;
    Ok(Draft::Whole(Call::Rename { from, to }))
}

fn read_remove(alloc: Global, path: &[u8]) -> Result<Draft, LineFault>
    ensures { IsDrafted result (call_by verbs.Remove (path.now ∷ [])) }
{
    let path = read_path(alloc, path)?;
    Ok(Draft::Whole(Call::Remove { path }))
}

fn read_setx(alloc: Global, path: &[u8], key: &[u8], bytes: &[u8]) -> Result<Draft, LineFault>
    ensures { IsDrafted result (call_by verbs.Setx (path.now ∷ key.now ∷ bytes.now ∷ [])) }
{
    let path = read_path(alloc, path)?;
    let key = read_key(alloc, key)?;
    let content = read_bytes(alloc, bytes)?;
    Ok(Draft::Setx { path, key, content })
}

fn read_getx(alloc: Global, path: &[u8], key: &[u8]) -> Result<Draft, LineFault>
    ensures { IsDrafted result (call_by verbs.Getx (path.now ∷ key.now ∷ [])) }
{
    let path = read_path(alloc, path)?;
    let key = read_key(alloc, key)?;
    Ok(Draft::Whole(Call::Getx { path, key }))
}

fn read_dropx(alloc: Global, path: &[u8], key: &[u8]) -> Result<Draft, LineFault>
    ensures { IsDrafted result (call_by verbs.Dropx (path.now ∷ key.now ∷ [])) }
{
    let path = read_path(alloc, path)?;
    let key = read_key(alloc, key)?;
    Ok(Draft::Whole(Call::Dropx { path, key }))
}

fn read_readonly(alloc: Global, path: &[u8], flag: &[u8]) -> Result<Draft, LineFault>
    ensures { IsDrafted result (call_by verbs.Readonly (path.now ∷ flag.now ∷ [])) }
{
    let path = read_path(alloc, path)?;
    let on = read_flag(flag).ok_or(ScriptWhy::Flag)?;
    Ok(Draft::Whole(Call::Readonly { path, on }))
}
