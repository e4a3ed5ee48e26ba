ghost use Rattle.std.specs.Prelude.{◌≡◌, codes, map, option_map, string_bytes};
ghost use Rattle.commands.specs.CommandLine.Forms.{IsListRead, IsMakeRead, IsMomentTaken, IsReadAs, IsServeRead};
ghost use Rattle.commands.specs.CommandLine.Forms.{IsSpelledBy, IsTakenAs, IsViewTaken, IsVolumeAsked, count_told};
ghost use Rattle.commands.specs.CommandLine.Options.{bare};

use crate::command_line::forms::{
    WordsErr, bare_command, command_with_moment, find_in, is_given, list_command, make_command,
};
use crate::command_line::views::{ViewWords, read_view};
use crate::command_line::volumes::{FormatWords, read_at, read_number, read_volume};
use session_script::MOST_CALLS;
use std::alloc::Global;
use tape_types::Moment;

/// What the words of a command line ask for.
#[derive(Drop)]
pub enum Command {
    /// `plain`, which runs a script on a plain tree. Every moment is the given one, or else the clock's.
    Plain { at: Option<Moment> },
    /// `label`, which reads the labels of the cartridge.
    Label,
    /// `list`, which lists the tree for which the cartridge stands; where all is told attributes, read-only nodes and the
    /// lock state too.
    List { all: bool },
    /// `generations`, which tells the generations that the data partition of the cartridge still has.
    Generations,
    /// `view`, which lists the tree of a generation, or reads a file of it.
    View(ViewWords),
    /// `format`, which makes the cartridge this empty volume.
    Format(FormatWords),
    /// `serve`, which runs a script on the volume of the cartridge. Every moment is the given one, or else the clock's.
    Serve { at: Option<Moment> },
    /// `make`, which runs a made script on the volume of the cartridge: so many calls of each of eight sessions, 1,024
    /// at most. Every moment is the given one, or else the clock's.
    Make { count: u32, at: Option<Moment> },
}

/// What words ask for, without the program's name.
///
/// # Errors
///
/// `Form` where they are of no command's form, and `NoMemory` where memory was refused.
pub fn read_words(alloc: Global, words: &[String]) -> Result<Command, WordsErr>
    ensures { IsSpelledBy words.now result }
{
    if words.is_empty() {
        return Err(WordsErr::Form);
    }
    let name = words[0].as_str();
    if name == "plain" {
        return read_plain(alloc, &words[1..]);
    }
    if words.len() < 2 {
        return Err(WordsErr::Form);
    }
    if name == "label" {
        return read_bare(alloc, "label", &words[2..], Command::Label);
    }
    if name == "list" {
        return read_list(alloc, &words[2..]);
    }
    if name == "format" {
        return read_format(alloc, &words[2..]);
    }
    if name == "serve" {
        return read_serve(alloc, &words[2..]);
    }
    if name == "make" {
        return read_make(alloc, &words[2..]);
    }
    if name == "generations" {
        return read_bare(alloc, "generations", &words[2..], Command::Generations);
    }
    if name == "view" {
        return read_viewed(alloc, &words[2..]);
    }
    Err(WordsErr::Form)
}

/// What the words of `plain` ask for, behind its name.
fn read_plain(alloc: Global, words: &[String]) -> Result<Command, WordsErr>
    ensures { IsReadAs (map string_bytes words.now) result }
{
    match read_option(alloc, "plain", words) {
        Ok(at) => Ok(Command::Plain { at }),
        Err(error) => Err(error),
    }
}

/// What the words of `serve` ask for, behind its folder.
fn read_serve(alloc: Global, words: &[String]) -> Result<Command, WordsErr>
    ensures { IsServeRead (map string_bytes words.now) result }
{
    match read_option(alloc, "serve", words) {
        Ok(at) => Ok(Command::Serve { at }),
        Err(error) => Err(error),
    }
}

/// What the words of `list` ask for, behind its folder.
fn read_list(alloc: Global, words: &[String]) -> Result<Command, WordsErr>
    ensures { IsListRead (map string_bytes words.now) result }
{
    let Ok(command) = list_command(alloc) else {
        return Err(WordsErr::NoMemory);
    };
    match find_in(command, words) {
        Ok(found) => Ok(Command::List {
            all: is_given(found.get_str("all")),
        }),
        Err(error) => Err(error),
    }
}

/// What the words of `make` ask for, behind its folder.
fn read_make(alloc: Global, words: &[String]) -> Result<Command, WordsErr>
    ensures { IsMakeRead (map string_bytes words.now) result }
{
    let Ok(command) = make_command(alloc) else {
        return Err(WordsErr::NoMemory);
    };
    let found = match find_in(command, words) {
        Ok(found) => found,
        Err(error) => return Err(error),
    };
    let Some(count) = read_count(found.get_str("count")) else {
        return Err(WordsErr::Form);
    };
    match read_at(found.get_str("at")) {
        Ok(at) => Ok(Command::Make { count, at }),
        Err(error) => Err(error),
    }
}

/// A number of 1 to 1,024.
fn read_count(text: Option<&str>) -> Option<u32>
    ensures { result ≡ count_told (option_map (λ t. t.now) text.entry) }
{
    let count = read_number(text?)?;
    if count >= 1 && count <= u64::from(MOST_CALLS) {
        Some(count as u32)
    } else {
        None
    }
}

/// The moment of a command that has no other option than `--at`.
fn read_option(alloc: Global, name: &str, words: &[String]) -> Result<Option<Moment>, WordsErr>
    ensures { IsMomentTaken name.now (map string_bytes words.now) result }
{
    let Ok(command) = command_with_moment(alloc, name) else {
        return Err(WordsErr::NoMemory);
    };
    let found = match find_in(command, words) {
        Ok(found) => found,
        Err(error) => return Err(error),
    };
    match read_at(found.get_str("at")) {
        Ok(at) => Ok(at),
        Err(error) => Err(error),
    }
}

/// The command, where no word follows its folder.
fn read_bare(
    alloc: Global,
    name: &str,
    words: &[String],
    command: Command,
) -> Result<Command, WordsErr>
    ensures { IsTakenAs (bare name.now) (map string_bytes words.now) command result }
{
    match find_in(bare_command(alloc, name), words) {
        Ok(_) => Ok(command),
        Err(error) => Err(error),
    }
}

/// The command `format`, where its words follow its folder.
fn read_format(alloc: Global, words: &[String]) -> Result<Command, WordsErr>
    ensures { IsVolumeAsked (map string_bytes words.now) result }
{
    match read_volume(alloc, words) {
        Ok(asked) => Ok(Command::Format(asked)),
        Err(error) => Err(error),
    }
}

/// The command `view`, where its words follow its folder.
fn read_viewed(alloc: Global, words: &[String]) -> Result<Command, WordsErr>
    ensures { IsViewTaken (map string_bytes words.now) result }
{
    match read_view(alloc, words) {
        Ok(asked) => Ok(Command::View(asked)),
        Err(error) => Err(error),
    }
}
