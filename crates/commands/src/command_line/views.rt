//! What the words of `view` ask for.

ghost use Rattle.std.specs.Prelude.{◌≡◌, map, option_map, string_bytes};
ghost use Rattle.commands.specs.CommandLine.Options.{IsReadTo};
ghost use Rattle.commands.specs.CommandLine.Views.{IsViewRead, asked_of, generation_told, path_told};

use crate::command_line::forms::{WordsErr, find_in, is_given, view_command};
use crate::command_line::paths::read_path;
use crate::command_line::volumes::read_number;
use std::alloc::Global;
use tape_types::{List, Text};

/// What the words of `view` ask for.
#[derive(Drop)]
pub struct ViewWords {
    /// The generation, of 1 to 2^62.
    pub generation: u64,
    /// The path of the file that is read, where one is.
    pub path: Option<List<Text>>,
    /// Whether all is told of a tree that is listed.
    pub all: bool,
}

/// What the words of `view` ask for, behind its folder.
pub fn read_view(alloc: Global, words: &[String]) -> Result<ViewWords, WordsErr>
    ensures { IsViewRead (map string_bytes words.now) result }
{
    let Ok(command) = view_command(alloc) else {
        return Err(WordsErr::NoMemory);
    };
    let found = match find_in(command, words) {
        Ok(found) => found,
        Err(error) => return Err(error),
    };
    let Some(generation) = read_generation(found.get_str("generation")) else {
        return Err(WordsErr::Form);
    };
    let all = is_given(found.get_str("all"));
    match read_given(alloc, found.get_str("read")) {
        Ok(path) => asked_of(generation, path, all),
        Err(error) => Err(error),
    }
}

/// What is asked for, where not both a file and all of a tree are.
fn asked_of(generation: u64, path: Option<List<Text>>, all: bool) -> Result<ViewWords, WordsErr>
    ensures { result ≡ asked_of generation path all }
{
    if all && path.is_some() {
        return Err(WordsErr::Form);
    }
    Ok(ViewWords {
        generation,
        path,
        all,
    })
}

/// A number of 1 to 2^62.
fn read_generation(text: Option<&str>) -> Option<u64>
    ensures { result ≡ generation_told (option_map (λ t. t.now) text.entry) }
{
    let generation = read_number(text?)?;
    if generation >= 1 && generation <= 1 << 62 {
        Some(generation)
    } else {
        None
    }
}

/// The path of `--read`, or none where there is no text.
fn read_given(alloc: Global, text: Option<&str>) -> Result<Option<List<Text>>, WordsErr>
    ensures { IsReadTo (path_told (option_map (λ t. t.now) text.entry)) result }
{
    let Some(text) = text else {
        return Ok(None);
    };
    match read_path(alloc, text) {
        Ok(path) => Ok(Some(path)),
        Err(error) => Err(error),
    }
}
