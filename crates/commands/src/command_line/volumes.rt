//! What the words of `format` ask for.

ghost use Rattle.std.specs.Prelude.{◌≡◌, ◌==◌, Some, map, option_map, string_bytes, IfOk};
ghost use Rattle.std.specs.List.{slice_split};
ghost use Rattle.clap.specs.Words.{first_value, found_of};
ghost use Rattle.session_script.specs.Words.{number_of};
ghost use Rattle.commands.specs.CommandLine.Options.{IsMomentOf, IsMomentRead, IsReadTo};
ghost use Rattle.commands.specs.CommandLine.Volumes.{IsAskedBy, IsTold, IsVolumeForm, block_told, given_by, name_told};
ghost use Rattle.commands.specs.CommandLine.Volumes.{identifier_told, patterns_told, policy_told, uuid_told};

use crate::command_line::forms::{WordsErr, find_in, format_command};
use clap::ArgMatches;
use format_volume::{FormatSpec, spec_fault};
use index_model::{Policy, TextList};
use std::alloc::{AllocError, Global};
use tape_types::{Moment, NoMemory, Text, parse_time, parse_uuid};

/// What the words of `format` ask for.
#[derive(Drop)]
pub struct FormatWords {
    /// The volume, whose time is that of `at`; without one, the beginning of 1970.
    pub volume: FormatSpec,
    /// The time of the formatting, where it isn't the clock's.
    pub at: Option<Moment>,
}

/// What the words of `format` ask for, behind its folder.
pub fn read_volume(alloc: Global, words: &[String]) -> Result<FormatWords, WordsErr>
    ensures { IsAskedBy (IsVolumeForm (map string_bytes words.now)) result }
{
    let Ok(command) = format_command(alloc) else {
        return Err(WordsErr::NoMemory);
    };
    let found = match find_in(command, words) {
        Ok(found) => found,
        Err(error) => return Err(error),
    };
    let asked = match read_values(alloc, &found) {
        Ok(asked) => asked,
        Err(error) => return Err(error),
    };
    match spec_fault(&asked.volume) {
        Some(_) => Err(WordsErr::Form),
        None => Ok(asked),
    }
}

/// The values of the texts that were found.
fn read_values(alloc: Global, found: &ArgMatches) -> Result<FormatWords, WordsErr>
    ensures { IsAskedBy (IsTold (given_by (first_value (found_of found.now)))) result }
{
    let identifier = read_identifier(found.get_str("volid"))?;
    let uuid = read_uuid(found.get_str("uuid"))?;
    let block = read_block(found.get_str("block"))?;
    let name = read_name(alloc, found.get_str("name"))?;
    let policy = read_policy(alloc, found.get_str("ip-size"), found.get_str("ip-names"))?;
    let at = read_at(found.get_str("at"))?;
    let volume = FormatSpec {
        volume: identifier,
        uuid,
        name,
        block,
        policy,
        at: at.unwrap_or(Moment { secs: 0, nanos: 0 }),
    };
    Ok(FormatWords { volume, at })
}

fn read_identifier(text: Option<&str>) -> Result<[u8; 6], WordsErr>
    ensures { IsReadTo (identifier_told (option_map (λ t. t.now) text.entry)) result }
{
    let Some(text) = text else {
        return Err(WordsErr::Form);
    };
    if text.len() != 6 {
        return Err(WordsErr::Form);
    }
    let mut volume = [0; 6];
    volume.copy_from_slice(text.as_bytes());
    Ok(volume)
}

fn read_uuid(text: Option<&str>) -> Result<u128, WordsErr>
    ensures { IsReadTo (uuid_told (option_map (λ t. t.now) text.entry)) result }
{
    match text {
        Some(text) => parse_uuid(text.as_bytes()).ok_or(WordsErr::Form),
        None => Err(WordsErr::Form),
    }
}

/// 524,288 where there is no text.
fn read_block(text: Option<&str>) -> Result<u32, WordsErr>
    ensures { IsReadTo (block_told (option_map (λ t. t.now) text.entry)) result }
{
    let Some(text) = text else {
        return Ok(524_288);
    };
    let Some(size) = read_number(text) else {
        return Err(WordsErr::Form);
    };
    if size < 1 << 32 {
        Ok(size as u32)
    } else {
        Err(WordsErr::Form)
    }
}

/// The empty name where there is no text.
fn read_name(alloc: Global, text: Option<&str>) -> Result<Text, WordsErr>
    ensures { IsReadTo (Some (name_told (option_map (λ t. t.now) text.entry))) result }
{
    match text {
        Some(text) => Ok(Text::from_string(String::from_str(alloc, text)?)),
        None => Ok(Text::from_string(String::new(alloc))),
    }
}

/// No policy without a size, and then no patterns either.
fn read_policy(
    alloc: Global,
    size: Option<&str>,
    names: Option<&str>,
) -> Result<Option<Policy>, WordsErr>
    ensures { IsReadTo (policy_told (option_map (λ t. t.now) size.entry) (option_map (λ t. t.now) names.entry)) result }
{
    let Some(size) = size else {
        return if names.is_none() {
            Ok(None)
        } else {
            Err(WordsErr::Form)
        };
    };
    let Some(size) = read_number(size) else {
        return Err(WordsErr::Form);
    };
    let names = read_patterns(alloc, names)?;
    Ok(Some(Policy { size, names }))
}

/// The patterns between the slashes of a text.
fn read_patterns(alloc: Global, list: Option<&str>) -> Result<TextList, NoMemory>
    ensures { IfOk result (λ names. names ≡ patterns_told (option_map (λ t. t.now) list.entry)) }
{
    let mut names = TextList::new(alloc);
    let Some(list) = list else {
        return Ok(names);
    };
    let pieces = pieces_of(alloc, list)?;
    for piece in pieces.as_slice() {
        names.push(piece)?;
    }
    Ok(names)
}

fn pieces_of(alloc: Global, list: &str) -> Result<Vec<&str>, AllocError>
    ensures { IfOk result (λ pieces. map (λ t. t.now) pieces.items ≡ slice_split (λ b. b == 47) list.now) }
{
    list.split('/').collect(alloc)
}

/// The number that 1 to 20 decimal digits spell, where it is below 2^64.
pub fn read_number(text: &str) -> Option<u64>
    ensures { result ≡ number_of text.now }
{
    let digits = text.as_bytes();
    if digits.is_empty() || digits.len() > 20 {
        return None;
    }
    let mut value = 0u128;
    for digit in digits {
        if !digit.is_ascii_digit() {
            return None;
        }
        value = value * 10 + u128::from(*digit - b'0');
    }
    u64::try_from(value).ok()
}

/// The moment of `--at`, or none where there is no text.
pub fn read_at(text: Option<&str>) -> Result<Option<Moment>, WordsErr>
    ensures { IsMomentRead (option_map (λ t. t.now) text.entry) result }
{
    let Some(text) = text else {
        return Ok(None);
    };
    match read_moment(text) {
        Some(at) => Ok(Some(at)),
        None => Err(WordsErr::Form),
    }
}

/// The moment that a text tells, where it is one of the years 1970 to 9999.
fn read_moment(text: &str) -> Option<Moment>
    ensures { IsMomentOf text.now result }
{
    match parse_time(text.as_bytes()) {
        Some(at) => { if at.secs >= 0 { Some(at) } else { None } }
        None => None,
    }
}
