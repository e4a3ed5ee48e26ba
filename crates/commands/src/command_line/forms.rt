//! The words behind a command's name and its folder, by clap.

ghost use Rattle.std.specs.Prelude.{◌≡◌, true, false, map, option_map, IfOk, string_bytes};
ghost use Rattle.clap.specs.Words.{app_of, is_simple_and_free, rule_of};
ghost use Rattle.commands.specs.CommandLine.Forms.{list_app, make_app};
ghost use Rattle.commands.specs.CommandLine.Options.{IsFoundIn, bare, flag, is_given, option, positional};
ghost use Rattle.commands.specs.CommandLine.Options.{with_moment};
ghost use Rattle.commands.specs.CommandLine.Views.{view_app};
ghost use Rattle.commands.specs.CommandLine.Volumes.{format_app, with_policy, with_sizes, with_volume};

use clap::error::ErrorKind;
use clap::{Arg, ArgAction, ArgMatches};
use std::alloc::{AllocError, Global};
use tape_types::NoMemory;

/// Why it isn't known what words ask for.
#[derive(Clone, Copy, Debug, PartialEq, Eq)]
pub enum WordsErr {
    /// They are of no form.
    Form,
    /// Memory was refused.
    NoMemory,
}

impl From<AllocError> for WordsErr {
    ghost use Rattle.std.specs.Prelude.{◌≡◌};
    ghost use Rattle.commands.specs.declared.command_line.forms.WordsErr.TheVariants as errors;

    ghost from_gives = { λ _ e. e ≡ errors.NoMemory };

    fn from(_e: AllocError) -> WordsErr {
        WordsErr::NoMemory
    }
}

impl From<NoMemory> for WordsErr {
    ghost use Rattle.std.specs.Prelude.{◌≡◌};
    ghost use Rattle.commands.specs.declared.command_line.forms.WordsErr.TheVariants as errors;

    ghost from_gives = { λ _ e. e ≡ errors.NoMemory };

    fn from(_e: NoMemory) -> WordsErr {
        WordsErr::NoMemory
    }
}

/// A command that takes no word and no option.
pub fn bare_command<'a>(alloc: Global, name: &'a str) -> clap::Command<'a>
    ensures { app_of result ≡ bare name.now }
{
    clap::Command::new(alloc, name)
        .no_binary_name(true)
        .disable_help_flag(true)
}

/// A command with the option `--at` alone.
pub fn command_with_moment<'a>(
    alloc: Global,
    name: &'a str,
) -> Result<clap::Command<'a>, AllocError>
    ensures { IfOk result (λ c. app_of c ≡ with_moment (bare name.now)) }
{
    bare_command(alloc, name).arg(option(alloc, "at"))
}

/// The command `format`: two words, and five options.
pub fn format_command<'a>(alloc: Global) -> Result<clap::Command<'a>, AllocError>
    ensures { IfOk result (λ c. app_of c ≡ format_app) }
{
    let command = add_volume(alloc, bare_command(alloc, "format"))?;
    let command = add_sizes(alloc, command)?;
    let command = add_policy(alloc, command)?;
    command.arg(option(alloc, "at"))
}

/// The command `list`: the option `--all`.
pub fn list_command<'a>(alloc: Global) -> Result<clap::Command<'a>, AllocError>
    ensures { IfOk result (λ c. app_of c ≡ list_app) }
{
    bare_command(alloc, "list").arg(flag(alloc, "all"))
}

/// The command `view`: a word, and the options `--read` and `--all`.
pub fn view_command<'a>(alloc: Global) -> Result<clap::Command<'a>, AllocError>
    ensures { IfOk result (λ c. app_of c ≡ view_app) }
{
    bare_command(alloc, "view")
        .arg(positional(alloc, "generation"))?
        .arg(option(alloc, "read"))?
        .arg(flag(alloc, "all"))
}

/// The command `make`: a word, and the option `--at`.
pub fn make_command<'a>(alloc: Global) -> Result<clap::Command<'a>, AllocError>
    ensures { IfOk result (λ c. app_of c ≡ make_app) }
{
    bare_command(alloc, "make")
        .arg(positional(alloc, "count"))?
        .arg(option(alloc, "at"))
}

fn add_volume<'a>(
    alloc: Global,
    command: clap::Command<'a>,
) -> Result<clap::Command<'a>, AllocError>
    ensures { IfOk result (λ c. app_of c ≡ with_volume (app_of command.entry)) }
{
    command
        .arg(positional(alloc, "volid"))?
        .arg(positional(alloc, "uuid"))
}

fn add_sizes<'a>(alloc: Global, command: clap::Command<'a>) -> Result<clap::Command<'a>, AllocError>
    ensures { IfOk result (λ c. app_of c ≡ with_sizes (app_of command.entry)) }
{
    command
        .arg(option(alloc, "block"))?
        .arg(option(alloc, "name"))
}

fn add_policy<'a>(
    alloc: Global,
    command: clap::Command<'a>,
) -> Result<clap::Command<'a>, AllocError>
    ensures { IfOk result (λ c. app_of c ≡ with_policy (app_of command.entry)) }
{
    command
        .arg(option(alloc, "ip-size"))?
        .arg(option(alloc, "ip-names"))
}

/// An option with one value.
fn option<'a>(alloc: Global, name: &'a str) -> Arg<'a>
    ensures rule { rule_of result ≡ option name.now }
    ensures global { result.global ≡ false }
{
    Arg::new(alloc, name).long(name).action(ArgAction::Set)
}

/// An option without a value.
fn flag<'a>(alloc: Global, name: &'a str) -> Arg<'a>
    ensures rule { rule_of result ≡ flag name.now }
    ensures global { result.global ≡ false }
{
    Arg::new(alloc, name).long(name).action(ArgAction::SetTrue)
}

/// A word that has to stand.
fn positional<'a>(alloc: Global, name: &'a str) -> Arg<'a>
    ensures rule { rule_of result ≡ positional name.now }
    ensures global { result.global ≡ false }
{
    Arg::new(alloc, name).required(true).action(ArgAction::Set)
}

/// What a command finds in words.
pub fn find_in<'a>(
    command: clap::Command<'a>,
    words: &'a [String],
) -> Result<ArgMatches<'a>, WordsErr>
    requires { is_simple_and_free (app_of command) ≡ true }
    ensures { IsFoundIn (app_of command.entry) (map string_bytes words.now) result }
{
    match command.try_get_matches_from(words) {
        Ok(found) => Ok(found),
        Err(error) => {
            if error.kind() == ErrorKind::OutOfMemory {
                Err(WordsErr::NoMemory)
            } else {
                Err(WordsErr::Form)
            }
        }
    }
}

/// Whether the words have an option without a value, by the text that stands for it.
pub fn is_given(text: Option<&str>) -> bool
    ensures { result ≡ is_given (option_map (λ t. t.now) text.entry) }
{
    match text {
        Some(word) => word == "true",
        None => false,
    }
}
