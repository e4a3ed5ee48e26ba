//! What is told of generations, as text.

ghost use Rattle.std.specs.Prelude.{◌≡◌, ◌++◌, codes, decimal, IfOk, OnOk, string_bytes};
ghost use Rattle.std.specs.List.{flat_map};
ghost use Rattle.commands.specs.BasicCommands.Statuses.{status_number};
ghost use Rattle.generation_view.specs.ViewCommands.Texts.{broken_words, generation_line, generation_words};
ghost use Rattle.generation_view.specs.ViewCommands.Texts.{generations_text};
ghost use Rattle.generation_view.specs.ViewCommands.Texts.{view_status, view_text, why_text};

use crate::{BreakWhy, Generation, ViewErr};
use commands::basic_commands::{Status, bytes_of, drive_text, mount_status, mount_text};
use index_model::refusal_text;
use std::alloc::Global;
use tape_types::{Bytes, NoMemory, Place, time_text};

/// A line for each generation, and one with their count.
pub fn generations_text(alloc: Global, told: &[Generation]) -> Result<Bytes, NoMemory>
    ensures { IfOk result (λ text. text ≡ generations_text told.now) }
{
    let mut text = Vec::new(alloc);
    for generation in told {
        push_generation(alloc, &mut text, generation)?;
    }
    let count = told.len();
    text.extend_from_slice(format!(in alloc; "generations {count}\n")?.as_bytes())?;
    Ok(Bytes::from_vec(text))
}

fn push_generation(
    alloc: Global,
    text: &mut Vec<u8>,
    generation: &Generation,
) -> Result<(), NoMemory>
    ensures { OnOk result (text.new.items ≡ text.old.items ++ generation_line generation.now) }
{
    text.extend_from_slice(number_words(alloc, generation)?.as_bytes())?;
    text.extend_from_slice(&time_text(generation.updated))?;
    text.extend_from_slice(count_words(alloc, generation.nodes)?.as_bytes())?;
    Ok(())
}

/// The number of a generation, and the first block of its index.
fn number_words(alloc: Global, generation: &Generation) -> Result<String, NoMemory>
    ensures { IfOk result (λ words. string_bytes words ≡ generation_words generation.now.number generation.now.block) }
{
    let number = generation.number;
    let block = generation.block;
    Ok(format!(in alloc; "g {number} {block} ")?)
}

/// How many nodes there are, with which a line ends.
fn count_words(alloc: Global, nodes: u32) -> Result<String, NoMemory>
    ensures { IfOk result (λ words. string_bytes words ≡ codes " " ++ (decimal nodes ++ codes "\n")) }
{
    Ok(format!(in alloc; " {nodes}\n")?)
}

/// Why no generation is told.
pub fn view_text(alloc: Global, error: ViewErr) -> Result<Bytes, NoMemory>
    ensures { IfOk result (λ text. text ≡ view_text error) }
{
    match error {
        ViewErr::Mount(fault) => mount_text(alloc, fault),
        ViewErr::Broken(place, why) => broken_text(alloc, place, why),
        ViewErr::NoGeneration(number) => {
            Ok(bytes_of(format!(in alloc; "volume NoGeneration {number}\n")?))
        }
        ViewErr::Drive(counts) => drive_text(alloc, counts),
        ViewErr::NoMemory => Ok(bytes_of(format!(in alloc; "memory\n")?)),
    }
}

/// Where a chain breaks, and why.
fn broken_text(alloc: Global, place: Place, why: BreakWhy) -> Result<Bytes, NoMemory>
    ensures { IfOk result (λ text. text ≡ view_text (ViewErr.Broken place why)) }
{
    let mut text = bytes_of(broken_words(alloc, place.pos)?);
    text.extend(why_text(alloc, why)?.as_slice())?;
    text.extend(b"\n")?;
    Ok(text)
}

fn broken_words(alloc: Global, pos: u64) -> Result<String, NoMemory>
    ensures { IfOk result (λ words. string_bytes words ≡ broken_words pos) }
{
    Ok(format!(in alloc; "volume Broken {pos} ")?)
}

/// The first test that an index fails.
fn why_text(alloc: Global, why: BreakWhy) -> Result<Bytes, NoMemory>
    ensures { IfOk result (λ text. text ≡ why_text why) }
{
    match why {
        BreakWhy::Text(refusal) => {
            let mut text = bytes_of(format!(in alloc; "Text ")?);
            text.extend(refusal_text(alloc, refusal)?.as_slice())?;
            Ok(text)
        }
        BreakWhy::Volume => Ok(bytes_of(format!(in alloc; "Volume")?)),
        BreakWhy::Pointer => Ok(bytes_of(format!(in alloc; "Pointer")?)),
        BreakWhy::Rises => Ok(bytes_of(format!(in alloc; "Rises")?)),
        BreakWhy::Extent(uid) => Ok(bytes_of(format!(in alloc; "Extent {uid}")?)),
    }
}

/// The status with which a run ends where no generation is told.
pub fn view_status(error: ViewErr) -> Status
    ensures { status_number result ≡ view_status error }
{
    match error {
        ViewErr::Mount(fault) => mount_status(fault),
        ViewErr::Broken(_, _) | ViewErr::NoGeneration(_) => Status::Volume,
        ViewErr::Drive(_) => Status::Drive,
        ViewErr::NoMemory => Status::NoMemory,
    }
}
