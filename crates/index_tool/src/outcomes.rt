ghost use Rattle.std.specs.Prelude.{◌≡◌, ◌++◌, codes, IfOk, string_bytes};
ghost use Rattle.index_model.specs.Telling as telling;
ghost use Rattle.index_tool.specs.Outcomes.{status_of, text_of};

use index_model::{IndexErr, refusal_text};
use std::alloc::Global;
use tape_types::{Bytes, NoMemory, Twin};

/// What a run comes to, before it is printed.
#[derive(Drop)]
pub enum Outcome {
    /// The input is the document of an index.
    Sound { generation: u64, nodes: u64 },
    /// The one text of the index.
    Written(Bytes),
    /// The words are no form of a command.
    Words,
    /// The input is no document of an index.
    Refused(IndexErr),
    /// The source failed: its count of faults before and after.
    Source(Twin),
    /// Memory was refused.
    NoMemory,
}

impl Outcome {
    /// The status with which the program ends.
    pub fn status(&self) -> u8
        ensures { result ≡ status_of self.now }
    {
        match self {
            Outcome::Sound { .. } | Outcome::Written(_) => 0,
            Outcome::Words => 1,
            Outcome::Refused(_) => 2,
            Outcome::Source(_) => 5,
            Outcome::NoMemory => 7,
        }
    }

    /// What is printed.
    pub fn into_text(self, alloc: Global) -> Result<Bytes, NoMemory>
        ensures { IfOk result (λ text. text ≡ text_of self) }
    {
        match self {
            Outcome::Sound { generation, nodes } => {
                Ok(bytes_of(format!(in alloc; "ok {generation} {nodes}\n")?))
            }
            Outcome::Written(text) => Ok(text),
            Outcome::Words => Ok(bytes_of(format!(in alloc; "words\n")?)),
            Outcome::Refused(refusal) => line_of(alloc, refusal),
            Outcome::Source(counts) => {
                let before = counts.before;
                let after = counts.after;
                Ok(bytes_of(format!(in alloc; "source {before} {after}\n")?))
            }
            Outcome::NoMemory => Ok(bytes_of(format!(in alloc; "memory\n")?)),
        }
    }
}

fn line_of(alloc: Global, refusal: IndexErr) -> Result<Bytes, NoMemory>
    ensures { IfOk result (λ text. text ≡ telling.refusal_text refusal ++ codes "\n") }
{
    let mut text = refusal_text(alloc, refusal)?;
    text.extend(b"\n")?;
    Ok(text)
}

fn bytes_of(text: String) -> Bytes
    ensures { result ≡ string_bytes text }
{
    Bytes::from_vec(text.into_bytes())
}
