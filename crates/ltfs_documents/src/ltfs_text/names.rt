ghost use Rattle.std.specs.Prelude.{◌≡◌, ◌<◌, ◌==◌, ◌||◌, ℕ, List as Items, IfOk, false};
ghost use Rattle.std.specs.Char.{is_ascii_control};
ghost use Rattle.std.specs.Str.{IsUtf8};
ghost use Rattle.percent_encoding.specs.AsciiSet.{contains};
ghost use Rattle.ltfs_documents.specs.LtfsText.Names.{IsReadName, IsTextOf, decoded, has_special, written};

use percent_encoding::{AsciiSet, CONTROLS, ascii_set, percent_decode, percent_encode};
use std::alloc::{AllocError, Global};
use tape_types::{NoMemory, Text};

/// The bytes that are escaped, beside those past ASCII, in a text that is percent-encoded.
pub const ESCAPED: AsciiSet = ascii_set!(CONTROLS.add(b'%'));

/// How a name stands in a document (LTFS 2.4 on the name format). `text` has yet to be escaped
/// as XML asks; it has only characters that XML allows.
#[derive(Drop)]
pub struct NameText {
    pub text: Text,
    /// Whether the text is percent-encoded, as the attribute `percentencoded` says.
    pub percent: bool,
}

/// Why a text stands for no name.
#[derive(Clone, Copy, Debug, PartialEq, Eq)]
pub enum ReadNameErr {
    /// Its bytes, once they are decoded, aren't UTF-8.
    Utf8,
    /// Memory was refused.
    NoMemory,
}

impl From<AllocError> for ReadNameErr {
    ghost use Rattle.std.specs.Prelude.{◌≡◌};
    ghost use Rattle.ltfs_documents.specs.declared.ltfs_text.names.ReadNameErr.TheVariants as faults;

    ghost from_gives = { λ _ e. e ≡ faults.NoMemory };

    fn from(_e: AllocError) -> ReadNameErr {
        ReadNameErr::NoMemory
    }
}

/// The text of a name: the name itself, or, where it has a character below U+0020, or U+007F,
/// U+FFFE or U+FFFF, the percent-encoded form.
#[tactic(auto, using(crate::proofs::LtfsText::Texts::encodes_as))]
pub fn name_text(alloc: Global, name: &str) -> Result<NameText, NoMemory>
    ensures { IfOk result (λ t. t ≡ written name.now) }
{
    let percent = has_special(name);
    let mut text = String::new(alloc);
    if percent {
        percent_encode(name.as_bytes(), ESCAPED).append_to(&mut text)?;
    } else {
        text.push_str(name)?;
    }
    Ok(NameText {
        text: Text::from_string(text),
        percent,
    })
}

/// Whether a name has a character that isn't written as it is: one below U+0020, or U+007F, U+FFFE
/// or U+FFFF. Such a name is percent-encoded (LTFS 2.4 on the name format).
pub fn has_special(name: &str) -> bool
    ensures { result ≡ has_special name.now }
{
    name.chars().any(|c| c < ' ' || c == '\x7f' || c == '\u{fffe}' || c == '\u{ffff}')
}

/// The name that a text stands for, where the text is percent-encoded or not. A `%` that begins
/// no escape stands for itself.
pub fn read_name(alloc: Global, text: &str, percent: bool) -> Result<Text, ReadNameErr>
    ensures { IsReadName percent text.now result }
{
    if !percent {
        return Ok(Text::from_string(String::from_str(alloc, text)?));
    }
    let mut bytes = Vec::new(alloc);
    percent_decode(text.as_bytes()).append_to(&mut bytes)?;
    match String::from_utf8(bytes) {
        Ok(name) => Ok(Text::from_string(name)),
        Err(_) => Err(ReadNameErr::Utf8),
    }
}

/// Reading the text of a name gives that name, and no character of that text is special. What is
/// escaped of ASCII are the controls and `%`.
pub fn names_read_back()
    ensures back { (name : Items ℕ) → IsUtf8 name → IsTextOf (written name).percent (written name).text name }
    ensures plain { (name : Items ℕ) → IsUtf8 name → has_special (written name).text ≡ false }
    ensures escaped { (b : ℕ) → b < 128 → contains ESCAPED b ≡ (is_ascii_control b || (b == 37)) }
{}
