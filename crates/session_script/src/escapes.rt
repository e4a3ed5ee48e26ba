ghost use Rattle.std.specs.Prelude.{◌≡◌, ◌++◌, OnErr, OnOk, string_bytes};
ghost use Rattle.session_script.specs.Escapes.{escaped, is_escaped};

use percent_encoding::{AsciiSet, CONTROLS, ascii_set, percent_encode};
use tape_types::NoMemory;

/// The ASCII bytes that are escaped.
const ESCAPED: AsciiSet = ascii_set!(CONTROLS.add(b' ').add(b'%'));

/// Appends a text in which controls, spaces, percent signs and all bytes past ASCII are escaped.
#[tactic(auto, using(crate::proofs::EscapedBytes::same_escapes))]
pub fn push_escaped(words: &mut String, text: &[u8]) -> Result<(), NoMemory>
    ensures ok { OnOk result (string_bytes words.new ≡ string_bytes words.old ++ escaped text.now) }
    ensures err { OnErr result (string_bytes words.new ≡ string_bytes words.old) }
{
    percent_encode(text, ESCAPED).append_to(words)?;
    Ok(())
}

/// Whether a byte is escaped.
pub fn is_escaped(byte: u8) -> bool
    ensures { result ≡ is_escaped byte }
{
    byte <= b' ' || byte == b'%' || byte >= 127
}
