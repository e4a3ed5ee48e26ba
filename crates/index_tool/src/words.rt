ghost use Rattle.index_tool.specs.Tool.{IsCommandOf, IsSpelledBy};

/// What is asked for.
#[derive(Clone, Copy, Debug, PartialEq, Eq)]
pub enum Command {
    /// Whether the input is the document of an index.
    Check,
    /// The one text of that index.
    Canon,
}

/// The command that words spell.
pub fn read_words(words: &[String]) -> Option<Command>
    ensures { IsSpelledBy words.now result }
{
    match words {
        [word] => command_of(word.as_bytes()),
        _ => None,
    }
}

fn command_of(word: &[u8]) -> Option<Command>
    ensures { IsCommandOf word.now result }
{
    if word == b"check".as_slice() {
        return Some(Command::Check);
    }
    if word == b"canon".as_slice() {
        return Some(Command::Canon);
    }
    None
}
