ghost use Rattle.std.specs.Prelude.{◌≡◌, ◌↔◌, ◌∷◌, ◌<◌, [], IsTrue, MatchOption, length};
ghost use Rattle.std.specs.Str.{chars};
ghost use Rattle.tape_layout.specs.PlacementPolicy.Computed as computed;
ghost use Rattle.tape_layout.specs.PlacementPolicy.Patterns.{Matches};
ghost use Rattle.tape_layout.specs.PlacementPolicy.Walks.{IsFound, IsShorter, IsWalk};

/// How a pattern was followed along a text.
enum Walk<'a> {
    /// Up to a `*`: what stands behind it, and the text that is left.
    Star { left: &'a str, at: &'a str },
    /// To the end of both.
    Whole,
    /// It can't be followed further.
    Stuck,
}

/// Whether a pattern stands for a name: `*` stands for any run of characters, `?` for any one, and each other
/// character for itself. Takes no memory.
pub fn matches(pattern: &str, name: &str) -> bool
    ensures stands { IsTrue result ↔ Matches pattern.now name.now }
    ensures value { result ≡ computed.matches pattern.now name.now }
{
    reaches_end(pattern, name)
}

/// Follows a pattern to its end. Each `*` takes as few characters as it can.
fn reaches_end(pattern: &str, name: &str) -> bool
    ensures { IsTrue result ↔ Matches pattern.now name.now }
{
    let (mut left, mut at) = match follow(pattern, name) {
        Walk::Star { left, at } => (left, at),
        Walk::Whole => return true,
        Walk::Stuck => return false,
    };
    loop {
        match find(left, at) {
            Walk::Star {
                left: next,
                at: further,
            } => {
                left = next;
                at = further;
            }
            Walk::Whole => return true,
            Walk::Stuck => return false,
        }
    }
}

/// Follows a pattern behind a `*` from the first place of the text on from which that can be done.
fn find<'a>(pattern: &'a str, text: &'a str) -> Walk<'a>
    ensures found { IsFound (chars pattern.now) (chars text.now) result }
    ensures shorter { IsShorter result (length pattern.now) }
{
    let mut at = text;
    loop {
        match follow(pattern, at) {
            Walk::Stuck => match first_char(at) {
                Some((_, rest)) => at = rest,
                None => return Walk::Stuck,
            },
            other => return other,
        }
    }
}

/// Follows a pattern along a text, up to its first `*`.
fn follow<'a>(pattern: &'a str, text: &'a str) -> Walk<'a>
    ensures walk { IsWalk (chars pattern.now) (chars text.now) result }
    ensures shorter { IsShorter result (length pattern.now) }
{
    let mut left = pattern;
    let mut at = text;
    while let Some((p, behind)) = first_char(left) {
        if p == '*' {
            return Walk::Star { left: behind, at };
        }
        let Some((c, rest)) = first_char(at) else {
            return Walk::Stuck;
        };
        if p != '?' && p != c {
            return Walk::Stuck;
        }
        left = behind;
        at = rest;
    }
    match first_char(at) {
        None => Walk::Whole,
        Some(_) => Walk::Stuck,
    }
}

/// The first character of a text, and what stands behind it.
fn first_char(text: &str) -> Option<(char, &str)>
    ensures parts { MatchOption result (chars text.now ≡ []) (λ parts. chars text.now ≡ parts.0 ∷ chars parts.1.now) }
    ensures shorter { MatchOption result (text.now ≡ []) (λ parts. length parts.1.now < length text.now) }
{
    let mut rest = text.chars();
    match rest.next() {
        Some(c) => Some((c, rest.as_str())),
        None => None,
    }
}
