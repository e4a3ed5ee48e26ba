//! How a line of the log begins: all of it that is short.

ghost use Rattle.std.specs.Prelude.{◌≡◌, ◌+◌, ◌≤◌, [], ◌++◌, length, codes, decimal};
ghost use Rattle.std.specs.List.{flat_map};
ghost use Rattle.session_script.specs.LogText.{answer_text, bytes_text, entry_text, facts_text};
ghost use Rattle.session_script.specs.LogText.{place_text, reply_text};
ghost use Rattle.session_script.specs.LogLines.{end_text, tail_text};

use crate::logs::Reply;
use crate::short::Short;
use crate::tails::{End, Tail};
use plain_tree::{Answer, Entry, Facts, Placed, Sort};

/// Puts the place of a call, and whose it is.
pub fn put_place(short: &mut Short, place: u64, placed: &Placed)
    requires { short.old ≡ [] }
    ensures text { short.new ≡ place_text place placed.now }
    ensures few { length short.new ≤ 123 }
{
    short.put_number(place);
    short.push(b' ');
    short.put_number(u64::from(placed.who));
    short.push(b'.');
    short.put_number(u64::from(placed.nth));
    short.push(b' ');
}

/// Puts the beginning of a reply, and gives the rest of the line.
pub fn put_reply<'a>(short: &mut Short, reply: &'a Reply) -> Tail<'a>
    requires { length short.old ≤ 123 }
    ensures { short.new ++ tail_text result ≡ short.old ++ (reply_text reply.now ++ codes "\n") }
{
    match reply {
        Reply::Answer(answer) => put_answer(short, answer),
        Reply::Full { need, limit } => put_numbers(short, b"full ", *need, *limit),
        Reply::Fault(counts) => put_numbers(short, b"fault ", counts.before, counts.after),
        Reply::NoMemory => put_word(short, b"nomemory"),
    }
}

fn put_answer<'a>(short: &mut Short, answer: &'a Answer) -> Tail<'a>
    requires { length short.old ≤ 123 }
    ensures { short.new ++ tail_text result ≡ short.old ++ (answer_text answer.now ++ codes "\n") }
{
    match answer {
        Answer::Done => put_word(short, b"ok"),
        Answer::Synced => put_word(short, b"synced"),
        Answer::Got(bytes) => put_bytes(short, bytes.as_slice()),
        Answer::Names(lines) => put_names(short, lines.as_slice()),
        Answer::Facts(facts) => put_facts(short, facts),
        Answer::Refused(refusal) => {
            short.put(b"no ");
            put_word(short, refusal.as_str().as_bytes())
        }
    }
}

/// The end of a line, and nothing else.
#[tactic(auto, unfolding(crate::specs::Escapes::escaped))]
fn end_alone<'a>(end: End) -> Tail<'a>
    ensures { tail_text result ≡ end_text end }
{
    Tail {
        hex: b"",
        text: b"",
        entries: &[],
        end,
    }
}

fn put_word<'a>(short: &mut Short, word: &[u8]) -> Tail<'a>
    requires { length short.old + length word.now ≤ 256 }
    ensures { short.new ++ tail_text result ≡ short.old ++ (word.now ++ codes "\n") }
{
    short.put(word);
    end_alone(End::Feed)
}

/// A word and two numbers.
fn put_numbers<'a>(short: &mut Short, word: &[u8], first: u64, second: u64) -> Tail<'a>
    requires { length short.old + length word.now ≤ 170 }
    ensures { short.new ++ tail_text result
        ≡ short.old ++ ((word.now ++ decimal first ++ codes " " ++ decimal second) ++ codes "\n") }
{
    short.put(word);
    short.put_number(first);
    short.push(b' ');
    short.put_number(second);
    end_alone(End::Feed)
}

/// How many bytes were read, and the bytes.
#[tactic(auto, unfolding(crate::specs::Escapes::escaped))]
fn put_bytes<'a>(short: &mut Short, bytes: &'a [u8]) -> Tail<'a>
    requires { length short.old ≤ 123 }
    ensures { short.new ++ tail_text result ≡ short.old ++ ((codes "bytes " ++ bytes_text bytes.now) ++ codes "\n") }
{
    short.put(b"bytes ");
    short.put_number(bytes.len() as u64);
    if !bytes.is_empty() {
        short.push(b' ');
    }
    Tail {
        hex: bytes,
        text: b"",
        entries: &[],
        end: End::Feed,
    }
}

/// How many entries there are, and each of them.
#[tactic(auto, unfolding(crate::specs::Escapes::escaped))]
fn put_names<'a>(short: &mut Short, entries: &'a [Entry]) -> Tail<'a>
    requires { length short.old ≤ 123 }
    ensures { short.new ++ tail_text result
        ≡ short.old ++ ((codes "names " ++ decimal (length entries.now) ++ flat_map entry_text entries.now)
        ++ codes "\n") }
{
    short.put(b"names ");
    short.put_number(entries.len() as u64);
    Tail {
        hex: b"",
        text: b"",
        entries,
        end: End::Feed,
    }
}

/// The facts of a node, with its modify time at the end of the line.
fn put_facts<'a>(short: &mut Short, facts: &'a Facts) -> Tail<'a>
    requires { length short.old ≤ 123 }
    ensures { short.new ++ tail_text result ≡ short.old ++ (facts_text facts.now ++ codes "\n") }
{
    let end = End::Time(facts.times.modify);
    match facts.sort {
        Sort::Dir => {
            short.put(b"dir ");
            short.put_number(facts.uid);
            end_alone(end)
        }
        Sort::File => {
            short.put(b"file ");
            short.put_number(facts.uid);
            short.push(b' ');
            short.put_number(facts.length);
            end_alone(end)
        }
        Sort::Link => {
            short.put(b"link ");
            short.put_number(facts.uid);
            short.push(b' ');
            Tail {
                hex: b"",
                text: facts.text.as_str().as_bytes(),
                entries: &[],
                end,
            }
        }
    }
}
