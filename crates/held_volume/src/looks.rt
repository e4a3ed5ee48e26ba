//! Answers of calls that look at the tree alone.

ghost use Rattle.std.specs.Prelude.{◌≡◌, Bool, IfOk};
ghost use Rattle.extent_map.specs.Cells.{Tape};
ghost use Rattle.plain_tree.specs.Calls.{answer};
ghost use Rattle.plain_tree.specs.Paths.{Path};
ghost use Rattle.file_tree.specs.Tree.{plain_of};
ghost use Rattle.tape_layout.specs.Plans.{Plan};
ghost use Rattle.space_laws.specs.Standing.{Given, Standing};
ghost use Rattle.held_volume.specs.Reads.{IsPlanOfAtMost, IsReadPlan, IsReadable};
ghost use Rattle.held_volume.specs.Stocks.{IsStock, stocked};
ghost use Rattle.held_volume.specs.declared.volume_sync.frames.Frame.{Frame};

use extent_map::Piece;
use file_tree::{Found, Tree};
use plain_tree::{Answer, Call, Lines, Refusal, Sort};
use std::alloc::Global;
use tape_types::{List, NoMemory, Text};

/// What a listing of a path is answered.
pub fn list(tree: &Tree, alloc: Global, path: &[Text]) -> Result<Answer, NoMemory>
    ensures { IfOk result (λ a. (tape : Tape) → a ≡ answer (plain_of tape tree.now) (Call.Listing path.now)) }
{
    match tree.find(path) {
        Found::Node(number) => match tree.sort(number) {
            Sort::Dir => match tree.children(alloc, number) {
                Ok(entries) => Ok(Answer::Names(Lines::new(alloc, entries)?)),
                Err(e) => Err(e),
            },
            Sort::File => Ok(Answer::Refused(Refusal::NotDir)),
            Sort::Link => Ok(Answer::Refused(Refusal::NotDir)),
        },
        Found::Missing => Ok(Answer::Refused(Refusal::NotFound)),
        Found::NotDir => Ok(Answer::Refused(Refusal::NotDir)),
    }
}

/// What is told of the node at a path.
pub fn stat(tree: &Tree, alloc: Global, path: &[Text]) -> Result<Answer, NoMemory>
    ensures { IfOk result (λ a. (tape : Tape) → a ≡ answer (plain_of tape tree.now) (Call.Stat path.now)) }
{
    match tree.find(path) {
        Found::Node(number) => match tree.facts(alloc, number) {
            Ok(facts) => Ok(Answer::Facts(facts)),
            Err(e) => Err(e),
        },
        Found::Missing => Ok(Answer::Refused(Refusal::NotFound)),
        Found::NotDir => Ok(Answer::Refused(Refusal::NotDir)),
    }
}

/// What a key of the node at a path is answered.
pub fn get_key(tree: &Tree, alloc: Global, path: &[Text], key: &Text) -> Result<Answer, NoMemory>
    ensures { IfOk result (λ a. (tape : Tape) → a ≡ answer (plain_of tape tree.now) (Call.Getx path.now key.now)) }
{
    match tree.find(path) {
        Found::Node(number) => match tree.get_key(number, key.as_str()) {
            Some(value) => match value.try_clone(alloc) {
                Ok(copy) => Ok(Answer::Got(copy)),
                Err(e) => Err(e),
            },
            None => Ok(Answer::Refused(Refusal::NoKey)),
        },
        Found::Missing => Ok(Answer::Refused(Refusal::NotFound)),
        Found::NotDir => Ok(Answer::Refused(Refusal::NotDir)),
    }
}

/// The pieces of at most so many bytes of a file from an offset on, up to its end.
pub fn plan(
    tree: &Tree,
    alloc: Global,
    file: u32,
    offset: u64,
    count: u64,
) -> Result<List<Piece>, NoMemory>
    requires { (path : Path) × IsReadable tree.now path file }
    ensures reads { IfOk result (λ pieces. (path : Path) → IsReadable tree.now path file → (l : Plan) (f : Frame)
        (tape : Tape) (g : Given) (on : Bool) (st : Standing)
        → IsStock tape g on st (stocked tree.now l f) → IsReadPlan tape st tree.now path offset count pieces) }
    ensures most { IfOk result (λ pieces. IsPlanOfAtMost tree.now.block_size count pieces) }
{
    // The tree is good.
    let _count = tree.count();
    let extents = tree.extents(file);
    let from = offset.min(extents.length());
    let within = count.min(extents.length() - from);
    extents.plan(alloc, from, within)
}
