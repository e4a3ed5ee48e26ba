ghost use Rattle.std.specs.Prelude.{OnOk, IfErr};
ghost use Rattle.std.specs.Io.KnownBytes.{Appends};
ghost use Rattle.extent_map.specs.Cells.{Tape};
ghost use Rattle.file_tree.specs.Tree.{plain_of};
ghost use Rattle.tree_listing.specs.Listing.{listing_text, IsCutShort};
ghost use Rattle.tree_listing.specs.Steps.{HasListCause};

use crate::errors::ListErr;
use crate::listing::write_listing;
use file_tree::{Letters, Tree};
use index_model::Spot;
use std::alloc::Global;
use tape_edge::Sink;

/// A listing tells no extents, so any letters serve.
const LETTERS: Letters = (b'a', b'b');

/// Writes a line for each node of a tree, in the order of the paths, and a line for the index that tells the tree; and
/// where all is told, what `write_listing` says.
///
/// # Errors
///
/// As `write_listing`.
pub fn write_tree<K: Sink>(
    alloc: Global,
    all: bool,
    tree: &Tree,
    generation: u64,
    spot: Spot,
    out: &mut K,
) -> Result<(), ListErr>
    ensures done { OnOk result ((tape : Tape) → Appends (K.written out.old) (K.written out.new)
        (listing_text all generation spot (plain_of tape tree.now))) }
    ensures cut_short { IfErr result (λ e. (tape : Tape)
        → IsCutShort all e (listing_text all generation spot (plain_of tape tree.now)) (plain_of tape tree.now)
        (K.written out.old) (K.written out.new)) }
    ensures cause { HasListCause (K.faults out.old) (K.faults out.new) result }
{
    // The tree is good.
    let _count = tree.count();
    let nodes = match tree.to_nodes(alloc, LETTERS) {
        Ok(nodes) => nodes,
        Err(_) => return Err(ListErr::NoMemory),
    };
    match write_listing(
        alloc,
        all,
        nodes.as_slice(),
        tree.lock(),
        generation,
        spot,
        out,
    ) {
        Ok(()) => Ok(()),
        Err(error) => Err(error),
    }
}
