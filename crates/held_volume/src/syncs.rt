//! Syncs of what is held.

ghost use Rattle.std.specs.Prelude.{◌≡◌, ◌+◌, ◌≤◌, ◌^◌, Bool, length, IfOk, IfSome, OnErr};
ghost use Rattle.std.specs.Int.{div_ceil};
ghost use Rattle.std.specs.Option.{option_map};
ghost use Rattle.extent_map.specs.Cells.{Tape};
ghost use Rattle.file_tree.specs.Tree.{FileTree};
ghost use Rattle.space_laws.specs.Standing.{Given, Standing};
ghost use Rattle.held_volume.specs.Applied.{IsChange, IsUnchanged};
ghost use Rattle.held_volume.specs.Closed.{IsDpChange, IsDpDocument};
ghost use Rattle.held_volume.specs.Stocks.{IsStock, stocked};
ghost use Rattle.held_volume.specs.Syncs.{IsDocument};

use crate::volume_sync::{Frame, admit_document, document};
use file_tree::Tree;
use plain_tree::Call;
use std::alloc::Global;
use tape_layout::{AdmitErr, Layout};
use tape_types::{Moment, NoMemory};

/// The text of the index that a sync at a moment admits, or none where the tree hasn't changed since the last one.
pub fn due_document(
    alloc: Global,
    tree: &Tree,
    layout: &Layout,
    frame: &Frame,
    at: Moment,
) -> Result<Option<Vec<u8>>, NoMemory>
    requires { frame.now.generation ≤ 2 ^ 62 }
    ensures due { IfOk result (λ due. (tape : Tape) (g : Given) (on : Bool) (st : Standing)
        → IsStock tape g on st (stocked tree.now layout.now frame.now)
        → IsDocument g st at (option_map (λ doc. doc.items) due)) }
    ensures some { IfOk result (λ due. IfSome due (λ doc. 1 ≤ length doc.items)) }
{
    if !frame.changed {
        return Ok(None);
    }
    let (_, end) = layout.ends();
    match document(alloc, tree, frame, end, at) {
        Ok(doc) => Ok(Some(doc)),
        Err(e) => Err(e),
    }
}

/// Admits the text of an index on the data partition, where there is one: that of a sync, or that of a close.
pub fn admit_due(
    layout: &mut Layout,
    frame: &mut Frame,
    due: &Option<Vec<u8>>,
) -> Result<(), AdmitErr>
    requires generation { frame.old.generation ≤ 2 ^ 62 }
    requires some { IfSome due.now (λ doc. 1 ≤ length doc.items) }
    ensures applied { (tree : FileTree) (early : Tape) (g : Given) (on : Bool) (st : Standing) (at : Moment)
        → IsStock early g on st (stocked tree layout.old frame.old)
        → IsDocument g st at (option_map (λ doc. doc.items) due.now)
        → IsChange early g on st Call.Sync at (stocked tree layout.old frame.old)
        (stocked tree layout.new frame.new) result }
    ensures closes { (tree : FileTree) (early : Tape) (g : Given) (on : Bool) (st : Standing) (at : Moment)
        → IsStock early g on st (stocked tree layout.old frame.old)
        → IsDpDocument g st at (option_map (λ doc. doc.items) due.now)
        → IsDpChange early g on st at (stocked tree layout.old frame.old) (stocked tree layout.new frame.new) result }
    ensures err { OnErr result ((tree : FileTree)
        → IsUnchanged (stocked tree layout.old frame.old) (stocked tree layout.new frame.new)) }
    ensures generation { frame.new.generation ≤ 2 ^ 62 }
{
    let Some(doc) = due else {
        return Ok(());
    };
    match admit_document(layout, frame, doc.as_slice()) {
        Ok(_) => {
            frame.dp_done = true;
            frame.ip_done = false;
            Ok(())
        }
        Err(e) => Err(e),
    }
}

/// How many ops a write of these bytes, or an index with this text, brings at most, over blocks of this size.
pub fn most_ops(bytes: &[u8], block: u32) -> usize
    requires { 1 ≤ block }
    ensures { result ≡ div_ceil (length bytes.now) block + 4 }
{
    bytes.len().div_ceil(block as usize) + 4
}
