//! The admission of the index of a close.

ghost use Rattle.std.specs.Prelude.{◌≡◌, ◌≤◌, IfOk, length};
ghost use Rattle.tape_types.specs.Bounds.{most_positions};
ghost use Rattle.space_laws.specs.Files.{canon};
ghost use Rattle.held_volume.specs.VolumeSync.Frames.{IsCloseOf, close_index};

use crate::volume_sync::documents::{heading, index_document};
use crate::volume_sync::frames::Frame;
use file_tree::Tree;
use std::alloc::Global;
use tape_layout::{AdmitErr, Layout};
use tape_types::{Moment, NoMemory, Place};

/// The document of the index that a close at a moment writes behind the mark at this end of the index partition, for
/// the data partition's last index, which has this generation and begins at this block.
pub fn close_document(
    alloc: Global,
    tree: &Tree,
    frame: &Frame,
    generation: u64,
    last_dp: Option<u64>,
    end: u64,
    at: Moment,
) -> Result<Vec<u8>, NoMemory>
    requires { end ≤ most_positions }
    ensures text { IfOk result (λ doc. doc.items ≡ canon (close_index frame.now tree.now generation last_dp end at)) }
    ensures some { IfOk result (λ doc. 1 ≤ length doc.items) }
{
    let heading = heading(
        alloc,
        frame,
        generation,
        frame.label.index,
        end,
        last_dp,
        at,
    )?;
    index_document(alloc, tree, frame, heading)
}

/// Admits the document of a close's index on the index partition. The place is that of its first block.
pub fn admit_close_document(
    layout: &mut Layout,
    frame: &mut Frame,
    doc: &[u8],
) -> Result<Place, AdmitErr>
    requires { 1 ≤ length doc.now }
    ensures { IsCloseOf doc.now layout.old layout.new frame.old frame.new result }
{
    let place = layout.admit_close(doc)?;
    frame.ip_done = true;
    Ok(place)
}
