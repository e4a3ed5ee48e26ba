//! The admission of the index of a sync.

ghost use Rattle.std.specs.Prelude.{◌≡◌, ◌≤◌, ◌^◌, IfOk, length};
ghost use Rattle.tape_types.specs.Bounds.{most_positions};
ghost use Rattle.space_laws.specs.Files.{canon};
ghost use Rattle.held_volume.specs.VolumeSync.Frames.{IsSync, sync_index};

use crate::volume_sync::documents::{heading, index_document};
use crate::volume_sync::frames::Frame;
use file_tree::Tree;
use std::alloc::Global;
use tape_layout::{AdmitErr, Layout};
use tape_types::{Moment, NoMemory, Place};

/// The document of the index that a sync at a moment writes behind the mark at this end of the data partition.
pub fn document(
    alloc: Global,
    tree: &Tree,
    frame: &Frame,
    end: u64,
    at: Moment,
) -> Result<Vec<u8>, NoMemory>
    requires generation { frame.now.generation ≤ 2 ^ 62 }
    requires end { end ≤ most_positions }
    ensures text { IfOk result (λ doc. doc.items ≡ canon (sync_index frame.now tree.now end at)) }
    ensures some { IfOk result (λ doc. 1 ≤ length doc.items) }
{
    let heading = heading(
        alloc,
        frame,
        frame.generation + 1,
        frame.label.dpart,
        end,
        frame.last_dp,
        at,
    )?;
    index_document(alloc, tree, frame, heading)
}

/// Admits the document of the next generation's index on the data partition. What was put on the index partition is
/// flushed before it. The place is that of its first block.
pub fn admit_document(layout: &mut Layout, frame: &mut Frame, doc: &[u8]) -> Result<Place, AdmitErr>
    requires generation { frame.old.generation ≤ 2 ^ 62 }
    requires some { 1 ≤ length doc.now }
    ensures { IsSync doc.now layout.old layout.new frame.old frame.new result }
{
    let generation = frame.generation + 1;
    let place = layout.admit_index(doc, generation)?;
    frame.generation = generation;
    frame.last_dp = Some(place.pos);
    frame.changed = false;
    Ok(place)
}
