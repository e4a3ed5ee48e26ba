//! The text of an index of the volume.

ghost use Rattle.std.specs.Prelude.{◌≡◌, ◌≤◌, IfOk, length};
ghost use Rattle.tape_types.specs.Bounds.{most_positions};
ghost use Rattle.file_tree.specs.Carried.{index_of_tree};
ghost use Rattle.space_laws.specs.Files.{canon};
ghost use Rattle.held_volume.specs.VolumeSync.Frames.{heading_of, letters_of};

use crate::volume_sync::frames::Frame;
use file_tree::{Heading, Letters, Tree};
use index_model::Spot;
use index_write::index_text;
use std::alloc::Global;
use tape_types::{Moment, NoMemory, Text};

impl Frame {
    /// The letters of the index partition and the data partition.
    pub fn letters(&self) -> Letters
        ensures { result ≡ letters_of self.now }
    {
        (self.label.index, self.label.dpart)
    }
}

/// How an index is headed that begins behind the mark at this end of the partition with this letter, and points back to
/// a block of the data partition.
pub fn heading(
    alloc: Global,
    frame: &Frame,
    generation: u64,
    letter: u8,
    end: u64,
    back: Option<u64>,
    at: Moment,
) -> Result<Heading, NoMemory>
    requires { end ≤ most_positions }
    ensures { IfOk result (λ heading. heading ≡ heading_of frame.now generation letter end back at) }
{
    let creator = Text::from_string(String::from_str(alloc, "ltfs_server 1.0.0")?);
    Ok(Heading {
        creator,
        uuid: frame.label.uuid,
        generation,
        updated: at,
        here: Spot {
            letter,
            block: end + 1,
        },
        back: back.map(|block| Spot {
            letter: frame.label.dpart,
            block,
        }),
    })
}

/// The text of the index of a tree under a heading.
pub fn index_document(
    alloc: Global,
    tree: &Tree,
    frame: &Frame,
    heading: Heading,
) -> Result<Vec<u8>, NoMemory>
    ensures text { IfOk result (λ doc.
        doc.items ≡ canon (index_of_tree (letters_of frame.now) heading frame.now.carried tree.now)) }
    ensures some { IfOk result (λ doc. 1 ≤ length doc.items) }
{
    // The tree is good.
    let _count = tree.count();
    let index = tree.to_index(alloc, frame.letters(), heading, &frame.carried)?;
    let mut doc = Vec::new(alloc);
    index_text(&index, &mut doc)?;
    Ok(doc)
}
