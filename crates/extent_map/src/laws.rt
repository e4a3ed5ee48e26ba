ghost use Rattle.extent_map.specs.Blocks.{BlocksMakeTheFile, NoOtherBlocks};
ghost use Rattle.extent_map.specs.Replies.{RepliesGather};
ghost use Rattle.extent_map.specs.Laws.{OverlaysWrite, LengthsTruncate, OldBytesStayAway, PlansRead, OverlaysTakeOut};
ghost use Rattle.extent_map.specs.Laws.{BlocksHaveTheBytes};

/// An overlay writes the bytes of the new extent into the file, whatever stands on tape.
pub fn overlays_write()
    ensures { OverlaysWrite }
{}

/// A new length truncates the file.
pub fn lengths_truncate()
    ensures { LengthsTruncate }
{}

/// What was cut off never comes back.
pub fn old_bytes_stay_away()
    ensures { OldBytesStayAway }
{}

/// The pieces of a range read its bytes, each within a block.
pub fn plans_read()
    ensures { PlansRead }
{}

/// An overlay takes its range out of each extent, and puts the new one among what is left.
pub fn overlays_take_out()
    ensures { OverlaysTakeOut }
{}

/// A cartridge has a byte exactly where a block has it. Where an item is no block, or too short,
/// the byte is lost.
pub fn blocks_have_the_bytes()
    ensures { BlocksHaveTheBytes }
{}

/// Two tapes that have the same bytes in the blocks of a file have the same file.
pub fn blocks_make_the_file()
    ensures { BlocksMakeTheFile }
{}

/// An overlay adds the blocks of its extent to those of a file, and a new length adds none.
pub fn no_other_blocks()
    ensures { NoOtherBlocks }
{}

/// The bytes of a range begin as zeros, and are the file's once each of its blocks was put in.
pub fn replies_gather()
    ensures { RepliesGather }
{}
