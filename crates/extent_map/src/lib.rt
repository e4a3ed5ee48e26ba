//! How the bytes of a file lie on tape: its extents (LTFS 2.4 on data extents).
#![tactic(auto)]

mod edits;
mod extents;
mod laws;
mod pieces;
mod reading;
mod replies;

pub use extents::Extents;
pub use laws::{
    blocks_have_the_bytes, blocks_make_the_file, lengths_truncate, no_other_blocks,
    old_bytes_stay_away, overlays_take_out, overlays_write, plans_read, replies_gather,
};
pub use pieces::Piece;
pub use replies::{fill, places_of};
