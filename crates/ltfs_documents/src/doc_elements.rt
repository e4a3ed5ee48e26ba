//! The elements of the two documents of a volume, its label and its index: which stands where, what a leaf tells, and
//! the piece of a document that follows (LTFS 2.4 on the format label and on the index).

mod children;
mod encodings;
mod errors;
mod heads;
mod laws;
mod likely;
mod pieces;
mod schema;
mod values;

pub use children::Children;
pub use errors::PieceErr;
pub use heads::{readable, skip_head};
pub use laws::{attributes_read_back, pieces_are_elements, texts_are_read_in_one_way};
pub use pieces::{Frame, Piece, next_piece};
pub use schema::{Container, is_node, tag_of};
pub use values::Value;
