//! The indexes of a volume's syncs and of its close: how each is written, and what is kept from one to the next.

mod closing;
mod documents;
mod frames;
mod syncing;

pub use closing::{admit_close_document, close_document};
pub use frames::Frame;
pub use syncing::{admit_document, document};
