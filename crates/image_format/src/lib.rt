//! The cartridge that the bytes of three files mean: what a slot's value says, and records, read and written.
#![tactic(auto)]

mod header;
mod heads;
mod laws;
mod refusal;
mod room;
mod rows;
mod values;
mod walks;
mod window;

pub use header::decode_header;
pub use heads::{Head, decode_head, encode_head};
pub use laws::{heads_are_told, images_are_said, records_are_told, values_are_told};
pub use refusal::{ReadErr, Refusal};
pub use room::Room;
pub use rows::{images_are_read, images_are_refused, slots_are_told};
pub use values::{Half, SlotValue, decode_value, encode_value};
