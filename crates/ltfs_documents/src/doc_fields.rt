//! The fields of the documents of a volume, its label and its index: reading from a place of
//! a text, and writing.

mod bytes;
mod characters;
mod declaration;
mod errors;
mod laws;
mod numbers;
mod plain_tags;
mod starts;
mod tags;
mod texts;
mod values;
mod writing;

pub use bytes::{byte, is_space, skip_space};
pub use characters::Characters;
pub use declaration::read_head;
pub use errors::{FieldErr, Why};
pub use laws::{
    references_are_spelled, tags_read_back, texts_read_back, values_read_back, versions_are_spelled,
};
pub use numbers::read_u64;
pub use plain_tags::{plain_end, plain_start};
pub use starts::{Attribute, Start, read_end, read_name, read_rest, read_start};
pub use tags::{Tag, name_of, tag_of};
pub use texts::{read_characters, read_text};
pub use values::{LockState, read_bool, read_letter, read_lock, read_time, read_uuid};
pub use writing::{
    put_bool, put_end, put_letter, put_lock, put_start, put_text, put_time, put_u64, put_uuid,
};
