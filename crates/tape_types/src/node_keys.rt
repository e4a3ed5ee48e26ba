//! Extended attributes of nodes: which texts may be their keys, and all attributes of a node by their keys.

mod keys;
mod laws;
mod xattrs;

pub use keys::Keys;
pub use laws::{lists_say_maps, maps_say_lists};
pub use xattrs::{Xattr, is_key};
