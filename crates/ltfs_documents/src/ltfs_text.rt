//! Texts in the documents of an LTFS volume that may hold any character: names, patterns of a
//! placement policy and texts of symbolic links.

mod names;

pub use names::{
    ESCAPED, NameText, ReadNameErr, has_special, name_text, names_read_back, read_name,
};
