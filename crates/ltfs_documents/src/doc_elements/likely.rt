//! Which child likely stands next in a parent. It is a guess, by the order in which indexes are written, and no
//! contract rests on it.

use crate::doc_elements::pieces::Frame;
use crate::doc_elements::schema::{Container, required};
use crate::doc_fields::Tag;

/// The element that likely stands next: the first one that has to stand there and doesn't yet.
pub fn likely(frame: Frame) -> Tag {
    match frame.seen.first_missing(required(frame.place)) {
        Some(tag) => tag,
        None => likely_behind(frame),
    }
}

/// The element that likely stands behind those that have to.
fn likely_behind(frame: Frame) -> Tag {
    match frame.place {
        Container::File => Tag::ExtentInfo,
        Container::Contents if frame.seen.has(Tag::File) => Tag::File,
        Container::Contents => Tag::Directory,
        _ => Tag::Extent,
    }
}
