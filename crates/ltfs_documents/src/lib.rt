//! The XML documents of a volume, its label and its index: fields, elements, and texts that may hold any character.
#![tactic(auto)]

pub mod doc_elements;
pub mod doc_fields;
pub mod ltfs_text;
