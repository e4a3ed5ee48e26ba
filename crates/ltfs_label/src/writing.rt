//! The one text of a label that is written.

ghost use Rattle.std.specs.Prelude.{◌≡◌, ◌++◌, IfOk, OnOk};
ghost use Rattle.ltfs_documents.specs.declared.doc_fields.tags.Tag.TheVariants.{DataLetter, IndexLetter, Location};
ghost use Rattle.ltfs_documents.specs.declared.doc_fields.tags.Tag.TheVariants.{Partition};
ghost use Rattle.ltfs_documents.specs.declared.doc_fields.tags.Tag.TheVariants.{Partitions};
ghost use Rattle.ltfs_label.specs.Canonical.{canonical, children_text, element, IsLabel, leaf_text};
ghost use Rattle.ltfs_label.specs.Grammar.{LabelText};
ghost use Rattle.ltfs_documents.specs.DocElements.Pieces as pieces;
ghost use Rattle.ltfs_label.specs.Values.{label_of};
ghost use Rattle.tape_types.specs.Times.{civil_of};

use crate::Label;
use ltfs_documents::doc_fields::{
    Attribute, Tag, put_bool, put_end, put_letter, put_start, put_text, put_time, put_u64, put_uuid,
};
use std::alloc::Global;
use tape_types::{Bytes, Moment, NoMemory};

fn put_words(out: &mut Vec<u8>, tag: Tag, text: &str) -> Result<(), NoMemory>
    ensures { OnOk result (out.new.items ≡ out.old.items ++ leaf_text tag (pieces.words text.now)) }
{
    put_start(out, tag, Attribute::Absent)?;
    put_text(out, text)?;
    put_end(out, tag)
}

fn put_moment(out: &mut Vec<u8>, tag: Tag, moment: Moment) -> Result<(), NoMemory>
    ensures { OnOk result (out.new.items ≡ out.old.items ++ leaf_text tag (pieces.time (civil_of moment))) }
{
    put_start(out, tag, Attribute::Absent)?;
    put_time(out, moment)?;
    put_end(out, tag)?;
    Ok(())
}

fn put_identifier(out: &mut Vec<u8>, tag: Tag, uuid: u128) -> Result<(), NoMemory>
    ensures { OnOk result (out.new.items ≡ out.old.items ++ leaf_text tag (pieces.uuid uuid)) }
{
    put_start(out, tag, Attribute::Absent)?;
    put_uuid(out, uuid)?;
    put_end(out, tag)
}

fn put_sign(out: &mut Vec<u8>, tag: Tag, letter: u8) -> Result<(), NoMemory>
    ensures { OnOk result (out.new.items ≡ out.old.items ++ leaf_text tag (pieces.letter letter)) }
{
    put_start(out, tag, Attribute::Absent)?;
    put_letter(out, letter)?;
    put_end(out, tag)
}

fn put_number(out: &mut Vec<u8>, tag: Tag, number: u32) -> Result<(), NoMemory>
    ensures { OnOk result (out.new.items ≡ out.old.items ++ leaf_text tag (pieces.number number)) }
{
    put_start(out, tag, Attribute::Absent)?;
    put_u64(out, u64::from(number))?;
    put_end(out, tag)
}

fn put_truth(out: &mut Vec<u8>, tag: Tag, truth: bool) -> Result<(), NoMemory>
    ensures { OnOk result (out.new.items ≡ out.old.items ++ leaf_text tag (pieces.truth truth)) }
{
    put_start(out, tag, Attribute::Absent)?;
    put_bool(out, truth)?;
    put_end(out, tag)
}

fn put_location(out: &mut Vec<u8>, location: u8) -> Result<(), NoMemory>
    ensures { OnOk result (out.new.items ≡ out.old.items
        ++ element Location (leaf_text Partition (pieces.letter location))) }
{
    put_start(out, Tag::Location, Attribute::Absent)?;
    put_sign(out, Tag::Partition, location)?;
    put_end(out, Tag::Location)
}

fn put_partitions(out: &mut Vec<u8>, index: u8, dpart: u8) -> Result<(), NoMemory>
    ensures { OnOk result (out.new.items ≡ out.old.items
        ++ element Partitions (leaf_text IndexLetter (pieces.letter index)
        ++ leaf_text DataLetter (pieces.letter dpart))) }
{
    put_start(out, Tag::Partitions, Attribute::Absent)?;
    put_sign(out, Tag::IndexLetter, index)?;
    put_sign(out, Tag::DataLetter, dpart)?;
    put_end(out, Tag::Partitions)
}

fn put_children(out: &mut Vec<u8>, label: &Label) -> Result<(), NoMemory>
    ensures { OnOk result (out.new.items ≡ out.old.items ++ children_text (label_of label.now)) }
{
    put_words(out, Tag::Creator, label.creator.as_str())?;
    put_moment(out, Tag::FormatTime, label.formatted)?;
    put_identifier(out, Tag::VolumeUuid, label.uuid)?;
    put_location(out, label.location)?;
    put_partitions(out, label.index, label.dpart)?;
    put_number(out, Tag::BlockSize, label.block)?;
    put_truth(out, Tag::Compression, label.compression)?;
    Ok(())
}

/// The text of a label as it is written: one line, in UTF-8, with version 2.4.0. It is a label's
/// text, which gives the same label when it is read, where the creator has only characters that a
/// document may have, the letters are `a` to `z`, and the size of a block is 4,096 to 1,048,576.
pub fn write_label(alloc: Global, label: &Label) -> Result<Bytes, NoMemory>
    ensures text { IfOk result (λ text. text ≡ canonical (label_of label.now)) }
    ensures label { IfOk result (λ text. IsLabel (label_of label.now) → LabelText text (label_of label.now)) }
{
    let (_creator, _uuid) = (label.creator.as_str(), label.uuid);
    let mut out = Vec::new(alloc);
    out.extend_from_slice(b"<?xml version=\"1.0\" encoding=\"UTF-8\"?>")?;
    put_start(&mut out, Tag::LtfsLabel, Attribute::Version)?;
    put_children(&mut out, label)?;
    put_end(&mut out, Tag::LtfsLabel)?;
    Ok(Bytes::from_vec(out))
}
