//! What an index tells of the volume, in front of the nodes.

ghost use Rattle.std.specs.Prelude.{◌≡◌, ◌++◌, OnOk, OnErr};
ghost use Rattle.std.specs.List.{flat_map};
ghost use Rattle.ltfs_documents.specs.DocFields.Values.{lock_word};
ghost use Rattle.ltfs_documents.specs.DocFields.Written.{Keeps};
ghost use Rattle.ltfs_documents.specs.declared.doc_fields.tags.Tag.TheVariants.{Comment, Location, Name};
ghost use Rattle.ltfs_documents.specs.declared.doc_fields.tags.Tag.TheVariants.{PreviousGenerationLocation};
ghost use Rattle.ltfs_documents.specs.declared.doc_fields.tags.Tag.TheVariants.{UpdateTime, VolumeLockState};
ghost use Rattle.ltfs_documents.specs.declared.doc_fields.tags.Tag.TheVariants.{VolumeUuid, Creator};
ghost use Rattle.ltfs_documents.specs.declared.doc_fields.tags.Tag.TheVariants.{GenerationNumber, AllowPolicyUpdate};
ghost use Rattle.ltfs_documents.specs.declared.doc_fields.tags.Tag.TheVariants.{HighestFileUid};
ghost use Rattle.index_model.specs.Canonical as canonical;
ghost use Rattle.index_model.specs.Values.{volume_of};
ghost use Rattle.index_write.specs.Parts.{spot_text, volume_front, volume_rear};
ghost use Rattle.tape_types.specs.Uuids as uuids;

use crate::fields::{put, put_moment, put_name, put_number, put_sign, put_truth, put_words};
use index_model::{Index, Policy, Spot, TextList};
use ltfs_documents::doc_fields::{LockState, put_lock, put_uuid};
use tape_types::{NoMemory, Text};

fn put_comment(out: &mut Vec<u8>, comment: &Option<Text>) -> Result<(), NoMemory>
    ensures ok { OnOk result (out.new.items ≡ out.old.items
        ++ canonical.if_told comment.now (canonical.words Comment)) }
    ensures err { OnErr result (Keeps out.old.items out.new.items) }
{
    match comment {
        Some(text) => put_words(out, b"<comment>", text.as_str(), b"</comment>"),
        None => Ok(()),
    }
}

fn put_identifier(out: &mut Vec<u8>, uuid: u128) -> Result<(), NoMemory>
    ensures ok { OnOk result (out.new.items ≡ out.old.items ++ canonical.element VolumeUuid (uuids.uuid_text uuid)) }
    ensures err { OnErr result (Keeps out.old.items out.new.items) }
{
    put(out, b"<volumeuuid>")?;
    put_uuid(out, uuid)?;
    put(out, b"</volumeuuid>")
}

/// The partition and the position of a pointer.
fn put_spot(out: &mut Vec<u8>, spot: Spot) -> Result<(), NoMemory>
    ensures ok { OnOk result (out.new.items ≡ out.old.items ++ spot_text spot) }
    ensures err { OnErr result (Keeps out.old.items out.new.items) }
{
    put_sign(out, b"<partition>", spot.letter, b"</partition>")?;
    put_number(out, b"<startblock>", spot.block, b"</startblock>")
}

fn put_here(out: &mut Vec<u8>, here: Spot) -> Result<(), NoMemory>
    ensures ok { OnOk result (out.new.items ≡ out.old.items ++ canonical.spot Location here) }
    ensures err { OnErr result (Keeps out.old.items out.new.items) }
{
    put(out, b"<location>")?;
    put_spot(out, here)?;
    put(out, b"</location>")
}

fn put_back(out: &mut Vec<u8>, back: Option<Spot>) -> Result<(), NoMemory>
    ensures ok { OnOk result (out.new.items ≡ out.old.items
        ++ canonical.if_told back (canonical.spot PreviousGenerationLocation)) }
    ensures err { OnErr result (Keeps out.old.items out.new.items) }
{
    let Some(spot) = back else {
        return Ok(());
    };
    put(out, b"<previousgenerationlocation>")?;
    put_spot(out, spot)?;
    put(out, b"</previousgenerationlocation>")
}

fn put_patterns(out: &mut Vec<u8>, names: &TextList) -> Result<(), NoMemory>
    ensures ok { OnOk result (out.new.items ≡ out.old.items ++ flat_map (canonical.name Name) names.now) }
    ensures err { OnErr result (Keeps out.old.items out.new.items) }
{
    for at in 0..names.len() {
        put_name(out, names.get(at))?;
    }
    Ok(())
}

fn put_policy(out: &mut Vec<u8>, policy: &Policy) -> Result<(), NoMemory>
    ensures ok { OnOk result (out.new.items ≡ out.old.items ++ canonical.policy policy.now) }
    ensures err { OnErr result (Keeps out.old.items out.new.items) }
{
    put(out, b"<dataplacementpolicy><indexpartitioncriteria>")?;
    put_number(out, b"<size>", policy.size, b"</size>")?;
    put_patterns(out, &policy.names)?;
    put(out, b"</indexpartitioncriteria></dataplacementpolicy>")
}

fn put_any_policy(out: &mut Vec<u8>, policy: &Option<Policy>) -> Result<(), NoMemory>
    ensures ok { OnOk result (out.new.items ≡ out.old.items ++ canonical.if_told policy.now canonical.policy) }
    ensures err { OnErr result (Keeps out.old.items out.new.items) }
{
    match policy {
        Some(policy) => put_policy(out, policy),
        None => Ok(()),
    }
}

fn put_state(out: &mut Vec<u8>, lock: Option<LockState>) -> Result<(), NoMemory>
    ensures ok { OnOk result (out.new.items ≡ out.old.items
        ++ canonical.if_told lock (λ state. canonical.element VolumeLockState (lock_word state))) }
    ensures err { OnErr result (Keeps out.old.items out.new.items) }
{
    let Some(state) = lock else {
        return Ok(());
    };
    put(out, b"<volumelockstate>")?;
    put_lock(out, state)?;
    put(out, b"</volumelockstate>")
}

/// What comes before the pointers.
fn put_facts(out: &mut Vec<u8>, index: &Index) -> Result<(), NoMemory>
    ensures ok { OnOk result (out.new.items ≡ out.old.items ++ volume_front (volume_of index.now)) }
    ensures err { OnErr result (Keeps out.old.items out.new.items) }
{
    put_words(out, b"<creator>", index.creator.as_str(), b"</creator>")?;
    put_comment(out, &index.comment)?;
    put_identifier(out, index.uuid)?;
    put_number(
        out,
        b"<generationnumber>",
        index.generation,
        b"</generationnumber>",
    )?;
    put_moment(out, b"<updatetime>", index.updated, b"</updatetime>")
}

/// What comes behind the pointers.
fn put_rules(out: &mut Vec<u8>, index: &Index) -> Result<(), NoMemory>
    ensures ok { OnOk result (out.new.items ≡ out.old.items ++ volume_rear (volume_of index.now)) }
    ensures err { OnErr result (Keeps out.old.items out.new.items) }
{
    put_truth(
        out,
        b"<allowpolicyupdate>",
        index.allow,
        b"</allowpolicyupdate>",
    )?;
    put_any_policy(out, &index.policy)?;
    put_state(out, index.lock)?;
    put_number(
        out,
        b"<highestfileuid>",
        index.highest,
        b"</highestfileuid>",
    )
}

pub fn put_volume(out: &mut Vec<u8>, index: &Index) -> Result<(), NoMemory>
    ensures ok { OnOk result (out.new.items ≡ out.old.items ++ canonical.volume_text (volume_of index.now)) }
    ensures err { OnErr result (Keeps out.old.items out.new.items) }
{
    put_facts(out, index)?;
    put_here(out, index.here)?;
    put_back(out, index.back)?;
    put_rules(out, index)
}
