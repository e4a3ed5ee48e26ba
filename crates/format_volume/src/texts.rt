//! What is to stand on a cartridge, in memory.

ghost use Rattle.std.specs.Prelude.{◌≡◌, ◌<◌, ◌^◌, ◌∷◌, [], None, IfOk, OnOk};
ghost use Rattle.std.specs.List.{AllByRecursion};
ghost use Rattle.std.specs.Str.{IsUtf8};
ghost use Rattle.ltfs_label.specs.Canonical.{canonical};
ghost use Rattle.ltfs_label.specs.Grammar.{LabelText};
ghost use Rattle.ltfs_label.specs.Values.{label_of};
ghost use Rattle.vol_label.specs.Table.{IsRecord, record_of};
ghost use Rattle.format_volume.specs.Refusals.{HasTexts, IsSpec, spec_fault};
ghost use Rattle.format_volume.specs.Texts.{AreRead, AreTextsOf};
ghost use Rattle.format_volume.specs.Volumes.{back_on, creator, document_on, first_spot, index_on};
ghost use Rattle.format_volume.specs.Volumes.{label_on, letter, record_for, root_of};

use crate::requests::FormatSpec;
use index_model::{Index, Node, NodeKind, Policy, Spot, TextList};
use index_write::index_text;
use ltfs_label::{Label, write_label};
use std::alloc::Global;
use tape_types::{Bytes, List, NoMemory, Part, Text, Times};
use vol_label::{Vol1, encode};

/// The labels and the indexes of both partitions.
#[derive(Drop)]
pub struct Texts {
    pub record: [u8; 80],
    pub ip_label: Bytes,
    pub dp_label: Bytes,
    pub ip_index: Bytes,
    pub dp_index: Bytes,
}

impl Texts {
    /// The texts of a volume.
    pub fn new(alloc: Global, spec: &FormatSpec) -> Result<Texts, NoMemory>
        requires fine { spec_fault spec.now ≡ None }
        ensures texts { IfOk result (AreTextsOf spec.now) }
        ensures read { OnOk result (AreRead spec.now) }
    {
        Ok(Texts {
            record: record_for(spec),
            ip_label: label_text(alloc, Part::Ip, spec)?,
            dp_label: label_text(alloc, Part::Dp, spec)?,
            ip_index: document_on(alloc, Part::Ip, spec)?,
            dp_index: document_on(alloc, Part::Dp, spec)?,
        })
    }
}

/// The VOL1 record of both partitions.
#[tactic(auto, using(crate::proofs::TextLemmas::record_fits))]
fn record_for(spec: &FormatSpec) -> [u8; 80]
    requires fine { spec_fault spec.now ≡ None }
    ensures bytes { result ≡ record_of (record_for spec.now) }
    ensures reads { IsRecord (record_of (record_for spec.now)) (record_for spec.now) }
{
    encode(&Vol1 {
        volume: spec.volume,
        owner: [b' '; 14],
    })
}

fn letter(part: Part) -> u8
    ensures { result ≡ letter part }
{
    match part {
        Part::Ip => b'a',
        Part::Dp => b'b',
    }
}

/// The name of this program, and its version.
fn creator(alloc: Global) -> Result<Text, NoMemory>
    ensures { IfOk result (λ text. text ≡ creator) }
{
    Ok(Text::from_string(String::from_str(alloc, "ltfs_server 1.0.0")?))
}

fn label_on(alloc: Global, part: Part, spec: &FormatSpec) -> Result<Label, NoMemory>
    ensures { IfOk result (λ label. label ≡ label_on part spec.now) }
{
    Ok(Label {
        creator: creator(alloc)?,
        formatted: spec.at,
        uuid: spec.uuid,
        location: letter(part),
        index: letter(Part::Ip),
        dpart: letter(Part::Dp),
        block: spec.block,
        compression: false,
    })
}

/// The text of a partition's label.
#[tactic(auto, using(crate::proofs::TextLemmas::label_fits))]
fn label_text(alloc: Global, part: Part, spec: &FormatSpec) -> Result<Bytes, NoMemory>
    requires fine { spec_fault spec.now ≡ None }
    ensures bytes { IfOk result (λ text. text ≡ canonical (label_of (label_on part spec.now))) }
    ensures reads { IfOk result (λ text. LabelText (canonical (label_of (label_on part spec.now)))
        (label_of (label_on part spec.now))) }
{
    let label = label_on(alloc, part, spec)?;
    write_label(alloc, &label)
}

/// Where the index of a partition has its first block.
fn first_spot(part: Part) -> Spot
    ensures { result ≡ first_spot part }
{
    Spot {
        letter: letter(part),
        block: 5,
    }
}

/// Where the index of a partition points back to.
fn back_on(part: Part) -> Option<Spot>
    ensures { result ≡ back_on part }
{
    match part {
        Part::Ip => Some(first_spot(Part::Dp)),
        Part::Dp => None,
    }
}

#[tactic(auto, using(crate::proofs::TextLemmas::texts_more))]
fn names_copy(alloc: Global, names: &TextList) -> Result<TextList, NoMemory>
    ensures same { IfOk result (λ copy. copy ≡ names.now) }
    ensures texts { OnOk result (AllByRecursion IsUtf8 names.now) }
{
    let mut copy = TextList::new(alloc);
    for at in 0..names.len() {
        copy.push(names.get(at))?;
    }
    Ok(copy)
}

fn policy_copy(alloc: Global, policy: &Option<Policy>) -> Result<Option<Policy>, NoMemory>
    ensures same { IfOk result (λ copy. copy ≡ policy.now) }
    ensures texts { OnOk result (HasTexts policy.now) }
{
    match policy {
        Some(policy) => Ok(Some(Policy {
            size: policy.size,
            names: names_copy(alloc, &policy.names)?,
        })),
        None => Ok(None),
    }
}

/// The root of an empty volume.
fn root_of(alloc: Global, spec: &FormatSpec) -> Result<Node, NoMemory>
    ensures root { IfOk result (λ root. root ≡ root_of spec.now) }
    ensures name { OnOk result (IsUtf8 spec.now.name) }
{
    Ok(Node {
        parent: 0,
        uid: 1,
        name: Text::from_string(String::from_str(alloc, spec.name.as_str())?),
        times: Times::all_at(spec.at),
        readonly: false,
        xattrs: List::new(alloc),
        kind: NodeKind::Dir,
    })
}

/// The nodes of an empty volume: its root.
fn nodes_of(alloc: Global, spec: &FormatSpec) -> Result<List<Node>, NoMemory>
    ensures nodes { IfOk result (λ nodes. nodes ≡ root_of spec.now ∷ []) }
    ensures name { OnOk result (IsUtf8 spec.now.name) }
{
    let mut nodes = List::new(alloc);
    nodes.push(root_of(alloc, spec)?)?;
    Ok(nodes)
}

fn uuid_of(spec: &FormatSpec) -> u128
    ensures value { result ≡ spec.now.uuid }
    ensures range { spec.now.uuid < 2 ^ 128 }
{
    spec.uuid
}

/// The index of a partition.
fn index_on(alloc: Global, part: Part, spec: &FormatSpec) -> Result<Index, NoMemory>
    ensures index { IfOk result (λ index. index ≡ index_on part spec.now) }
    ensures values { OnOk result (IsSpec spec.now) }
{
    Ok(Index {
        creator: creator(alloc)?,
        comment: None,
        uuid: uuid_of(spec),
        generation: 1,
        updated: spec.at,
        here: first_spot(part),
        back: back_on(part),
        allow: true,
        policy: policy_copy(alloc, &spec.policy)?,
        lock: None,
        highest: 1,
        nodes: nodes_of(alloc, spec)?,
    })
}

/// The document of a partition's index.
#[tactic(auto, using(crate::proofs::TextLemmas::tells))]
fn document_on(alloc: Global, part: Part, spec: &FormatSpec) -> Result<Bytes, NoMemory>
    ensures bytes { IfOk result (λ text. text ≡ document_on part spec.now) }
    ensures values { OnOk result (IsSpec spec.now) }
{
    let index = index_on(alloc, part, spec)?;
    let mut text = Vec::new(alloc);
    index_text(&index, &mut text)?;
    Ok(Bytes::from_vec(text))
}
