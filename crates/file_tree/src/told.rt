ghost use Rattle.std.specs.Prelude.{◌≡◌, ℕ, ◌<◌, ◌≤◌, map, length, IfOk};
ghost use Rattle.tape_types.specs.Bounds.{most_nodes};
ghost use Rattle.index_model.specs.Places.{IsAt};
ghost use Rattle.file_tree.specs.Told.{letter_of as told_letter, raw_of as told_raw, told_kind_of, told_node_of};
ghost use Rattle.file_tree.specs.Told.{AreApart};

use crate::nodes::{HeldKind, Node};
use crate::raws::Letters;
use index_model::{Node as ToldNode, NodeKind as ToldKind, RawExtent};
use std::alloc::Global;
use tape_types::node_keys::Xattr;
use tape_types::{Extent, List, NoMemory, Part, Text};

/// At each number the place that it has in the list. All are below the count.
pub fn places_of(alloc: Global, numbers: &[u32], count: usize) -> Result<Vec<u32>, NoMemory>
    requires few { length numbers.now ≤ most_nodes }
    requires below { (place number : ℕ) → IsAt numbers.now place number → number < count }
    requires apart { AreApart numbers.now }
    ensures { IfOk result (λ places. (place number : ℕ) → IsAt numbers.now place number
        → IsAt places.items number place) }
{
    let mut places = vec![in alloc; 0u32; count]?;
    for place in 0..numbers.len() {
        places[numbers[place] as usize] = place as u32;
    }
    Ok(places)
}

/// A node as an index tells it, under this name in the directory at this place.
pub fn told_node(
    alloc: Global,
    node: &Node,
    parent: u32,
    name: Text,
    letters: Letters,
) -> Result<ToldNode, NoMemory>
    ensures { IfOk result (λ told. told ≡ told_node_of letters parent name node.now) }
{
    let xattrs = copies(alloc, node.keys.as_slice())?;
    let kind = told_kind(alloc, &node.kind, letters)?;
    Ok(ToldNode {
        parent,
        uid: node.uid,
        name,
        times: node.times,
        readonly: node.readonly,
        xattrs,
        kind,
    })
}

fn copies(alloc: Global, xattrs: &[Xattr]) -> Result<List<Xattr>, NoMemory>
    ensures { IfOk result (λ copies. copies ≡ xattrs.now) }
{
    let mut copies = List::new(alloc);
    for xattr in xattrs {
        copies.push(xattr.try_clone(alloc)?)?;
    }
    Ok(copies)
}

fn told_kind(alloc: Global, kind: &HeldKind, letters: Letters) -> Result<ToldKind, NoMemory>
    ensures { IfOk result (λ told. told ≡ told_kind_of letters kind.now) }
{
    match kind {
        HeldKind::Dir => Ok(ToldKind::Dir),
        HeldKind::File(extents) => Ok(ToldKind::File {
            length: extents.length(),
            extents: raws_of(alloc, extents.as_slice(), letters)?,
        }),
        HeldKind::Link(text) => Ok(ToldKind::Link {
            text: text.try_clone(alloc)?,
        }),
    }
}

fn raws_of(alloc: Global, extents: &[Extent], letters: Letters) -> Result<List<RawExtent>, NoMemory>
    ensures { IfOk result (λ raws. raws ≡ map (told_raw letters) extents.now) }
{
    let mut raws = List::new(alloc);
    for extent in extents {
        raws.push(raw_of(*extent, letters))?;
    }
    Ok(raws)
}

fn raw_of(extent: Extent, letters: Letters) -> RawExtent
    ensures { result ≡ told_raw letters extent }
{
    RawExtent {
        offset: extent.offset,
        letter: letter_of(letters, extent.part),
        block: extent.block,
        byte: u64::from(extent.byte),
        count: extent.count,
    }
}

fn letter_of(letters: Letters, part: Part) -> u8
    ensures { result ≡ told_letter letters part }
{
    match part {
        Part::Ip => letters.0,
        Part::Dp => letters.1,
    }
}
