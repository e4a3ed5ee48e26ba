//! How long the text of an index is, without writing it.

ghost use Rattle.std.specs.Prelude.{◌≡◌, ◌+◌, ◌^◌, ◌-◌, length, map, min, sum};
ghost use Rattle.std.specs.Fmt.{decimal};
ghost use Rattle.std.specs.List.{flat_map};
ghost use Rattle.base64.specs.Engines.{standard};
ghost use Rattle.base64.specs.GeneralPurpose.{encode_of};
ghost use Rattle.ltfs_documents.specs.DocFields.Values.{lock_word};
ghost use Rattle.ltfs_documents.specs.DocFields.Written.{bool_text, escape, escaped};
ghost use Rattle.ltfs_documents.specs.declared.doc_fields.tags.Tag.TheVariants.{Comment, Key, Name};
ghost use Rattle.ltfs_documents.specs.declared.doc_fields.tags.Tag.TheVariants.{PreviousGenerationLocation};
ghost use Rattle.ltfs_documents.specs.declared.doc_fields.tags.Tag.TheVariants.{Symlink, VolumeLockState};
ghost use Rattle.index_model.specs.Canonical as canonical;
ghost use Rattle.index_model.specs.Canonical.{canonical};
ghost use Rattle.index_model.specs.Values.{facts_of, value_of, volume_of, IndexValue, Tells};
ghost use Rattle.index_write.specs.Parts.{spot_text, value_text, volume_front, volume_rear};
ghost use Rattle.index_write.specs.Sizes.{bounded, directory_length, facts_length, node_length, nodes_sum, size};
ghost use Rattle.ltfs_documents.specs.LtfsText.Names.{encoded};

use crate::attributes::text_of;
use index_model::{Index, Node, NodeKind, Policy, RawExtent, Spot, TextList};
use itoa::Buffer;
use ltfs_documents::doc_fields::LockState;
use ltfs_documents::ltfs_text::{ESCAPED, has_special};
use percent_encoding::percent_encode;
use tape_types::Text;
use tape_types::node_keys::Xattr;

/// The sum of these counts, or 2^64 - 1 where it is greater.
fn total(counts: &[u64]) -> u64
    ensures { result ≡ bounded (sum counts.now) }
{
    let mut sum: u64 = 0;
    for count in counts {
        sum = sum.saturating_add(*count);
    }
    sum
}

fn digits_len(n: u64) -> u64
    ensures { result ≡ length (decimal n) }
{
    let mut buffer = Buffer::new();
    buffer.format(n).len() as u64
}

fn truth_len(is: bool) -> u64
    ensures { result ≡ length (bool_text is) }
{
    if is { 4 } else { 5 }
}

/// How many bytes stand for a byte of a text.
fn escaped_len(byte: u8) -> u64
    ensures { result ≡ length (escaped byte) }
{
    match byte {
        b'&' => 5,
        b'<' => 4,
        b'>' => 4,
        b'\r' => 5,
        _ => 1,
    }
}

/// The length of a text with escapes.
fn escape_len(text: &[u8]) -> u64
    ensures { result ≡ size (escape text.now) }
{
    let mut sum: u64 = 0;
    for byte in text {
        sum = sum.saturating_add(escaped_len(*byte));
    }
    sum
}

/// The length of the percent-encoded form of a text, with escapes.
#[tactic(auto, using(ltfs_documents::proofs::LtfsText::Texts::encodes_as))]
fn encoded_len(text: &str) -> u64
    ensures { result ≡ size (escape (encoded text.now)) }
{
    let mut sum: u64 = 0;
    for piece in percent_encode(text.as_bytes(), ESCAPED) {
        sum = sum.saturating_add(escape_len(piece.as_bytes()));
    }
    sum
}

fn name_len(name: &str) -> u64
    ensures { result ≡ size (canonical.name Name name.now) }
{
    if has_special(name) {
        encoded_len(name).saturating_add(b"<name percentencoded=\"true\"></name>".len() as u64)
    } else {
        escape_len(name.as_bytes()).saturating_add(b"<name></name>".len() as u64)
    }
}

fn symlink_len(text: &str) -> u64
    ensures { result ≡ size (canonical.name Symlink text.now) }
{
    if has_special(text) {
        encoded_len(text).saturating_add(
            b"<symlink percentencoded=\"true\"></symlink>".len() as u64,
        )
    } else {
        escape_len(text.as_bytes()).saturating_add(b"<symlink></symlink>".len() as u64)
    }
}

fn key_len(key: &str) -> u64
    ensures { result ≡ size (canonical.name Key key.now) }
{
    if has_special(key) {
        encoded_len(key).saturating_add(b"<key percentencoded=\"true\"></key>".len() as u64)
    } else {
        escape_len(key.as_bytes()).saturating_add(b"<key></key>".len() as u64)
    }
}

/// The length of these bytes in base64.
fn symbols_len(bytes: &[u8]) -> u64
    ensures { result ≡ size (encode_of standard bytes.now) }
{
    match base64::encoded_len(bytes.len(), true) {
        Some(count) => count as u64,
        None => u64::MAX,
    }
}

fn value_len(bytes: &[u8]) -> u64
    ensures { result ≡ size (value_text bytes.now) }
{
    match text_of(bytes) {
        Some(text) => escape_len(text.as_bytes()).saturating_add(
            b"<value type=\"text\"></value>".len() as u64,
        ),
        None => symbols_len(bytes).saturating_add(b"<value type=\"base64\"></value>".len() as u64),
    }
}

fn xattr_len(xattr: &Xattr) -> u64
    ensures { result ≡ size (canonical.xattr xattr.now) }
{
    total(&[
        b"<xattr></xattr>".len() as u64,
        key_len(xattr.key.as_str()),
        value_len(xattr.value.as_slice()),
    ])
}

fn xattrs_len(xattrs: &[Xattr]) -> u64
    ensures { result ≡ size (flat_map canonical.xattr xattrs.now) }
{
    let mut sum: u64 = 0;
    for xattr in xattrs {
        sum = sum.saturating_add(xattr_len(xattr));
    }
    sum
}

/// The length of the element of all attributes of a node.
fn attributes_len(xattrs: &[Xattr]) -> u64
    ensures { result ≡ size (canonical.attributes xattrs.now) }
{
    if xattrs.is_empty() {
        return 0;
    }
    xattrs_len(xattrs).saturating_add(b"<extendedattributes></extendedattributes>".len() as u64)
}

fn extent_len(extent: &RawExtent) -> u64
    ensures { result ≡ size (canonical.extent extent.now) }
{
    let RawExtent {
        offset,
        block,
        byte,
        count,
        ..
    } = *extent;
    total(&[
        b"<extent><fileoffset></fileoffset><partition></partition><startblock></startblock>".len() as u64,
        b"<byteoffset></byteoffset><bytecount></bytecount></extent>".len() as u64,
        digits_len(offset),
        1,
        digits_len(block),
        digits_len(byte),
        digits_len(count),
    ])
}

fn extents_len(extents: &[RawExtent]) -> u64
    ensures { result ≡ size (flat_map canonical.extent extents.now) }
{
    let mut sum: u64 = 0;
    for extent in extents {
        sum = sum.saturating_add(extent_len(extent));
    }
    sum
}

/// The length of what a node is told of, whatever it is.
fn facts_len(node: &Node) -> u64
    ensures { result ≡ bounded (facts_length (facts_of node.now)) }
{
    total(&[
        b"<fileuid></fileuid><readonly></readonly>".len() as u64,
        b"<creationtime></creationtime><changetime></changetime>".len() as u64,
        b"<modifytime></modifytime><accesstime></accesstime><backuptime></backuptime>".len() as u64,
        5 * 30,
        digits_len(node.uid),
        name_len(node.name.as_str()),
        truth_len(node.readonly),
        attributes_len(node.xattrs.as_slice()),
    ])
}

/// The length of a node with its end, but without the children of a directory.
fn node_len(node: &Node) -> u64
    ensures { result ≡ bounded (node_length (value_of node.now)) }
{
    match &node.kind {
        NodeKind::Dir => directory_len(node),
        NodeKind::File { length, extents } => file_len(node, *length, extents.as_slice()),
        NodeKind::Link { text } => link_len(node, text),
    }
}

fn directory_len(node: &Node) -> u64
    ensures { result ≡ bounded (directory_length (facts_of node.now)) }
{
    facts_len(node).saturating_add(b"<directory><contents></contents></directory>".len() as u64)
}

fn file_len(node: &Node, length: u64, extents: &[RawExtent]) -> u64
    ensures { result ≡ size (canonical.file_text (facts_of node.now) length extents.now) }
{
    total(&[
        b"<file><length></length><extentinfo></extentinfo></file>".len() as u64,
        facts_len(node),
        digits_len(length),
        extents_len(extents),
    ])
}

fn link_len(node: &Node, text: &Text) -> u64
    ensures { result ≡ size (canonical.link_text (facts_of node.now) text.now) }
{
    let text = text.as_str();
    total(&[
        b"<file><length></length></file>".len() as u64,
        facts_len(node),
        digits_len(text.len() as u64),
        symlink_len(text),
    ])
}

fn nodes_len(nodes: &[Node]) -> u64
    ensures { result ≡ bounded (nodes_sum nodes.now) }
{
    let mut sum: u64 = 0;
    for node in nodes {
        sum = sum.saturating_add(node_len(node));
    }
    sum
}

fn comment_len(comment: &Option<Text>) -> u64
    ensures { result ≡ size (canonical.if_told comment.now (canonical.words Comment)) }
{
    match comment {
        Some(text) => escape_len(text.as_str().as_bytes()).saturating_add(
            b"<comment></comment>".len() as u64,
        ),
        None => 0,
    }
}

fn spot_len(spot: Spot) -> u64
    ensures { result ≡ size (spot_text spot) }
{
    total(&[
        b"<partition></partition><startblock></startblock>".len() as u64,
        1,
        digits_len(spot.block),
    ])
}

fn back_len(back: Option<Spot>) -> u64
    ensures { result ≡ size (canonical.if_told back (canonical.spot PreviousGenerationLocation)) }
{
    match back {
        Some(spot) => spot_len(spot).saturating_add(
            b"<previousgenerationlocation></previousgenerationlocation>".len() as u64,
        ),
        None => 0,
    }
}

fn patterns_len(names: &TextList) -> u64
    ensures { result ≡ size (flat_map (canonical.name Name) names.now) }
{
    let mut sum: u64 = 0;
    for at in 0..names.len() {
        sum = sum.saturating_add(name_len(names.get(at)));
    }
    sum
}

fn policy_len(policy: &Option<Policy>) -> u64
    ensures { result ≡ size (canonical.if_told policy.now canonical.policy) }
{
    match policy {
        Some(policy) => total(&[
            b"<dataplacementpolicy><indexpartitioncriteria><size></size>".len() as u64,
            b"</indexpartitioncriteria></dataplacementpolicy>".len() as u64,
            digits_len(policy.size),
            patterns_len(&policy.names),
        ]),
        None => 0,
    }
}

fn lock_len(lock: Option<LockState>) -> u64
    ensures { result ≡ size (canonical.if_told lock (λ state. canonical.element VolumeLockState (lock_word state))) }
{
    let tags = b"<volumelockstate></volumelockstate>".len() as u64;
    match lock {
        Some(LockState::Unlocked) => tags + 8,
        Some(LockState::Locked) => tags + 6,
        Some(LockState::PermLocked) => tags + 10,
        None => 0,
    }
}

/// The length of what comes before the pointers.
fn front_len(index: &Index) -> u64
    ensures { result ≡ size (volume_front (volume_of index.now)) }
{
    total(&[
        b"<creator></creator><volumeuuid></volumeuuid>".len() as u64,
        b"<generationnumber></generationnumber><updatetime></updatetime>".len() as u64,
        escape_len(index.creator.as_str().as_bytes()),
        comment_len(&index.comment),
        36,
        digits_len(index.generation),
        30,
    ])
}

/// The length of what comes behind the pointers.
fn rear_len(index: &Index) -> u64
    ensures { result ≡ size (volume_rear (volume_of index.now)) }
{
    total(&[
        b"<allowpolicyupdate></allowpolicyupdate><highestfileuid></highestfileuid>".len() as u64,
        truth_len(index.allow),
        policy_len(&index.policy),
        lock_len(index.lock),
        digits_len(index.highest),
    ])
}

fn volume_len(index: &Index) -> u64
    ensures { result ≡ size (canonical.volume_text (volume_of index.now)) }
{
    total(&[
        b"<location></location>".len() as u64,
        front_len(index),
        spot_len(index.here),
        back_len(index.back),
        rear_len(index),
    ])
}

/// The length in bytes of the text that `index_text` appends, or 2^64 - 1 where it is longer, without
/// writing it (LTFS 2.4 on the index). It takes no memory. Where the nodes don't stand in the order of
/// the document, nothing is said of the number.
pub fn index_len(index: &Index) -> u64
    ensures { (v : IndexValue) → Tells index.now v → result ≡ min (length (canonical v)) (2 ^ 64 - 1) }
{
    total(&[
        b"<?xml version=\"1.0\" encoding=\"UTF-8\"?><ltfsindex version=\"2.4.0\"></ltfsindex>".len() as u64,
        volume_len(index),
        nodes_len(index.nodes.as_slice()),
    ])
}
