//! The blocks in which a document stands on tape (LTFS 2.4 on the index construct).

ghost use Rattle.std.specs.Prelude.{◌≡◌, ℕ, ◌*◌, ◌<◌, ◌≤◌, Some, take, drop, length, slice_get};
ghost use Rattle.std.specs.Int.{div_ceil};
ghost use Rattle.tape_layout.specs.IndexConstruct.Blocks.{block_at, blocks_of};
ghost use Rattle.tape_layout.specs.IndexConstruct.Laws.{AreCutInOneWay};

/// How many blocks of this size the bytes of a document take.
pub fn blocks(n: u64, block: u32) -> u64
    requires { 1 ≤ block }
    ensures count { result ≡ div_ceil n block }
    ensures enough { n ≤ result * block }
    ensures least { (m : ℕ) → n ≤ m * block → result ≤ m }
{
    n.div_ceil(u64::from(block))
}

/// The k-th block of a document, counted from 0. All but the last are of the full size.
#[tactic(auto, using(crate::proofs::IndexConstruct::Cuts::block_there))]
pub fn piece(doc: &[u8], block: u32, k: u64) -> &[u8]
    requires size { 1 ≤ block }
    requires there { k < div_ceil (length doc.now) block }
    ensures bytes { result.now ≡ block_at block doc.now k }
    ensures block { slice_get (blocks_of block doc.now) k ≡ Some result.now }
    ensures some { 1 ≤ length result.now }
    ensures most { length result.now ≤ block }
{
    let size = block as usize;
    bytes_at(doc, k as usize * size, size)
}

/// At most so many bytes of a document, from a byte on.
fn bytes_at(doc: &[u8], at: usize, most: usize) -> &[u8]
    requires { at ≤ length doc.now }
    ensures { result.now ≡ take most (drop at doc.now) }
{
    let rest = &doc[at..];
    &rest[..rest.len().min(most)]
}

/// A document is cut into blocks in one way, and these are the pieces.
#[tactic(auto, using(crate::proofs::IndexConstruct::Cuts::cut_in_one_way))]
pub fn documents_are_cut_in_one_way()
    ensures { AreCutInOneWay }
{}
