ghost use Rattle.std.specs.Prelude.{IfOk, IfSome, IfNone};
ghost use Rattle.index_model.specs.Refusals.{IsToldOf};
ghost use Rattle.index_model.specs.Valid.{Agrees};

use crate::index_faults::double_keys::first_key_twice;
use crate::index_faults::extents::first_bad_file;
use crate::index_faults::names::first_taken_name;
use crate::index_faults::uids::refused_uid;
use crate::{Fault, Index};
use std::alloc::Global;
use tape_types::NoMemory;

/// What is wrong with an index as a whole, told of the node at which it is seen first; or none,
/// where its nodes agree (LTFS 2.4 on the index).
///
/// The UIDs are tested first, then the names, the keys of attributes, and the files, each in the
/// order of the document. The nodes may be any, in any order. It takes memory for all nodes, or for
/// the attributes of one node or the extents of one file, and time for sorting them.
pub fn first_fault(alloc: Global, index: &Index) -> Result<Option<Fault>, NoMemory>
    ensures told { IfOk result (λ fault. IfSome fault (IsToldOf index.now)) }
    ensures agrees { IfOk result (λ fault. IfNone fault (Agrees index.now)) }
{
    if let Some(uid) = refused_uid(alloc, index)? {
        return Ok(Some(Fault::Uid(uid)));
    }
    let nodes = index.nodes.as_slice();
    if let Some(uid) = first_taken_name(alloc, nodes)? {
        return Ok(Some(Fault::SameName(uid)));
    }
    if let Some(uid) = first_key_twice(alloc, nodes)? {
        return Ok(Some(Fault::SameKey(uid)));
    }
    first_bad_file(alloc, nodes)
}
