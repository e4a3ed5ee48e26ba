//! The text of an index as a whole.

ghost use Rattle.std.specs.Prelude.{◌≡◌, ◌++◌, OnOk, OnErr};
ghost use Rattle.ltfs_documents.specs.DocFields.Written.{Keeps};
ghost use Rattle.index_model.specs.Canonical.{canonical};
ghost use Rattle.index_model.specs.Values.{IndexValue, Tells};

use crate::fields::put;
use crate::lengths::index_len;
use crate::nodes::put_nodes;
use crate::volume::put_volume;
use index_model::Index;
use tape_types::NoMemory;

/// Appends the text, or a part of it.
fn put_index(out: &mut Vec<u8>, index: &Index) -> Result<(), NoMemory>
    ensures ok { OnOk result ((v : IndexValue) → Tells index.now v → out.new.items ≡ out.old.items ++ canonical v) }
    ensures err { OnErr result (Keeps out.old.items out.new.items) }
{
    put(
        out,
        b"<?xml version=\"1.0\" encoding=\"UTF-8\"?><ltfsindex version=\"2.4.0\">",
    )?;
    put_volume(out, index)?;
    put_nodes(out, index.nodes.as_slice())?;
    put(out, b"</ltfsindex>")
}

/// Appends the one text of an index that is written (LTFS 2.4 on the index): one line in UTF-8,
/// version 2.4.0, the children of each element in their order, and no white space between
/// elements. Where memory is refused nothing is appended.
///
/// The nodes have to stand in the order of the document, the root, which is a directory, first. Where
/// they don't, the call ends as well, but nothing is said of what it appends.
pub fn index_text(index: &Index, out: &mut Vec<u8>) -> Result<(), NoMemory>
    ensures text { OnOk result ((v : IndexValue) → Tells index.now v → out.new.items ≡ out.old.items ++ canonical v) }
    ensures stays { OnErr result (out.new.items ≡ out.old.items) }
{
    out.reserve(index_len(index) as usize)?;
    let before = out.len();
    let done = put_index(out, index);
    if done.is_err() {
        out.truncate(before);
    }
    done
}
