//! Closes of what is held.

ghost use Rattle.std.specs.Prelude.{◌≡◌, ◌≤◌, ◌^◌, ◌||◌, Bool, not, length, IfOk, IfSome, OnErr};
ghost use Rattle.std.specs.Option.{option_map};
ghost use Rattle.extent_map.specs.Cells.{Tape};
ghost use Rattle.file_tree.specs.Tree.{FileTree};
ghost use Rattle.space_laws.specs.Standing.{Given, Standing};
ghost use Rattle.held_volume.specs.Applied.{IsUnchanged};
ghost use Rattle.held_volume.specs.Closed.{IsDpDocument, IsIpDocument, IsIpEnd, closed_dp};
ghost use Rattle.held_volume.specs.Stocks.{IsStock, stocked};

use crate::volume_sync::{Frame, admit_close_document, close_document, document};
use file_tree::Tree;
use std::alloc::Global;
use tape_layout::{AdmitErr, Layout};
use tape_types::{Moment, NoMemory};

/// The texts of the indexes that a close admits, each of them where it is due.
#[derive(Drop)]
pub struct ClosingTexts {
    /// Of that on the data partition.
    pub dp: Option<Vec<u8>>,
    /// Of that on the index partition.
    pub ip: Option<Vec<u8>>,
}

/// Whether an index is due on the data partition.
fn is_due_on_dp(frame: &Frame) -> bool
    ensures { result ≡ (frame.now.changed || not frame.now.dp_done) }
{
    frame.changed || !frame.dp_done
}

/// The texts of the indexes that a close at a moment admits. That on the index partition tells of the one on the data
/// partition as if it were admitted.
pub fn closing_texts(
    alloc: Global,
    tree: &Tree,
    layout: &Layout,
    frame: &Frame,
    at: Moment,
) -> Result<ClosingTexts, NoMemory>
    requires { frame.now.generation ≤ 2 ^ 62 }
    ensures texts { IfOk result (λ c. (tape : Tape) (g : Given) (on : Bool) (st : Standing)
        → IsStock tape g on st (stocked tree.now layout.now frame.now)
        → IsDpDocument g st at (option_map (λ doc. doc.items) c.dp)
        × IsIpDocument g (closed_dp g on st at) at (option_map (λ doc. doc.items) c.ip)) }
    ensures some_dp { IfOk result (λ c. IfSome c.dp (λ doc. 1 ≤ length doc.items)) }
    ensures some_ip { IfOk result (λ c. IfSome c.ip (λ doc. 1 ≤ length doc.items)) }
{
    let (end_ip, end_dp) = layout.ends();
    if is_due_on_dp(frame) {
        let next = frame.generation + 1;
        let first = Some(end_dp + 1);
        let dp = document(alloc, tree, frame, end_dp, at)?;
        let ip = close_document(alloc, tree, frame, next, first, end_ip, at)?;
        return Ok(ClosingTexts {
            dp: Some(dp),
            ip: Some(ip),
        });
    }
    if frame.ip_done {
        return Ok(ClosingTexts { dp: None, ip: None });
    }
    let newest = frame.generation;
    let ip = close_document(alloc, tree, frame, newest, frame.last_dp, end_ip, at)?;
    Ok(ClosingTexts {
        dp: None,
        ip: Some(ip),
    })
}

/// Admits the text of a close's index on the index partition, where there is one.
pub fn admit_on_ip(
    layout: &mut Layout,
    frame: &mut Frame,
    due: &Option<Vec<u8>>,
) -> Result<(), AdmitErr>
    requires { IfSome due.now (λ doc. 1 ≤ length doc.items) }
    ensures applied { (tree : FileTree) (early : Tape) (g : Given) (on : Bool) (st : Standing) (at : Moment)
        → IsStock early g on st (stocked tree layout.old frame.old)
        → IsIpDocument g st at (option_map (λ doc. doc.items) due.now)
        → IsIpEnd (option_map (λ doc. doc.items) due.now) g st at (stocked tree layout.old frame.old)
        (stocked tree layout.new frame.new) result }
    ensures err { OnErr result ((tree : FileTree)
        → IsUnchanged (stocked tree layout.old frame.old) (stocked tree layout.new frame.new)) }
    ensures generation { frame.new.generation ≡ frame.old.generation }
{
    let Some(doc) = due else {
        return Ok(());
    };
    match admit_close_document(layout, frame, doc.as_slice()) {
        Ok(_) => Ok(()),
        Err(e) => Err(e),
    }
}
