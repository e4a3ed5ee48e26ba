//! What is held of a volume.

ghost use Rattle.std.specs.Prelude.{◌≡◌, ◌≤◌, ◌^◌, [], ◌∷◌, Bool, None, true, drop, length};
ghost use Rattle.std.specs.Prelude.{OnErr, IfErr, IfOk, IfSome, MatchOption};
ghost use Rattle.std.specs.Option.{option_map};
ghost use Rattle.extent_map.specs.Cells.{Tape};
ghost use Rattle.space_laws.specs.Standing.{Given, Standing, first_standing, rules};
ghost use Rattle.held_volume.specs.Mounted.{CanStart, StartsFrom, letters_of};
ghost use Rattle.plain_tree.specs.Calls.{answer, call_of_change};
ghost use Rattle.plain_tree.specs.Paths.{Path};
ghost use Rattle.plain_tree.specs.Refusals.{lock_refusal};
ghost use Rattle.file_tree.specs.Mounts.{IsTreeOf};
ghost use Rattle.file_tree.specs.Tree.{plain_of};
ghost use Rattle.file_tree.specs.Valid.{IsGood};
ghost use Rattle.tape_layout.specs.Ops.{HasRoom};
ghost use Rattle.held_volume.specs.Applied.{IsApplied, IsChange, IsNoted, IsUnchanged, LeavesAll};
ghost use Rattle.held_volume.specs.Closed.{IsDpChange, IsDpDocument, IsIpDocument, IsIpEnd, closed_dp};
ghost use Rattle.held_volume.specs.Reads.{IsPlanOfAtMost, IsReadPlan, IsReadable, IsUnreadable};
ghost use Rattle.held_volume.specs.Stocks.{IsStock, stocked};
ghost use Rattle.held_volume.specs.Syncs.{BringsAtMost, IsDocument};

use crate::attributes::{drop_key, set_key, set_readonly};
use crate::changes::{make, remove, rename, truncate};
use crate::closings::{ClosingTexts, admit_on_ip, closing_texts};
use crate::locks::{is_sealed, lock_volume, locked, seal_volume, unlock_volume};
use crate::looks::{get_key, list, plan, stat};
use crate::syncs::{admit_due, due_document, most_ops};
use crate::volume_sync::Frame;
use crate::writes::write;
use cartridge_meaning::Mounted;
use extent_map::Piece;
use file_tree::{Carried, Tree, file_at};
use plain_tree::{Answer, Call, Change, Refusal, Sort};
use std::alloc::Global;
use std::marker::Model;
use tape_layout::{AdmitErr, Layout, Op};
use tape_types::{Limits, List, Moment, NoMemory, Text};

/// What is held of a volume while it is served: its tree, what is admitted for the tape and not done yet, and what its
/// next index stands on.
#[derive(Drop)]
pub struct Stock {
    tree: Tree,
    layout: Layout,
    frame: Frame,
    alloc: Global,
}

impl Model for Stock {
    ghost use Rattle.std.specs.Prelude.{◌≤◌, ◌^◌};
    ghost use Rattle.held_volume.specs.Stocks.{Stocked, stocked};
    ghost use Rattle.std.specs.Coded.{codes};
    ghost use Rattle.file_tree.specs.contracts.tree.Tree as shown;

    ghost Value = { Stocked };

    ghost coded = { Prim.hlevel (codes, shown.the_row.coded) };

    ghost view = { λ a. stocked a.tree a.layout a.frame };

    ghost invariant = { λ a. a.frame.generation ≤ 2 ^ 62 };
}

impl Stock {
    /// What is held of a volume that was mounted, on a drive with these capacities: its tree, and no op. Each extent of
    /// its index ends before the end of its partition.
    pub fn start(alloc: Global, mounted: Mounted, limits: Limits) -> Result<Stock, NoMemory>
        requires { CanStart limits mounted }
        ensures stands { IfOk result (λ s. (tape : Tape) (g : Given) → StartsFrom tape limits mounted g
            → IsStock tape g mounted.ip_on (first_standing g) s) }
        ensures ops { IfOk result (λ s. s.layout.ops ≡ []) }
        ensures tree { IfOk result (λ s. IsTreeOf (letters_of mounted) mounted.label.block mounted.index s.tree) }
        ensures good { IfOk result (λ s. IsGood s.tree) }
    {
        let letters = (mounted.label.index, mounted.label.dpart);
        let block = mounted.label.block;
        let tree = Tree::from_index(alloc, &mounted.index, letters, block)?;
        // The tree is good.
        let _count = tree.count();
        let carried = Carried::of_index(alloc, &mounted.index)?;
        let sealed = is_sealed(tree.lock());
        let layout = Layout::new(
            alloc,
            limits,
            block,
            mounted.end_ip,
            mounted.end_dp,
            mounted.ip_on,
        );
        let frame = Frame {
            label: mounted.label,
            carried,
            sealed,
            generation: mounted.newest,
            last_dp: mounted.last_dp,
            changed: false,
            dp_done: mounted.dp_done,
            ip_done: mounted.ip_done,
            noted: mounted.noted,
        };
        Ok(Stock {
            tree,
            layout,
            frame,
            alloc,
        })
    }

    /// Makes a change at a moment, and tells why the lock or the tree refuses it. A change that is refused, and one
    /// that doesn't fit on the tape, leaves all as it was, and so does one for which memory is refused.
    pub fn apply(&mut self, change: Change<'_>, at: Moment) -> Result<Option<Refusal>, AdmitErr>
        ensures applied { (early : Tape) (g : Given) (on : Bool) (st : Standing) → IsStock early g on st self.old
            → IsApplied early g on st (call_of_change change.entry) at self.old self.new result }
        ensures leaves { LeavesAll self.old self.new result }
    {
        apply(
            self.alloc,
            &mut self.tree,
            &mut self.layout,
            &mut self.frame,
            change,
            at,
        )
    }

    /// The number of the file at a path, or why a read of it is refused, where no byte is lost on the tape.
    pub fn file_at(&self, path: &[Text]) -> Result<u32, Refusal>
        ensures found { IfOk result (IsReadable self.now.tree path.now) }
        ensures refused { IfErr result (IsUnreadable self.now path.now) }
    {
        file_at(&self.tree, path)
    }

    /// The pieces of at most so many bytes of a file from an offset on, up to its end.
    pub fn plan(&self, file: u32, offset: u64, count: u64) -> Result<List<Piece>, NoMemory>
        requires { (path : Path) × IsReadable self.now.tree path file }
        ensures reads { IfOk result (λ pieces. (path : Path) → IsReadable self.now.tree path file
            → (tape : Tape) (g : Given) (on : Bool) (st : Standing)
            → IsStock tape g on st self.now → IsReadPlan tape st self.now.tree path offset count pieces) }
        ensures most { IfOk result (λ pieces. IsPlanOfAtMost self.now.tree.block_size count pieces) }
    {
        plan(&self.tree, self.alloc, file, offset, count)
    }

    /// The text of the index that a sync at a moment admits, or none where nothing has changed since the last one.
    pub fn document(&self, at: Moment) -> Result<Option<Vec<u8>>, NoMemory>
        ensures document { IfOk result (λ due. (tape : Tape) (g : Given) (on : Bool) (st : Standing)
            → IsStock tape g on st self.now → IsDocument g st at (option_map (λ doc. doc.items) due)) }
        ensures some { IfOk result (λ due. IfSome due (λ doc. 1 ≤ length doc.items)) }
    {
        due_document(self.alloc, &self.tree, &self.layout, &self.frame, at)
    }

    /// The texts of the indexes that a close at a moment admits. That on the index partition tells of the one on the
    /// data partition as if it were admitted.
    pub fn closing_texts(&self, at: Moment) -> Result<ClosingTexts, NoMemory>
        ensures texts { IfOk result (λ c. (tape : Tape) (g : Given) (on : Bool) (st : Standing)
            → IsStock tape g on st self.now
            → IsDpDocument g st at (option_map (λ doc. doc.items) c.dp)
            × IsIpDocument g (closed_dp g on st at) at (option_map (λ doc. doc.items) c.ip)) }
        ensures some_dp { IfOk result (λ c. IfSome c.dp (λ doc. 1 ≤ length doc.items)) }
        ensures some_ip { IfOk result (λ c. IfSome c.ip (λ doc. 1 ≤ length doc.items)) }
    {
        closing_texts(self.alloc, &self.tree, &self.layout, &self.frame, at)
    }

    /// Admits the text that a sync or a close has on the data partition.
    pub fn admit_dp(&mut self, due: &Option<Vec<u8>>) -> Result<(), AdmitErr>
        requires { IfSome due.now (λ doc. 1 ≤ length doc.items) }
        ensures syncs { (early : Tape) (g : Given) (on : Bool) (st : Standing) (at : Moment)
            → IsStock early g on st self.old → IsDocument g st at (option_map (λ doc. doc.items) due.now)
            → IsChange early g on st Call.Sync at self.old self.new result }
        ensures closes { (early : Tape) (g : Given) (on : Bool) (st : Standing) (at : Moment)
            → IsStock early g on st self.old → IsDpDocument g st at (option_map (λ doc. doc.items) due.now)
            → IsDpChange early g on st at self.old self.new result }
        ensures leaves { OnErr result (IsUnchanged self.old self.new) }
    {
        admit_due(&mut self.layout, &mut self.frame, due)
    }

    /// Admits the text that a close has on the index partition, behind what it has admitted on the data partition.
    pub fn admit_ip(&mut self, due: &Option<Vec<u8>>) -> Result<(), AdmitErr>
        requires { IfSome due.now (λ doc. 1 ≤ length doc.items) }
        ensures applied { (early : Tape) (g : Given) (on : Bool) (st : Standing) (at : Moment)
            → IsStock early g on st self.old → IsIpDocument g st at (option_map (λ doc. doc.items) due.now)
            → IsIpEnd (option_map (λ doc. doc.items) due.now) g st at self.old self.new result }
        ensures leaves { OnErr result (IsUnchanged self.old self.new) }
    {
        admit_on_ip(&mut self.layout, &mut self.frame, due)
    }

    /// The tree of the volume.
    pub fn tree(&self) -> &Tree
        ensures { result.now ≡ self.now.tree }
    {
        &self.tree
    }

    /// What is admitted for the tape and not done yet.
    pub fn layout(&self) -> &Layout
        ensures { result.now ≡ self.now.layout }
    {
        &self.layout
    }

    /// What the next index stands on, beside the tree.
    pub fn frame(&self) -> &Frame
        ensures frame { result.now ≡ self.now.frame }
        ensures most { result.now.generation ≤ 2 ^ 62 }
    {
        &self.frame
    }

    /// How many ops a write of these bytes, or a sync whose index has this text, brings at most.
    pub fn most_ops(&self, bytes: &[u8]) -> usize
        ensures { (tape : Tape) (g : Given) (on : Bool) (st : Standing) → IsStock tape g on st self.now
            → BringsAtMost (rules g) on st.space (length bytes.now) result }
    {
        // The tree is good.
        let _count = self.tree.count();
        most_ops(bytes, self.frame.label.block.max(1))
    }

    /// What a listing of a path is answered.
    pub fn list(&self, path: &[Text]) -> Result<Answer, NoMemory>
        ensures { IfOk result (λ a. (tape : Tape) → a ≡ answer (plain_of tape self.now.tree) (Call.Listing path.now)) }
    {
        list(&self.tree, self.alloc, path)
    }

    /// What a key of the node at a path is answered.
    pub fn get_key(&self, path: &[Text], key: &Text) -> Result<Answer, NoMemory>
        ensures { IfOk result (λ a. (tape : Tape)
            → a ≡ answer (plain_of tape self.now.tree) (Call.Getx path.now key.now)) }
    {
        get_key(&self.tree, self.alloc, path, key)
    }

    /// What is told of the node at a path.
    pub fn stat(&self, path: &[Text]) -> Result<Answer, NoMemory>
        ensures { IfOk result (λ a. (tape : Tape) → a ≡ answer (plain_of tape self.now.tree) (Call.Stat path.now)) }
    {
        stat(&self.tree, self.alloc, path)
    }

    /// The first flush of the data partition is done: from now on files may go to the index partition.
    pub fn on(&mut self)
        ensures layout { self.new ≡ record self.old { layout = record self.old.layout { ip_on = true } } }
        ensures stands { (tape : Tape) (g : Given) (on : Bool) (st : Standing) → IsStock tape g on st self.old
            → IsStock tape g true st self.new }
    {
        self.layout.place_on_ip();
    }

    /// The op that is to be done next.
    pub fn next_op(&self) -> Option<&Op>
        ensures first { MatchOption result (self.now.layout.ops ≡ [])
            (λ op. self.now.layout.ops ≡ op.now ∷ drop 1 self.now.layout.ops) }
        ensures room { IfSome result (λ op. HasRoom self.now.layout.limits self.now.layout.block_size op.now) }
    {
        self.layout.next_op()
    }

    /// The first op was done.
    pub fn done_op(&mut self)
        requires { 1 ≤ length self.old.layout.ops }
        ensures ops { self.new
            ≡ record self.old { layout = record self.old.layout { ops = drop 1 self.old.layout.ops } } }
        ensures stands { (tape : Tape) (g : Given) (on : Bool) (st : Standing) → IsStock tape g on st self.old
            → IsStock tape g on st self.new }
    {
        self.layout.done_op();
    }
}

/// Makes a change at a moment, and tells why the tree refuses it.
fn apply(
    alloc: Global,
    tree: &mut Tree,
    layout: &mut Layout,
    frame: &mut Frame,
    change: Change<'_>,
    at: Moment,
) -> Result<Option<Refusal>, AdmitErr>
    ensures applied { (early : Tape) (g : Given) (on : Bool) (st : Standing)
        → IsStock early g on st (stocked tree.old layout.old frame.old)
        → IsApplied early g on st (call_of_change change.entry) at (stocked tree.old layout.old frame.old)
        (stocked tree.new layout.new frame.new) result }
    ensures leaves { LeavesAll (stocked tree.old layout.old frame.old) (stocked tree.new layout.new frame.new) result }
    ensures generation { frame.new.generation ≡ frame.old.generation }
{
    match locked(tree.lock(), change) {
        Some(refusal) => Ok(Some(refusal)),
        None => apply_unlocked(alloc, tree, layout, frame, change, at),
    }
}

/// The same of a change that the lock doesn't refuse.
fn apply_unlocked(
    alloc: Global,
    tree: &mut Tree,
    layout: &mut Layout,
    frame: &mut Frame,
    change: Change<'_>,
    at: Moment,
) -> Result<Option<Refusal>, AdmitErr>
    requires { lock_refusal tree.old.lock (call_of_change change) ≡ None }
    ensures applied { (early : Tape) (g : Given) (on : Bool) (st : Standing)
        → IsStock early g on st (stocked tree.old layout.old frame.old)
        → IsApplied early g on st (call_of_change change.entry) at (stocked tree.old layout.old frame.old)
        (stocked tree.new layout.new frame.new) result }
    ensures leaves { LeavesAll (stocked tree.old layout.old frame.old) (stocked tree.new layout.new frame.new) result }
    ensures generation { frame.new.generation ≡ frame.old.generation }
{
    match change {
        Change::Mkdir(path) => note(frame, make(tree, alloc, path, Sort::Dir, at)),
        Change::Create(path) => note(frame, make(tree, alloc, path, Sort::File, at)),
        Change::Write(path, offset, bytes) => write(tree, layout, frame, path, offset, bytes, at),
        Change::Truncate(path, length) => note(frame, Ok(truncate(tree, path, length, at))),
        Change::Rename(from, to) => note(frame, rename(tree, alloc, from, to, at)),
        Change::Remove(path) => note(frame, Ok(remove(tree, path, at))),
        Change::Setx(path, key, bytes) => note(frame, set_key(tree, alloc, path, key, bytes, at)),
        Change::Dropx(path, key) => note(frame, Ok(drop_key(tree, path, key, at))),
        Change::Readonly(path, on) => note(frame, Ok(set_readonly(tree, path, on, at))),
        Change::LockVolume => note(frame, Ok(Ok(lock_volume(tree, at)))),
        Change::UnlockVolume => note(frame, Ok(Ok(unlock_volume(tree, at)))),
        Change::PermLock => note(frame, Ok(Ok(seal_volume(tree, at)))),
    }
}

/// Notes whether the tree has changed, and tells why a call was refused.
fn note(
    frame: &mut Frame,
    tried: Result<Result<bool, Refusal>, NoMemory>,
) -> Result<Option<Refusal>, AdmitErr>
    ensures { IsNoted tried frame.old frame.new result }
{
    match tried? {
        Ok(changed) => {
            frame.changed |= changed;
            Ok(None)
        }
        Err(refusal) => Ok(Some(refusal)),
    }
}
