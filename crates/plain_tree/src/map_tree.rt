ghost use Rattle.std.specs.Prelude.{◌≡◌, ℕ, List, ◌<◌, ◌+◌, ◌^◌, [], length, None, OnOk, OnErr, IfOk, IfNone};
ghost use Rattle.std.specs.Result.{result_err};
ghost use Rattle.plain_tree.specs.Refusals.{key_refusal, new_refusal, rename_refusal, no_file};
ghost use Rattle.plain_tree.specs.Valid.{IsValid};
ghost use Rattle.plain_tree.specs.Tree.{empty_tree, facts_of, flag_at, has_value, same_flag, sort_of, cells_at};
ghost use Rattle.plain_tree.specs.Calls.{after, after_unless, after_within, answer, answer_unless, answer_within, unlocked, with_new};

use crate::calls::{Answer, Call, Facts, LockState, Refusal};
use crate::changes::{NodeChange, NodeWrite, new_node, sort_of};
use crate::keys::MOST_KEYS;
use crate::lines::Lines;
use crate::node_map::NodeMap;
use crate::nodes::{Kind, Node};
use crate::paged::PagedFile;
use crate::paths::{is_below, parent, same_path};
use crate::refusals::{
    bad_key, bad_name, lock_refusal, no_dir, no_file, no_key, no_node, read_only,
};
use std::alloc::Global;
use std::marker::Model;
use tape_types::{Bytes, LONGEST_FILE, MOST_NODES, Moment, NoMemory, Text};

const LAST_UID: u64 = 1 << 62;

/// The tree as a map from paths to nodes.
#[derive(Drop)]
pub struct MapTree {
    highest: u64,
    lock: LockState,
    nodes: NodeMap,
    alloc: Global,
}

impl Model for MapTree {
    ghost use Rattle.std.specs.Prelude.{ℕ, refl};
    ghost use Rattle.std.specs.FinMap as fin;
    ghost use Rattle.std.specs.Coded.{codes, coded_list, coded_ℕ};
    ghost use Rattle.plain_tree.specs.declared.nodes.Node.{Node};
    ghost use Rattle.plain_tree.specs.contracts.nodes.Node as node;
    ghost use Rattle.plain_tree.specs.contracts.calls.LockState as state;
    ghost use Rattle.plain_tree.specs.Paths.{path_cmp};
    ghost use Rattle.plain_tree.specs.Tree.{Tree};

    ghost Value = { Tree };

    ghost coded = { Prim.hlevel (
      codes,
      state.the_row.coded,
      fin.code {R = path_cmp} (coded_list (coded_list coded_ℕ)) node.the_row.coded,
    ) };

    ghost view = { λ a. record { highest = a.highest; lock = a.lock; nodes = a.nodes } };
}

impl MapTree {
    /// The tree with the root alone.
    pub fn empty(alloc: Global, at: Moment) -> Result<MapTree, NoMemory>
        ensures { IfOk result (λ t. t ≡ empty_tree at) }
    {
        Ok(MapTree {
            highest: 1,
            lock: LockState::Absent,
            nodes: NodeMap::new(alloc, at),
            alloc,
        })
    }

    /// Answers a call, and changes the tree as it says. Without memory nothing changes.
    pub fn apply(&mut self, call: &Call, at: Moment) -> Result<Answer, NoMemory>
        requires { IsValid self.old }
        ensures answer { IfOk result (λ a. a ≡ answer self.old call.now) }
        ensures after { OnOk result (self.new ≡ after self.old call.now at) }
        ensures err { OnErr result (self.new ≡ self.old) }
    {
        match lock_refusal(self.lock, call) {
            Some(refusal) => Ok(Answer::Refused(refusal)),
            None => self.apply_within(call, at),
        }
    }

    /// The same of a call that the lock doesn't refuse.
    fn apply_within(&mut self, call: &Call, at: Moment) -> Result<Answer, NoMemory>
        requires { IsValid self.old }
        ensures answer { IfOk result (λ a. a ≡ answer_within self.old call.now) }
        ensures after { OnOk result (self.new ≡ after_within self.old call.now at) }
        ensures err { OnErr result (self.new ≡ self.old) }
    {
        match call {
            Call::Mkdir { path } => self.create(path.as_slice(), Kind::Dir, at),
            Call::Create { path } => {
                let file = Kind::File(PagedFile::new(self.alloc));
                self.create(path.as_slice(), file, at)
            }
            Call::Write {
                path,
                offset,
                bytes,
            } => self.write(path.as_slice(), *offset, bytes.as_slice(), at),
            Call::Truncate { path, length } => Ok(self.truncate(path.as_slice(), *length, at)),
            Call::Read {
                path,
                offset,
                count,
            } => self.read(path.as_slice(), *offset, *count),
            Call::Listing { path } => self.list(path.as_slice()),
            Call::Stat { path } => self.stat(path.as_slice()),
            Call::Rename { from, to } => self.rename(from.as_slice(), to.as_slice(), at),
            Call::Remove { path } => Ok(self.remove(path.as_slice(), at)),
            Call::Setx { path, key, bytes } => self.set_key(path.as_slice(), key, bytes, at),
            Call::Getx { path, key } => self.get_key(path.as_slice(), key),
            Call::Dropx { path, key } => Ok(self.drop_key(path.as_slice(), key, at)),
            Call::Readonly { path, on } => Ok(self.set_flag(path.as_slice(), *on, at)),
            Call::LockVolume => Ok(self.set_lock(LockState::Locked)),
            Call::UnlockVolume => Ok(self.unlock()),
            Call::PermLock => Ok(self.set_lock(LockState::PermLocked)),
            Call::Sync => Ok(Answer::Synced),
        }
    }

    fn create(&mut self, path: &[Text], kind: Kind, at: Moment) -> Result<Answer, NoMemory>
        requires { IsValid self.old }
        ensures answer { IfOk result (λ a. a ≡ answer_unless (new_refusal self.old path.now) Answer.Done) }
        ensures after { OnOk result (self.new
            ≡ after_unless (new_refusal self.old path.now) (with_new kind self.old path.now at) self.old) }
        ensures err { OnErr result (self.new ≡ self.old) }
    {
        if let Some(refusal) = self.new_refusal(path)? {
            return Ok(Answer::Refused(refusal));
        }
        let uid = self.highest + 1;
        self.nodes
            .insert(self.alloc, path, new_node(self.alloc, kind, uid, at))?;
        self.nodes.change(parent(path), NodeChange::Touch, at);
        self.highest = uid;
        Ok(Answer::Done)
    }

    fn write(
        &mut self,
        path: &[Text],
        offset: u64,
        bytes: &[u8],
        at: Moment,
    ) -> Result<Answer, NoMemory>
        ensures answer { IfOk result (λ a. a ≡ answer_within self.old (Call.Write path.now offset bytes.now)) }
        ensures after { OnOk result (self.new ≡ after_within self.old (Call.Write path.now offset bytes.now) at) }
        ensures err { OnErr result (self.new ≡ self.old) }
    {
        if let Some(refusal) = no_file(&self.nodes, path) {
            return Ok(Answer::Refused(refusal));
        }
        if let Some(refusal) = read_only(&self.nodes, path) {
            return Ok(Answer::Refused(refusal));
        }
        if offset > LONGEST_FILE || bytes.len() as u64 > LONGEST_FILE - offset {
            return Ok(Answer::Refused(Refusal::TooLong));
        }
        if !bytes.is_empty() {
            self.nodes
                .write(self.alloc, path, NodeWrite::File(offset, bytes), at)?;
        }
        Ok(Answer::Done)
    }

    fn truncate(&mut self, path: &[Text], size: u64, at: Moment) -> Answer
        ensures answer { result ≡ answer_within self.old (Call.Truncate path.now size) }
        ensures after { self.new ≡ after_within self.old (Call.Truncate path.now size) at }
    {
        let present = match file_length(&self.nodes, path) {
            Err(refusal) => return Answer::Refused(refusal),
            Ok(present) => present,
        };
        if let Some(refusal) = read_only(&self.nodes, path) {
            return Answer::Refused(refusal);
        }
        if size > LONGEST_FILE {
            return Answer::Refused(Refusal::TooLong);
        }
        if size != present {
            self.nodes.change(path, NodeChange::Resize(size), at);
        }
        Answer::Done
    }

    fn read(&self, path: &[Text], offset: u64, count: u64) -> Result<Answer, NoMemory>
        ensures { IfOk result (λ a. a ≡ answer_within self.now (Call.Read path.now offset count)) }
    {
        match self.nodes.find(path) {
            Err(refusal) => Ok(Answer::Refused(refusal)),
            Ok(node) => match &node.kind {
                Kind::Dir => Ok(Answer::Refused(Refusal::IsDir)),
                Kind::Link(_) => Ok(Answer::Refused(Refusal::IsLink)),
                Kind::File(file) => Ok(Answer::Got(file.read(offset, count)?)),
            },
        }
    }

    fn list(&self, path: &[Text]) -> Result<Answer, NoMemory>
        ensures { IfOk result (λ a. a ≡ answer_within self.now (Call.Listing path.now)) }
    {
        match no_dir(&self.nodes, path) {
            Some(refusal) => Ok(Answer::Refused(refusal)),
            None => {
                let entries = self.nodes.list(self.alloc, path)?;
                Ok(Answer::Names(Lines::new(self.alloc, entries)?))
            }
        }
    }

    fn remove(&mut self, path: &[Text], at: Moment) -> Answer
        requires { IsValid self.old }
        ensures answer { result ≡ answer_within self.old (Call.Remove path.now) }
        ensures after { self.new ≡ after_within self.old (Call.Remove path.now) at }
    {
        if path.is_empty() {
            return Answer::Refused(Refusal::Root);
        }
        if let Some(refusal) = no_node(&self.nodes, path) {
            return Answer::Refused(refusal);
        }
        if self.nodes.has_entries(path) {
            return Answer::Refused(Refusal::NotEmpty);
        }
        if let Some(refusal) = read_only(&self.nodes, parent(path)) {
            return Answer::Refused(refusal);
        }
        self.nodes.remove(path);
        self.nodes.change(parent(path), NodeChange::Touch, at);
        Answer::Done
    }

    fn set_key(
        &mut self,
        path: &[Text],
        key: &Text,
        bytes: &Bytes,
        at: Moment,
    ) -> Result<Answer, NoMemory>
        ensures answer { IfOk result (λ a. a ≡ answer_within self.old (Call.Setx path.now key.now bytes.now)) }
        ensures after { OnOk result (self.new ≡ after_within self.old (Call.Setx path.now key.now bytes.now) at) }
        ensures err { OnErr result (self.new ≡ self.old) }
    {
        if let Some(refusal) = self.key_refusal(path, key) {
            return Ok(Answer::Refused(refusal));
        }
        if !self.has_value(path, key, bytes) {
            self.nodes
                .write(self.alloc, path, NodeWrite::Key(key, bytes), at)?;
        }
        Ok(Answer::Done)
    }

    /// Why a node gets no such key.
    fn key_refusal(&self, path: &[Text], key: &Text) -> Option<Refusal>
        ensures { result ≡ key_refusal self.now.nodes path.now key.now }
    {
        if let Some(refusal) = bad_key(key) {
            return Some(refusal);
        }
        match self.nodes.find(path) {
            Err(refusal) => Some(refusal),
            Ok(node) if node.readonly => Some(Refusal::ReadOnly),
            Ok(node) if node.keys.len() >= MOST_KEYS && node.keys.get(key.as_str()).is_none() => {
                Some(Refusal::ManyKeys)
            }
            Ok(_) => None,
        }
    }

    /// Whether a key of the node at a path has these bytes.
    fn has_value(&self, path: &[Text], key: &Text, bytes: &Bytes) -> bool
        ensures { result ≡ has_value self.now.nodes path.now key.now bytes.now }
    {
        match self.nodes.find(path) {
            Err(_) => false,
            Ok(node) => match node.keys.get(key.as_str()) {
                None => false,
                Some(value) => value.as_slice() == bytes.as_slice(),
            },
        }
    }

    fn get_key(&self, path: &[Text], key: &Text) -> Result<Answer, NoMemory>
        ensures { IfOk result (λ a. a ≡ answer_within self.now (Call.Getx path.now key.now)) }
    {
        match self.nodes.find(path) {
            Err(refusal) => Ok(Answer::Refused(refusal)),
            Ok(node) => match node.keys.get(key.as_str()) {
                None => Ok(Answer::Refused(Refusal::NoKey)),
                Some(value) => Ok(Answer::Got(value.try_clone(self.alloc)?)),
            },
        }
    }

    fn drop_key(&mut self, path: &[Text], key: &Text, at: Moment) -> Answer
        ensures answer { result ≡ answer_within self.old (Call.Dropx path.now key.now) }
        ensures after { self.new ≡ after_within self.old (Call.Dropx path.now key.now) at }
    {
        if let Some(refusal) = no_node(&self.nodes, path) {
            return Answer::Refused(refusal);
        }
        if let Some(refusal) = no_key(&self.nodes, path, key) {
            return Answer::Refused(refusal);
        }
        if let Some(refusal) = read_only(&self.nodes, path) {
            return Answer::Refused(refusal);
        }
        self.nodes.change(path, NodeChange::DropKey(key), at);
        Answer::Done
    }

    fn set_flag(&mut self, path: &[Text], on: bool, at: Moment) -> Answer
        ensures answer { result ≡ answer_within self.old (Call.Readonly path.now on) }
        ensures after { self.new ≡ after_within self.old (Call.Readonly path.now on) at }
    {
        if let Some(refusal) = no_node(&self.nodes, path) {
            return Answer::Refused(refusal);
        }
        if !same_flag(self.flag_at(path), on) {
            self.nodes.change(path, NodeChange::Flag(on), at);
        }
        Answer::Done
    }

    /// Whether the node at a path is read-only.
    fn flag_at(&self, path: &[Text]) -> bool
        ensures { result ≡ flag_at self.now.nodes path.now }
    {
        match self.nodes.find(path) {
            Err(_) => false,
            Ok(node) => node.readonly,
        }
    }

    fn set_lock(&mut self, state: LockState) -> Answer
        ensures answer { result ≡ Answer.Done }
        ensures after { self.new ≡ record self.old { lock = state } }
    {
        self.lock = state;
        Answer::Done
    }

    fn unlock(&mut self) -> Answer
        ensures answer { result ≡ Answer.Done }
        ensures after { self.new ≡ record self.old { lock = unlocked self.old.lock } }
    {
        if self.lock == LockState::Locked {
            self.lock = LockState::Unlocked;
        }
        Answer::Done
    }

    fn stat(&self, path: &[Text]) -> Result<Answer, NoMemory>
        ensures { IfOk result (λ a. a ≡ answer_within self.now (Call.Stat path.now)) }
    {
        match self.nodes.find(path) {
            Err(refusal) => Ok(Answer::Refused(refusal)),
            Ok(node) => Ok(Answer::Facts(facts_of(self.alloc, node)?)),
        }
    }

    fn rename(&mut self, from: &[Text], to: &[Text], at: Moment) -> Result<Answer, NoMemory>
        requires { IsValid self.old }
        ensures answer { IfOk result (λ a. a ≡ answer_within self.old (Call.Rename from.now to.now)) }
        ensures after { OnOk result (self.new ≡ after_within self.old (Call.Rename from.now to.now) at) }
        ensures err { OnErr result (self.new ≡ self.old) }
    {
        if let Some(refusal) = self.rename_refusal(from, to)? {
            return Ok(Answer::Refused(refusal));
        }
        if !same_path(from, to) {
            self.nodes.rename(self.alloc, from, to)?;
            self.nodes.change(to, NodeChange::Note, at);
            self.nodes.change(parent(from), NodeChange::Touch, at);
            self.nodes.change(parent(to), NodeChange::Touch, at);
        }
        Ok(Answer::Done)
    }

    /// Why a node may not move to another path.
    fn rename_refusal(&self, from: &[Text], to: &[Text]) -> Result<Option<Refusal>, NoMemory>
        ensures { IfOk result (λ refusal. refusal ≡ rename_refusal self.now.nodes from.now to.now) }
    {
        if let Some(refusal) = bad_name(self.alloc, to)? {
            return Ok(Some(refusal));
        }
        if from.is_empty() || to.is_empty() {
            return Ok(Some(Refusal::Root));
        }
        if let Some(refusal) = no_node(&self.nodes, from) {
            return Ok(Some(refusal));
        }
        if let Some(refusal) = no_dir(&self.nodes, parent(to)) {
            return Ok(Some(refusal));
        }
        if same_path(from, to) {
            return Ok(None);
        }
        if self.nodes.contains(to) {
            return Ok(Some(Refusal::Exists));
        }
        if is_below(from, to) {
            return Ok(Some(Refusal::Inside));
        }
        match read_only(&self.nodes, parent(from)) {
            Some(refusal) => Ok(Some(refusal)),
            None => Ok(read_only(&self.nodes, parent(to))),
        }
    }

    /// Why a new node may not stand at the path.
    fn new_refusal(&self, path: &[Text]) -> Result<Option<Refusal>, NoMemory>
        ensures value { IfOk result (λ refusal. refusal ≡ new_refusal self.now path.now) }
        ensures room { IfOk result (λ refusal. IfNone refusal ((0 < length path.now) × (self.now.highest < 2 ^ 62))) }
    {
        if let Some(refusal) = bad_name(self.alloc, path)? {
            return Ok(Some(refusal));
        }
        if path.is_empty() {
            return Ok(Some(Refusal::Root));
        }
        if let Some(refusal) = no_dir(&self.nodes, parent(path)) {
            return Ok(Some(refusal));
        }
        if self.nodes.contains(path) {
            return Ok(Some(Refusal::Exists));
        }
        if let Some(refusal) = read_only(&self.nodes, parent(path)) {
            return Ok(Some(refusal));
        }
        if self.nodes.len() >= MOST_NODES as usize || self.highest >= LAST_UID {
            return Ok(Some(Refusal::TooMany));
        }
        Ok(None)
    }
}

fn same_flag(flag: bool, on: bool) -> bool
    ensures { result ≡ same_flag flag on }
{
    if on { flag } else { !flag }
}

/// The length of the file at a path, or why it is no file.
fn file_length(nodes: &NodeMap, path: &[Text]) -> Result<u64, Refusal>
    ensures refusal { result_err result ≡ no_file nodes.now path.now }
    ensures length { IfOk result (λ n. n ≡ length (cells_at nodes.now path.now)) }
{
    match nodes.find(path) {
        Err(refusal) => Err(refusal),
        Ok(node) => match &node.kind {
            Kind::Dir => Err(Refusal::IsDir),
            Kind::File(file) => Ok(file.len()),
            Kind::Link(_) => Err(Refusal::IsLink),
        },
    }
}

fn facts_of(alloc: Global, node: &Node) -> Result<Facts, NoMemory>
    ensures { IfOk result (λ facts. facts ≡ facts_of node.now) }
{
    let length = match &node.kind {
        Kind::File(file) => file.len(),
        Kind::Dir | Kind::Link(_) => 0,
    };
    let text = match &node.kind {
        Kind::Link(text) => text.try_clone(alloc)?,
        Kind::Dir | Kind::File(_) => Text::from_string(String::new(alloc)),
    };
    Ok(Facts {
        sort: sort_of(&node.kind),
        uid: node.uid,
        length,
        text,
        times: node.times,
    })
}
