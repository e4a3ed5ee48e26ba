ghost use Rattle.std.specs.Prelude.{◌≡◌, ℕ, ◌<◌, ◌≤◌, List, Some};
ghost use Rattle.std.specs.List.{slice_index};
ghost use Rattle.tape_types.specs.Bounds.{longest_file};
ghost use Rattle.extent_map.specs.Laid.{Room};
ghost use Rattle.plain_tree.specs.Paths.{Path};
ghost use Rattle.file_tree.specs.Tree.{HasExtents, number_at};
ghost use Rattle.file_tree.specs.Edits.{IsNewKind, IsLongAt, made_node};

use crate::carried::{Carried, Heading, lock_of};
use crate::changes::{NodeChange, NodeRoom};
use crate::found::{Found, facts_of, lost_below, sort_of};
use crate::mount::place_nodes;
use crate::nodes::{HeldKind, Node};
use crate::places::Places;
use crate::raws::Letters;
use extent_map::Extents;
use index_model::Index;
use plain_tree::{Entry, Facts, LockState, Sort};
use std::alloc::Global;
use std::marker::Model;
use tape_types::node_keys::Keys;
use tape_types::{Bytes, Extent, List, Moment, NoMemory, Text, Times};

/// The tree of a volume while the server runs: directories, files as extents, and links (LTFS 2.4 on the index). Each
/// node has a number as long as it is there.
#[derive(Drop)]
pub struct Tree {
    places: Places,
    volume: Text,
    block_size: u32,
    highest: u64,
    lock: LockState,
    alloc: Global,
}

impl Model for Tree {
    ghost use Rattle.std.specs.Prelude.{ℕ, List, refl};
    ghost use Rattle.std.specs.FinMap as fin;
    ghost use Rattle.std.specs.Coded.{coded_list, coded_ℕ, coded×, code_by};
    ghost use Rattle.plain_tree.specs.Paths.{path_cmp};
    ghost use Rattle.plain_tree.specs.declared.calls.LockState.{LockState};
    ghost use Rattle.plain_tree.specs.contracts.calls.LockState as state;
    ghost use Rattle.file_tree.specs.declared.nodes.Node.{Node};
    ghost use Rattle.file_tree.specs.contracts.nodes.Node as node;
    ghost use Rattle.file_tree.specs.Tree.{FileTree};
    ghost use Rattle.file_tree.specs.Valid.{IsGood};

    ghost Value = { FileTree };

    ghost coded = { code_by (ℕ × (LockState × (List ℕ × (ℕ × (fin.FinMap path_cmp Node × ℕ)))))
        (coded× coded_ℕ (coded× state.the_row.coded (coded× (coded_list coded_ℕ) (coded× coded_ℕ
        (coded× (fin.code (coded_list (coded_list coded_ℕ)) node.the_row.coded) coded_ℕ)))))
        (λ t. (t.highest, (t.lock, (t.name, (t.block_size, (t.nodes, t.spare))))))
        (λ p. record {
          highest = p.0;
          lock = p.1.0;
          name = p.1.1.0;
          block_size = p.1.1.1.0;
          nodes = p.1.1.1.1.0;
          spare = p.1.1.1.1.1;
        }) (λ _. refl) };

    ghost view = { λ a. record {
      highest = a.highest;
      lock = a.lock;
      name = a.volume;
      block_size = a.block_size;
      nodes = a.places.nodes;
      spare = a.places.spare;
    } };

    ghost invariant = { λ a. IsGood (record {
      highest = a.highest;
      lock = a.lock;
      name = a.volume;
      block_size = a.block_size;
      nodes = a.places.nodes;
      spare = a.places.spare;
    }) };
}

impl Tree {
    ghost use Rattle.std.specs.Prelude.{◌≡◌, ◌≢◌, ℕ, ◌+◌, ◌≤◌, ◌==◌, if◌then◌else◌, nat_lt, length, List, []};
    ghost use Rattle.std.specs.Prelude.{◌∷◌, ◌++◌, Some, OnOk, IfOk};
    ghost use Rattle.std.specs.Option.{option_map};
    ghost use Rattle.std.specs.FinMap as fin;
    ghost use Rattle.extent_map.specs.Laid.{Laid, Room, overlaid, resized};
    ghost use Rattle.extent_map.specs.Cells.{Tape};
    ghost use Rattle.plain_tree.specs.declared.calls.Call.TheVariants as asks;
    ghost use Rattle.plain_tree.specs.Paths.{Path, moved_path, parent_of};
    ghost use Rattle.file_tree.specs.Tree.{StandsAt, HasExtents, HasLaid, number_at, plain_of, whole};
    ghost use Rattle.plain_tree.specs.declared.nodes.Node.{Node as PlainNode};
    ghost use Rattle.plain_tree.specs.Tree.{entries_in, facts_of, flag_at, key_count, value_at};
    ghost use Rattle.plain_tree.specs.Refusals.{no_node};
    ghost use Rattle.file_tree.specs.Places.{IsThere};
    ghost use Rattle.file_tree.specs.Mounts.{CanMount, IsTreeOf};
    ghost use Rattle.file_tree.specs.Reads.{IsFound, refusal_found, IsOfSort};
    ghost use Rattle.file_tree.specs.Carried.{index_of_tree};
    ghost use Rattle.file_tree.specs.Told.{told_nodes};
    ghost use Rattle.file_tree.specs.Valid.{IsFileOf, IsGood};
    ghost use Rattle.file_tree.specs.Blocks.{AddsNoBlock, AddsBlocksOf};
    ghost use Rattle.file_tree.specs.Edits.{CanMake, CanUnlink, CanMoveTo, CanWrite, IsAfter, IsWritten, IsTruncated};
    ghost use Rattle.file_tree.specs.Edits.{CanSetKey, CanDropKey, CanFlag, HasKeyRoom, KeepsOutline};
    ghost use Rattle.file_tree.specs.Edits.{NumbersCome, AllLie, OthersLie, KeepsVolume};

    /// The tree of a valid index. The letters are those of the index partition and the data partition, and each block
    /// of the volume has so many bytes. The extents that have bytes are on one of these partitions.
    pub fn from_index(
        alloc: Global,
        index: &Index,
        letters: Letters,
        block_size: u32,
    ) -> Result<Tree, NoMemory>
        requires { CanMount index.now letters block_size }
        ensures { IfOk result (λ t. IsTreeOf letters block_size index.now t) }
    {
        let nodes = index.nodes.as_slice();
        let places = place_nodes(alloc, nodes, letters, block_size)?;
        let volume = nodes[0].name.try_clone(alloc)?;
        Ok(Tree {
            places,
            volume,
            block_size,
            highest: index.highest,
            lock: lock_of(index.lock),
            alloc,
        })
    }

    /// The highest uid that was ever given.
    pub fn highest(&self) -> u64
        ensures { result ≡ self.now.highest }
    {
        self.highest
    }

    /// The lock state of the volume.
    pub fn lock(&self) -> LockState
        ensures { result ≡ self.now.lock }
    {
        self.lock
    }

    /// Sets the lock state.
    pub fn set_lock(&mut self, state: LockState)
        ensures { self.new ≡ record self.old { lock = state } }
    {
        self.lock = state;
    }

    /// How many nodes there are, the root among them.
    pub fn count(&self) -> u32
        ensures count { result ≡ fin.len self.now.nodes }
        ensures good { IsGood self.now }
    {
        self.places.len()
    }

    /// What a path leads to.
    pub fn find(&self, path: &[Text]) -> Found
        ensures number { IsFound self.now path.now result }
        ensures refusal { (tape : Tape) → no_node (plain_of tape self.now).nodes path.now ≡ refusal_found result }
    {
        match self.places.find(path) {
            Ok(number) => Found::Node(number),
            Err(last) => lost_below(&self.places.node(last).kind),
        }
    }

    /// The number of the node under a name in a directory.
    pub fn child(&self, dir: u32, name: &Text) -> Option<u32>
        requires { IsThere self.now.nodes dir }
        ensures { (path : Path) → StandsAt self.now path dir
            → number_at self.now.nodes (path ++ name.now ∷ []) ≡ result }
    {
        self.places.child(dir, name)
    }

    /// The same, of a name that is mostly free.
    pub fn taken(&self, dir: u32, name: &Text) -> Option<u32>
        requires { IsThere self.now.nodes dir }
        ensures { (path : Path) → StandsAt self.now path dir
            → number_at self.now.nodes (path ++ name.now ∷ []) ≡ result }
    {
        self.places.taken(dir, name)
    }

    /// The number of the directory that a node is in.
    pub fn parent(&self, number: u32) -> u32
        requires { IsThere self.now.nodes number }
        ensures { (path : Path) → StandsAt self.now path number → StandsAt self.now (parent_of path) result }
    {
        self.places.parent(number)
    }

    /// What a node is.
    pub fn sort(&self, number: u32) -> Sort
        requires { IsThere self.now.nodes number }
        ensures { IsOfSort self.now number result }
    {
        sort_of(&self.places.node(number).kind)
    }

    /// The facts of a node.
    pub fn facts(&self, alloc: Global, number: u32) -> Result<Facts, NoMemory>
        requires { IsThere self.now.nodes number }
        ensures { IfOk result (λ facts. (tape : Tape) (path : Path) (node : PlainNode)
            → StandsAt self.now path number → fin.get (plain_of tape self.now).nodes path ≡ Some node
            → facts ≡ facts_of node) }
    {
        facts_of(alloc, self.places.node(number))
    }

    /// Whether a node is read-only.
    pub fn is_readonly(&self, number: u32) -> bool
        requires { IsThere self.now.nodes number }
        ensures { (tape : Tape) (path : Path) → StandsAt self.now path number
            → result ≡ flag_at (plain_of tape self.now).nodes path }
    {
        self.places.node(number).readonly
    }

    /// The bytes of a key of a node; none where it has no such key.
    pub fn get_key(&self, number: u32, key: &str) -> Option<&Bytes>
        requires { IsThere self.now.nodes number }
        ensures { (tape : Tape) (path : Path) → StandsAt self.now path number
            → option_map (λ b. b.now) result ≡ value_at (plain_of tape self.now).nodes path key.now }
    {
        self.places.node(number).keys.get(key)
    }

    /// How many keys a node has.
    pub fn key_count(&self, number: u32) -> usize
        requires { IsThere self.now.nodes number }
        ensures { (tape : Tape) (path : Path) → StandsAt self.now path number
            → result ≡ key_count (plain_of tape self.now).nodes path }
    {
        self.places.node(number).keys.len()
    }

    /// Whether anything stands directly in a directory.
    pub fn has_entries(&self, dir: u32) -> bool
        requires { IsThere self.now.nodes dir }
        ensures { (path : Path) → StandsAt self.now path dir
            → result ≡ nat_lt 0 (length (entries_in (plain_of whole self.now).nodes path)) }
    {
        self.places.has_entries(dir)
    }

    /// What stands directly in a directory, by the bytes of the names.
    pub fn children(&self, alloc: Global, dir: u32) -> Result<List<Entry>, NoMemory>
        requires { IsThere self.now.nodes dir }
        ensures { IfOk result (λ entries. (tape : Tape) (path : Path) → StandsAt self.now path dir
            → entries ≡ entries_in (plain_of tape self.now).nodes path) }
    {
        self.places.list(alloc, dir)
    }

    /// The nodes in the order of the document (LTFS 2.4 on the index): a directory before what is in it, and children
    /// by the bytes of their names. The letters are those of the index partition and the data partition.
    pub fn to_nodes(
        &self,
        alloc: Global,
        letters: Letters,
    ) -> Result<List<index_model::Node>, NoMemory>
        ensures { IfOk result (λ nodes. nodes ≡ told_nodes letters self.now) }
    {
        self.places.to_nodes(alloc, &self.volume, letters)
    }

    /// The index that tells the tree, with this heading and the facts that the volume's indexes carry on.
    pub fn to_index(
        &self,
        alloc: Global,
        letters: Letters,
        heading: Heading,
        carried: &Carried,
    ) -> Result<Index, NoMemory>
        ensures { IfOk result (λ index. index ≡ index_of_tree letters heading carried.now self.now) }
    {
        let nodes = self.to_nodes(alloc, letters)?;
        carried.to_index(alloc, heading, self.lock, self.highest, nodes)
    }

    /// Makes room for one more node.
    pub fn reserve(&mut self) -> Result<(), NoMemory>
        ensures nodes { self.new.nodes ≡ self.old.nodes }
        ensures highest { self.new.highest ≡ self.old.highest }
        ensures lock { self.new.lock ≡ self.old.lock }
        ensures volume { KeepsVolume self.old self.new }
        ensures room { OnOk result (1 ≤ self.new.spare) }
    {
        self.places.reserve()
    }

    /// Makes an empty directory or file under a name in a directory, and gives its number. Needs one `reserve` before,
    /// and takes no memory.
    pub fn make(&mut self, dir: u32, name: Text, sort: Sort, at: Moment) -> u32
        requires { CanMake self.old dir name sort }
        ensures plain { (c : CanMake self.old dir name sort) → IsAfter c.call at self.old self.new }
        ensures number { (path : Path) → StandsAt self.old path dir → StandsAt self.new (path ++ name ∷ []) result }
        ensures numbers { NumbersCome (λ p. p) self.old self.new }
        ensures fresh { (path : Path) → StandsAt self.old path result → ⊥ }
        ensures extents { OthersLie result self.old self.new }
        ensures blocks { AddsNoBlock self.old self.new }
        ensures empty { sort ≡ Sort.File
            → HasLaid self.new.nodes result (record { block_size = self.old.block_size; length = 0; extents = [] }) }
        ensures volume { KeepsVolume self.old self.new }
        ensures room { self.old.spare ≤ self.new.spare + 1 }
    {
        // A name is UTF-8.
        let _is_text = name.as_str();
        let uid = self.highest + 1;
        let kind = new_kind(self.alloc, sort, self.block_size);
        let node = new_node(self.alloc, uid, kind, at);
        let number = self.places.put(dir, name, node);
        self.places.change(dir, NodeChange::Touch, at);
        self.highest = uid;
        number
    }

    /// Takes out a file, a link or an empty directory. Takes no memory.
    pub fn unlink(&mut self, number: u32, at: Moment)
        requires { CanUnlink self.old number }
        ensures plain { (path : Path) → StandsAt self.old path number
            → IsAfter (asks.Remove path) at self.old self.new }
        ensures gone { (path : Path) → StandsAt self.new path number → ⊥ }
        ensures numbers { (path : Path) (other : ℕ) → other ≢ number → StandsAt self.old path other
            → StandsAt self.new path other }
        ensures extents { OthersLie number self.old self.new }
        ensures blocks { AddsNoBlock self.old self.new }
        ensures volume { KeepsVolume self.old self.new }
        ensures room { self.new.spare ≡ self.old.spare }
    {
        let dir = self.places.parent(number);
        self.places.take(number);
        self.places.change(dir, NodeChange::Touch, at);
    }

    /// Moves a node, and all below it, under a name into a directory. Takes no memory.
    pub fn move_to(&mut self, number: u32, dir: u32, name: Text, at: Moment)
        requires { CanMoveTo self.old number dir name }
        ensures plain { (from up : Path) → StandsAt self.old from number → StandsAt self.old up dir
            → IsAfter (asks.Rename from (up ++ name ∷ [])) at self.old self.new }
        ensures numbers { (from up : Path) → StandsAt self.old from number → StandsAt self.old up dir
            → NumbersCome (moved_path from (up ++ name ∷ [])) self.old self.new }
        ensures extents { AllLie self.old self.new }
        ensures blocks { AddsNoBlock self.old self.new }
        ensures volume { KeepsVolume self.old self.new }
        ensures room { self.new.spare ≡ self.old.spare }
    {
        // A name is UTF-8.
        let _is_text = name.as_str();
        let old = self.places.parent(number);
        self.places.shift(number, dir, name);
        self.places.change(number, NodeChange::Note, at);
        self.places.change(old, NodeChange::Touch, at);
        self.places.change(dir, NodeChange::Touch, at);
    }

    /// The extents of a file.
    pub fn extents(&self, file: u32) -> &Extents
        requires { (room : Room) × HasExtents self.now.nodes file room }
        ensures extents { HasExtents self.now.nodes file result.now }
        ensures laid { IsFileOf self.now.block_size result.now.laid }
    {
        match &self.places.node(file).kind {
            HeldKind::File(extents) => extents,
            HeldKind::Dir | HeldKind::Link(_) => unreachable!(),
        }
    }

    /// Makes room for one overlay of a file.
    pub fn reserve_extent(&mut self, file: u32) -> Result<(), NoMemory>
        requires { (room : Room) × HasExtents self.old.nodes file room }
        ensures plain { (tape : Tape) → plain_of tape self.new ≡ plain_of tape self.old }
        ensures numbers { NumbersCome (λ p. p) self.old self.new }
        ensures extents { AllLie self.old self.new }
        ensures blocks { AddsNoBlock self.old self.new }
        ensures room { OnOk result ((room : Room) → HasExtents self.new.nodes file room → 2 ≤ room.spare) }
        ensures volume { KeepsVolume self.old self.new }
        ensures spare { self.new.spare ≡ self.old.spare }
    {
        self.places.reserve_in(file, NodeRoom::Extent)
    }

    /// Puts an extent in place of what a file has in its range, and makes the file longer where it ends past it. Needs
    /// one `reserve_extent` before, and takes no memory.
    pub fn overlay(&mut self, file: u32, new: Extent, at: Moment)
        requires { CanWrite self.old file new }
        ensures plain { IsWritten file new at self.old self.new }
        ensures numbers { NumbersCome (λ p. p) self.old self.new }
        ensures extents { (laid : Laid) → HasLaid self.old.nodes file laid
            → HasLaid self.new.nodes file (overlaid laid new) }
        ensures others { OthersLie file self.old self.new }
        ensures blocks { AddsBlocksOf new self.old self.new }
        ensures volume { KeepsVolume self.old self.new }
        ensures room { self.new.spare ≡ self.old.spare }
    {
        // No two paths lead to one number.
        let _numbers_differ = self.places.len();
        self.places.change(file, NodeChange::Overlay(new), at);
    }

    /// Cuts a file, or makes it longer by bytes that are 0. The length that it has changes nothing. Takes no memory.
    pub fn set_length(&mut self, file: u32, length: u64, at: Moment)
        requires file { (room : Room) × HasExtents self.old.nodes file room }
        requires fits { length ≤ longest_file }
        ensures plain { IsTruncated file length at self.old self.new }
        ensures numbers { NumbersCome (λ p. p) self.old self.new }
        ensures extents { (laid : Laid) → HasLaid self.old.nodes file laid
            → HasLaid self.new.nodes file (if length == laid.length then laid else resized laid length) }
        ensures others { OthersLie file self.old self.new }
        ensures blocks { AddsNoBlock self.old self.new }
        ensures volume { KeepsVolume self.old self.new }
        ensures room { self.new.spare ≡ self.old.spare }
    {
        if length_of(&self.places, file) != length {
            self.places.change(file, NodeChange::Resize(length), at);
        }
    }

    /// Makes room for one more key of a node.
    pub fn reserve_key(&mut self, number: u32) -> Result<(), NoMemory>
        requires { IsThere self.old.nodes number }
        ensures plain { (tape : Tape) → plain_of tape self.new ≡ plain_of tape self.old }
        ensures outline { KeepsOutline self.old self.new }
        ensures room { OnOk result (HasKeyRoom self.new number) }
    {
        self.places.reserve_in(number, NodeRoom::Key)
    }

    /// Gives a key of a node its bytes, and notes the change. Needs one `reserve_key` before, and takes no memory.
    pub fn set_key(&mut self, number: u32, key: Text, value: Bytes, at: Moment)
        requires { CanSetKey self.old number key value }
        ensures plain { (path : Path) → StandsAt self.old path number
            → IsAfter (asks.Setx path key value) at self.old self.new }
        ensures outline { KeepsOutline self.old self.new }
    {
        // A key is UTF-8, and a value is bytes.
        let _is_text = key.as_str();
        each_is_byte(value.as_slice());
        self.places
            .change(number, NodeChange::SetKey(key, value), at);
    }

    /// Takes out a key that stands, and notes the change. Takes no memory.
    pub fn drop_key(&mut self, number: u32, key: &Text, at: Moment)
        requires { CanDropKey self.old number key.now }
        ensures plain { (path : Path) → StandsAt self.old path number
            → IsAfter (asks.Dropx path key.now) at self.old self.new }
        ensures outline { KeepsOutline self.old self.new }
    {
        self.places.change(number, NodeChange::DropKey(key), at);
    }

    /// Makes a node read-only or no longer, and notes the change. Takes no memory.
    pub fn set_readonly(&mut self, number: u32, on: bool, at: Moment)
        requires { CanFlag self.old number on }
        ensures plain { (path : Path) → StandsAt self.old path number
            → IsAfter (asks.Readonly path on) at self.old self.new }
        ensures outline { KeepsOutline self.old self.new }
    {
        self.places.change(number, NodeChange::Flag(on), at);
    }
}

/// The length of a file, in bytes.
fn length_of(places: &Places, file: u32) -> u64
    requires { (room : Room) × HasExtents places.now.nodes file room }
    ensures { (path : Path) → number_at places.now.nodes path ≡ Some file → IsLongAt places.now.nodes path result }
{
    match &places.node(file).kind {
        HeldKind::File(extents) => extents.length(),
        HeldKind::Dir | HeldKind::Link(_) => unreachable!(),
    }
}

/// Does nothing: each element of a slice of bytes is below 256.
fn each_is_byte(bytes: &[u8])
    ensures { (i : ℕ) → slice_index bytes.now i < 256 }
{
    let _count = bytes.len();
}

/// What a new node is. Takes no memory.
fn new_kind(alloc: Global, sort: Sort, block_size: u32) -> HeldKind
    requires { 1 ≤ block_size }
    ensures { IsNewKind block_size sort result }
{
    match sort {
        Sort::Dir | Sort::Link => HeldKind::Dir,
        Sort::File => HeldKind::File(Extents::new(alloc, block_size)),
    }
}

/// A node without attributes. Takes no memory.
fn new_node(alloc: Global, uid: u64, kind: HeldKind, at: Moment) -> Node
    ensures { result ≡ made_node uid kind at }
{
    Node {
        number: 0,
        uid,
        times: Times::all_at(at),
        readonly: false,
        keys: Keys::new(alloc),
        kind,
    }
}
