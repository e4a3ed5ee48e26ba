ghost use Rattle.std.specs.Prelude.{◌≡◌, ◌≢◌, ℕ, ◌+◌, ◌<◌, ◌≤◌, [], ◌∷◌, ◌++◌, length, reverse, Some, None};
ghost use Rattle.std.specs.Prelude.{OnOk, vec_capacity};
ghost use Rattle.std.specs.FinMap as fin;
ghost use Rattle.plain_tree.specs.Paths.{Path};
ghost use Rattle.file_tree.specs.Tree.{number_at};
ghost use Rattle.file_tree.specs.Seen.{held};
ghost use Rattle.file_tree.specs.Order.{AreEmpty};
ghost use Rattle.file_tree.specs.Places.{used, CanStore, IsSetIn};

use crate::changes::{NodeChange, NodeRoom};
use crate::guesses::Guesses;
use crate::listing::lines_of;
use crate::members::{child, is_child, name_in, name_out, named};
use crate::nodes::Node;
use crate::raws::Letters;
use crate::store::Store;
use crate::told::{places_of, told_node};
use index_model::Node as ToldNode;
use name_tries::Tries;
use plain_tree::Entry;
use std::alloc::Global;
use std::marker::Model;
use tape_types::{List, Moment, NoMemory, Text};

/// The nodes at their numbers, and beside them for each directory a trie over the names in it. So a node is found past at
/// most nine forks for each byte of the longest name there, however many others there are, and is put in, moved and taken
/// out by a few such look-ups. What is in a directory is told along its trie, in the order of the names. Where more than
/// a few forks lead to a name, the node that is likely under it is looked at before.
#[derive(Drop)]
pub struct Places {
    store: Store,
    names: Tries,
    guesses: Guesses,
    free: Vec<u32>,
}

impl Model for Places {
    ghost use Rattle.std.specs.Prelude.{ℕ, ◌-◌, refl, length, vec_capacity};
    ghost use Rattle.std.specs.FinMap as fin;
    ghost use Rattle.std.specs.Coded.{coded_list, coded_ℕ, coded×, code_by};
    ghost use Rattle.plain_tree.specs.Paths.{path_cmp};
    ghost use Rattle.file_tree.specs.declared.nodes.Node.{Node};
    ghost use Rattle.file_tree.specs.contracts.nodes.Node as node;
    ghost use Rattle.file_tree.specs.Places.{Stored, least};
    ghost use Rattle.file_tree.specs.Beside.{IsIndexed};

    ghost Value = { Stored };

    ghost coded = { code_by (fin.FinMap path_cmp Node × (ℕ × ℕ))
        (coded× (fin.code (coded_list (coded_list coded_ℕ)) node.the_row.coded) (coded× coded_ℕ coded_ℕ))
        (λ t. (t.nodes, (t.spare, t.slots))) (λ p. record { nodes = p.0; spare = p.1.0; slots = p.1.1 }) (λ _. refl) };

    ghost view = { λ a. record {
      nodes = a.store.nodes;
      spare = least a.store.spare (length a.names.owned.items - length a.store.spots)
          (vec_capacity a.free - length a.store.spots);
      slots = length a.store.spots;
    } };

    ghost invariant = { λ a. IsIndexed a.store.spots a.names a.free.items (vec_capacity a.free) };
}

impl Places {
    ghost use Rattle.std.specs.Prelude.{◌≡◌, ◌≢◌, ℕ, ◌+◌, ◌≤◌, nat_lt, length, List, [], ◌∷◌, ◌++◌, map, Some, OnOk};
    ghost use Rattle.std.specs.Prelude.{IfOk, IfErr};
    ghost use Rattle.std.specs.FinMap as fin;
    ghost use Rattle.file_tree.specs.declared.nodes.Node.{Node};
    ghost use Rattle.plain_tree.specs.Paths.{Path, parent_of, last_name};
    ghost use Rattle.file_tree.specs.Tree.{number_at, moved, plain_nodes, whole};
    ghost use Rattle.extent_map.specs.Cells.{Tape};
    ghost use Rattle.plain_tree.specs.Tree.{entries_in};
    ghost use Rattle.file_tree.specs.Changes.{CanChange, IsChangedAt, IsChangedBy, IsRoomier, HasRoom};
    ghost use Rattle.file_tree.specs.Told.{name_or, told_of, told_in, ArePlaces};
    ghost use Rattle.file_tree.specs.Order.{IsRunOf};
    ghost use Rattle.file_tree.specs.Places.{IsThere, IsLast, CanPut, CanTake, CanShift};

    /// The nodes that are stored, where no place is empty.
    pub fn from_store(alloc: Global, store: Store) -> Result<Places, NoMemory>
        requires { length store.spots ≡ fin.len store.nodes }
        ensures { IfOk result (λ t. t.nodes ≡ store.nodes) }
    {
        let slots = store.spots().len();
        let mut guesses = Guesses::new(alloc, slots)?;
        let names = named(alloc, store.spots(), &mut guesses)?;
        let mut free = Vec::new(alloc);
        free.reserve(slots)?;
        Ok(Places {
            store,
            names,
            guesses,
            free,
        })
    }

    pub fn len(&self) -> u32
        ensures count { result ≡ fin.len self.now.nodes }
        ensures apart { (p q : Path) (number : ℕ) → number_at self.now.nodes p ≡ Some number
            → number_at self.now.nodes q ≡ Some number → p ≡ q }
    {
        self.store.len()
    }

    /// The node with a number.
    pub fn node(&self, number: u32) -> &Node
        requires { IsThere self.now.nodes number }
        ensures { (path : Path) → number_at self.now.nodes path ≡ Some number
            → fin.get self.now.nodes path ≡ Some result.now }
    {
        self.store.node(number)
    }

    /// The number of the directory that a node is in.
    pub fn parent(&self, number: u32) -> u32
        requires { IsThere self.now.nodes number }
        ensures parent { (path : Path) (name : List ℕ) → number_at self.now.nodes (path ++ name ∷ []) ≡ Some number
            → number_at self.now.nodes path ≡ Some result }
        ensures above { (path : Path) → number_at self.now.nodes path ≡ Some number
            → number_at self.now.nodes (parent_of path) ≡ Some result }
        ensures apart { (p q : Path) (n : ℕ) → number_at self.now.nodes p ≡ Some n
            → number_at self.now.nodes q ≡ Some n → p ≡ q }
    {
        self.store.parent(number)
    }

    /// The numbers of what is in a directory, by the bytes of the names.
    fn run(&self, alloc: Global, dir: u32) -> Result<Vec<u32>, NoMemory>
        requires { IsThere self.now.nodes dir }
        ensures { IfOk result (λ numbers. IsRunOf self.now.nodes dir numbers.items) }
    {
        // The store holds the nodes that are shown.
        let _shown = self.store.spots();
        self.names.numbers(alloc, dir)
    }

    /// The numbers of all nodes, in the order of their paths.
    fn numbers(&self, alloc: Global) -> Result<Vec<u32>, NoMemory>
        ensures { IfOk result (λ numbers. numbers.items ≡ map (λ e. e.1.number) (fin.entries self.now.nodes)) }
    {
        // The store holds the nodes that are shown.
        let _shown = self.store.spots();
        let mut numbers = Vec::new(alloc);
        let mut open = vec![in alloc; 0u32; 1]?;
        while let Some(number) = open.pop() {
            numbers.push(number)?;
            let inside = self.run(alloc, number)?;
            push_run(&mut open, &inside)?;
        }
        Ok(numbers)
    }

    /// The last name of a node's path, or for the root that of the volume.
    fn name_told(&self, alloc: Global, number: u32, volume: &Text) -> Result<Text, NoMemory>
        requires { IsThere self.now.nodes number }
        ensures { IfOk result (λ name. (path : Path) → number_at self.now.nodes path ≡ Some number
            → name ≡ name_or volume.now (last_name path)) }
    {
        // No two paths lead to one number.
        let _shown = self.store.len();
        if number == 0 {
            return Ok(volume.try_clone(alloc)?);
        }
        Ok(self.store.name(number).try_clone(alloc)?)
    }

    /// A node as an index tells it, with the places of all nodes at their numbers.
    fn told(
        &self,
        alloc: Global,
        number: u32,
        places: &[u32],
        volume: &Text,
        letters: Letters,
    ) -> Result<ToldNode, NoMemory>
        requires there { IsThere self.now.nodes number }
        requires places { ArePlaces self.now.nodes places.now }
        ensures { IfOk result (λ told. (path : Path) (node : Node) → fin.get self.now.nodes path ≡ Some node
            → node.number ≡ number → told ≡ told_of letters volume.now (fin.keys self.now.nodes) (path, node)) }
    {
        let name = self.name_told(alloc, number, volume)?;
        let parent = places[self.parent(number) as usize];
        told_node(alloc, self.node(number), parent, name, letters)
    }

    /// The nodes as an index tells them, in the order of their paths.
    pub fn to_nodes(
        &self,
        alloc: Global,
        volume: &Text,
        letters: Letters,
    ) -> Result<List<ToldNode>, NoMemory>
        ensures { IfOk result (λ nodes. nodes ≡ told_in letters volume.now self.now.nodes) }
    {
        let numbers = self.numbers(alloc)?;
        let places = places_of(alloc, &numbers, self.store.spots().len())?;
        let mut nodes = List::new(alloc);
        for number in &numbers {
            nodes.push(self.told(alloc, *number, &places, volume, letters)?)?;
        }
        Ok(nodes)
    }

    /// The number of the node under a name in a directory, by its trie. So a name is looked for that is mostly free: what
    /// puts one in goes along the same forks.
    pub fn taken(&self, dir: u32, name: &Text) -> Option<u32>
        requires { IsThere self.now.nodes dir }
        ensures { (path : Path) → number_at self.now.nodes path ≡ Some dir
            → number_at self.now.nodes (path ++ name.now ∷ []) ≡ result }
    {
        let spots = self.store.spots();
        let name = name.as_str();
        child(spots, &self.names, dir, name)
    }

    /// The same, where a likely node is looked at before.
    fn likely_child(&self, likely: u32, dir: u32, name: &Text) -> Option<u32>
        requires { IsThere self.now.nodes dir }
        ensures { (path : Path) → number_at self.now.nodes path ≡ Some dir
            → number_at self.now.nodes (path ++ name.now ∷ []) ≡ result }
    {
        let spots = self.store.spots();
        let asked = name.as_str();
        if is_child(spots, likely, dir, asked) {
            return Some(likely);
        }
        self.taken(dir, name)
    }

    /// The number of the node under a name in a directory. Where names come in turn, that which comes next is likely.
    pub fn child(&self, dir: u32, name: &Text) -> Option<u32>
        requires { IsThere self.now.nodes dir }
        ensures { (path : Path) → number_at self.now.nodes path ≡ Some dir
            → number_at self.now.nodes (path ++ name.now ∷ []) ≡ result }
    {
        match self.names.next() {
            Some(next) => self.likely_child(next, dir, name),
            None => self.taken(dir, name),
        }
    }

    /// The same on the way along a path. Where more than a few forks lead to the name, it is guessed which one is likely.
    fn step(&self, dir: u32, name: &Text) -> Option<u32>
        requires { IsThere self.now.nodes dir }
        ensures { (path : Path) → number_at self.now.nodes path ≡ Some dir
            → number_at self.now.nodes (path ++ name.now ∷ []) ≡ result }
    {
        // The store holds the nodes that are shown.
        let _shown = self.store.spots();
        let bytes = name.as_str().as_bytes();
        let likely = match self.names.near(dir, bytes) {
            Some(number) => number,
            None => self.guesses.likely(dir, bytes),
        };
        self.likely_child(likely, dir, name)
    }

    /// Whether anything stands directly in a directory.
    pub fn has_entries(&self, dir: u32) -> bool
        requires { IsThere self.now.nodes dir }
        ensures { (path : Path) → number_at self.now.nodes path ≡ Some dir
            → result ≡ nat_lt 0 (length (entries_in (plain_nodes whole self.now.nodes) path)) }
    {
        // The store holds the nodes that are shown.
        let _shown = self.store.spots();
        self.names.has_any(dir)
    }

    /// What stands directly in a directory, by the bytes of the names.
    pub fn list(&self, alloc: Global, dir: u32) -> Result<List<Entry>, NoMemory>
        requires { IsThere self.now.nodes dir }
        ensures { IfOk result (λ entries. (tape : Tape) (path : Path) → number_at self.now.nodes path ≡ Some dir
            → entries ≡ entries_in (plain_nodes tape self.now.nodes) path) }
    {
        let spots = self.store.spots();
        let numbers = self.names.numbers(alloc, dir)?;
        lines_of(alloc, spots, &numbers)
    }

    /// The number of the node at a path, or of the last one on the way there.
    pub fn find(&self, path: &[Text]) -> Result<u32, u32>
        ensures there { IfOk result (λ number. number_at self.now.nodes path.now ≡ Some number) }
        ensures missing { IfErr result (λ number. IsLast self.now.nodes path.now number) }
    {
        let mut number = 0;
        // No two paths lead to one number.
        let _shown = self.store.len();
        for name in path {
            match self.step(number, name) {
                Some(next) => number = next,
                None => return Err(number),
            }
        }
        Ok(number)
    }

    /// Makes room for one more node.
    pub fn reserve(&mut self) -> Result<(), NoMemory>
        ensures same { self.new.nodes ≡ self.old.nodes }
        ensures room { OnOk result (1 ≤ self.new.spare) }
    {
        self.store.reserve()?;
        let slots = self.store.spots().len();
        self.free.reserve(slots + 1 - self.free.len())?;
        self.guesses.widen(self.store.spots())?;
        self.names.reserve_dir(slots)?;
        self.names.reserve_number(slots)
    }

    /// Puts a node under a name into a directory, and gives it a number that no node has. Takes no memory.
    pub fn put(&mut self, dir: u32, name: Text, node: Node) -> u32
        requires { CanPut self.old dir name }
        ensures put { (path : Path) → number_at self.old.nodes path ≡ Some dir
            → self.new.nodes ≡ fin.insert self.old.nodes (path ++ name ∷ []) (record node { number = result }) }
        ensures fresh { (path : Path) → number_at self.old.nodes path ≢ Some result }
        ensures room { self.old.spare ≤ self.new.spare + 1 }
    {
        // The store holds the nodes that are shown.
        let _shown = self.store.spots();
        let number = store_node(&mut self.store, &mut self.free, dir, name, node);
        let spots = self.store.spots();
        self.guesses.note(spots, number);
        name_in(&mut self.names, spots, number);
        number
    }

    /// Takes out a node that has nothing in it.
    pub fn take(&mut self, number: u32)
        requires { CanTake self.old.nodes number }
        ensures gone { (path : Path) → number_at self.new.nodes path ≢ Some number }
        ensures taken { (path : Path) → number_at self.old.nodes path ≡ Some number
            → self.new.nodes ≡ fin.remove self.old.nodes path }
        ensures room { self.new.spare ≡ self.old.spare }
    {
        name_out(&mut self.names, self.store.spots(), number);
        self.store.take(number);
        let end = self.free.len();
        if self.free.insert(end, number).is_err() {
            unreachable!();
        }
    }

    /// Moves a node, and all below it, under a name into a directory. Takes no memory.
    pub fn shift(&mut self, number: u32, dir: u32, name: Text)
        requires { CanShift self.old.nodes number dir name }
        ensures shifted { (from up : Path) → number_at self.old.nodes from ≡ Some number
            → number_at self.old.nodes up ≡ Some dir → self.new.nodes ≡ moved from (up ++ name ∷ []) self.old.nodes }
        ensures room { self.new.spare ≡ self.old.spare }
    {
        name_out(&mut self.names, self.store.spots(), number);
        self.store.shift(number, dir, name);
        let spots = self.store.spots();
        self.guesses.note(spots, number);
        name_in(&mut self.names, spots, number);
    }

    /// Changes a node. Takes no memory.
    pub fn change(&mut self, number: u32, change: NodeChange<'_>, at: Moment)
        requires there { IsThere self.old.nodes number }
        requires can { (path : Path) (node : Node) → fin.get self.old.nodes path ≡ Some node → node.number ≡ number
            → CanChange change node }
        ensures changed { IsChangedAt self.old.nodes self.new.nodes number (λ a b. IsChangedBy change.entry at a b) }
        ensures room { self.new.spare ≡ self.old.spare }
    {
        self.store.change(number, change, at);
    }

    /// Makes room in a node.
    pub fn reserve_in(&mut self, number: u32, room: NodeRoom) -> Result<(), NoMemory>
        requires { IsThere self.old.nodes number }
        ensures changed { IsChangedAt self.old.nodes self.new.nodes number
            (λ a b. IsRoomier room a b × OnOk result (HasRoom room b)) }
        ensures room { self.new.spare ≡ self.old.spare }
    {
        self.store.reserve_in(number, room)
    }
}

/// Puts a node at an empty place, or behind all others where none is empty. Gives its number.
fn store_node(store: &mut Store, free: &mut Vec<u32>, dir: u32, name: Text, node: Node) -> u32
    requires can { CanStore store.old dir name }
    requires empty { AreEmpty (held store.old.spots) (length store.old.spots) free.old.items }
    requires full { free.old.items ≡ [] → used store.old.spots ≡ length store.old.spots }
    ensures put { (path : Path) → number_at store.old.nodes path ≡ Some dir
        → store.new.nodes ≡ fin.insert store.old.nodes (path ++ name ∷ []) (record node { number = result }) }
    ensures fresh { (path : Path) → number_at store.old.nodes path ≢ Some result }
    ensures spots { IsSetIn store.old.spots store.new.spots result
        (Some (record { parent = dir; name = name; node = record node { number = result } })) }
    ensures unused { held store.old.spots result ≡ None }
    ensures empty { AreEmpty (held store.new.spots) (length store.new.spots) free.new.items }
    ensures filled { used store.new.spots ≡ used store.old.spots + 1 }
    ensures places { length store.new.spots + length free.old.items
        ≡ length store.old.spots + length free.new.items + 1 }
    ensures slots { length store.new.spots ≤ length store.old.spots + 1 }
    ensures room { store.old.spare ≤ store.new.spare + 1 }
    ensures capacity { vec_capacity free.new ≡ vec_capacity free.old }
{
    match free.pop() {
        Some(number) => {
            store.fill(number, dir, name, node);
            number
        }
        None => {
            let number = store.spots().len() as u32;
            if store.append(dir, name, node).is_err() {
                unreachable!();
            }
            number
        }
    }
}

/// Puts in the numbers of a run, the last one first.
fn push_run(numbers: &mut Vec<u32>, run: &[u32]) -> Result<(), NoMemory>
    ensures { OnOk result (numbers.new.items ≡ numbers.old.items ++ reverse run.now) }
{
    let mut left = run.len();
    while left > 0 {
        left -= 1;
        numbers.push(run[left])?;
    }
    Ok(())
}
