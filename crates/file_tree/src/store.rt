ghost use Rattle.std.specs.Prelude.{◌≡◌};
ghost use Rattle.file_tree.specs.Seen.{Seen, Seen-prop};

use crate::changes::{NodeChange, NodeRoom};
use crate::nodes::{Node, Spot};
use crate::spots::{change_spot, fill_spot, reserve_spot, shift_spot, spot_at, take_spot};
use std::alloc::Global;
use std::marker::Model;
use tape_types::{Moment, NoMemory, Text};

/// The nodes at their numbers, each under its name in its directory. A place is empty where no node has its number.
#[derive(Drop)]
pub struct Store {
    spots: Vec<Option<Spot>>,
    count: u32,
    ghost seen: { Seen spots.items } by { Seen-prop spots.items },
}

impl Model for Store {
    ghost use Rattle.std.specs.Prelude.{ℕ, ◌-◌, refl, List, Option, length, vec_len, vec_capacity};
    ghost use Rattle.std.specs.FinMap as fin;
    ghost use Rattle.std.specs.Coded.{coded_list, coded_option, coded_ℕ, coded×, code_by};
    ghost use Rattle.plain_tree.specs.Paths.{path_cmp};
    ghost use Rattle.file_tree.specs.declared.nodes.Node.{Node};
    ghost use Rattle.file_tree.specs.declared.nodes.Spot.{Spot};
    ghost use Rattle.file_tree.specs.contracts.nodes.Node as node;
    ghost use Rattle.file_tree.specs.contracts.nodes.Spot as spot;
    ghost use Rattle.file_tree.specs.Places.{StoreView, IsStored};

    ghost Value = { StoreView };

    ghost coded = { code_by (fin.FinMap path_cmp Node × (ℕ × List (Option Spot)))
        (coded× (fin.code (coded_list (coded_list coded_ℕ)) node.the_row.coded)
        (coded× coded_ℕ (coded_list (coded_option spot.the_row.coded))))
        (λ t. (t.nodes, (t.spare, t.spots))) (λ p. record { nodes = p.0; spare = p.1.0; spots = p.1.1 }) (λ _. refl) };

    ghost view = { λ a. record {
      nodes = a.seen.0;
      spare = vec_capacity a.spots - vec_len a.spots;
      spots = a.spots.items;
    } };

    ghost invariant = { λ a. IsStored a.spots.items a.count a.seen.0 };
}

impl Store {
    ghost use Rattle.std.specs.Prelude.{◌≡◌, ◌≢◌, ℕ, ◌+◌, ◌<◌, ◌≤◌, List, [], ◌∷◌, ◌++◌, length, Some, None, IsOk};
    ghost use Rattle.std.specs.Prelude.{OnOk, IfOk};
    ghost use Rattle.std.specs.FinMap as fin;
    ghost use Rattle.file_tree.specs.declared.nodes.Node.{Node};
    ghost use Rattle.file_tree.specs.declared.nodes.Spot.{Spot};
    ghost use Rattle.file_tree.specs.Seen.{held};
    ghost use Rattle.file_tree.specs.Tree.{number_at, moved};
    ghost use Rattle.file_tree.specs.Changes.{CanChange, IsChangedAt, IsChangedBy, IsRoomier, HasRoom};
    ghost use Rattle.plain_tree.specs.Paths.{Path, parent_of};
    ghost use Rattle.file_tree.specs.Places.{used, IsStored, IsThere, CanFill, CanAppend, CanTake, CanShift, IsSetIn};
    ghost use Rattle.file_tree.specs.Places.{IsChangedIn};

    /// The root alone, with room for so many places.
    pub fn new(alloc: Global, root: Node, places: usize) -> Result<Store, NoMemory>
        requires { root.number ≡ 0 }
        ensures nodes { IfOk result (λ t. t.nodes ≡ fin.insert fin.empty [] root) }
        ensures slots { IfOk result (λ t. length t.spots ≡ 1) }
    {
        let mut spots = Vec::with_capacity(alloc, places)?;
        spots.push(Some(Spot {
            parent: 0,
            name: Text::from_string(String::new(alloc)),
            node: root,
        }))?;
        Ok(Store { spots, count: 1 })
    }

    pub fn len(&self) -> u32
        ensures count { result ≡ fin.len self.now.nodes }
        ensures apart { (p q : Path) (number : ℕ) → number_at self.now.nodes p ≡ Some number
            → number_at self.now.nodes q ≡ Some number → p ≡ q }
        ensures stored { IsStored self.now.spots result self.now.nodes }
    {
        self.count
    }

    /// What is kept at each number.
    pub fn spots(&self) -> &[Option<Spot>]
        ensures spots { result.now ≡ self.now.spots }
        ensures stored { IsStored self.now.spots (fin.len self.now.nodes) self.now.nodes }
    {
        &self.spots
    }

    /// The node with a number.
    pub fn node(&self, number: u32) -> &Node
        requires { IsThere self.now.nodes number }
        ensures { (path : Path) → number_at self.now.nodes path ≡ Some number
            → fin.get self.now.nodes path ≡ Some result.now }
    {
        &spot_at(&self.spots, number).node
    }

    /// The number of the directory that a node is in.
    pub fn parent(&self, number: u32) -> u32
        requires { IsThere self.now.nodes number }
        ensures parent { (path : Path) (name : List ℕ) → number_at self.now.nodes (path ++ name ∷ []) ≡ Some number
            → number_at self.now.nodes path ≡ Some result }
        ensures above { (path : Path) → number_at self.now.nodes path ≡ Some number
            → number_at self.now.nodes (parent_of path) ≡ Some result }
        ensures apart { (p q : Path) (n : ℕ) → number_at self.now.nodes p ≡ Some n
            → number_at self.now.nodes q ≡ Some n → p ≡ q }
    {
        spot_at(&self.spots, number).parent
    }

    /// The name under which a node is in its directory.
    pub fn name(&self, number: u32) -> &Text
        requires { IsThere self.now.nodes number }
        ensures { (path : Path) (name : List ℕ) → number_at self.now.nodes (path ++ name ∷ []) ≡ Some number
            → result.now ≡ name }
    {
        &spot_at(&self.spots, number).name
    }

    /// Makes room for one place more.
    pub fn reserve(&mut self) -> Result<(), NoMemory>
        ensures same { self.new.nodes ≡ self.old.nodes }
        ensures spots { self.new.spots ≡ self.old.spots }
        ensures room { OnOk result (1 ≤ self.new.spare) }
    {
        Ok(self.spots.reserve(1)?)
    }

    /// Puts a node at an empty place, under a name into a directory. Takes no memory.
    pub fn fill(&mut self, number: u32, dir: u32, name: Text, node: Node)
        requires { CanFill self.old number dir name }
        ensures put { (path : Path) → number_at self.old.nodes path ≡ Some dir
            → self.new.nodes ≡ fin.insert self.old.nodes (path ++ name ∷ []) (record node { number = number }) }
        ensures fresh { (path : Path) → number_at self.old.nodes path ≢ Some number }
        ensures spots { IsSetIn self.old.spots self.new.spots number
            (Some (record { parent = dir; name = name; node = record node { number = number } })) }
        ensures slots { length self.new.spots ≡ length self.old.spots }
        ensures filled { used self.new.spots ≡ used self.old.spots + 1 }
        ensures room { self.new.spare ≡ self.old.spare }
    {
        fill_spot(
            &mut self.spots,
            number,
            Spot {
                parent: dir,
                name,
                node: numbered(node, number),
            },
        );
        self.count += 1;
    }

    /// Puts a node behind all others, under a name into a directory. Its number is the count of places before. Takes no
    /// memory where there is room for one place more.
    pub fn append(&mut self, dir: u32, name: Text, node: Node) -> Result<(), NoMemory>
        requires { CanAppend self.old dir name }
        ensures nodes { OnOk result ((path : Path) → number_at self.old.nodes path ≡ Some dir → self.new.nodes
            ≡ fin.insert self.old.nodes (path ++ name ∷ []) (record node { number = length self.old.spots })) }
        ensures fresh { (path : Path) → number_at self.old.nodes path ≢ Some (length self.old.spots) }
        ensures spots { OnOk result (IsSetIn self.old.spots self.new.spots (length self.old.spots)
            (Some (record { parent = dir; name = name; node = record node { number = length self.old.spots } }))) }
        ensures slots { OnOk result (length self.new.spots ≡ length self.old.spots + 1) }
        ensures filled { OnOk result (used self.new.spots ≡ used self.old.spots + 1) }
        ensures room { OnOk result (self.old.spare ≤ self.new.spare + 1) }
        ensures succeeds { 1 ≤ self.old.spare → IsOk result }
    {
        let number = self.spots.len() as u32;
        self.spots.push(Some(Spot {
            parent: dir,
            name,
            node: numbered(node, number),
        }))?;
        self.count += 1;
        Ok(())
    }

    /// Takes out a node that has nothing in it.
    pub fn take(&mut self, number: u32)
        requires { CanTake self.old.nodes number }
        ensures gone { (path : Path) → number_at self.new.nodes path ≢ Some number }
        ensures taken { (path : Path) → number_at self.old.nodes path ≡ Some number
            → self.new.nodes ≡ fin.remove self.old.nodes path }
        ensures spots { IsSetIn self.old.spots self.new.spots number None }
        ensures slots { length self.new.spots ≡ length self.old.spots }
        ensures filled { used self.new.spots + 1 ≡ used self.old.spots }
        ensures room { self.new.spare ≡ self.old.spare }
    {
        take_spot(&mut self.spots, number);
        self.count -= 1;
    }

    /// Moves a node, and all below it, under a name into a directory. Takes no memory.
    pub fn shift(&mut self, number: u32, dir: u32, name: Text)
        requires { CanShift self.old.nodes number dir name }
        ensures shifted { (from up : Path) → number_at self.old.nodes from ≡ Some number
            → number_at self.old.nodes up ≡ Some dir → self.new.nodes ≡ moved from (up ++ name ∷ []) self.old.nodes }
        ensures spots { (s : Spot) → held self.old.spots number ≡ Some s → IsSetIn self.old.spots self.new.spots number
            (Some (record { parent = dir; name = name; node = s.node })) }
        ensures slots { length self.new.spots ≡ length self.old.spots }
        ensures filled { used self.new.spots ≡ used self.old.spots }
        ensures room { self.new.spare ≡ self.old.spare }
    {
        shift_spot(&mut self.spots, number, dir, name);
    }

    /// Changes a node. Takes no memory.
    pub fn change(&mut self, number: u32, change: NodeChange<'_>, at: Moment)
        requires there { IsThere self.old.nodes number }
        requires can { (path : Path) (node : Node) → fin.get self.old.nodes path ≡ Some node → node.number ≡ number
            → CanChange change node }
        ensures changed { IsChangedAt self.old.nodes self.new.nodes number (λ a b. IsChangedBy change.entry at a b) }
        ensures spots { IsChangedIn self.old.spots self.new.spots number (λ a b. IsChangedBy change.entry at a b) }
        ensures room { self.new.spare ≡ self.old.spare }
    {
        change_spot(&mut self.spots, number, change, at);
    }

    /// Makes room in a node.
    pub fn reserve_in(&mut self, number: u32, room: NodeRoom) -> Result<(), NoMemory>
        requires { IsThere self.old.nodes number }
        ensures changed { IsChangedAt self.old.nodes self.new.nodes number
            (λ a b. IsRoomier room a b × OnOk result (HasRoom room b)) }
        ensures spots { IsChangedIn self.old.spots self.new.spots number
            (λ a b. IsRoomier room a b × OnOk result (HasRoom room b)) }
        ensures room { self.new.spare ≡ self.old.spare }
    {
        reserve_spot(&mut self.spots, number, room)
    }
}

fn numbered(node: Node, number: u32) -> Node
    ensures { result ≡ record node { number = number } }
{
    Node { number, ..node }
}
