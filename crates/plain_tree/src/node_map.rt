ghost use Rattle.plain_tree.specs.Seen.{Seen, Seen-prop};

use crate::calls::{Entry, Refusal};
use crate::changes::{NodeChange, NodeWrite, change_node, missing_below, new_node, write_node};
use crate::links::Links;
use crate::nodes::{Kind, Node};
use std::alloc::Global;
use std::marker::Model;
use tape_types::{List, Moment, NoMemory, Text};

/// The nodes by their paths, kept as what stands in each directory under each name.
#[derive(Drop)]
pub struct NodeMap {
    root: Node,
    links: Links,
    count: usize,
    ghost seen: { Seen root links } by { Seen-prop root links },
}

impl Model for NodeMap {
    ghost use Rattle.std.specs.FinMap as fin;
    ghost use Rattle.std.specs.Coded.{coded_list, coded_ℕ};
    ghost use Rattle.plain_tree.specs.declared.nodes.Node.{Node};
    ghost use Rattle.plain_tree.specs.contracts.nodes.Node as node;
    ghost use Rattle.plain_tree.specs.Paths.{path_cmp};
    ghost use Rattle.plain_tree.specs.Seen.{IsKept};

    ghost Value = { fin.FinMap path_cmp Node };

    ghost coded = { fin.code (coded_list (coded_list coded_ℕ)) node.the_row.coded };

    ghost view = { λ a. a.seen.0 };

    ghost invariant = { λ a. IsKept a.seen.0 a.links a.count };
}

impl NodeMap {
    ghost use Rattle.std.specs.Prelude.{◌≡◌, ◌≢◌, ℕ, List, [], None, Some, ◌<◌, ◌+◌, ◌≤◌, length, map, nat_lt};
    ghost use Rattle.std.specs.Prelude.{IsSome, OnOk, OnErr, IfOk, IfErr, IfSome, IfNone};
    ghost use Rattle.std.specs.FinMap as fin;
    ghost use Rattle.plain_tree.specs.Paths.{parent_of};
    ghost use Rattle.plain_tree.specs.Tree.{changed_at, changed_by, written_by, CanWrite, entries_in, empty_tree, moved};
    ghost use Rattle.plain_tree.specs.Seen.{IsMissing, IsPlace, CanStand, CanLeave, CanMove};

    /// The root alone, which has uid 1.
    pub fn new(alloc: Global, at: Moment) -> NodeMap
        ensures { result ≡ (empty_tree at).nodes }
    {
        NodeMap {
            root: new_node(alloc, Kind::Dir, 1, at),
            links: Links::new(alloc),
            count: 1,
        }
    }

    pub fn len(&self) -> usize
        ensures { result ≡ fin.len self.now }
    {
        self.count
    }

    /// The node at a path, or why there is none.
    pub fn find(&self, path: &[Text]) -> Result<&Node, Refusal>
        ensures found { IfOk result (λ node. fin.get self.now path.now ≡ Some node.now) }
        ensures missing { IfErr result (λ refusal. IsMissing self.now path.now refusal) }
    {
        match self.links.walk(&self.root, path) {
            Ok(node) => Ok(node),
            Err(last) => Err(missing_below(&last.kind)),
        }
    }

    pub fn contains(&self, path: &[Text]) -> bool
        ensures { result ≡ fin.contains_key self.now path.now }
    {
        match self.find(path) {
            Ok(_) => true,
            Err(_) => false,
        }
    }

    /// The uid of the directory that a path's last name stands in, and that name.
    fn place<'a>(&self, path: &'a [Text]) -> Option<(u64, &'a Text)>
        ensures there { IfSome result (λ p. IsPlace self.now path.now p.0 p.1.now) }
        ensures missing { IfNone result (path.now ≢ [] → fin.get self.now (parent_of path.now) ≡ None) }
    {
        match path.split_last() {
            Some((name, front)) => match self.find(front) {
                Ok(dir) => Some((dir.uid, name)),
                Err(_) => None,
            },
            None => None,
        }
    }

    /// Puts a node at a path, or changes nothing.
    pub fn insert(&mut self, alloc: Global, path: &[Text], node: Node) -> Result<(), NoMemory>
        requires { CanStand self.old path.now node }
        ensures ok { OnOk result (self.new ≡ fin.insert self.old path.now node) }
        ensures err { OnErr result (self.new ≡ self.old) }
    {
        let Some((uid, name)) = self.place(path) else {
            unreachable!();
        };
        let copy = name.try_clone(alloc)?;
        self.links.insert(alloc, uid, copy, node)?;
        self.count += 1;
        Ok(())
    }

    /// Takes out the node at a path.
    pub fn remove(&mut self, path: &[Text])
        requires { CanLeave self.old path.now }
        ensures { self.new ≡ fin.remove self.old path.now }
    {
        let Some((uid, name)) = self.place(path) else {
            unreachable!();
        };
        let _node = self.links.remove(uid, name);
        self.count -= 1;
    }

    /// What stands directly in the directory at a path, by the bytes of the names.
    pub fn list(&self, alloc: Global, dir: &[Text]) -> Result<List<Entry>, NoMemory>
        requires { IsSome (fin.get self.now dir.now) }
        ensures { IfOk result (λ entries. entries ≡ entries_in self.now dir.now) }
    {
        let Ok(node) = self.find(dir) else {
            unreachable!();
        };
        self.links.list(alloc, node.uid)
    }

    /// Whether anything stands directly in the directory at a path.
    pub fn has_entries(&self, dir: &[Text]) -> bool
        requires { IsSome (fin.get self.now dir.now) }
        ensures { result ≡ nat_lt 0 (length (entries_in self.now dir.now)) }
    {
        let Ok(node) = self.find(dir) else {
            unreachable!();
        };
        self.links.has_entries(node.uid)
    }

    /// Moves the node at a path, and all below it, to another path. Without memory nothing changes.
    pub fn rename(&mut self, alloc: Global, from: &[Text], to: &[Text]) -> Result<(), NoMemory>
        requires { CanMove self.old from.now to.now }
        ensures ok { OnOk result (self.new ≡ moved from.now to.now self.old) }
        ensures err { OnErr result (self.new ≡ self.old) }
    {
        let Some((old, old_name)) = self.place(from) else {
            unreachable!();
        };
        let Some((uid, name)) = self.place(to) else {
            unreachable!();
        };
        self.links.rename(alloc, old, old_name, uid, name)?;
        Ok(())
    }

    /// Changes the node at a path, where there is one.
    pub fn change(&mut self, path: &[Text], change: NodeChange<'_>, at: Moment)
        ensures { self.new ≡ changed_at (changed_by change.entry at) path.now self.old }
    {
        if path.is_empty() {
            change_node(&mut self.root, change, at);
            return;
        }
        if let Some((uid, name)) = self.place(path) {
            self.links.change(uid, name, change, at);
        }
    }

    /// Makes a change that takes memory of the node at a path, where there is one, or changes nothing.
    pub fn write(
        &mut self,
        alloc: Global,
        path: &[Text],
        write: NodeWrite<'_>,
        at: Moment,
    ) -> Result<(), NoMemory>
        requires { CanWrite write }
        ensures ok { OnOk result (self.new ≡ changed_at (written_by write.entry at) path.now self.old) }
        ensures err { OnErr result (self.new ≡ self.old) }
    {
        if path.is_empty() {
            write_node(&mut self.root, alloc, write, at)?;
            return Ok(());
        }
        let Some((uid, name)) = self.place(path) else {
            return Ok(());
        };
        self.links.write(alloc, uid, name, write, at)?;
        Ok(())
    }
}
