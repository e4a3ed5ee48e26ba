ghost use Rattle.std.specs.Prelude.{◌≡◌, ℕ, ◌<◌, ◌≤◌, length, Some, OnOk, slice_get};
ghost use Rattle.name_tries.specs.declared.forks.Fork.{Fork as TheFork};

use crate::bits::{is_one, parting};
use crate::forks::{
    Fork, Link, Near, Side, branch_of, few_on, first_fork, nearest, number_of, numbers_below,
    parted, set_branch, way_to, way_to_last,
};
use crate::turns::Turns;
use std::alloc::Global;
use tape_types::NoMemory;

/// The numbers of what is in directories, found by their names: a trie for each directory, in which a fork tells the
/// first bit at which the names below it part. So a name is found past at most nine forks for each byte of the longest
/// name there, mostly past as many as the logarithm of the directory's size, and one name is read.
///
/// A trie has one fork less than numbers, so each number brings the place of a fork: putting one in takes no memory.
#[derive(Drop)]
pub struct Tries {
    pub roots: Vec<Option<Link>>,
    pub forks: Vec<Fork>,
    /// The place of a fork that comes with each number.
    pub owned: Vec<u32>,
    /// With which number the place of each fork comes.
    pub owners: Vec<u32>,
    pub turns: Turns,
}

/// Makes room for one fork more, where there is none for this many.
fn reserve_fork(forks: &mut Vec<Fork>, places: usize) -> Result<(), NoMemory>
    ensures kept { (g : ℕ) (k : TheFork) → slice_get forks.old.items g ≡ Some k → slice_get forks.new.items g ≡ Some k }
    ensures more { length forks.old.items ≤ length forks.new.items }
    ensures room { OnOk result (places ≤ length forks.old.items → places < length forks.new.items) }
{
    if forks.len() <= places {
        forks.push(no_fork())?;
    }
    Ok(())
}

/// Lets the place of a fork come with the number that is as large.
fn reserve_owner(owners: &mut Vec<u32>, number: usize) -> Result<(), NoMemory>
    requires { number < 4294967296 }
    ensures kept { (g m : ℕ) → (g ≡ number → ⊥) → slice_get owners.old.items g ≡ Some m
        → slice_get owners.new.items g ≡ Some m }
    ensures more { length owners.old.items ≤ length owners.new.items }
    ensures here { OnOk result (number ≤ length owners.old.items → slice_get owners.new.items number ≡ Some number) }
{
    if number < owners.len() {
        owners[number] = number as u32;
    } else {
        owners.push(number as u32)?;
    }
    Ok(())
}

fn no_fork() -> Fork {
    Fork {
        byte: 0,
        within: 0,
        zero: Link::leaf(0),
        one: Link::leaf(0),
    }
}

impl Tries {
    ghost use Rattle.std.specs.Prelude.{◌≡◌, ℕ, ◌+◌, ◌<◌, ◌≤◌, max, length, Some, None, OnOk, IfOk, IfSome, IsTrue};
    ghost use Rattle.std.specs.Prelude.{IsFalse};
    ghost use Rattle.std.specs.Option.{option_map};
    ghost use Rattle.name_tries.specs.Bits.{Name, AreBytes};
    ghost use Rattle.name_tries.specs.Tries.{Trie, nearest_in};
    ghost use Rattle.name_tries.specs.Ways.{IsTowards};
    ghost use Rattle.name_tries.specs.Listing.{IsListed};
    ghost use Rattle.name_tries.specs.Keys.{Keys, AreTries, number_in, IsKeyed, CanPutFirst, CanPut, CanCut};
    ghost use Rattle.name_tries.specs.Keys.{CanLink, IsLinked, CanHandOver, IsHandedOver};

    /// No directories, and no room for numbers.
    pub fn new(alloc: Global) -> Tries
        ensures are { AreTries result (λ n. None) }
        ensures numbers { length result.owned.items ≡ 0 }
    {
        Tries {
            roots: Vec::new(alloc),
            forks: Vec::new(alloc),
            owned: Vec::new(alloc),
            owners: Vec::new(alloc),
            turns: Turns::new(),
        }
    }

    /// Makes room for one directory more, where there is none for this many.
    pub fn reserve_dir(&mut self, dirs: usize) -> Result<(), NoMemory>
        ensures are { (keys : Keys) → AreTries self.old keys → AreTries self.new keys }
        ensures numbers { self.new.owned ≡ self.old.owned }
        ensures more { length self.old.roots.items ≤ length self.new.roots.items }
        ensures room { OnOk result (dirs ≤ length self.old.roots.items → dirs < length self.new.roots.items) }
    {
        if self.roots.len() <= dirs {
            self.roots.push(None)?;
        }
        Ok(())
    }

    /// Makes room for one number more, where there is none for this many.
    pub fn reserve_number(&mut self, numbers: usize) -> Result<(), NoMemory>
        requires { length self.old.owned.items < 4294967296 }
        ensures are { (keys : Keys) → AreTries self.old keys → AreTries self.new keys }
        ensures dirs { self.new.roots ≡ self.old.roots }
        ensures more { length self.old.owned.items ≤ length self.new.owned.items }
        ensures most { length self.new.owned.items ≤ max (length self.old.owned.items) (numbers + 1) }
        ensures room { OnOk result (numbers ≤ length self.old.owned.items → numbers < length self.new.owned.items) }
    {
        let number = self.owned.len();
        if number > numbers {
            return Ok(());
        }
        reserve_fork(&mut self.forks, number)?;
        reserve_owner(&mut self.owners, number)?;
        Ok(self.owned.push(number as u32)?)
    }

    /// The number in a directory to which the bits of a name lead. If any has this name, it is this one. Beside it there
    /// is from where on it can be followed again.
    pub fn nearest(&self, dir: u32, name: &[u8]) -> Option<Near>
        requires are { (keys : Keys) × AreTries self.now keys }
        requires below { dir < length self.now.roots.items }
        ensures is { (keys : Keys) (w : AreTries self.now keys)
            → option_map number_in result ≡ option_map (nearest_in name.now) (w.shape dir) }
        ensures found { IfSome result (λ near. (keys : Keys) → AreTries self.now keys
            → (other : Name) × (keys near.number ≡ Some (dir, other))) }
        ensures only { (keys : Keys) (n : ℕ) → AreTries self.now keys → keys n ≡ Some (dir, name.now)
            → option_map number_in result ≡ Some n }
        ensures from { IfSome result (λ near. (keys : Keys) (w : AreTries self.now keys) (t : Trie)
            → w.shape dir ≡ Some t → IsTowards self.now.forks.items near.from name.now t) }
    {
        let root = self.roots[dir as usize]?;
        Some(nearest(&self.forks, root, name, self.turns.in_turn()))
    }

    /// The same, if no more than a few forks lead there, so that it costs little to ask.
    pub fn near(&self, dir: u32, name: &[u8]) -> Option<u32>
        requires are { (keys : Keys) × AreTries self.now keys }
        requires below { dir < length self.now.roots.items }
        ensures found { IfSome result (λ n. (keys : Keys) → AreTries self.now keys
            → (other : Name) × (keys n ≡ Some (dir, other))) }
        ensures only { IfSome result (λ n. (keys : Keys) (m : ℕ) → AreTries self.now keys
            → keys m ≡ Some (dir, name.now) → n ≡ m) }
    {
        let root = self.roots[dir as usize]?;
        number_of(few_on(&self.forks, root, name))
    }

    /// The number that may be asked for next.
    pub fn next(&self) -> Option<u32> {
        self.turns.next()
    }

    /// Whether there is anything in a directory.
    pub fn has_any(&self, dir: u32) -> bool
        requires { dir < length self.now.roots.items }
        ensures some { IsTrue result → (keys : Keys) → AreTries self.now keys
            → (n : ℕ) × (name : Name) × (keys n ≡ Some (dir, name)) }
        ensures none { IsFalse result → (keys : Keys) (n : ℕ) (name : Name) → AreTries self.now keys
            → keys n ≡ Some (dir, name) → ⊥ }
    {
        self.roots[dir as usize].is_some()
    }

    /// The numbers in a directory, by the bytes of their names.
    pub fn numbers(&self, alloc: Global, dir: u32) -> Result<Vec<u32>, NoMemory>
        requires are { (keys : Keys) × AreTries self.now keys }
        requires below { dir < length self.now.roots.items }
        ensures { IfOk result (λ numbers. (keys : Keys) → AreTries self.now keys → IsListed keys dir numbers.items) }
    {
        match self.roots[dir as usize] {
            Some(root) => numbers_below(alloc, &self.forks, root),
            None => Ok(Vec::new(alloc)),
        }
    }

    /// Puts a number into a directory in which there is nothing. Takes no memory.
    pub fn put_first(&mut self, dir: u32, number: u32)
        requires { (keys : Keys) × CanPutFirst self.old keys dir number }
        ensures are { (before next : Keys) (name : Name) → AreBytes name → CanPutFirst self.old before dir number
            → IsKeyed before next number (Some (dir, name)) → AreTries self.new next }
        ensures dirs { length self.new.roots.items ≡ length self.old.roots.items }
        ensures numbers { length self.new.owned.items ≡ length self.old.owned.items }
    {
        self.roots[dir as usize] = Some(Link::leaf(number));
    }

    /// Puts a number under a name into a directory, in which another name is the nearest one. Takes no memory.
    pub fn put(&mut self, dir: u32, number: u32, name: &[u8], near: Near, other: &[u8])
        requires { (keys : Keys) × CanPut self.old keys dir number name.now near other.now }
        ensures are { (before next : Keys) → CanPut self.old before dir number name.now near other.now
            → IsKeyed before next number (Some (dir, name.now)) → AreTries self.new next }
        ensures dirs { length self.new.roots.items ≡ length self.old.roots.items }
        ensures numbers { length self.new.owned.items ≡ length self.old.owned.items }
    {
        let Some(root) = self.roots[dir as usize] else {
            unreachable!()
        };
        let bit = parting(name, other);
        let way = way_to(&self.forks, root, near.from, name, bit);
        let place = self.owned[number as usize];
        self.forks[place as usize] = parted(
            bit,
            is_one(name, bit.byte, bit.within),
            number,
            way.below,
        );
        self.link(dir, way.side, Link::inner(place));
        self.turns.came_beside(number, near.number);
    }

    /// Takes a number that has a name in a directory out of it.
    pub fn cut(&mut self, dir: u32, number: u32, name: &[u8])
        requires { (keys : Keys) × CanCut self.old keys dir number name.now }
        ensures are { (before next : Keys) → CanCut self.old before dir number name.now
            → IsKeyed before next number None → AreTries self.new next }
        ensures dirs { length self.new.roots.items ≡ length self.old.roots.items }
        ensures numbers { length self.new.owned.items ≡ length self.old.owned.items }
    {
        let Some(root) = first_fork(self.roots[dir as usize]) else {
            self.roots[dir as usize] = None;
            return;
        };
        let way = way_to_last(&self.forks, root, name, self.turns.in_turn());
        if let Some(last) = way.side {
            let other = branch_of(self.forks[last.fork as usize], !last.one);
            self.link(dir, way.above, other);
            self.hand_over(number, last.fork);
            self.turns.came(number);
        }
    }

    /// Lets a side of a fork, or the root of a directory, lead to a branch.
    fn link(&mut self, dir: u32, side: Option<Side>, at: Link)
        requires { CanLink self.old.roots.items self.old.forks.items dir side }
        ensures linked { IsLinked self.old.roots.items self.new.roots.items self.old.forks.items self.new.forks.items
            dir side at }
        ensures owned { self.new.owned ≡ self.old.owned }
        ensures owners { self.new.owners ≡ self.old.owners }
    {
        match side {
            Some(side) => set_branch(&mut self.forks, side, at),
            None => self.roots[dir as usize] = Some(at),
        }
    }

    /// Lets a number have the place of a fork, and the number that had it the place that the first one had.
    fn hand_over(&mut self, number: u32, place: u32)
        requires { CanHandOver self.old.owned.items self.old.owners.items number place }
        ensures over { IsHandedOver self.old.owned.items self.new.owned.items
            self.old.owners.items self.new.owners.items number place }
        ensures roots { self.new.roots ≡ self.old.roots }
        ensures forks { self.new.forks ≡ self.old.forks }
    {
        let spare = self.owned[number as usize];
        let owner = self.owners[place as usize];
        self.owned[owner as usize] = spare;
        self.owners[spare as usize] = owner;
        self.owned[number as usize] = place;
        self.owners[place as usize] = number;
    }
}
