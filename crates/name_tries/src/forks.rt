ghost use Rattle.std.specs.Prelude.{◌≡◌, ℕ, ◌^◌, ◌<◌, ◌≤◌, nat_lt, List, [], ◌∷◌, ◌++◌, length, Some, None};
ghost use Rattle.std.specs.Prelude.{IfSome, IfNone, IfOk, OnOk, slice_get};
ghost use Rattle.name_tries.specs.declared.forks.Branch.TheVariants as branch;
ghost use Rattle.name_tries.specs.declared.forks.Fork.{Fork as TheFork};
ghost use Rattle.name_tries.specs.Bits.{Name, bit_of, level};
ghost use Rattle.name_tries.specs.Tries.{Trie, AreOnce, Shows, IsAt, nearest_in};
ghost use Rattle.name_tries.specs.Listing.{numbers_in};
ghost use Rattle.name_tries.specs.Ways.{IsFrom, IsTowards, AreTowards, branch_at, past, inner_at, first_at};
ghost use Rattle.name_tries.specs.Ways.{parted_fork, left, IsWay, IsWayUpTo, IsWayToLast};
ghost use Rattle.name_tries.specs.Keys.{IsSet};

use crate::bits::{Bit, is_one};
use std::alloc::Global;
use std::marker::Model;
use tape_types::NoMemory;

/// Past no more forks than these a name is found sooner than by a guess.
const FEW: u8 = 1;

/// What hangs at a side of a fork: a number, or the fork at a place.
#[derive(Clone, Copy)]
pub enum Branch {
    Leaf(u32),
    Inner(u32),
}

/// The words of forks are those from here on.
const FORKS: u64 = 1 << 32;

/// A branch in one word, which is read and chosen at once where a name is followed.
#[derive(Clone, Copy)]
pub struct Link {
    word: u64,
}

impl Model for Link {
    ghost use Rattle.name_tries.specs.declared.forks.Branch.{Branch};

    ghost Value = { Branch };

    ghost use Rattle.name_tries.specs.Links.{branch_in, link_to, IsWord, link_back};

    ghost view = { branch_in };

    ghost invariant = { IsWord };

    ghost inverse = { link_to };

    ghost inverse_ok = { link_back };
}

impl Link {
    pub fn leaf(number: u32) -> Link
        ensures { result ≡ branch.Leaf number }
    {
        Link {
            word: u64::from(number),
        }
    }

    pub fn inner(place: u32) -> Link
        ensures { result ≡ branch.Inner place }
    {
        Link {
            word: FORKS + u64::from(place),
        }
    }

    pub fn target(self) -> Branch
        ensures { result ≡ self }
    {
        if self.word < FORKS {
            Branch::Leaf(self.word as u32)
        } else {
            Branch::Inner((self.word - FORKS) as u32)
        }
    }
}

/// Names that are the same up to a bit, at which some have a 0 and the others a 1.
#[derive(Clone, Copy)]
pub struct Fork {
    pub byte: usize,
    pub within: u8,
    pub zero: Link,
    pub one: Link,
}

/// One side of the fork at a place.
#[derive(Clone, Copy)]
pub struct Side {
    pub fork: u32,
    pub one: bool,
}

/// How far a way has come: the side that was taken last, and what hangs there. Before the first fork there is no side.
#[derive(Clone, Copy)]
pub struct Way {
    pub side: Option<Side>,
    pub below: Link,
}

/// What hangs on one side of a fork.
pub fn branch_of(fork: Fork, one: bool) -> Link
    ensures { result ≡ branch_at one fork }
{
    if one { fork.one } else { fork.zero }
}

/// The place of a fork.
fn inner(at: Link) -> Option<u32>
    ensures { result ≡ inner_at at }
{
    match at.target() {
        Branch::Leaf(_) => None,
        Branch::Inner(place) => Some(place),
    }
}

/// The number to which a branch leads, where it leads to no fork.
pub fn number_of(at: Link) -> Option<u32>
    ensures { IfSome result (λ n. at ≡ branch.Leaf n) }
{
    match at.target() {
        Branch::Leaf(number) => Some(number),
        Branch::Inner(_) => None,
    }
}

/// The place of the fork to which a root leads.
pub fn first_fork(root: Option<Link>) -> Option<u32>
    ensures { result ≡ first_at root }
{
    inner(root?)
}

/// The fork at which a number, on the side that is told, parts from what hangs at a branch.
pub fn parted(bit: Bit, one: bool, number: u32, below: Link) -> Fork
    ensures { result ≡ parted_fork one bit.byte bit.within number below }
{
    let Bit { byte, within } = bit;
    let leaf = Link::leaf(number);
    if one {
        Fork {
            byte,
            within,
            zero: below,
            one: leaf,
        }
    } else {
        Fork {
            byte,
            within,
            zero: leaf,
            one: below,
        }
    }
}

/// Goes past a fork, on the side of a name.
fn pass(forks: &[Fork], place: u32, name: &[u8]) -> Way
    requires { (k : TheFork) × (slice_get forks.now place ≡ Some k) × (k.within < 9) }
    ensures past { (k : TheFork) → slice_get forks.now place ≡ Some k
        → result ≡ past place (bit_of name.now k.byte k.within) k }
    ensures range { (k : TheFork) → slice_get forks.now place ≡ Some k → k.byte < 2 ^ 64 }
{
    let fork = forks[place as usize];
    let one = is_one(name, fork.byte, fork.within);
    Way {
        side: Some(Side { fork: place, one }),
        below: branch_of(fork, one),
    }
}

/// How far a name was followed: what hangs there, whether the side of a 1 was taken last, and the branches to the last
/// forks on the way. Where there were fewer forks, these lead to the first one.
#[derive(Clone, Copy)]
pub struct Trail {
    pub at: Link,
    pub one: bool,
    pub last: Link,
    pub second: Link,
    pub third: Link,
    pub fourth: Link,
}

/// The number to which the bits of a name lead, and a branch on the way there, mostly that to its fourth last fork.
#[derive(Clone, Copy)]
pub struct Near {
    pub number: u32,
    pub from: Link,
}

/// No fork was gone past.
fn trail_from(root: Link) -> Trail
    ensures { (forks : List TheFork) (name : Name) (t : Trie) → IsAt forks root t → AreTowards forks result name t }
{
    Trail {
        at: root,
        one: false,
        last: root,
        second: root,
        third: root,
        fourth: root,
    }
}

/// Goes past one fork more.
fn trail_past(forks: &[Fork], trail: Trail, place: u32, name: &[u8]) -> Trail
    requires on { (t : Trie) × AreTowards forks.now trail name.now t }
    requires place { inner_at trail.at ≡ Some place }
    ensures towards { (t : Trie) → AreTowards forks.now trail name.now t → AreTowards forks.now result name.now t }
    ensures less { left forks.now result.at < left forks.now trail.at }
{
    let way = pass(forks, place, name);
    Trail {
        at: way.below,
        one: took_one(way.side),
        last: trail.at,
        second: trail.last,
        third: trail.second,
        fourth: trail.third,
    }
}

/// Whether a way took the side of a 1 last.
fn took_one(side: Option<Side>) -> bool {
    match side {
        Some(side) => side.one,
        None => false,
    }
}

/// Goes past all forks at which a name has a 1, and past the first one at which it has a 0.
fn past_ones(forks: &[Fork], from: Trail, name: &[u8]) -> Trail
    requires { (t : Trie) × AreTowards forks.now from name.now t }
    ensures towards { (t : Trie) → AreTowards forks.now from name.now t → AreTowards forks.now result name.now t }
    ensures less { left forks.now result.at ≤ left forks.now from.at }
{
    let mut trail = from;
    while let Some(place) = inner(trail.at) {
        trail = trail_past(forks, trail, place, name);
        if !trail.one {
            return trail;
        }
    }
    trail
}

/// Follows a name to a number.
fn follow_by_chance(forks: &[Fork], root: Link, name: &[u8]) -> Trail
    requires { (t : Trie) × IsAt forks.now root t }
    ensures towards { (t : Trie) → IsAt forks.now root t → AreTowards forks.now result name.now t }
    ensures ends { inner_at result.at ≡ None }
{
    let mut trail = trail_from(root);
    while let Some(place) = inner(trail.at) {
        trail = trail_past(forks, trail, place, name);
    }
    trail
}

/// The same. A 1 and a 0 are gone past at different places of the code, so that the processor foretells the way of a
/// name that comes after one like it. Where names come by chance, that costs more than it gains.
fn follow_in_turn(forks: &[Fork], root: Link, name: &[u8]) -> Trail
    requires { (t : Trie) × IsAt forks.now root t }
    ensures towards { (t : Trie) → IsAt forks.now root t → AreTowards forks.now result name.now t }
    ensures ends { inner_at result.at ≡ None }
{
    let mut trail = trail_from(root);
    while let Some(place) = inner(trail.at) {
        trail = trail_past(forks, trail, place, name);
        if trail.one {
            trail = past_ones(forks, trail, name);
        }
    }
    trail
}

/// The same, whether names come in turn or by chance.
fn follow(forks: &[Fork], root: Link, name: &[u8], in_turn: bool) -> Trail
    requires { (t : Trie) × IsAt forks.now root t }
    ensures towards { (t : Trie) → IsAt forks.now root t → AreTowards forks.now result name.now t }
    ensures ends { inner_at result.at ≡ None }
{
    if in_turn {
        return follow_in_turn(forks, root, name);
    }
    follow_by_chance(forks, root, name)
}

/// The number to which the bits of a name lead.
pub fn nearest(forks: &[Fork], root: Link, name: &[u8], in_turn: bool) -> Near
    requires { (t : Trie) × IsAt forks.now root t }
    ensures number { (t : Trie) → IsAt forks.now root t → result.number ≡ nearest_in name.now t }
    ensures from { (t : Trie) → IsAt forks.now root t → IsTowards forks.now result.from name.now t }
{
    let trail = follow(forks, root, name, in_turn);
    match trail.at.target() {
        Branch::Leaf(number) => Near {
            number,
            from: trail.fourth,
        },
        Branch::Inner(_) => unreachable!(),
    }
}

/// Whether a fork is of a bit before this one.
fn is_before(fork: Fork, bit: Bit) -> bool
    requires fork { fork.within < 9 }
    requires bit { bit.within < 9 }
    ensures { result ≡ nat_lt (level fork.byte fork.within) (level bit.byte bit.within) }
{
    fork.byte < bit.byte || fork.byte == bit.byte && fork.within < bit.within
}

/// Where the bits of a name lead past a few forks at most.
pub fn few_on(forks: &[Fork], root: Link, name: &[u8]) -> Link
    requires { (t : Trie) × IsAt forks.now root t }
    ensures { (t : Trie) → IsAt forks.now root t → IsTowards forks.now result name.now t }
{
    let mut at = root;
    for _ in 0..FEW {
        let Some(place) = inner(at) else {
            return at;
        };
        at = pass(forks, place, name).below;
    }
    at
}

/// The fork to which a branch leads, if it is of a bit before this one.
fn fork_before(forks: &[Fork], at: Link, bit: Bit) -> Option<u32>
    requires there { (s : Trie) × IsAt forks.now at s }
    requires within { bit.within < 9 }
    ensures some { IfSome result (λ place. inner_at at ≡ Some place) }
    ensures before { IfSome result (λ place. (k : TheFork) → slice_get forks.now place ≡ Some k
        → level k.byte k.within < level bit.byte bit.within) }
    ensures none { IfNone result ((s : Trie) → IsAt forks.now at s → IsFrom (level bit.byte bit.within) s) }
{
    let place = inner(at)?;
    if is_before(forks[place as usize], bit) {
        return Some(place);
    }
    None
}

/// The way of a name past the fork at a branch on it, if that is of a bit before this one, and else no way yet.
fn way_from(forks: &[Fork], root: Link, from: Link, name: &[u8], bit: Bit) -> Way
    requires there { (t : Trie) × IsAt forks.now root t × IsTowards forks.now from name.now t }
    requires within { bit.within < 9 }
    ensures { (t : Trie) → IsAt forks.now root t → IsTowards forks.now from name.now t
        → IsWay forks.now t name.now (level bit.byte bit.within) result }
{
    match fork_before(forks, from, bit) {
        Some(place) => pass(forks, place, name),
        None => Way {
            side: None,
            below: root,
        },
    }
}

/// The way of a name up to the first fork that isn't of a bit before this one. It is begun at a branch on it, or where
/// that lies too far on, at the root.
pub fn way_to(forks: &[Fork], root: Link, from: Link, name: &[u8], bit: Bit) -> Way
    requires there { (t : Trie) × IsAt forks.now root t × IsTowards forks.now from name.now t }
    requires within { bit.within < 9 }
    ensures { (t : Trie) → IsAt forks.now root t → IsTowards forks.now from name.now t
        → IsWayUpTo forks.now t name.now (level bit.byte bit.within) result }
{
    let mut way = way_from(forks, root, from, name, bit);
    while let Some(place) = fork_before(forks, way.below, bit) {
        way = pass(forks, place, name);
    }
    way
}

/// The side that leads to the last fork on a way, that fork's own side, and what hangs there.
#[derive(Clone, Copy)]
pub struct Last {
    pub above: Option<Side>,
    pub side: Option<Side>,
    pub below: Link,
}

/// The first fork is the last one so far.
fn last_from(forks: &[Fork], root: u32, name: &[u8]) -> Last
    requires { (t : Trie) × IsAt forks.now (branch.Inner root) t }
    ensures { (t : Trie) → IsAt forks.now (branch.Inner root) t → IsWayToLast forks.now t name.now result }
{
    let way = pass(forks, root, name);
    Last {
        above: None,
        side: way.side,
        below: way.below,
    }
}

/// Goes past one fork more.
fn last_past(forks: &[Fork], last: Last, place: u32, name: &[u8]) -> Last
    requires on { (t : Trie) × IsWayToLast forks.now t name.now last }
    requires place { inner_at last.below ≡ Some place }
    ensures on { (t : Trie) → IsWayToLast forks.now t name.now last → IsWayToLast forks.now t name.now result }
    ensures less { left forks.now result.below < left forks.now last.below }
{
    let way = pass(forks, place, name);
    Last {
        above: last.side,
        side: way.side,
        below: way.below,
    }
}

/// Goes past all forks at which a name has a 1, and past the first one at which it has a 0.
fn last_ones(forks: &[Fork], from: Last, name: &[u8]) -> Last
    requires { (t : Trie) × IsWayToLast forks.now t name.now from }
    ensures on { (t : Trie) → IsWayToLast forks.now t name.now from → IsWayToLast forks.now t name.now result }
    ensures less { left forks.now result.below ≤ left forks.now from.below }
{
    let mut last = from;
    while let Some(place) = inner(last.below) {
        last = last_past(forks, last, place, name);
        if !took_one(last.side) {
            return last;
        }
    }
    last
}

/// Goes on to a number.
fn last_by_chance(forks: &[Fork], from: Last, name: &[u8]) -> Last
    requires { (t : Trie) × IsWayToLast forks.now t name.now from }
    ensures on { (t : Trie) → IsWayToLast forks.now t name.now from → IsWayToLast forks.now t name.now result }
    ensures leaf { inner_at result.below ≡ None }
{
    let mut last = from;
    while let Some(place) = inner(last.below) {
        last = last_past(forks, last, place, name);
    }
    last
}

/// The same, where names come in turn.
fn last_in_turn(forks: &[Fork], from: Last, name: &[u8]) -> Last
    requires { (t : Trie) × IsWayToLast forks.now t name.now from }
    ensures on { (t : Trie) → IsWayToLast forks.now t name.now from → IsWayToLast forks.now t name.now result }
    ensures leaf { inner_at result.below ≡ None }
{
    let mut last = from;
    while let Some(place) = inner(last.below) {
        last = last_past(forks, last, place, name);
        if took_one(last.side) {
            last = last_ones(forks, last, name);
        }
    }
    last
}

/// The way of a name to the last fork on it, past which there is a number.
pub fn way_to_last(forks: &[Fork], root: u32, name: &[u8], in_turn: bool) -> Last
    requires { (t : Trie) × IsAt forks.now (branch.Inner root) t }
    ensures on { (t : Trie) → IsAt forks.now (branch.Inner root) t → IsWayToLast forks.now t name.now result }
    ensures leaf { inner_at result.below ≡ None }
{
    let first = last_from(forks, root, name);
    if in_turn {
        return last_in_turn(forks, first, name);
    }
    last_by_chance(forks, first, name)
}

/// Sets a branch at the side of a fork.
pub fn set_branch(forks: &mut [Fork], side: Side, at: Link)
    requires { side.fork < length forks.old }
    ensures { IsSet forks.old forks.new side.fork side.one at }
{
    if side.one {
        forks[side.fork as usize].one = at;
    } else {
        forks[side.fork as usize].zero = at;
    }
}

/// The numbers below a branch, by the bits of their names.
pub fn numbers_below(alloc: Global, forks: &[Fork], root: Link) -> Result<Vec<u32>, NoMemory>
    requires { (t : Trie) × AreOnce t × Shows forks.now root t }
    ensures { IfOk result (λ numbers. (t : Trie) → AreOnce t → Shows forks.now root t → numbers.items ≡ numbers_in t) }
{
    let mut numbers = Vec::new(alloc);
    let mut left = vec![in alloc; root; 1]?;
    while let Some(at) = left.pop() {
        match at.target() {
            Branch::Leaf(number) => numbers.push(number)?,
            Branch::Inner(place) => push_sides(&mut left, forks[place as usize])?,
        }
    }
    Ok(numbers)
}

/// Puts in the branches of a fork, the first one last.
fn push_sides(left: &mut Vec<Link>, fork: Fork) -> Result<(), NoMemory>
    ensures { OnOk result (left.new.items ≡ left.old.items ++ fork.one ∷ fork.zero ∷ []) }
{
    left.push(fork.one)?;
    Ok(left.push(fork.zero)?)
}
