ghost use Rattle.std.specs.Prelude.{◌≡◌, ℕ, ◌<◌, ◌≤◌, None, Some, IfOk, IfSome, IfNone, IsTrue, length};
ghost use Rattle.name_tries.specs.Keys.{AreTries};
ghost use Rattle.file_tree.specs.Seen.{Held, held, IsKept};
ghost use Rattle.file_tree.specs.Beside.{keys_of, KeysDiffer, IsNode, AreNamed, CanName, AreBelow};

use crate::guesses::Guesses;
use crate::nodes::Spot;
use crate::spots::{kept, spot_at};
use name_tries::Tries;
use std::alloc::Global;
use tape_types::NoMemory;

/// No names yet, with room for so many directories and numbers.
fn unnamed(alloc: Global, numbers: usize) -> Result<Tries, NoMemory>
    requires { numbers < 4294967296 }
    ensures none { IfOk result (λ t. AreTries t (λ n. None)) }
    ensures dirs { IfOk result (λ t. numbers ≤ length t.roots.items) }
    ensures numbers { IfOk result (λ t. length t.owned.items ≡ numbers) }
{
    let mut names = Tries::new(alloc);
    for number in 0..numbers {
        names.reserve_dir(number)?;
        names.reserve_number(number)?;
    }
    Ok(names)
}

/// What is kept at each number but 0, by the names. All of it becomes likely.
pub fn named(
    alloc: Global,
    spots: &[Option<Spot>],
    guesses: &mut Guesses,
) -> Result<Tries, NoMemory>
    requires small { length spots.now < 4294967296 }
    requires below { AreBelow (length spots.now) (held spots.now) }
    requires apart { KeysDiffer (held spots.now) }
    ensures named { IfOk result (λ t. AreNamed t (held spots.now)) }
    ensures dirs { IfOk result (λ t. length spots.now ≤ length t.roots.items) }
    ensures numbers { IfOk result (λ t. length t.owned.items ≡ length spots.now) }
{
    let mut names = unnamed(alloc, spots.len())?;
    for number in 1..spots.len() {
        if spots[number].is_some() {
            guesses.note(spots, number as u32);
            name_in(&mut names, spots, number as u32);
        }
    }
    Ok(names)
}

/// Whether the node with a number is under a name in a directory.
pub fn is_child(spots: &[Option<Spot>], number: u32, dir: u32, name: &str) -> bool
    ensures { IsTrue result → keys_of (held spots.now) number ≡ Some (dir, name.now) }
{
    if number == 0 {
        return false;
    }
    match kept(spots, number) {
        Some(spot) => spot.parent == dir && spot.name.as_str() == name,
        None => false,
    }
}

/// The number of the node under a name in a directory, by its trie.
pub fn child(spots: &[Option<Spot>], names: &Tries, dir: u32, name: &str) -> Option<u32>
    requires named { AreNamed names.now (held spots.now) }
    requires below { dir < length names.now.roots.items }
    ensures found { IfSome result (λ n. keys_of (held spots.now) n ≡ Some (dir, name.now)) }
    ensures missing { IfNone result ((n : ℕ) → keys_of (held spots.now) n ≡ Some (dir, name.now) → ⊥) }
{
    let near = names.nearest(dir, name.as_bytes())?;
    if spot_at(spots, near.number).name.as_str() == name {
        return Some(near.number);
    }
    None
}

/// Takes the number of a node out from under its name.
pub fn name_out(names: &mut Tries, spots: &[Option<Spot>], number: u32)
    requires named { AreNamed names.old (held spots.now) }
    requires there { IsNode (held spots.now) number }
    ensures named { (next : Held) → IsKept (held spots.now) next number None → AreNamed names.new next }
    ensures dirs { length names.new.roots.items ≡ length names.old.roots.items }
    ensures numbers { length names.new.owned.items ≡ length names.old.owned.items }
{
    let spot = spot_at(spots, number);
    names.cut(spot.parent, number, spot.name.as_str().as_bytes());
}

/// Puts the number of a node under its name.
pub fn name_in(names: &mut Tries, spots: &[Option<Spot>], number: u32)
    requires { (at : Held) × (next : Held) × CanName names.old spots.now at next number }
    ensures named { (at next : Held) → CanName names.old spots.now at next number → AreNamed names.new next }
    ensures dirs { length names.new.roots.items ≡ length names.old.roots.items }
    ensures numbers { length names.new.owned.items ≡ length names.old.owned.items }
{
    let spot = spot_at(spots, number);
    let name = spot.name.as_str().as_bytes();
    match names.nearest(spot.parent, name) {
        None => names.put_first(spot.parent, number),
        Some(near) => {
            let other = spot_at(spots, near.number);
            let other = other.name.as_str().as_bytes();
            names.put(spot.parent, number, name, near, other);
        }
    }
}
