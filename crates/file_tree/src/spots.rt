ghost use Rattle.std.specs.Prelude.{◌≡◌, ◌+◌, ◌-◌, None, Some, ◌<◌, length, IsSome, OnOk, vec_len, vec_capacity};
ghost use Rattle.std.specs.Option.{option_copied};
ghost use Rattle.file_tree.specs.declared.nodes.Spot.{Spot};
ghost use Rattle.file_tree.specs.Seen.{held};
ghost use Rattle.file_tree.specs.Changes.{CanChange, IsChangedBy, IsRoomier, HasRoom};
ghost use Rattle.file_tree.specs.Places.{used, IsChangedIn, IsSetIn};

use crate::changes::{NodeChange, NodeRoom, change_node, reserve_node};
use crate::nodes::Spot;
use tape_types::{Moment, NoMemory, Text};

/// What is kept at each number.
pub type Spots = Vec<Option<Spot>>;

/// What is kept at a number, if anything is.
pub fn kept(spots: &[Option<Spot>], number: u32) -> Option<&Spot>
    ensures { option_copied result ≡ held spots.now number }
{
    match spots.get(number as usize) {
        Some(spot) => spot.as_ref(),
        None => None,
    }
}

/// What is kept at a number.
pub fn spot_at(spots: &[Option<Spot>], number: u32) -> &Spot
    requires { IsSome (held spots.now number) }
    ensures { held spots.now number ≡ Some result.now }
{
    match &spots[number as usize] {
        Some(spot) => spot,
        None => unreachable!(),
    }
}

/// Keeps a spot at a place where nothing is kept.
pub fn fill_spot(spots: &mut Spots, number: u32, spot: Spot)
    requires within { number < vec_len spots.old }
    requires empty { held spots.old.items number ≡ None }
    ensures set { IsSetIn spots.old.items spots.new.items number (Some spot) }
    ensures slots { length spots.new.items ≡ length spots.old.items }
    ensures filled { used spots.new.items ≡ used spots.old.items + 1 }
    ensures room { vec_capacity spots.new - vec_len spots.new ≡ vec_capacity spots.old - vec_len spots.old }
{
    spots[number as usize] = Some(spot);
}

/// Keeps nothing where something is kept.
pub fn take_spot(spots: &mut Spots, number: u32)
    requires { IsSome (held spots.old.items number) }
    ensures set { IsSetIn spots.old.items spots.new.items number None }
    ensures slots { length spots.new.items ≡ length spots.old.items }
    ensures filled { used spots.new.items + 1 ≡ used spots.old.items }
    ensures room { vec_capacity spots.new - vec_len spots.new ≡ vec_capacity spots.old - vec_len spots.old }
{
    spots[number as usize] = None;
}

/// Keeps a node in another directory, under another name.
pub fn shift_spot(spots: &mut Spots, number: u32, dir: u32, name: Text)
    requires { IsSome (held spots.old.items number) }
    ensures set { (s : Spot) → held spots.old.items number ≡ Some s
        → IsSetIn spots.old.items spots.new.items number (Some (record { parent = dir; name = name; node = s.node })) }
    ensures slots { length spots.new.items ≡ length spots.old.items }
    ensures filled { used spots.new.items ≡ used spots.old.items }
    ensures room { vec_capacity spots.new - vec_len spots.new ≡ vec_capacity spots.old - vec_len spots.old }
{
    match &mut spots[number as usize] {
        Some(spot) => {
            spot.parent = dir;
            spot.name = name;
        }
        None => unreachable!(),
    }
}

/// Changes a node.
pub fn change_spot(spots: &mut Spots, number: u32, change: NodeChange<'_>, at: Moment)
    requires there { IsSome (held spots.old.items number) }
    requires can { (s : Spot) → held spots.old.items number ≡ Some s → CanChange change s.node }
    ensures changed { IsChangedIn spots.old.items spots.new.items number (λ a b. IsChangedBy change.entry at a b) }
    ensures room { vec_capacity spots.new - vec_len spots.new ≡ vec_capacity spots.old - vec_len spots.old }
{
    match &mut spots[number as usize] {
        Some(spot) => change_node(&mut spot.node, change, at),
        None => unreachable!(),
    }
}

/// Makes room in a node.
pub fn reserve_spot(spots: &mut Spots, number: u32, room: NodeRoom) -> Result<(), NoMemory>
    requires { IsSome (held spots.old.items number) }
    ensures changed { IsChangedIn spots.old.items spots.new.items number
        (λ a b. IsRoomier room a b × OnOk result (HasRoom room b)) }
    ensures room { vec_capacity spots.new - vec_len spots.new ≡ vec_capacity spots.old - vec_len spots.old }
{
    match &mut spots[number as usize] {
        Some(spot) => reserve_node(&mut spot.node, room),
        None => unreachable!(),
    }
}
