//! Where indexes point to.

ghost use Rattle.std.specs.Prelude.{◌≡◌, ◌≤◌, ◌<◌, ◌⊎◌, ◌↔◌, List, map, reverse, Option, IsTrue};
ghost use Rattle.index_model.specs.declared.indexes.Index.{Index as IndexOf};
ghost use Rattle.index_model.specs.declared.indexes.Spot.{Spot as SpotOf};
ghost use Rattle.content_laws.specs.Readings.{Construct as ConstructOf, first_of};
ghost use Rattle.cartridge_meaning.specs.Pointers.{NamesOneOf, PointsBack, PointsOnDp, PointsOnIp, newest_spot};
ghost use Rattle.volume_scan.specs.Scans.{places_of};
ghost use Rattle.mount_recover.specs.Lasts.{HasFirst, generation_in};

use index_model::{Index, Spot};
use ltfs_label::Label;
use volume_scan::Construct;

/// Whether an index of the data partition points to itself, and back to the last of those before it.
pub fn points_on_dp(label: &Label, first: u64, older: &[Construct], index: &Index) -> bool
    ensures { (k : ConstructOf) (ks : List ConstructOf) → first ≡ first_of k → older.now ≡ map places_of (reverse ks)
        → IsTrue result ↔ PointsOnDp label.now k ks index.now }
{
    let here = Spot {
        letter: label.dpart,
        block: first,
    };
    points(index, here, spot_of_last(label, older))
}

/// Whether an index points to these.
fn points(index: &Index, here: Spot, back: Option<Spot>) -> bool
    ensures { IsTrue result ↔ ((index.now.here ≡ here) × (index.now.back ≡ back)) }
{
    index.here == here && index.back == back
}

/// The pointer to the last of these indexes of the data partition, where there is one.
fn spot_of_last(label: &Label, places: &[Construct]) -> Option<Spot>
    ensures { (ks : List ConstructOf) → places.now ≡ map places_of (reverse ks) → result ≡ newest_spot label.now ks }
{
    match places.split_last() {
        None => None,
        Some((last, _)) => Some(Spot {
            letter: label.dpart,
            block: last.first,
        }),
    }
}

/// Whether the last index of the index partition points to itself, and back to where it must on the data partition,
/// whose last one is of this generation where there is one.
pub fn points_on_ip(
    label: &Label,
    first: u64,
    dps: &[Construct],
    on_dp: Option<u64>,
    index: &Index,
) -> bool
    ensures { (k : ConstructOf) (ks : List ConstructOf) (dp : Option IndexOf) → first ≡ first_of k
        → dps.now ≡ map places_of (reverse ks) → on_dp ≡ generation_in dp
        → IsTrue result ↔ PointsOnIp label.now k ks dp index.now }
{
    is_here(
        index,
        Spot {
            letter: label.index,
            block: first,
        },
    ) && points_back(label, index, dps, on_dp)
}

fn is_here(index: &Index, here: Spot) -> bool
    ensures { IsTrue result ↔ (index.now.here ≡ here) }
{
    index.here == here
}

fn is_back(index: &Index, back: Option<Spot>) -> bool
    ensures { IsTrue result ↔ (index.now.back ≡ back) }
{
    index.back == back
}

fn points_back(label: &Label, index: &Index, dps: &[Construct], on_dp: Option<u64>) -> bool
    ensures { (ks : List ConstructOf) (dp : Option IndexOf) → dps.now ≡ map places_of (reverse ks)
        → on_dp ≡ generation_in dp → IsTrue result ↔ PointsBack label.now index.now ks dp }
{
    match on_dp {
        None => is_back(index, None),
        Some(generation) => points_back_from(label, index, dps, generation),
    }
}

/// Whether an index points back to the last index of the data partition, which has this generation, or to some index
/// there where it is older than that.
fn points_back_from(label: &Label, index: &Index, dps: &[Construct], generation: u64) -> bool
    ensures { (ks : List ConstructOf) → dps.now ≡ map places_of (reverse ks) → IsTrue result
        ↔ (((generation ≤ index.now.generation) × (index.now.back ≡ newest_spot label.now ks))
        ⊎ ((index.now.generation < generation) × NamesOneOf label.now index.now.back ks)) }
{
    if generation <= index.generation {
        is_back(index, spot_of_last(label, dps))
    } else {
        names_one_of(label, index.back, dps)
    }
}

/// Whether a pointer names one of these indexes of the data partition.
#[tactic(auto, using(crate::proofs::PointerLemmas::names, crate::proofs::PointerLemmas::none_named))]
fn names_one_of(label: &Label, back: Option<Spot>, dps: &[Construct]) -> bool
    ensures { (ks : List ConstructOf) → dps.now ≡ map places_of (reverse ks)
        → IsTrue result ↔ NamesOneOf label.now back ks }
{
    match back {
        None => false,
        Some(spot) => is_one_of(label.dpart, dps, spot),
    }
}

/// Whether a pointer has this letter and names one of these indexes.
fn is_one_of(letter: u8, places: &[Construct], spot: Spot) -> bool
    ensures { IsTrue result ↔ ((spot.letter ≡ letter) × HasFirst places.now spot.block) }
{
    spot.letter == letter && has_first(places, spot.block)
}

/// Whether one of these indexes has its first block there.
#[tactic(auto, using(crate::proofs::PointerLemmas::nowhere))]
fn has_first(places: &[Construct], block: u64) -> bool
    ensures { IsTrue result ↔ HasFirst places.now block }
{
    for place in places {
        if place.first == block {
            return true;
        }
    }
    false
}
