ghost use Rattle.std.specs.Prelude.{◌≡◌, ◌-◌, ◌<◌, ◌≤◌, ◌^◌, List, [], ◌∷◌, ◌++◌, OnOk, IfOk};
ghost use Rattle.std.specs.List.{AllByRecursion};
ghost use Rattle.tape_types.specs.Bounds.{longest_file};
ghost use Rattle.index_model.specs.declared.nodes.RawExtent.{RawExtent};
ghost use Rattle.extent_map.specs.Laid.{IsLaid, front_of};
ghost use Rattle.file_tree.specs.Mounts.{extent_of as told_extent, laid_of, part_of as told_part};
ghost use Rattle.file_tree.specs.Raws.{IsRaw, AreApart, IsPlaced, AreRaws};

use extent_map::Extents;
use index_model::RawExtent;
use std::alloc::Global;
use tape_types::{Extent, NoMemory, Part};

/// The letters of the index partition and the data partition, `a` to `z` in ASCII.
pub type Letters = (u8, u8);

/// How a file of this length lies, of which these extents are told.
pub fn extents_from(
    alloc: Global,
    raws: &[RawExtent],
    length: u64,
    letters: Letters,
    block_size: u32,
) -> Result<Extents, NoMemory>
    requires { AreRaws letters block_size length raws.now }
    ensures laid { IfOk result (λ room. room.laid ≡ laid_of letters block_size length raws.now) }
    ensures good { IfOk result (λ room. IsLaid room.laid) }
{
    if raws.is_sorted_by_key(|raw| raw.offset) {
        return extents_in_turn(alloc, raws, length, letters, block_size);
    }
    let mut sorted = Vec::from_slice(alloc, raws)?;
    sorted.sort_unstable_by_key(|raw| raw.offset);
    extents_in_turn(alloc, &sorted, length, letters, block_size)
}

/// The same, one extent after the other. That costs least where they stand by their offsets.
fn extents_in_turn(
    alloc: Global,
    raws: &[RawExtent],
    length: u64,
    letters: Letters,
    block_size: u32,
) -> Result<Extents, NoMemory>
    requires { AreRaws letters block_size length raws.now }
    ensures laid { IfOk result (λ room. room.laid ≡ laid_of letters block_size length raws.now) }
    ensures good { IfOk result (λ room. IsLaid room.laid) }
{
    let mut extents = Extents::new(alloc, block_size);
    for raw in raws {
        put_raw(&mut extents, *raw, length, letters)?;
    }
    extents.set_length(length);
    Ok(extents)
}

/// Puts an extent that is told into the file, as far as it lies within its length.
fn put_raw(
    extents: &mut Extents,
    raw: RawExtent,
    length: u64,
    letters: Letters,
) -> Result<(), NoMemory>
    requires short { length ≤ longest_file }
    requires size { extents.old.laid.block_size < 2 ^ 32 }
    requires raw { IsRaw letters extents.old.laid.block_size raw }
    ensures { OnOk result ((front rest : List RawExtent)
        → IsPlaced letters extents.old.laid.block_size length front (raw ∷ rest) extents.old.laid
        → AllByRecursion (AreApart raw) rest
        → IsPlaced letters extents.old.laid.block_size length (front ++ raw ∷ []) rest extents.new.laid) }
{
    if raw.count == 0 || raw.offset >= length {
        return Ok(());
    }
    extents.reserve()?;
    extents.overlay(extent_of(raw, length, letters));
    Ok(())
}

/// The extent, cut at the length of its file.
fn extent_of(raw: RawExtent, length: u64, letters: Letters) -> Extent
    requires within { raw.offset < length }
    requires byte { raw.byte < 2 ^ 32 }
    ensures { result ≡ front_of (length - raw.offset) (told_extent letters raw) }
{
    Extent {
        offset: raw.offset,
        block: raw.block,
        count: raw.count.min(length - raw.offset),
        byte: raw.byte as u32,
        part: part_of(letters, raw.letter),
    }
}

fn part_of(letters: Letters, letter: u8) -> Part
    ensures { result ≡ told_part letters letter }
{
    if letter == letters.0 {
        Part::Ip
    } else {
        Part::Dp
    }
}
