ghost use Rattle.std.specs.Prelude.{◌≡◌, ℕ, ◌+◌, ◌-◌, ◌^◌, ◌<◌, ◌≤◌, true, false, nat_le, nat_lt, take, drop};
ghost use Rattle.std.specs.Prelude.{replicate, ◌∷◌, ◌++◌, length, IsSome, vec_len, vec_capacity};
ghost use Rattle.std.specs.List.{flat_map, All};
ghost use Rattle.std.specs.List.Sorted.{IsPartitionedBy, IsPartitionPoint};
ghost use Rattle.std.specs.Option.{option_to_list};
ghost use Rattle.tape_types.specs.Bounds.{longest_file};
ghost use Rattle.tape_types.specs.declared.cartridges.Extent.{Extent};
ghost use Rattle.extent_map.specs.Laid.{AreLaid, rest_of as rest_after, before, cut, left_from};

use tape_types::Extent;

/// Puts an extent in place of what others have in its range. Takes no memory.
pub fn put(extents: &mut Vec<Extent>, new: Extent, block_size: u32)
    requires laid { AreLaid block_size 0 longest_file extents.old.items }
    requires some { 1 ≤ new.count }
    requires fits { new.offset + new.count ≤ longest_file }
    requires room { vec_len extents.old + 2 ≤ vec_capacity extents.old }
    ensures { extents.new.items ≡ cut new.offset extents.old.items
        ++ new ∷ left_from block_size (new.offset + new.count) extents.old.items }
{
    let end = new.offset + new.count;
    let first = ended_by(extents, new.offset);
    let last = ended_by(extents, end);
    let front = front_before(extents, first, new.offset);
    begin_at(extents, last, end, block_size);
    put_between(extents, first, last, front, new);
}

/// Cuts extents at an offset. Takes no memory.
pub fn cut_off(extents: &mut Vec<Extent>, at: u64)
    requires { (block_size : ℕ) × AreLaid block_size 0 longest_file extents.old.items }
    ensures { extents.new.items ≡ cut at extents.old.items }
{
    let kept = ended_by(extents, at);
    let front = front_before(extents, kept, at);
    keep(extents, kept, front);
}

/// How many of a file's first extents end at or before an offset.
pub fn ended_by(extents: &[Extent], at: u64) -> usize
    ensures bound { result ≤ length extents.now }
    ensures parts { IsPartitionedBy (λ (e : Extent). nat_le e.count (at - e.offset)) extents.now
        → IsPartitionPoint (λ (e : Extent). nat_le e.count (at - e.offset) ≡ true)
        (λ (e : Extent). nat_le e.count (at - e.offset) ≡ false) extents.now result }
{
    extents.partition_point(|extent| extent.count <= at.saturating_sub(extent.offset))
}

/// How many of a file's first extents begin before an offset.
pub fn begun_by(extents: &[Extent], at: u64) -> usize
    ensures bound { result ≤ length extents.now }
    ensures parts { IsPartitionedBy (λ (e : Extent). nat_lt e.offset at) extents.now
        → IsPartitionPoint (λ (e : Extent). nat_lt e.offset at ≡ true)
        (λ (e : Extent). nat_lt e.offset at ≡ false) extents.now result }
{
    extents.partition_point(|extent| extent.offset < at)
}

/// The extents from one place up to another.
pub fn part(extents: &[Extent], first: usize, last: usize) -> &[Extent]
    requires order { first ≤ last }
    requires within { last ≤ length extents.now }
    ensures { result.now ≡ take (last - first) (drop first extents.now) }
{
    &extents[first..last]
}

/// An extent without its first `count` bytes.
pub fn rest_of(extent: Extent, count: u64, block_size: u32) -> Extent
    requires size { 1 ≤ block_size }
    requires within { count ≤ extent.count }
    requires far { extent.block + extent.count ≤ 2 ^ 62 + longest_file }
    requires offset { extent.offset + count < 2 ^ 64 }
    ensures { result ≡ rest_after block_size count extent }
{
    let size = u64::from(block_size);
    let byte = u64::from(extent.byte) + count;
    Extent {
        offset: extent.offset + count,
        part: extent.part,
        block: extent.block + byte / size,
        byte: (byte % size) as u32,
        count: extent.count - count,
    }
}

/// What of the extent at a place lies before an offset.
fn front_before(extents: &[Extent], place: usize, at: u64) -> Option<Extent>
    ensures front { option_to_list result ≡ flat_map (before at) (take 1 (drop place extents.now)) }
    ensures there { IsSome result → place < length extents.now }
{
    let Some(extent) = extents.get(place) else {
        return None;
    };
    let count = extent.count.min(at.saturating_sub(extent.offset));
    if count == 0 {
        return None;
    }
    Some(Extent { count, ..*extent })
}

/// Cuts off what the extent at a place has before an offset. It is the first that ends past the offset.
fn begin_at(extents: &mut Vec<Extent>, place: usize, at: u64, block_size: u32)
    requires laid { AreLaid block_size 0 longest_file extents.old.items }
    requires place { IsPartitionPoint (λ (e : Extent). nat_le e.count (at - e.offset) ≡ true)
        (λ (e : Extent). nat_le e.count (at - e.offset) ≡ false) extents.old.items place }
    requires within { place ≤ vec_len extents.old }
    ensures items { extents.new.items ≡ take place extents.old.items ++ left_from block_size at extents.old.items }
    ensures len { vec_len extents.new ≡ vec_len extents.old }
    ensures capacity { vec_capacity extents.new ≡ vec_capacity extents.old }
{
    if place < extents.len() {
        let extent = extents[place];
        extents[place] = rest_of(extent, at.saturating_sub(extent.offset), block_size);
    }
}

/// Puts an extent, and before it what `front` has, in place of those from one place up to another.
fn put_between(
    extents: &mut Vec<Extent>,
    first: usize,
    last: usize,
    front: Option<Extent>,
    new: Extent,
)
    requires order { first ≤ last }
    requires within { last ≤ vec_len extents.old }
    requires room { vec_len extents.old + 2 ≤ vec_capacity extents.old }
    ensures { extents.new.items ≡ take first extents.old.items ++ option_to_list front
        ++ new ∷ drop last extents.old.items }
{
    match front {
        None => make_gap(extents, first, last, 1, new),
        Some(part) => {
            make_gap(extents, first, last, 2, new);
            extents[first] = part;
        }
    }
}

/// Puts `count` times the same extent in place of those from one place up to another.
fn make_gap(extents: &mut Vec<Extent>, first: usize, last: usize, count: usize, filler: Extent)
    requires order { first ≤ last }
    requires within { last ≤ vec_len extents.old }
    requires some { 1 ≤ count }
    requires room { vec_len extents.old + count ≤ vec_capacity extents.old }
    ensures { extents.new.items ≡ take first extents.old.items ++ replicate count filler
        ++ drop last extents.old.items }
{
    move_rest(extents, last, first + count, filler);
    extents[first..first + count].fill(filler);
}

/// Moves the extents from a place on to another place. What lies between is any extents, `filler` among them.
fn move_rest(extents: &mut Vec<Extent>, from: usize, to: usize, filler: Extent)
    requires within { from ≤ vec_len extents.old }
    requires room { vec_len extents.old + (to - from) ≤ vec_capacity extents.old }
    ensures head { (n : ℕ) → n ≤ from → n ≤ to → take n extents.new.items ≡ take n extents.old.items }
    ensures rest { drop to extents.new.items ≡ drop from extents.old.items }
    ensures len { vec_len extents.new + from ≡ vec_len extents.old + to }
{
    if from == to {
        return;
    }
    let length = extents.len();
    let size = length - from + to;
    if extents.resize(length.max(size), filler).is_err() {
        unreachable!();
    }
    extents.copy_within(from..length, to);
    extents.truncate(size);
}

/// Leaves the first extents alone, and behind them what `front` has.
fn keep(extents: &mut Vec<Extent>, kept: usize, front: Option<Extent>)
    requires { IsSome front → kept < vec_len extents.old }
    ensures { extents.new.items ≡ take kept extents.old.items ++ option_to_list front }
{
    match front {
        None => extents.truncate(kept),
        Some(part) => {
            extents.truncate(kept + 1);
            extents[kept] = part;
        }
    }
}
