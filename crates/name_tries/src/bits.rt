ghost use Rattle.std.specs.Prelude.{◌≡◌, ◌≢◌, ℕ, ◌-◌, ◌/◌, ◌%◌, ◌^◌, ◌<◌, ◌==◌, slice_get};
ghost use Rattle.name_tries.specs.Bits.{bit_of, IsParting};

/// A bit of names. Each name has nine at a byte: the first one says whether the name is as long as that, the others are
/// those of the byte, the highest first. So of two names the one that comes first has a 0 where they part.
#[derive(Clone, Copy)]
pub struct Bit {
    pub byte: usize,
    pub within: u8,
}

/// Whether a name has a 1 at a bit.
pub fn is_one(name: &[u8], byte: usize, within: u8) -> bool
    requires { within < 9 }
    ensures bit { result ≡ bit_of name.now byte within }
    ensures range { byte < 2 ^ 64 }
{
    (bits_at(name, byte) >> (8 - within)) % 2 == 1
}

/// The first bit at which two names part.
pub fn parting(one: &[u8], other: &[u8]) -> Bit
    requires { one.now ≢ other.now }
    ensures { IsParting one.now other.now result.byte result.within }
{
    let byte = same_bytes(one, other);
    let within = parting_in(one, other, byte);
    Bit { byte, within }
}

/// How many bytes two names have in common at their front.
fn same_bytes(one: &[u8], other: &[u8]) -> usize
    ensures alike { (k : ℕ) → k < result → slice_get one.now k ≡ slice_get other.now k }
    ensures apart { one.now ≢ other.now → slice_get one.now result ≢ slice_get other.now result }
{
    let most = one.len().min(other.len());
    for at in 0..most {
        if one[at] != other[at] {
            return at;
        }
    }
    most
}

/// The nine bits of a name at a byte as a number, the first one the highest.
fn bits_at(name: &[u8], byte: usize) -> u32
    ensures bits { (w : ℕ) → w < 9 → (result / 2 ^ (8 - w) % 2 == 1) ≡ bit_of name.now byte w }
    ensures small { result < 512 }
{
    match name.get(byte) {
        Some(at) => 256 + u32::from(*at),
        None => 0,
    }
}

/// At which bit of a byte two names part.
fn parting_in(one: &[u8], other: &[u8], byte: usize) -> u8
    requires { slice_get one.now byte ≢ slice_get other.now byte }
    ensures within { result < 9 }
    ensures alike { (w : ℕ) → w < result → bit_of one.now byte w ≡ bit_of other.now byte w }
    ensures apart { bit_of one.now byte result ≢ bit_of other.now byte result }
{
    let (a, b) = (bits_at(one, byte), bits_at(other, byte));
    for within in 0..9u8 {
        if a >> (8 - within) != b >> (8 - within) {
            return within;
        }
    }
    unreachable!()
}
