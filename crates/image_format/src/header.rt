// What a header says of a cartridge with certain capacities.
ghost use Rattle.std.specs.Prelude.{◌≡◌, ◌≤◌, Some, IfSome, IsTrue};
ghost use Rattle.image_format.specs.Images.{fits, header_by};

use crate::values::{Half, SlotValue, decode_value};
use tape_types::Limits;

/// What the bytes of a slot behind its gate say, where the records of both partitions fit their capacities, with the
/// Torn behind them.
pub fn decode_header(limits: Limits, bytes: &[u8; 255]) -> Option<SlotValue>
    ensures said { result ≡ header_by limits (Some bytes.now) }
    ensures ip { IfSome result (λ s. s.ip.count ≤ limits.cap_ip) }
    ensures dp { IfSome result (λ s. s.dp.count ≤ limits.cap_dp) }
{
    let value = decode_value(bytes)?;
    if fits(limits.cap_ip, &value.ip) && fits(limits.cap_dp, &value.dp) {
        return Some(value);
    }
    None
}

fn fits(cap: u64, half: &Half) -> bool
    ensures value { result ≡ fits cap half.now }
    ensures count { IsTrue result → half.now.count ≤ cap }
{
    let Half { count, torn, .. } = *half;
    if torn {
        return count < cap;
    }
    count <= cap
}
