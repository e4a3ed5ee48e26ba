//! The index for which a cartridge stands.

ghost use Rattle.std.specs.Prelude.{◌≡◌, ◌⊎◌, ℕ, None, Some, IfOk, IfErr, IfSome, IfNone, MatchOption};
ghost use Rattle.tape_types.specs.declared.cartridges.Cartridge.{Cartridge};
ghost use Rattle.tape_types.specs.declared.cartridges.Limits.{Limits as LimitsOf};
ghost use Rattle.mount_recover.specs.Lasts.{AreLasts, AreSoundLasts, HasNone, IsChosen, IsDecided};
ghost use Rattle.mount_recover.specs.Lasts.{IsPicked, IsSoundChoice};
ghost use Rattle.mount_recover.specs.Noted.{AreEndsBy, AreEndsOf, AreEndsWithin};
ghost use Rattle.mount_recover.specs.Lasts.{IsFirstOutside, IsIpEnd, dp_ends, dp_in, ip_in, standing_of};
ghost use Rattle.mount_recover.specs.Labels.{AreCounts};
ghost use Rattle.std.specs.List.{AllByRecursion};
ghost use Rattle.cartridge_meaning.specs.Faults.{MountFault};
ghost use Rattle.cartridge_meaning.specs.Meaning.{FitsNode, HasForms};
ghost use Rattle.cartridge_meaning.specs.declared.errors.MountErr.TheVariants as errors;

use crate::extents::{Ends, first_outside};
use crate::lasts::{LastIndex, Lasts};
use crate::scans::Scans;
use cartridge_meaning::{Labels, MountErr};
use index_model::{Index, Spot};
use ltfs_label::Label;
use tape_types::{Part, Place};
use volume_scan::{Construct, Content};

/// What is kept of the last index of a partition.
#[derive(Clone, Copy)]
pub struct Standing {
    pub place: Construct,
    pub generation: u64,
    pub back: Option<Spot>,
}

/// The index that was chosen, and what is kept of the last ones.
#[derive(Drop)]
pub struct Choice {
    pub index: Index,
    /// The first block of that index.
    pub chosen: Place,
    pub ip: Option<Standing>,
    pub dp: Option<Standing>,
    pub ends: Ends,
}

/// The index of the greater generation, that of the data partition on a tie, where its extents lie before the ends.
pub fn decide(labels: &Labels, ends: Ends, lasts: Lasts) -> Result<Choice, MountErr>
    ensures found { IfOk result (λ choice. (c : Cartridge) → HasForms c labels.now → AreEndsOf c ends
        → AreLasts labels.now.ip lasts c → IsDecided labels.now lasts choice c) }
    ensures refused { IfErr result (λ e. (c : Cartridge) → HasForms c labels.now → AreEndsOf c ends
        → AreLasts labels.now.ip lasts c → MountFault c e) }
    ensures any { IfOk result (λ choice. (limits : LimitsOf) → AreEndsWithin limits (standing_of (dp_in lasts)) ends
        → AreSoundLasts labels.now.ip limits lasts → IsSoundChoice labels.now.ip limits choice) }
    ensures counts { IfErr result (λ e. (before now : ℕ) → AreCounts before now e) }
{
    match choose(ends, lasts) {
        None => Err(MountErr::NoIndex),
        Some(choice) => check(&labels.ip, choice),
    }
}

/// A choice whose extents lie before the ends.
fn check(label: &Label, choice: Choice) -> Result<Choice, MountErr>
    ensures fits { IfOk result (λ x. (x ≡ choice)
        × AllByRecursion (FitsNode label.now choice.ends.ip choice.ends.dp) choice.index.nodes) }
    ensures refused { IfErr result (λ e. (uid : ℕ) × (e ≡ errors.BadExtent uid)
        × IsFirstOutside label.now choice.ends.ip choice.ends.dp choice.index.nodes uid) }
{
    match first_outside(label, choice.ends, choice.index.nodes.as_slice()) {
        Some(uid) => Err(MountErr::BadExtent(uid)),
        None => Ok(choice),
    }
}

fn choose(ends: Ends, lasts: Lasts) -> Option<Choice>
    ensures chosen { MatchOption result (HasNone lasts) (IsChosen lasts) }
    ensures ends { IfSome result (λ choice. choice.ends ≡ ends) }
{
    let (ip, dp) = standings(&lasts);
    match pick(lasts) {
        None => None,
        Some((last, part)) => Some(Choice {
            chosen: Place {
                part,
                pos: last.place.first,
            },
            index: last.index,
            ip,
            dp,
            ends,
        }),
    }
}

/// Where the next item of each partition goes, of which this was scanned.
pub fn ends_scanned(scans: &Scans, lasts: &Lasts) -> Ends
    ensures ip { IsIpEnd scans.now.ip (standing_of (ip_in lasts.now)) result.ip }
    ensures dp { result.dp ≡ dp_ends (standing_of (dp_in lasts.now)) }
{
    let (ip, dp) = standings(lasts);
    Ends {
        ip: end_of_ip(&scans.ip, ip),
        dp: end_of_dp(dp),
    }
}

/// Where the next item of each partition goes, where both end with these indexes.
pub fn ends_noted(lasts: &Lasts) -> Option<Ends>
    ensures some { IfSome result (AreEndsBy (standing_of (ip_in lasts.now)) (standing_of (dp_in lasts.now))) }
    ensures none { IfNone result ((standing_of (ip_in lasts.now) ≡ None) ⊎ (standing_of (dp_in lasts.now) ≡ None)) }
{
    let (ip, dp) = standings(lasts);
    ends_by(ip, dp)
}

fn ends_by(ip: Option<Standing>, dp: Option<Standing>) -> Option<Ends>
    ensures some { IfSome result (AreEndsBy ip dp) }
    ensures none { IfNone result ((ip ≡ None) ⊎ (dp ≡ None)) }
{
    match (ip, dp) {
        (Some(ip), Some(dp)) => Some(Ends {
            ip: ip.place.mark,
            dp: dp.place.after,
        }),
        _ => None,
    }
}

/// What is kept of the last index of the index partition and of the data partition.
fn standings(lasts: &Lasts) -> (Option<Standing>, Option<Standing>)
    ensures ip { result.0 ≡ standing_of (ip_in lasts.now) }
    ensures dp { result.1 ≡ standing_of (dp_in lasts.now) }
{
    match lasts {
        Lasts::None => (None, None),
        Lasts::OnIp(ip) => (Some(kept(ip)), None),
        Lasts::OnDp(dp) => (None, Some(kept(dp))),
        Lasts::OnBoth { ip, dp } => (Some(kept(ip)), Some(kept(dp))),
        Lasts::Alike { ip, dp } => {
            let ip = Standing {
                place: ip.place,
                generation: dp.index.generation,
                back: Some(ip.back),
            };
            (Some(ip), Some(kept(dp)))
        }
    }
}

fn kept(last: &LastIndex) -> Standing
    ensures { Some result ≡ standing_of (Some last.now) }
{
    Standing {
        place: last.place,
        generation: last.index.generation,
        back: last.index.back,
    }
}

/// Where the next item of the index partition goes.
fn end_of_ip(found: &Content, last: Option<Standing>) -> u64
    ensures { IsIpEnd found.now last result }
{
    match last {
        None => found.lead,
        Some(last) => {
            if last.place.after == found.front {
                last.place.mark
            } else {
                found.lead
            }
        }
    }
}

/// Where the next item of the data partition goes.
fn end_of_dp(last: Option<Standing>) -> u64
    ensures { result ≡ dp_ends last }
{
    match last {
        None => 4,
        Some(last) => last.place.after,
    }
}

/// The last index of the greater generation, that of the data partition on a tie, and its partition.
#[tactic(auto, using(crate::proofs::ChoiceLemmas::picked_alike))]
fn pick(lasts: Lasts) -> Option<(LastIndex, Part)>
    ensures { MatchOption result (HasNone lasts) (λ x. IsPicked (ip_in lasts) (dp_in lasts) x.0 x.1) }
{
    match lasts {
        Lasts::None => None,
        Lasts::OnIp(ip) => Some((ip, Part::Ip)),
        Lasts::OnDp(dp) => Some((dp, Part::Dp)),
        Lasts::OnBoth { ip, dp } => Some(newer(ip, dp)),
        Lasts::Alike { dp, .. } => Some((dp, Part::Dp)),
    }
}

fn newer(ip: LastIndex, dp: LastIndex) -> (LastIndex, Part)
    ensures { IsPicked (Some ip) (Some dp) result.0 result.1 }
{
    if dp.index.generation < ip.index.generation {
        (ip, Part::Ip)
    } else {
        (dp, Part::Dp)
    }
}
