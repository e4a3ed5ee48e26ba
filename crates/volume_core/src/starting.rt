//! The parts of a volume of which nothing was asked yet.

ghost use Rattle.std.specs.Prelude.{◌≡◌, IfErr, IfOk};
ghost use Rattle.tape_types.specs.Cartridges.{IsLimits};
ghost use Rattle.cartridge_meaning.specs.Mounts.{IsMount};
ghost use Rattle.promises.specs.ServingPromise.Served.{Fixed};
ghost use Rattle.volume_state.specs.CallLaws.StartLaws.{IsFresh};
ghost use Rattle.volume_core.specs.VolumeSteps.Seen.{seen_parts};
ghost use Rattle.volume_core.specs.Beginning.{BeginsWith};

use crate::volume_steps::Parts;
use block_cache::BlockCache;
use cartridge_meaning::Mounted;
use event_journal::{Placements, Trail};
use head_core::Head;
use head_queue::Queue;
use held_volume::Stock;
use std::alloc::Global;
use tape_drive::Drive;
use waiting_reads::Readings;

/// The parts of a volume that was mounted, with room for so many calls of so many sessions. Where memory is spared,
/// long replies go. A refusal, which is for want of memory alone, hands the drive back.
pub fn begin<D: Drive>(
    alloc: Global,
    mounted: Mounted,
    drive: D,
    calls: usize,
    sessions: usize,
    spares: bool,
) -> Result<Parts<D>, D>
    requires { IsMount (D.limits drive) mounted }
    ensures limits { IfOk result (λ p. IsLimits (D.limits drive)) }
    ensures fresh { IfOk result (λ p. (fixed : Fixed D)
        → BeginsWith D.Drive fixed drive mounted calls sessions p.stock.tree
        → IsFresh D.Drive fixed (seen_parts p)) }
    ensures err { IfErr result (λ d. d ≡ drive) }
{
    let limits = drive.limits();
    let Ok(stock) = Stock::start(alloc, mounted, limits) else {
        return Err(drive);
    };
    let Ok(placements) = Placements::new(alloc, calls, sessions, spares) else {
        return Err(drive);
    };
    let Ok(cache) = BlockCache::new(alloc) else {
        return Err(drive);
    };
    match Head::new(alloc, drive) {
        Ok(head) => Ok(Parts {
            head,
            stock,
            trail: Trail::new(alloc),
            queue: Queue::new(alloc),
            placements,
            reads: Readings::new(alloc),
            on: None,
            cache,
        }),
        Err(drive) => Err(drive),
    }
}
