//! The ops of a close, and what comes behind them.

ghost use Rattle.std.specs.Prelude.{◌≡◌, ◌≤◌, ◌∷◌, List, length};
ghost use Rattle.head_core.specs.Steps.{IsOpStep};
ghost use Rattle.tape_layout.specs.declared.ops.Op.{Op as Standing};
ghost use Rattle.volume_core.specs.Commands.{AreOpsDone, EndsWith};
ghost use Rattle.volume_core.specs.Doing.{CanDoAll, IsOneDone, lasts_in};
ghost use Rattle.volume_core.specs.May.{MayDoAll, MayEnd};

use crate::notes::{LastIndexes, write_notes_if};
use head_core::{Head, StepDone, Work};
use held_volume::Stock;
use tape_drive::Drive;
use tape_types::Twin;

/// All ops are done, and then the notes are written where they are due.
pub fn end_with<D: Drive>(
    head: &mut Head<D>,
    stock: &mut Stock,
    last: LastIndexes,
    notes: bool,
) -> Result<(), Twin>
    requires can { CanDoAll D.Drive stock.old.layout.ops head.old.drive }
    requires may { MayEnd D.Drive stock.old.layout.ops (lasts_in last) head.old.drive }
    ensures { EndsWith D.Drive stock.old.layout.ops (lasts_in last) notes head.old.drive head.new.drive result }
{
    match do_ops(head, stock) {
        Ok(()) => write_notes_if(head, last, notes),
        Err(counts) => Err(counts),
    }
}

/// Does all ops that stand, up to one that fails.
pub fn do_ops<D: Drive>(head: &mut Head<D>, stock: &mut Stock) -> Result<(), Twin>
    requires can { CanDoAll D.Drive stock.old.layout.ops head.old.drive }
    requires may { MayDoAll D.Drive stock.old.layout.ops head.old.drive }
    ensures { AreOpsDone D.Drive stock.old.layout.ops head.old.drive head.new.drive result }
{
    while stock.layout().waiting() > 0 {
        match do_first(head, stock) {
            Ok(()) => (),
            Err(counts) => return Err(counts),
        }
    }
    Ok(())
}

/// Does the first op, which stands no more where that succeeds.
fn do_first<D: Drive>(head: &mut Head<D>, stock: &mut Stock) -> Result<(), Twin>
    requires some { 1 ≤ length stock.old.layout.ops }
    requires can { CanDoAll D.Drive stock.old.layout.ops head.old.drive }
    requires may { MayDoAll D.Drive stock.old.layout.ops head.old.drive }
    ensures { (op : Standing) × (later : List Standing) × (stock.old.layout.ops ≡ op ∷ later)
        × IsOneDone D.Drive op later stock.new.layout.ops head.old.drive head.new.drive result }
{
    let Some(op) = stock.next_op() else {
        unreachable!();
    };
    match head.step(Work::Do(op)) {
        StepDone::Failed(counts) => return Err(counts),
        StepDone::Read(_) => stock.done_op(),
        StepDone::Wrote => stock.done_op(),
        StepDone::Flushed => stock.done_op(),
    }
    Ok(())
}
