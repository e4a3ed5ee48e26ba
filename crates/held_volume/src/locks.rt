//! The lock of the volume: what it refuses, and the calls about it.

ghost use Rattle.std.specs.Prelude.{◌≡◌, None, Ok};
ghost use Rattle.plain_tree.specs.Calls.{call_of_change};
ghost use Rattle.plain_tree.specs.Refusals.{is_locked, is_sealed, lock_refusal};
ghost use Rattle.plain_tree.specs.declared.calls.Call.TheVariants as asks;
ghost use Rattle.held_volume.specs.Applied.{IsTried};

use file_tree::Tree;
use plain_tree::{Change, LockState, Refusal};
use tape_types::Moment;

/// Whether a lock refuses a change.
pub fn locked(state: LockState, change: Change<'_>) -> Option<Refusal>
    ensures { result ≡ lock_refusal state (call_of_change change.entry) }
{
    let held = match change {
        Change::LockVolume | Change::UnlockVolume | Change::PermLock => is_sealed(state),
        Change::Mkdir(_)
        | Change::Create(_)
        | Change::Write(_, _, _)
        | Change::Truncate(_, _)
        | Change::Rename(_, _)
        | Change::Remove(_)
        | Change::Setx(_, _, _)
        | Change::Dropx(_, _)
        | Change::Readonly(_, _) => is_locked(state),
    };
    if held { Some(Refusal::Locked) } else { None }
}

/// Whether the volume is locked for ever.
pub fn is_sealed(state: LockState) -> bool
    ensures { result ≡ is_sealed state }
{
    matches!(state, LockState::PermLocked)
}

fn is_locked(state: LockState) -> bool
    ensures { result ≡ is_locked state }
{
    matches!(state, LockState::Locked | LockState::PermLocked)
}

/// Locks the volume, and tells whether it wasn't locked.
pub fn lock_volume(tree: &mut Tree, at: Moment) -> bool
    requires { lock_refusal tree.old.lock asks.LockVolume ≡ None }
    ensures { IsTried asks.LockVolume at tree.old tree.new (Ok result) }
{
    if tree.lock() == LockState::Locked {
        return false;
    }
    tree.set_lock(LockState::Locked);
    true
}

/// Takes the lock away, and tells whether there was one.
pub fn unlock_volume(tree: &mut Tree, at: Moment) -> bool
    requires { lock_refusal tree.old.lock asks.UnlockVolume ≡ None }
    ensures { IsTried asks.UnlockVolume at tree.old tree.new (Ok result) }
{
    if tree.lock() != LockState::Locked {
        return false;
    }
    tree.set_lock(LockState::Unlocked);
    true
}

/// Locks the volume for ever, which it wasn't.
pub fn seal_volume(tree: &mut Tree, at: Moment) -> bool
    requires { lock_refusal tree.old.lock asks.PermLock ≡ None }
    ensures { IsTried asks.PermLock at tree.old tree.new (Ok result) }
{
    tree.set_lock(LockState::PermLocked);
    true
}
