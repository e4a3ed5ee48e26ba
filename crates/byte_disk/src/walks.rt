// Walks back over a record, as one file sees it.
ghost use Rattle.std.specs.Prelude.{◌≡◌, ◌≤◌, ◌+◌, ◌-◌, ◌^◌, if◌then◌else◌, min, length, reverse};
ghost use Rattle.byte_disk.specs.Files.{written};
ghost use Rattle.byte_disk.specs.Record.{pending, unwritten, AreKept, IsKept};
ghost use Rattle.byte_disk.specs.Images.{original, reach, chosen, chosen_in};
ghost use Rattle.byte_disk.specs.Walks.{is_sync_of, undone_by, reach_by, chosen_by, IsKeptIf, IsKeptBy};

use crate::disk::File;
use crate::record::{Act, Change, DoneCommand};

// Takes a file back to its last sync.
pub(crate) fn go_back(bytes: &mut Vec<u8>, acts: &[DoneCommand], file: File)
    requires { AreKept bytes.old.items (pending file (reverse acts.now)) }
    ensures { bytes.new.items ≡ original bytes.old.items (pending file (reverse acts.now)) }
{
    let mut left = acts.len();
    while left > 0 {
        left -= 1;
        let act = &acts[left].act;
        if is_sync_of(act, file) {
            return;
        }
        undo_by(bytes, act, file);
    }
}

// How far the ranges of the writes since the last sync reach, up to the end of a u64.
pub(crate) fn reached(acts: &[DoneCommand], file: File) -> u64
    ensures { result ≡ min (reach (pending file (reverse acts.now))) (2 ^ 64 - 1) }
{
    let mut most = 0;
    let mut left = acts.len();
    while left > 0 {
        left -= 1;
        let act = &acts[left].act;
        if is_sync_of(act, file) {
            return most;
        }
        most = reach_with(act, file, most);
    }
    most
}

// Puts the bytes of a choice into the ranges of the writes since the last sync.
pub(crate) fn choose(bytes: &mut Vec<u8>, acts: &[DoneCommand], file: File, choice: &[u8])
    ensures { bytes.new.items ≡ chosen (pending file (reverse acts.now)) choice.now bytes.old.items }
{
    let mut left = acts.len();
    while left > 0 {
        left -= 1;
        let act = &acts[left].act;
        if is_sync_of(act, file) {
            return;
        }
        choose_by(bytes, act, file, choice);
    }
}

fn is_sync_of(act: &Act, file: File) -> bool
    ensures { result ≡ is_sync_of file act.now }
{
    match act {
        Act::Wrote { file: _, change: _ } => false,
        Act::Synced { file: other } => file == *other,
    }
}

fn undo_by(bytes: &mut Vec<u8>, act: &Act, file: File)
    requires { IsKeptBy file act.now bytes.old.items }
    ensures { bytes.new.items ≡ undone_by file act.now bytes.old.items }
{
    match act {
        Act::Wrote {
            file: other,
            change,
        } => undo_if(bytes, file == *other, change),
        Act::Synced { file: _ } => {}
    }
}

fn undo_if(bytes: &mut Vec<u8>, own: bool, change: &Change)
    requires { IsKeptIf own change.now bytes.old.items }
    ensures { bytes.new.items ≡ (if own then unwritten change.now bytes.old.items else bytes.old.items) }
{
    if own {
        undo_in(bytes, change);
    }
}

fn reach_with(act: &Act, file: File, most: u64) -> u64
    ensures { result ≡ min (reach_by file act.now most) (2 ^ 64 - 1) }
{
    match act {
        Act::Wrote {
            file: other,
            change,
        } => {
            if file == *other {
                return change.at.saturating_add(change.count).max(most);
            }
            most
        }
        Act::Synced { file: _ } => most,
    }
}

fn choose_by(bytes: &mut Vec<u8>, act: &Act, file: File, choice: &[u8])
    ensures { bytes.new.items ≡ chosen_by file act.now choice.now bytes.old.items }
{
    match act {
        Act::Wrote {
            file: other,
            change,
        } => {
            if file == *other {
                choose_in(bytes, change, choice);
            }
        }
        Act::Synced { file: _ } => {}
    }
}

fn undo_in(bytes: &mut Vec<u8>, change: &Change)
    requires { IsKept change.now bytes.old.items }
    ensures { bytes.new.items ≡ unwritten change.now bytes.old.items }
{
    put_over(bytes, change.at as usize, change.gone.as_slice());
    bytes.truncate(change.old_len as usize);
}

fn choose_in(bytes: &mut Vec<u8>, change: &Change, choice: &[u8])
    ensures { bytes.new.items ≡ chosen_in change.now choice.now bytes.old.items }
{
    let most = choice.len().min(bytes.len());
    let from = (change.at as usize).min(most);
    let to = (change.at.saturating_add(change.count) as usize).min(most);
    put_over(bytes, from, &choice[from..to]);
}

fn put_over(bytes: &mut Vec<u8>, at: usize, more: &[u8])
    requires { at + length more.now ≤ length bytes.old.items }
    ensures { bytes.new.items ≡ written at more.now bytes.old.items }
{
    bytes[at..at + more.len()].copy_from_slice(more);
}
