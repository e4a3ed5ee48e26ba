//! Requests that are asked for no more.

ghost use Rattle.std.specs.Prelude.{◌≡◌, ◌<◌, not, nat_eq, filter};

use head_queue::{Queue, Steps};
use std::marker::Brand;
use std::sync::ledger::{Blank, Ledger};

/// Takes out all requests of an owner.
pub fn forget_requests(queue: &mut Queue, owner: u64)
    ensures waiting { queue.new.waiting ≡ filter (λ w. not (nat_eq w.owner owner)) queue.old.waiting }
    ensures arrived { queue.new.arrived ≡ queue.old.arrived }
{
    forget_counted::<Brand>(queue, owner, Blank::new(1));
}

fn forget_counted<L: Ledger>(queue: &mut Queue, owner: u64, blank: Blank)
    requires name { blank.name ≡ L.name }
    requires parts { blank.parts ≡ L.parts }
    requires some { 0 < L.parts }
    ensures waiting { queue.new.waiting ≡ filter (λ w. not (nat_eq w.owner owner)) queue.old.waiting }
    ensures arrived { queue.new.arrived ≡ queue.old.arrived }
{
    let mut steps = Steps::<L>::start(blank);
    queue.remove_owner(owner, &mut steps);
}
