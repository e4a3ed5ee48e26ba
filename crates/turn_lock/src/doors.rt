//! The doors at which callers sleep until their turn.
use crossbeam_utils::sync::EventCount;
use std::array;

const DOORS: u64 = 16;

/// Tickets that lie one behind the other have doors of their own, so that a turn which ends wakes the one caller whose
/// ticket comes next, and with many callers the few that share its door, which sleep on.
#[derive(Drop)]
pub(crate) struct Doors {
    doors: [EventCount; 16],
}

impl Doors {
    pub(crate) fn new() -> Doors {
        Doors {
            doors: array::from_fn(|_| EventCount::new()),
        }
    }

    /// The door of a ticket.
    pub(crate) fn of(&self, ticket: u64) -> &EventCount {
        &self.doors[(ticket % DOORS) as usize]
    }
}
