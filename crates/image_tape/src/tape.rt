// A tape over a disk of byte files.
ghost use Rattle.std.specs.Prelude.{◌≡◌, ◌≤◌, Some};
ghost use Rattle.image_tape.specs.Tape.{IsKept};

use crate::commits::Commits;
use crate::doubt::Doubt;
use byte_disk::ByteDisk;
use http_server::Log;
use image_format::{Room, SlotValue};
use image_slots::Slots;
use std::marker::Model;
use tape_types::Place;

/// A tape drive over a disk of byte files: its cartridge is the one that the files mean.
#[derive(Drop)]
pub struct ImageTape<B: ByteDisk> {
    pub(crate) slots: Slots<B>,
    pub(crate) room: Room,
    /// What the header says.
    pub(crate) base: SlotValue,
    /// What a header would say of all that reads.
    pub(crate) reads: SlotValue,
    pub(crate) doubt: Doubt,
    pub(crate) head: Option<Place>,
    pub(crate) faults: u64,
    /// The number of commands that the disk had when it was opened.
    pub(crate) opened: u64,
    /// The reference that read, and the disk, before each command so far. It takes no room.
    pub(crate) past: Log<u64, Slots<B>>,
    pub(crate) commits: Commits,
}

impl<B: ByteDisk> Model for ImageTape<B> {
    ghost use Rattle.image_tape.specs.Tape.{IsKept, View};

    ghost Value = { View B };

    ghost view = { λ t. record {
      slots = t.slots;
      room = t.room;
      base = t.base;
      reads = t.reads;
      doubt = t.doubt;
      head = t.head;
      faults = t.faults;
      opened = t.opened;
      past = t.past.items;
    } };

    ghost invariant = { λ t. IsKept B.ByteDisk (record {
      slots = t.slots;
      room = t.room;
      base = t.base;
      reads = t.reads;
      doubt = t.doubt;
      head = t.head;
      faults = t.faults;
      opened = t.opened;
      past = t.past.items;
    }) };
}

impl<B: ByteDisk> ImageTape<B> {
    /// The disk, to be looked at.
    pub fn disk(&self) -> &B
        ensures { result.now ≡ self.now.slots.disk }
    {
        self.slots.disk()
    }

    /// Gives the disk back.
    pub fn into_disk(self) -> B
        ensures { result ≡ self.slots.disk }
    {
        let ImageTape {
            slots,
            room: _,
            base: _,
            reads: _,
            doubt: _,
            head: _,
            faults: _,
            opened: _,
            past: _,
            commits: _,
        } = self;
        slots.into_disk()
    }
}
