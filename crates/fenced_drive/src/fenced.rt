// A drive with an owner.
ghost use Rattle.std.specs.Prelude.{◌≡◌, List, Option};
ghost use Rattle.plain_tree.specs.Tree.{Tree};
ghost use Rattle.session_script.specs.declared.scripts.ScriptLine.{ScriptLine};
ghost use Rattle.tape_drive.specs.Crashes.{AllowsAll};
ghost use Rattle.cartridge_meaning.specs.Carried.{Carried};
ghost use Rattle.tape_types.specs.declared.moments.Moment.{Moment};

use std::marker::PhantomData;
use tape_drive::{Drive, DriveErr, Got, MemDrive};
use tape_types::{Limits, Note, Part, Place};

/// A drive whose owner allows a crash to leave anything.
pub trait Unowned: Drive {
    ghost all: { AllowsAll Self.Drive.allows };
}

impl Unowned for MemDrive {
    ghost all = { λ image. tt };
}

/// What an owner orders: the script that is to be run on the volume of a cartridge, the one moment of the run, where it
/// has one, and the tree for which the cartridge stands, with the facts that its index carries. No value of it is made.
pub trait Order {
    ghost script: { List ScriptLine };

    ghost moment: { Option Moment };

    ghost facts: { Carried };

    ghost tree: { Tree };
}

/// The drive does what the one inside does. Its owner allows what the ordered run may leave, and nothing else.
#[derive(Drop)]
pub struct Fenced<D: Unowned, O: Order> {
    pub inner: D,
    of: PhantomData<O>,
}

impl<D: Unowned, O: Order> Fenced<D, O> {
    pub fn new(inner: D) -> Fenced<D, O>
        ensures { result.inner ≡ inner }
    {
        Fenced {
            inner,
            of: PhantomData,
        }
    }
}

impl<D: Unowned, O: Order> Drive for Fenced<D, O> {
    ghost use Rattle.promises.specs.CrashLaws.May.{IsLeftBy};

    const MOST: u64 = D::MOST;

    ghost MOST = { D.MOST };

    ghost held = { λ f. D.held f.inner };

    ghost head = { λ f. D.head f.inner };

    ghost limits = { λ f. D.limits f.inner };

    ghost faults = { λ f. D.faults f.inner };

    ghost commands = { λ f. D.commands f.inner };

    ghost leaves = { λ f image. D.leaves f.inner image };

    ghost left_since = { λ f t image. D.left_since f.inner t image };

    ghost allows = { λ image. IsLeftBy O.script O.moment O.facts O.tree image };

    ghost only_now = { λ f image lt h. D.only_now f.inner image lt h };

    ghost counts_now = { λ f t image le h. D.counts_now f.inner t image le h };

    ghost lower = { λ f t u image le h. D.lower f.inner t u image le h };

    fn limits(&self) -> Limits {
        self.inner.limits()
    }

    fn faults(&self) -> u64 {
        self.inner.faults()
    }

    fn commands(&self) -> u64 {
        self.inner.commands()
    }

    fn locate(&mut self, place: Place) -> Result<(), DriveErr> {
        self.inner.locate(place)
    }

    fn read(&mut self, buf: &mut Vec<u8>) -> Result<Got, DriveErr> {
        self.inner.read(buf)
    }

    fn write(&mut self, bytes: &[u8]) -> Result<(), DriveErr> {
        self.inner.write(bytes)
    }

    fn mark(&mut self) -> Result<(), DriveErr> {
        self.inner.mark()
    }

    fn flush(&mut self) -> Result<(), DriveErr> {
        self.inner.flush()
    }

    fn read_note(&mut self, part: Part) -> Result<Note, DriveErr> {
        self.inner.read_note(part)
    }

    fn write_note(&mut self, part: Part, note: &[u8; 70]) -> Result<(), DriveErr> {
        self.inner.write_note(part, note)
    }

    fn vcr(&mut self) -> Result<u64, DriveErr> {
        self.inner.vcr()
    }
}
