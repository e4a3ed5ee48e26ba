// The disk over a folder, as far as it keeps count.
ghost use Rattle.std.specs.Prelude.{◌≡◌, ◌≤◌, ◌<◌, ◌^◌, ◌+◌, ◌-◌, length, None, Some, Ok, IfOk, OnOk, OnErr};
ghost use Rattle.tape_types.specs.Counts.{HasCause};
ghost use Rattle.byte_disk.specs.Commands.{IsOneMore};

use crate::calls::{Claim, FolderCalls};
use crate::folder::Folder;
use byte_disk::{ByteDisk, DiskFault, File};
use std::io;
use tape_types::NoMemory;

/// A disk of byte files over three files of a folder: `ip.img`, `dp.img` and `cm.img`. It tells no content.
///
/// The first command opens the folder, and claims it: for this program alone, or beside others that write nothing
/// either. A command fails where the system refuses a call, where a range isn't within its file, where one of the three
/// is no regular file, and where it would write under a claim that is shared. A write fails where somebody else has cut
/// the file; the first one, and a sync of `cm.img` behind it, fails where one of the three isn't found as it was left.
/// Each sync after one that failed fails.
#[derive(Drop)]
pub struct FolderDisk<R: FolderCalls> {
    folder: Folder<R>,
    faults: u64,
    commands: u64,
}

impl<R: FolderCalls> FolderDisk<R> {
    /// A disk that has had no command. Nothing is opened yet; a folder that is missing is a fault of the first one.
    pub fn new(rt: R, path: String, claim: Claim) -> Result<FolderDisk<R>, NoMemory>
        ensures faults { IfOk result (λ d. d.faults ≡ 0) }
        ensures commands { IfOk result (λ d. d.commands ≡ 0) }
    {
        Ok(FolderDisk {
            folder: Folder::new(rt, path, claim)?,
            faults: 0,
            commands: 0,
        })
    }

    fn begin(&mut self)
        ensures faults { self.new.faults ≡ self.old.faults }
        ensures count { IsOneMore self.old.commands self.new.commands }
    {
        self.commands = self.commands.saturating_add(1);
    }

    // How a command ended.
    fn ended<T: Drop>(&mut self, outcome: io::Result<T>) -> Result<T, DiskFault>
        ensures commands { self.new.commands ≡ self.old.commands }
        ensures cause { HasCause self.old.faults self.new.faults result }
    {
        match outcome {
            Ok(value) => Ok(value),
            Err(_) => {
                self.faults = self.faults.saturating_add(1);
                Err(DiskFault)
            }
        }
    }
}

impl<R: FolderCalls> ByteDisk for FolderDisk<R> {
    ghost held = { λ _. None };

    ghost faults = { λ d. d.faults };

    ghost commands = { λ d. d.commands };

    ghost bytes = { λ _ _ is. absurd (cc is) };

    // Nothing is told: a crash may leave any files.
    ghost leaves = { λ _ _. Unit {0} };

    ghost left_since = { λ _ _ _. Unit {0} };

    ghost only_now = { λ _ _ _ left. left };

    ghost counts_now = { λ _ _ _ _ left. left };

    ghost lower = { λ _ _ _ _ _ left. left };

    fn faults(&self) -> u64 {
        self.faults
    }

    fn commands(&self) -> u64 {
        self.commands
    }

    fn length(&mut self, file: File) -> Result<u64, DiskFault> {
        self.begin();
        let found = self.folder.length(file);
        self.ended(found)
    }

    fn read(&mut self, file: File, at: u64, buf: &mut [u8]) -> Result<(), DiskFault> {
        self.begin();
        let read = self.folder.read(file, at, buf);
        self.ended(read)
    }

    fn write(&mut self, file: File, at: u64, bytes: &[u8]) -> Result<(), DiskFault> {
        self.begin();
        let written = self.folder.write(file, at, bytes);
        self.ended(written)
    }

    fn sync(&mut self, file: File) -> Result<(), DiskFault> {
        self.begin();
        let synced = self.folder.sync(file);
        self.ended(synced)
    }
}
