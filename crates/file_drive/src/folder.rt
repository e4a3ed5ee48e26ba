// The folder, and the files of an image in it.
ghost use Rattle.std.specs.Prelude.{◌≡◌, length};

use crate::calls::{Claim, FolderCalls};
use crate::claimed::Claimed;
use crate::image_files::{ImageFiles, name_of};
use byte_disk::File;
use std::io::{self, ErrorKind};
use tape_types::NoMemory;

/// A folder that the first call opens and claims. Each of its files is opened by the first call on it: to be read, and
/// where the claim is for one alone to be written, too. One that is missing is made by the first call that writes to it.
/// Where the claim is shared, each call that writes fails.
#[derive(Drop)]
pub struct Folder<R: FolderCalls> {
    rt: R,
    path: String,
    claim: Claim,
    claimed: Option<Claimed<R>>,
    files: ImageFiles<R>,
    /// Whether it is durable which files the folder has. Nothing is written to a file before that.
    is_listed: bool,
    /// Whether it is durable that the folder is there, as far as the system makes that so.
    is_placed: bool,
    /// Whether a sync has failed. What the system has stored since then isn't known.
    is_unsure: bool,
}

impl<R: FolderCalls> Folder<R> {
    pub fn new(rt: R, path: String, claim: Claim) -> Result<Folder<R>, NoMemory> {
        let files = ImageFiles::new(rt.alloc())?;
        Ok(Folder {
            rt,
            path,
            claim,
            claimed: None,
            files,
            is_listed: false,
            is_placed: false,
            is_unsure: false,
        })
    }

    pub fn length(&mut self, file: File) -> io::Result<u64> {
        self.find(file)?;
        Ok(self.files.of(file).length())
    }

    pub fn read(&mut self, file: File, at: u64, buf: &mut [u8]) -> io::Result<()>
        ensures { length buf.new ≡ length buf.old }
    {
        self.find(file)?;
        self.files.of_mut(file).read(&self.rt, at, buf)
    }

    pub fn write(&mut self, file: File, at: u64, bytes: &[u8]) -> io::Result<()> {
        self.find_to_write(file)?;
        self.files.of_mut(file).write(&self.rt, at, bytes)
    }

    pub fn sync(&mut self, file: File) -> io::Result<()> {
        self.find(file)?;
        if self.is_unsure {
            return Err(ErrorKind::Other.into());
        }
        let synced = self.files.of_mut(file).sync(&self.rt);
        self.is_unsure = synced.is_err();
        synced?;
        match file {
            File::Cm if self.is_listed => self.files.look(&self.rt),
            _ => Ok(()),
        }
    }

    // Looks for a file, if it wasn't looked for.
    fn find(&mut self, file: File) -> io::Result<()> {
        self.enter()?;
        if self.files.of(file).is_found() {
            return Ok(());
        }
        let to_write = matches!(self.claim, Claim::Alone);
        let found = match &self.claimed {
            Some(folder) => folder.find(&self.rt, name_of(file), to_write)?,
            None => return Err(ErrorKind::NotFound.into()),
        };
        self.files.of_mut(file).found(found);
        Ok(())
    }

    // The same of a file that is to be written. One that is missing is made.
    fn find_to_write(&mut self, file: File) -> io::Result<()> {
        self.find(file)?;
        if let Claim::Shared = self.claim {
            return Err(ErrorKind::PermissionDenied.into());
        }
        if self.files.of(file).is_missing() {
            self.make(file)?;
        }
        if !self.files.of(file).is_writable() {
            return Err(ErrorKind::PermissionDenied.into());
        }
        self.list()
    }

    // Opens the folder and claims it, if it isn't open.
    fn enter(&mut self) -> io::Result<()> {
        if self.claimed.is_none() {
            self.claimed = Some(Claimed::enter(&self.rt, self.path.as_str(), self.claim)?);
        }
        Ok(())
    }

    fn make(&mut self, file: File) -> io::Result<()> {
        let made = match &self.claimed {
            Some(folder) => folder.make(&self.rt, name_of(file))?,
            None => return Err(ErrorKind::NotFound.into()),
        };
        self.files.of_mut(file).found(Some(made));
        self.is_listed = false;
        Ok(())
    }

    // Makes durable which files the folder has, if it isn't so, and at first that it is there. Fails where another file
    // has come in place of one.
    fn list(&mut self) -> io::Result<()> {
        if self.is_listed {
            return Ok(());
        }
        if self.is_unsure {
            return Err(ErrorKind::Other.into());
        }
        self.files.look(&self.rt)?;
        let synced = match &self.claimed {
            Some(folder) if self.is_placed => folder.sync(),
            Some(folder) => folder.sync_with_parent(&self.rt),
            None => Err(ErrorKind::NotFound.into()),
        };
        self.is_listed = synced.is_ok();
        self.is_placed = self.is_placed || self.is_listed;
        self.is_unsure = synced.is_err();
        synced
    }
}
