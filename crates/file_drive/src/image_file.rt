// A file of an image. One that is missing counts as empty.
ghost use Rattle.std.specs.Prelude.{◌≡◌, length};

use crate::ahead::Ahead;
use crate::calls::FolderCalls;
use crate::stored_file::StoredFile;
use std::alloc::Global;
use std::io::{self, ErrorKind};
use tape_types::NoMemory;

/// Where a file ends at the latest.
const LAST_END: u64 = 1 << 62;

/// A file, and the bytes that it is to have. Nobody else changes it, so it is asked for its length once.
#[derive(Drop)]
pub struct ImageFile<R: FolderCalls> {
    stored: Option<StoredFile<R>>,
    is_found: bool,
    /// Whether a sync has succeeded, and nothing was written since.
    is_durable: bool,
    /// How many bytes it has with those that are held back.
    length: u64,
    /// Bytes that aren't written yet. They follow one another from this place on.
    held_from: u64,
    held: Vec<u8>,
    /// How many bytes are held back at most.
    most: usize,
    ahead: Ahead,
}

impl<R: FolderCalls> ImageFile<R> {
    /// A file that wasn't looked for yet. It holds back at most so many bytes.
    pub fn new(alloc: Global, most: usize) -> Result<ImageFile<R>, NoMemory> {
        Ok(ImageFile {
            stored: None,
            is_found: false,
            is_durable: false,
            length: 0,
            held_from: 0,
            held: Vec::with_capacity(alloc, most)?,
            most,
            ahead: Ahead::new(alloc)?,
        })
    }

    /// Whether it was looked for.
    pub fn is_found(&self) -> bool {
        self.is_found
    }

    /// Whether it was looked for, and isn't there.
    pub fn is_missing(&self) -> bool {
        self.is_found && self.stored.is_none()
    }

    pub fn is_writable(&self) -> bool {
        match &self.stored {
            Some(stored) => stored.is_writable(),
            None => false,
        }
    }

    /// Takes the file that was found or made, if there is one.
    pub fn found(&mut self, stored: Option<StoredFile<R>>) {
        self.length = match &stored {
            Some(stored) => stored.length(),
            None => 0,
        };
        self.stored = stored;
        self.is_found = true;
    }

    /// How many bytes it has.
    pub fn length(&self) -> u64 {
        self.length
    }

    /// Fills the buffer with the bytes from a place on, all of which it has to have.
    pub fn read(&mut self, rt: &R, at: u64, buf: &mut [u8]) -> io::Result<()>
        ensures { length buf.new ≡ length buf.old }
    {
        let end = at.saturating_add(buf.len() as u64);
        if end > self.length {
            return Err(ErrorKind::UnexpectedEof.into());
        }
        if buf.is_empty() {
            return Ok(());
        }
        if end > self.held_from {
            self.write_out(rt)?;
        }
        let written = self.written();
        match &self.stored {
            Some(stored) => self.ahead.read(rt, stored.file(), at, buf, written),
            None => Err(ErrorKind::UnexpectedEof.into()),
        }
    }

    /// Puts bytes in place of those from a place on, which is at most its end.
    pub fn write(&mut self, rt: &R, at: u64, bytes: &[u8]) -> io::Result<()> {
        let end = at.saturating_add(bytes.len() as u64);
        if at > self.length || end >= LAST_END {
            return Err(ErrorKind::InvalidInput.into());
        }
        if !self.can_hold(at, bytes.len()) {
            self.write_out(rt)?;
            self.held_from = at;
        }
        self.is_durable = false;
        self.ahead.forget(at, end);
        if bytes.len() > self.most {
            match &mut self.stored {
                Some(stored) => stored.write_at(rt, at, bytes)?,
                None => return Err(ErrorKind::NotFound.into()),
            }
        } else {
            self.held.extend_from_slice(bytes)?;
        }
        self.length = self.length.max(end);
        Ok(())
    }

    /// Makes it durable as it reads. Where it is so already, the system isn't asked.
    pub fn sync(&mut self, rt: &R) -> io::Result<()> {
        self.write_out(rt)?;
        if self.is_durable {
            return Ok(());
        }
        if let Some(stored) = &self.stored {
            stored.sync()?;
        }
        self.is_durable = true;
        Ok(())
    }

    /// Fails where it isn't as it was left.
    pub fn look(&mut self, rt: &R) -> io::Result<()> {
        match &mut self.stored {
            Some(stored) => stored.look(rt),
            None => Ok(()),
        }
    }

    // How many bytes of it nothing that is held back is put in place of or behind.
    fn written(&self) -> u64 {
        if self.held.is_empty() {
            self.length
        } else {
            self.held_from
        }
    }

    // Whether so many bytes from a place on follow those that are held back, and are held back with them.
    fn can_hold(&self, at: u64, count: usize) -> bool {
        let held = self.held.len();
        at == self.held_from.saturating_add(held as u64) && held.saturating_add(count) <= self.most
    }

    // Writes what is held back. Where it fails all of it is held back as before.
    fn write_out(&mut self, rt: &R) -> io::Result<()> {
        if self.held.is_empty() {
            return Ok(());
        }
        match &mut self.stored {
            Some(stored) => stored.write_at(rt, self.held_from, self.held.as_slice())?,
            None => return Err(ErrorKind::NotFound.into()),
        }
        self.held_from = self.length;
        self.held.clear();
        Ok(())
    }
}
