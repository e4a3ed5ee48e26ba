//! What a disk over a folder asks of the system beside its files.
ghost use Rattle.std.specs.Prelude.{◌≡◌, length};

use std::fs::{File, OpenFile, OpenOptions};
use std::io;
use std::os::fd::AsRawFd;
use std::os::unix::fs::FileExt;
use std::rt::Files;

/// Who else may have a folder that is claimed.
#[derive(Clone, Copy, Drop)]
pub enum Claim {
    /// Nobody.
    Alone,
    /// All who claim it so. None of them writes.
    Shared,
}

/// The system's files, as a disk over a folder calls them.
pub trait FolderCalls: Files + AllocGlobal + Drop {
    /// Opens a file, and never as a standard stream, also where one of these is closed.
    fn open_apart(&self, how: &OpenOptions, path: &str) -> io::Result<Self::File>;

    /// Claims an open folder until it is closed. It fails where another program's claim forbids it.
    fn claim(&self, folder: &Self::File, claim: Claim) -> io::Result<()>;

    /// A path that leads to an open folder whatever its name has become, or to nothing where the system has none.
    fn path_to(&self, folder: &Self::File) -> io::Result<String>;

    /// Fills the buffer with the bytes of a file from a place on.
    fn read_at(&self, file: &Self::File, at: u64, buf: &mut [u8]) -> io::Result<()>
        ensures { length buf.new ≡ length buf.old };

    /// Writes bytes to a file from a place on.
    fn write_at(&self, file: &Self::File, at: u64, bytes: &[u8]) -> io::Result<()>;
}

impl FolderCalls for HostRuntime {
    fn open_apart(&self, how: &OpenOptions, path: &str) -> io::Result<File> {
        let file = how.open(self, path)?;
        if file.as_raw_fd() <= 2 {
            return file.try_clone();
        }
        Ok(file)
    }

    fn claim(&self, folder: &File, claim: Claim) -> io::Result<()> {
        match claim {
            Claim::Alone => Ok(folder.try_lock()?),
            Claim::Shared => Ok(folder.try_lock_shared()?),
        }
    }

    fn path_to(&self, folder: &File) -> io::Result<String> {
        Ok(format!(in self.alloc(); "/proc/self/fd/{}", folder.as_raw_fd())?)
    }

    fn read_at(&self, file: &File, at: u64, buf: &mut [u8]) -> io::Result<()> {
        file.read_exact_at(buf, at)
    }

    fn write_at(&self, file: &File, at: u64, bytes: &[u8]) -> io::Result<()> {
        file.write_all_at(bytes, at)
    }
}
