// A file of the folder, as the system has it.
use crate::calls::FolderCalls;
use std::fs::{self, Metadata, OpenFile, OpenOptions};
use std::io::{self, ErrorKind};
use std::os::unix::fs::MetadataExt;

/// A file or a folder, by the numbers that the system gives to no other one while it is open.
#[derive(Clone, Copy, PartialEq, Eq)]
pub struct Node {
    device: u64,
    number: u64,
}

impl Node {
    pub fn of(found: &Metadata) -> Node {
        Node {
            device: found.dev(),
            number: found.ino(),
        }
    }

    /// Whether a path leads to it.
    pub fn is_at<R: FolderCalls>(self, rt: &R, path: &str) -> bool {
        match fs::metadata(rt, path) {
            Ok(found) => Node::of(&found) == self,
            Err(_) => false,
        }
    }
}

/// A file that is open. As long as nobody else changes it, it is found at its path, and its length is known.
#[derive(Drop)]
pub struct StoredFile<R: FolderCalls> {
    file: R::File,
    node: Node,
    path: String,
    is_writable: bool,
    /// How many bytes it has at least, and at most: a write that failed may have put some of its bytes.
    least: u64,
    most: u64,
    /// Whether it was found otherwise once.
    is_lost: bool,
}

impl<R: FolderCalls> StoredFile<R> {
    /// Opens a file, if it is there: to be written, too, where that is asked and the system allows it. What isn't a
    /// regular file is refused: it might never answer.
    pub fn find(rt: &R, path: String, to_write: bool) -> io::Result<Option<StoredFile<R>>> {
        let node = match fs::symlink_metadata(rt, path.as_str()) {
            Ok(found) if found.is_file() => Node::of(&found),
            Ok(_) => return Err(ErrorKind::Unsupported.into()),
            Err(error) if error.kind() == ErrorKind::NotFound => return Ok(None),
            Err(error) => return Err(error),
        };
        let mut found = StoredFile::open(rt, path, to_write)?;
        // A file may get another number as it is opened to be written.
        if found.node != node {
            found.look(rt)?;
        }
        Ok(Some(found))
    }

    /// Makes a file that is missing.
    pub fn make(rt: &R, path: String) -> io::Result<StoredFile<R>> {
        let mut how = OpenOptions::new();
        how.read(true).write(true).create_new(true);
        let file = rt.open_apart(&how, path.as_str())?;
        StoredFile::over(file, path, true)
    }

    fn open(rt: &R, path: String, to_write: bool) -> io::Result<StoredFile<R>> {
        let mut how = OpenOptions::new();
        how.read(true).write(to_write);
        match rt.open_apart(&how, path.as_str()) {
            Ok(file) => StoredFile::over(file, path, to_write),
            Err(error) if to_write && is_forbidden(&error) => {
                let file = rt.open_apart(how.write(false), path.as_str())?;
                StoredFile::over(file, path, false)
            }
            Err(error) => Err(error),
        }
    }

    fn over(file: R::File, path: String, is_writable: bool) -> io::Result<StoredFile<R>> {
        let found = file.metadata()?;
        if !found.is_file() {
            return Err(ErrorKind::Unsupported.into());
        }
        Ok(StoredFile {
            file,
            node: Node::of(&found),
            path,
            is_writable,
            least: found.len(),
            most: found.len(),
            is_lost: false,
        })
    }

    pub fn file(&self) -> &R::File {
        &self.file
    }

    pub fn is_writable(&self) -> bool {
        self.is_writable
    }

    /// How many bytes it has, where no write has failed.
    pub fn length(&self) -> u64 {
        self.least
    }

    /// Writes bytes from a place on. Nothing is put behind a place where somebody else has cut it.
    pub fn write_at(&mut self, rt: &R, at: u64, bytes: &[u8]) -> io::Result<()> {
        let found = self.file.metadata();
        self.judge(found)?;
        let end = at.saturating_add(bytes.len() as u64);
        self.most = self.most.max(end);
        rt.write_at(&self.file, at, bytes)?;
        self.least = self.least.max(end);
        Ok(())
    }

    /// Makes it durable. One that isn't open for writing may lie where nothing can be, and needn't be.
    pub fn sync(&self) -> io::Result<()> {
        match self.file.sync_data() {
            Err(error) if self.is_writable || !is_unsyncable(&error) => Err(error),
            Ok(()) | Err(_) => Ok(()),
        }
    }

    /// Fails, now and from then on, where its path leads to no file or to another one, or its length is another one.
    pub fn look(&mut self, rt: &R) -> io::Result<()> {
        let found = fs::symlink_metadata(rt, self.path.as_str());
        self.judge(found)
    }

    fn judge(&mut self, found: io::Result<Metadata>) -> io::Result<()> {
        let is_as_left = match found {
            Ok(found) => {
                let length = found.len();
                Node::of(&found) == self.node && self.least <= length && length <= self.most
            }
            Err(_) => false,
        };
        self.is_lost = self.is_lost || !is_as_left;
        if self.is_lost {
            return Err(ErrorKind::NotFound.into());
        }
        Ok(())
    }
}

/// Whether the system has no syncs of what was to be synced.
pub fn is_unsyncable(error: &io::Error) -> bool {
    matches!(
        error.kind(),
        ErrorKind::InvalidInput | ErrorKind::ReadOnlyFilesystem
    )
}

// Whether a file may not be written by whoever asks, or lies where nothing is written.
fn is_forbidden(error: &io::Error) -> bool {
    matches!(
        error.kind(),
        ErrorKind::PermissionDenied | ErrorKind::ReadOnlyFilesystem
    )
}
