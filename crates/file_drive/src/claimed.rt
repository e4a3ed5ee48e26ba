// The folder that was claimed.
use crate::calls::{Claim, FolderCalls};
use crate::stored_file::{Node, StoredFile, is_unsyncable};
use std::fs::{self, OpenFile, OpenOptions};
use std::io::{self, ErrorKind};

/// A folder that is open and claimed. Its files are looked up in it, whatever its name has become.
#[derive(Drop)]
pub struct Claimed<R: FolderCalls> {
    folder: R::File,
    node: Node,
    /// What leads to it. It is the name by which it was opened where the system has no path to what is open.
    path: String,
    is_by_name: bool,
}

impl<R: FolderCalls> Claimed<R> {
    /// Opens a folder and claims it.
    pub fn enter(rt: &R, path: &str, claim: Claim) -> io::Result<Claimed<R>> {
        if !fs::metadata(rt, path)?.is_dir() {
            return Err(ErrorKind::NotADirectory.into());
        }
        let folder = rt.open_apart(OpenOptions::new().read(true), path)?;
        rt.claim(&folder, claim)?;
        let node = Node::of(&folder.metadata()?);
        let own = rt.path_to(&folder)?;
        let is_by_name = !node.is_at(rt, own.as_str());
        Ok(Claimed {
            folder,
            node,
            path: if is_by_name {
                String::from_str(rt.alloc(), path)?
            } else {
                own
            },
            is_by_name,
        })
    }

    /// Opens a file of the folder, if it is there: to be written, too, where that is asked and the system allows it.
    pub fn find(&self, rt: &R, name: &str, to_write: bool) -> io::Result<Option<StoredFile<R>>> {
        let found = StoredFile::find(rt, self.path_of(rt, name)?, to_write)?;
        self.check(rt)?;
        Ok(found)
    }

    /// Makes a file that the folder hasn't.
    pub fn make(&self, rt: &R, name: &str) -> io::Result<StoredFile<R>> {
        self.check(rt)?;
        let made = StoredFile::make(rt, self.path_of(rt, name)?)?;
        self.check(rt)?;
        Ok(made)
    }

    /// Makes durable which files the folder has.
    pub fn sync(&self) -> io::Result<()> {
        self.folder.sync_all()
    }

    /// The same, and that the folder is there, if the system lets what it lies in be opened and synced.
    pub fn sync_with_parent(&self, rt: &R) -> io::Result<()> {
        self.sync()?;
        let path = self.path_of(rt, "..")?;
        let Ok(parent) = rt.open_apart(OpenOptions::new().read(true), path.as_str()) else {
            return Ok(());
        };
        match parent.sync_all() {
            Err(error) if !is_unsyncable(&error) => Err(error),
            Ok(()) | Err(_) => Ok(()),
        }
    }

    fn path_of(&self, rt: &R, name: &str) -> io::Result<String> {
        Ok(format!(in rt.alloc(); "{}/{}", self.path.as_str(), name)?)
    }

    // Fails where the name that the folder is looked up by leads elsewhere by now.
    fn check(&self, rt: &R) -> io::Result<()> {
        if self.is_by_name && !self.node.is_at(rt, self.path.as_str()) {
            return Err(ErrorKind::NotFound.into());
        }
        Ok(())
    }
}
