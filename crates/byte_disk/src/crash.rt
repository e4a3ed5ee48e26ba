// What a crash of the disk in memory may leave, by choice.
ghost use Rattle.std.specs.Prelude.{ℕ, ◌≡◌, ◌≤◌, ◌<◌, ◌+◌, ◌-◌, ◌^◌, ◌↔◌, [], min, length, reverse, IfOk, Some};
ghost use Rattle.byte_disk.specs.Files.{Files, bytes_of};
ghost use Rattle.byte_disk.specs.Record.{pending, AreKept};
ghost use Rattle.byte_disk.specs.Memory.{made};
ghost use Rattle.byte_disk.specs.Images.{original, reach, image_of, crash_image, AreLeft, Gives};
ghost use Rattle.byte_disk.specs.Mixed.{filled_file, filled, mixed_file, mixed, seed_of, stir};
ghost use Rattle.byte_disk.specs.Since.{GaveSince};

use crate::disk::{ByteDisk, File};
use crate::files::are_bytes;
use crate::memory::MemDisk;
use crate::mixed::{drawn, mix, seed_of, stirred};
use crate::walks::{choose, go_back, reached};
use tape_types::{Bytes, List, NoMemory};

impl MemDisk {
    /// A disk as a crash may leave it now, with nothing pending, by a list of bytes for each file. The file is as long
    /// as its list, or as near to that as a crash may leave it. In the ranges of the writes since its last sync it has
    /// the list's bytes, and elsewhere those that read.
    pub fn crash_with(&self, ip: &[u8], dp: &[u8], cm: &[u8]) -> Result<MemDisk, NoMemory>
        ensures image { IfOk result (λ d. d ≡ made (crash_image self.now.held self.now.acts
            (record { ip = ip.now; dp = dp.now; cm = cm.now })) []) }
        ensures left { IfOk result (λ d. ⟦<MemDisk as ByteDisk>⟧.leaves self.now d.held) }
    {
        // What is kept of the commands leads back to what was before them.
        let _sound = self.acts();
        are_bytes(ip);
        are_bytes(dp);
        are_bytes(cm);
        let new_ip = self.image(File::Ip, ip)?;
        let new_dp = self.image(File::Dp, dp)?;
        let new_cm = self.image(File::Cm, cm)?;
        let none = List::new(self.alloc());
        Ok(MemDisk::new(self.alloc(), new_ip, new_dp, new_cm, none))
    }

    /// The same with one byte wherever a write is pending. Each file is as long as it reads, or as it was at its last
    /// sync.
    pub fn crash(&self, fill: u8, keep: bool) -> Result<MemDisk, NoMemory>
        ensures image { IfOk result (λ d. d ≡ made (crash_image self.now.held self.now.acts
            (filled fill keep self.now.held self.now.acts)) []) }
        ensures left { IfOk result (λ d. ⟦<MemDisk as ByteDisk>⟧.leaves self.now d.held) }
    {
        let ip = self.filled(File::Ip, fill, keep)?;
        let dp = self.filled(File::Dp, fill, keep)?;
        let cm = self.filled(File::Cm, fill, keep)?;
        self.crash_with(ip.as_slice(), dp.as_slice(), cm.as_slice())
    }

    /// The same with a length and bytes by a seed: wherever a write is pending the byte that reads, the one of the
    /// file's last sync, or any.
    pub fn crash_by(&self, seed: u64) -> Result<MemDisk, NoMemory>
        ensures image { IfOk result (λ d. d ≡ made (crash_image self.now.held self.now.acts
            (mixed seed self.now.held self.now.acts)) []) }
        ensures left { IfOk result (λ d. ⟦<MemDisk as ByteDisk>⟧.leaves self.now d.held) }
    {
        let ip = self.mixed(File::Ip, seed)?;
        let dp = self.mixed(File::Dp, seed)?;
        let cm = self.mixed(File::Cm, seed)?;
        self.crash_with(ip.as_slice(), dp.as_slice(), cm.as_slice())
    }

    // A file as of its last sync.
    fn original(&self, file: File) -> Result<Vec<u8>, NoMemory>
        ensures { IfOk result (λ v. v.items ≡ original (bytes_of file self.now.held) (pending file self.now.acts)) }
    {
        let mut bytes = Vec::from_slice(self.alloc(), self.bytes(file))?;
        go_back(&mut bytes, self.acts(), file);
        Ok(bytes)
    }

    // How far the ranges of the writes since a file's last sync reach.
    fn reach(&self, file: File) -> u64
        ensures value { result ≡ reach (pending file self.now.acts) }
        ensures low { result < 2 ^ 62 }
    {
        reached(self.acts(), file)
    }

    // A file's image by choice.
    fn image(&self, file: File, choice: &[u8]) -> Result<Bytes, NoMemory>
        ensures { IfOk result (λ b. b
            ≡ image_of (bytes_of file self.now.held) (pending file self.now.acts) choice.now) }
    {
        let shortest = self.original(file)?.len();
        let longest = shortest.max(self.reach(file) as usize);
        let size = shortest.max(choice.len().min(longest));
        let mut image = Vec::from_slice(self.alloc(), self.bytes(file))?;
        if image.len() < choice.len() {
            image.extend_from_slice(&choice[image.len()..])?;
        }
        image.truncate(size);
        choose(&mut image, self.acts(), file, choice);
        Ok(Bytes::from_vec(image))
    }

    fn filled(&self, file: File, fill: u8, keep: bool) -> Result<Vec<u8>, NoMemory>
        ensures { IfOk result (λ v. v.items
            ≡ filled_file fill keep (bytes_of file self.now.held) (pending file self.now.acts)) }
    {
        if keep {
            let count = self.bytes(file).len();
            return Ok(vec![in self.alloc(); fill; count]?);
        }
        let count = self.original(file)?.len();
        Ok(vec![in self.alloc(); fill; count]?)
    }

    fn mixed(&self, file: File, seed: u64) -> Result<Vec<u8>, NoMemory>
        ensures { IfOk result (λ v. v.items
            ≡ mixed_file (seed_of file seed) (bytes_of file self.now.held) (pending file self.now.acts)) }
    {
        let old = self.original(file)?;
        let shortest = old.len() as u64;
        let longest = shortest.max(self.reach(file));
        let state = stirred(seed_of(file, seed));
        let size = shortest + drawn(state, longest - shortest + 1);
        mix(self.alloc(), state, size, self.bytes(file), old.as_slice())
    }
}

/// What a crash may leave now is told by places, and is what `crash_with` gives by some three lists of bytes.
pub fn crash_gives_all(disk: &MemDisk)
    ensures places { (image : Files)
        → ⟦<MemDisk as ByteDisk>⟧.leaves disk.now image ↔ AreLeft disk.now.held disk.now.acts image }
    ensures choices { (image : Files)
        → ⟦<MemDisk as ByteDisk>⟧.leaves disk.now image ↔ Gives disk.now.held disk.now.acts image }
{
    // What is kept of the commands leads back to what was before them.
    let _sound = disk.acts();
}

/// What a crash may have left since the number of commands was t is what it may leave now, and what it could leave
/// right before or right after an act of the record that had begun at that number or later.
pub fn since_gives_all(disk: &MemDisk)
    ensures { (t : ℕ) (image : Files)
        → ⟦<MemDisk as ByteDisk>⟧.left_since disk.now t image ↔ GaveSince disk.now.held disk.now.acts t image }
{
    // What is kept of the commands leads back to what was before them.
    let _sound = disk.acts();
}

/// A disk in memory tells its files.
pub fn files_are_told(disk: &MemDisk)
    ensures { ⟦<MemDisk as ByteDisk>⟧.held disk.now ≡ Some disk.now.held }
{
    // What is kept of the commands leads back to what was before them.
    let _sound = disk.acts();
}
