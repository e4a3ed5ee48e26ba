// Which files are known to be durable.
ghost use Rattle.std.specs.Prelude.{◌≡◌, Bool, true, false, if◌then◌else◌};
ghost use Rattle.byte_disk.specs.declared.disk.File.{File};
ghost use Rattle.byte_disk.specs.Record.{is_same};
ghost use Rattle.disk_layers.specs.Held.{is_known};

use byte_disk::File;

/// Whether a sync of a file has succeeded, and nothing was written to it since.
#[derive(Clone, Copy, Drop)]
pub(crate) struct Known {
    ip: bool,
    dp: bool,
    cm: bool,
}

impl Known {
    /// Nothing is known.
    pub fn new() -> Known
        ensures { (file : File) → is_known file result ≡ false }
    {
        Known {
            ip: false,
            dp: false,
            cm: false,
        }
    }

    pub fn has(&self, file: File) -> bool
        ensures { result ≡ is_known file self.now }
    {
        match file {
            File::Ip => self.ip,
            File::Dp => self.dp,
            File::Cm => self.cm,
        }
    }

    pub fn set(&mut self, file: File, known: bool)
        ensures { (f : File) → is_known f self.new ≡ (if is_same f file then known else is_known f self.old) }
    {
        match file {
            File::Ip => self.ip = known,
            File::Dp => self.dp = known,
            File::Cm => self.cm = known,
        }
    }
}
