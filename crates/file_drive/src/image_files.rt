// The three files of an image.
use crate::calls::FolderCalls;
use crate::image_file::ImageFile;
use byte_disk::File;
use std::alloc::Global;
use std::io;
use tape_types::NoMemory;

/// How many bytes of a partition are held back at most: two records of the usual block, or one of the greatest.
const RECORDS: usize = 1114112;

/// How many bytes of a header are.
const HEADER: usize = 512;

#[derive(Drop)]
pub struct ImageFiles<R: FolderCalls> {
    ip: ImageFile<R>,
    dp: ImageFile<R>,
    cm: ImageFile<R>,
}

impl<R: FolderCalls> ImageFiles<R> {
    pub fn new(alloc: Global) -> Result<ImageFiles<R>, NoMemory> {
        Ok(ImageFiles {
            ip: ImageFile::new(alloc, RECORDS)?,
            dp: ImageFile::new(alloc, RECORDS)?,
            cm: ImageFile::new(alloc, HEADER)?,
        })
    }

    pub fn of(&self, file: File) -> &ImageFile<R> {
        match file {
            File::Ip => &self.ip,
            File::Dp => &self.dp,
            File::Cm => &self.cm,
        }
    }

    pub fn of_mut(&mut self, file: File) -> &mut ImageFile<R> {
        match file {
            File::Ip => &mut self.ip,
            File::Dp => &mut self.dp,
            File::Cm => &mut self.cm,
        }
    }

    /// Fails where one of them isn't as it was left: gone, another one, or of another length.
    pub fn look(&mut self, rt: &R) -> io::Result<()> {
        self.ip.look(rt)?;
        self.dp.look(rt)?;
        self.cm.look(rt)
    }
}

/// How a file of an image is named in its folder.
pub fn name_of(file: File) -> &'static str {
    match file {
        File::Ip => "ip.img",
        File::Dp => "dp.img",
        File::Cm => "cm.img",
    }
}
