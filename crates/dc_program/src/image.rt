//! The image of a cache in the file system.

use std::alloc::{AllocError, Global};
use std::fs::{self, File};
use std::io::{self, ErrorKind, Read, Write};
use std::path::Path;

/// What stands behind the path of an image until the new one takes its place.
const FRESH: &str = ".new";

/// The most that is written in one call, in bytes: a call over a whole image is slower, since the system holds its pages all at once.
const PIECE: usize = 1_048_576;

/// The image with which a service begins. A file that isn't there has no byte; one that can't be opened fails at the first read.
#[derive(Drop)]
pub enum KeptImage {
    /// There is no file.
    Absent,
    /// The file can't be opened, for this reason.
    Unreadable(ErrorKind),
    /// The file.
    There(File),
}

impl KeptImage {
    /// The image at this path.
    pub fn at(rt: &HostRuntime, path: &str) -> KeptImage {
        match File::open(rt, path) {
            Ok(file) => KeptImage::There(file),
            Err(why) if why.kind() == ErrorKind::NotFound => KeptImage::Absent,
            Err(why) => KeptImage::Unreadable(why.kind()),
        }
    }
}

impl Read for KeptImage {
    fn read(&mut self, buf: &mut [u8]) -> io::Result<usize> {
        match self {
            KeptImage::Absent => Ok(0),
            KeptImage::Unreadable(why) => Err(io::Error::from(*why)),
            KeptImage::There(file) => file.read(buf),
        }
    }
}

/// The image that a service leaves. It is written beside its path, into a file that is made at the first write, and takes its place only
/// when it is kept: until then, and where anything fails, the image that was there stays whole.
#[derive(Drop)]
pub struct FreshImage<'a> {
    rt: &'a HostRuntime,
    path: String,
    beside: String,
    file: Option<File>,
}

impl FreshImage<'_> {
    /// The image for this path.
    pub fn for_path<'a>(
        rt: &'a HostRuntime,
        alloc: Global,
        path: &str,
    ) -> Result<FreshImage<'a>, AllocError> {
        let mut beside = String::from_str(alloc, path)?;
        beside.push_str(FRESH)?;
        Ok(FreshImage {
            rt,
            path: String::from_str(alloc, path)?,
            beside,
            file: None,
        })
    }

    /// Puts what was written in the place of the image before: the file is on the disk before it takes the name, and the folder behind that.
    /// Where nothing was written nothing happens.
    pub fn keep(self) -> io::Result<()> {
        let Some(file) = self.file else {
            return Ok(());
        };
        file.sync_all()?;
        fs::rename(self.rt, self.beside.as_str(), self.path.as_str())?;
        let folder = match Path::new(self.path.as_str()).parent() {
            Some(parent) if !parent.as_str().is_empty() => parent.as_str(),
            _ => ".",
        };
        File::open(self.rt, folder)?.sync_all()
    }

    /// Takes away what was written, if anything was.
    pub fn discard(self) {
        if self.file.is_some() {
            let _gone = fs::remove_file(self.rt, self.beside.as_str());
        }
    }
}

impl Write for FreshImage<'_> {
    fn write(&mut self, buf: &[u8]) -> io::Result<usize> {
        let buf = &buf[..buf.len().min(PIECE)];
        match &mut self.file {
            Some(file) => file.write(buf),
            None => {
                let mut file = File::create(self.rt, self.beside.as_str())?;
                let count = file.write(buf);
                self.file = Some(file);
                count
            }
        }
    }

    fn flush(&mut self) -> io::Result<()> {
        Ok(())
    }
}
