//! Images in real files.

use crate::NoMemory;
use crate::image::{FreshImage, KeptImage};
use std::io::{self, Read, Write};
use std::os::unix::fs::symlink;
use std::test::Fail;
use std::{env, fs, process};

/// A path in a new folder in the folder for what is temporary.
#[derive(Drop)]
struct Room {
    folder: String,
    path: String,
    beside: String,
}

impl Room {
    /// A room of this name.
    fn new(rt: &HostRuntime, name: &str) -> io::Result<Room> {
        let alloc = rt.alloc();
        let parent = env::temp_dir(rt)?;
        let parent = parent.as_str();
        let folder = format!(in alloc; "{parent}/dc_program_{name}_{}", process::id(rt.process()))?;
        fs::create_dir_all(rt, folder.as_str())?;
        let path = format!(in alloc; "{}/image", folder.as_str())?;
        let beside = format!(in alloc; "{}.new", path.as_str())?;
        Ok(Room {
            folder,
            path,
            beside,
        })
    }

    /// The image for its path.
    fn fresh<'a>(&self, rt: &'a HostRuntime) -> Result<FreshImage<'a>, NoMemory> {
        FreshImage::for_path(rt, rt.alloc(), self.path.as_str())
    }

    /// What the image at its path holds.
    fn held(&self, rt: &HostRuntime) -> io::Result<Vec<u8>> {
        let mut bytes = Vec::new(rt.alloc());
        KeptImage::at(rt, self.path.as_str()).read_to_end(&mut bytes)?;
        Ok(bytes)
    }

    /// Whether something stands beside the path.
    fn has_beside(&self, rt: &HostRuntime) -> io::Result<bool> {
        fs::exists(rt, self.beside.as_str())
    }
}

#[test]
fn an_image_takes_its_place_when_it_is_kept(rt: HostRuntime) -> Result<(), Fail> {
    let room = Room::new(&rt, "kept")?;
    assert!(rt; room.held(&rt)?.is_empty());
    room.fresh(&rt)?.keep()?;
    assert!(rt; !fs::exists(&rt, room.path.as_str())?);
    for text in [b"first".as_slice(), b"the second"] {
        let before = room.held(&rt)?;
        let mut fresh = room.fresh(&rt)?;
        fresh.write_all(text)?;
        assert!(rt; room.held(&rt)? == before);
        assert!(rt; room.has_beside(&rt)?);
        fresh.keep()?;
        assert!(rt; room.held(&rt)?.as_slice() == text);
        assert!(rt; !room.has_beside(&rt)?);
    }
    let mut fresh = room.fresh(&rt)?;
    fresh.write_all(b"no more")?;
    fresh.discard();
    assert!(rt; room.held(&rt)?.as_slice() == b"the second".as_slice());
    assert!(rt; !room.has_beside(&rt)?);
    fs::remove_dir_all(&rt, room.folder.as_str())?;
    Ok(())
}

/// A file that leads to itself can't be read, nor the image be put beside a path in a folder that isn't there, by no user.
#[test]
fn an_image_that_cannot_be_had_is_a_fault(rt: HostRuntime) -> Result<(), Fail> {
    let room = Room::new(&rt, "fault")?;
    symlink(&rt, "image", room.path.as_str())?;
    assert!(rt; room.held(&rt).is_err());
    let nowhere = format!(in rt.alloc(); "{}/none/image", room.folder.as_str())?;
    let mut fresh = FreshImage::for_path(&rt, rt.alloc(), nowhere.as_str())?;
    assert!(rt; fresh.write_all(b"image").is_err());
    fs::remove_dir_all(&rt, room.folder.as_str())?;
    Ok(())
}
