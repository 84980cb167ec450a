// The real shelf, over paths.
ghost use Rattle.std.specs.Prelude.{◌≡◌, ◌≤◌, None};
ghost use Rattle.castor_base.specs.Causes.{Rose};

use crate::{Failed, ReaderSource, Shelf, ShelfError, TakeError, read_all};
use std::alloc::Global;
use std::fs::{File, OpenFile, Permissions};
use std::io::{Cursor, Error, ErrorKind, Read, Write};
use std::rt::Files;
use std::{fs, io, str};

// How many paths for a new file are tried beside those that are taken.
const TRIES: u64 = 1000;

// The bytes of the longest path that the system takes.
const PATH_ROOM: usize = 4096;

/// A shelf over the system's files, whose names are paths. It counts a fault at each error, also
/// at `Absent`, `TooLong` and `Memory`, and tells no content.
#[derive(Drop)]
pub struct PathShelf<R: Files> {
    rt: R,
    faults: u64,
}

impl<R: Files> PathShelf<R> {
    ghost use Rattle.castor_base.specs.Real.{path_faults};

    /// A shelf over the files of the runtime.
    pub fn new(rt: R) -> Self
        ensures { path_faults result ≡ 0 }
    {
        PathShelf { rt, faults: 0 }
    }

    /// How many calls failed. The number stops at 2^64 - 1.
    pub(crate) fn faults(&self) -> u64
        ensures { result ≡ path_faults self.now }
    {
        self.faults
    }

    fn count_fault(&mut self)
        ensures rose { Rose (path_faults self.old) (path_faults self.new) }
        ensures later { path_faults self.old ≤ path_faults self.new }
    {
        self.faults = self.faults.saturating_add(1);
    }
}

// Reads the file that is open.
fn read_open<F: Read + Drop>(alloc: Global, file: F, limit: u64) -> Result<Vec<u8>, ShelfError> {
    match read_all(alloc, &mut ReaderSource::new(file), limit) {
        Ok(bytes) => Ok(bytes),
        Err(TakeError::Failed) => Err(ShelfError::Failed),
        Err(TakeError::TooLong) => Err(ShelfError::TooLong),
        Err(TakeError::Memory) => Err(ShelfError::Memory),
    }
}

// The permissions of the file that has the name, if there is one. It refuses a name of something
// else, as a folder or a device, and a file that nobody may write.
fn old_permissions(rt: &impl Files, name: &str) -> io::Result<Option<Permissions>> {
    match fs::metadata(rt, name) {
        Ok(old) if old.is_file() && !old.permissions().readonly() => Ok(Some(old.permissions())),
        Ok(_) => Err(Error::from(ErrorKind::PermissionDenied)),
        Err(e) if e.kind() == ErrorKind::NotFound => Ok(None),
        Err(e) => Err(e),
    }
}

// A path in the folder of the name, written into the room.
fn path_beside<'a>(
    room: &'a mut Cursor<[u8; PATH_ROOM]>,
    name: &str,
    number: u64,
) -> io::Result<&'a str> {
    room.set_position(0);
    match name.rsplit_once('/') {
        Some((folder, _)) => write!(room, "{folder}/.castor-{number}.new")?,
        None => write!(room, ".castor-{number}.new")?,
    }
    let end = room.position() as usize;
    let path = room.get_ref().get(..end).ok_or(ErrorKind::InvalidInput)?;
    str::from_utf8(path).map_err(|_| Error::from(ErrorKind::InvalidInput))
}

// Fills the new file at the path, and puts it in the place of the name.
fn fill_and_rename<R: Files>(
    rt: &R,
    mut file: R::File,
    path: &str,
    name: &str,
    bytes: &[u8],
    permissions: Option<Permissions>,
) -> io::Result<()> {
    if let Some(permissions) = permissions {
        file.set_permissions(permissions)?;
    }
    file.write_all(bytes)?;
    file.sync_all()?;
    fs::rename(rt, path, name)
}

// Writes a new file beside the name, under a path that no file has, and puts it in the name's
// place. Where that fails, the new file is removed, and the old one stays.
fn replace(rt: &impl Files, name: &str, bytes: &[u8]) -> io::Result<()> {
    let permissions = old_permissions(rt, name)?;
    let mut room = Cursor::new([0u8; PATH_ROOM]);
    for number in 0..TRIES {
        let path = path_beside(&mut room, name, number)?;
        match File::create_new(rt, path) {
            Ok(file) => {
                let written = fill_and_rename(rt, file, path, name, bytes, permissions);
                if written.is_err() {
                    let _ = fs::remove_file(rt, path);
                }
                return written;
            }
            Err(e) if e.kind() == ErrorKind::AlreadyExists => {}
            Err(e) => return Err(e),
        }
    }
    Err(Error::from(ErrorKind::AlreadyExists))
}

impl<R: Files> Shelf for PathShelf<R> {
    ghost files = { λ s. None };

    ghost read_faults = { λ s n. s.faults };

    ghost write_faults = { λ s n. s.faults };

    /// `Absent` is "not found" alone: a folder, a missing permission, a file in a folder's place
    /// and a name with a NUL are `Failed`.
    fn read(&mut self, alloc: Global, name: &str, limit: u64) -> Result<Vec<u8>, ShelfError> {
        let read = match fs::open(&self.rt, name) {
            Ok(file) => read_open(alloc, file, limit),
            Err(e) if e.kind() == ErrorKind::NotFound => Err(ShelfError::Absent),
            Err(_) => Err(ShelfError::Failed),
        };
        if read.is_err() {
            self.count_fault();
        }
        read
    }

    /// Writes a new file in the name's folder, under a path that no file has, flushes it to the
    /// disk and renames it, so that the name has the old bytes or the new ones at any time. The
    /// new file has the permissions of the old one, and is removed where it can't be finished.
    ///
    /// A link is replaced, and the file that it leads to stays. What is no file, as a folder or a
    /// device, is never replaced, nor is a file that nobody may write. Takes no memory.
    fn write(&mut self, name: &str, bytes: &[u8]) -> Result<(), Failed> {
        match replace(&self.rt, name, bytes) {
            Ok(()) => Ok(()),
            Err(_) => {
                self.count_fault();
                Err(Failed)
            }
        }
    }
}
