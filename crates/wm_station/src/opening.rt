//! Opening a file for one station alone.

use std::fs::{File, OpenOptions};
use std::io;
use std::io::ErrorKind;
use std::path::Path;
use std::rt::Files;

/// What a path leads to.
#[derive(Drop)]
pub(crate) enum Opened {
    File(File),
    /// Nothing is there, and could be: it reads as an empty file, and is not written.
    Nothing,
    /// It cannot be opened, or is held elsewhere.
    Fault,
}

/// Opens the file at this path for reading and writing, and holds it as long as it is open. Where `makes`, a
/// file that is absent is made.
pub(crate) fn open_alone<R: Files<File = File>>(rt: &R, path: &str, makes: bool) -> Opened {
    match open_locked(rt, path, makes) {
        Ok(file) => Opened::File(file),
        Err(error) if !makes && error.kind() == ErrorKind::NotFound && has_folder(rt, path) => {
            Opened::Nothing
        }
        Err(_) => Opened::Fault,
    }
}

// The folder that a file at this path is in. The empty path is in none.
fn folder_of(path: &str) -> Option<Path<'_>> {
    let folder = Path::new(path).parent()?;
    Some(if folder.as_str().is_empty() {
        Path::new(".")
    } else {
        folder
    })
}

fn has_folder<R: Files>(rt: &R, path: &str) -> bool {
    folder_of(path).is_some_and(|folder| folder.exists(rt))
}

fn open_locked<R: Files<File = File>>(rt: &R, path: &str, makes: bool) -> io::Result<File> {
    let first = OpenOptions::new()
        .read(true)
        .write(true)
        .create(makes)
        .open(rt, path)?;
    // Where standard input, output or error is closed, the file that is opened next has its descriptor. That
    // of a clone is above them, so that no answer is written into the file, and no script read from it.
    let file = first.try_clone()?;
    // The lock is of the file that was opened, so the clone keeps it.
    file.try_lock()?;
    if makes {
        // The syncs that follow bring the bytes and the length, and need not bring the owner and the mode.
        file.sync_all()?;
        // A folder that may not be read, or has no syncs, is left to the system.
        let _ = sync_folder(rt, path);
    }
    Ok(file)
}

// Brings the name of the file to the disk. A sync of the file alone need not.
fn sync_folder<R: Files<File = File>>(rt: &R, path: &str) -> io::Result<()> {
    match folder_of(path) {
        Some(folder) => File::open(rt, folder)?.sync_all(),
        None => Ok(()),
    }
}
