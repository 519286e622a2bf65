//! A station over a real file and a writer.
ghost use Rattle.std.specs.Prelude.{◌≡◌, ◌<◌, ◌≤◌, [], length, IfOk, IsErrOf};
ghost use Rattle.wm_station.specs.History.{Begin};
ghost use Rattle.wm_station.specs.Cause.{DiskCause};

use crate::opening::{Opened, open_alone};
use crate::{DiskFailed, SayFailed, Station};
use std::fs::File;
use std::io;
use std::io::{ErrorKind, Seek, SeekFrom, Write};
use std::os::unix::fs::FileExt;
use std::rt::Files;

/// A file of the system, and a writer for answers. It tells nothing, and never wants memory.
#[derive(Drop)]
pub struct FileStation<W> {
    file: Opened,
    out: W,
    disk_faults: u64,
    say_faults: u64,
}

impl<W: Write> FileStation<W> {
    /// Opens the file at this path for reading and writing, for this station alone, and makes it where it is
    /// absent. Where it cannot be opened, or another station has it, each call on the disk fails. Answers go
    /// to `out`.
    pub fn open<R: Files<File = File>>(rt: &R, path: &str, out: W) -> Self
        ensures disk { ⟦<FileStation<W> as Station>⟧.disk_faults result ≡ 0 }
        ensures say { ⟦<FileStation<W> as Station>⟧.say_faults result ≡ 0 }
    {
        over(open_alone(rt, path, true), out)
    }

    /// The same, but a file that is absent is not made: the station reads as an empty one, and each write
    /// fails.
    pub fn open_existing<R: Files<File = File>>(rt: &R, path: &str, out: W) -> Self
        ensures disk { ⟦<FileStation<W> as Station>⟧.disk_faults result ≡ 0 }
        ensures say { ⟦<FileStation<W> as Station>⟧.say_faults result ≡ 0 }
    {
        over(open_alone(rt, path, false), out)
    }
}

fn over<W: Write>(file: Opened, out: W) -> FileStation<W>
    ensures disk { ⟦<FileStation<W> as Station>⟧.disk_faults result ≡ 0 }
    ensures say { ⟦<FileStation<W> as Station>⟧.say_faults result ≡ 0 }
{
    FileStation {
        file,
        out,
        disk_faults: 0,
        say_faults: 0,
    }
}

impl<W: Write> Station for FileStation<W> {
    ghost tells = { ⊥ };

    ghost wants = { ⊥ };

    ghost history = { λ _. Begin [] };

    ghost disk_faults = { λ s. s.disk_faults };

    ghost say_faults = { λ s. s.say_faults };

    fn len(&mut self) -> Result<u64, DiskFailed> {
        let done = len_of(&self.file);
        counted(&mut self.disk_faults, done)
    }

    fn read(&mut self, at: u64, into: &mut [u8]) -> Result<(), DiskFailed> {
        let done = read_at(&self.file, at, into);
        counted(&mut self.disk_faults, done)
    }

    fn write_at(&mut self, at: u64, bytes: &[u8]) -> Result<(), DiskFailed> {
        let done = write_at(&self.file, at, bytes);
        counted(&mut self.disk_faults, done)
    }

    fn sync(&mut self) -> Result<(), DiskFailed> {
        let done = sync_of(&self.file);
        counted(&mut self.disk_faults, done)
    }

    fn say(&mut self, bytes: &[u8]) -> Result<usize, SayFailed> {
        let Ok(count) = write_some(&mut self.out, bytes) else {
            self.say_faults = self.say_faults.saturating_add(1);
            return Err(SayFailed::Failed);
        };
        if count == 0 && !bytes.is_empty() {
            self.say_faults = self.say_faults.saturating_add(1);
        }
        Ok(count)
    }
}

// Counts a call that failed.
fn counted<T: Drop>(faults: &mut u64, done: io::Result<T>) -> Result<T, DiskFailed>
    ensures cause { DiskCause faults.old faults.new result }
    ensures wants { IsErrOf result DiskFailed.Memory → ⊥ }
    ensures ok { IfOk done (λ x. result ≡ Ok x) }
{
    match done {
        Ok(x) => Ok(x),
        Err(_) => {
            *faults = faults.saturating_add(1);
            Err(DiskFailed::Failed)
        }
    }
}

fn not_open() -> io::Error {
    io::Error::from(ErrorKind::NotFound)
}

// No read or write begins where the file stands, so its end may be sought: that takes less than to ask for all that the
// system knows of it.
fn len_of(file: &Opened) -> io::Result<u64> {
    match file {
        Opened::File(file) => end_of(file),
        Opened::Nothing => Ok(0),
        Opened::Fault => Err(not_open()),
    }
}

fn end_of(file: &File) -> io::Result<u64> {
    let mut file = file;
    file.seek(SeekFrom::End(0))
}

// Goes on until `into` is full. The end of the file before that is an error.
fn read_at(file: &Opened, at: u64, into: &mut [u8]) -> io::Result<()> {
    match file {
        Opened::File(file) => file.read_exact_at(into, at),
        Opened::Nothing | Opened::Fault => Err(not_open()),
    }
}

// Goes on until all bytes are written.
fn write_at(file: &Opened, at: u64, bytes: &[u8]) -> io::Result<()> {
    match file {
        Opened::File(file) => file.write_all_at(bytes, at),
        Opened::Nothing | Opened::Fault => Err(not_open()),
    }
}

// The file's length comes to the disk with its bytes, and what no read asks for, as its times, need not.
fn sync_of(file: &Opened) -> io::Result<()> {
    match file {
        Opened::File(file) => file.sync_data(),
        Opened::Nothing => Ok(()),
        Opened::Fault => Err(not_open()),
    }
}

// Writes a first part of the bytes and flushes it. A call that was interrupted is made again.
fn write_some<W: Write>(out: &mut W, bytes: &[u8]) -> io::Result<usize>
    ensures { IfOk result (λ n. n ≤ length bytes.now) }
{
    for _ in 0..u64::MAX {
        match out.write(bytes) {
            Ok(count) => {
                out.flush()?;
                return Ok(count);
            }
            Err(e) => {
                if e.kind() != ErrorKind::Interrupted {
                    return Err(e);
                }
            }
        }
    }
    Err(io::Error::from(ErrorKind::TimedOut))
}
