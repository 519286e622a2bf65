//! A station in memory that never fails but for want of memory.
ghost use Rattle.std.specs.Prelude.{◌≡◌, IfOk};
ghost use Rattle.wm_station.specs.History.{Begin};
ghost use Rattle.wm_station.specs.Recorded.{history_of};

use crate::{DiskFailed, Recording, SayFailed, Station};
use std::alloc::{AllocError, Global};

/// A file and answers in memory. It tells its content, and its counts of faults stand at 0.
#[derive(Drop)]
pub struct QuietStation {
    recording: Recording,
}

impl QuietStation {
    /// A file that holds these bytes, all of them on the disk.
    pub fn new(alloc: Global, start: Vec<u8>) -> Result<Self, AllocError>
        ensures { IfOk result (λ s. ⟦<QuietStation as Station>⟧.history s ≡ Begin start.items) }
    {
        let recording = Recording::new(alloc, start)?;
        Ok(QuietStation { recording })
    }

    /// What it did.
    pub fn recording(&self) -> &Recording
        ensures { history_of result.now ≡ ⟦<QuietStation as Station>⟧.history self.now }
    {
        &self.recording
    }
}

impl Station for QuietStation {
    ghost tells = { Unit {0} };

    ghost wants = { Unit {0} };

    ghost history = { λ s. history_of s.recording };

    ghost disk_faults = { λ _. 0 };

    ghost say_faults = { λ _. 0 };

    fn len(&mut self) -> Result<u64, DiskFailed> {
        Ok(self.recording.image().len() as u64)
    }

    fn read(&mut self, at: u64, into: &mut [u8]) -> Result<(), DiskFailed> {
        self.recording.read(at, into);
        Ok(())
    }

    #[tactic(auto, using(crate::proofs::Overs::did_write))]
    fn write_at(&mut self, at: u64, bytes: &[u8]) -> Result<(), DiskFailed> {
        self.recording.write(at, bytes.len() as u64, bytes)?;
        Ok(())
    }

    fn sync(&mut self) -> Result<(), DiskFailed> {
        self.recording.sync()?;
        Ok(())
    }

    fn say(&mut self, bytes: &[u8]) -> Result<usize, SayFailed> {
        self.recording.say(bytes, bytes.len())?;
        Ok(bytes.len())
    }
}
