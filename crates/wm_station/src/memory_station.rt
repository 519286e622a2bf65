//! A station in memory whose calls can be made to fail.
ghost use Rattle.std.specs.Prelude.{◌≡◌, ◌+◌, ◌-◌, ◌<◌, ◌≤◌, ◌↔◌, min, length, take, IfOk, OnOk, OnErr, IsErrOf};
ghost use Rattle.wm_station.specs.History.{Begin, Synced, Said, now, stretch, DidWrite, MayHaveWritten};
ghost use Rattle.wm_station.specs.Cause.{DiskCause, SayCause, Rises};
ghost use Rattle.wm_station.specs.Planned.{FailsNext, faults_of};
ghost use Rattle.wm_station.specs.Recorded.{history_of};
ghost use Rattle.wm_station.specs.Replay.{over};

use crate::{DiskFailed, Faults, Recording, SayFailed, Station};
use std::alloc::{AllocError, Global};

/// A file and answers in memory. It tells its content.
#[derive(Drop)]
pub struct MemoryStation {
    recording: Recording,
    faults: Faults,
    disk_faults: u64,
    say_faults: u64,
}

impl MemoryStation {
    /// A file that holds these bytes, all of them on the disk.
    pub fn new(alloc: Global, start: Vec<u8>, faults: Faults) -> Result<Self, AllocError>
        ensures history { IfOk result (λ s. ⟦<MemoryStation as Station>⟧.history s ≡ Begin start.items) }
        ensures disk { IfOk result (λ s. ⟦<MemoryStation as Station>⟧.disk_faults s ≡ 0) }
        ensures say { IfOk result (λ s. ⟦<MemoryStation as Station>⟧.say_faults s ≡ 0) }
        ensures faults { IfOk result (λ s. faults_of s ≡ faults) }
    {
        Ok(MemoryStation {
            recording: Recording::new(alloc, start)?,
            faults,
            disk_faults: 0,
            say_faults: 0,
        })
    }

    /// What it did.
    pub fn recording(&self) -> &Recording
        ensures { history_of result.now ≡ ⟦<MemoryStation as Station>⟧.history self.now }
    {
        &self.recording
    }
}

// A write that fails, after it brought these bytes to the front of its range.
fn tear(recording: &mut Recording, at: u64, len: u64, torn: &[u8]) -> Result<(), AllocError>
    requires { length torn.now ≤ len }
    ensures ok { OnOk result (MayHaveWritten at len (history_of recording.old) (history_of recording.new)) }
    ensures here { OnOk result (now (history_of recording.new) ≡ over at torn.now (now (history_of recording.old))) }
    ensures err { OnErr result (history_of recording.new ≡ history_of recording.old) }
{
    if torn.is_empty() {
        return Ok(());
    }
    recording.write(at, len, torn)
}

impl Station for MemoryStation {
    ghost tells = { Unit {0} };

    ghost wants = { Unit {0} };

    ghost history = { λ s. history_of s.recording };

    ghost disk_faults = { λ s. s.disk_faults };

    ghost say_faults = { λ s. s.say_faults };

    fn len(&mut self) -> Result<u64, DiskFailed>
        ensures size { IfOk result (λ n. n ≡ length (now (history_of self.old.recording))) }
        ensures told { history_of self.new.recording ≡ history_of self.old.recording }
        ensures planned { IsErrOf result DiskFailed.Failed ↔ FailsNext (faults_of self.old).reads }
        ensures cause { DiskCause self.old.disk_faults self.new.disk_faults result }
        ensures quiet { self.new.say_faults ≡ self.old.say_faults }
    {
        if self.faults.reads.next_fails() {
            self.disk_faults = self.disk_faults.saturating_add(1);
            return Err(DiskFailed::Failed);
        }
        Ok(self.recording.image().len() as u64)
    }

    fn read(&mut self, at: u64, into: &mut [u8]) -> Result<(), DiskFailed>
        requires { at + length into.old ≤ length (now (history_of self.old.recording)) }
        ensures bytes { OnOk result (into.new ≡ stretch (now (history_of self.old.recording)) at (length into.old)) }
        ensures told { history_of self.new.recording ≡ history_of self.old.recording }
        ensures planned { IsErrOf result DiskFailed.Failed ↔ FailsNext (faults_of self.old).reads }
        ensures cause { DiskCause self.old.disk_faults self.new.disk_faults result }
        ensures quiet { self.new.say_faults ≡ self.old.say_faults }
    {
        if self.faults.reads.next_fails() {
            self.disk_faults = self.disk_faults.saturating_add(1);
            return Err(DiskFailed::Failed);
        }
        self.recording.read(at, into);
        Ok(())
    }

    #[tactic(auto, using(crate::proofs::Overs::did_write))]
    fn write_at(&mut self, at: u64, bytes: &[u8]) -> Result<(), DiskFailed>
        ensures written { OnOk result (DidWrite at bytes.now (history_of self.old.recording) (history_of self.new.recording)) }
        ensures torn { OnErr result (MayHaveWritten at (length bytes.now) (history_of self.old.recording) (history_of self.new.recording)) }
        ensures tears { IsErrOf result DiskFailed.Failed → now (history_of self.new.recording) ≡ over at (take (min (length (faults_of self.old).torn.items) (length bytes.now)) (faults_of self.old).torn.items) (now (history_of self.old.recording)) }
        ensures planned { IsErrOf result DiskFailed.Failed → FailsNext (faults_of self.old).writes }
        ensures fails { OnOk result (FailsNext (faults_of self.old).writes → ⊥) }
        ensures cause { DiskCause self.old.disk_faults self.new.disk_faults result }
        ensures quiet { self.new.say_faults ≡ self.old.say_faults }
    {
        let len = bytes.len() as u64;
        if self.faults.writes.next_fails() {
            let torn = self.faults.torn.as_slice();
            let torn = &torn[..torn.len().min(bytes.len())];
            tear(&mut self.recording, at, len, torn)?;
            self.disk_faults = self.disk_faults.saturating_add(1);
            return Err(DiskFailed::Failed);
        }
        Ok(self.recording.write(at, len, bytes)?)
    }

    fn sync(&mut self) -> Result<(), DiskFailed>
        ensures synced { OnOk result (history_of self.new.recording ≡ Synced (history_of self.old.recording)) }
        ensures unsynced { OnErr result (history_of self.new.recording ≡ history_of self.old.recording) }
        ensures planned { IsErrOf result DiskFailed.Failed ↔ FailsNext (faults_of self.old).syncs }
        ensures cause { DiskCause self.old.disk_faults self.new.disk_faults result }
        ensures quiet { self.new.say_faults ≡ self.old.say_faults }
    {
        if self.faults.syncs.next_fails() {
            self.disk_faults = self.disk_faults.saturating_add(1);
            return Err(DiskFailed::Failed);
        }
        Ok(self.recording.sync()?)
    }

    fn say(&mut self, bytes: &[u8]) -> Result<usize, SayFailed>
        ensures within { IfOk result (λ n. n ≡ min (length bytes.now) (faults_of self.old).say_limit) }
        ensures said { IfOk result (λ n. history_of self.new.recording ≡ Said (history_of self.old.recording) bytes.now n) }
        ensures unsaid { OnErr result (history_of self.new.recording ≡ history_of self.old.recording) }
        ensures planned { IsErrOf result SayFailed.Failed ↔ FailsNext (faults_of self.old).says }
        ensures cause { SayCause self.old.say_faults self.new.say_faults result }
        ensures nothing { IfOk result (λ n. n ≡ 0 → 0 < length bytes.now → Rises self.old.say_faults self.new.say_faults) }
        ensures some { IfOk result (λ n. min 1 (length bytes.now) ≤ n → self.new.say_faults ≡ self.old.say_faults) }
        ensures quiet { self.new.disk_faults ≡ self.old.disk_faults }
    {
        if self.faults.says.next_fails() {
            self.say_faults = self.say_faults.saturating_add(1);
            return Err(SayFailed::Failed);
        }
        let count = bytes.len().min(self.faults.say_limit);
        self.recording.say(bytes, count)?;
        if count == 0 && !bytes.is_empty() {
            self.say_faults = self.say_faults.saturating_add(1);
        }
        Ok(count)
    }
}
