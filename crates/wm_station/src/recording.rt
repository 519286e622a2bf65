//! A file in memory, and the record of all that was done to it and said.
ghost use Rattle.std.specs.Prelude.{◌≡◌, ◌+◌, ◌<◌, ◌≤◌, [], ◌∷◌, ◌++◌, length, IfOk, OnOk, OnErr, is_ok, if◌then◌else◌};
ghost use Rattle.wm_station.specs.History.{History, now, said, stretch, Leaves, Begin, Wrote, Synced, Said};
ghost use Rattle.wm_station.specs.Replay.{over, replay};
ghost use Rattle.wm_station.specs.declared.recording.Call.TheVariants.{Sync};

use crate::Tear;
use crate::tear::step;
use std::alloc::{AllocError, Global};

/// A call that did something.
#[derive(Debug, Drop)]
pub enum Call {
    /// A write to `len` bytes from `at` on, that brought these bytes to their front: all of them
    /// where it succeeded, perhaps fewer where it failed.
    Write { at: u64, len: u64, bytes: Vec<u8> },
    Sync,
    /// A say of the first `count` bytes of a piece.
    Say { piece: Vec<u8>, count: u64 },
}

/// A file in memory with its past.
#[derive(Drop)]
pub struct Recording {
    alloc: Global,
    /// What the file held at first.
    start: Vec<u8>,
    /// What a read gives.
    image: Vec<u8>,
    /// What was done since, in order.
    calls: Vec<Call>,
    ghost replayed: { now (replay (Begin start.items) calls.items) ≡ image.items },
}

impl Recording {
    ghost use Rattle.wm_station.specs.Recorded.{history_of, history_at};

    /// A file that holds these bytes.
    pub fn new(alloc: Global, start: Vec<u8>) -> Result<Self, AllocError>
        ensures { IfOk result (λ r. history_of r ≡ Begin start.items) }
    {
        let image = start.as_slice().to_vec(alloc)?;
        Ok(Recording {
            alloc,
            start,
            image,
            calls: Vec::new(alloc),
        })
    }

    /// What was done so far, in order.
    pub fn calls(&self) -> &[Call]
        ensures { result.now ≡ self.now.calls.items }
    {
        &self.calls
    }

    /// What a read gives.
    pub fn image(&self) -> &[u8]
        ensures { result.now ≡ now (history_of self.now) }
    {
        &self.image
    }

    /// The bytes said.
    pub fn said(&self) -> Result<Vec<u8>, AllocError>
        ensures { IfOk result (λ bytes. bytes.items ≡ said (history_of self.now)) }
    {
        let mut bytes = Vec::new(self.alloc);
        for call in &self.calls {
            if let Call::Say { piece, count } = call {
                let count = piece.len().min(*count as usize);
                bytes.extend_from_slice(&piece[..count])?;
            }
        }
        Ok(bytes)
    }

    /// A file that a crash after so many calls may leave. Of each write since the last sync it has what its
    /// tear says; they are used in order, and again from the first on where there are fewer than calls.
    pub fn crash_image(&self, calls: usize, tears: &[Tear]) -> Result<Vec<u8>, AllocError>
        requires { 0 < length tears.now }
        ensures { IfOk result (λ file. Leaves (history_at self.now calls) file.items) }
    {
        let mut image = self.start.as_slice().to_vec(self.alloc)?;
        let mut left = self.start.as_slice().to_vec(self.alloc)?;
        for i in 0..calls.min(self.calls.len()) {
            let tear = tears[i % tears.len()];
            step(self.alloc, &self.calls[i], tear, &mut image, &mut left)?;
        }
        Ok(left)
    }

    /// Fills `into` with the bytes from `at` on.
    #[tactic(auto, unfolding(crate::specs::History::stretch))]
    pub fn read(&self, at: u64, into: &mut [u8])
        requires { at + length into.old ≤ length (now (history_of self.now)) }
        ensures { into.new ≡ stretch (now (history_of self.now)) at (length into.old) }
    {
        let from = at as usize;
        into.copy_from_slice(&self.image[from..from + into.len()]);
    }

    /// Brings these bytes to the front of a range of `len` bytes from `at` on.
    pub fn write(&mut self, at: u64, len: u64, bytes: &[u8]) -> Result<(), AllocError>
        ensures ok { OnOk result (history_of self.new ≡ Wrote (history_of self.old) at len (over at bytes.now (now (history_of self.old)))) }
        ensures err { OnErr result (history_of self.new ≡ history_of self.old) }
    {
        write_and_keep(self.alloc, &mut self.image, &mut self.calls, at, len, bytes)
    }

    pub fn sync(&mut self) -> Result<(), AllocError>
        ensures ok { OnOk result (history_of self.new ≡ Synced (history_of self.old)) }
        ensures err { OnErr result (history_of self.new ≡ history_of self.old) }
    {
        keep(&mut self.calls, Call::Sync)
    }

    /// Says the first `count` bytes of a piece.
    pub fn say(&mut self, piece: &[u8], count: usize) -> Result<(), AllocError>
        ensures ok { OnOk result (history_of self.new ≡ Said (history_of self.old) piece.now count) }
        ensures err { OnErr result (history_of self.new ≡ history_of self.old) }
    {
        let piece = piece.to_vec(self.alloc)?;
        let count = count as u64;
        keep(&mut self.calls, Call::Say { piece, count })
    }
}

// Adds a call to the list.
fn keep(calls: &mut Vec<Call>, call: Call) -> Result<(), AllocError>
    ensures { calls.new.items ≡ (if is_ok result then calls.old.items ++ call ∷ [] else calls.old.items) }
{
    calls.push(call)?;
    Ok(())
}

// Writes into the file, and adds the call to the list.
fn write_and_keep(
    alloc: Global,
    image: &mut Vec<u8>,
    calls: &mut Vec<Call>,
    at: u64,
    len: u64,
    bytes: &[u8],
) -> Result<(), AllocError>
    ensures replayed { (h : History) → now (replay h calls.old.items) ≡ image.old.items → now (replay h calls.new.items) ≡ image.new.items }
    ensures ok { OnOk result ((h : History) → replay h calls.new.items ≡ Wrote (replay h calls.old.items) at len (over at bytes.now (now (replay h calls.old.items)))) }
    ensures err { OnErr result (calls.new.items ≡ calls.old.items) }
{
    calls.reserve(1)?;
    let kept = bytes.to_vec(alloc)?;
    put(image, at as usize, bytes)?;
    let call = Call::Write {
        at,
        len,
        bytes: kept,
    };
    calls.push(call).unwrap();
    Ok(())
}

// Writes the bytes in place, after zeros where the file is shorter.
pub(crate) fn put(image: &mut Vec<u8>, at: usize, bytes: &[u8]) -> Result<(), AllocError>
    ensures ok { OnOk result (image.new.items ≡ over at bytes.now image.old.items) }
    ensures err { OnErr result (image.new.items ≡ image.old.items) }
{
    if bytes.is_empty() {
        return Ok(());
    }
    let end = at.checked_add(bytes.len()).ok_or(AllocError)?;
    if image.len() < end {
        image.resize(end, 0)?;
    }
    image[at..end].copy_from_slice(bytes);
    Ok(())
}
