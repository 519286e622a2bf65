//! Sources in memory.
ghost use Rattle.std.specs.Prelude.{◌≡◌, ◌+◌, ◌<◌, ◌≤◌, [], ◌++◌, length, take, drop, Ok, IfOk, OnOk, OnErr};
ghost use Rattle.wm_station.specs.Cause.{SourceCause};

use crate::{Failing, Source, SourceFailed};

/// The bytes of a script in memory. It tells them. Calls can be made to fail.
#[derive(Drop)]
pub struct MemorySource {
    bytes: Vec<u8>,
    at: usize,
    calls: Failing,
    faults: u64,
    ghost within: { at ≤ length bytes.items },
}

impl MemorySource {
    ghost use Rattle.wm_station.specs.Planned.{calls_of};

    /// All of these bytes. The calls are those on a buffer that has room.
    pub fn new(bytes: Vec<u8>, calls: Failing) -> Self
        ensures left { ⟦<MemorySource as Source>⟧.left result ≡ bytes.items }
        ensures faults { ⟦<MemorySource as Source>⟧.faults result ≡ 0 }
        ensures calls { calls_of result ≡ calls }
    {
        MemorySource {
            bytes,
            at: 0,
            calls,
            faults: 0,
        }
    }
}

impl Source for MemorySource {
    ghost use Rattle.wm_station.specs.Planned.{FailsNext, calls_of};

    ghost tells = { Unit {0} };

    ghost left = { λ s. drop s.at s.bytes.items };

    ghost faults = { λ s. s.faults };

    fn take(&mut self, into: &mut [u8]) -> Result<usize, SourceFailed>
        ensures within { IfOk result (λ n. n ≤ length into.old) }
        ensures taken { IfOk result (λ n. drop self.old.at self.old.bytes.items ≡ take n into.new ++ drop self.new.at self.new.bytes.items) }
        ensures end { IfOk result (λ n. n ≡ 0 → 0 < length into.old → drop self.old.at self.old.bytes.items ≡ []) }
        ensures untaken { OnErr result (drop self.new.at self.new.bytes.items ≡ drop self.old.at self.old.bytes.items) }
        ensures planned { OnErr result (FailsNext (calls_of self.old)) }
        ensures fails { OnOk result (0 < length into.old → FailsNext (calls_of self.old) → ⊥) }
        ensures cause { SourceCause self.old.faults self.new.faults result }
        ensures nothing { length into.old ≡ 0 → result ≡ Ok 0 }
    {
        if into.is_empty() {
            return Ok(0);
        }
        if self.calls.next_fails() {
            self.faults = self.faults.saturating_add(1);
            return Err(SourceFailed);
        }
        let count = copy_next(&self.bytes, self.at, into);
        self.at += count;
        Ok(count)
    }
}

/// The bytes of a script in memory. It tells them, and its count of faults stands at 0.
#[derive(Drop)]
pub struct QuietSource {
    bytes: Vec<u8>,
    at: usize,
    ghost within: { at ≤ length bytes.items },
}

impl QuietSource {
    /// All of these bytes.
    pub fn new(bytes: Vec<u8>) -> Self
        ensures { ⟦<QuietSource as Source>⟧.left result ≡ bytes.items }
    {
        QuietSource { bytes, at: 0 }
    }
}

impl Source for QuietSource {
    ghost tells = { Unit {0} };

    ghost left = { λ s. drop s.at s.bytes.items };

    ghost faults = { λ _. 0 };

    fn take(&mut self, into: &mut [u8]) -> Result<usize, SourceFailed> {
        let count = copy_next(&self.bytes, self.at, into);
        self.at += count;
        Ok(count)
    }
}

// Copies the bytes from `at` on, as many as there are or as fit, and says how many.
fn copy_next(bytes: &[u8], at: usize, into: &mut [u8]) -> usize
    requires { at ≤ length bytes.now }
    ensures within { result ≤ length into.old }
    ensures left { at + result ≤ length bytes.now }
    ensures taken { drop at bytes.now ≡ take result into.new ++ drop (at + result) bytes.now }
    ensures end { result ≡ 0 → 0 < length into.old → drop at bytes.now ≡ [] }
{
    let rest = &bytes[at..];
    let count = rest.len().min(into.len());
    into[..count].copy_from_slice(&rest[..count]);
    count
}
