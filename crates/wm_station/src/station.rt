//! The disk and the answers in one device, so that a crash leaves a file together with the bytes said.
ghost use Rattle.std.specs.Prelude.{◌≡◌, ℕ, ◌+◌, ◌<◌, ◌≤◌, min, length, IfOk, OnOk, OnErr, IsErrOf};
ghost use Rattle.wm_station.specs.History.{History, now, stretch, DidWrite, MayHaveWritten, MayHaveSaid, Synced, Said};
ghost use Rattle.wm_station.specs.Cause.{DiskCause, SayCause, Rises};

use crate::{DiskFailed, SayFailed};

/// A file that nobody else writes, and a way out for answers.
///
/// Until a sync has succeeded, a crash may leave any bytes in each range written since the last one, and
/// past the old end. After it a crash leaves what a read gives.
pub trait Station {
    /// Whether it tells its content.
    ghost tells: { Type 0 };

    /// Whether its calls may want memory.
    ghost wants: { Type 0 };

    /// What it did so far. Nothing is known of it where the station does not tell.
    ghost history: { Self → History };

    /// How often the disk has failed, up to the last value of a u64.
    ghost disk_faults: { Self → ℕ };

    /// How often a say has failed, up to the last value of a u64.
    ghost say_faults: { Self → ℕ };

    /// The length of the file in bytes.
    fn len(&mut self) -> Result<u64, DiskFailed>
        ensures size { tells → IfOk result (λ n. n ≡ length (now (history self.old))) }
        ensures told { tells → history self.new ≡ history self.old }
        ensures cause { DiskCause (disk_faults self.old) (disk_faults self.new) result }
        ensures wants { IsErrOf result DiskFailed.Memory → wants }
        ensures quiet { say_faults self.new ≡ say_faults self.old };

    /// Fills the whole of `into` with the bytes from `at` on. A read past the end of a real file fails.
    fn read(&mut self, at: u64, into: &mut [u8]) -> Result<(), DiskFailed>
        requires { tells → at + length into.old ≤ length (now (history self.old)) }
        ensures bytes { tells → OnOk result (into.new ≡ stretch (now (history self.old)) at (length into.old)) }
        ensures told { tells → history self.new ≡ history self.old }
        ensures cause { DiskCause (disk_faults self.old) (disk_faults self.new) result }
        ensures wants { IsErrOf result DiskFailed.Memory → wants }
        ensures quiet { say_faults self.new ≡ say_faults self.old };

    /// Writes all bytes from `at` on, which may be past the end. What a gap before them then holds is
    /// not said. No bytes change nothing.
    fn write_at(&mut self, at: u64, bytes: &[u8]) -> Result<(), DiskFailed>
        ensures written { tells → OnOk result (DidWrite at bytes.now (history self.old) (history self.new)) }
        ensures torn { tells → OnErr result (MayHaveWritten at (length bytes.now) (history self.old) (history self.new)) }
        ensures cause { DiskCause (disk_faults self.old) (disk_faults self.new) result }
        ensures wants { IsErrOf result DiskFailed.Memory → wants }
        ensures quiet { say_faults self.new ≡ say_faults self.old };

    /// Brings all that was written to the disk. One that fails makes nothing stable.
    fn sync(&mut self) -> Result<(), DiskFailed>
        ensures synced { tells → OnOk result (history self.new ≡ Synced (history self.old)) }
        ensures unsynced { tells → OnErr result (history self.new ≡ history self.old) }
        ensures cause { DiskCause (disk_faults self.old) (disk_faults self.new) result }
        ensures wants { IsErrOf result DiskFailed.Memory → wants }
        ensures quiet { say_faults self.new ≡ say_faults self.old };

    /// Says a first part of the piece, and how many bytes of it. To say none of a piece that has some is
    /// counted as a fault.
    fn say(&mut self, bytes: &[u8]) -> Result<usize, SayFailed>
        ensures within { IfOk result (λ n. n ≤ length bytes.now) }
        ensures said { tells → IfOk result (λ n. history self.new ≡ Said (history self.old) bytes.now n) }
        ensures unsaid { tells → OnErr result (MayHaveSaid bytes.now (history self.old) (history self.new)) }
        ensures cause { SayCause (say_faults self.old) (say_faults self.new) result }
        ensures wants { IsErrOf result SayFailed.Memory → wants }
        ensures nothing { IfOk result (λ n. n ≡ 0 → 0 < length bytes.now → Rises (say_faults self.old) (say_faults self.new)) }
        ensures some { IfOk result (λ n. min 1 (length bytes.now) ≤ n → say_faults self.new ≡ say_faults self.old) }
        ensures quiet { disk_faults self.new ≡ disk_faults self.old };
}
