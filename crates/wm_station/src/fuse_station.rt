//! A station that fails from some call on.
ghost use Rattle.std.specs.Prelude.{◌≡◌, ◌+◌, ◌-◌, ◌<◌, ◌≤◌, min, length, IfOk, OnOk, OnErr, IsErrOf};
ghost use Rattle.wm_station.specs.Cause.{DiskCause, SayCause, Rises};
ghost use Rattle.wm_station.specs.History.{now, stretch, DidWrite, MayHaveWritten, MayHaveSaid, Synced, Said};
ghost use Rattle.wm_station.specs.Planned.{Burns};

use crate::{DiskFailed, SayFailed, Station};

/// A station before which a fuse stands: so many calls are passed on to it, and then each one fails.
#[derive(Drop)]
pub struct FuseStation<P> {
    inner: P,
    /// How many more calls it passes.
    pub left: u64,
    blown_disk: u64,
    blown_say: u64,
}

impl<P: Station> FuseStation<P> {
    /// Passes `calls` disk calls and says.
    pub fn new(inner: P, calls: u64) -> Self
        ensures history { ⟦<FuseStation<P> as Station>⟧.history result ≡ P.history inner }
        ensures disk { ⟦<FuseStation<P> as Station>⟧.disk_faults result ≡ P.disk_faults inner }
        ensures say { ⟦<FuseStation<P> as Station>⟧.say_faults result ≡ P.say_faults inner }
        ensures left { result.left ≡ calls }
    {
        FuseStation {
            inner,
            left: calls,
            blown_disk: 0,
            blown_say: 0,
        }
    }

    /// The station behind the fuse.
    pub fn into_inner(self) -> P
        ensures { P.history result ≡ ⟦<FuseStation<P> as Station>⟧.history self }
    {
        let FuseStation {
            inner,
            left: _,
            blown_disk: _,
            blown_say: _,
        } = self;
        inner
    }
}

impl<P: Station> Station for FuseStation<P> {
    ghost tells = { P.tells };

    ghost wants = { P.wants };

    ghost history = { λ f. P.history f.inner };

    ghost disk_faults = { λ f. P.disk_faults f.inner + f.blown_disk };

    ghost say_faults = { λ f. P.say_faults f.inner + f.blown_say };

    fn len(&mut self) -> Result<u64, DiskFailed>
        ensures size { P.tells → IfOk result (λ n. n ≡ length (now (P.history self.old.inner))) }
        ensures told { P.tells → P.history self.new.inner ≡ P.history self.old.inner }
        ensures burns { Burns self.old.left self.new.left self.old.blown_disk self.new.blown_disk result DiskFailed.Failed }
        ensures cause { DiskCause (P.disk_faults self.old.inner + self.old.blown_disk) (P.disk_faults self.new.inner + self.new.blown_disk) result }
        ensures wants { IsErrOf result DiskFailed.Memory → P.wants }
        ensures quiet { P.say_faults self.new.inner + self.new.blown_say ≡ P.say_faults self.old.inner + self.old.blown_say }
    {
        if self.left == 0 {
            self.blown_disk = self.blown_disk.saturating_add(1);
            return Err(DiskFailed::Failed);
        }
        self.left -= 1;
        self.inner.len()
    }

    fn read(&mut self, at: u64, into: &mut [u8]) -> Result<(), DiskFailed>
        requires { P.tells → at + length into.old ≤ length (now (P.history self.old.inner)) }
        ensures bytes { P.tells → OnOk result (into.new ≡ stretch (now (P.history self.old.inner)) at (length into.old)) }
        ensures told { P.tells → P.history self.new.inner ≡ P.history self.old.inner }
        ensures burns { Burns self.old.left self.new.left self.old.blown_disk self.new.blown_disk result DiskFailed.Failed }
        ensures cause { DiskCause (P.disk_faults self.old.inner + self.old.blown_disk) (P.disk_faults self.new.inner + self.new.blown_disk) result }
        ensures wants { IsErrOf result DiskFailed.Memory → P.wants }
        ensures quiet { P.say_faults self.new.inner + self.new.blown_say ≡ P.say_faults self.old.inner + self.old.blown_say }
    {
        if self.left == 0 {
            self.blown_disk = self.blown_disk.saturating_add(1);
            return Err(DiskFailed::Failed);
        }
        self.left -= 1;
        self.inner.read(at, into)
    }

    fn write_at(&mut self, at: u64, bytes: &[u8]) -> Result<(), DiskFailed>
        ensures written { P.tells → OnOk result (DidWrite at bytes.now (P.history self.old.inner) (P.history self.new.inner)) }
        ensures torn { P.tells → OnErr result (MayHaveWritten at (length bytes.now) (P.history self.old.inner) (P.history self.new.inner)) }
        ensures burns { Burns self.old.left self.new.left self.old.blown_disk self.new.blown_disk result DiskFailed.Failed }
        ensures cause { DiskCause (P.disk_faults self.old.inner + self.old.blown_disk) (P.disk_faults self.new.inner + self.new.blown_disk) result }
        ensures wants { IsErrOf result DiskFailed.Memory → P.wants }
        ensures quiet { P.say_faults self.new.inner + self.new.blown_say ≡ P.say_faults self.old.inner + self.old.blown_say }
    {
        if self.left == 0 {
            self.blown_disk = self.blown_disk.saturating_add(1);
            return Err(DiskFailed::Failed);
        }
        self.left -= 1;
        self.inner.write_at(at, bytes)
    }

    fn sync(&mut self) -> Result<(), DiskFailed>
        ensures synced { P.tells → OnOk result (P.history self.new.inner ≡ Synced (P.history self.old.inner)) }
        ensures unsynced { P.tells → OnErr result (P.history self.new.inner ≡ P.history self.old.inner) }
        ensures burns { Burns self.old.left self.new.left self.old.blown_disk self.new.blown_disk result DiskFailed.Failed }
        ensures cause { DiskCause (P.disk_faults self.old.inner + self.old.blown_disk) (P.disk_faults self.new.inner + self.new.blown_disk) result }
        ensures wants { IsErrOf result DiskFailed.Memory → P.wants }
        ensures quiet { P.say_faults self.new.inner + self.new.blown_say ≡ P.say_faults self.old.inner + self.old.blown_say }
    {
        if self.left == 0 {
            self.blown_disk = self.blown_disk.saturating_add(1);
            return Err(DiskFailed::Failed);
        }
        self.left -= 1;
        self.inner.sync()
    }

    fn say(&mut self, bytes: &[u8]) -> Result<usize, SayFailed>
        ensures within { IfOk result (λ n. n ≤ length bytes.now) }
        ensures said { P.tells → IfOk result (λ n. P.history self.new.inner ≡ Said (P.history self.old.inner) bytes.now n) }
        ensures unsaid { P.tells → OnErr result (MayHaveSaid bytes.now (P.history self.old.inner) (P.history self.new.inner)) }
        ensures burns { Burns self.old.left self.new.left self.old.blown_say self.new.blown_say result SayFailed.Failed }
        ensures cause { SayCause (P.say_faults self.old.inner + self.old.blown_say) (P.say_faults self.new.inner + self.new.blown_say) result }
        ensures nothing { IfOk result (λ n. n ≡ 0 → 0 < length bytes.now → Rises (P.say_faults self.old.inner + self.old.blown_say) (P.say_faults self.new.inner + self.new.blown_say)) }
        ensures some { IfOk result (λ n. min 1 (length bytes.now) ≤ n → P.say_faults self.new.inner + self.new.blown_say ≡ P.say_faults self.old.inner + self.old.blown_say) }
        ensures wants { IsErrOf result SayFailed.Memory → P.wants }
        ensures quiet { P.disk_faults self.new.inner + self.new.blown_disk ≡ P.disk_faults self.old.inner + self.old.blown_disk }
    {
        if self.left == 0 {
            self.blown_say = self.blown_say.saturating_add(1);
            return Err(SayFailed::Failed);
        }
        self.left -= 1;
        self.inner.say(bytes)
    }
}
