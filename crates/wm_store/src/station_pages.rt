//! The pages of a store that is at rest, read from its station.
ghost use Rattle.std.specs.Prelude.{◌≡◌, ◌*◌, ◌/◌, ◌^◌, ◌<◌, ◌≤◌, length, IfOk};
ghost use Rattle.wm_station.specs.Cause.{DiskCause};
ghost use Rattle.wm_station.specs.History.{now};
ghost use Rattle.wm_journal.specs.Disk.{page};

use wm_page::{PAGE_SIZE, Pages, PagesFailed};
use wm_station::{DiskFailed, Station};

/// Reads pages from their places. The page that was read last is not read again.
#[derive(Drop)]
pub struct StationPages<'a, P: Station> {
    station: &'a mut P,
    count: u64,
    whole: u64,
    /// The page that was read last. Where none was it is 0, and page 0 is always read.
    last: u64,
    /// The bytes of that page.
    bytes: [u8; PAGE_SIZE],
    ghost small: { whole * 4096 < 2 ^ 64 },
    ghost fits: { P.tells → whole * 4096 ≤ length (now (P.history station.now)) },
    ghost read: { P.tells → 0 < last → bytes ≡ page (now (P.history station.now)) last },
}

impl<'a, P: Station> StationPages<'a, P> {
    /// The pages of a station, of which so many are in use, and so many lie whole in its file.
    pub fn new(station: &'a mut P, count: u64, whole: u64) -> StationPages<'a, P>
        requires small { whole * 4096 < 2 ^ 64 }
        requires fits { P.tells → whole * 4096 ≤ length (now (P.history station.old)) }
        ensures same_reference { result.station.ghost_name ≡ station.entry.ghost_name }
        ensures station { result.station.now ≡ station.old }
        ensures count { result.count ≡ count }
        ensures whole { result.whole ≡ whole }
    {
        StationPages {
            station,
            count,
            whole,
            last: 0,
            bytes: [0; PAGE_SIZE],
        }
    }
}

impl<'a, P: Station> Pages for StationPages<'a, P> {
    ghost use Rattle.std.specs.Prelude.{[], ◌∷◌};
    ghost use Rattle.wm_station.specs.History.{now};
    ghost use Rattle.wm_journal.specs.Disk.{page};
    ghost use Rattle.wm_store.specs.Past.{past_of};

    ghost tells = { P.tells };

    ghost held = { λ s. page (now (P.history s.station.now)) };

    ghost in_use = { λ s. s.count };

    ghost in_file = { λ s. s.whole };

    ghost faults = { λ s. P.disk_faults s.station.now };

    ghost source = { λ s. s.station.ghost_name ∷ P.say_faults s.station.now ∷ [] };

    ghost past = { λ s. past_of (P.history s.station.now) };

    fn page(&mut self, number: u64, into: &mut [u8]) -> Result<(), PagesFailed> {
        if number > 0 && number == self.last {
            into.copy_from_slice(&self.bytes);
            return Ok(());
        }
        match self.station.read(number * PAGE_SIZE as u64, into) {
            Ok(()) => {
                self.bytes.copy_from_slice(into);
                self.last = number;
                Ok(())
            }
            Err(DiskFailed::Failed) => Err(PagesFailed::Failed),
            Err(DiskFailed::Memory) => Err(PagesFailed::Memory),
        }
    }

    fn count(&self) -> u64 {
        self.count
    }

    fn whole(&self) -> u64 {
        self.whole
    }
}

/// How many pages lie whole in the file.
pub fn whole_pages<P: Station>(station: &mut P) -> Result<u64, DiskFailed>
    ensures whole { P.tells → IfOk result (λ n. n ≡ length (now (P.history station.old)) / 4096) }
    ensures small { IfOk result (λ n. n * 4096 < 2 ^ 64) }
    ensures told { P.tells → P.history station.new ≡ P.history station.old }
    ensures cause { DiskCause (P.disk_faults station.old) (P.disk_faults station.new) result }
    ensures say_quiet { P.say_faults station.new ≡ P.say_faults station.old }
{
    let size = station.len()?;
    Ok(size / PAGE_SIZE as u64)
}
