//! The check of a store: it is opened, and left as it is.
ghost use Rattle.wm_host.specs.Ends.{CheckEnds, FaultsTell, StoreTells};

use crate::ended::Ended;
use crate::say::say_all;
use crate::store::open_host;
use std::alloc::Global;
use wm_base::Instant;
use wm_station::Station;

/// Opens a store, which writes out what a run before left in its journal, and says `OK`.
pub(crate) fn check<P: Station>(alloc: Global, station: &mut P) -> Ended
    ensures ends { CheckEnds P.tells (P.history station.old) (P.history station.new) result }
    ensures store { StoreTells P.tells (P.history station.old) (P.history station.new) result }
    ensures faults { FaultsTell P.Station station.old station.new result }
{
    match open_host(alloc, station, Instant::beginning()) {
        Ok(host) => {
            drop(host);
            Ended::of(say_all(station, b"OK\n".as_slice()), 0)
        }
        Err(stop) => Ended::of(Err(stop), 0),
    }
}
