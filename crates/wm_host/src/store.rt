//! The commands that make a store and run a script over it.
ghost use Rattle.std.specs.Prelude.{◌≡◌, ◌<◌, ◌≤◌, ◌⊎◌, true, false, OnOk, IfOk, IsErrOf, IfErr};
ghost use Rattle.wm_base.specs.declared.instant.TheConstants.{END};
ghost use Rattle.wm_engine.specs.Working.{FileStands, IsSound};
ghost use Rattle.wm_state.specs.State.{State, fresh};
ghost use Rattle.wm_station.specs.Cause.{Rises};
ghost use Rattle.wm_station.specs.History.{now, said, Synced, Leaves};
ghost use Rattle.wm_station.specs.Moments.{During, Holds};
ghost use Rattle.wm_journal.specs.Disk.{is_made};
ghost use Rattle.wm_journal.specs.Store.{Settles};
ghost use Rattle.wm_store.specs.Opened.{HoldsAs};
ghost use Rattle.wm_host.specs.Cause.{IsOfMaking, IsOfOpening, StopsAlone, StopTells};
ghost use Rattle.wm_host.specs.Crash.{CrashOpens};
ghost use Rattle.wm_host.specs.Ends.{FaultsTell, InitEnds, RunEnds, SourceTells, StoreTells};
ghost use Rattle.wm_host.specs.Hosting.{Begins};
ghost use Rattle.wm_host.specs.Outcome.{HasSaid, HasSaidFront, HoldsSame, ok_text};
ghost use Rattle.wm_host.specs.declared.stop.Stop.TheVariants.{SayFault, DiskFault, Exists, NotStore, Memory as NoMemory};

use crate::ended::Ended;
use crate::host::Host;
use crate::say::say_all;
use crate::script::run_script;
use crate::stop::Stop;
use std::alloc::Global;
use wm_base::Instant;
use wm_engine::Engine;
use wm_station::{Source, Station};

/// Makes a store, and says so.
fn make_store<P: Station>(alloc: Global, station: &mut P, limit: u32) -> Result<(), Stop>
    requires { (1 ≤ limit) × (limit ≤ 1048576) }
    ensures done { P.tells → OnOk result (HasSaid (P.history station.old) (P.history station.new) ok_text) }
    ensures front { P.tells → HasSaidFront (P.history station.old) (P.history station.new) ok_text }
    ensures made { P.tells → OnOk result (Holds (P.history station.new) (λ file. FileStands file (fresh limit))) }
    ensures made_unsaid { P.tells → IsErrOf result SayFault → Holds (P.history station.new) (λ file. FileStands file (fresh limit)) }
    ensures absent { P.tells → OnOk result (is_made (now (P.history station.old)) ≡ false) }
    ensures absent_unsaid { P.tells → IsErrOf result SayFault → is_made (now (P.history station.old)) ≡ false }
    ensures exists { P.tells → IsErrOf result Exists → (is_made (now (P.history station.old)) ≡ true) × (P.history station.new ≡ P.history station.old) }
    // A store that is there is never touched, whatever the answer.
    ensures kept { P.tells → is_made (now (P.history station.old)) ≡ true → P.history station.new ≡ P.history station.old }
    ensures unsaid { P.tells → IsErrOf result DiskFault → said (P.history station.new) ≡ said (P.history station.old) }
    ensures say_later { P.say_faults station.old ≤ P.say_faults station.new }
    ensures say_failed { IsErrOf result SayFault → Rises (P.say_faults station.old) (P.say_faults station.new) }
    ensures say_kept { OnOk result (P.say_faults station.new ≡ P.say_faults station.old) }
    ensures disk_later { P.disk_faults station.old ≤ P.disk_faults station.new }
    ensures disk_failed { IsErrOf result DiskFault → Rises (P.disk_faults station.old) (P.disk_faults station.new) }
    ensures disk_kept { OnOk result (P.disk_faults station.new ≡ P.disk_faults station.old) }
    ensures disk_spared { IsErrOf result NoMemory → P.disk_faults station.new ≡ P.disk_faults station.old }
    ensures making { IfErr result IsOfMaking }
{
    Engine::make(alloc, station, limit)?;
    say_all(station, b"OK\n".as_slice())
}

/// Makes a store that takes so many changes, and says `OK`.
pub(crate) fn init<P: Station>(alloc: Global, station: &mut P, limit: u32) -> Ended
    requires { (1 ≤ limit) × (limit ≤ 1048576) }
    ensures ends { InitEnds P.tells limit (P.history station.old) (P.history station.new) result }
    ensures store { StoreTells P.tells (P.history station.old) (P.history station.new) result }
    ensures faults { FaultsTell P.Station station.old station.new result }
{
    Ended::of(make_store(alloc, station, limit), 0)
}

/// Opens a store for a run that begins at a moment.
pub(crate) fn open_host<P: Station>(
    alloc: Global,
    station: &mut P,
    moment: Instant,
) -> Result<Host, Stop>
    requires { moment < END }
    ensures begins { IfOk result (λ host. Begins P.tells (P.history station.old) (P.history station.new) host moment) }
    ensures crash { P.tells → (s : State) → FileStands (now (P.history station.old)) s → During (P.history station.old) (P.history station.new) (CrashOpens (P.history station.old) s) }
    ensures keeps { P.tells → (s : State) → FileStands (now (P.history station.old)) s → FileStands (now (P.history station.new)) s }
    ensures unsaid { P.tells → said (P.history station.new) ≡ said (P.history station.old) }
    ensures not_store { P.tells → IsErrOf result NotStore → now (P.history station.new) ≡ now (P.history station.old) }
    // A file that is no store, or whose page 0 is found damaged before a repair, is only synced; whatever the answer, the pages are held as they were, also after a crash.
    ensures synced { P.tells → IfErr result (λ stop. StopsAlone stop → P.history station.new ≡ Synced (P.history station.old)) }
    ensures pages { P.tells → HoldsAs (now (P.history station.old)) (now (P.history station.new)) }
    ensures pages_any_moment { P.tells → During (P.history station.old) (P.history station.new) (λ c s. (Leaves (P.history station.old) c ⊎ HoldsAs (now (P.history station.old)) c) × (s ≡ said (P.history station.old))) }
    // It opens only where the file was a store whose records keep the rules.
    ensures sound { P.tells → OnOk result (IsSound (now (P.history station.old))) }
    ensures settles { P.tells → Settles (P.history station.old) (P.history station.new) (HoldsAs (now (P.history station.old))) }
    ensures same { P.tells → OnOk result (Holds (P.history station.new) (HoldsSame (now (P.history station.old)))) }
    ensures fault { P.tells → IfErr result (λ stop. StopTells stop (now (P.history station.old))) }
    ensures disk_later { P.disk_faults station.old ≤ P.disk_faults station.new }
    ensures disk_failed { IsErrOf result DiskFault → Rises (P.disk_faults station.old) (P.disk_faults station.new) }
    ensures disk_kept { OnOk result (P.disk_faults station.new ≡ P.disk_faults station.old) }
    ensures disk_spared { IsErrOf result NoMemory → P.disk_faults station.new ≡ P.disk_faults station.old }
    ensures say_quiet { P.say_faults station.new ≡ P.say_faults station.old }
    ensures opening { IfErr result IsOfOpening }
{
    let engine = Engine::open(alloc, station, moment)?;
    Ok(Host::new(alloc, engine))
}

/// Opens a store, takes the source as a script, and says the answer to each of its lines.
pub(crate) fn run_store<S: Source, P: Station>(
    alloc: Global,
    source: &mut S,
    station: &mut P,
    moment: Instant,
) -> Ended
    requires { moment < END }
    ensures ends { RunEnds S.tells P.tells moment (S.left source.old) (S.left source.new) (P.history station.old) (P.history station.new) result }
    ensures store { StoreTells P.tells (P.history station.old) (P.history station.new) result }
    ensures source { SourceTells S.Source source.old source.new result }
    ensures faults { FaultsTell P.Station station.old station.new result }
{
    match open_host(alloc, station, moment) {
        Ok(mut host) => {
            let run = run_script(alloc, source, station, &mut host);
            let lines = host.lines;
            drop(host);
            Ended::of(run, lines)
        }
        Err(stop) => Ended::of(Err(stop), 0),
    }
}
