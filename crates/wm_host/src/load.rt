//! The command that runs a script drawn from a number.
ghost use Rattle.std.specs.Prelude.{◌≡◌, ◌≤◌, ◌⊎◌, length, OnOk, OnErr, IfOk, IfErr, IsErrOf};
ghost use Rattle.wm_engine.specs.Working.{IsSound, StandsFor};
ghost use Rattle.wm_state.specs.State.{State};
ghost use Rattle.wm_station.specs.Cause.{Rises};
ghost use Rattle.wm_station.specs.History.{said};
ghost use Rattle.wm_station.specs.Moments.{During, Ended as EndsIn};
ghost use Rattle.wm_host.specs.Cause.{IsOfAnswers, IsOfRunning};
ghost use Rattle.wm_host.specs.Crash.{Throughout, CrashSound};
ghost use Rattle.wm_host.specs.Ends.{FaultsTell, LoadEnds, StoreTells};
ghost use Rattle.wm_host.specs.Hosting.{WorksSoundly};
ghost use Rattle.wm_host.specs.Loading.{CrashLoads, Loaded, LoadsSome, RunsAll, RunsSome, StandsAmong};
ghost use Rattle.wm_host.specs.Outcome.{load_lines};
ghost use Rattle.wm_host.specs.declared.stop.Stop.TheVariants.{SayFault, DiskFault, Changed, Memory as NoMemory};

use crate::ended::Ended;
use crate::host::Host;
use crate::say::say_all;
use crate::stop::Stop;
use crate::store::open_host;
use crate::tally::Tally;
use std::alloc::Global;
use wm_base::Instant;
use wm_gen::Lines;
use wm_station::Station;

/// Runs the lines of the script and says nothing: counts the kinds of their answers.
fn run_lines<P: Station>(
    alloc: Global,
    station: &mut P,
    host: &mut Host,
    seed: u64,
    count: u32,
) -> Result<Tally, Stop>
    requires none { host.old.lines ≡ 0 }
    requires works { P.tells → WorksSoundly host.old.engine (P.history station.old) }
    ensures ok { IfOk result (λ tally. RunsAll P.tells (P.history station.new) host.old host.new (load_lines seed count) tally) }
    ensures err { OnErr result (RunsSome P.tells (P.history station.new) host.old host.new (load_lines seed count)) }
    // However it ends, nothing was said, and a read and a crash at any moment find the state after some of the lines.
    ensures any_moment { P.tells → (s : State) → StandsFor host.old.engine s → EndsIn (P.history station.old) (P.history station.new) (StandsAmong s (load_lines seed count)) }
    ensures sound { P.tells → EndsIn (P.history station.old) (P.history station.new) IsSound }
    ensures say_quiet { P.say_faults station.new ≡ P.say_faults station.old }
    ensures disk_later { P.disk_faults station.old ≤ P.disk_faults station.new }
    ensures disk_failed { IsErrOf result DiskFault → Rises (P.disk_faults station.old) (P.disk_faults station.new) }
    ensures disk_kept { OnOk result (P.disk_faults station.new ≡ P.disk_faults station.old) }
    ensures disk_spared { IsErrOf result NoMemory → P.disk_faults station.new ≡ P.disk_faults station.old }
    ensures unchanged { P.tells → IsErrOf result Changed → ⊥ }
    ensures running { IfErr result IsOfRunning }
{
    let mut coming = Lines::new(seed, count);
    let mut tally = Tally::none();
    'lines: loop {
        let next = coming.line(alloc)?;
        let Some(line) = next else {
            return Ok(tally);
        };
        let kind = host.run_line(alloc, station, line.as_slice())?;
        tally.count(kind);
    }
}

/// Runs the lines of the script, and says how many of their answers were of each kind.
fn run_drawn<P: Station>(
    alloc: Global,
    station: &mut P,
    host: &mut Host,
    seed: u64,
    count: u32,
) -> Result<(), Stop>
    requires none { host.old.lines ≡ 0 }
    requires works { P.tells → WorksSoundly host.old.engine (P.history station.old) }
    ensures ok { P.tells → OnOk result ((s : State) → StandsFor host.old.engine s → Loaded (P.history station.old) (P.history station.new) s (load_lines seed count)) }
    ensures all { OnOk result (host.new.lines ≡ length (load_lines seed count)) }
    ensures some { P.tells → (s : State) → StandsFor host.old.engine s → LoadsSome (P.history station.old) (P.history station.new) s (load_lines seed count) host.new.lines }
    // Nothing is said before all lines were run.
    ensures silent { P.tells → (said (P.history station.new) ≡ said (P.history station.old)) ⊎ (host.new.lines ≡ length (load_lines seed count)) }
    ensures unsaid { P.tells → IsErrOf result DiskFault → said (P.history station.new) ≡ said (P.history station.old) }
    ensures crash { P.tells → (s : State) → StandsFor host.old.engine s → During (P.history station.old) (P.history station.new) (CrashLoads (P.history station.old) s (load_lines seed count)) }
    ensures sound { P.tells → Throughout (P.history station.old) (P.history station.new) CrashSound }
    ensures say_later { P.say_faults station.old ≤ P.say_faults station.new }
    ensures say_failed { IsErrOf result SayFault → Rises (P.say_faults station.old) (P.say_faults station.new) }
    ensures say_kept { OnOk result (P.say_faults station.new ≡ P.say_faults station.old) }
    ensures disk_later { P.disk_faults station.old ≤ P.disk_faults station.new }
    ensures disk_failed { IsErrOf result DiskFault → Rises (P.disk_faults station.old) (P.disk_faults station.new) }
    ensures disk_kept { OnOk result (P.disk_faults station.new ≡ P.disk_faults station.old) }
    ensures disk_spared { IsErrOf result NoMemory → P.disk_faults station.new ≡ P.disk_faults station.old }
    ensures unchanged { P.tells → IsErrOf result Changed → ⊥ }
    ensures answering { IfErr result IsOfAnswers }
{
    let tally = run_lines(alloc, station, host, seed, count)?;
    let text = tally.text(alloc, host.lines)?;
    say_all(station, text.as_slice())
}

/// Opens a store, runs the script that the number draws, and says how many of its answers were of each kind.
pub(crate) fn load<P: Station>(alloc: Global, station: &mut P, seed: u64, count: u32) -> Ended
    ensures ends { LoadEnds P.tells seed count (P.history station.old) (P.history station.new) result }
    ensures store { StoreTells P.tells (P.history station.old) (P.history station.new) result }
    ensures faults { FaultsTell P.Station station.old station.new result }
{
    match open_host(alloc, station, Instant::beginning()) {
        Ok(mut host) => {
            let run = run_drawn(alloc, station, &mut host, seed, count);
            let lines = host.lines;
            drop(host);
            Ended::of(run, lines)
        }
        Err(stop) => Ended::of(Err(stop), 0),
    }
}
