//! The loop over the source of a script.
ghost use Rattle.std.specs.Prelude.{◌≡◌, ◌+◌, ◌^◌, ◌≤◌, [], length, true, OnOk, OnErr, IsErrOf, IfErr};
ghost use Rattle.wm_engine.specs.Working.{StandsFor};
ghost use Rattle.wm_model.specs.Lines.{capped};
ghost use Rattle.wm_state.specs.State.{State};
ghost use Rattle.wm_station.specs.Cause.{Rises};
ghost use Rattle.wm_host.specs.Cause.{IsOfScript};
ghost use Rattle.wm_host.specs.Crash.{Throughout, CrashAnswers, CrashSound};
ghost use Rattle.wm_host.specs.Hosting.{Finishes, Halts, WorksSoundly};
ghost use Rattle.wm_host.specs.Outcome.{TakesAtMost};
ghost use Rattle.wm_host.specs.Script.{AnswersTaken, AnswersToLimit};
ghost use Rattle.wm_host.specs.declared.stop.Stop.TheVariants.{InputLimit, SayFault, SourceFault, DiskFault, Changed, Memory as NoMemory};

use crate::host::Host;
use crate::stop::Stop;
use std::alloc::Global;
use wm_station::{Source, Station};

/// The most bytes that a script may have.
const INPUT_LIMIT: usize = 1 << 30;

/// How many bytes are taken at once.
const PIECE_BYTES: usize = 4_096;

/// Takes the whole script, and answers each of its lines.
pub(crate) fn run_script<S: Source, P: Station>(
    alloc: Global,
    source: &mut S,
    station: &mut P,
    host: &mut Host,
) -> Result<(), Stop>
    requires held { host.old.line ≡ [] }
    requires none { host.old.lines ≡ 0 }
    requires works { P.tells → WorksSoundly host.old.engine (P.history station.old) }

    ensures ok { S.tells → OnOk result (Finishes P.tells (P.history station.old) (P.history station.new) host.old (capped true (S.left source.old)) host.new) }
    ensures end { S.tells → OnOk result (S.left source.new ≡ []) }
    ensures within { S.tells → OnOk result (length (S.left source.old) ≤ 2 ^ 30) }
    ensures err { S.tells → OnErr result (Halts P.tells (P.history station.old) (P.history station.new) host.old (capped true (S.left source.old)) host.new) }
    ensures taken { S.tells → IsErrOf result SourceFault → AnswersTaken P.tells (P.history station.old) (P.history station.new) host.old host.new (S.left source.old) (S.left source.new) }
    ensures limit { S.tells → IsErrOf result InputLimit → AnswersToLimit P.tells (P.history station.old) (P.history station.new) host.old host.new (S.left source.old) }

    // At most one byte is taken past the limit.
    ensures few { S.tells → TakesAtMost (2 ^ 30 + 1) (S.left source.old) (S.left source.new) }
    ensures crash { S.tells → P.tells → (s : State) → StandsFor host.old.engine s → Throughout (P.history station.old) (P.history station.new) (CrashAnswers (P.history station.old) s (capped true (S.left source.old))) }
    // However it ends, and whatever the records stand for, the file stays a store whose records keep the rules.
    ensures sound { P.tells → Throughout (P.history station.old) (P.history station.new) CrashSound }
    ensures source_later { S.faults source.old ≤ S.faults source.new }
    ensures source_failed { IsErrOf result SourceFault → Rises (S.faults source.old) (S.faults source.new) }
    ensures source_kept { OnOk result (S.faults source.new ≡ S.faults source.old) }
    ensures say_later { P.say_faults station.old ≤ P.say_faults station.new }
    ensures say_failed { IsErrOf result SayFault → Rises (P.say_faults station.old) (P.say_faults station.new) }
    ensures say_kept { OnOk result (P.say_faults station.new ≡ P.say_faults station.old) }
    ensures disk_later { P.disk_faults station.old ≤ P.disk_faults station.new }
    ensures disk_failed { IsErrOf result DiskFault → Rises (P.disk_faults station.old) (P.disk_faults station.new) }
    ensures disk_kept { OnOk result (P.disk_faults station.new ≡ P.disk_faults station.old) }
    ensures disk_spared { IsErrOf result NoMemory → P.disk_faults station.new ≡ P.disk_faults station.old }
    ensures unchanged { P.tells → IsErrOf result Changed → ⊥ }
    ensures of_script { IfErr result IsOfScript }
{
    let mut piece = [0; PIECE_BYTES];
    let mut taken = 0;
    'pieces: loop {
        // At the limit one byte more is asked for, to see whether it is the end.
        let room = (INPUT_LIMIT - taken).clamp(1, PIECE_BYTES);
        let into = &mut piece[..room];
        let count = source.take(into)?;
        if count == 0 {
            return host.finish(alloc, station);
        }
        if taken == INPUT_LIMIT {
            return Err(Stop::InputLimit);
        }
        host.feed(alloc, station, &into[..count])?;
        taken += count;
    }
}
