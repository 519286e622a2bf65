//! What takes the bytes of a script one by one, and answers each line as it ends.
ghost use Rattle.std.specs.Prelude.{◌≡◌, ◌+◌, ◌^◌, ◌<◌, ◌≤◌, ◌⊎◌, [], ◌∷◌, length, OnOk, OnErr, IfOk, IsErrOf, IfErr, true};
ghost use Rattle.wm_engine.specs.Working.{FileStands, IsSound, StandsFor};
ghost use Rattle.wm_model.specs.Lines.{HasNoLf, capped};
ghost use Rattle.wm_model.specs.Step.{step};
ghost use Rattle.wm_state.specs.State.{State};
ghost use Rattle.wm_station.specs.Cause.{Rises};
ghost use Rattle.wm_station.specs.Moments.{Ended};
ghost use Rattle.wm_host.specs.Cause.{IsOfAnswers, IsOfRunning};
ghost use Rattle.wm_host.specs.Crash.{Throughout, CrashLine, CrashRuns, CrashAnswers, CrashSound};
ghost use Rattle.wm_host.specs.Hosting.{line_of, Answers, Unanswered, Says, Breaks, Finishes, Halts, WorksSoundly};
ghost use Rattle.wm_host.specs.Loading.{RunsLine};
ghost use Rattle.wm_host.specs.declared.stop.Stop.TheVariants.{SayFault, DiskFault, Changed, Memory as NoMemory};

use crate::line::LineBuffer;
use crate::say::say_all;
use crate::stop::Stop;
use std::alloc::Global;
use wm_engine::{Engine, Kind};
use wm_station::Station;

/// The engine, what is held of the line that has not ended yet, and how many lines were answered whole; where
/// nothing is said, how many were run.
#[derive(Drop)]
pub(crate) struct Host {
    engine: Engine,
    line: LineBuffer,
    pub(crate) lines: u64,
}

impl Host {
    /// Stands before a script.
    pub(crate) fn new(alloc: Global, engine: Engine) -> Host
        ensures engine { result.engine ≡ engine }
        ensures held { result.line ≡ [] }
        ensures none { result.lines ≡ 0 }
    {
        Host {
            engine,
            line: LineBuffer::new(alloc),
            lines: 0,
        }
    }

    /// Runs the line that is held, and says its answer. What it changes is kept before anything is said.
    fn end_line<P: Station>(&mut self, alloc: Global, station: &mut P) -> Result<(), Stop>
        requires room { self.old.lines + 1 < 2 ^ 64 }
        requires works { P.tells → WorksSoundly self.old.engine (P.history station.old) }
        ensures ok { OnOk result (Answers P.tells (P.history station.old) (P.history station.new) self.old self.new) }
        ensures err { OnErr result (Unanswered P.tells (P.history station.old) (P.history station.new) self.old self.new) }
        ensures crash { P.tells → (s : State) → StandsFor self.old.engine s → Throughout (P.history station.old) (P.history station.new) (CrashLine (P.history station.old) s (line_of self.old)) }
        ensures sound { P.tells → Throughout (P.history station.old) (P.history station.new) CrashSound }
        ensures say_later { P.say_faults station.old ≤ P.say_faults station.new }
        ensures say_failed { IsErrOf result SayFault → Rises (P.say_faults station.old) (P.say_faults station.new) }
        ensures say_kept { OnOk result (P.say_faults station.new ≡ P.say_faults station.old) }
        ensures disk_later { P.disk_faults station.old ≤ P.disk_faults station.new }
        ensures disk_failed { IsErrOf result DiskFault → Rises (P.disk_faults station.old) (P.disk_faults station.new) }
        ensures disk_kept { OnOk result (P.disk_faults station.new ≡ P.disk_faults station.old) }
        ensures disk_spared { IsErrOf result NoMemory → P.disk_faults station.new ≡ P.disk_faults station.old }
        ensures unchanged { P.tells → IsErrOf result Changed → ⊥ }
        ensures answering { IfErr result IsOfAnswers }
    {
        let answer = self.engine.line(alloc, station, self.line.line())?;
        let said = say_all(station, answer.bytes.as_slice());
        drop(answer);
        said?;
        self.line.clear();
        self.lines += 1;
        Ok(())
    }

    /// Takes a byte, and answers the line that it ends.
    fn take_byte<P: Station>(
        &mut self,
        alloc: Global,
        station: &mut P,
        byte: u8,
    ) -> Result<(), Stop>
        requires room { self.old.lines + 1 < 2 ^ 64 }
        requires no_lf { HasNoLf self.old.line }
        requires works { P.tells → WorksSoundly self.old.engine (P.history station.old) }
        ensures ok { OnOk result (Says P.tells (P.history station.old) (P.history station.new) self.old (byte ∷ []) self.new) }
        ensures err { OnErr result (Breaks P.tells (P.history station.old) (P.history station.new) self.old (byte ∷ []) self.new) }
        ensures crash { P.tells → (s : State) → StandsFor self.old.engine s → Throughout (P.history station.old) (P.history station.new) (CrashRuns (P.history station.old) s self.old (byte ∷ [])) }
        ensures sound { P.tells → Throughout (P.history station.old) (P.history station.new) CrashSound }
        ensures say_later { P.say_faults station.old ≤ P.say_faults station.new }
        ensures say_failed { IsErrOf result SayFault → Rises (P.say_faults station.old) (P.say_faults station.new) }
        ensures say_kept { OnOk result (P.say_faults station.new ≡ P.say_faults station.old) }
        ensures disk_later { P.disk_faults station.old ≤ P.disk_faults station.new }
        ensures disk_failed { IsErrOf result DiskFault → Rises (P.disk_faults station.old) (P.disk_faults station.new) }
        ensures disk_kept { OnOk result (P.disk_faults station.new ≡ P.disk_faults station.old) }
        ensures disk_spared { IsErrOf result NoMemory → P.disk_faults station.new ≡ P.disk_faults station.old }
        ensures unchanged { P.tells → IsErrOf result Changed → ⊥ }
        ensures answering { IfErr result IsOfAnswers }
    {
        if byte == b'\n' {
            return self.end_line(alloc, station);
        }
        self.line.push(byte)?;
        Ok(())
    }

    /// Takes a piece of the script, and answers each line that ends in it.
    pub(crate) fn feed<P: Station>(
        &mut self,
        alloc: Global,
        station: &mut P,
        bytes: &[u8],
    ) -> Result<(), Stop>
        requires room { self.old.lines + length bytes.now < 2 ^ 64 }
        requires no_lf { HasNoLf self.old.line }
        requires works { P.tells → WorksSoundly self.old.engine (P.history station.old) }
        ensures ok { OnOk result (Says P.tells (P.history station.old) (P.history station.new) self.old bytes.now self.new) }
        ensures err { OnErr result (Breaks P.tells (P.history station.old) (P.history station.new) self.old bytes.now self.new) }
        ensures crash { P.tells → (s : State) → StandsFor self.old.engine s → Throughout (P.history station.old) (P.history station.new) (CrashRuns (P.history station.old) s self.old bytes.now) }
        ensures sound { P.tells → Throughout (P.history station.old) (P.history station.new) CrashSound }
        ensures say_later { P.say_faults station.old ≤ P.say_faults station.new }
        ensures say_failed { IsErrOf result SayFault → Rises (P.say_faults station.old) (P.say_faults station.new) }
        ensures say_kept { OnOk result (P.say_faults station.new ≡ P.say_faults station.old) }
        ensures disk_later { P.disk_faults station.old ≤ P.disk_faults station.new }
        ensures disk_failed { IsErrOf result DiskFault → Rises (P.disk_faults station.old) (P.disk_faults station.new) }
        ensures disk_kept { OnOk result (P.disk_faults station.new ≡ P.disk_faults station.old) }
        ensures disk_spared { IsErrOf result NoMemory → P.disk_faults station.new ≡ P.disk_faults station.old }
        ensures unchanged { P.tells → IsErrOf result Changed → ⊥ }
        ensures answering { IfErr result IsOfAnswers }
    {
        for byte in bytes {
            self.take_byte(alloc, station, *byte)?;
        }
        Ok(())
    }

    /// Answers the last line at the end of the script, where no LF ended it.
    pub(crate) fn finish<P: Station>(&mut self, alloc: Global, station: &mut P) -> Result<(), Stop>
        requires room { self.old.lines + 1 < 2 ^ 64 }
        requires no_lf { HasNoLf self.old.line }
        requires works { P.tells → WorksSoundly self.old.engine (P.history station.old) }
        ensures ok { OnOk result (Finishes P.tells (P.history station.old) (P.history station.new) self.old (capped true self.old.line) self.new) }
        ensures err { OnErr result (Halts P.tells (P.history station.old) (P.history station.new) self.old (capped true self.old.line) self.new) }
        ensures crash { P.tells → (s : State) → StandsFor self.old.engine s → Throughout (P.history station.old) (P.history station.new) (CrashAnswers (P.history station.old) s (capped true self.old.line)) }
        ensures sound { P.tells → Throughout (P.history station.old) (P.history station.new) CrashSound }
        ensures say_later { P.say_faults station.old ≤ P.say_faults station.new }
        ensures say_failed { IsErrOf result SayFault → Rises (P.say_faults station.old) (P.say_faults station.new) }
        ensures say_kept { OnOk result (P.say_faults station.new ≡ P.say_faults station.old) }
        ensures disk_later { P.disk_faults station.old ≤ P.disk_faults station.new }
        ensures disk_failed { IsErrOf result DiskFault → Rises (P.disk_faults station.old) (P.disk_faults station.new) }
        ensures disk_kept { OnOk result (P.disk_faults station.new ≡ P.disk_faults station.old) }
        ensures disk_spared { IsErrOf result NoMemory → P.disk_faults station.new ≡ P.disk_faults station.old }
        ensures unchanged { P.tells → IsErrOf result Changed → ⊥ }
        ensures answering { IfErr result IsOfAnswers }
    {
        if self.line.is_empty() {
            return Ok(());
        }
        self.end_line(alloc, station)
    }

    /// Runs a line and keeps what it changes, and says nothing: tells the kind of its answer.
    pub(crate) fn run_line<P: Station>(
        &mut self,
        alloc: Global,
        station: &mut P,
        line: &[u8],
    ) -> Result<Kind, Stop>
        requires room { self.old.lines + 1 < 2 ^ 64 }
        requires works { P.tells → WorksSoundly self.old.engine (P.history station.old) }
        ensures ok { IfOk result (λ kind. RunsLine P.tells (P.history station.new) self.old self.new line.now kind) }
        ensures err { OnErr result (self.new.lines ≡ self.old.lines) }
        ensures any_moment { P.tells → (s : State) → StandsFor self.old.engine s → Ended (P.history station.old) (P.history station.new) (λ file. FileStands file s ⊎ FileStands file (step s line.now).0) }
        ensures sound { P.tells → Ended (P.history station.old) (P.history station.new) IsSound }
        ensures say_quiet { P.say_faults station.new ≡ P.say_faults station.old }
        ensures disk_later { P.disk_faults station.old ≤ P.disk_faults station.new }
        ensures disk_failed { IsErrOf result DiskFault → Rises (P.disk_faults station.old) (P.disk_faults station.new) }
        ensures disk_kept { OnOk result (P.disk_faults station.new ≡ P.disk_faults station.old) }
        ensures disk_spared { IsErrOf result NoMemory → P.disk_faults station.new ≡ P.disk_faults station.old }
        ensures unchanged { P.tells → IsErrOf result Changed → ⊥ }
        ensures running { IfErr result IsOfRunning }
    {
        let reply = self.engine.line(alloc, station, line)?;
        self.lines += 1;
        let kind = reply.kind;
        drop(reply);
        Ok(kind)
    }
}
