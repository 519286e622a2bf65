//! Saying the whole of an answer.
ghost use Rattle.std.specs.Prelude.{◌≡◌, ◌≤◌, IfErr, OnOk, OnErr, IsErrOf};
ghost use Rattle.wm_station.specs.Cause.{Rises};
ghost use Rattle.wm_station.specs.Moments.{During};
ghost use Rattle.wm_host.specs.Cause.{IsOfSaying};
ghost use Rattle.wm_host.specs.Crash.{CrashSays};
ghost use Rattle.wm_host.specs.Saying.{OnlySaid, SaidPart};
ghost use Rattle.wm_host.specs.declared.stop.Stop.TheVariants.{SayFault};

use crate::stop::Stop;
use wm_station::Station;

/// Says all the bytes, in as many pieces as the station takes them.
pub(crate) fn say_all<P: Station>(station: &mut P, bytes: &[u8]) -> Result<(), Stop>
    ensures said { P.tells → OnOk result (OnlySaid (P.history station.old) (P.history station.new) bytes.now) }
    ensures part { OnErr result (SaidPart P.tells (P.history station.old) (P.history station.new) bytes.now) }
    ensures crash { P.tells → During (P.history station.old) (P.history station.new) (CrashSays (P.history station.old) bytes.now) }
    ensures later { P.say_faults station.old ≤ P.say_faults station.new }
    ensures quiet { P.disk_faults station.new ≡ P.disk_faults station.old }
    ensures failed { IsErrOf result SayFault → Rises (P.say_faults station.old) (P.say_faults station.new) }
    ensures kept { OnOk result (P.say_faults station.new ≡ P.say_faults station.old) }
    ensures answering { IfErr result IsOfSaying }
{
    let mut rest = bytes;
    while !rest.is_empty() {
        let count = station.say(rest)?;
        if count == 0 {
            return Err(Stop::SayFault);
        }
        let (_, left) = rest.split_at(count);
        rest = left;
    }
    Ok(())
}
