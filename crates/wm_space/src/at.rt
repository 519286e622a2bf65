//! AT.
ghost use Rattle.std.specs.Prelude.{◌≡◌, ◌<◌, List, [], true};
ghost use Rattle.wm_base.specs.declared.instant.TheConstants.{END};
ghost use Rattle.wm_plan.specs.Idle.{StaysAt};
ghost use Rattle.wm_plan.specs.Planning.{DoesTimed};
ghost use Rattle.wm_plan.specs.declared.seating.Seating.TheVariants.{Stay};
ghost use Rattle.wm_graph.specs.Parts.{parts_of};
ghost use Rattle.wm_graph.specs.Rules.{keep_rules};
ghost use Rattle.wm_model.specs.Step.{set_moment};
ghost use Rattle.wm_spec.specs.declared.record.stored.Stored.{Stored};
ghost use Rattle.wm_state.specs.State.{Session};

use std::alloc::Global;
use wm_base::Instant;
use wm_plan::answer::Answer;
use wm_plan::planned::Timed;
use wm_plan::refuse::moment_back;

/// AT sets the moment, and never back.
pub fn at_moment(alloc: Global, moment: u64, instant: Instant) -> Timed
    requires moment { moment < END }
    requires instant { instant < END }
    ensures does { (rs : List Stored) (xs : List Session) → keep_rules (parts_of rs) ≡ true → DoesTimed rs xs moment result (set_moment instant) }
    ensures moment { result.moment < END }
    ensures edits { result.planned.edits.items ≡ [] }
    ensures seating { result.planned.seating ≡ Stay }
    // A refused one does not move it.
    ensures stays { StaysAt moment result }
{
    let next = instant.seconds();
    if next < moment {
        let now = Instant::new(moment).unwrap();
        return Timed::answered(alloc, moment, moment_back(now));
    }
    Timed::answered(alloc, next, Answer::Fine)
}
