//! How a line is refused whose counter is at its end.
ghost use Rattle.std.specs.Prelude.{◌≡◌, [], IfOk};
ghost use Rattle.wm_model.specs.Step.{at_its_end};
ghost use Rattle.wm_plan.specs.Forks.{AreForks};
ghost use Rattle.wm_plan.specs.Idle.{Idles};
ghost use Rattle.wm_plan.specs.Views.{answer_view};
ghost use Rattle.wm_plan.specs.declared.seating.Seating.TheVariants.{Stay};

use std::alloc::Global;
use wm_base::Memory;
use wm_plan::planned::Planned;
use wm_plan::refuse::at_its_end;

/// The plan of a line that is refused since the counter of this name is at its end.
pub fn ended(alloc: Global, counter: &[u8]) -> Result<Planned, Memory>
    ensures edits { IfOk result (λ p. p.edits.items ≡ []) }
    ensures seating { IfOk result (λ p. p.seating ≡ Stay) }
    ensures answer { IfOk result (λ p. answer_view p.answer ≡ at_its_end counter.now) }
    ensures idle { IfOk result Idles }
    ensures few { IfOk result AreForks }
{
    Ok(Planned::answered(alloc, at_its_end(alloc, counter)?))
}
