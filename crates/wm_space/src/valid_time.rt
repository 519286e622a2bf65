//! SetValidTime.
ghost use Rattle.std.specs.Prelude.{◌≡◌, IfOk};
ghost use Rattle.wm_ground.specs.Outcomes.{outcome_view};
ghost use Rattle.wm_model.specs.Step.{outcome, set_valid_time_plan};

use std::alloc::Global;
use wm_base::{Instant, Memory, Period};
use wm_calls::moment_given;
use wm_grammar::{Parameter, Procedure};
use wm_ground::outcome::{answered, setting};
use wm_plan::given::fault_of;
use wm_plan::planned::Planned;
use wm_plan::refuse::{empty_period, mistyped};
use wm_plan::session::{Session, Setting};
use wm_syntax::statement::Arg;

/// SetValidTime sets the period in which the session sees rows of tables with valid time and changes them; without a first
/// moment it sets none.
pub fn set_valid_time_plan(
    alloc: Global,
    session: &Session,
    args: &[Arg],
) -> Result<Planned, Memory>
    ensures { IfOk result (λ p. outcome_view p ≡ outcome (set_valid_time_plan session.now args.now)) }
{
    if let Some(parameter) = fault_of(alloc, Procedure::SetValidTime, args)? {
        return Ok(answered(alloc, mistyped(parameter)));
    }
    let Some(from) = moment_given(Procedure::SetValidTime, args, Parameter::ValidFrom) else {
        return setting(alloc, session, Setting::Period(None));
    };
    let till = moment_given(Procedure::SetValidTime, args, Parameter::ValidTill);
    match Period::new(from, till.unwrap_or(Instant::end())) {
        Some(period) => setting(alloc, session, Setting::Period(Some(period))),
        None => Ok(answered(alloc, empty_period())),
    }
}
