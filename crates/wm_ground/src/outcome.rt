//! What comes of a plan.
ghost use Rattle.std.specs.Prelude.{◌≡◌, [], ◌∷◌, Some, IfOk};
ghost use Rattle.wm_ground.specs.Outcomes.{outcome_view};
ghost use Rattle.wm_model.specs.Planning.{Set, Stay};
ghost use Rattle.wm_model.specs.Step.{barred_outcome, is_before, refused_with};
ghost use Rattle.wm_plan.specs.Stands.{setting_view};
ghost use Rattle.wm_plan.specs.Views.{answer_view, seating_view};
ghost use Rattle.wm_print.specs.Texts.{Fine};

use crate::places::place;
use std::alloc::Global;
use wm_base::{Memory, Refusal};
use wm_plan::answer::Answer;
use wm_plan::planned::Planned;
use wm_plan::seating::Seating;
use wm_plan::session::{Session, Setting};
use wm_state::edit::Edit;

/// The answer alone: nothing changes.
pub fn answered(alloc: Global, answer: Answer) -> Planned
    ensures { outcome_view result ≡ record { edits = []; seating = Stay; answer = answer_view answer } }
{
    Planned::answered(alloc, answer)
}

/// That the line is refused.
pub fn refused(alloc: Global, refusal: Refusal) -> Planned
    ensures { outcome_view result ≡ refused_with refusal }
{
    Planned::answered(alloc, Answer::Refused(refusal))
}

/// One edit.
pub fn done(alloc: Global, edit: Edit) -> Result<Planned, Memory>
    ensures { IfOk result (λ p. outcome_view p ≡ record { edits = edit ∷ []; seating = Stay; answer = Fine }) }
{
    Planned::editing(alloc, edit, Answer::Fine)
}

/// The sessions change, and no record does.
pub fn seated(alloc: Global, seating: Seating) -> Planned
    ensures { outcome_view result ≡ record { edits = []; seating = seating_view seating; answer = Fine } }
{
    Planned::seated(alloc, seating)
}

/// Something is set of a session, and no record changes.
pub fn setting(alloc: Global, session: &Session, setting: Setting) -> Result<Planned, Memory>
    ensures { IfOk result (λ p. outcome_view p ≡ record { edits = []; seating = Set session.now.name (setting_view setting); answer = Fine }) }
{
    let name = session.name().copy(alloc)?;
    Ok(seated(alloc, Seating::Set { name, setting }))
}

/// One edit, and the sessions change.
pub fn done_seated(alloc: Global, edit: Edit, seating: Seating) -> Result<Planned, Memory>
    ensures { IfOk result (λ p. outcome_view p ≡ record { edits = edit ∷ []; seating = seating_view seating; answer = Fine }) }
{
    let mut edits = Vec::new(alloc);
    edits.push(edit)?;
    Ok(Planned {
        edits,
        seating,
        answer: Answer::Fine,
    })
}

/// Whether the answer is a refusal that is told before another one.
fn is_before(answer: &Answer, fault: &Refusal) -> bool
    ensures { result ≡ is_before (answer_view answer.now) fault.now }
{
    match answer {
        Answer::Refused(refusal) => place(refusal) < place(fault),
        _ => false,
    }
}

/// What comes of a plan that is refused for this too.
fn with_fault(alloc: Global, fault: Refusal, planned: Planned) -> Planned
    ensures { outcome_view result ≡ barred_outcome (Some fault) (outcome_view planned) }
{
    if is_before(&planned.answer, &fault) {
        drop(fault);
        return planned;
    }
    drop(planned);
    refused(alloc, fault)
}

/// What comes of a plan with a fault more.
pub fn barred(alloc: Global, fault: Option<Refusal>, planned: Planned) -> Planned
    ensures { outcome_view result ≡ barred_outcome fault (outcome_view planned) }
{
    match fault {
        Some(fault) => with_fault(alloc, fault, planned),
        None => planned,
    }
}
