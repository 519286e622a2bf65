//! What a line does, worked out before anything changes.
ghost use Rattle.std.specs.Prelude.{◌≡◌, ◌∷◌, [], IfOk};
ghost use Rattle.wm_plan.specs.declared.answer.Answer.TheVariants.{Fine};
ghost use Rattle.wm_plan.specs.declared.seating.Seating.TheVariants.{Stay};

use crate::answer::Answer;
use crate::seating::Seating;
use std::alloc::Global;
use wm_base::Memory;
use wm_state::edit::Edit;

/// What a line makes of the state, and what it is answered.
#[derive(Drop)]
pub struct Planned {
    /// What it makes of the state that the records stand for.
    pub edits: Vec<Edit>,
    /// What becomes of the sessions.
    pub seating: Seating,
    pub answer: Answer,
}

impl Planned {
    /// The answer alone: nothing changes.
    pub fn answered(alloc: Global, answer: Answer) -> Planned
        ensures edits { result.edits.items ≡ [] }
        ensures seating { result.seating ≡ Stay }
        ensures answer { result.answer ≡ answer }
    {
        Planned {
            edits: Vec::new(alloc),
            seating: Seating::Stay,
            answer,
        }
    }

    /// The sessions change, and no record does.
    pub fn seated(alloc: Global, seating: Seating) -> Planned
        ensures edits { result.edits.items ≡ [] }
        ensures seating { result.seating ≡ seating }
        ensures answer { result.answer ≡ Fine }
    {
        Planned {
            edits: Vec::new(alloc),
            seating,
            answer: Answer::Fine,
        }
    }

    /// One edit is made.
    pub fn editing(alloc: Global, edit: Edit, answer: Answer) -> Result<Planned, Memory>
        ensures edits { IfOk result (λ p. p.edits.items ≡ edit ∷ []) }
        ensures seating { IfOk result (λ p. p.seating ≡ Stay) }
        ensures answer { IfOk result (λ p. p.answer ≡ answer) }
    {
        let mut edits = Vec::new(alloc);
        edits.push(edit)?;
        Ok(Planned {
            edits,
            seating: Seating::Stay,
            answer,
        })
    }
}

/// What a line does, and the moment behind it.
#[derive(Drop)]
pub struct Timed {
    pub planned: Planned,
    pub moment: u64,
}

impl Timed {
    /// The answer alone, and the moment: nothing else changes.
    pub fn answered(alloc: Global, moment: u64, answer: Answer) -> Timed
        ensures edits { result.planned.edits.items ≡ [] }
        ensures seating { result.planned.seating ≡ Stay }
        ensures answer { result.planned.answer ≡ answer }
        ensures moment { result.moment ≡ moment }
    {
        Timed {
            planned: Planned::answered(alloc, answer),
            moment,
        }
    }
}

/// What a line changes: the state that the records stand for, and the sessions.
#[derive(Drop)]
pub struct Changed {
    pub edits: Vec<Edit>,
    pub seating: Seating,
}
