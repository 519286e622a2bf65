//! What a line is answered.
ghost use Rattle.std.specs.Prelude.{◌≡◌};
ghost use Rattle.wm_plan.specs.Views.{answer_view};
ghost use Rattle.wm_model.specs.Step.Refusing.{refusal_of};

use wm_base::Refusal;
use wm_listing::RowList;

/// An answer, before it is written out.
#[derive(Drop)]
pub enum Answer {
    /// A blank or comment line is answered by no bytes.
    Nothing,
    Fine,
    /// So many rows were changed.
    Done(u64),
    Listing(RowList),
    Refused(Refusal),
}

impl Answer {
    /// The refusal that it is, if it is one.
    pub fn into_refusal(self) -> Option<Refusal>
        ensures { result ≡ refusal_of (answer_view self) }
    {
        match self {
            Answer::Refused(refusal) => Some(refusal),
            _ => None,
        }
    }
}
