//! What a kept closure may be asked and may answer.
ghost use Rattle.std.specs.Fn.{FnReturnsAt};
ghost use Rattle.wm_base.specs.declared.row.Row.{Row as RowOf};
ghost use Rattle.wm_base.specs.declared.truth.Truth.{Truth as TruthOf};
ghost use Rattle.wm_rowtest.specs.Calls.{MayTakeAt};

use wm_base::{Row, Truth};

/// What judges rows. Every closure from a row to a truth does; the trait says where it may be called and what it may
/// answer, so that a type which keeps the closure can keep facts about it too.
pub trait Judge {
    /// Where it may be asked.
    ghost may: { Self → RowOf → Type 0 };

    /// What it may answer.
    ghost gives: { Self → RowOf → TruthOf → Type 0 };

    fn judge(&self, row: &Row) -> Truth
        requires { ∥ may self.now row.now ∥₁ }
        ensures { gives self.now row.now result };
}

impl<F: Fn(&Row) -> Truth> Judge for F {
    ghost may = { λ f row. MayTakeAt F.Fn f row };

    ghost gives = { λ f row truth. FnReturnsAt F.Fn f row truth };

    fn judge(&self, row: &Row) -> Truth
        requires { MayTakeAt F.Fn self.now row.now }
        ensures { FnReturnsAt F.Fn self.now row.now result }
    {
        self(row)
    }
}
