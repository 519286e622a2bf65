//! A condition that is kept with the closure that answers it.
ghost use Rattle.std.specs.Prelude.{◌≡◌, true};
ghost use Rattle.wm_base.specs.declared.row.Row.{Row as RowOf};
ghost use Rattle.wm_base.specs.declared.truth.Truth.{Truth as TruthOf};
ghost use Rattle.wm_syntax.specs.Views.{cond_view};
ghost use Rattle.wm_spec.specs.Conditions.{typed, fits, truth_of, is_yes};

use crate::judge::Judge;
use wm_base::{Row, Truth};
use wm_listing::Columns;
use wm_syntax::cond::Cond;

/// A borrowed condition over the rows of some columns, with a closure that answers it: on each row that fits the
/// columns the closure may be called, and what it answers is how true the condition is there.
#[derive(Drop)]
pub struct RowTest<'a, F: Fn(&Row) -> Truth + Judge> {
    cond: &'a Cond,
    columns: &'a Columns,
    test: F,
    ghost callable: { (row : RowOf) → fits columns.now row ≡ true → ∥ F.may test row ∥₁ },
    ghost answers: { (row : RowOf) (truth : TruthOf) → fits columns.now row ≡ true → F.gives test row truth → truth ≡ truth_of (cond_view cond.now) columns.now row },
}

impl<'a, F: Fn(&Row) -> Truth + Judge> RowTest<'a, F> {
    /// The test of a condition that is typed for the columns, which the closure answers on each row that fits them.
    pub fn new(cond: &'a Cond, columns: &'a Columns, test: F) -> RowTest<'a, F>
        requires typed { typed (cond_view cond.now) columns.now ≡ true }
        requires callable { (row : RowOf) → fits columns.now row ≡ true → ∥ F.may test row ∥₁ }
        requires answers { (row : RowOf) (truth : TruthOf) → fits columns.now row ≡ true → F.gives test row truth → truth ≡ truth_of (cond_view cond.now) columns.now row }
        ensures { (cond_view result.cond.now ≡ cond_view cond.now) × (result.columns.now ≡ columns.now) × (result.test ≡ test) }
    {
        RowTest {
            cond,
            columns,
            test,
        }
    }

    /// The columns whose rows it judges.
    pub fn columns(&self) -> &'a Columns
        ensures { result.now ≡ self.now.columns.now }
    {
        self.columns
    }

    /// Whether the condition is true on the row: where it is false or unknown, the row is not kept.
    pub fn keep(&self, row: &Row) -> bool
        requires { fits self.now.columns.now row.now ≡ true }
        ensures { result ≡ is_yes (truth_of (cond_view self.now.cond.now) self.now.columns.now row.now) }
    {
        self.test.judge(row) == Truth::Yes
    }
}
