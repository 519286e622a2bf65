//! Which conflicts a condition means: those whose keys it is true of.

ghost use Rattle.std.specs.Prelude.{◌≡◌, filter, true, IfOk};
ghost use Rattle.std.specs.List.{list_all};
ghost use Rattle.wm_syntax.specs.Views.{cond_view, filter_view};
ghost use Rattle.wm_base.specs.declared.row.Row.{Row as RowOf};
ghost use Rattle.wm_base.specs.declared.truth.Truth.{Truth as TruthOf};
ghost use Rattle.wm_decided.specs.Keys.{key_as_row};
ghost use Rattle.wm_dml.specs.Changing.{meets};
ghost use Rattle.wm_pending.specs.declared.clash.Conflict.{Conflict as ConflictOf};
ghost use Rattle.wm_spec.specs.Conditions.{fits, is_yes, truth_of, typed};
ghost use Rattle.wm_typing.specs.Types.{is_filter_typed};

use std::alloc::Global;
use wm_base::{Memory, Row, Truth};
use wm_decided::keyed::key_as_row;
use wm_expr::truth;
use wm_listing::Columns;
use wm_pending::clash::Conflict;
use wm_rowtest::{Judge, RowTest};
use wm_syntax::cond::Cond;

/// The conflicts whose keys the test keeps, in order.
fn kept<F: Fn(&Row) -> Truth + Judge>(
    alloc: Global,
    found: Vec<Conflict>,
    test: &RowTest<'_, F>,
) -> Result<Vec<Conflict>, Memory>
    requires { list_all (λ (c : ConflictOf). fits test.now.columns.now (key_as_row c.key)) found.items ≡ true }
    ensures { IfOk result (λ kept. kept.items ≡ filter (λ (c : ConflictOf). is_yes (truth_of (cond_view test.now.cond.now) test.now.columns.now (key_as_row c.key))) found.items) }
{
    let mut kept = Vec::new(alloc);
    for conflict in found {
        let row = key_as_row(alloc, &conflict.key)?;
        if test.keep(&row) {
            kept.push(conflict)?;
        }
    }
    Ok(kept)
}

/// The conflicts on whose keys a condition is true, in order. The closure answers the condition.
fn kept_by<F: Fn(&Row) -> Truth + Judge + Drop>(
    alloc: Global,
    cond: &Cond,
    columns: &Columns,
    found: Vec<Conflict>,
    test: F,
) -> Result<Vec<Conflict>, Memory>
    requires typed { typed (cond_view cond.now) columns.now ≡ true }
    requires fitting { list_all (λ (c : ConflictOf). fits columns.now (key_as_row c.key)) found.items ≡ true }
    requires callable { (row : RowOf) → fits columns.now row ≡ true → ∥ F.may test row ∥₁ }
    requires answers { (row : RowOf) (truth : TruthOf) → fits columns.now row ≡ true → F.gives test row truth → truth ≡ truth_of (cond_view cond.now) columns.now row }
    ensures { IfOk result (λ kept. kept.items ≡ filter (λ (c : ConflictOf). is_yes (truth_of (cond_view cond.now) columns.now (key_as_row c.key))) found.items) }
{
    let test = RowTest::new(cond, columns, test);
    kept(alloc, found, &test)
}

/// The conflicts that a condition means, in order: those on whose keys it is true, and all where there is none.
pub fn meant(
    alloc: Global,
    columns: &Columns,
    condition: &Option<Cond>,
    found: Vec<Conflict>,
) -> Result<Vec<Conflict>, Memory>
    requires typed { is_filter_typed columns.now (filter_view condition.now) ≡ true }
    requires fitting { list_all (λ (c : ConflictOf). fits columns.now (key_as_row c.key)) found.items ≡ true }
    ensures { IfOk result (λ meant. meant.items ≡ filter (λ (c : ConflictOf). meets (filter_view condition.now) columns.now (key_as_row c.key)) found.items) }
{
    match condition {
        Some(cond) => kept_by(
            alloc,
            cond,
            columns,
            found,
            |row: &Row| truth(cond, columns, row),
        ),
        None => Ok(found),
    }
}
