//! A test of a query's condition that counts its calls, and what is found by it.
ghost use Rattle.std.specs.Prelude.{◌≡◌, true, IfSome};
ghost use Rattle.wm_base.specs.declared.row.Row.{Row as RowOf};
ghost use Rattle.wm_base.specs.declared.truth.Truth.{Truth as TruthOf};
ghost use Rattle.wm_syntax.specs.Views.{cond_view, filter_view, projection_view};
ghost use Rattle.wm_spec.specs.Conditions.{typed as is_typed, fits, truth_of};
ghost use Rattle.wm_joining.specs.Kept.{columns_of as all_columns, rows_fit as do_fit, where_of as where_is};
ghost use Rattle.wm_select.specs.Query.{projection_lasts as items_last};

use crate::choosing::{all_fit, answers_first, chooses_first};
use std::alloc::Global;
use std::cell::Cell;
use wm_base::{Row, Truth};
use wm_expr::{truth, typed};
use wm_listing::{Columns, Listings};
use wm_rowtest::{Judge, RowTest};
use wm_syntax::cond::Cond;
use wm_syntax::query::{Projection, Query};

/// The columns of the only table, and None where there is not just one.
fn columns_of(alloc: Global, tables: &Listings) -> Option<Columns>
    ensures { IfSome result (λ columns. columns ≡ all_columns tables.now) }
{
    match tables.as_slice() {
        [table] => table.columns.copy(alloc).ok(),
        _ => None,
    }
}

/// Whether each row of a listing fits its columns.
fn rows_fit(tables: &Listings) -> bool
    ensures { result ≡ do_fit tables.now }
{
    tables
        .as_slice()
        .iter()
        .all(|table| all_fit(&table.columns, table.rows.as_slice()))
}

/// Whether the first row is found by a test that is made of the closure.
fn found_by<F: Fn(&Row) -> Truth + Judge + Drop>(
    alloc: Global,
    query: &Query,
    tables: Listings,
    cond: &Cond,
    columns: &Columns,
    test: F,
) -> bool
    requires typed { is_typed (cond_view cond.now) columns.now ≡ true }
    requires callable { (row : RowOf) → fits columns.now row ≡ true → ∥ F.may test row ∥₁ }
    requires answers { (row : RowOf) (truth : TruthOf) → fits columns.now row ≡ true → F.gives test row truth → truth ≡ truth_of (cond_view cond.now) columns.now row }
    requires condition { cond_view cond.now ≡ where_is (filter_view query.now.filter) }
    requires columns { columns.now ≡ all_columns tables }
    requires fitting { do_fit tables ≡ true }
    requires lasting { items_last (projection_view query.now.projection) ≡ true }
{
    let test = RowTest::new(cond, columns, test);
    let is_chosen = chooses_first(alloc, &test);
    let is_answered = answers_first(alloc, query, tables, &test);
    is_chosen && is_answered
}

/// Whether it is found where the condition is that of the query, which shows all columns, and the columns are those of
/// the tables.
fn found_where(
    alloc: Global,
    query: &Query,
    tables: Listings,
    cond: &Cond,
    columns: &Columns,
    calls: &Cell<u64>,
) -> bool
    requires condition { cond_view cond.now ≡ where_is (filter_view query.now.filter) }
    requires columns { columns.now ≡ all_columns tables }
{
    if typed(cond, columns) && rows_fit(&tables) && matches!(query.projection, Projection::All) {
        found_by(alloc, query, tables, cond, columns, |row: &Row| {
            calls.set(calls.get().saturating_add(1));
            truth(cond, columns, row)
        })
    } else {
        false
    }
}

/// Whether a change chooses the first row alone by the query's condition, and the query answers it, with the calls of
/// the test counted in the cell.
pub fn finds_first(alloc: Global, query: &Query, tables: Listings, calls: &Cell<u64>) -> bool {
    let Some(columns) = columns_of(alloc, &tables) else {
        return false;
    };
    match &query.filter {
        Some(cond) => found_where(alloc, query, tables, cond, &columns, calls),
        None => false,
    }
}
