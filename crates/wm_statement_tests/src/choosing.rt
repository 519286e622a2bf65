//! What a test chooses of the rows of BUD, and what a query answers by it.
ghost use Rattle.std.specs.Prelude.{◌≡◌, true};
ghost use Rattle.std.specs.List.{list_all};
ghost use Rattle.wm_syntax.specs.Views.{cond_view, filter_view, projection_view};
ghost use Rattle.wm_spec.specs.Conditions.{fits as row_fits};
ghost use Rattle.wm_joining.specs.Kept.{columns_of as all_columns, rows_fit as do_fit, where_of as where_is};
ghost use Rattle.wm_select.specs.Query.{projection_lasts as items_last};

use crate::tables::{are_first, rows};
use std::alloc::Global;
use wm_base::{Memory, Row, Truth};
use wm_dml::chosen;
use wm_expr::fits;
use wm_listing::{Columns, Listings};
use wm_rowtest::{Judge, RowTest};
use wm_select::select;
use wm_syntax::query::Query;

/// Whether each row fits the columns.
pub fn all_fit(columns: &Columns, rows: &[Row]) -> bool
    ensures { result ≡ list_all (row_fits columns.now) rows.now }
{
    rows.iter().all(|row| fits(columns, row))
}

/// The rows of BUD that the test chooses; all of them where one does not fit its columns.
fn chosen_rows<F: Fn(&Row) -> Truth + Judge>(
    alloc: Global,
    test: &RowTest<'_, F>,
) -> Result<Vec<Row>, Memory> {
    let rows = rows(alloc)?;
    if all_fit(test.columns(), rows.as_slice()) {
        chosen(alloc, rows, test)
    } else {
        Ok(rows)
    }
}

/// Whether the test chooses the first row alone.
pub fn chooses_first<F: Fn(&Row) -> Truth + Judge>(alloc: Global, test: &RowTest<'_, F>) -> bool {
    match chosen_rows(alloc, test) {
        Ok(rows) => are_first(rows.as_slice()),
        Err(_) => false,
    }
}

/// Whether the query answers the first row alone by the test.
pub fn answers_first<F: Fn(&Row) -> Truth + Judge>(
    alloc: Global,
    query: &Query,
    tables: Listings,
    test: &RowTest<'_, F>,
) -> bool
    requires condition { cond_view test.now.cond.now ≡ where_is (filter_view query.now.filter) }
    requires columns { test.now.columns.now ≡ all_columns tables }
    requires fitting { do_fit tables ≡ true }
    requires lasting { items_last (projection_view query.now.projection) ≡ true }
{
    match select(alloc, query, tables, test) {
        Ok(rows) => are_first(rows.as_slice()),
        Err(_) => false,
    }
}
