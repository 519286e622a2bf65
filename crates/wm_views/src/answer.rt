//! What a query answers over its sources.
ghost use Rattle.std.specs.Prelude.{◌≡◌, ◌<◌, ◌≤◌, length, true, None, Some, IfOk};
ghost use Rattle.std.specs.Option.{IsSomeAnd};
ghost use Rattle.std.specs.Result.{IsErrOf};
ghost use Rattle.wm_base.specs.declared.row.Row.{Row as RowOf};
ghost use Rattle.wm_base.specs.declared.truth.Truth.{Truth as TruthOf};
ghost use Rattle.wm_syntax.specs.Views.{cond_view, filter_view, query_view};
ghost use Rattle.wm_model.specs.Step.{answer_rows};
ghost use Rattle.wm_plan.specs.Views.{answer_view};
ghost use Rattle.wm_select.specs.Query.{answer_of, projection_lasts, row_limit};
ghost use Rattle.wm_joining.specs.Kept.{columns_of, rows_fit, where_of};
ghost use Rattle.wm_spec.specs.Conditions.{fits, truth_of, typed};

use std::alloc::Global;
use wm_base::{Memory, Row, Truth};
use wm_expr::truth;
use wm_listing::{Columns, Listings, RowList};
use wm_plan::answer::Answer;
use wm_plan::refuse::{most_rows, out_of_range};
use wm_rowtest::{Judge, RowTest};
use wm_select::SelectFault;
use wm_syntax::cond::{Cmp, Cond};
use wm_syntax::constant::Const;
use wm_syntax::operand::Operand;
use wm_syntax::query::Query;

/// What stands for a WHERE that is not there: 1 = 1.
fn always() -> Cond
    ensures { cond_view result ≡ where_of None }
{
    Cond::Compare {
        left: Operand::Const(Const::Num(1)),
        cmp: Cmp::Eq,
        right: Operand::Const(Const::Num(1)),
    }
}

/// The rows that a query answers over its sources, its condition being judged by the closure.
fn rows_by<F: Fn(&Row) -> Truth + Judge + Drop>(
    alloc: Global,
    query: &Query,
    cond: &Cond,
    columns: &Columns,
    listings: Listings,
    test: F,
) -> Result<RowList, SelectFault>
    requires condition { cond_view cond.now ≡ where_of (filter_view query.now.filter) }
    requires typed { typed (cond_view cond.now) columns.now ≡ true }
    requires columns { columns.now ≡ columns_of listings }
    requires fitting { rows_fit listings ≡ true }
    requires lasting { projection_lasts (query_view query.now).projection ≡ true }
    requires callable { (row : RowOf) → fits columns.now row ≡ true → ∥ F.may test row ∥₁ }
    requires answers { (row : RowOf) (truth : TruthOf) → fits columns.now row ≡ true → F.gives test row truth → truth ≡ truth_of (cond_view cond.now) columns.now row }
    ensures ok { IfOk result (λ rows. answer_of (query_view query.now) listings ≡ Some rows) }
    ensures within { IfOk result (λ rows. length rows ≤ row_limit) }
    ensures out_of_range { IsErrOf result SelectFault.OutOfRange → answer_of (query_view query.now) listings ≡ None }
    ensures too_many { IsErrOf result SelectFault.TooMany → IsSomeAnd (answer_of (query_view query.now) listings) (λ rows. row_limit < length rows) }
{
    let test = RowTest::new(cond, columns, test);
    wm_select::select(alloc, query, listings, &test)
}

/// The rows that a query answers over its sources, with the condition of its WHERE.
fn rows_with(
    alloc: Global,
    query: &Query,
    cond: &Cond,
    columns: &Columns,
    listings: Listings,
) -> Result<RowList, SelectFault>
    requires condition { cond_view cond.now ≡ where_of (filter_view query.now.filter) }
    requires typed { typed (cond_view cond.now) columns.now ≡ true }
    requires columns { columns.now ≡ columns_of listings }
    requires fitting { rows_fit listings ≡ true }
    requires lasting { projection_lasts (query_view query.now).projection ≡ true }
    ensures ok { IfOk result (λ rows. answer_of (query_view query.now) listings ≡ Some rows) }
    ensures within { IfOk result (λ rows. length rows ≤ row_limit) }
    ensures out_of_range { IsErrOf result SelectFault.OutOfRange → answer_of (query_view query.now) listings ≡ None }
    ensures too_many { IsErrOf result SelectFault.TooMany → IsSomeAnd (answer_of (query_view query.now) listings) (λ rows. row_limit < length rows) }
{
    rows_by(
        alloc,
        query,
        cond,
        columns,
        listings,
        |row: &Row| truth(cond, columns, row),
    )
}

/// What a query answers over its sources, with the condition of its WHERE.
fn answer_with(
    alloc: Global,
    query: &Query,
    cond: &Cond,
    columns: &Columns,
    listings: Listings,
) -> Result<Answer, Memory>
    requires condition { cond_view cond.now ≡ where_of (filter_view query.now.filter) }
    requires typed { typed (cond_view cond.now) columns.now ≡ true }
    requires columns { columns.now ≡ columns_of listings }
    requires fitting { rows_fit listings ≡ true }
    requires lasting { projection_lasts (query_view query.now).projection ≡ true }
    ensures { IfOk result (λ a. answer_view a ≡ answer_rows (answer_of (query_view query.now) listings)) }
{
    match rows_with(alloc, query, cond, columns, listings) {
        Ok(rows) => Ok(Answer::Listing(rows)),
        Err(SelectFault::OutOfRange) => Ok(out_of_range()),
        Err(SelectFault::TooMany) => Ok(most_rows()),
        Err(SelectFault::Memory) => Err(Memory),
    }
}

/// What a query answers over its sources.
pub fn answer(
    alloc: Global,
    query: &Query,
    columns: &Columns,
    listings: Listings,
) -> Result<Answer, Memory>
    requires typed { typed (where_of (filter_view query.now.filter)) columns.now ≡ true }
    requires columns { columns.now ≡ columns_of listings }
    requires fitting { rows_fit listings ≡ true }
    requires lasting { projection_lasts (query_view query.now).projection ≡ true }
    ensures { IfOk result (λ a. answer_view a ≡ answer_rows (answer_of (query_view query.now) listings)) }
{
    match &query.filter {
        Some(cond) => answer_with(alloc, query, cond, columns, listings),
        None => {
            let always = always();
            let given = answer_with(alloc, query, &always, columns, listings);
            drop(always);
            given
        }
    }
}
