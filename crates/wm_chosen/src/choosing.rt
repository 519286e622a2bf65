//! The rows of a table that a condition chooses.
ghost use Rattle.std.specs.Prelude.{◌≡◌, Option, true, Some, IfOk, IfSome};
ghost use Rattle.std.specs.List.{list_all};
ghost use Rattle.wm_syntax.specs.Trees.{Cond as CondTree};
ghost use Rattle.wm_base.specs.declared.row.Row.{Row as RowOf};
ghost use Rattle.wm_base.specs.declared.truth.Truth.{Truth as TruthOf};
ghost use Rattle.wm_syntax.specs.Views.{cond_view, filter_view};
ghost use Rattle.wm_dml.specs.Changing.{chosen, own_columns};
ghost use Rattle.wm_chosen.specs.Chosen.{AreChosen};
ghost use Rattle.wm_chosen.specs.Keyed.{FixesKey};
ghost use Rattle.wm_graph.specs.Parts.{parts_of, table_of};
ghost use Rattle.wm_graph.specs.Rules.{keep_rules};
ghost use Rattle.wm_joining.specs.Kept.{where_of};
ghost use Rattle.wm_spec.specs.Conditions.{fits, truth_of, typed};
ghost use Rattle.wm_spec.specs.declared.record.table.Table.{Table as TableOf};

use crate::keyed::key_asked;
use std::alloc::Global;
use wm_base::{Key, Memory, Period, Row, Truth};
use wm_dml::chosen;
use wm_expr::truth;
use wm_image::Image;
use wm_listing::{Columns, RowList};
use wm_rowtest::{Judge, RowTest};
use wm_spec::record::Table;
use wm_syntax::cond::Cond;
use wm_typing::columns_of_table;
use wm_version_rows::listing::{showing, showing_of_key};

/// The rows on which the condition is true, which the closure judges.
fn chosen_by<F: Fn(&Row) -> Truth + Judge + Drop>(
    alloc: Global,
    cond: &Cond,
    columns: &Columns,
    rows: Vec<Row>,
    test: F,
) -> Result<Vec<Row>, Memory>
    requires typed { typed (cond_view cond.now) columns.now ≡ true }
    requires fitting { list_all (fits columns.now) rows.items ≡ true }
    requires callable { (row : RowOf) → fits columns.now row ≡ true → ∥ F.may test row ∥₁ }
    requires answers { (row : RowOf) (truth : TruthOf) → fits columns.now row ≡ true → F.gives test row truth → truth ≡ truth_of (cond_view cond.now) columns.now row }
    ensures { IfOk result (λ kept. (t : TableOf) (condition : Option CondTree) → columns.now ≡ own_columns t → cond_view cond.now ≡ where_of condition → kept.items ≡ chosen t condition rows.items) }
{
    let test = RowTest::new(cond, columns, test);
    chosen(alloc, rows, &test)
}

/// The rows on which the condition is true.
fn chosen_with(
    alloc: Global,
    cond: &Cond,
    columns: &Columns,
    rows: Vec<Row>,
) -> Result<Vec<Row>, Memory>
    requires typed { typed (cond_view cond.now) columns.now ≡ true }
    requires fitting { list_all (fits columns.now) rows.items ≡ true }
    ensures { IfOk result (λ kept. (t : TableOf) (condition : Option CondTree) → columns.now ≡ own_columns t → cond_view cond.now ≡ where_of condition → kept.items ≡ chosen t condition rows.items) }
{
    chosen_by(
        alloc,
        cond,
        columns,
        rows,
        |row: &Row| truth(cond, columns, row),
    )
}

/// Those of the rows on which the condition is true, where there is one.
fn chosen_of(
    alloc: Global,
    columns: &Columns,
    filter: &Option<Cond>,
    rows: Vec<Row>,
) -> Result<Vec<Row>, Memory>
    requires typed { typed (where_of (filter_view filter.now)) columns.now ≡ true }
    requires fitting { list_all (fits columns.now) rows.items ≡ true }
    ensures { IfOk result (λ kept. (t : TableOf) → columns.now ≡ own_columns t → kept.items ≡ chosen t (filter_view filter.now) rows.items) }
{
    match filter {
        Some(cond) => chosen_with(alloc, cond, columns, rows),
        None => Ok(rows),
    }
}

/// The rows of a table that a version shows in a period. Where a key is given, only its rows are looked at.
fn rows_read(
    alloc: Global,
    image: &Image,
    version: u64,
    table: &Table,
    within: &Period,
    key: Option<Key>,
) -> Result<RowList, Memory>
    requires rules { keep_rules (parts_of image.now) ≡ true }
    requires there { table_of (parts_of image.now).tables table.now.number ≡ Some table.now }
    ensures fitting { IfOk result (λ rows. list_all (fits (own_columns table.now)) rows ≡ true) }
    // A condition that is true on no rows but those of the key chooses of all rows what it chooses of these.
    ensures chosen { IfOk result (λ rows. (condition : Option CondTree) → IfSome key (FixesKey table.now condition) → AreChosen image.now version table.now within.now condition (chosen table.now condition rows)) }
{
    match key {
        Some(key) => showing_of_key(alloc, image, version, table, within, &key),
        None => showing(alloc, image, version, table, within),
    }
}

/// The rows of a table on which the condition is true, where there is one, of those that a version shows in a period.
pub fn chosen_rows(
    alloc: Global,
    image: &Image,
    version: u64,
    table: &Table,
    within: &Period,
    filter: &Option<Cond>,
) -> Result<Vec<Row>, Memory>
    requires rules { keep_rules (parts_of image.now) ≡ true }
    requires there { table_of (parts_of image.now).tables table.now.number ≡ Some table.now }
    requires typed { typed (where_of (filter_view filter.now)) (own_columns table.now) ≡ true }
    ensures { IfOk result (λ rows. AreChosen image.now version table.now within.now (filter_view filter.now) rows.items) }
{
    let columns = columns_of_table(alloc, &table.name, table)?;
    let key = key_asked(alloc, &columns, table, filter)?;
    let rows = rows_read(alloc, image, version, table, within, key)?;
    chosen_of(alloc, &columns, filter, rows.into_vec())
}
