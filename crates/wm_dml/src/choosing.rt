//! The rows that a condition chooses.
ghost use Rattle.std.specs.Prelude.{◌≡◌, Bool, true, List, filter, Option, IfOk};
ghost use Rattle.std.specs.List.{list_all};
ghost use Rattle.wm_base.specs.declared.row.Row.{Row as RowOf};
ghost use Rattle.wm_base.specs.declared.value.Value.{Value as ValueOf};
ghost use Rattle.wm_syntax.specs.Trees.{Cond as CondTree};
ghost use Rattle.wm_syntax.specs.Views.{cond_view};
ghost use Rattle.wm_graph.specs.Rules.{differ};
ghost use Rattle.wm_joining.specs.Kept.{where_of};
ghost use Rattle.wm_spec.specs.Conditions.{fits, truth_of, is_yes};
ghost use Rattle.wm_spec.specs.declared.record.table.Table.{Table as TableOf};
ghost use Rattle.wm_dml.specs.Changing.{own_columns, chosen as chosen_of};
ghost use Rattle.wm_dml.specs.Standing.{all_stand, keys_of};

use std::alloc::Global;
use wm_base::{Memory, Row, Truth};
use wm_rowtest::{Judge, RowTest};

/// The rows that the test keeps, in order.
fn kept<F: Fn(&Row) -> Truth + Judge>(
    alloc: Global,
    rows: Vec<Row>,
    test: &RowTest<'_, F>,
) -> Result<Vec<Row>, Memory>
    requires { list_all (fits test.now.columns.now) rows.items ≡ true }
    ensures { IfOk result (λ kept. kept.items ≡ filter (λ row. is_yes (truth_of (cond_view test.now.cond.now) test.now.columns.now row)) rows.items) }
{
    let mut kept = Vec::new(alloc);
    for row in rows {
        if test.keep(&row) {
            kept.push(row)?;
        } else {
            drop(row);
        }
    }
    Ok(kept)
}

/// The rows on which the condition of the test is true, in order. A row on which it is false or unknown is not chosen.
pub fn chosen<F: Fn(&Row) -> Truth + Judge>(
    alloc: Global,
    rows: Vec<Row>,
    test: &RowTest<'_, F>,
) -> Result<Vec<Row>, Memory>
    requires { list_all (fits test.now.columns.now) rows.items ≡ true }
    ensures kept { IfOk result (λ kept. kept.items ≡ filter (λ row. is_yes (truth_of (cond_view test.now.cond.now) test.now.columns.now row)) rows.items) }

    // Of a table whose columns the test judges, by a WHERE for which its condition stands.
    ensures chosen { IfOk result (λ kept. (t : TableOf) (condition : Option CondTree) → test.now.columns.now ≡ own_columns t → cond_view test.now.cond.now ≡ where_of condition → kept.items ≡ chosen_of t condition rows.items) }

    // What each row passes, each of those passes, and no two of them are alike where no two of all rows are.
    ensures pass { IfOk result (λ kept. (test : RowOf → Bool) → list_all test rows.items ≡ true → list_all test kept.items ≡ true) }
    ensures differ { IfOk result (λ kept. (same : RowOf → RowOf → Bool) → differ same rows.items ≡ true → differ same kept.items ≡ true) }

    // Those of rows that stand in a table stand in it, and their keys differ where those of all rows do.
    ensures stand { IfOk result (λ kept. (t : TableOf) → all_stand t rows.items ≡ true → all_stand t kept.items ≡ true) }
    ensures apart { IfOk result (λ kept. (t : TableOf) (same : List ValueOf → List ValueOf → Bool) → differ same (keys_of t rows.items) ≡ true → differ same (keys_of t kept.items) ≡ true) }
{
    let kept = kept(alloc, rows, test)?;
    Ok(kept)
}
