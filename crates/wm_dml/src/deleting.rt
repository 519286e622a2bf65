//! What DELETE writes.
ghost use Rattle.std.specs.Prelude.{◌≡◌, ◌∷◌, ◌++◌, [], true, map, IfOk, OnOk};
ghost use Rattle.std.specs.List.{list_all};
ghost use Rattle.wm_base.specs.Period.{overlaps};
ghost use Rattle.wm_dml.specs.Changing.{all_overlap, row_period as period_of_row, gone as gone_of};
ghost use Rattle.wm_dml.specs.Standing.{all_stand, keys_of, periods_of, is_change, change_lasts, change_keys, change_periods};

use crate::change::RowChange;
use crate::keys::row_key;
use crate::shown::{declared_values, row_period, shared};
use std::alloc::Global;
use wm_base::{Kind, Memory, Period, Row};
use wm_spec::record::Table;

/// The row is gone over what its period shares with that of the session, behind other changes.
fn push_gone(
    alloc: Global,
    changes: &mut Vec<RowChange>,
    table: &Table,
    within: &Period,
    row: &Row,
) -> Result<(), Memory>
    requires { overlaps (period_of_row table.now row.now) within.now ≡ true }
    ensures { OnOk result (changes.new.items ≡ changes.old.items ++ gone_of table.now within.now row.now ∷ []) }
{
    let values = declared_values(table, row.values.as_slice());
    let period = row_period(table, row);
    changes.push(RowChange {
        key: row_key(alloc, table, values)?,
        period: shared(&period, within),
        row: None,
        kind: Kind::Delete,
    })?;
    Ok(())
}

/// The rows are gone, in order.
fn all_gone(
    alloc: Global,
    table: &Table,
    within: &Period,
    rows: &[Row],
) -> Result<Vec<RowChange>, Memory>
    requires { all_overlap table.now within.now rows.now ≡ true }
    ensures { IfOk result (λ changes. changes.items ≡ map (gone_of table.now within.now) rows.now) }
{
    let mut changes = Vec::new(alloc);
    for row in rows {
        push_gone(alloc, &mut changes, table, within, row)?;
    }
    Ok(changes)
}

/// What DELETE writes of the shown rows that it chose: they are gone over the session's period, in order.
pub fn deleted(
    alloc: Global,
    table: &Table,
    within: &Period,
    rows: &[Row],
) -> Result<Vec<RowChange>, Memory>
    requires { all_overlap table.now within.now rows.now ≡ true }
    ensures exact { IfOk result (λ changes. changes.items ≡ map (gone_of table.now within.now) rows.now) }
    ensures keys { IfOk result (λ changes. change_keys changes.items ≡ keys_of table.now rows.now) }
    ensures periods { IfOk result (λ changes. change_periods changes.items ≡ periods_of table.now within.now rows.now) }
    ensures fit { IfOk result (λ changes. all_stand table.now rows.now ≡ true → list_all (is_change table.now) changes.items ≡ true) }
    ensures lasting { IfOk result (λ changes. all_stand table.now rows.now ≡ true → list_all change_lasts changes.items ≡ true) }
{
    let _till = within.till();
    let changes = all_gone(alloc, table, within, rows)?;
    Ok(changes)
}
