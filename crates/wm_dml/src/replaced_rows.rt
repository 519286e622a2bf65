//! What UPDATE writes.
ghost use Rattle.std.specs.Prelude.{◌≡◌, ◌∷◌, ◌++◌, [], true, length, map, IfOk, OnOk};
ghost use Rattle.std.specs.List.{list_all};
ghost use Rattle.wm_base.specs.Period.{overlaps};
ghost use Rattle.wm_dml.specs.Changing.{all_overlap, row_key as key_of_row, row_period as period_of_row, replaced as replaced_of, replacing as replacing_of};
ghost use Rattle.wm_dml.specs.Standing.{stands_in, all_stand, periods_of, is_change, change_lasts, writes_filled, change_keys, change_periods};

use crate::change::RowChange;
use crate::keys::row_key;
use crate::shown::{row_period, shared};
use std::alloc::Global;
use wm_base::{Kind, Memory, Period, Row, Values};
use wm_spec::record::Table;

/// The row in the place of the old one of its key, over what the period of that one shares with that of the session,
/// behind others.
fn push_replaced(
    alloc: Global,
    changes: &mut Vec<RowChange>,
    table: &Table,
    within: &Period,
    old: &Row,
    row: Values,
) -> Result<(), Memory>
    requires { overlaps (period_of_row table.now old.now) within.now ≡ true }
    ensures { OnOk result (changes.new.items ≡ changes.old.items ++ replaced_of table.now within.now old.now row ∷ []) }
{
    let period = row_period(table, old);
    changes.push(RowChange {
        key: row_key(alloc, table, row.as_slice())?,
        period: shared(&period, within),
        row: Some(row),
        kind: Kind::Update,
    })?;
    Ok(())
}

/// Each row in the place of the old one that stands where it stands, in order.
fn all_replaced(
    alloc: Global,
    table: &Table,
    within: &Period,
    olds: &[Row],
    rows: Vec<Values>,
) -> Result<Vec<RowChange>, Memory>
    requires { all_overlap table.now within.now olds.now ≡ true }
    ensures { IfOk result (λ changes. changes.items ≡ replacing_of table.now within.now olds.now rows.items) }
{
    let mut changes = Vec::new(alloc);
    for (old, row) in olds.iter().zip(rows) {
        push_replaced(alloc, &mut changes, table, within, old, row)?;
    }
    Ok(changes)
}

/// What UPDATE writes of the rows that it made of the shown rows: each in the place of its own, over the session's period,
/// in order.
pub fn replacing(
    alloc: Global,
    table: &Table,
    within: &Period,
    olds: &[Row],
    rows: Vec<Values>,
) -> Result<Vec<RowChange>, Memory>
    requires { all_overlap table.now within.now olds.now ≡ true }
    ensures exact { IfOk result (λ changes. changes.items ≡ replacing_of table.now within.now olds.now rows.items) }
    ensures keys { IfOk result (λ changes. length olds.now ≡ length rows.items → change_keys changes.items ≡ map (key_of_row table.now) rows.items) }
    ensures periods { IfOk result (λ changes. length olds.now ≡ length rows.items → change_periods changes.items ≡ periods_of table.now within.now olds.now) }
    ensures fit { IfOk result (λ changes. list_all (stands_in table.now) rows.items ≡ true → list_all (is_change table.now) changes.items ≡ true) }
    ensures filled { IfOk result (λ changes. list_all (stands_in table.now) rows.items ≡ true → list_all writes_filled changes.items ≡ true) }
    ensures lasting { IfOk result (λ changes. all_stand table.now olds.now ≡ true → list_all change_lasts changes.items ≡ true) }
{
    let _till = within.till();
    let changes = all_replaced(alloc, table, within, olds, rows)?;
    Ok(changes)
}
