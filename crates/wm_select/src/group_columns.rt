//! The columns of GROUP BY, their names looked up once for all rows.
ghost use Rattle.std.specs.Prelude.{◌≡◌, ◌∷◌, ◌++◌, map, slice_get, option_and_then, option_copied, IfOk, OnOk};
ghost use Rattle.wm_select.specs.Groups.{looked_up, value_in};

use crate::group_key::GroupKey;
use std::alloc::Global;
use std::marker::Model;
use wm_base::{Memory, Row, Value, Values};
use wm_expr::names::place_of;
use wm_expr::owned::copy_at_end;
use wm_listing::Column;
use wm_syntax::column::{Col, Suffix};

/// Where each row has its value at a column.
#[derive(Drop)]
pub struct GroupColumn {
    pub place: Option<usize>,
    pub suffix: Option<Suffix>,
}

impl GroupColumn {
    /// The first of the columns that has the name.
    fn find(col: &Col, columns: &[Column]) -> GroupColumn
        ensures { result ≡ looked_up columns.now col.now }
    {
        GroupColumn {
            place: place_of(&col.source, col.name.as_bytes(), columns),
            suffix: col.suffix,
        }
    }

    /// The row's value, whole.
    fn seen<'a>(&self, row: &'a Row) -> Option<&'a Value>
        ensures { option_copied result ≡ option_and_then (λ place. slice_get row.now.values place) self.now.place }
    {
        match self.place {
            Some(place) => row.values.as_slice().get(place),
            None => None,
        }
    }

    /// A copy of the row's value, or of the end of it that is asked for.
    fn value(&self, alloc: Global, row: &Row) -> Result<Value, Memory>
        ensures { IfOk result (λ value. value ≡ value_in row.now self.now) }
    {
        copy_at_end(alloc, self.suffix, self.seen(row))
    }
}

/// The columns of GROUP BY, one at least.
#[derive(Drop)]
pub struct GroupColumns {
    first: GroupColumn,
    others: Vec<GroupColumn>,
}

impl Model for GroupColumns {
    ghost use Rattle.std.specs.Prelude.{List, ◌∷◌};
    ghost use Rattle.wm_select.specs.declared.group_columns.GroupColumn.{GroupColumn as OneColumn};

    ghost Value = { List OneColumn };

    ghost view = { λ c. c.first ∷ c.others.items };
}

/// The columns that have the names.
fn found(alloc: Global, cols: &[Col], columns: &[Column]) -> Result<Vec<GroupColumn>, Memory>
    ensures { IfOk result (λ found. found.items ≡ map (looked_up columns.now) cols.now) }
{
    let found = cols
        .iter()
        .map(|col| GroupColumn::find(col, columns))
        .collect(alloc)?;
    Ok(found)
}

/// Adds the row's values at the columns.
fn push_values(
    alloc: Global,
    values: &mut Values,
    columns: &[GroupColumn],
    row: &Row,
) -> Result<(), Memory>
    ensures { OnOk result (values.new ≡ values.old ++ map (value_in row.now) columns.now) }
{
    for column in columns {
        values.push(column.value(alloc, row)?)?;
    }
    Ok(())
}

impl GroupColumns {
    /// The columns that have the names, of which one stands first.
    pub fn find(
        alloc: Global,
        first: &Col,
        others: &[Col],
        columns: &[Column],
    ) -> Result<GroupColumns, Memory>
        ensures { IfOk result (λ found. found ≡ map (looked_up columns.now) (first.now ∷ others.now)) }
    {
        Ok(GroupColumns {
            first: GroupColumn::find(first, columns),
            others: found(alloc, others, columns)?,
        })
    }

    /// The values that a row has at the columns.
    pub fn key(&self, alloc: Global, row: &Row) -> Result<GroupKey, Memory>
        ensures { IfOk result (λ key. key ≡ map (value_in row.now) self.now) }
    {
        // There is mostly one column, and then the list of the others takes no memory.
        let mut others = Values::with_capacity(alloc, self.others.len())?;
        push_values(alloc, &mut others, self.others.as_slice(), row)?;
        let first = self.first.value(alloc, row)?;
        Ok(GroupKey::new(first, others))
    }
}
