//! Groups of rows.
ghost use Rattle.std.specs.Prelude.{◌≡◌, ◌++◌, [], ◌∷◌, List, Some, if◌then◌else◌, IfOk, OnOk};
ghost use Rattle.std.specs.BTreeMap.{is_at};
ghost use Rattle.std.specs.List.Sorted.{IsStrictlySortedBy};
ghost use Rattle.std.specs.Map.{keys_of, lookup, values_of};
ghost use Rattle.std.specs.Ordering.{is_eq};
ghost use Rattle.wm_base.specs.declared.value.Value.{Value as OneValue};
ghost use Rattle.wm_select.specs.Query.{in_groups};
ghost use Rattle.wm_ordering.specs.Sorting.{left_to_right};
ghost use Rattle.wm_select.specs.Groups.{AreGrouped, rows_under};

use crate::group_columns::GroupColumns;
use crate::group_key::GroupKey;
use indexmap::IndexMap;
use std::alloc::Global;
use wm_base::{Memory, Row};
use wm_listing::{Columns, RowList};
use wm_syntax::column::Col;

/// The rows of each group, by the values that they have at the columns of GROUP BY.
type Groups = IndexMap<GroupKey, RowList>;

/// Puts a row behind the others of its group.
fn put_row(alloc: Global, groups: &mut Groups, key: GroupKey, row: Row) -> Result<(), Memory>
    ensures { OnOk result ((q : List OneValue) → lookup (is_at (left_to_right q)) groups.new.entries ≡ (if is_eq (left_to_right key q) then Some (rows_under groups.old.entries key ++ row ∷ []) else lookup (is_at (left_to_right q)) groups.old.entries)) }
{
    if let Some(group) = groups.get_mut(&key) {
        return group.push(row);
    }
    let mut group = RowList::new(alloc);
    group.push(row)?;
    groups.insert(key, group)?;
    Ok(())
}

/// Puts each row into its group.
fn put_rows(
    alloc: Global,
    groups: &mut Groups,
    first: &Col,
    others: &[Col],
    columns: &Columns,
    rows: Vec<Row>,
) -> Result<(), Memory>
    requires { groups.old.entries ≡ [] }
    ensures { OnOk result (AreGrouped (first.now ∷ others.now) columns.now rows.items groups.new.entries) }
{
    let found = GroupColumns::find(alloc, first, others, columns.as_slice())?;
    for row in rows {
        let key = found.key(alloc, &row)?;
        put_row(alloc, groups, key, row)?;
    }
    Ok(())
}

/// One group of all rows.
fn whole(alloc: Global, rows: RowList) -> Result<Vec<RowList>, Memory>
    ensures { IfOk result (λ groups. groups.items ≡ rows ∷ []) }
{
    let mut groups = Vec::new(alloc);
    groups.push(rows)?;
    Ok(groups)
}

/// Puts the groups in order of their values.
fn sort_groups(groups: &mut Groups) -> Result<(), Memory>
    ensures same { OnOk result ((q : List OneValue) → lookup (is_at (left_to_right q)) groups.new.entries ≡ lookup (is_at (left_to_right q)) groups.old.entries) }
    ensures ordered { OnOk result (IsStrictlySortedBy left_to_right (keys_of groups.new.entries)) }
{
    groups.sort_keys()?;
    Ok(())
}

/// The rows of the groups, in their order.
fn rows_of(alloc: Global, groups: Groups) -> Result<Vec<RowList>, Memory>
    ensures { IfOk result (λ all. all.items ≡ values_of groups.entries) }
{
    let all = groups.into_values().collect(alloc)?;
    Ok(all)
}

/// A group of the rows for each list of their values at one column and some others, in ascending order.
fn by_columns(
    alloc: Global,
    first: &Col,
    others: &[Col],
    columns: &Columns,
    rows: RowList,
) -> Result<Vec<RowList>, Memory>
    ensures { IfOk result (λ groups. groups.items ≡ in_groups (first.now ∷ others.now) columns.now rows) }
{
    let mut groups = IndexMap::new(alloc);
    put_rows(alloc, &mut groups, first, others, columns, rows.into_vec())?;
    sort_groups(&mut groups)?;
    let all = rows_of(alloc, groups)?;
    Ok(all)
}

/// The groups of the rows: with GROUP BY one for each list of its values, in ascending order, else one of all rows.
pub fn in_groups(
    alloc: Global,
    cols: &[Col],
    columns: &Columns,
    rows: RowList,
) -> Result<Vec<RowList>, Memory>
    ensures { IfOk result (λ groups. groups.items ≡ in_groups cols.now columns.now rows) }
{
    match cols {
        [first, others @ ..] => {
            let all = by_columns(alloc, first, others, columns, rows)?;
            Ok(all)
        }
        [] => {
            let groups = whole(alloc, rows)?;
            Ok(groups)
        }
    }
}
