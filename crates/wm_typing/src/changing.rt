//! What UPDATE and DELETE are refused for before they read a row.
ghost use Rattle.std.specs.Prelude.{◌≡◌, [], bytes_eq, true, false, None, IfOk, option_copied};
ghost use Rattle.std.specs.List.{list_any};
ghost use Rattle.wm_syntax.specs.Trees.{Set as SetTree};
ghost use Rattle.wm_syntax.specs.Views.{filter_view, set_view, sets_view};
ghost use Rattle.wm_typing.specs.Changing.{is_named_at as names_at, may_set, unknown_in_set, unknown_in_sets, may_stand, mistyped_in_set, mistyped_in_sets, is_key, key_set, lacking_where, lacking_anywhere, update_fault, update_fault_in, delete_fault, delete_fault_in};
ghost use Rattle.wm_typing.specs.Columns.{columns_of_table};
ghost use Rattle.wm_typing.specs.Lacking.{lacks_in_set, lacks_in_sets};
ghost use Rattle.wm_typing.specs.Types.{is_filter_typed};

use crate::columns::columns_of_table;
use crate::first::{first_of, unless};
use crate::kinds::{kind_named, lacks_period};
use crate::lacking::{is_found, lacking_in_expr, lacking_in_filter};
use crate::names::{unknown_in_expr, unknown_in_filter};
use crate::refusals::first_refusal;
use crate::types::{expr_kind, mistyped_in_expr, mistyped_in_filter};
use std::alloc::Global;
use wm_base::{Memory, Refusal};
use wm_listing::Column;
use wm_listing::columns::PERIOD;
use wm_spec::record::{Table, TableColumn};
use wm_syntax::cond::Cond;
use wm_syntax::statement::Set;

/// Whether one of the changes sets the column of that name.
fn is_set(before: &[Set], name: &[u8]) -> bool
    ensures { result ≡ list_any (λ (s : SetTree). bytes_eq s.name name.now) (sets_view before.now) }
{
    for set in before {
        if set.name.equals(name) {
            return true;
        }
    }
    false
}

/// Whether the name is that of exactly one column, or WM_VALID, and was not set before.
fn may_set(columns: &[Column], before: &[Set], name: &[u8]) -> bool
    ensures { result ≡ may_set columns.now (sets_view before.now) name.now }
{
    kind_named(&None, name, columns).is_some() && !is_set(before, name)
}

fn unknown_in_set<'a>(columns: &[Column], before: &[Set], set: &'a Set) -> Option<&'a [u8]>
    ensures { option_copied result ≡ unknown_in_set columns.now (sets_view before.now) (set_view set.now) }
{
    let name = set.name.as_bytes();
    first_of(
        unless(may_set(columns, before, name), name),
        unknown_in_expr(columns, &set.becomes),
    )
}

fn unknown_in_sets<'a>(columns: &[Column], sets: &'a [Set]) -> Option<&'a [u8]>
    ensures { option_copied result ≡ unknown_in_sets columns.now [] (sets_view sets.now) }
{
    for (index, set) in sets.iter().enumerate() {
        if let Some(name) = unknown_in_set(columns, &sets[..index], set) {
            return Some(name);
        }
    }
    None
}

/// Whether a value of that kind may stand in a column: it has the column's kind, or it is NULL and the column is not
/// that of periods.
pub fn may_stand(column: Option<u8>, kind: Option<u8>) -> bool
    ensures { result ≡ may_stand column kind }
{
    match (column, kind) {
        (Some(column), Some(kind)) => kind == column || (kind == 0 && column != PERIOD),
        _ => false,
    }
}

fn mistyped_in_set<'a>(columns: &[Column], set: &'a Set) -> Option<&'a [u8]>
    ensures { option_copied result ≡ mistyped_in_set columns.now (set_view set.now) }
{
    let name = set.name.as_bytes();
    let fits = may_stand(
        kind_named(&None, name, columns),
        expr_kind(columns, &set.becomes),
    );
    first_of(unless(fits, name), mistyped_in_expr(columns, &set.becomes))
}

fn mistyped_in_sets<'a>(columns: &[Column], sets: &'a [Set]) -> Option<&'a [u8]>
    ensures { option_copied result ≡ mistyped_in_sets columns.now (sets_view sets.now) }
{
    for set in sets {
        if let Some(text) = mistyped_in_set(columns, set) {
            return Some(text);
        }
    }
    None
}

/// Whether the column at that place has the name.
fn is_named_at(columns: &[TableColumn], place: usize, name: &[u8]) -> bool
    ensures { result ≡ names_at columns.now name.now place }
{
    match columns.get(place) {
        Some(column) => column.name.as_bytes() == name,
        None => false,
    }
}

/// Whether the name is that of a key column.
fn is_key(table: &Table, name: &[u8]) -> bool
    ensures { result ≡ is_key table.now name.now }
{
    let columns = table.columns.as_slice();
    table
        .key_columns
        .as_slice()
        .iter()
        .any(|place| is_named_at(columns, usize::from(*place), name))
}

/// The first key column that is set.
fn key_set<'a>(table: &Table, sets: &'a [Set]) -> Option<&'a [u8]>
    ensures { option_copied result ≡ key_set table.now (sets_view sets.now) }
{
    for set in sets {
        if is_key(table, set.name.as_bytes()) {
            return Some(set.name.as_bytes());
        }
    }
    None
}

/// Whether WM_VALID is set, or in the value that is set, and the table has none.
fn lacks_in_set(columns: &[Column], set: &Set) -> bool
    ensures { result ≡ lacks_in_set columns.now (set_view set.now) }
{
    lacks_period(&None, set.name.as_bytes(), columns)
        || is_found(lacking_in_expr(columns, &set.becomes))
}

fn lacks_in_sets(columns: &[Column], sets: &[Set]) -> bool
    ensures { result ≡ lacks_in_sets columns.now (sets_view sets.now) }
{
    for set in sets {
        if lacks_in_set(columns, set) {
            return true;
        }
    }
    false
}

/// The table, where WM_VALID is named in the condition and the table has none.
fn lacking_where<'a>(
    columns: &[Column],
    table: &'a Table,
    filter: &Option<Cond>,
) -> Option<&'a [u8]>
    ensures { option_copied result ≡ lacking_where columns.now table.now (filter_view filter.now) }
{
    unless(
        !is_found(lacking_in_filter(columns, filter)),
        table.name.as_bytes(),
    )
}

/// The table, where WM_VALID is named in the condition or in what is set and the table has none.
fn lacking_anywhere<'a>(
    columns: &[Column],
    table: &'a Table,
    sets: &[Set],
    filter: &Option<Cond>,
) -> Option<&'a [u8]>
    ensures { option_copied result ≡ lacking_anywhere columns.now table.now (sets_view sets.now) (filter_view filter.now) }
{
    first_of(
        unless(!lacks_in_sets(columns, sets), table.name.as_bytes()),
        lacking_where(columns, table, filter),
    )
}

fn update_fault_in(
    alloc: Global,
    columns: &[Column],
    table: &Table,
    sets: &[Set],
    filter: &Option<Cond>,
) -> Result<Option<Refusal>, Memory>
    ensures { IfOk result (λ refusal. refusal ≡ update_fault_in columns.now table.now (sets_view sets.now) (filter_view filter.now)) }
{
    let unknown = first_of(
        unknown_in_sets(columns, sets),
        unknown_in_filter(columns, filter),
    );
    let mistyped = first_of(
        mistyped_in_sets(columns, sets),
        mistyped_in_filter(columns, filter),
    );
    let lacking = lacking_anywhere(columns, table, sets, filter);
    first_refusal(alloc, unknown, mistyped, key_set(table, sets), lacking)
}

/// Why an UPDATE of the table is refused for its names and types: a name that is not there, then a type that is wrong,
/// then a key column that is set, of each the first in the line; and then WM_VALID, where the table has no valid time.
#[tactic(auto, using(crate::proofs::Typed::update_typed), unfolding(crate::specs::Changing::update_fault))]
pub fn update_fault(
    alloc: Global,
    table: &Table,
    sets: &[Set],
    filter: &Option<Cond>,
) -> Result<Option<Refusal>, Memory>
    ensures exact { IfOk result (λ refusal. refusal ≡ update_fault table.now (sets_view sets.now) (filter_view filter.now)) }
    ensures typed { IfOk result (λ refusal. refusal ≡ None → is_filter_typed (columns_of_table table.now.name table.now) (filter_view filter.now) ≡ true) }
{
    let columns = columns_of_table(alloc, &table.name, table)?;
    let refusal = update_fault_in(alloc, columns.as_slice(), table, sets, filter);
    drop(columns);
    refusal
}

fn delete_fault_in(
    alloc: Global,
    columns: &[Column],
    table: &Table,
    filter: &Option<Cond>,
) -> Result<Option<Refusal>, Memory>
    ensures { IfOk result (λ refusal. refusal ≡ delete_fault_in columns.now table.now (filter_view filter.now)) }
{
    first_refusal(
        alloc,
        unknown_in_filter(columns, filter),
        mistyped_in_filter(columns, filter),
        None,
        lacking_where(columns, table, filter),
    )
}

/// Why a DELETE from the table is refused for the names and types of its condition.
#[tactic(auto, using(crate::proofs::Typed::delete_typed), unfolding(crate::specs::Changing::delete_fault))]
pub fn delete_fault(
    alloc: Global,
    table: &Table,
    filter: &Option<Cond>,
) -> Result<Option<Refusal>, Memory>
    ensures exact { IfOk result (λ refusal. refusal ≡ delete_fault table.now (filter_view filter.now)) }
    ensures typed { IfOk result (λ refusal. refusal ≡ None → is_filter_typed (columns_of_table table.now.name table.now) (filter_view filter.now) ≡ true) }
{
    let columns = columns_of_table(alloc, &table.name, table)?;
    let refusal = delete_fault_in(alloc, columns.as_slice(), table, filter);
    drop(columns);
    refusal
}
