//! Tables among records: by number, their ids by name, and copies of them.

ghost use Rattle.std.specs.Prelude.{◌≡◌, ◌==◌, ◌++◌, is_some, IfOk, OnOk};
ghost use Rattle.std.specs.List.{find};
ghost use Rattle.std.specs.Option.{option_copied, option_and_then, option_to_list};
ghost use Rattle.std.specs.Str.{bytes_eq};
ghost use Rattle.wm_graph.specs.Parts.{as_table};
ghost use Rattle.wm_index.specs.Indexed.{listed};
ghost use Rattle.wm_index.specs.Kinds.{kind_at, passing};
ghost use Rattle.wm_spec.specs.Records.{record_at};
ghost use Rattle.wm_spec.specs.declared.record.table.Table.{Table as OneTable};

use crate::copies::table_copy;
use crate::kinds::table_of;
use crate::records::{Kept, at};
use std::alloc::Global;
use wm_base::Memory;
use wm_spec::record::{Record, Table};

/// Puts a copy of a record behind tables, where it is a table.
fn push_copy(alloc: Global, tables: &mut Vec<Table>, found: Option<&Record>) -> Result<(), Memory>
    ensures { OnOk result (tables.new.items ≡ tables.old.items ++ option_to_list (option_and_then as_table (option_copied found.entry))) }
{
    if let Some(table) = table_of(found) {
        tables.push(table_copy(alloc, table)?)?;
    }
    Ok(())
}

/// Copies of the tables of some ids.
pub fn copies_at(alloc: Global, kept: &Kept, ids: &[u64]) -> Result<Vec<Table>, Memory>
    ensures { IfOk result (λ tables. tables.items ≡ kind_at as_table (listed kept.now.entries) ids.now) }
{
    let mut tables = Vec::new(alloc);
    for id in ids {
        push_copy(alloc, &mut tables, at(kept, *id))?;
    }
    Ok(tables)
}

/// A record that is a table of a name.
fn named<'a>(found: Option<&'a Record>, name: &[u8]) -> Option<&'a Table>
    ensures { option_copied result ≡ passing (λ (t : OneTable). bytes_eq name.now t.name) (option_and_then as_table (option_copied found.entry)) }
{
    let table = table_of(found)?;
    if name == table.name.as_bytes() {
        Some(table)
    } else {
        None
    }
}

/// The first of some ids whose record is a table of a name.
pub fn id_named(kept: &Kept, ids: &[u64], name: &[u8]) -> Option<u64>
    ensures there { option_and_then as_table (option_and_then (record_at (listed kept.now.entries)) result) ≡ find (λ (t : OneTable). bytes_eq name.now t.name) (kind_at as_table (listed kept.now.entries) ids.now) }
    ensures found { is_some result ≡ is_some (find (λ (t : OneTable). bytes_eq name.now t.name) (kind_at as_table (listed kept.now.entries) ids.now)) }
{
    for id in ids {
        if named(at(kept, *id), name).is_some() {
            return Some(*id);
        }
    }
    None
}

/// A record that is a table of a number.
fn numbered(found: Option<&Record>, number: u16) -> Option<&Table>
    ensures { option_copied result ≡ passing (λ (t : OneTable). t.number == number) (option_and_then as_table (option_copied found.entry)) }
{
    let table = table_of(found)?;
    if table.number == number {
        Some(table)
    } else {
        None
    }
}

/// The first of some tables that has a number.
pub fn table_of_number<'a>(kept: &'a Kept, ids: &[u64], number: u16) -> Option<&'a Table>
    ensures { option_copied result ≡ find (λ (t : OneTable). t.number == number) (kind_at as_table (listed kept.now.entries) ids.now) }
{
    for id in ids {
        let found = numbered(at(kept, *id), number);
        if found.is_some() {
            return found;
        }
    }
    None
}
