//! What UPDATE is refused for by the rows that it would write.
ghost use Rattle.std.specs.Prelude.{◌≡◌, true, List, Option, None, Some, IfOk, option_copied};
ghost use Rattle.wm_syntax.specs.Trees.{Cond as CondTree, Set as SetTree};
ghost use Rattle.wm_base.specs.declared.row.Row.{Row as RowOf};
ghost use Rattle.wm_graph.specs.Rules.{has_key, is_table};
ghost use Rattle.wm_making.specs.Rows.{first_column, lacks_value, heavy_part as heavy_of};
ghost use Rattle.wm_typing.specs.Changing.{update_fault};
ghost use Rattle.wm_dml.specs.Changing.{first_some, updated_rows, rows_fault as fault_of_rows};
ghost use Rattle.wm_dml.specs.Standing.{all_stand, MayReplace};

use std::alloc::Global;
use wm_base::{CellRefusal, Memory, Name, Refusal, Values};
use wm_making::{first_lacking, heavy_part};
use wm_spec::record::Table;

/// The first column that lacks a value in one of the rows.
fn lacking<'a>(table: &'a Table, rows: &[Values]) -> Option<&'a Name>
    ensures { option_copied result ≡ first_some (λ row. first_column (lacks_value table.now) 0 table.now.columns row) rows.now }
{
    for row in rows {
        if let Some(name) = first_lacking(table, row.as_slice()) {
            return Some(name);
        }
    }
    None
}

/// The first such part of the rows.
fn first_heavy_part(alloc: Global, table: &Table, rows: &[Values]) -> Result<Option<Name>, Memory>
    ensures { IfOk result (λ part. part ≡ first_some (heavy_of table.now) rows.now) }
{
    for row in rows {
        if let Some(part) = heavy_part(alloc, table, row.as_slice())? {
            return Ok(Some(part));
        }
    }
    Ok(None)
}

/// NULL where none may be in any of the rows, and then a text or a key that is too heavy, or a row that is.
#[tactic(auto, unfolding(crate::specs::Changing::rows_fault))]
fn fault_of(alloc: Global, table: &Table, rows: &[Values]) -> Result<Option<Refusal>, Memory>
    ensures { IfOk result (λ refusal. refusal ≡ fault_of_rows table.now rows.now) }
{
    if let Some(name) = lacking(table, rows) {
        return Ok(Some(Refusal::Cell(CellRefusal::Wm061(name.copy(alloc)?))));
    }
    match first_heavy_part(alloc, table, rows)? {
        Some(part) => Ok(Some(Refusal::Cell(CellRefusal::Wm063(part)))),
        None => Ok(None),
    }
}

/// What the rows are refused for, where they would stand in the table: NULL where none may be in any of them, and then a
/// text or a key that is too heavy, or a row that is.
pub fn rows_fault(alloc: Global, table: &Table, rows: &[Values]) -> Result<Option<Refusal>, Memory>
    ensures fault { IfOk result (λ refusal. refusal ≡ fault_of_rows table.now rows.now) }

    // Rows that an UPDATE makes of shown rows of the table, where neither is refused, may stand in their places.
    ensures may_replace { IfOk result (λ refusal. refusal ≡ None → (sets : List SetTree) (filter : Option CondTree) (olds : List RowOf) → update_fault table.now sets filter ≡ None → updated_rows table.now sets olds ≡ Some rows.now → all_stand table.now olds ≡ true → is_table table.now ≡ true → has_key table.now ≡ true → MayReplace table.now olds rows.now) }
{
    let refusal = fault_of(alloc, table, rows)?;
    Ok(refusal)
}
