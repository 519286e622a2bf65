//! Which values fit the columns of a table.
ghost use Rattle.std.specs.Prelude.{◌≡◌, ◌==◌};
ghost use Rattle.wm_base.specs.Value.{type_place};
ghost use Rattle.wm_graph.specs.Rules.{fit_columns, fits_column, type_of};

use wm_base::Value;
use wm_spec::record::{ColumnKind, TableColumn};

/// Whether the value has the type of a column; NULL has none.
pub fn has_kind(kind: ColumnKind, value: &Value) -> bool
    ensures { result ≡ (type_place value.now == type_of kind) }
{
    match (value, kind) {
        (Value::Num(_), ColumnKind::Number) => true,
        (Value::Text(_), ColumnKind::Text) => true,
        (Value::Time(_), ColumnKind::Time) => true,
        _ => false,
    }
}

/// Whether the value may stand in the column.
fn fits_column(column: &TableColumn, value: &Value) -> bool
    ensures { result ≡ fits_column column.now value.now }
{
    match value {
        Value::Null => true,
        Value::Text(text) => has_kind(column.kind, value) && text.len() <= usize::from(column.size),
        _ => has_kind(column.kind, value),
    }
}

/// Whether there is a value for each column, which fits it.
pub fn fit_columns(columns: &[TableColumn], values: &[Value]) -> bool
    ensures { result ≡ fit_columns columns.now values.now }
{
    if columns.len() != values.len() {
        return false;
    }
    for (column, value) in columns.iter().zip(values) {
        if !fits_column(column, value) {
            return false;
        }
    }
    true
}
