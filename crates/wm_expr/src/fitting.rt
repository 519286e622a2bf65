//! Which rows fit which columns.
ghost use Rattle.std.specs.Prelude.{◌≡◌, ◌||◌, ◌==◌};
ghost use Rattle.wm_base.specs.Value.{type_place};
ghost use Rattle.wm_spec.specs.Conditions.{fits as fitting};
ghost use Rattle.wm_spec.specs.Operands.{fits_columns};

use wm_base::{Row, Value};
use wm_listing::columns::{NUMBER, PERIOD, TEXT, TIME};
use wm_listing::{Column, Columns};

/// The kind of the columns in which the value may stand, 0 for NULL, which may stand in all.
fn kind_of_value(value: &Value) -> u8
    ensures { result ≡ type_place value.now }
{
    match value {
        Value::Null => 0,
        Value::Num(_) => NUMBER,
        Value::Text(_) => TEXT,
        Value::Time(_) => TIME,
        Value::Span(_) => PERIOD,
    }
}

/// Whether the value may stand in the column.
fn may_stand(column: &Column, value: &Value) -> bool
    ensures { result ≡ ((type_place value.now == 0) || (type_place value.now == column.now.kind)) }
{
    let kind = kind_of_value(value);
    kind == 0 || kind == column.kind
}

/// Whether there is one value for each column, each NULL or of the column's kind.
fn do_fit(columns: &[Column], values: &[Value]) -> bool
    ensures { result ≡ fits_columns columns.now values.now }
{
    let mut columns = columns;
    let mut values = values;
    while let Some((column, more)) = columns.split_first() {
        match values.split_first() {
            Some((value, rest)) => {
                if !may_stand(column, value) {
                    return false;
                }
                columns = more;
                values = rest;
            }
            None => return false,
        }
    }
    values.is_empty()
}

/// Whether the row fits the columns: it has one value for each, NULL or of the column's kind.
#[tactic(auto, unfolding(wm_spec::specs::Conditions::fits))]
pub fn fits(columns: &Columns, row: &Row) -> bool
    ensures { result ≡ fitting columns.now row.now }
{
    do_fit(columns.as_slice(), row.values.as_slice())
}
