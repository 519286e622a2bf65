//! The kinds of what is named. WM_VALID is a period by its name, whether there is such a column or not.
ghost use Rattle.std.specs.Prelude.{◌≡◌};
ghost use Rattle.std.specs.List.{list_any};
ghost use Rattle.wm_spec.specs.Operands.{is_of_source as of_source, is_named as named};
ghost use Rattle.wm_typing.specs.Names.{lacks_period, kind_named, is_kind_of_periods, named_period, named_kind};

use wm_base::Name;
use wm_expr::names::{is_named, kind_of};
use wm_expr::types::{constant_kind, kind_at_end};
use wm_listing::Column;
use wm_listing::columns::{NUMBER, PERIOD};
use wm_syntax::operand::{Operand, Per};

/// Whether the column is of the source that is named, where one is.
pub fn is_of_source(source: &Option<Name>, column: &Column) -> bool
    ensures { result ≡ of_source source.now column.now }
{
    match source {
        None => true,
        Some(source) => source.as_bytes() == column.source.as_bytes(),
    }
}

/// Whether a column is of the source that is named, or any is there where none is named.
fn has_source(source: &Option<Name>, columns: &[Column]) -> bool
    ensures { result ≡ list_any (λ column. of_source source.now column) columns.now }
{
    columns.iter().any(|column| is_of_source(source, column))
}

/// Whether a column is the one that is named.
fn has_column(source: &Option<Name>, name: &[u8], columns: &[Column]) -> bool
    ensures { result ≡ list_any (λ column. named source.now name.now column) columns.now }
{
    columns.iter().any(|column| is_named(source, name, column))
}

/// Whether WM_VALID is named, and there is a source that it may mean, but no such column.
pub fn lacks_period(source: &Option<Name>, name: &[u8], columns: &[Column]) -> bool
    ensures { result ≡ lacks_period source.now name.now columns.now }
{
    has_source(source, columns)
        && name == b"WM_VALID".as_slice()
        && !has_column(source, name, columns)
}

/// The kind of the one column that is named, or None where there is none or more than one. It is that of periods for
/// WM_VALID where the source that it may mean has no such column.
pub fn kind_named(source: &Option<Name>, name: &[u8], columns: &[Column]) -> Option<u8>
    ensures { result ≡ kind_named source.now name.now columns.now }
{
    if lacks_period(source, name, columns) {
        Some(PERIOD)
    } else {
        kind_of(source, name, columns)
    }
}

fn is_kind_of_periods(kind: Option<u8>) -> bool
    ensures { result ≡ is_kind_of_periods kind }
{
    match kind {
        Some(kind) => kind == PERIOD,
        None => false,
    }
}

/// Whether it is a period that is written, or WM_VALID that is not several columns and may mean a source.
pub fn named_period(period: &Per, columns: &[Column]) -> bool
    ensures { result ≡ named_period period.now columns.now }
{
    match period {
        Per::Valid { source } => is_kind_of_periods(kind_named(source, b"WM_VALID", columns)),
        Per::Span { .. } => true,
    }
}

/// The kind of an operand by its names, or None where it names what is neither a column nor WM_VALID.
pub fn named_kind(operand: &Operand, columns: &[Column]) -> Option<u8>
    ensures { result ≡ named_kind operand.now columns.now }
{
    match operand {
        Operand::Col(col) => kind_at_end(
            col.suffix,
            kind_named(&col.source, col.name.as_bytes(), columns),
        ),
        Operand::Const(constant) => Some(constant_kind(constant)),
        Operand::Test { left, right, .. } => {
            if named_period(left, columns) && named_period(right, columns) {
                Some(NUMBER)
            } else {
                None
            }
        }
    }
}
