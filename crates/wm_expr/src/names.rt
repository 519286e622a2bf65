//! The column that a name means.
ghost use Rattle.std.specs.Prelude.{◌≡◌, bytes_eq, option_map, option_copied, slice_get};
ghost use Rattle.std.specs.List.{position};
ghost use Rattle.wm_spec.specs.Operands.{is_of_source as of_source, is_named as named, kind_of as kind_named, found_at as found};

use wm_base::{Name, Value};
use wm_listing::Column;

/// Whether two texts have the same bytes.
fn are_same(one: &[u8], other: &[u8]) -> bool
    ensures { result ≡ bytes_eq one.now other.now }
{
    one == other
}

/// Whether the column is of the source that is named, where one is.
fn is_of_source(source: &Option<Name>, column: &Column) -> bool
    ensures { result ≡ of_source source.now column.now }
{
    match source {
        None => true,
        Some(source) => are_same(source.as_bytes(), column.source.as_bytes()),
    }
}

/// Whether the column is the one that is named.
pub fn is_named(source: &Option<Name>, name: &[u8], column: &Column) -> bool
    ensures { result ≡ named source.now name.now column.now }
{
    is_of_source(source, column) && are_same(name, column.name.as_bytes())
}

/// The place of the first column that is named.
pub fn place_of(source: &Option<Name>, name: &[u8], columns: &[Column]) -> Option<usize>
    ensures { result ≡ position (λ column. named source.now name.now column) columns.now }
{
    columns
        .iter()
        .position(|column| is_named(source, name, column))
}

/// The kind of the one column that is named, or None where there is none or more than one.
pub fn kind_of(source: &Option<Name>, name: &[u8], columns: &[Column]) -> Option<u8>
    ensures { result ≡ kind_named source.now name.now columns.now }
{
    let count = columns
        .iter()
        .filter(|column| is_named(source, name, column))
        .count();
    if count == 1 {
        match place_of(source, name, columns) {
            Some(place) => kind_at(columns, place),
            None => None,
        }
    } else {
        None
    }
}

/// The kind of the column at that place.
fn kind_at(columns: &[Column], place: usize) -> Option<u8>
    ensures { result ≡ option_map (λ column. column.kind) (slice_get columns.now place) }
{
    match columns.get(place) {
        Some(column) => Some(column.kind),
        None => None,
    }
}

/// The value of the row at the first column that is named.
pub fn found_at<'a>(
    source: &Option<Name>,
    name: &[u8],
    columns: &[Column],
    row: &'a [Value],
) -> Option<&'a Value>
    ensures { option_copied result ≡ found source.now name.now columns.now row.now }
{
    match place_of(source, name, columns) {
        Some(place) => row.get(place),
        None => None,
    }
}
