//! The rules of the records of tables.
ghost use Rattle.std.specs.Prelude.{◌≡◌, ◌&&◌, nat_le, length};
ghost use Rattle.std.specs.List.{list_all};
ghost use Rattle.std.specs.Str.{bytes_eq};
ghost use Rattle.wm_cells.specs.Lookups.{referred};
ghost use Rattle.wm_graph.specs.Rules.{differ, is_short, are_key_columns, is_table};

use wm_cells::{names, rows};
use wm_spec::record::{Table, TableColumn};

/// The most tables of a store.
const MOST_TABLES: usize = 256;

/// The most columns of a table.
const MOST_COLUMNS: usize = 32;

/// The most key columns of a table.
const MOST_KEY_COLUMNS: usize = 1;

/// Whether the names of the columns are short.
fn names_are_short(columns: &[TableColumn]) -> bool
    ensures { result ≡ list_all (λ c. is_short c.name) columns.now }
{
    columns.iter().all(|column| names::is_short(&column.name))
}

/// Whether there are not too many key columns, each of which is there.
fn are_key_columns(table: &Table) -> bool
    ensures { result ≡ are_key_columns table.now }
{
    let places = table.key_columns.as_slice();
    let count = table.columns.len();
    places.len() <= MOST_KEY_COLUMNS && places.iter().all(|place| usize::from(*place) < count)
}

/// Whether the table is in order by itself.
fn is_table(table: &Table) -> bool
    ensures { result ≡ is_table table.now }
{
    let columns = table.columns.as_slice();
    let count = columns.len();
    if count < 1 || count > MOST_COLUMNS {
        return false;
    }
    names::names_differ(columns)
        && names::is_short(&table.name)
        && names_are_short(columns)
        && are_key_columns(table)
        && (!table.versioned || rows::has_key(table))
}

/// Whether each table is in order by itself.
fn each_is_table(tables: &[&Table]) -> bool
    ensures { result ≡ list_all is_table (referred tables.now) }
{
    for table in tables {
        if !is_table(table) {
            return false;
        }
    }
    true
}

/// Whether the names of the tables differ.
#[tactic(auto, using(wm_cells::proofs::Referring::differ_referred))]
fn names_differ(tables: &[&Table]) -> bool
    ensures { result ≡ differ (λ t u. bytes_eq t.name u.name) (referred tables.now) }
{
    names::names_differ(tables)
}

/// Whether there are not too many tables, their names differ and each is in order by itself.
#[tactic(auto, using(wm_cells::proofs::Referring::length_referred))]
pub fn are_tables(tables: &[&Table]) -> bool
    ensures { result ≡ (nat_le (length (referred tables.now)) 256 && (differ (λ t u. bytes_eq t.name u.name) (referred tables.now) && list_all is_table (referred tables.now))) }
{
    tables.len() <= MOST_TABLES && names_differ(tables) && each_is_table(tables)
}
