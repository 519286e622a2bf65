//! The table whose valid time a query names.
ghost use Rattle.std.specs.Prelude.{◌≡◌, [], option_copied};
ghost use Rattle.wm_syntax.specs.Views.{query_view, src_view, srcs_view};
ghost use Rattle.wm_query_faults.specs.Lacking.{label, table_of, last_table, table_meant, table_lacking};

use crate::lacking_parts::lacking_in_query;
use wm_base::Name;
use wm_listing::Column;
use wm_syntax::query::{Query, Src};

/// The name that the source goes by: its alias, where it has one.
fn label(source: &Src) -> &[u8]
    ensures { result.now ≡ label (src_view source.now) }
{
    match &source.alias {
        Some(alias) => alias.as_bytes(),
        None => source.table.as_bytes(),
    }
}

/// The table of the first source of that name.
fn table_of<'a>(name: &'a [u8], sources: &'a [Src]) -> &'a [u8]
    ensures { result.now ≡ table_of name.now (srcs_view sources.now) }
{
    for source in sources {
        if name == label(source) {
            return source.table.as_bytes();
        }
    }
    name
}

/// The table of the last source.
fn last_table(sources: &[Src]) -> &[u8]
    ensures { result.now ≡ last_table [] (srcs_view sources.now) }
{
    let mut table: &[u8] = &[];
    for source in sources {
        table = source.table.as_bytes();
    }
    table
}

/// The table of the source that stands before WM_VALID, and the last table where none does.
fn table_meant<'a>(sources: &'a [Src], source: &'a Option<Name>) -> &'a [u8]
    ensures { result.now ≡ table_meant (srcs_view sources.now) source.now }
{
    match source {
        Some(name) => table_of(name.as_bytes(), sources),
        None => last_table(sources),
    }
}

/// The table of the first WM_VALID that the query names and that is not there.
pub fn table_lacking<'a>(columns: &[Column], query: &'a Query) -> Option<&'a [u8]>
    ensures { option_copied result ≡ table_lacking columns.now (query_view query.now) }
{
    match lacking_in_query(columns, query) {
        Some(source) => Some(table_meant(query.sources.as_slice(), source)),
        None => None,
    }
}
