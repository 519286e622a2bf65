//! The sources of a query: the table that each is of, what it is called, its columns, and what is lost among them.
ghost use Rattle.std.specs.Prelude.{◌≡◌, ◌++◌, true, IfOk, OnOk};
ghost use Rattle.std.specs.Option.{option_copied};
ghost use Rattle.wm_syntax.specs.Views.{src_view, srcs_view};
ghost use Rattle.wm_graph.specs.Parts.{parts_of};
ghost use Rattle.wm_graph.specs.Rules.{keep_rules};
ghost use Rattle.wm_model.specs.Planning.{tables_in};
ghost use Rattle.wm_model.specs.Step.{columns_in, lacks_history, lost_history, lost_source, source_name, table_asked, table_off, tables_of};
ghost use Rattle.wm_view_rows.specs.Views.{is_history};

use std::alloc::Global;
use wm_base::{Memory, Name};
use wm_image::Image;
use wm_listing::{Column, Columns};
use wm_spec::record::Table;
use wm_syntax::query::Src;
use wm_view_rows::columns::columns_of_view;
use wm_view_rows::view::{View, table_sought, view_named};

/// The table that a source is of.
pub fn table_asked<'a>(image: &'a Image, source: &Src) -> Option<&'a Table>
    requires { keep_rules (parts_of image.now) ≡ true }
    ensures { option_copied result ≡ table_asked (tables_in image.now) (src_view source.now) }
{
    image.table(table_sought(source.table.as_bytes()))
}

/// The name of the first source that is of no table.
pub fn lost_source<'a>(image: &Image, sources: &'a [Src]) -> Option<&'a Name>
    requires { keep_rules (parts_of image.now) ≡ true }
    ensures { option_copied result ≡ lost_source (tables_in image.now) (srcs_view sources.now) }
{
    for source in sources {
        let Some(_) = table_asked(image, source) else {
            return Some(&source.table);
        };
    }
    None
}

/// The name of the first table of the sources that is not ready for rows.
pub fn table_off<'a>(image: &'a Image, sources: &[Src]) -> Option<&'a Name>
    requires { keep_rules (parts_of image.now) ≡ true }
    ensures { option_copied result ≡ table_off (tables_of (tables_in image.now) (srcs_view sources.now)) }
{
    for source in sources {
        if let Some(table) = table_asked(image, source) {
            if !table.versioned {
                return Some(&table.name);
            }
        }
    }
    None
}

fn is_history(view: View) -> bool
    ensures { result ≡ is_history view }
{
    match view {
        View::History => true,
        View::Rows | View::Conflicts | View::Differences | View::Locks => false,
    }
}

/// Whether a source is the history of a table that keeps none.
fn lacks_history(source: &Src, table: &Table) -> bool
    ensures { result ≡ lacks_history (src_view source.now) table.now }
{
    is_history(view_named(source.table.as_bytes())) && !table.history
}

/// The name of the first table of the sources whose history is asked for and that keeps none.
pub fn lost_history<'a>(image: &'a Image, sources: &[Src]) -> Option<&'a Name>
    requires { keep_rules (parts_of image.now) ≡ true }
    ensures { option_copied result ≡ lost_history (tables_in image.now) (srcs_view sources.now) }
{
    for source in sources {
        if let Some(table) = table_asked(image, source) {
            if lacks_history(source, table) {
                return Some(&table.name);
            }
        }
    }
    None
}

/// What a source is called in the query.
pub fn source_name(source: &Src) -> &Name
    ensures { result.now ≡ source_name (src_view source.now) }
{
    match &source.alias {
        Some(alias) => alias,
        None => &source.table,
    }
}

/// Puts copies of columns behind others.
fn push_columns(alloc: Global, columns: &mut Vec<Column>, more: &[Column]) -> Result<(), Memory>
    ensures { OnOk result (columns.new.items ≡ columns.old.items ++ more.now) }
{
    for column in more {
        columns.push(column.copy(alloc)?)?;
    }
    Ok(())
}

/// The columns of all sources, one source after another.
pub fn columns_in(alloc: Global, image: &Image, sources: &[Src]) -> Result<Columns, Memory>
    requires { keep_rules (parts_of image.now) ≡ true }
    ensures { IfOk result (λ columns. columns ≡ columns_in (tables_in image.now) (srcs_view sources.now)) }
{
    let mut columns = Vec::new(alloc);
    for source in sources {
        if let Some(table) = table_asked(image, source) {
            let view = view_named(source.table.as_bytes());
            let own = columns_of_view(alloc, view, source_name(source), table)?;
            push_columns(alloc, &mut columns, own.as_slice())?;
        }
    }
    Ok(Columns::from_vec(columns))
}
