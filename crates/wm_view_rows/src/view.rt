//! What the name of a source says.
ghost use Rattle.std.specs.Prelude.{◌≡◌};
ghost use Rattle.wm_view_rows.specs.Views.{table_sought, view_named};

/// What is shown of a table: its rows, their conflicts, the differences of two points, its history, or the locks on it.
#[derive(Clone, Copy)]
pub enum View {
    Rows,
    Conflicts,
    Differences,
    History,
    Locks,
}

/// What the name of a source says is shown. No table has a name that ends like that of a view.
pub fn view_named(name: &[u8]) -> View
    ensures { result ≡ view_named name.now }
{
    if name.ends_with(b"_CONF") {
        View::Conflicts
    } else if name.ends_with(b"_DIFF") {
        View::Differences
    } else if name.ends_with(b"_HIST") {
        View::History
    } else if name.ends_with(b"_LOCK") {
        View::Locks
    } else {
        View::Rows
    }
}

/// The name of the table that a source is of: that of a view without its end.
pub fn table_sought(name: &[u8]) -> &[u8]
    ensures { result.now ≡ table_sought name.now }
{
    match view_named(name) {
        View::Rows => name,
        // The ends have one length.
        View::Conflicts | View::Differences | View::History | View::Locks => {
            &name[..name.len().saturating_sub(5)]
        }
    }
}
