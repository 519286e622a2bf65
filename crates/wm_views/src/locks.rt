//! The locks on a table, as a session is shown them.
ghost use Rattle.std.specs.Prelude.{◌≡◌, true, IfOk};
ghost use Rattle.wm_graph.specs.Parts.{parts_of};
ghost use Rattle.wm_graph.specs.Rules.{keep_rules};
ghost use Rattle.wm_guard.specs.Barring.{locks_in};
ghost use Rattle.wm_guard.specs.Orders.{nows};
ghost use Rattle.wm_model.specs.Sources.{recorded_name};
ghost use Rattle.wm_view_rows.specs.Locks.{lock_view};

use std::alloc::Global;
use wm_base::Memory;
use wm_image::Image;
use wm_listing::RowList;
use wm_locks::locks::locks_in;
use wm_spec::record::{Lock, Table};
use wm_view_rows::rows::lock_row;

/// The name of the workspace of a number. That of a lock is there.
fn recorded_name(image: &Image, number: u32) -> &[u8]
    ensures { result.now ≡ recorded_name (parts_of image.now) number }
{
    match image.space(number) {
        Some(space) => space.name.as_bytes(),
        None => b"",
    }
}

/// The rows of the locks on a table, which are in order.
fn rows_of_locks(
    alloc: Global,
    image: &Image,
    table: &Table,
    locks: &[&Lock],
) -> Result<RowList, Memory>
    requires rules { keep_rules (parts_of image.now) ≡ true }
    requires locks { nows locks.now ≡ locks_in table.now.number (parts_of image.now).locks }
    ensures { IfOk result (λ rows. rows ≡ lock_view (recorded_name (parts_of image.now)) table.now (parts_of image.now).locks) }
{
    let mut rows = RowList::new(alloc);
    for lock in locks {
        let name = recorded_name(image, lock.space);
        let row = lock_row(alloc, name, table, lock)?;
        rows.push(row)?;
    }
    Ok(rows)
}

/// The locks on a table in all workspaces, by key, from, workspace and making.
pub fn locks_shown(alloc: Global, image: &Image, table: &Table) -> Result<RowList, Memory>
    requires { keep_rules (parts_of image.now) ≡ true }
    ensures { IfOk result (λ rows. rows ≡ lock_view (recorded_name (parts_of image.now)) table.now (parts_of image.now).locks) }
{
    let locks = locks_in(alloc, image, table.number)?;
    rows_of_locks(alloc, image, table, locks.as_slice())
}
