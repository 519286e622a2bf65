//! The locks on a key.
ghost use Rattle.std.specs.Prelude.{◌≡◌, true, IfOk};
ghost use Rattle.std.specs.List.{list_all};
ghost use Rattle.wm_barred.specs.Alone.{is_timed};
ghost use Rattle.wm_barred.specs.Views.{stretch_view};
ghost use Rattle.wm_graph.specs.Parts.{parts_of};
ghost use Rattle.wm_graph.specs.Rules.{keep_rules};
ghost use Rattle.wm_guard.specs.Barring.{locks_at};
ghost use Rattle.wm_guard.specs.Orders.{nows};
ghost use Rattle.wm_state.specs.Standing.{locks_by_making};

use crate::stretch::Stretch;
use std::alloc::Global;
use wm_base::Memory;
use wm_image::Image;
use wm_locks::locks::locks_at;
use wm_spec::record::Lock;

/// The locks on the key of cells, in order. A key that has none costs one look.
pub fn locks_on<'a>(
    alloc: Global,
    image: &'a Image,
    cells: Stretch<'_>,
) -> Result<Vec<&'a Lock>, Memory>
    requires rules { keep_rules (parts_of image.now) ≡ true }
    ensures locks { IfOk result (λ list. nows list.items ≡ locks_at (stretch_view cells.entry).table (stretch_view cells.entry).key (locks_by_making (parts_of image.now).locks)) }
    ensures timed { IfOk result (λ list. list_all is_timed (nows list.items) ≡ true) }
{
    if image.locks_on(cells.table, cells.key).is_empty() {
        image.law_of_order();
        return Ok(Vec::new(alloc));
    }
    locks_at(alloc, image, cells.table, cells.key)
}
