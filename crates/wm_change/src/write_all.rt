//! Changes of rows, once nothing is wrong with them.
ghost use Rattle.std.specs.Prelude.{◌≡◌, true, [], IfOk};
ghost use Rattle.std.specs.List.{list_all};
ghost use Rattle.wm_dml.specs.Standing.{change_keys, change_lasts, is_change};
ghost use Rattle.wm_change.specs.Acting.{DoesAt, IsSite};
ghost use Rattle.wm_change.specs.Changing.{is_filled_change};
ghost use Rattle.wm_plan.specs.Idle.{Idles};
ghost use Rattle.wm_model.specs.Step.{write_ascending};
ghost use Rattle.wm_state.specs.Drawing.{are_sorted};

use crate::site::Site;
use crate::write_changes::write_changes;
use std::alloc::Global;
use std::cmp::Ordering;
use wm_base::{Key, Memory};
use wm_dml::RowChange;
use wm_plan::answer::Answer;
use wm_plan::planned::Planned;
use wm_plan::refuse::not_built;

/// Whether no key that is changed is above the next.
fn are_sorted(changes: &[RowChange]) -> bool
    ensures { result ≡ are_sorted (change_keys changes.now) }
{
    let mut last: Option<&Key> = None;
    for change in changes {
        if let Some(last) = last {
            if last.compare(&change.key) == Ordering::Greater {
                return false;
            }
        }
        last = Some(&change.key);
    }
    true
}

/// Writes the changes, if there are any, unless a lock bars them, while changes are left, and answers that so many rows
/// are changed.
pub fn write_all(
    alloc: Global,
    site: Site<'_>,
    rows_changed: u64,
    changes: Vec<RowChange>,
) -> Result<Planned, Memory>
    requires site { IsSite site }
    requires fit { list_all (is_change site.table.now) changes.items ≡ true }
    requires last { list_all change_lasts changes.items ≡ true }
    requires filled { list_all is_filled_change changes.items ≡ true }
    requires counted { rows_changed ≡ 0 → changes.items ≡ [] }
    ensures does { IfOk result (DoesAt site.entry (write_ascending site.entry.session.now site.entry.table.now rows_changed changes.items)) }
    ensures idle { IfOk result Idles }
{
    if !are_sorted(changes.as_slice()) {
        return Ok(Planned::answered(alloc, not_built()));
    }
    if changes.len() == 0 {
        return Ok(Planned::answered(alloc, Answer::Done(0)));
    }
    write_changes(alloc, site, rows_changed, changes)
}
