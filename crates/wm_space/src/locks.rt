//! When the locks of a workspace were made.
ghost use Rattle.std.specs.Prelude.{◌≡◌, nat_lt, true};
ghost use Rattle.std.specs.List.{list_all};
ghost use Rattle.std.specs.Option.{option_and_then, option_copied, option_map_or};
ghost use Rattle.wm_graph.specs.Parts.{as_lock, parts_of};
ghost use Rattle.wm_spec.specs.declared.record.lock.Lock.{Lock as OneLock};
ghost use Rattle.wm_state.specs.Editing.{stays_held};
ghost use Rattle.wm_state.specs.Standing.{locks_by_making};

use wm_image::Image;
use wm_spec::record::{Lock, Record};

/// A record as a lock.
fn lock_of(found: Option<&Record>) -> Option<&Lock>
    ensures { option_copied result ≡ option_and_then as_lock (option_copied found.entry) }
{
    match found {
        Some(Record::Lock(lock)) => Some(lock.get()),
        _ => None,
    }
}

/// Whether a record is no lock, or one that was made before a place of its workspace.
fn is_before(found: Option<&Record>, place: u32) -> bool
    ensures { result ≡ option_map_or (λ (x : OneLock). nat_lt x.place place) (option_and_then as_lock (option_copied found.entry)) true }
{
    match lock_of(found) {
        Some(lock) => lock.place < place,
        None => true,
    }
}

/// Whether each lock of a workspace was made before a place of it.
pub fn are_before(image: &Image, place: u32, space: u32) -> bool
    ensures { result ≡ list_all (stays_held space place) (locks_by_making (parts_of image.now).locks) }
{
    image.law_of_order();
    let Some(ids) = image.locks_of(space) else {
        return true;
    };
    for id in ids {
        if !is_before(image.record(*id), place) {
            return false;
        }
    }
    true
}
