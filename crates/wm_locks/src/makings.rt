//! The makings of the locks of a workspace.
ghost use Rattle.std.specs.Prelude.{◌≡◌, ◌++◌, map, IfOk, OnOk};
ghost use Rattle.std.specs.Option.{option_and_then, option_copied, option_to_list};
ghost use Rattle.wm_graph.specs.Parts.{as_lock, parts_of};
ghost use Rattle.wm_guard.specs.Barring.{makings_of};
ghost use Rattle.wm_spec.specs.declared.record.lock.Lock.{Lock as OneLock};

use crate::locks::lock_of;
use std::alloc::Global;
use wm_base::Memory;
use wm_image::Image;
use wm_spec::record::Record;

/// Puts the making of a record behind others, where it is a lock.
fn push_making(makings: &mut Vec<u64>, found: Option<&Record>) -> Result<(), Memory>
    ensures { OnOk result (makings.new.items ≡ makings.old.items ++ map (λ (x : OneLock). x.making) (option_to_list (option_and_then as_lock (option_copied found.entry)))) }
{
    if let Some(lock) = lock_of(found) {
        makings.push(lock.making)?;
    }
    Ok(())
}

/// The makings of the locks of a workspace, as they are recorded. No other lock is looked at.
pub fn makings_of(alloc: Global, image: &Image, space: u32) -> Result<Vec<u64>, Memory>
    ensures { IfOk result (λ list. list.items ≡ makings_of space (parts_of image.now).locks) }
{
    image.law_of_order();
    let mut makings = Vec::new(alloc);
    let Some(ids) = image.locks_of(space) else {
        return Ok(makings);
    };
    for id in ids {
        push_making(&mut makings, image.record(*id))?;
    }
    Ok(makings)
}
