//! Entries of several tables as records.

ghost use Rattle.std.specs.Prelude.{ℕ, ◌≡◌, ◌+◌, ◌<◌, ◌^◌, length, map, IfOk};
ghost use Rattle.wm_graph.specs.Parts.{parts_of};
ghost use Rattle.wm_spec.specs.declared.record.Record.TheVariants as records;
ghost use Rattle.wm_state.specs.Editing.{entry_of};
ghost use Rattle.wm_state.specs.Entries.{hists_kept, pieces_of};
ghost use Rattle.wm_state.specs.Touching.{marks_of};

use std::alloc::Global;
use wm_append::append::entered::{Entered, Target, add_entry};
use wm_append::append::made::has_history;
use wm_base::Memory;
use wm_image::Image;
use wm_spec::record::Space;
use wm_state::edit::Entries;

/// The records of entries that come into a version of a workspace, at the last place that was given there and behind
/// its log. Their rows are there already.
pub fn enter(
    alloc: Global,
    image: &Image,
    space: &Space,
    version: u64,
    entries: Entries,
) -> Result<Entered, Memory>
    requires place { 0 < space.now.next_place }
    requires log { space.now.log_length + length entries < 2 ^ 64 }
    ensures pieces { IfOk result (λ entered. entered.pieces.items ≡ pieces_of version (map entry_of entries)) }
    ensures marks { IfOk result (λ entered. (place : ℕ) → space.now.next_place ≡ place + 1 → entered.marks.items ≡ marks_of place space.now.log_length (map entry_of entries)) }
    ensures hists { IfOk result (λ entered. entered.hists.items ≡ map records.Hist (hists_kept (parts_of image.now).tables space.now.number space.now.log_length (map entry_of entries))) }
{
    let mut entered = Entered {
        rows: Vec::new(alloc),
        pieces: Vec::new(alloc),
        marks: Vec::new(alloc),
        hists: Vec::new(alloc),
    };
    let mut position = space.log_length;
    for entry in entries.into_vec() {
        let target = Target {
            version,
            space: space.number,
            place: space.next_place - 1,
            history: has_history(image, entry.table),
        };
        add_entry(alloc, &mut entered, target, position, entry)?;
        position += 1;
    }
    Ok(entered)
}
