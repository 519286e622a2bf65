//! A workspace is frozen, or is free again.
ghost use Rattle.std.specs.Prelude.{◌≡◌, ◌∷◌, [], true, IfOk};
ghost use Rattle.wm_graph.specs.Parts.{parts_of};
ghost use Rattle.wm_graph.specs.Rules.{keep_rules};
ghost use Rattle.wm_state.specs.Drafts.{CanFreeze, CanWork, DraftsBy};
ghost use Rattle.wm_state.specs.declared.edit.Edit.TheVariants as edits;

use crate::batches::space_changes;
use std::alloc::Global;
use wm_base::{Memory, Name};
use wm_changes::copies::space_copy;
use wm_changes::counts::moved;
use wm_image::Image;
use wm_spec::record::{Changes, FreezeMode, Space};

/// The workspace, frozen so.
fn frozen(alloc: Global, mode: FreezeMode, writer: Name, space: &Space) -> Result<Space, Memory>
    ensures { IfOk result (λ new. new ≡ record space.now { freeze = mode; writer = writer }) }
{
    let mut new = space_copy(alloc, space)?;
    new.freeze = mode;
    new.writer = writer;
    Ok(new)
}

/// A workspace is frozen so, with the one who may write then, or is free.
pub fn freeze(
    alloc: Global,
    image: &Image,
    moment: u64,
    work: u64,
    space: u32,
    mode: FreezeMode,
    writer: Name,
) -> Result<Changes, Memory>
    requires rules { keep_rules (parts_of image.now) ≡ true }
    requires work { CanWork (parts_of image.now) moment work }
    requires can { CanFreeze (parts_of image.now) space writer }
    ensures { IfOk result (DraftsBy work image.now moment (edits.Freeze space mode writer ∷ [])) }
{
    image.law_of_order();
    let old = image.space(space).unwrap();
    let space_id = image.id_of_space(space).unwrap();
    let counters_id = image.id_of_counters();
    let counters = moved(image.counters(), moment, work);
    let new = frozen(alloc, mode, writer, old)?;
    let changes = space_changes(alloc, counters_id, counters, space_id, new)?;
    Ok(changes)
}
