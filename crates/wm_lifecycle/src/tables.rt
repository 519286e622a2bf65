//! A table is made, or becomes ready for rows.
ghost use Rattle.std.specs.Prelude.{◌≡◌, ◌∷◌, [], true, IfOk, IfErr};
ghost use Rattle.wm_graph.specs.Parts.{parts_of};
ghost use Rattle.wm_graph.specs.Rules.{keep_rules};
ghost use Rattle.wm_changes.specs.Ids.{HasGreatId};
ghost use Rattle.wm_state.specs.Drafts.{CanCreate, CanEnable, CanWork, DraftsBy};
ghost use Rattle.wm_state.specs.declared.edit.Edit.TheVariants as edits;

use crate::batches::{readied, table_changes};
use std::alloc::Global;
use wm_base::{Memory, Name};
use wm_changes::DraftFault;
use wm_changes::counts::{ids_from, moved};
use wm_image::Image;
use wm_spec::record::{Changes, Table};

/// A table is made.
pub fn create(
    alloc: Global,
    image: &Image,
    moment: u64,
    work: u64,
    table: Table,
) -> Result<Changes, DraftFault>
    requires rules { keep_rules (parts_of image.now) ≡ true }
    requires work { CanWork (parts_of image.now) moment work }
    requires can { CanCreate (parts_of image.now) table }
    ensures drafts { IfOk result (DraftsBy work image.now moment (edits.Create table ∷ [])) }
    ensures full { IfErr result (λ fault. fault ≡ DraftFault.Ids → HasGreatId image.now) }
{
    let id = ids_from(image, 1)?;
    let counters = moved(image.counters(), moment, work);
    let changes = table_changes(alloc, image.id_of_counters(), counters, id, table)?;
    Ok(changes)
}

/// The table of a name becomes ready for rows, with or without valid time and with or without its history.
pub fn enable(
    alloc: Global,
    image: &Image,
    moment: u64,
    work: u64,
    name: &Name,
    valid: bool,
    history: bool,
) -> Result<Changes, Memory>
    requires rules { keep_rules (parts_of image.now) ≡ true }
    requires work { CanWork (parts_of image.now) moment work }
    requires can { CanEnable (parts_of image.now) name.now }
    ensures { IfOk result (DraftsBy work image.now moment (edits.Enable name.now valid history ∷ [])) }
{
    let table = image.table(name.as_bytes()).unwrap();
    let id = image.id_of_table(name.as_bytes()).unwrap();
    let counters = moved(image.counters(), moment, work);
    let ready = readied(alloc, valid, history, table)?;
    let changes = table_changes(alloc, image.id_of_counters(), counters, id, ready)?;
    Ok(changes)
}
