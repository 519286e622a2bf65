//! What a workspace has of its own, as entries of the line that merges it.

ghost use Rattle.std.specs.Prelude.{◌≡◌, map, true, IfOk};
ghost use Rattle.wm_graph.specs.Parts.{parts_of};
ghost use Rattle.wm_graph.specs.Rules.{keep_rules};
ghost use Rattle.wm_pending.specs.Owned.{key_pieces};
ghost use Rattle.wm_state.specs.Editing.{entry_of};
ghost use Rattle.wm_telling.specs.Telling.{AreOwn, IsHeldListing, own_held};

use crate::entries::push_entries;
use crate::own::OwnKey;
use std::alloc::Global;
use wm_base::{Memory, Name};
use wm_image::Image;
use wm_spec::record::Space;
use wm_state::edit::NewEntry;

/// What a workspace has of its own, by table, key and from: each entry keeps its row, its stamp and its kind, and takes
/// the moment and the user of the line.
pub fn net_own(
    alloc: Global,
    image: &Image,
    space: &Space,
    own: &[OwnKey],
    moment: u64,
    user: &Name,
) -> Result<Vec<NewEntry>, Memory>
    requires rules { keep_rules (parts_of image.now) ≡ true }
    requires own { AreOwn (parts_of image.now) space.now (map key_pieces own.now) }
    ensures { IfOk result (λ net. IsHeldListing (parts_of image.now) moment user.now (own_held (parts_of image.now) space.now) (map entry_of net.items)) }
{
    let mut entries = Vec::new(alloc);
    for key in own {
        push_entries(alloc, image, &mut entries, key, moment, user)?;
    }
    Ok(entries)
}
