//! Whether entries can be written again, and what is own copied. In every state that lines lead to they can.

ghost use Rattle.std.specs.Prelude.{◌≡◌, ◌&&◌, not, map};
ghost use Rattle.std.specs.List.{list_all};
ghost use Rattle.wm_graph.specs.Parts.{parts_of};
ghost use Rattle.wm_merge.specs.Views.{has_next_turn};
ghost use Rattle.wm_model.specs.Merged.{are_keys_kept, is_ready_entry};
ghost use Rattle.wm_pending.specs.Owned.{key_pieces};
ghost use Rattle.wm_state.specs.Editing.{entry_of};

use wm_image::Image;
use wm_pending::OwnKey;
use wm_plan::kept::are_kept;
use wm_space::saving::is_last;
use wm_spec::record::Space;
use wm_state::edit::NewEntry;

/// Whether an entry can be written again.
fn is_ready_entry(image: &Image, entry: &NewEntry) -> bool
    ensures { result ≡ is_ready_entry (parts_of image.now) (entry_of entry.now) }
{
    let versioned = match image.table_numbered(entry.table) {
        Some(table) => table.versioned,
        None => false,
    };
    let kept = match &entry.row {
        Some(values) => are_kept(values.as_slice()),
        None => true,
    };
    versioned && (are_kept(entry.key.values()) && kept)
}

/// Whether all of some entries can.
fn are_ready(image: &Image, entries: &[NewEntry]) -> bool
    ensures { result ≡ list_all (is_ready_entry (parts_of image.now)) (map entry_of entries.now) }
{
    for entry in entries {
        if !is_ready_entry(image, entry) {
            return false;
        }
    }
    true
}

/// Whether records can keep the keys of what is own, of those that have pieces.
fn are_keys_kept(own: &[OwnKey]) -> bool
    ensures { result ≡ are_keys_kept (map key_pieces own.now) }
{
    for key in own {
        if !key.pieces.is_empty() && !are_kept(key.key.values()) {
            return false;
        }
    }
    true
}

/// Whether a workspace that may be rebased once more already has the turn that this makes.
fn has_next_turn(image: &Image, space: &Space) -> bool
    ensures { result ≡ has_next_turn (parts_of image.now) space.now }
{
    !is_last(space.rebases) && image.has_turn(space.number, space.rebases + 1)
}

/// Whether a workspace can be refreshed with entries, and what is its own be copied.
pub fn can_refresh(image: &Image, space: &Space, own: &[OwnKey], entries: &[NewEntry]) -> bool
    ensures { result ≡ ((are_keys_kept (map key_pieces own.now) && list_all (is_ready_entry (parts_of image.now)) (map entry_of entries.now)) && not (has_next_turn (parts_of image.now) space.now)) }
{
    (are_keys_kept(own) && are_ready(image, entries)) && !has_next_turn(image, space)
}

/// Whether entries of a workspace can come into its parent, and others into its own log.
pub fn can_merge(image: &Image, space: &Space, own: &[NewEntry], gained: &[NewEntry]) -> bool
    ensures { result ≡ ((list_all (is_ready_entry (parts_of image.now)) (map entry_of own.now) && list_all (is_ready_entry (parts_of image.now)) (map entry_of gained.now)) && not (has_next_turn (parts_of image.now) space.now)) }
{
    (are_ready(image, own) && are_ready(image, gained)) && !has_next_turn(image, space)
}
