//! How a lock refuses a merge, and the edit by which locks go.

ghost use Rattle.std.specs.Prelude.{◌≡◌, ◌++◌, map, true, IfOk, OnOk};
ghost use Rattle.wm_graph.specs.Parts.{parts_of};
ghost use Rattle.wm_graph.specs.Rules.{keep_rules};
ghost use Rattle.wm_model.specs.Merged.{merge_lock_refusal};
ghost use Rattle.wm_model.specs.Step.{unlock_edits};
ghost use Rattle.wm_state.specs.Editing.{entry_of};

use std::alloc::Global;
use wm_barred::barring::{Claim, entries_fault};
use wm_base::{Memory, Refusal};
use wm_image::Image;
use wm_plan::session::Session;
use wm_spec::record::Space;
use wm_state::edit::{Edit, Makings, NewEntry};

/// What a merge is refused for since a lock keeps the user from what the workspace has of its own, in its parent. The locks
/// of the workspace itself do not.
pub fn lock_refusal(
    alloc: Global,
    image: &Image,
    session: &Session,
    space: &Space,
    parent: &Space,
    own: &[NewEntry],
) -> Result<Option<Refusal>, Memory>
    requires rules { keep_rules (parts_of image.now) ≡ true }
    ensures { IfOk result (λ fault. fault ≡ merge_lock_refusal session.now (parts_of image.now) space.now parent.now (map entry_of own.now)) }
{
    let claim = Claim {
        space: parent.number,
        user: session.user(),
        except: Some(space.number),
    };
    entries_fault(alloc, image, claim, own)
}

/// Puts the edit by which the locks of some makings go behind others, where there are any.
pub fn push_unlock(edits: &mut Vec<Edit>, makings: Vec<u64>) -> Result<(), Memory>
    ensures { OnOk result (edits.new.items ≡ edits.old.items ++ unlock_edits makings.items) }
{
    if !makings.is_empty() {
        edits.push(Edit::Unlock {
            makings: Makings::from_vec(makings),
        })?;
    }
    Ok(())
}
