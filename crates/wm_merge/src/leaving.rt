//! What a merge is refused for that is to remove its workspace, or to keep the parent in a savepoint first.

ghost use Rattle.std.specs.Prelude.{◌≡◌, true, IfOk};
ghost use Rattle.wm_graph.specs.Parts.{parts_of};
ghost use Rattle.wm_graph.specs.Rules.{keep_rules};
ghost use Rattle.wm_model.specs.Merged.{keeping_refusal, leaving_refusal, naming_refusal};
ghost use Rattle.wm_model.specs.Undone.{going_refusal};

use std::alloc::Global;
use wm_base::{Memory, Refusal};
use wm_changes::names::implicit_name;
use wm_image::Image;
use wm_plan::refuse::{at_its_end, has_child, most_savepoints, savepoint_there};
use wm_plan::session::Session;
use wm_space::removing::{first_inside, inside_refusal};
use wm_space::saving::{SAVEPOINT_LIMIT, is_last};
use wm_spec::record::Space;

/// What a workspace that is to go is refused for: a session stands in it, or it has a child.
fn going_refusal(
    alloc: Global,
    image: &Image,
    sessions: &[Session],
    space: &Space,
) -> Result<Option<Refusal>, Memory>
    requires rules { keep_rules (parts_of image.now) ≡ true }
    ensures { IfOk result (λ fault. fault ≡ going_refusal (parts_of image.now) sessions.now space.now) }
{
    if let Some(session) = first_inside(sessions, space.number) {
        return inside_refusal(alloc, space, session);
    }
    if let Some(child) = image.child_from(space.number, 0, 0) {
        let child = has_child(space.name.copy(alloc)?, child.name.copy(alloc)?);
        return Ok(child.into_refusal());
    }
    Ok(None)
}

/// What a merge that removes its workspace is refused for, as the removal alone would be.
pub fn leaving_refusal(
    alloc: Global,
    image: &Image,
    sessions: &[Session],
    space: &Space,
    removes: bool,
) -> Result<Option<Refusal>, Memory>
    requires rules { keep_rules (parts_of image.now) ≡ true }
    ensures { IfOk result (λ fault. fault ≡ leaving_refusal removes (parts_of image.now) sessions.now space.now) }
{
    if !removes {
        return Ok(None);
    }
    going_refusal(alloc, image, sessions, space)
}

/// What a merge that keeps the parent first is refused for: the name of the savepoint stands there.
pub fn naming_refusal(
    alloc: Global,
    image: &Image,
    parent: &Space,
    keeps: bool,
) -> Result<Option<Refusal>, Memory>
    requires rules { keep_rules (parts_of image.now) ≡ true }
    ensures { IfOk result (λ fault. fault ≡ naming_refusal keeps (parts_of image.now) parent.now) }
{
    if !keeps {
        return Ok(None);
    }
    let name = implicit_name(alloc, parent.next_implicit)?;
    if image
        .savepoint_named(parent.number, name.as_bytes())
        .is_some()
    {
        return Ok(savepoint_there(name).into_refusal());
    }
    Ok(None)
}

/// And where the parent has no room for the savepoint.
pub fn keeping_refusal(
    alloc: Global,
    image: &Image,
    parent: &Space,
    keeps: bool,
) -> Result<Option<Refusal>, Memory>
    requires rules { keep_rules (parts_of image.now) ≡ true }
    ensures { IfOk result (λ fault. fault ≡ keeping_refusal keeps (parts_of image.now) parent.now) }
{
    if !keeps {
        return Ok(None);
    }
    if image.savepoint_count(parent.number) >= SAVEPOINT_LIMIT {
        return Ok(most_savepoints().into_refusal());
    }
    if is_last(parent.next_place) {
        return Ok(at_its_end(alloc, b"PLACE")?.into_refusal());
    }
    if is_last(parent.next_implicit) {
        return Ok(at_its_end(alloc, b"ICP")?.into_refusal());
    }
    Ok(None)
}
