//! What hangs on a workspace behind a savepoint of it: savepoints and marks of it, and children that took what came
//! behind.

ghost use Rattle.std.specs.Prelude.{◌≡◌, ◌+◌, nat_le, nat_lt, false};
ghost use Rattle.std.specs.List.{find, list_all, list_any};
ghost use Rattle.std.specs.Option.{option_and_then, option_copied, option_map, option_map_or};
ghost use Rattle.wm_graph.specs.Parts.{as_mark, as_space, parts_of};
ghost use Rattle.wm_ground.specs.Grounds.{outline_on};
ghost use Rattle.wm_index.specs.Kinds.{passing};
ghost use Rattle.wm_model.specs.Step.{decides_beyond, depends, stays_behind};
ghost use Rattle.wm_outline.specs.Outline.{outline_by};
ghost use Rattle.wm_spec.specs.declared.record.trace.Trace.{Trace as OneTrace};
ghost use Rattle.wm_state.specs.Standing.{saved_fields};
ghost use Rattle.wm_state.specs.State.{Decision as OneDecision};

use wm_decided::decision::Decision;
use wm_ground::ground::Ground;
use wm_image::Image;
use wm_image::children::lesser;
use wm_index::kinds::space_of;
use wm_plan::session::Session;
use wm_spec::record::{Record, Savepoint, Space, Trace};

// ---- savepoints and marks

/// Whether each savepoint of a workspace stays where it goes back to this one.
pub fn all_stay_behind(image: &Image, space: &Space, savepoint: &Savepoint) -> bool
    ensures { result ≡ list_all (stays_behind (saved_fields savepoint.now)) (outline_by (parts_of image.now) space.now).savepoints }
{
    !image.has_savepoint_behind(space.number, savepoint.place, savepoint.log_length)
}

/// A record as a mark.
fn mark_of(found: Option<&Record>) -> Option<&Trace>
    ensures { option_copied result ≡ option_and_then as_mark (option_copied found.entry) }
{
    match found {
        Some(Record::Mark(mark)) => Some(mark),
        _ => None,
    }
}

/// Whether a record is a mark that was made at a place of its workspace or behind.
fn is_since(found: Option<&Record>, place: u32) -> bool
    ensures { result ≡ option_map_or (λ (m : OneTrace). nat_le place m.place) (option_and_then as_mark (option_copied found.entry)) false }
{
    match mark_of(found) {
        Some(mark) => mark.place >= place,
        None => false,
    }
}

/// Whether a mark of a workspace was made at a place of it or behind.
pub fn is_marked_since(image: &Image, place: u32, space: &Space) -> bool
    ensures { result ≡ nat_lt place (outline_by (parts_of image.now) space.now).marks_since }
{
    image.law_of_order();
    for id in image.marks_in(space.number) {
        if is_since(image.record(*id), place) {
            return true;
        }
    }
    false
}

/// Whether a record is a mark at a position beyond a length of a log.
fn is_beyond(found: Option<&Record>, limit: u64) -> bool
    ensures { result ≡ option_map_or (λ (m : OneTrace). nat_lt limit m.position) (option_and_then as_mark (option_copied found.entry)) false }
{
    match mark_of(found) {
        Some(mark) => mark.position > limit,
        None => false,
    }
}

/// Whether a mark of a workspace is at a position beyond a length of its parent's log.
fn is_marked_beyond(image: &Image, limit: u64, space: &Space) -> bool
    ensures { result ≡ nat_lt (limit + 1) (outline_by (parts_of image.now) space.now).marks_reach }
{
    image.law_of_order();
    for id in image.marks_in(space.number) {
        if is_beyond(image.record(*id), limit) {
            return true;
        }
    }
    false
}

// ---- decisions

/// Whether one of some decisions is at such a position.
fn is_decided_beyond(decisions: &[Decision], limit: u64) -> bool
    ensures { result ≡ list_any (λ (d : OneDecision). nat_lt limit d.position) decisions.now }
{
    for decision in decisions {
        if decision.position() > limit {
            return true;
        }
    }
    false
}

/// Whether a session has made such a decision for the workspace.
fn decides_beyond(session: &Session, limit: u64, space: u32) -> bool
    ensures { result ≡ decides_beyond limit space session.now }
{
    match session.resolve() {
        Some(resolve) => {
            resolve.space == space && is_decided_beyond(resolve.decisions.as_slice(), limit)
        }
        None => false,
    }
}

/// Whether some session has.
fn any_decides_beyond(sessions: &[Session], limit: u64, space: u32) -> bool
    ensures { result ≡ list_any (decides_beyond limit space) sessions.now }
{
    for session in sessions {
        if decides_beyond(session, limit, space) {
            return true;
        }
    }
    false
}

// ---- children

/// Whether a child of a workspace took what came behind a savepoint of it, or a mark or a decision of a resolve of the
/// child did.
fn is_dependent(ground: Ground<'_>, space: &Space, savepoint: &Savepoint, child: &Space) -> bool
    ensures { result ≡ depends (outline_on ground.entry).sessions (outline_by (parts_of ground.entry.image.now) space.now) (saved_fields savepoint.now) (outline_by (parts_of ground.entry.image.now) child.now) }
{
    if child.parent != space.number || child.number == space.number {
        return false;
    }
    let limit = savepoint.log_length;
    (child.birth_place > savepoint.place || child.from > limit)
        || (is_marked_beyond(ground.image, limit, child)
            || any_decides_beyond(ground.sessions, limit, child.number))
}

/// A record that is such a child.
fn dependent_at<'a>(
    ground: Ground<'_>,
    space: &Space,
    savepoint: &Savepoint,
    found: Option<&'a Record>,
) -> Option<&'a Space>
    ensures { option_copied result ≡ passing (λ r. depends (outline_on ground.entry).sessions (outline_by (parts_of ground.entry.image.now) space.now) (saved_fields savepoint.now) (outline_by (parts_of ground.entry.image.now) r)) (option_and_then as_space (option_copied found.entry)) }
{
    let child = space_of(found)?;
    if is_dependent(ground, space, savepoint, child) {
        Some(child)
    } else {
        None
    }
}

/// The first such child, by number.
pub fn first_dependent<'a>(
    ground: Ground<'a>,
    space: &Space,
    savepoint: &Savepoint,
) -> Option<&'a Space>
    ensures { find (depends (outline_on ground.entry).sessions (outline_by (parts_of ground.entry.image.now) space.now) (saved_fields savepoint.now)) (outline_on ground.entry).spaces ≡ option_map (outline_by (parts_of ground.entry.image.now)) (option_copied result) }
{
    let mut first = None;
    for id in ground.image.spaces() {
        let found = ground.image.record(*id);
        first = lesser(first, dependent_at(ground, space, savepoint, found));
    }
    first
}
