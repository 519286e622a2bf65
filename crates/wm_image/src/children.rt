//! Children of a workspace, and its savepoints, that stand behind a place of it.

ghost use Rattle.std.specs.Prelude.{◌≡◌, false};
ghost use Rattle.std.specs.List.{list_any};
ghost use Rattle.std.specs.Option.{option_copied, option_and_then, option_map_or};
ghost use Rattle.wm_graph.specs.Parts.{as_savepoint, as_space};
ghost use Rattle.wm_index.specs.Indexed.{listed};
ghost use Rattle.wm_index.specs.Kinds.{kind_at, passing};
ghost use Rattle.wm_image.specs.Shown.{is_child_from, is_saved_behind, least};
ghost use Rattle.wm_image.specs.Shown as shown;

use wm_index::kinds::{savepoint_of, space_of};
use wm_index::records::{Kept, at};
use wm_spec::record::{Record, Savepoint, Space};

/// A place of a workspace, and so much of its log.
#[derive(Clone, Copy)]
pub struct Behind {
    pub space: u32,
    pub place: u64,
    pub log_length: u64,
}

/// Whether a workspace is a child of the one, born at the place or behind it, or with so much of its log.
fn is_child(space: &Space, behind: Behind) -> bool
    ensures { result ≡ is_child_from behind.space behind.place behind.log_length space.now }
{
    space.parent == behind.space
        && (space.number != behind.space
            && (behind.place <= u64::from(space.birth_place) || behind.log_length <= space.from))
}

/// A record that is such a child.
fn child_at(found: Option<&Record>, behind: Behind) -> Option<&Space>
    ensures { option_copied result ≡ passing (is_child_from behind.space behind.place behind.log_length) (option_and_then as_space (option_copied found.entry)) }
{
    let space = space_of(found)?;
    if is_child(space, behind) {
        Some(space)
    } else {
        None
    }
}

/// That of two workspaces with the lesser number, where there are both.
pub fn lesser<'a>(one: Option<&'a Space>, other: Option<&'a Space>) -> Option<&'a Space>
    ensures { option_copied result ≡ shown.lesser (option_copied one.entry) (option_copied other.entry) }
{
    match (one, other) {
        (None, _) => other,
        (Some(_), None) => one,
        (Some(first), Some(second)) => {
            if first.number <= second.number {
                one
            } else {
                other
            }
        }
    }
}

/// Of the children of the workspace among some that were born at the place or behind it, or with so much of its log,
/// the one of the least number.
pub fn least_child<'a>(kept: &'a Kept, ids: &[u64], behind: Behind) -> Option<&'a Space>
    ensures { option_copied result ≡ least (is_child_from behind.space behind.place behind.log_length) (kind_at as_space (listed kept.now.entries) ids.now) }
{
    let mut least = None;
    for id in ids {
        least = lesser(least, child_at(at(kept, *id), behind));
    }
    least
}

/// Whether a savepoint is one of the workspace at a later place than this one, or had more of the log.
fn is_behind(savepoint: &Savepoint, behind: Behind) -> bool
    ensures { result ≡ is_saved_behind behind.space behind.place behind.log_length savepoint.now }
{
    savepoint.space == behind.space
        && !(u64::from(savepoint.place) <= behind.place
            && savepoint.log_length <= behind.log_length)
}

/// Whether a record is such a savepoint.
fn is_behind_at(found: Option<&Record>, behind: Behind) -> bool
    ensures { result ≡ option_map_or (is_saved_behind behind.space behind.place behind.log_length) (option_and_then as_savepoint (option_copied found.entry)) false }
{
    match savepoint_of(found) {
        Some(savepoint) => is_behind(savepoint, behind),
        None => false,
    }
}

/// Whether some of the savepoints of the workspace is at a later place than this one, or had more of the log.
pub fn any_behind(kept: &Kept, ids: &[u64], behind: Behind) -> bool
    ensures { result ≡ list_any (is_saved_behind behind.space behind.place behind.log_length) (kind_at as_savepoint (listed kept.now.entries) ids.now) }
{
    for id in ids {
        if is_behind_at(at(kept, *id), behind) {
            return true;
        }
    }
    false
}
