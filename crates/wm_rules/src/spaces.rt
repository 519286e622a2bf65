//! The rules of the records of workspaces.
ghost use Rattle.std.specs.Prelude.{◌≡◌, ◌&&◌, nat_lt, nat_le, false, length, is_some};
ghost use Rattle.std.specs.List.{list_all};
ghost use Rattle.std.specs.Option.{option_map_or};
ghost use Rattle.std.specs.Str.{bytes_eq};
ghost use Rattle.wm_cells.specs.Lookups.{found, referred};
ghost use Rattle.wm_graph.specs.Rules.{differ, is_placed, is_space, is_given};

use wm_cells::counters::MOST_WORK;
use wm_cells::index::{self, Index};
use wm_cells::names;
use wm_spec::record::Space;

/// The most workspaces of a store.
const MOST_SPACES: usize = 1024;

/// Whether it is LIVE, where it has the number 0, and has a parent of a smaller number, where it has another.
fn has_parent(spaces: &Index<Space>, space: &Space) -> bool
    ensures { result ≡ is_placed (found spaces.now.entries) space.now }
{
    if space.number == 0 {
        space.name.as_bytes() == b"LIVE".as_slice()
    } else {
        space.parent < space.number && index::look(spaces, u64::from(space.parent)).is_some()
    }
}

/// Whether the workspace is in order among the others.
fn is_space(spaces: &Index<Space>, space: &Space) -> bool
    ensures { result ≡ is_space (found spaces.now.entries) space.now }
{
    has_parent(spaces, space)
        && names::is_short(&space.name)
        && names::is_short(&space.writer)
        && 1 <= space.next_place
        && 1 <= space.next_implicit
        && space.log_length <= MOST_WORK
}

/// Whether the log of a workspace, which is there, has the position.
pub fn has_position(spaces: &Index<Space>, number: u32, position: u64) -> bool
    ensures { result ≡ option_map_or (λ s. nat_lt position s.log_length) (found spaces.now.entries number) false }
{
    match index::look(spaces, u64::from(number)) {
        Some(space) => position < space.log_length,
        None => false,
    }
}

/// Whether the place was given in a workspace, which is there, or is that before the first.
pub fn is_given(spaces: &Index<Space>, number: u32, place: u32) -> bool
    ensures { result ≡ is_given (found spaces.now.entries) number place }
{
    match index::look(spaces, u64::from(number)) {
        Some(space) => place < space.next_place,
        None => false,
    }
}

/// Whether each workspace is in order among the others.
fn each_is_space(index: &Index<Space>, spaces: &[&Space]) -> bool
    ensures { result ≡ list_all (is_space (found index.now.entries)) (referred spaces.now) }
{
    for space in spaces {
        if !is_space(index, space) {
            return false;
        }
    }
    true
}

/// Whether the names of the workspaces differ.
#[tactic(auto, using(wm_cells::proofs::Referring::differ_referred))]
fn names_differ(spaces: &[&Space]) -> bool
    ensures { result ≡ differ (λ s t. bytes_eq s.name t.name) (referred spaces.now) }
{
    names::names_differ(spaces)
}

/// Whether there are not too many workspaces, LIVE is there, their names differ and each is in order among the others.
#[tactic(auto, using(wm_cells::proofs::Referring::length_referred))]
pub fn are_spaces(index: &Index<Space>, spaces: &[&Space]) -> bool
    ensures { result ≡ ((nat_le (length (referred spaces.now)) 1024 && is_some (found index.now.entries 0)) && (differ (λ s t. bytes_eq s.name t.name) (referred spaces.now) && list_all (is_space (found index.now.entries)) (referred spaces.now))) }
{
    spaces.len() <= MOST_SPACES
        && index::look(index, 0).is_some()
        && names_differ(spaces)
        && each_is_space(index, spaces)
}
