//! The newest version of a workspace, and a record as a turn.

ghost use Rattle.std.specs.Prelude.{◌≡◌};
ghost use Rattle.std.specs.Option.{option_and_then, option_copied};
ghost use Rattle.wm_graph.specs.Parts.{as_turn, parts_of};
ghost use Rattle.wm_index.specs.Indexed.{IsIndexed, listed};
ghost use Rattle.wm_state.specs.Standing.{latest};

use wm_ids::keyed::last_in;
use wm_index::index::Index;
use wm_index::records::Kept;
use wm_spec::record::{Record, Turn};

/// The newest version of a workspace, 0 where it has none: the last number that the index has under the workspace.
/// The records are what it is told of, and are not looked at.
pub fn latest_of(kept: &Kept, index: &Index, space: u32) -> u64
    requires { IsIndexed kept.now index.now }
    ensures { result ≡ latest (parts_of (listed kept.now.entries)) space }
{
    last_in(&index.versions_in, space)
}

/// A record that is a turn.
pub fn turn_of(found: Option<&Record>) -> Option<&Turn>
    ensures { option_copied result ≡ option_and_then as_turn (option_copied found.entry) }
{
    match found {
        Some(Record::Turn(turn)) => Some(turn),
        _ => None,
    }
}
