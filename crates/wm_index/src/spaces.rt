//! Workspaces by their names, and the number after theirs.

ghost use Rattle.std.specs.Prelude.{◌≡◌};
ghost use Rattle.std.specs.List.{find};
ghost use Rattle.std.specs.Option.{option_copied, option_and_then};
ghost use Rattle.std.specs.Str.{bytes_eq};
ghost use Rattle.wm_graph.specs.Parts.{as_space};
ghost use Rattle.wm_index.specs.Indexed.{listed};
ghost use Rattle.wm_index.specs.Kinds.{after, kind_at, passing};
ghost use Rattle.wm_spec.specs.declared.record.space.Space.{Space as OneSpace};

use crate::kinds::space_of;
use crate::records::{Kept, at};
use wm_spec::record::{Record, Space};

/// A record that is a workspace of a name.
fn named<'a>(found: Option<&'a Record>, name: &[u8]) -> Option<&'a Space>
    ensures { option_copied result ≡ passing (λ (r : OneSpace). bytes_eq name.now r.name) (option_and_then as_space (option_copied found.entry)) }
{
    let space = space_of(found)?;
    if name == space.name.as_bytes() {
        Some(space)
    } else {
        None
    }
}

/// The first of some workspaces that has a name.
pub fn space_of_name<'a>(kept: &'a Kept, ids: &[u64], name: &[u8]) -> Option<&'a Space>
    ensures { option_copied result ≡ find (λ (r : OneSpace). bytes_eq name.now r.name) (kind_at as_space (listed kept.now.entries) ids.now) }
{
    for id in ids {
        let found = named(at(kept, *id), name);
        if found.is_some() {
            return found;
        }
    }
    None
}

/// The number after the last, 0 where there is none.
pub fn number_after(last: Option<&u32>) -> u64
    ensures { result ≡ after 0 (option_copied last.entry) }
{
    match last {
        Some(number) => u64::from(*number) + 1,
        None => 0,
    }
}
