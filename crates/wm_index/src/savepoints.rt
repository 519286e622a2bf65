//! Savepoints by their names and their workspaces.

ghost use Rattle.std.specs.Prelude.{◌≡◌, ◌<◌, ◌^◌, ◌==◌};
ghost use Rattle.std.specs.List.{find};
ghost use Rattle.std.specs.Option.{option_copied, option_and_then};
ghost use Rattle.std.specs.Str.{bytes_eq};
ghost use Rattle.wm_graph.specs.Parts.{as_savepoint};
ghost use Rattle.wm_index.specs.Indexed.{listed};
ghost use Rattle.wm_index.specs.Kinds.{after, kind_at, passing};
ghost use Rattle.wm_spec.specs.declared.record.savepoint.Savepoint.{Savepoint as OneSavepoint};

use crate::kinds::savepoint_of;
use crate::records::{Kept, at};
use wm_spec::record::{Record, Savepoint};

/// A record that is a savepoint of a name.
fn named<'a>(found: Option<&'a Record>, name: &[u8]) -> Option<&'a Savepoint>
    ensures { option_copied result ≡ passing (λ (x : OneSavepoint). bytes_eq name.now x.name) (option_and_then as_savepoint (option_copied found.entry)) }
{
    let savepoint = savepoint_of(found)?;
    if name == savepoint.name.as_bytes() {
        Some(savepoint)
    } else {
        None
    }
}

/// A record that is a savepoint of a workspace.
fn in_space(found: Option<&Record>, space: u32) -> Option<&Savepoint>
    ensures { option_copied result ≡ passing (λ (x : OneSavepoint). x.space == space) (option_and_then as_savepoint (option_copied found.entry)) }
{
    let savepoint = savepoint_of(found)?;
    if savepoint.space == space {
        Some(savepoint)
    } else {
        None
    }
}

/// The first of some savepoints that has a name.
pub fn savepoint_of_name<'a>(kept: &'a Kept, ids: &[u64], name: &[u8]) -> Option<&'a Savepoint>
    ensures { option_copied result ≡ find (λ (x : OneSavepoint). bytes_eq name.now x.name) (kind_at as_savepoint (listed kept.now.entries) ids.now) }
{
    for id in ids {
        let found = named(at(kept, *id), name);
        if found.is_some() {
            return found;
        }
    }
    None
}

/// The first of some savepoints that a workspace has.
pub fn savepoint_in<'a>(kept: &'a Kept, ids: &[u64], space: u32) -> Option<&'a Savepoint>
    ensures { option_copied result ≡ find (λ (x : OneSavepoint). x.space == space) (kind_at as_savepoint (listed kept.now.entries) ids.now) }
{
    for id in ids {
        let found = in_space(at(kept, *id), space);
        if found.is_some() {
            return found;
        }
    }
    None
}

/// The making after the last, 1 where there is none.
pub fn making_after(last: Option<&u64>) -> u64
    requires { after 1 (option_copied last) < 2 ^ 64 }
    ensures { result ≡ after 1 (option_copied last.entry) }
{
    match last {
        Some(making) => *making + 1,
        None => 1,
    }
}
