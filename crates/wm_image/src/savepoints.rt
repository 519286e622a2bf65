//! The first savepoint whose place was made on a date or later.

ghost use Rattle.std.specs.Prelude.{◌≡◌};
ghost use Rattle.std.specs.Option.{option_copied, option_and_then};
ghost use Rattle.wm_graph.specs.Parts.{as_savepoint};
ghost use Rattle.wm_image.specs.Soonest as shown;
ghost use Rattle.wm_index.specs.Indexed.{listed};
ghost use Rattle.wm_index.specs.Kinds.{kind_at, passing};

use wm_index::kinds::savepoint_of;
use wm_index::records::{Kept, at};
use wm_spec::record::{Record, Savepoint};

/// Whether a savepoint stands at a lesser place than another, or at the same and was made before it.
fn is_sooner(one: &Savepoint, other: &Savepoint) -> bool
    ensures { result ≡ shown.is_sooner one.now other.now }
{
    one.place < other.place || (one.place == other.place && one.making < other.making)
}

/// The sooner of two savepoints, where there are both.
fn sooner<'a>(one: Option<&'a Savepoint>, other: Option<&'a Savepoint>) -> Option<&'a Savepoint>
    ensures { option_copied result ≡ shown.sooner (option_copied one.entry) (option_copied other.entry) }
{
    match (one, other) {
        (None, _) => other,
        (Some(_), None) => one,
        (Some(first), Some(second)) => { if is_sooner(second, first) { other } else { one } }
    }
}

/// A record that is a savepoint whose place was made on the date or later.
fn saved_from(found: Option<&Record>, date: u64) -> Option<&Savepoint>
    ensures { option_copied result ≡ passing (shown.is_from date) (option_and_then as_savepoint (option_copied found.entry)) }
{
    let savepoint = savepoint_of(found)?;
    if date <= savepoint.moment {
        Some(savepoint)
    } else {
        None
    }
}

/// Of some savepoints whose place was made on the date or later, the one at the least place, and of these the one made
/// first.
pub fn soonest<'a>(kept: &'a Kept, ids: &[u64], date: u64) -> Option<&'a Savepoint>
    ensures { option_copied result ≡ shown.soonest date (kind_at as_savepoint (listed kept.now.entries) ids.now) }
{
    let mut soonest = None;
    for id in ids {
        soonest = sooner(soonest, saved_from(at(kept, *id), date));
    }
    soonest
}
