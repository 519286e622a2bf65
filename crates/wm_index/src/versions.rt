//! Versions by their numbers.

ghost use Rattle.std.specs.Prelude.{◌≡◌};
ghost use Rattle.wm_graph.specs.Parts.{parts_of};
ghost use Rattle.wm_graph.specs.Parts as parts;
ghost use Rattle.wm_index.specs.Indexed.{IsIndexed, listed};

use crate::index::Index;
use crate::kinds::version_of;
use crate::records::{Kept, first};
use wm_ids::keyed::ids_of;
use wm_spec::record::Version;

/// The version of a number.
pub fn version_at(kept: &Kept, index: &Index, number: u64) -> Option<Version>
    requires { IsIndexed kept.now index.now }
    ensures { result ≡ parts.version_of (parts_of (listed kept.now.entries)).versions number }
{
    version_of(first(kept, ids_of(&index.versions, &number)))
}
