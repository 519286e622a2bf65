//! The rules of the counts over the whole store.
ghost use Rattle.std.specs.Prelude.{◌≡◌};
ghost use Rattle.wm_graph.specs.Rules.{are_counters};

use wm_base::END;
use wm_spec::record::Counters;

/// The most changes that a store may take.
const MOST_CHANGES: u32 = 1_048_576;

/// The most work that a store may have counted, and the most entries that a log may have.
pub const MOST_WORK: u64 = 1 << 62;

/// Whether the counts agree with one another.
pub fn are_counters(counters: &Counters) -> bool
    ensures { result ≡ are_counters counters.now }
{
    let limit = counters.limit;
    if limit < 1 || limit > MOST_CHANGES {
        return false;
    }
    let stamps = 1 <= counters.next_stamp && counters.next_stamp <= u64::from(limit) + 1;
    stamps
        && counters.last_moment < END
        && counters.work <= MOST_WORK
        && counters.next_version <= counters.work + 2
}
