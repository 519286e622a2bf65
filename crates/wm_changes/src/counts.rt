//! The counters once an edit was made, and the ids for what it adds.
ghost use Rattle.std.specs.Prelude.{◌≡◌, ◌+◌, ◌<◌, ◌≤◌, ◌^◌, ℕ, nat_lt, false, None, IfOk, IfErr};
ghost use Rattle.wm_changes.specs.Ids.{HasGreatId};
ghost use Rattle.wm_spec.specs.Records.{record_at};
ghost use Rattle.wm_state.specs.Editing.{counter_limit};
ghost use Rattle.wm_state.specs.Points.{moved, stepped_by, stepped_new_by, versioned};

use crate::fault::DraftFault;
use wm_image::Image;
use wm_spec::record::Counters;

/// The counters once something has changed at a moment, with so much work.
pub fn moved(counters: Counters, moment: u64, work: u64) -> Counters
    requires { nat_lt counter_limit (counters.work + work) ≡ false }
    ensures { result ≡ moved counters moment work }
{
    Counters {
        last_moment: moment,
        work: counters.work + work,
        ..counters
    }
}

/// The counters once a version was made.
pub fn versioned(counters: Counters, moment: u64, work: u64) -> Counters
    requires work { nat_lt counter_limit (counters.work + work) ≡ false }
    requires versions { counters.next_version + 1 < 2 ^ 64 }
    ensures { result ≡ versioned counters moment work }
{
    Counters {
        next_version: counters.next_version + 1,
        ..moved(counters, moment, work)
    }
}

/// The counters once so many stamps were given.
pub fn stepped_by(counters: Counters, moment: u64, work: u64, count: u64) -> Counters
    requires work { nat_lt counter_limit (counters.work + work) ≡ false }
    requires stamps { counters.next_stamp + count < 2 ^ 64 }
    ensures { result ≡ stepped_by counters moment work count }
{
    Counters {
        next_stamp: counters.next_stamp + count,
        ..moved(counters, moment, work)
    }
}

/// The counters once a version was made and so many stamps were given.
pub fn stepped_new_by(counters: Counters, moment: u64, work: u64, count: u64) -> Counters
    requires work { nat_lt counter_limit (counters.work + work) ≡ false }
    requires stamps { counters.next_stamp + count < 2 ^ 64 }
    requires versions { counters.next_version + 1 < 2 ^ 64 }
    ensures { result ≡ stepped_new_by counters moment work count }
{
    Counters {
        next_version: counters.next_version + 1,
        ..stepped_by(counters, moment, work, count)
    }
}

/// Whether so many ids are left from this one on, and one behind them.
fn are_ids_left(id: u64, count: u64) -> bool
    ensures { result ≡ nat_lt (id + count) (2 ^ 64) }
{
    count <= u64::MAX - id
}

/// The id from which on new records come: all ids of records are below it, and so many are left from it on, and one
/// behind them.
pub fn ids_from(image: &Image, count: u64) -> Result<u64, DraftFault>
    requires { count ≤ 2 ^ 63 }
    ensures above { IfOk result (λ id. (i : ℕ) → id ≤ i → record_at image.now i ≡ None) }
    ensures left { IfOk result (λ id. id + count < 2 ^ 64) }
    ensures full { IfErr result (λ fault. fault ≡ DraftFault.Ids → HasGreatId image.now) }
{
    let Some(id) = image.next_id() else {
        return Err(DraftFault::Ids);
    };
    if !are_ids_left(id, count) {
        return Err(DraftFault::Ids);
    }
    Ok(id)
}
