//! Ids in ascending order.

ghost use Rattle.std.specs.Prelude.{◌≡◌, ◌<◌, ◌≤◌, ◌==◌, ◌&&◌, length, insert, remove, OnOk, IfNone, IfSome};
ghost use Rattle.std.specs.List.Sorted.{IsStrictlySortedBy};
ghost use Rattle.std.specs.Ordering.{nat_cmp};
ghost use Rattle.wm_ids.specs.Ids.{head_of, placed, without};

use wm_base::Memory;

/// Puts an id among others that ascend, where it is not there already.
pub fn add_id(ids: &mut Vec<u64>, id: u64) -> Result<(), Memory>
    requires { IsStrictlySortedBy nat_cmp ids.old.items }
    ensures { OnOk result (ids.new.items ≡ placed id ids.old.items) }
{
    if let Some(place) = place_for(ids.as_slice(), id) {
        ids.insert(place, id)?;
    }
    Ok(())
}

/// The place of an id among others that ascend: before the first that is greater, or None where it is there already.
fn place_for(ids: &[u64], id: u64) -> Option<usize>
    requires { IsStrictlySortedBy nat_cmp ids.now }
    ensures none { IfNone result (placed id ids.now ≡ ids.now) }
    ensures within { IfSome result (λ place. place ≤ length ids.now) }
    ensures there { IfSome result (λ place. insert ids.now place id ≡ placed id ids.now) }
{
    match ids.binary_search(&id) {
        Ok(_) => None,
        Err(place) => Some(place),
    }
}

/// Takes an id out of those that ascend, where it is there.
pub fn drop_id(ids: &mut Vec<u64>, id: u64)
    requires { IsStrictlySortedBy nat_cmp ids.old.items }
    ensures { ids.new.items ≡ without id ids.old.items }
{
    if let Some(place) = find_place(ids.as_slice(), id) {
        ids.remove(place);
    }
}

/// Where an id stands among those that ascend, or None where it is not there.
fn find_place(ids: &[u64], id: u64) -> Option<usize>
    requires { IsStrictlySortedBy nat_cmp ids.now }
    ensures none { IfNone result (without id ids.now ≡ ids.now) }
    ensures within { IfSome result (λ place. place < length ids.now) }
    ensures there { IfSome result (λ place. remove ids.now place ≡ without id ids.now) }
{
    match ids.binary_search(&id) {
        Ok(place) => Some(place),
        Err(_) => None,
    }
}

/// The first id, where there is one.
pub fn first_id(ids: &[u64]) -> Option<u64>
    ensures { result ≡ head_of ids.now }
{
    match ids {
        [] => None,
        [id, ..] => Some(*id),
    }
}

/// Whether there are none in any of four lists.
pub fn are_empty(first: &[u64], second: &[u64], third: &[u64], fourth: &[u64]) -> bool
    ensures { result ≡ ((length first.now == 0) && ((length second.now == 0) && ((length third.now == 0) && (length fourth.now == 0)))) }
{
    first.is_empty() && second.is_empty() && third.is_empty() && fourth.is_empty()
}
