//! Changes behind others.
ghost use Rattle.std.specs.Prelude.{◌≡◌, ◌++◌, ℕ, not, IfOk, OnOk};
ghost use Rattle.std.specs.BTreeSet.{contains};
ghost use Rattle.std.specs.List.{filter, list_any};
ghost use Rattle.std.specs.Ordering.{nat_cmp};
ghost use Rattle.wm_spec.specs.declared.record.batch.Change.{Change as OneChange};
ghost use Rattle.wm_state.specs.Drafts.{followed_by, is_change_of};

use std::alloc::Global;
use std::collections::BTreeSet;
use wm_base::Memory;
use wm_spec::record::{Change, Changes};

/// The ids of changes.
fn ids_of(alloc: Global, changes: &[Change]) -> Result<BTreeSet<u64>, Memory>
    ensures { IfOk result (λ ids. (id : ℕ) → contains nat_cmp ids id ≡ list_any (is_change_of id) changes.now) }
{
    let mut ids = BTreeSet::new(alloc);
    for change in changes {
        ids.insert(change.id)?;
    }
    Ok(ids)
}

/// Puts changes behind others, but for those of some ids.
fn push_others(all: &mut Changes, changes: Vec<Change>, ids: &BTreeSet<u64>) -> Result<(), Memory>
    ensures { OnOk result (all.new ≡ all.old ++ filter (λ (c : OneChange). not (contains nat_cmp ids.now c.id)) changes.items) }
{
    for change in changes {
        if ids.contains(&change.id) {
            drop(change);
        } else {
            all.push(change)?;
        }
    }
    Ok(())
}

/// Puts changes behind others, and behind them later ones, which take the place of those of their ids.
fn push_both(
    alloc: Global,
    all: &mut Changes,
    changes: Changes,
    later: Changes,
) -> Result<(), Memory>
    ensures { OnOk result (all.new ≡ all.old ++ followed_by changes later) }
{
    let ids = match ids_of(alloc, later.as_slice()) {
        Ok(ids) => ids,
        Err(fault) => {
            drop(changes);
            drop(later);
            return Err(fault);
        }
    };
    let pushed = push_others(all, changes.into_vec(), &ids);
    drop(ids);
    match pushed {
        // All of the later ones.
        Ok(()) => push_others(all, later.into_vec(), &BTreeSet::new(alloc)),
        Err(fault) => {
            drop(later);
            Err(fault)
        }
    }
}

/// Changes and behind them later ones, which take the place of those of their ids.
pub fn followed_by(alloc: Global, changes: Changes, later: Changes) -> Result<Changes, Memory>
    ensures { IfOk result (λ all. all ≡ followed_by changes later) }
{
    if changes.as_slice().is_empty() {
        drop(changes);
        return Ok(later);
    }
    let mut all = Changes::new(alloc);
    match push_both(alloc, &mut all, changes, later) {
        Ok(()) => Ok(all),
        Err(fault) => {
            drop(all);
            Err(fault)
        }
    }
}
