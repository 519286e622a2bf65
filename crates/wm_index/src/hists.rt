//! The entries of a log, by their positions.

ghost use Rattle.std.specs.Prelude.{◌≡◌, ℕ, IfOk, OnOk};
ghost use Rattle.std.specs.List.Sorted.{IsStrictlySortedBy};
ghost use Rattle.std.specs.Map.{keys_of, values_of};
ghost use Rattle.std.specs.Bool.{then_some};
ghost use Rattle.std.specs.Option.{option_copied, option_or};
ghost use Rattle.std.specs.Ordering.{nat_cmp};
ghost use Rattle.wm_graph.specs.Parts.{as_hist};
ghost use Rattle.wm_index.specs.Hists.{AreByPosition, first_at, is_found_at, placed_at};
ghost use Rattle.wm_index.specs.Indexed.{listed};
ghost use Rattle.wm_index.specs.Kinds.{kind_at};

use crate::kinds::hist_of;
use crate::records::{Kept, at};
use std::alloc::Global;
use std::collections::{BTreeMap, BTreeSet};
use wm_base::Memory;
use wm_spec::record::Hist;

/// An id for each position.
type Places = BTreeMap<u64, u64>;

/// Puts the id of an entry under its position, where there is none.
fn place(places: &mut Places, id: u64, found: Option<&Hist>) -> Result<(), Memory>
    ensures { OnOk result ((q : ℕ) → placed_at places.new.entries q ≡ option_or (placed_at places.old.entries q) (then_some (is_found_at q (option_copied found.entry)) id)) }
{
    let Some(hist) = found else {
        return Ok(());
    };
    if !places.contains_key(&hist.position) {
        places.insert(hist.position, id)?;
    }
    Ok(())
}

/// The first of some ids for each position at which an entry of them stands.
fn places_of(alloc: Global, kept: &Kept, ids: &BTreeSet<u64>) -> Result<Places, Memory>
    ensures { IfOk result (λ places. (q : ℕ) → placed_at places.entries q ≡ first_at (listed kept.now.entries) q ids.now.keys) }
{
    let mut places = BTreeMap::new(alloc);
    for id in ids {
        place(&mut places, *id, hist_of(at(kept, *id)))?;
    }
    Ok(places)
}

/// The ids of all positions, in order.
fn ids_in_order(alloc: Global, places: &Places) -> Result<Vec<u64>, Memory>
    ensures ids { IfOk result (λ ids. ids.items ≡ values_of places.now.entries) }
    ensures ordered { OnOk result (IsStrictlySortedBy nat_cmp (keys_of places.now.entries)) }
{
    let mut ids = Vec::new(alloc);
    for (_, id) in places {
        ids.push(*id)?;
    }
    Ok(ids)
}

/// The ids of entries by position: those of some ids, and of each position the first.
pub fn ids_by_position(alloc: Global, kept: &Kept, ids: &BTreeSet<u64>) -> Result<Vec<u64>, Memory>
    ensures { IfOk result (λ found. AreByPosition (kind_at as_hist (listed kept.now.entries) found.items) (kind_at as_hist (listed kept.now.entries) ids.now.keys)) }
{
    let places = places_of(alloc, kept, ids)?;
    let found = ids_in_order(alloc, &places)?;
    Ok(found)
}
