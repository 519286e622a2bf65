//! Records under their ids, and the index of those that go and come.

ghost use Rattle.std.specs.Prelude.{◌≡◌, ◌<◌, ◌≤◌, ◌+◌, ◌^◌, ◌||◌, ℕ, None, is_some, IsSome, IfSome, IfNone, IfOk, OnOk};
ghost use Rattle.std.specs.Option.{option_and_then, option_copied};
ghost use Rattle.wm_graph.specs.Parts.{as_table};
ghost use Rattle.wm_spec.specs.Records.{record_at};
ghost use Rattle.wm_ids.specs.Versioned.{AllNested, GainsAny, LosesAny};
ghost use Rattle.wm_index.specs.Indexed.{ids_at, listed, IdsAscend};
ghost use Rattle.wm_index.specs.Sought.{Sought, is_sought, ids_less, ids_more, first_of};

use crate::index::Index;
use crate::kinds::table_of;
use std::alloc::Global;
use wm_base::Memory;
use wm_chunks::NumberMap;
use wm_spec::record::Record;

/// Records under their ids.
pub type Kept = NumberMap<Record>;

/// The record of an id.
pub fn at(kept: &Kept, id: u64) -> Option<&Record>
    ensures { option_copied result ≡ record_at (listed kept.now.entries) id }
{
    kept.get(id)
}

/// The record of the first id.
pub fn first<'a>(kept: &'a Kept, ids: &[u64]) -> Option<&'a Record>
    ensures { option_copied result ≡ first_of (listed kept.now.entries) ids.now }
{
    match ids {
        [] => None,
        [id, ..] => at(kept, *id),
    }
}

/// The id after the greatest of a record, 1 where there is none, or None where the greatest id that there is has a
/// record.
pub fn next_id(kept: &Kept) -> Option<u64>
    ensures above { IfSome result (λ next. (id : ℕ) → next ≤ id → record_at (listed kept.now.entries) id ≡ None) }
    ensures lowest { IfSome result (λ next. (id : ℕ) → next ≡ id + 1 → 0 < id → IsSome (record_at (listed kept.now.entries) id)) }
    ensures full { IfNone result ((id : ℕ) × (2 ^ 64 ≤ id + 1) × IsSome (record_at (listed kept.now.entries) id)) }
{
    match kept.last_number() {
        Some(last) => last.checked_add(1),
        None => Some(1),
    }
}

/// Drops the id of a record that goes, where one stood there, and tells whether that is a table.
pub fn drop_old(index: &mut Index, id: u64, stood: Option<&Record>) -> bool
    requires ascend { IdsAscend index.old }
    requires nested { AllNested index.old.pieces.entries }
    ensures dropped { (q : Sought) → ids_at index.new q ≡ ids_less (is_sought q) id (option_copied stood.entry) (ids_at index.old q) }
    ensures pieces { LosesAny index.old.pieces.entries index.new.pieces.entries id (option_copied stood.entry) }
    ensures table { result ≡ is_some (option_and_then as_table (option_copied stood.entry)) }
{
    if let Some(old) = stood {
        index.drop_record(id, old);
    }
    table_of(stood).is_some()
}

/// Adds the id of a record that comes, and tells whether that is a table.
pub fn add_new(
    alloc: Global,
    index: &mut Index,
    id: u64,
    becomes: &Option<Record>,
) -> Result<bool, Memory>
    requires ascend { IdsAscend index.old }
    requires nested { AllNested index.old.pieces.entries }
    ensures added { OnOk result ((q : Sought) → ids_at index.new q ≡ ids_more (is_sought q) id becomes.now (ids_at index.old q)) }
    ensures pieces { OnOk result (GainsAny index.old.pieces.entries index.new.pieces.entries id becomes.now) }
    ensures table { IfOk result (λ is. is ≡ is_some (option_and_then as_table becomes.now)) }
{
    if let Some(new) = becomes {
        index.add_record(alloc, id, new)?;
    }
    Ok(table_of(becomes.as_ref()).is_some())
}

/// Whether one is true or the other.
pub fn is_either(one: bool, other: bool) -> bool
    ensures { result ≡ (one || other) }
{
    one || other
}
