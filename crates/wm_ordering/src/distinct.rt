//! Rows of an answer, each once.
ghost use Rattle.std.specs.Prelude.{◌≡◌, OnOk};
ghost use Rattle.wm_ordering.specs.declared.shown.Shown.{Shown as ShownRow};
ghost use Rattle.wm_ordering.specs.Sorting.{changes, distinct_by, has_values_of, sorted, stands_before};

use crate::order::left_to_right;
use crate::shown::Shown;
use wm_base::Memory;

/// Puts what is shown in ascending order. Equal rows stay as they stood.
fn sort_shown(shown: &mut Vec<Shown>) -> Result<(), Memory>
    ensures { OnOk result (shown.new.items ≡ sorted (stands_before (λ (s : ShownRow). s.row.values)) shown.old.items) }
{
    shown.sort_by(|one, other| {
        left_to_right(one.row.values.as_slice(), other.row.values.as_slice())
    })?;
    Ok(())
}

/// Whether the two show the same row.
fn has_row_of(one: &Shown, other: &Shown) -> bool
    ensures { result ≡ has_values_of (λ (s : ShownRow). s.row.values) one.now other.now }
{
    left_to_right(one.row.values.as_slice(), other.row.values.as_slice()).is_eq()
}

/// Lets go what shows the same row as the one that stays before it.
fn keep_changes(shown: &mut Vec<Shown>)
    ensures { shown.new.items ≡ changes (has_values_of (λ (s : ShownRow). s.row.values)) shown.old.items }
{
    shown.dedup_by(|later, kept| has_row_of(kept, later));
}

/// Each row once, in ascending order.
pub fn distinct(shown: &mut Vec<Shown>) -> Result<(), Memory>
    ensures { OnOk result (shown.new.items ≡ distinct_by (λ (s : ShownRow). s.row.values) shown.old.items) }
{
    sort_shown(shown)?;
    keep_changes(shown);
    Ok(())
}
