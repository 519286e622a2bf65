//! What is written behind an entry of a log, by key.

ghost use Rattle.std.specs.Prelude.{◌≡◌, List, [], ◌∷◌, ◌++◌, if◌then◌else◌, OnOk};
ghost use Rattle.std.specs.Ordering.{is_eq};
ghost use Rattle.wm_base.specs.Key.{key_order};
ghost use Rattle.wm_base.specs.declared.value.Value.{Value};
ghost use Rattle.wm_history.specs.Later.{last_over, written_as, written_at};

use std::alloc::Global;
use std::collections::BTreeMap;
use wm_base::{Key, Memory};
use wm_spec::record::{CellRange, Hist};

/// Over which time of a key something was written, and when. In seconds, as an instant has them.
#[derive(Clone, Copy)]
pub struct Written {
    pub from: u64,
    pub till: u64,
    pub moment: u64,
}

/// What was written behind an entry, by key: for each key in the order in which it was met, from the end of the log on.
pub type Later = BTreeMap<Key, Vec<Written>>;

/// What was written for a key.
pub fn written_at<'a>(later: &'a Later, key: &Key) -> &'a [Written]
    ensures { result.now ≡ written_at later.now.entries key.now }
{
    match later.get(key) {
        Some(written) => written.as_slice(),
        None => &[],
    }
}

/// When the last of them was written that has a moment of some cells of the key. In the log it is the first.
pub fn last_over(written: &[Written], cells: &CellRange) -> Option<u64>
    ensures { result ≡ last_over cells.now.from cells.now.till written.now }
{
    let mut left = written;
    while let Some((last, before)) = left.split_last() {
        if cells.from < last.till && last.from < cells.till {
            return Some(last.moment);
        }
        left = before;
    }
    None
}

/// Puts what an entry wrote behind what is known of its key.
pub fn add_written(alloc: Global, later: &mut Later, hist: &Hist) -> Result<(), Memory>
    ensures { OnOk result ((key : List Value) → written_at later.new.entries key ≡ (if is_eq (key_order hist.now.cells.key key) then written_at later.old.entries hist.now.cells.key ++ written_as hist.now ∷ [] else written_at later.old.entries key)) }
{
    let cells = &hist.cells;
    let key = cells.key.copy(alloc)?;
    let mut written = later.remove(&key).unwrap_or(Vec::new(alloc));
    written.push(Written {
        from: cells.from,
        till: cells.till,
        moment: hist.moment,
    })?;
    later.insert(key, written)?;
    Ok(())
}
