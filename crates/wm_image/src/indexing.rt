//! The index of records that stand by id, made at once.

ghost use Rattle.std.specs.Prelude.{◌≡◌, [], OnOk};
ghost use Rattle.wm_chunks.specs.Numbers.{AreOrdered, Numbers};
ghost use Rattle.wm_image.specs.Indexing.{IsIndexOf, is_piece_or_touch, others};
ghost use Rattle.wm_index.specs.Indexed.{IsIndexed, listed};
ghost use Rattle.wm_spec.specs.declared.record.Record.{Record as OneRecord};
ghost use Rattle.wm_state.specs.ById.{Ascend};

use std::alloc::Global;
use wm_base::Memory;
use wm_index::index::Index;
use wm_spec::record::{Record, Stored};

/// Whether a record is a piece or a touch.
fn is_piece_or_touch(one: &Record) -> bool
    ensures { result ≡ is_piece_or_touch one.now }
{
    match one {
        Record::Piece(_) => true,
        Record::Touch(_) => true,
        _ => false,
    }
}

/// Adds the records that are neither pieces nor touches, from the first on: their ids then come last in their lists.
fn add_others(alloc: Global, index: &mut Index, records: &[Stored]) -> Result<(), Memory>
    requires ascend { Ascend records.now }
    requires empty { IsIndexOf records.now [] index.old }
    ensures { OnOk result (IsIndexOf records.now (others records.now) index.new) }
{
    for one in records {
        if !is_piece_or_touch(&one.record) {
            index.add_record(alloc, one.id, &one.record)?;
        }
    }
    Ok(())
}

/// Adds the pieces and the touches, from the last on: a search goes through a node of a map from its least key on, and
/// keys, ids and positions mostly ascend, so it ends at the first key.
fn add_pieces_and_touches(
    alloc: Global,
    index: &mut Index,
    records: &[Stored],
) -> Result<(), Memory>
    requires ascend { Ascend records.now }
    requires others { IsIndexOf records.now (others records.now) index.old }
    ensures { OnOk result (IsIndexOf records.now records.now index.new) }
{
    for one in records.iter().rev() {
        if is_piece_or_touch(&one.record) {
            index.add_record(alloc, one.id, &one.record)?;
        }
    }
    Ok(())
}

/// Adds records that stand by id to the index of none.
pub fn add_all(alloc: Global, index: &mut Index, records: &[Stored]) -> Result<(), Memory>
    requires ascend { Ascend records.now }
    requires empty { IsIndexOf records.now [] index.old }
    ensures { OnOk result ((next : Numbers OneRecord) → AreOrdered next.entries → listed next.entries ≡ records.now → IsIndexed next index.new) }
{
    add_others(alloc, index, records)?;
    add_pieces_and_touches(alloc, index, records)
}
