//! Whether decisions can be committed. In each state that lines lead to those that are staged can.

ghost use Rattle.std.specs.Prelude.{◌≡◌, ◌↔◌, true, IsTrue};
ghost use Rattle.std.specs.List.{All, list_all};
ghost use Rattle.wm_decided.specs.Staged.{IsStaged};
ghost use Rattle.wm_graph.specs.Parts.{parts_of};
ghost use Rattle.wm_graph.specs.Rules.{keep_rules};
ghost use Rattle.wm_resolve.specs.Restoring.{fits_key, has_row, is_restored, is_staged};

use wm_base::{Key, Value, Values};
use wm_cells::cells::{has_this_key, is_key_of};
use wm_cells::rows::is_row_of;
use wm_decided::decision::{Copied, Decision};
use wm_image::Image;
use wm_plan::kept::are_kept;
use wm_spec::record::Table;

/// Whether the row of a stamp is there, of a table and with these values.
fn has_row(image: &Image, table: u16, stamp: u64, values: &[Value]) -> bool
    ensures { result ≡ has_row (parts_of image.now) table stamp values.now }
{
    match image.row(stamp) {
        Some(row) => row.table == table && row.values.as_slice().cmp(values).is_eq(),
        None => false,
    }
}

/// Whether a row fits a table and has the key, and a record can keep it.
fn fits_key(table: &Table, key: &Key, values: &[Value]) -> bool
    ensures { result ≡ fits_key table.now key.now values.now }
{
    (is_row_of(table, values) && has_this_key(table, key, values)) && are_kept(values)
}

/// Whether what a decision copies to a key can be written again, where this stamp is the next.
fn is_restored(
    image: &Image,
    next: u64,
    table: &Table,
    decision: &Decision,
    copied: &Copied,
) -> bool
    ensures { result ≡ is_restored (parts_of image.now) next table.now decision.now.table decision.now.key copied.now }
{
    if !table.versioned || copied.stamp >= next {
        return false;
    }
    match &copied.row {
        Some(values) => {
            fits_key(table, decision.key(), values.as_slice())
                && has_row(image, decision.table(), copied.stamp, values.as_slice())
        }
        None => true,
    }
}

/// Whether all that a decision copies can be written again.
fn are_restored(image: &Image, next: u64, table: &Table, decision: &Decision) -> bool
    ensures { result ≡ list_all (is_restored (parts_of image.now) next table.now decision.now.table decision.now.key) decision.now.copied }
{
    for copied in decision.copied() {
        if !is_restored(image, next, table, decision, copied) {
            return false;
        }
    }
    true
}

/// Whether the cells of a decision can be marked, and what it copies can be written again.
fn is_staged(image: &Image, next: u64, decision: &Decision) -> bool
    ensures { result ≡ is_staged (parts_of image.now) next decision.now }
{
    let _till = decision.period().till();
    let Some(table) = image.table_numbered(decision.table()) else {
        return false;
    };
    let key = decision.key();
    (is_key_of(table, key) && are_kept(key.values())) && are_restored(image, next, table, decision)
}

/// Whether all pass the test, where this stamp is the next.
fn all_staged(image: &Image, next: u64, decisions: &[Decision]) -> bool
    ensures { result ≡ list_all (is_staged (parts_of image.now) next) decisions.now }
{
    for decision in decisions {
        if !is_staged(image, next, decision) {
            return false;
        }
    }
    true
}

/// Whether all of them can be committed.
pub fn are_staged(image: &Image, decisions: &[Decision]) -> bool
    requires rules { keep_rules (parts_of image.now) ≡ true }
    ensures { IsTrue result ↔ All (IsStaged (parts_of image.now)) decisions.now }
{
    all_staged(image, image.counters().next_stamp, decisions)
}
