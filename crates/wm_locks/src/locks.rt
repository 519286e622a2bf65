//! The locks on a key and on a table, in order.
ghost use Rattle.std.specs.Prelude.{◌≡◌, ◌++◌, true, IfOk, OnOk};
ghost use Rattle.std.specs.Option.{option_and_then, option_copied, option_to_list};
ghost use Rattle.wm_graph.specs.Parts.{as_lock, parts_of};
ghost use Rattle.wm_graph.specs.Rules.{keep_rules};
ghost use Rattle.wm_guard.specs.Barring.{comes_before, locks_at, locks_in};
ghost use Rattle.wm_guard.specs.Orders.{nows};
ghost use Rattle.wm_index.specs.Kinds.{kind_at};
ghost use Rattle.wm_ordering.specs.Sorting.{sorted};
ghost use Rattle.wm_state.specs.Standing.{locks_by_making};

use std::alloc::Global;
use wm_base::{Key, Memory};
use wm_guard::barring::sort_on_key;
use wm_image::Image;
use wm_spec::record::{Lock, Record};

/// A record as a lock.
pub(crate) fn lock_of(found: Option<&Record>) -> Option<&Lock>
    ensures { option_copied result ≡ option_and_then as_lock (option_copied found.entry) }
{
    match found {
        Some(Record::Lock(lock)) => Some(lock.get()),
        _ => None,
    }
}

/// Puts a record behind locks, where it is one.
fn push_lock<'a>(locks: &mut Vec<&'a Lock>, found: Option<&'a Record>) -> Result<(), Memory>
    ensures { OnOk result (nows locks.new.items ≡ nows locks.old.items ++ option_to_list (option_and_then as_lock (option_copied found.entry))) }
{
    if let Some(lock) = lock_of(found) {
        locks.push(lock)?;
    }
    Ok(())
}

/// The locks of some ids, as these stand.
fn locks_with<'a>(alloc: Global, image: &'a Image, ids: &[u64]) -> Result<Vec<&'a Lock>, Memory>
    ensures { IfOk result (λ list. nows list.items ≡ kind_at as_lock image.now ids.now) }
{
    let mut locks = Vec::with_capacity(alloc, ids.len())?;
    for id in ids {
        push_lock(&mut locks, image.record(*id))?;
    }
    Ok(locks)
}

/// The locks of some ids, as they come on one key.
fn in_order<'a>(alloc: Global, image: &'a Image, ids: &[u64]) -> Result<Vec<&'a Lock>, Memory>
    ensures { IfOk result (λ list. nows list.items ≡ sorted comes_before (kind_at as_lock image.now ids.now)) }
{
    let mut locks = locks_with(alloc, image, ids)?;
    sort_on_key(&mut locks)?;
    Ok(locks)
}

/// Puts the locks of some ids behind others, as they come on one key.
fn push_in_order<'a>(
    alloc: Global,
    image: &'a Image,
    ids: &[u64],
    locks: &mut Vec<&'a Lock>,
) -> Result<(), Memory>
    ensures { OnOk result (nows locks.new.items ≡ nows locks.old.items ++ sorted comes_before (kind_at as_lock image.now ids.now)) }
{
    let mut more = in_order(alloc, image, ids)?;
    locks.append(&mut more)?;
    Ok(())
}

/// The locks on a key of a table, of any workspace, in order. No other lock is looked at.
pub fn locks_at<'a>(
    alloc: Global,
    image: &'a Image,
    table: u16,
    key: &Key,
) -> Result<Vec<&'a Lock>, Memory>
    requires rules { keep_rules (parts_of image.now) ≡ true }
    ensures { IfOk result (λ list. nows list.items ≡ locks_at table key.now (locks_by_making (parts_of image.now).locks)) }
{
    image.law_of_order();
    let locks = in_order(alloc, image, image.locks_on(table, key))?;
    Ok(locks)
}

/// The locks on a table, of any workspace, in order: key by key. No lock on another table is looked at.
pub fn locks_in<'a>(alloc: Global, image: &'a Image, table: u16) -> Result<Vec<&'a Lock>, Memory>
    requires rules { keep_rules (parts_of image.now) ≡ true }
    ensures { IfOk result (λ list. nows list.items ≡ locks_in table (locks_by_making (parts_of image.now).locks)) }
{
    image.law_of_order();
    let mut locks = Vec::new(alloc);
    let Some(keys) = image.locked_keys(table) else {
        return Ok(locks);
    };
    for (_, ids) in keys {
        push_in_order(alloc, image, ids.as_slice(), &mut locks)?;
    }
    Ok(locks)
}
