//! The chunks of a map but the newest, by their places.

ghost use Rattle.std.specs.Prelude.{◌≡◌, ◌/◌, [], None, Some, IfOk, OnErr, OnOk};
ghost use Rattle.std.specs.BTreeMap.{is_at};
ghost use Rattle.std.specs.Map.{lookup};
ghost use Rattle.std.specs.Option.{option_copied};
ghost use Rattle.std.specs.Ordering.{nat_cmp};
ghost use Rattle.wm_chunks.specs.Numbers.{AreChunks, Sets, entries_found, joined, last_number, value_at};

use crate::chunk::{WIDTH, get, insert, last, remove};
use std::alloc::{AllocError, Global};
use std::collections::BTreeMap;

/// By the quotient of its numbers and the width of a chunk: the entries of a chunk, in ascending order.
pub type Chunks<V> = BTreeMap<u64, Vec<(u64, V)>>;

/// Puts the first number of a chunk.
fn begin_chunk<V: Drop>(
    alloc: Global,
    chunks: &mut Chunks<V>,
    number: u64,
    value: V,
) -> Result<(), AllocError>
    requires chunks { AreChunks chunks.old.entries }
    requires none { entries_found (lookup (is_at (nat_cmp (number / 32))) chunks.old.entries) ≡ [] }
    ensures chunks { AreChunks chunks.new.entries }
    ensures sets { OnOk result (Sets number (Some value) (joined chunks.old.entries) (joined chunks.new.entries)) }
    ensures err { OnErr result (joined chunks.new.entries ≡ joined chunks.old.entries) }
{
    let mut chunk = Vec::new(alloc);
    chunk.push((number, value))?;
    chunks.insert(number / WIDTH, chunk)?;
    Ok(())
}

/// Sets the value of a number, and gives the one that it had.
pub fn put<V: Drop>(
    alloc: Global,
    chunks: &mut Chunks<V>,
    number: u64,
    value: V,
) -> Result<Option<V>, AllocError>
    requires { AreChunks chunks.old.entries }
    ensures chunks { AreChunks chunks.new.entries }
    ensures old { IfOk result (λ old. old ≡ value_at (joined chunks.old.entries) number) }
    ensures sets { OnOk result (Sets number (Some value) (joined chunks.old.entries) (joined chunks.new.entries)) }
    ensures err { OnErr result (joined chunks.new.entries ≡ joined chunks.old.entries) }
{
    let place = number / WIDTH;
    if let Some(chunk) = chunks.get_mut(&place) {
        return insert(chunk, number, value);
    }
    begin_chunk(alloc, chunks, number, value)?;
    Ok(None)
}

/// Takes out the value of a number. A chunk that has none left goes.
pub fn take<V: Drop>(chunks: &mut Chunks<V>, number: u64) -> Option<V>
    requires { AreChunks chunks.old.entries }
    ensures chunks { AreChunks chunks.new.entries }
    ensures old { result ≡ value_at (joined chunks.old.entries) number }
    ensures sets { Sets number None (joined chunks.old.entries) (joined chunks.new.entries) }
{
    let place = number / WIDTH;
    let Some(chunk) = chunks.get_mut(&place) else {
        return None;
    };
    let old = remove(chunk, number);
    if chunk.is_empty() {
        drop(chunks.remove(&place));
    }
    old
}

/// The value of a number.
pub fn find<V>(chunks: &Chunks<V>, number: u64) -> Option<&V>
    requires { AreChunks chunks.now.entries }
    ensures { option_copied result ≡ value_at (joined chunks.now.entries) number }
{
    match chunks.get(&(number / WIDTH)) {
        Some(chunk) => get(chunk.as_slice(), number),
        None => None,
    }
}

/// The greatest number.
pub fn greatest<V>(chunks: &Chunks<V>) -> Option<u64>
    requires { AreChunks chunks.now.entries }
    ensures { result ≡ last_number (joined chunks.now.entries) }
{
    match chunks.last_key_value() {
        Some((_, chunk)) => last(chunk.as_slice()),
        None => None,
    }
}
