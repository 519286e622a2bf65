//! A map from numbers to values that wastes little room: a list of up to 32 entries for the numbers between two
//! multiples of 32, in place of a node that ascending numbers leave half full.

ghost use Rattle.std.specs.Prelude.{◌≡◌, ◌<◌, ◌/◌, ◌++◌, ℕ, [], None, Some, IfNone, IfOk, IfSome, IsSome, OnErr, OnOk};
ghost use Rattle.std.specs.Option.{option_copied};
ghost use Rattle.wm_chunks.specs.Numbers.{AreOrdered, IsNewest, Sets, joined, value_at};

use crate::chunk::{WIDTH, get, insert, last, remove};
use crate::chunks::{Chunks, find, greatest, put, take};
use std::alloc::{AllocError, Global};
use std::collections::BTreeMap;
use std::marker::Model;
use std::mem::replace;

/// A chunk that stands apart, for the greatest numbers are put and asked for most: to find it costs no search.
#[derive(Drop)]
struct Newest<V> {
    place: u64,
    entries: Vec<(u64, V)>,
}

/// Values under numbers, in ascending order.
#[derive(Drop)]
pub struct NumberMap<V> {
    alloc: Global,
    older: Chunks<V>,
    newest: Newest<V>,
}

impl<V> Model for NumberMap<V> {
    ghost use Rattle.std.specs.Prelude.{◌++◌};
    ghost use Rattle.wm_chunks.specs.Numbers.{IsNewest, Numbers, joined, numbers, numbers_code};

    ghost Value = { Numbers V };

    ghost coded = { numbers_code V.code };

    ghost view = { λ m. numbers (joined m.older.entries ++ m.newest.entries.items) };

    ghost invariant = { λ m. IsNewest m.older.entries m.newest.place m.newest.entries.items };
}

/// Begins a new newest chunk with a number of a greater place. The one before joins the older ones, unless it is empty.
fn begin_newest<V: Drop>(
    alloc: Global,
    older: &mut Chunks<V>,
    newest: &mut Newest<V>,
    number: u64,
    value: V,
) -> Result<(), AllocError>
    requires newest { IsNewest older.old.entries newest.old.place newest.old.entries.items }
    requires greater { newest.old.place < number / 32 }
    ensures newest { IsNewest older.new.entries newest.new.place newest.new.entries.items }
    ensures sets { OnOk result (Sets number (Some value) (joined older.old.entries ++ newest.old.entries.items) (joined older.new.entries ++ newest.new.entries.items)) }
    ensures err { OnErr result (joined older.new.entries ++ newest.new.entries.items ≡ joined older.old.entries ++ newest.old.entries.items) }
{
    let mut entries = Vec::new(alloc);
    entries.push((number, value))?;
    let begun = Newest {
        place: number / WIDTH,
        entries,
    };
    let before = replace(newest, begun);
    if before.entries.is_empty() {
        return Ok(());
    }
    match older.insert(before.place, before.entries) {
        Ok(_) => Ok(()),
        Err(failed) => {
            newest.place = failed.value.0;
            newest.entries = failed.value.1;
            Err(AllocError)
        }
    }
}

impl<V> NumberMap<V> {
    /// No numbers.
    pub fn new(alloc: Global) -> NumberMap<V>
        ensures empty { result.entries ≡ [] }
        ensures ordered { AreOrdered result.entries }
    {
        NumberMap {
            alloc,
            older: BTreeMap::new(alloc),
            newest: Newest {
                place: 0,
                entries: Vec::new(alloc),
            },
        }
    }

    /// The value of a number.
    pub fn get(&self, number: u64) -> Option<&V>
        ensures { option_copied result ≡ value_at self.now.entries number }
    {
        let place = number / WIDTH;
        if place < self.newest.place {
            return find(&self.older, number);
        }
        if self.newest.place < place {
            return None;
        }
        get(self.newest.entries.as_slice(), number)
    }

    /// The greatest number.
    pub fn last_number(&self) -> Option<u64>
        ensures none { IfNone result (self.now.entries ≡ []) }
        ensures valued { IfSome result (λ last. IsSome (value_at self.now.entries last)) }
        ensures greatest { IfSome result (λ last. (q : ℕ) → last < q → value_at self.now.entries q ≡ None) }
    {
        if self.newest.entries.is_empty() {
            return greatest(&self.older);
        }
        last(self.newest.entries.as_slice())
    }

    /// Sets the value of a number, and gives the one that it had. An error, that memory ran out, changes nothing.
    pub fn insert(&mut self, number: u64, value: V) -> Result<Option<V>, AllocError>
    where
        V: Drop,
        ensures old { IfOk result (λ old. old ≡ value_at self.old.entries number) }
        ensures sets { OnOk result (Sets number (Some value) self.old.entries self.new.entries) }
        ensures err { OnErr result (self.new.entries ≡ self.old.entries) }
        ensures ordered { AreOrdered self.new.entries }
    {
        let place = number / WIDTH;
        if place < self.newest.place {
            return put(self.alloc, &mut self.older, number, value);
        }
        if self.newest.place < place {
            begin_newest(self.alloc, &mut self.older, &mut self.newest, number, value)?;
            return Ok(None);
        }
        insert(&mut self.newest.entries, number, value)
    }

    /// Takes out the value of a number.
    pub fn remove(&mut self, number: u64) -> Option<V>
    where
        V: Drop,
        ensures old { result ≡ value_at self.old.entries number }
        ensures sets { Sets number None self.old.entries self.new.entries }
        ensures ordered { AreOrdered self.new.entries }
    {
        let place = number / WIDTH;
        if place < self.newest.place {
            return take(&mut self.older, number);
        }
        if self.newest.place < place {
            return None;
        }
        remove(&mut self.newest.entries, number)
    }
}
