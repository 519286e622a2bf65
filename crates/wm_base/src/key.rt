//! The key of a row.
ghost use Rattle.std.specs.Prelude.{◌≡◌, ◌↔◌, ◌∷◌, [], IsTrue, IfOk};
ghost use Rattle.wm_base.specs.Key.{key_order};

use crate::memory::Memory;
use crate::value::Value;
use crate::values::Values;
use std::alloc::Global;
use std::cmp::Ordering;
use std::marker::Model;
use std::slice::from_ref;

/// The key of a row: a value for each key column.
#[derive(Debug, Drop)]
pub struct Key {
    held: Held,
}

/// What a key holds. Most keys have one value, which takes no memory of its own.
#[derive(Debug, Drop)]
enum Held {
    One(Value),
    Values(Values),
}

impl Model for Key {
    ghost use Rattle.std.specs.Prelude.{List};
    ghost use Rattle.wm_base.specs.declared.value.Value.{Value as OneValue};

    ghost Value = { List OneValue };

    ghost use Rattle.wm_base.specs.Held.{held_values};

    ghost view = { λ k. held_values k.held };
}

impl Key {
    /// The key of one column.
    pub fn single(value: Value) -> Key
        ensures { result ≡ value ∷ [] }
    {
        Key {
            held: Held::One(value),
        }
    }

    /// The key that has these values, in order of the key columns.
    pub fn from_values(values: Values) -> Key
        ensures { result ≡ values }
    {
        if values.len() != 1 {
            return Key {
                held: Held::Values(values),
            };
        }
        let mut list = values.into_vec();
        Key::single(list.remove(0))
    }

    pub fn values(&self) -> &[Value]
        ensures { result.now ≡ self.now }
    {
        match &self.held {
            Held::One(value) => from_ref(value),
            Held::Values(values) => values.as_slice(),
        }
    }

    pub fn copy(&self, alloc: Global) -> Result<Key, Memory>
        ensures { IfOk result (λ key. key ≡ self.now) }
    {
        let held = match &self.held {
            Held::One(value) => Held::One(value.copy(alloc)?),
            Held::Values(values) => Held::Values(values.copy(alloc)?),
        };
        Ok(Key { held })
    }

    /// The order of keys: value by value, a front before what it begins.
    pub fn compare(&self, q: &Key) -> Ordering
        ensures { result ≡ key_order self.now q.now }
    {
        match (&self.held, &q.held) {
            (Held::One(Value::Num(one)), Held::One(Value::Num(other))) => one.cmp(other),
            _ => compare_values(self.values(), q.values()),
        }
    }

    pub fn equals(&self, q: &Key) -> bool
        ensures { IsTrue result ↔ (self.now ≡ q.now) }
    {
        self.compare(q).is_eq()
    }
}

/// The order of the values of two keys. It stands apart, for most keys are one number and need none of it.
#[inline(never)]
fn compare_values(one: &[Value], other: &[Value]) -> Ordering
    ensures { result ≡ key_order one.now other.now }
{
    one.cmp(other)
}
