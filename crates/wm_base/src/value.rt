//! One value of a row, a key or a condition.
ghost use Rattle.std.specs.Prelude.{◌≡◌, ◌↔◌, ◌+◌, ◌<◌, IsTrue, IfOk};
ghost use Rattle.wm_base.specs.Value.{same_type, compare_of, value_order, weight_of, type_place};

use crate::instant::Instant;
use crate::memory::Memory;
use crate::period::Period;
use crate::text::Text;
use std::alloc::Global;
use std::cmp::Ordering;

/// A value of a row, a key or a condition.
#[derive(Debug, Drop)]
pub enum Value {
    Null,
    Num(i64),
    Text(Text),
    Time(Instant),
    Span(Period),
}

impl Value {
    pub fn copy(&self, alloc: Global) -> Result<Value, Memory>
        ensures { IfOk result (λ value. value ≡ self.now) }
    {
        match self {
            Value::Null => Ok(Value::Null),
            Value::Num(number) => Ok(Value::Num(*number)),
            Value::Text(text) => Ok(Value::Text(text.copy(alloc)?)),
            Value::Time(instant) => Ok(Value::Time(*instant)),
            Value::Span(period) => Ok(Value::Span(*period)),
        }
    }

    /// Whether the two are one value, of one type; NULL is itself.
    pub fn equals(&self, q: &Value) -> bool
        ensures { IsTrue result ↔ (self.now ≡ q.now) }
    {
        match (self, q) {
            (Value::Null, Value::Null) => true,
            (Value::Num(m), Value::Num(n)) => m == n,
            (Value::Text(s), Value::Text(t)) => s.equals(t.as_bytes()),
            (Value::Time(i), Value::Time(j)) => i == j,
            (Value::Span(p), Value::Span(r)) => p.equals(r),
            _ => false,
        }
    }

    /// How two values of one type compare, or None exactly where one is NULL, which is of every type.
    pub fn compare(&self, q: &Value) -> Option<Ordering>
        requires { IsTrue (same_type self.now q.now) }
        ensures { result ≡ compare_of self.now q.now }
    {
        match (self, q) {
            (Value::Num(m), Value::Num(n)) => Some(m.cmp(n)),
            (Value::Text(s), Value::Text(t)) => Some(s.compare(t)),
            (Value::Time(i), Value::Time(j)) => Some(i.cmp(j)),
            (Value::Span(p), Value::Span(r)) => Some(p.compare(r)),
            _ => None,
        }
    }

    /// The place of the value's type: NULL, number, text, time, period.
    fn type_place(&self) -> u8
        ensures { result ≡ type_place self.now }
    {
        match self {
            Value::Null => 0,
            Value::Num(_) => 1,
            Value::Text(_) => 2,
            Value::Time(_) => 3,
            Value::Span(_) => 4,
        }
    }

    /// The order of all values: by type, NULL first, and within one type as they compare.
    pub fn order(&self, q: &Value) -> Ordering
        ensures { result ≡ value_order self.now q.now }
    {
        let place = self.type_place();
        let other_place = q.type_place();
        if place == other_place {
            self.compare(q).unwrap_or(Ordering::Equal)
        } else {
            place.cmp(&other_place)
        }
    }

    /// What the value counts for in the weight of a row.
    pub fn weight(&self) -> u64
        ensures { result ≡ weight_of self.now }
    {
        match self {
            Value::Null => 1,
            Value::Num(_) | Value::Time(_) => 9,
            Value::Text(text) => 3 + text.len() as u64,
            Value::Span(_) => 17,
        }
    }
}
