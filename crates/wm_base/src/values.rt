//! Lists of values.
ghost use Rattle.std.specs.Prelude.{◌≡◌, ◌<◌, ◌↔◌, List, [], ◌∷◌, ◌++◌, length, IsTrue, IfOk, OnOk, OnErr};

use crate::memory::Memory;
use crate::value::Value;
use std::alloc::Global;
use std::marker::Model;

/// A list of values.
#[derive(Debug, Drop)]
pub struct Values {
    list: Vec<Value>,
}

impl Model for Values {
    ghost use Rattle.std.specs.Prelude.{List};
    ghost use Rattle.wm_base.specs.declared.value.Value.{Value as OneValue};

    ghost Value = { List OneValue };

    ghost view = { λ v. v.list.items };
}

impl Values {
    /// No values.
    pub fn new(alloc: Global) -> Values
        ensures { result ≡ [] }
    {
        Values {
            list: Vec::new(alloc),
        }
    }

    /// No values, with room for so many.
    pub fn with_capacity(alloc: Global, count: usize) -> Result<Values, Memory>
        ensures { IfOk result (λ values. values ≡ []) }
    {
        let list = Vec::with_capacity(alloc, count)?;
        Ok(Values { list })
    }

    pub fn from_vec(list: Vec<Value>) -> Values
        ensures { result ≡ list.items }
    {
        Values { list }
    }

    pub fn into_vec(self) -> Vec<Value>
        ensures { result.items ≡ self }
    {
        self.list
    }

    pub fn as_slice(&self) -> &[Value]
        ensures { result.now ≡ self.now }
    {
        self.list.as_slice()
    }

    pub fn len(&self) -> usize
        ensures { result ≡ length self.now }
    {
        self.list.len()
    }

    pub fn is_empty(&self) -> bool
        ensures { IsTrue result ↔ (self.now ≡ []) }
    {
        self.list.is_empty()
    }

    pub fn push(&mut self, value: Value) -> Result<(), Memory>
        ensures ok { OnOk result (self.new ≡ self.old ++ value ∷ []) }
        ensures err { OnErr result (self.new ≡ self.old) }
    {
        self.list.push(value)?;
        Ok(())
    }

    pub fn copy(&self, alloc: Global) -> Result<Values, Memory>
        ensures { IfOk result (λ values. values ≡ self.now) }
    {
        let list = copies_of(alloc, self.list.as_slice())?;
        Ok(Values { list })
    }
}

/// A copy of each value, in order.
pub fn copies_of(alloc: Global, values: &[Value]) -> Result<Vec<Value>, Memory>
    ensures { IfOk result (λ copies. copies.items ≡ values.now) }
{
    let mut copies = Vec::with_capacity(alloc, values.len())?;
    for value in values {
        copies.push(value.copy(alloc)?)?;
    }
    Ok(copies)
}
