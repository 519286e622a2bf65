//! A row of values.
ghost use Rattle.std.specs.Prelude.{◌≡◌, IfOk};

use crate::memory::Memory;
use crate::values::Values;
use std::alloc::Global;

/// The values of a row, one for each column of its table or listing.
#[derive(Drop)]
pub struct Row {
    pub values: Values,
}

impl Row {
    pub fn copy(&self, alloc: Global) -> Result<Row, Memory>
        ensures { IfOk result (λ row. row ≡ self.now) }
    {
        Ok(Row {
            values: self.values.copy(alloc)?,
        })
    }
}
