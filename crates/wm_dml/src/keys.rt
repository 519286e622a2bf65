//! The key of a row.
ghost use Rattle.std.specs.Prelude.{◌≡◌, IfOk};
ghost use Rattle.wm_dml.specs.Changing.{row_key as key_of_row};

use std::alloc::Global;
use wm_base::{Key, Memory, Value, Values};
use wm_spec::record::Table;

/// The key of a row of the table: its values in the key columns; none where it lacks one of them.
pub fn row_key(alloc: Global, table: &Table, row: &[Value]) -> Result<Key, Memory>
    ensures { IfOk result (λ key. key ≡ key_of_row table.now row.now) }
{
    let places = table.key_columns.as_slice();
    let mut key = Values::with_capacity(alloc, places.len())?;
    for place in places {
        match row.get(usize::from(*place)) {
            Some(value) => key.push(value.copy(alloc)?)?,
            None => return Ok(Key::from_values(Values::new(alloc))),
        }
    }
    Ok(Key::from_values(key))
}
