//! The key of a row, with its table.
ghost use Rattle.std.specs.Prelude.{◌≡◌, IfOk};
ghost use Rattle.wm_rows.specs.Rows.{row_order};

use std::alloc::Global;
use std::cmp::Ordering;
use wm_base::{Key, Memory};

/// The key of a row, with its table.
#[derive(Drop)]
pub struct RowKey {
    pub table: u16,
    pub key: Key,
}

impl RowKey {
    /// The key of a table, copied.
    pub fn of(alloc: Global, table: u16, key: &Key) -> Result<RowKey, Memory>
        ensures { IfOk result (λ row. row ≡ record { table = table; key = key.now }) }
    {
        Ok(RowKey {
            table,
            key: key.copy(alloc)?,
        })
    }

    pub fn copy(&self, alloc: Global) -> Result<RowKey, Memory>
        ensures { IfOk result (λ row. row ≡ self.now) }
    {
        RowKey::of(alloc, self.table, &self.key)
    }

    /// The order of rows: by table, and within one by key.
    pub fn compare(&self, q: &RowKey) -> Ordering
        ensures { result ≡ row_order self.now q.now }
    {
        self.table.cmp(&q.table).then(self.key.compare(&q.key))
    }
}
