//! What INSERT writes.
ghost use Rattle.std.specs.Prelude.{◌≡◌, IfOk};
ghost use Rattle.wm_dml.specs.Changing.{added as added_of};

use crate::change::RowChange;
use crate::keys::row_key;
use std::alloc::Global;
use wm_base::{Kind, Memory, Period, Values};
use wm_spec::record::Table;

/// What INSERT writes: the new row over its period.
pub fn added(
    alloc: Global,
    table: &Table,
    period: &Period,
    row: Values,
) -> Result<RowChange, Memory>
    ensures { IfOk result (λ change. change ≡ added_of table.now period.now row) }
{
    Ok(RowChange {
        key: row_key(alloc, table, row.as_slice())?,
        period: *period,
        row: Some(row),
        kind: Kind::Insert,
    })
}
