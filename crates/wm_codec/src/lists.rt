//! Reading lists of values and of columns.
ghost use Rattle.wm_codec.specs.Format.{times, counted};
ghost use Rattle.wm_codec.specs.Fields.{value};
ghost use Rattle.wm_codec.specs.Spelling.{column};
ghost use Rattle.wm_codec.specs.Reading.{Gives};

use crate::fault::ReadFault;
use crate::numbers::{u8_at, u16_at};
use crate::values::{column_kind_at, flag_at, text_of, value_of};
use std::alloc::Global;
use wm_base::{Memory, Values};
use wm_spec::record::{TableColumn, TableColumns};

pub fn column_of(alloc: Global, bytes: &[u8]) -> Result<(TableColumn, &[u8]), ReadFault>
    ensures { Gives (λ x. (x.0, x.1.now)) result (column.read bytes.now) }
{
    let (name, rest) = text_of(alloc, bytes)?;
    let (kind, rest) = column_kind_at(rest)?;
    let (size, rest) = u16_at(rest)?;
    let (not_null, rest) = flag_at(rest)?;
    Ok((
        TableColumn {
            name,
            kind,
            size,
            not_null,
        },
        rest,
    ))
}

/// So many values.
fn values_times(alloc: Global, count: u8, bytes: &[u8]) -> Result<(Values, &[u8]), ReadFault>
    ensures { Gives (λ x. (x.0, x.1.now)) result (times value count bytes.now) }
{
    let mut values = Vec::with_capacity(alloc, usize::from(count)).map_err(Memory::from)?;
    let mut rest = bytes;
    for _ in 0..count {
        let (value, after) = value_of(alloc, rest)?;
        values.push_reserved(value);
        rest = after;
    }
    Ok((Values::from_vec(values), rest))
}

/// So many columns.
fn columns_times(alloc: Global, count: u8, bytes: &[u8]) -> Result<(TableColumns, &[u8]), ReadFault>
    ensures { Gives (λ x. (x.0, x.1.now)) result (times column count bytes.now) }
{
    let mut columns = TableColumns::new(alloc);
    let mut rest = bytes;
    for _ in 0..count {
        let (column, after) = column_of(alloc, rest)?;
        columns.push(column)?;
        rest = after;
    }
    Ok((columns, rest))
}

/// A byte that counts the values, and the values.
pub fn values_of(alloc: Global, bytes: &[u8]) -> Result<(Values, &[u8]), ReadFault>
    ensures { Gives (λ x. (x.0, x.1.now)) result ((counted value).read bytes.now) }
{
    let (count, rest) = u8_at(bytes)?;
    values_times(alloc, count, rest)
}

/// A byte that counts the columns, and the columns.
pub fn columns_of(alloc: Global, bytes: &[u8]) -> Result<(TableColumns, &[u8]), ReadFault>
    ensures { Gives (λ x. (x.0, x.1.now)) result ((counted column).read bytes.now) }
{
    let (count, rest) = u8_at(bytes)?;
    columns_times(alloc, count, rest)
}
