//! The columns ID and AMT of BUD, both of numbers, and the rows 1|10 and 2|20.
use std::alloc::Global;
use wm_base::{Memory, Name, Row, Value, Values};
use wm_listing::columns::NUMBER;
use wm_listing::{Column, Columns, Listing, Listings, RowList};

fn column(alloc: Global, name: &[u8]) -> Result<Column, Memory> {
    Ok(Column {
        source: Name::copy_of(alloc, b"BUD")?,
        name: Name::copy_of(alloc, name)?,
        kind: NUMBER,
    })
}

fn columns(alloc: Global) -> Result<Columns, Memory> {
    let mut list = Vec::new(alloc);
    list.push(column(alloc, b"ID")?)?;
    list.push(column(alloc, b"AMT")?)?;
    Ok(Columns::from_vec(list))
}

fn row(alloc: Global, id: i64, amount: i64) -> Result<Row, Memory> {
    let mut values = Values::new(alloc);
    values.push(Value::Num(id))?;
    values.push(Value::Num(amount))?;
    Ok(Row { values })
}

pub fn rows(alloc: Global) -> Result<Vec<Row>, Memory> {
    let mut rows = Vec::new(alloc);
    rows.push(row(alloc, 1, 10)?)?;
    rows.push(row(alloc, 2, 20)?)?;
    Ok(rows)
}

pub fn tables_of_bud(alloc: Global) -> Result<Listings, Memory> {
    let columns = columns(alloc)?;
    let rows = RowList::from_vec(rows(alloc)?);
    let mut tables = Vec::new(alloc);
    tables.push(Listing { columns, rows })?;
    Ok(Listings::from_vec(tables))
}

/// Whether there is one row, and it is 1|10.
pub fn are_first(rows: &[Row]) -> bool {
    match rows {
        [row] => matches!(row.values.as_slice(), [Value::Num(1), Value::Num(10)]),
        _ => false,
    }
}
