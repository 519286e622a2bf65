//! Columns of tables and listings.
ghost use Rattle.std.specs.Prelude.{◌≡◌, IfOk};

use std::alloc::Global;
use std::marker::Model;
use wm_base::{Memory, Name};

/// The kind of a column of numbers.
pub const NUMBER: u8 = 1;
/// The kind of a column of texts.
pub const TEXT: u8 = 2;
/// The kind of a column of times.
pub const TIME: u8 = 3;
/// The kind of a column of periods.
pub const PERIOD: u8 = 4;

/// A column of a table or a listing, with the name of its source there.
#[derive(Drop)]
pub struct Column {
    pub source: Name,
    pub name: Name,
    /// One of `NUMBER`, `TEXT`, `TIME` and `PERIOD`.
    pub kind: u8,
}

impl Column {
    pub fn copy(&self, alloc: Global) -> Result<Column, Memory>
        ensures { IfOk result (λ column. column ≡ self.now) }
    {
        Ok(Column {
            source: self.source.copy(alloc)?,
            name: self.name.copy(alloc)?,
            kind: self.kind,
        })
    }
}

/// The columns of a table, or those of the sources of a query, one source after another.
#[derive(Drop)]
pub struct Columns {
    list: Vec<Column>,
}

impl Model for Columns {
    ghost use Rattle.std.specs.Prelude.{List};
    ghost use Rattle.wm_listing.specs.declared.columns.Column.{Column as OneColumn};

    ghost Value = { List OneColumn };

    ghost view = { λ c. c.list.items };
}

impl Columns {
    pub fn from_vec(list: Vec<Column>) -> Columns
        ensures { result ≡ list.items }
    {
        Columns { list }
    }

    pub fn as_slice(&self) -> &[Column]
        ensures { result.now ≡ self.now }
    {
        self.list.as_slice()
    }

    pub fn into_vec(self) -> Vec<Column>
        ensures { result.items ≡ self }
    {
        self.list
    }

    pub fn copy(&self, alloc: Global) -> Result<Columns, Memory>
        ensures { IfOk result (λ columns. columns ≡ self.now) }
    {
        let list = column_copies(alloc, self.list.as_slice())?;
        Ok(Columns { list })
    }
}

/// A copy of each column, in order.
fn column_copies(alloc: Global, columns: &[Column]) -> Result<Vec<Column>, Memory>
    ensures { IfOk result (λ copies. copies.items ≡ columns.now) }
{
    let mut copies = Vec::with_capacity(alloc, columns.len())?;
    for column in columns {
        copies.push(column.copy(alloc)?)?;
    }
    Ok(copies)
}
