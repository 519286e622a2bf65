//! The columns in the record of a table.
ghost use Rattle.std.specs.Prelude.{◌≡◌, ◌∷◌, [], ◌++◌, length, OnOk, OnErr};

use std::alloc::Global;
use std::marker::Model;
use wm_base::{Memory, Name};

/// What the values of a column are, where they are not NULL.
#[derive(Clone, Copy, Debug, PartialEq)]
pub enum ColumnKind {
    Number,
    Text,
    Time,
}

/// A column of a table.
#[derive(Drop)]
pub struct TableColumn {
    pub name: Name,
    pub kind: ColumnKind,
    /// The most bytes that a text of the column has; 0 for the other kinds.
    pub size: u16,
    pub not_null: bool,
}

/// The columns of a table, in order.
#[derive(Drop)]
pub struct TableColumns {
    list: Vec<TableColumn>,
}

impl Model for TableColumns {
    ghost use Rattle.std.specs.Prelude.{List};
    ghost use Rattle.wm_spec.specs.declared.record.column.TableColumn.{TableColumn};

    ghost Value = { List TableColumn };

    ghost view = { λ c. c.list.items };
}

impl TableColumns {
    /// No columns.
    pub fn new(alloc: Global) -> TableColumns
        ensures { result ≡ [] }
    {
        TableColumns {
            list: Vec::new(alloc),
        }
    }

    pub fn as_slice(&self) -> &[TableColumn]
        ensures { result.now ≡ self.now }
    {
        self.list.as_slice()
    }

    pub fn len(&self) -> usize
        ensures { result ≡ length self.now }
    {
        self.list.len()
    }

    pub fn push(&mut self, column: TableColumn) -> Result<(), Memory>
        ensures ok { OnOk result (self.new ≡ self.old ++ column ∷ []) }
        ensures err { OnErr result (self.new ≡ self.old) }
    {
        self.list.push(column)?;
        Ok(())
    }
}
