//! The rows of a source or an answer, and the sources of a query.
ghost use Rattle.std.specs.Prelude.{◌≡◌, [], ◌∷◌, ◌++◌, length, OnOk, OnErr};

use crate::columns::Columns;
use std::alloc::Global;
use std::marker::Model;
use wm_base::{Memory, Row};

/// Rows in order: those of a listing, or those of an answer.
#[derive(Drop)]
pub struct RowList {
    list: Vec<Row>,
}

impl Model for RowList {
    ghost use Rattle.std.specs.Prelude.{List};
    ghost use Rattle.wm_base.specs.declared.row.Row.{Row as OneRow};

    ghost Value = { List OneRow };

    ghost view = { λ r. r.list.items };
}

impl RowList {
    /// No rows.
    pub fn new(alloc: Global) -> RowList
        ensures { result ≡ [] }
    {
        RowList {
            list: Vec::new(alloc),
        }
    }

    pub fn from_vec(list: Vec<Row>) -> RowList
        ensures { result ≡ list.items }
    {
        RowList { list }
    }

    pub fn into_vec(self) -> Vec<Row>
        ensures { result.items ≡ self }
    {
        self.list
    }

    pub fn as_slice(&self) -> &[Row]
        ensures { result.now ≡ self.now }
    {
        self.list.as_slice()
    }

    pub fn len(&self) -> usize
        ensures { result ≡ length self.now }
    {
        self.list.len()
    }

    /// Puts a row behind those that are there.
    pub fn push(&mut self, row: Row) -> Result<(), Memory>
        ensures ok { OnOk result (self.new ≡ self.old ++ row ∷ []) }
        ensures err { OnErr result (self.new ≡ self.old) }
    {
        self.list.push(row)?;
        Ok(())
    }
}

/// What a source of a query shows: its columns, and its rows in order.
#[derive(Drop)]
pub struct Listing {
    pub columns: Columns,
    pub rows: RowList,
}

/// The sources of a query, in order.
#[derive(Drop)]
pub struct Listings {
    list: Vec<Listing>,
}

impl Model for Listings {
    ghost use Rattle.std.specs.Prelude.{List};
    ghost use Rattle.wm_listing.specs.declared.listing.Listing.{Listing as OneListing};

    ghost Value = { List OneListing };

    ghost view = { λ l. l.list.items };
}

impl Listings {
    pub fn from_vec(list: Vec<Listing>) -> Listings
        ensures { result ≡ list.items }
    {
        Listings { list }
    }

    pub fn into_vec(self) -> Vec<Listing>
        ensures { result.items ≡ self }
    {
        self.list
    }

    pub fn as_slice(&self) -> &[Listing]
        ensures { result.now ≡ self.now }
    {
        self.list.as_slice()
    }
}
