//! Columns and names in a line.
ghost use Rattle.std.specs.Prelude.{◌≡◌};

use std::marker::Model;
use wm_base::Name;

/// The end of a period that a column names.
#[derive(Clone, Copy, Debug, PartialEq)]
pub enum Suffix {
    ValidFrom,
    ValidTill,
}

/// A column, perhaps of a source that is named. A suffix stands behind WM_VALID alone.
#[derive(Drop)]
pub struct Col {
    pub source: Option<Name>,
    pub name: Name,
    pub suffix: Option<Suffix>,
}

/// A list of columns.
#[derive(Drop)]
pub struct Cols {
    list: Vec<Col>,
}

impl Model for Cols {
    ghost use Rattle.std.specs.Prelude.{List};
    ghost use Rattle.wm_syntax.specs.declared.column.Col.{Col as OneCol};

    ghost Value = { List OneCol };

    ghost view = { λ c. c.list.items };
}

impl Cols {
    pub fn from_vec(list: Vec<Col>) -> Cols
        ensures { result ≡ list.items }
    {
        Cols { list }
    }

    pub fn as_slice(&self) -> &[Col]
        ensures { result.now ≡ self.now }
    {
        self.list.as_slice()
    }

    pub fn into_vec(self) -> Vec<Col>
        ensures { result.items ≡ self }
    {
        self.list
    }
}

/// A list of names.
#[derive(Drop)]
pub struct Names {
    list: Vec<Name>,
}

impl Model for Names {
    ghost use Rattle.std.specs.Prelude.{ℕ, List};

    ghost Value = { List (List ℕ) };

    ghost view = { λ n. n.list.items };
}

impl Names {
    pub fn from_vec(list: Vec<Name>) -> Names
        ensures { result ≡ list.items }
    {
        Names { list }
    }

    pub fn as_slice(&self) -> &[Name]
        ensures { result.now ≡ self.now }
    {
        self.list.as_slice()
    }

    pub fn into_vec(self) -> Vec<Name>
        ensures { result.items ≡ self }
    {
        self.list
    }
}
