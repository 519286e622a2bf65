//! Statements and what stands in them.
ghost use Rattle.std.specs.Prelude.{◌≡◌};

use crate::column::Names;
use crate::cond::Cond;
use crate::constant::Const;
use crate::expr::{Expr, Exprs};
use crate::query::Query;
use std::marker::Model;
use wm_base::Name;

/// The type of a column; a text has at most so many bytes.
#[derive(Clone, Copy, Debug, PartialEq)]
pub enum ColumnType {
    Number,
    Text(u16),
    Time,
}

#[derive(Drop)]
pub enum CreateItem {
    Column {
        name: Name,
        of: ColumnType,
        primary: bool,
        not_null: bool,
    },
    Primary {
        constraint: Option<Name>,
        columns: Names,
    },
}

/// A list of the items of a new table.
#[derive(Drop)]
pub struct CreateItems {
    list: Vec<CreateItem>,
}

impl Model for CreateItems {
    ghost use Rattle.std.specs.Prelude.{List};
    ghost use Rattle.wm_syntax.specs.declared.statement.CreateItem.{CreateItem as OneItem};

    ghost Value = { List OneItem };

    ghost view = { λ c. c.list.items };
}

impl CreateItems {
    pub fn from_vec(list: Vec<CreateItem>) -> CreateItems
        ensures { result ≡ list.items }
    {
        CreateItems { list }
    }

    pub fn as_slice(&self) -> &[CreateItem]
        ensures { result.now ≡ self.now }
    {
        self.list.as_slice()
    }

    pub fn into_vec(self) -> Vec<CreateItem>
        ensures { result.items ≡ self }
    {
        self.list
    }
}

/// A column, and what it becomes.
#[derive(Drop)]
pub struct Set {
    pub name: Name,
    pub becomes: Expr,
}

/// A list of changes of columns.
pub type Sets = Vec<Set>;

#[derive(Drop)]
pub enum ArgValue {
    Const(Const),
    Bool(bool),
}

/// An argument of a call, perhaps with the name of its parameter.
#[derive(Drop)]
pub struct Arg {
    pub name: Option<Name>,
    pub value: ArgValue,
}

/// A list of arguments.
#[derive(Drop)]
pub struct Args {
    list: Vec<Arg>,
}

impl Model for Args {
    ghost use Rattle.std.specs.Prelude.{List};
    ghost use Rattle.wm_syntax.specs.declared.statement.Arg.{Arg as OneArg};

    ghost Value = { List OneArg };

    ghost view = { λ a. a.list.items };
}

impl Args {
    pub fn from_vec(list: Vec<Arg>) -> Args
        ensures { result ≡ list.items }
    {
        Args { list }
    }

    pub fn as_slice(&self) -> &[Arg]
        ensures { result.now ≡ self.now }
    {
        self.list.as_slice()
    }

    pub fn into_vec(self) -> Vec<Arg>
        ensures { result.items ≡ self }
    {
        self.list
    }
}

#[derive(Drop)]
pub enum Statement {
    Create {
        table: Name,
        items: CreateItems,
    },
    Insert {
        table: Name,
        names: Option<Names>,
        values: Exprs,
    },
    Update {
        table: Name,
        sets: Sets,
        filter: Option<Cond>,
    },
    Delete {
        table: Name,
        filter: Option<Cond>,
    },
    Select(Query),
    /// A call of a procedure. The condition is that of the text which is given for where_clause, None where none is given.
    Call {
        procedure: Name,
        args: Args,
        condition: Option<Cond>,
    },
}
