//! Constants.
ghost use Rattle.std.specs.Prelude.{◌≡◌};

use std::marker::Model;
use wm_base::{Instant, Text};

/// An end of a period.
#[derive(Clone, Copy, Debug, PartialEq)]
pub enum PeriodEnd {
    Time(Instant),
    /// The moment of the line.
    Sysdate,
}

/// A constant. A text is not empty: the empty one is `Null`.
#[derive(Drop)]
pub enum Const {
    Null,
    Num(i64),
    Text(Text),
    Time(Instant),
    /// The moment of the line.
    Sysdate,
    /// A period; that its first end is below its second is not asked here.
    Span { from: PeriodEnd, till: PeriodEnd },
}

/// A list of constants.
#[derive(Drop)]
pub struct Consts {
    list: Vec<Const>,
}

impl Model for Consts {
    ghost use Rattle.std.specs.Prelude.{List};
    ghost use Rattle.wm_syntax.specs.declared.constant.Const.{Const as OneConst};

    ghost Value = { List OneConst };

    ghost view = { λ c. c.list.items };
}

impl Consts {
    pub fn from_vec(list: Vec<Const>) -> Consts
        ensures { result ≡ list.items }
    {
        Consts { list }
    }

    pub fn as_slice(&self) -> &[Const]
        ensures { result.now ≡ self.now }
    {
        self.list.as_slice()
    }

    pub fn into_vec(self) -> Vec<Const>
        ensures { result.items ≡ self }
    {
        self.list
    }
}
