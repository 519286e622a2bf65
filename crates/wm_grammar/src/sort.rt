ghost use Rattle.std.specs.Prelude.{◌≡◌};
ghost use Rattle.wm_grammar.specs.Sorts.{code_of};

/// What the grammar tells apart: each reserved word and each mark, words, integers, texts, what no form continues, and the end.
#[derive(Clone, Copy, Debug, PartialEq, Eq)]
pub enum Sort {
    Connect,
    Disconnect,
    At,
    Create,
    Table,
    Primary,
    Key,
    Not,
    Null,
    Constraint,
    Number,
    Integer,
    Varchar2,
    Date,
    Timestamp,
    Insert,
    Into,
    Values,
    Update,
    Set,
    Where,
    Delete,
    From,
    Select,
    Distinct,
    Inner,
    Join,
    On,
    Group,
    By,
    Order,
    As,
    Count,
    Sum,
    Min,
    Max,
    Asc,
    Desc,
    Validfrom,
    Validtill,
    WmValid,
    Sysdate,
    DbmsWm,
    UntilChanged,
    ToDate,
    Wmsys,
    WmPeriod,
    Or,
    And,
    Is,
    In,
    Between,
    Execute,
    Exec,
    True,
    False,
    /// `(`
    Open,
    /// `)`
    Close,
    /// `,`
    Comma,
    /// `.`
    Dot,
    /// `:`
    Colon,
    /// `;`
    Semicolon,
    /// `*`
    Star,
    /// `+`
    Plus,
    /// `-`
    Minus,
    /// `=`
    Eq,
    /// `<`
    Lt,
    /// `>`
    Gt,
    /// `<>`
    NotEq,
    /// `!=`
    BangEq,
    /// `<=`
    Le,
    /// `>=`
    Ge,
    /// `=>`
    Arrow,
    /// A word that is not reserved.
    Id,
    Int,
    Text,
    /// No form continues it.
    Bad,
    /// No symbol is left.
    End,
}

impl Sort {
    /// The number of the sort.
    pub fn code(self) -> u8
        ensures { result ≡ code_of self }
    {
        self as u8
    }
}
