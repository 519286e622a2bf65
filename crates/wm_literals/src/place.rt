use wm_grammar::{Parameter, Sort};

/// What stands before a symbol, as far as the meaning of a literal depends on it.
#[derive(Clone, Copy)]
pub struct Place {
    /// The sort of the symbol before it.
    pub last: Sort,
    /// The sort of the one before that.
    pub second: Sort,
    /// Whether the last word is where_clause, and at most `=>` stands behind it.
    pub named: bool,
    /// How many parentheses are open.
    pub depth: u32,
    /// In a call, the parameters of this place and of those behind it.
    pub slots: &'static [Parameter],
}
