ghost use Rattle.std.specs.Prelude.{◌≡◌, [], ◌∷◌, ◌++◌, OnOk, OnErr};

use std::alloc::Global;
use std::marker::Model;
use wm_base::Memory;

/// What a token is.
#[derive(Clone, Copy, Debug, PartialEq, Eq)]
pub enum TokenKind {
    /// A letter, and then letters, digits, `_`, `$` and `#`.
    Id,
    /// Decimal digits.
    Int,
    /// Bytes in single quotes; `''` stands for one quote.
    Text,
    /// One of the marks of the grammar.
    Mark,
    /// A byte that begins no token, or a text that is not closed, with all that follows it.
    Bad,
}

/// A token of a line: the bytes `from..till`, counted from 0.
#[derive(Clone, Copy, Debug, PartialEq, Eq)]
pub struct Token {
    pub kind: TokenKind,
    pub from: u32,
    pub till: u32,
}

/// A list of tokens.
#[derive(Drop)]
pub struct Tokens {
    list: Vec<Token>,
}

impl Model for Tokens {
    ghost use Rattle.std.specs.Prelude.{List};
    ghost use Rattle.wm_lexer.specs.declared.token.Token.{Token as OneToken};

    ghost Value = { List OneToken };

    ghost view = { λ t. t.list.items };
}

impl Tokens {
    /// No tokens.
    pub fn new(alloc: Global) -> Tokens
        ensures { result ≡ [] }
    {
        Tokens {
            list: Vec::new(alloc),
        }
    }

    pub fn as_slice(&self) -> &[Token]
        ensures { result.now ≡ self.now }
    {
        self.list.as_slice()
    }

    /// Adds a token at the end.
    pub fn push(&mut self, token: Token) -> Result<(), Memory>
        ensures ok { OnOk result (self.new ≡ self.old ++ token ∷ []) }
        ensures err { OnErr result (self.new ≡ self.old) }
    {
        self.list.push(token)?;
        Ok(())
    }
}
