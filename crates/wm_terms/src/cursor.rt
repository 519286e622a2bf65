ghost use Rattle.std.specs.Prelude.{◌≡◌, ◌≢◌, ◌<◌, ◌≤◌, ◌^◌, List, [], ◌∷◌, length, map, false, IfOk};
ghost use Rattle.wm_grammar.specs.Symbols.{Symbol, left_of, has, next_in};
ghost use Rattle.wm_grammar.specs.Sorts.{code_of};
ghost use Rattle.wm_grammar.specs.Scanned.{scanned, symbols_of};
ghost use Rattle.wm_grammar.specs.Meaning.{greatest};
ghost use Rattle.wm_grammar.specs.Reading.{mark_at};
ghost use Rattle.wm_grammar.specs.OperandReaders.{word_at, integer_at, quoted_at, mask_at, text_at};
ghost use Rattle.wm_grammar.specs.StatementReaders.{no_scale_at, size_at};
ghost use Rattle.wm_grammar.specs.Next.{next_sort, next_text, behind, no_more};
ghost use Rattle.wm_terms.specs.Cursor.{Peeks, Fits};
ghost use Rattle.wm_terms.specs.Telling.{Told};

use crate::error::ParseError;
use crate::meaning::{between, int_of, is_zero, mask_of, size_of, unquoted_bytes};
use std::alloc::Global;
use std::marker::Model;
use wm_base::{Name, Text};
use wm_grammar::{Sort, sort_of};
use wm_instants::DateForm;
use wm_lexer::{skipped, skipped_behind, token_here};
use wm_syntax::constant::Const;

/// The sort and the size of the token at the front of the bytes, which begin with no blank.
fn peek(rest: &[u8]) -> (Sort, usize)
    requires { length rest.now < 2 ^ 32 }
    ensures found { Peeks rest.now (code_of result.0) result.1 }
    ensures fits { Fits rest.now result.1 }
{
    match rest.split_first() {
        Some((b, more)) => {
            let (kind, size) = token_here(*b, more);
            (sort_of(kind, &rest[..size]), size)
        }
        None => (Sort::End, 0),
    }
}

/// A place in a line: what contracts see are the symbols from it on.
#[derive(Drop)]
pub struct Cursor<'a> {
    /// The bytes from the next token on.
    rest: &'a [u8],
    /// The sort of the next token.
    next: Sort,
    /// The bytes of the next token.
    size: usize,
}

impl<'a> Model for Cursor<'a> {
    ghost use Rattle.std.specs.Prelude.{◌≡◌, List};
    ghost use Rattle.wm_grammar.specs.Symbols.{Symbol};
    ghost use Rattle.wm_grammar.specs.Scanned.{scanned};
    ghost use Rattle.wm_grammar.specs.Sorts.{code_of};
    ghost use Rattle.wm_terms.specs.Cursor.{Peeks, Fits};

    ghost Value = { List Symbol };

    ghost view = { λ c. scanned c.rest.now };

    ghost invariant = { λ c. record { peeks : Peeks c.rest.now (code_of c.next) c.size; fits : Fits c.rest.now c.size } };
}

impl<'a> Cursor<'a> {
    /// A cursor at the first symbol of a line.
    pub fn new(line: &'a [u8]) -> Cursor<'a>
        requires { length line.now < 2 ^ 32 }
        ensures { result ≡ symbols_of line.now }
    {
        let rest = skipped(line);
        let (next, size) = peek(rest);
        Cursor { rest, next, size }
    }

    /// How many bytes are left from the next symbol on.
    pub fn left(&self) -> usize
        ensures { result ≡ left_of self.now }
    {
        self.rest.len()
    }

    /// Whether the next symbol is of this sort.
    pub fn is(&self, sort: Sort) -> bool
        requires { code_of sort ≢ 77 }
        ensures { result ≡ next_in (code_of sort ∷ []) self.now }
    {
        self.next.code() == sort.code()
    }

    /// The sort of the next symbol, `End` where none is left.
    pub fn sort(&self) -> Sort
        ensures { code_of result ≡ next_sort self.now }
    {
        self.next
    }

    /// A second cursor at the same place.
    pub fn fork(&self) -> Cursor<'a>
        ensures { result ≡ self.now }
    {
        Cursor {
            rest: self.rest,
            next: self.next,
            size: self.size,
        }
    }

    /// The bytes of the next symbol, none at the end.
    pub fn word(&self) -> &'a [u8]
        ensures value { result.now ≡ next_text self.now }
        ensures small { length result.now < 2 ^ 32 }
    {
        let rest: &'a [u8] = self.rest;
        &rest[..self.size]
    }

    /// Passes the next symbol.
    pub fn advance(&mut self)
        ensures { self.new ≡ behind self.old }
    {
        self.rest = skipped_behind(self.rest, self.size);
        let (next, size) = peek(self.rest);
        self.next = next;
        self.size = size;
    }

    /// Passes the next symbol if it is of this sort.
    pub fn mark(&mut self, sort: Sort) -> Result<(), ParseError>
        requires { code_of sort ≢ 77 }
        ensures { Told (λ _. tt) result self.new (mark_at (code_of sort) self.old) }
    {
        if self.is(sort) {
            self.advance();
            return Ok(());
        }
        Err(ParseError::Syntax(self.left()))
    }

    /// Whether the next symbol is of one of these sorts.
    pub fn is_any(&self, sorts: &[Sort]) -> bool
        requires { has (map code_of sorts.now) 77 ≡ false }
        ensures { result ≡ next_in (map code_of sorts.now) self.now }
    {
        let next = self.next.code();
        for sort in sorts {
            if next == sort.code() {
                return true;
            }
        }
        false
    }

    /// The fault of the next symbol.
    pub fn fault(&self) -> ParseError
        ensures { result ≡ ParseError.Syntax (left_of self.now) }
    {
        ParseError::Syntax(self.left())
    }

    /// The next symbol if it is a word of this sort, in upper case.
    pub fn name(&mut self, alloc: Global, sort: Sort) -> Result<Name, ParseError>
        requires { code_of sort ≢ 77 }
        ensures { Told (λ n. n) result self.new (word_at (code_of sort) self.old) }
    {
        if self.is(sort) {
            let name = Text::from_vec(self.word().to_ascii_uppercase(alloc)?);
            self.advance();
            return Ok(name);
        }
        Err(self.fault())
    }

    /// The next symbol if it is an integer.
    pub fn integer(&mut self) -> Result<u64, ParseError>
        ensures value { Told (λ n. n) result self.new (integer_at self.old) }
        ensures bound { IfOk result (λ n. n ≤ greatest) }
    {
        if self.is(Sort::Int) {
            let number = int_of(self.word());
            self.advance();
            return Ok(number);
        }
        Err(self.fault())
    }

    /// The next symbol if it is a text that names a form of TO_DATE.
    pub fn mask(&mut self) -> Result<DateForm, ParseError>
        ensures { Told (λ f. f) result self.new (mask_at self.old) }
    {
        if self.is(Sort::Text)
            && let Some(form) = mask_of(between(self.word()))
        {
            self.advance();
            return Ok(form);
        }
        Err(self.fault())
    }

    /// The next symbol if it is a text: what stands between its quotes.
    pub fn quoted(&mut self) -> Result<&'a [u8], ParseError>
        ensures { Told (λ t. t.now) result self.new (quoted_at self.old) }
    {
        if self.is(Sort::Text) {
            let text = between(self.word());
            self.advance();
            return Ok(text);
        }
        Err(self.fault())
    }

    /// The next symbol if it is a text, as a constant.
    pub fn text(&mut self, alloc: Global) -> Result<Const, ParseError>
        ensures { Told (λ k. k) result self.new (text_at self.old) }
    {
        if self.is(Sort::Text) {
            let bytes = unquoted_bytes(alloc, self.word())?;
            self.advance();
            return Ok(if bytes.is_empty() {
                Const::Null
            } else {
                Const::Text(Text::from_vec(bytes))
            });
        }
        Err(self.fault())
    }

    /// Passes the next symbol if it is an integer whose digits are all 0.
    pub fn no_scale(&mut self) -> Result<(), ParseError>
        ensures { Told (λ _. tt) result self.new (no_scale_at self.old) }
    {
        if self.is(Sort::Int) && is_zero(self.word()) {
            self.advance();
            return Ok(());
        }
        Err(self.fault())
    }

    /// The next symbol if it is an integer, as the size of a text.
    pub fn size(&mut self) -> Result<u16, ParseError>
        ensures { Told (λ n. n) result self.new (size_at self.old) }
    {
        if self.is(Sort::Int) {
            let size = size_of(self.word());
            self.advance();
            return Ok(size);
        }
        Err(self.fault())
    }

    /// Whether no symbol is left.
    pub fn is_at_end(&self) -> bool
        ensures { result ≡ no_more self.now }
    {
        self.size == 0
    }
}
