ghost use Rattle.std.specs.Prelude.{◌≡◌};
ghost use Rattle.std.specs.Str.{str_eq_ignore_ascii_case};
ghost use Rattle.wm_grammar.specs.Sorts.{code_of};
ghost use Rattle.wm_grammar.specs.Words.{word_sort, word_sort2, word_sort3, word_sort4, word_sort5, word_sort6, word_sort7, single_sort, pair_sort, mark_sort, sort_of};

use crate::sort::Sort;
use wm_lexer::TokenKind;

/// Whether the word is this one, whatever its case.
pub fn is_word(word: &[u8], name: &[u8]) -> bool
    ensures { result ≡ str_eq_ignore_ascii_case word.now name.now }
{
    word.eq_ignore_ascii_case(name)
}

/// The sort of a word: the reserved word that it is, or `Id`.
#[tactic(auto, unfolding(crate::specs::Words::word_sort))]
pub fn word_sort(word: &[u8]) -> Sort
    ensures { code_of result ≡ word_sort word.now }
{
    if is_word(word, b"CONNECT") {
        return Sort::Connect;
    }
    if is_word(word, b"DISCONNECT") {
        return Sort::Disconnect;
    }
    if is_word(word, b"AT") {
        return Sort::At;
    }
    if is_word(word, b"CREATE") {
        return Sort::Create;
    }
    if is_word(word, b"TABLE") {
        return Sort::Table;
    }
    if is_word(word, b"PRIMARY") {
        return Sort::Primary;
    }
    if is_word(word, b"KEY") {
        return Sort::Key;
    }
    if is_word(word, b"NOT") {
        return Sort::Not;
    }
    word_sort2(word)
}

#[tactic(auto, unfolding(crate::specs::Words::word_sort2))]
fn word_sort2(word: &[u8]) -> Sort
    ensures { code_of result ≡ word_sort2 word.now }
{
    if is_word(word, b"NULL") {
        return Sort::Null;
    }
    if is_word(word, b"CONSTRAINT") {
        return Sort::Constraint;
    }
    if is_word(word, b"NUMBER") {
        return Sort::Number;
    }
    if is_word(word, b"INTEGER") {
        return Sort::Integer;
    }
    if is_word(word, b"VARCHAR2") {
        return Sort::Varchar2;
    }
    if is_word(word, b"DATE") {
        return Sort::Date;
    }
    if is_word(word, b"TIMESTAMP") {
        return Sort::Timestamp;
    }
    if is_word(word, b"INSERT") {
        return Sort::Insert;
    }
    word_sort3(word)
}

#[tactic(auto, unfolding(crate::specs::Words::word_sort3))]
fn word_sort3(word: &[u8]) -> Sort
    ensures { code_of result ≡ word_sort3 word.now }
{
    if is_word(word, b"INTO") {
        return Sort::Into;
    }
    if is_word(word, b"VALUES") {
        return Sort::Values;
    }
    if is_word(word, b"UPDATE") {
        return Sort::Update;
    }
    if is_word(word, b"SET") {
        return Sort::Set;
    }
    if is_word(word, b"WHERE") {
        return Sort::Where;
    }
    if is_word(word, b"DELETE") {
        return Sort::Delete;
    }
    if is_word(word, b"FROM") {
        return Sort::From;
    }
    if is_word(word, b"SELECT") {
        return Sort::Select;
    }
    word_sort4(word)
}

#[tactic(auto, unfolding(crate::specs::Words::word_sort4))]
fn word_sort4(word: &[u8]) -> Sort
    ensures { code_of result ≡ word_sort4 word.now }
{
    if is_word(word, b"DISTINCT") {
        return Sort::Distinct;
    }
    if is_word(word, b"INNER") {
        return Sort::Inner;
    }
    if is_word(word, b"JOIN") {
        return Sort::Join;
    }
    if is_word(word, b"ON") {
        return Sort::On;
    }
    if is_word(word, b"GROUP") {
        return Sort::Group;
    }
    if is_word(word, b"BY") {
        return Sort::By;
    }
    if is_word(word, b"ORDER") {
        return Sort::Order;
    }
    if is_word(word, b"AS") {
        return Sort::As;
    }
    word_sort5(word)
}

#[tactic(auto, unfolding(crate::specs::Words::word_sort5))]
fn word_sort5(word: &[u8]) -> Sort
    ensures { code_of result ≡ word_sort5 word.now }
{
    if is_word(word, b"COUNT") {
        return Sort::Count;
    }
    if is_word(word, b"SUM") {
        return Sort::Sum;
    }
    if is_word(word, b"MIN") {
        return Sort::Min;
    }
    if is_word(word, b"MAX") {
        return Sort::Max;
    }
    if is_word(word, b"ASC") {
        return Sort::Asc;
    }
    if is_word(word, b"DESC") {
        return Sort::Desc;
    }
    if is_word(word, b"VALIDFROM") {
        return Sort::Validfrom;
    }
    if is_word(word, b"VALIDTILL") {
        return Sort::Validtill;
    }
    word_sort6(word)
}

#[tactic(auto, unfolding(crate::specs::Words::word_sort6))]
fn word_sort6(word: &[u8]) -> Sort
    ensures { code_of result ≡ word_sort6 word.now }
{
    if is_word(word, b"WM_VALID") {
        return Sort::WmValid;
    }
    if is_word(word, b"SYSDATE") {
        return Sort::Sysdate;
    }
    if is_word(word, b"DBMS_WM") {
        return Sort::DbmsWm;
    }
    if is_word(word, b"UNTIL_CHANGED") {
        return Sort::UntilChanged;
    }
    if is_word(word, b"TO_DATE") {
        return Sort::ToDate;
    }
    if is_word(word, b"WMSYS") {
        return Sort::Wmsys;
    }
    if is_word(word, b"WM_PERIOD") {
        return Sort::WmPeriod;
    }
    if is_word(word, b"OR") {
        return Sort::Or;
    }
    word_sort7(word)
}

#[tactic(auto, unfolding(crate::specs::Words::word_sort7))]
fn word_sort7(word: &[u8]) -> Sort
    ensures { code_of result ≡ word_sort7 word.now }
{
    if is_word(word, b"AND") {
        return Sort::And;
    }
    if is_word(word, b"IS") {
        return Sort::Is;
    }
    if is_word(word, b"IN") {
        return Sort::In;
    }
    if is_word(word, b"BETWEEN") {
        return Sort::Between;
    }
    if is_word(word, b"EXECUTE") {
        return Sort::Execute;
    }
    if is_word(word, b"EXEC") {
        return Sort::Exec;
    }
    if is_word(word, b"TRUE") {
        return Sort::True;
    }
    if is_word(word, b"FALSE") {
        return Sort::False;
    }
    Sort::Id
}

#[tactic(auto, unfolding(crate::specs::Words::single_sort))]
fn single_sort(b: u8) -> Sort
    ensures { code_of result ≡ single_sort b }
{
    match b {
        b'(' => Sort::Open,
        b')' => Sort::Close,
        b',' => Sort::Comma,
        b'.' => Sort::Dot,
        b':' => Sort::Colon,
        b';' => Sort::Semicolon,
        b'*' => Sort::Star,
        b'+' => Sort::Plus,
        b'-' => Sort::Minus,
        b'=' => Sort::Eq,
        b'<' => Sort::Lt,
        b'>' => Sort::Gt,
        _ => Sort::Bad,
    }
}

#[tactic(auto, unfolding(crate::specs::Words::pair_sort))]
fn pair_sort(b: u8, c: u8) -> Sort
    ensures { code_of result ≡ pair_sort b c }
{
    match (b, c) {
        (b'<', b'>') => Sort::NotEq,
        (b'!', b'=') => Sort::BangEq,
        (b'<', b'=') => Sort::Le,
        (b'>', b'=') => Sort::Ge,
        (b'=', b'>') => Sort::Arrow,
        _ => Sort::Bad,
    }
}

fn mark_sort(word: &[u8]) -> Sort
    ensures { code_of result ≡ mark_sort word.now }
{
    match word {
        [] => Sort::Bad,
        [b] => single_sort(*b),
        [b, c, ..] => pair_sort(*b, *c),
    }
}

/// The sort of a token with these bytes.
pub fn sort_of(kind: TokenKind, word: &[u8]) -> Sort
    ensures { code_of result ≡ sort_of kind word.now }
{
    match kind {
        TokenKind::Id => word_sort(word),
        TokenKind::Int => Sort::Int,
        TokenKind::Text => Sort::Text,
        TokenKind::Mark => mark_sort(word),
        TokenKind::Bad => Sort::Bad,
    }
}
