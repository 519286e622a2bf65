ghost use Rattle.std.specs.Prelude.{◌≡◌, ◌+◌, ◌<◌, ◌^◌, ◌==◌, length, drop, IfOk};
ghost use Rattle.wm_grammar.specs.Sorts.{code_of};
ghost use Rattle.wm_grammar.specs.Meaning.{between, mask_of};
ghost use Rattle.wm_grammar.specs.Next.{next_text, behind};
ghost use Rattle.wm_grammar.specs.Literals.{too_great, no_size, no_date, nothing, depth_after, all_parameters, names_procedure, slots_after, named_after, after, date_form, is_bad, is_clause_slot, takes_clause, bad_within, is_bad_clause, is_bad_in_line, bad_literal};
ghost use Rattle.wm_literals.specs.Places.{before};

use crate::place::Place;
use std::alloc::Global;
use wm_base::Memory;
use wm_grammar::{Parameter, Procedure, Sort, is_same, is_word, procedure_of};
use wm_instants::{DateForm, read_in};
use wm_terms::cursor::Cursor;
use wm_terms::meaning::{between, mask_of, number_within, size_of, unquoted_bytes};

/// Whether they are the same sort.
fn is_sort(left: Sort, right: Sort) -> bool
    ensures { result ≡ (code_of left == code_of right) }
{
    left.code() == right.code()
}

/// Whether the integer is above the greatest.
#[tactic(auto, using(crate::proofs::Scanning::great_none, crate::proofs::Scanning::great_some))]
fn is_too_great(digits: &[u8]) -> bool
    ensures { result ≡ too_great digits.now }
{
    match number_within(digits) {
        Some(_) => false,
        None => true,
    }
}

/// Whether the integer is no size of a text.
#[tactic(auto, using(crate::proofs::Scanning::no_size_is))]
fn is_no_size(digits: &[u8]) -> bool
    ensures { result ≡ no_size digits.now }
{
    size_of(digits) == 0
}

/// Whether a text that has to be a date of this form is none.
fn is_no_date(form: Option<DateForm>, bytes: &[u8]) -> bool
    ensures { result ≡ no_date form bytes.now }
{
    match form {
        Some(one) => match read_in(one, bytes) {
            Ok(_) => false,
            Err(_) => true,
        },
        None => false,
    }
}

/// The beginning of a line or of a text.
fn beginning() -> Place
    ensures { before result ≡ nothing }
{
    Place {
        last: Sort::End,
        second: Sort::End,
        named: false,
        depth: 0,
        slots: &[],
    }
}

fn depth_after(depth: u32, sort: Sort) -> u32
    requires { depth + 1 < 2 ^ 32 }
    ensures { result ≡ depth_after depth (code_of sort) }
{
    if is_sort(sort, Sort::Open) {
        return depth + 1;
    }
    if is_sort(sort, Sort::Close) {
        return depth.saturating_sub(1);
    }
    depth
}

fn all_parameters(procedure: Option<Procedure>) -> &'static [Parameter]
    ensures { result.now ≡ all_parameters procedure }
{
    match procedure {
        Some(one) => one.parameters(),
        None => &[],
    }
}

/// Whether a symbol of this sort is the name of a procedure here.
fn names_procedure(place: &Place, sort: Sort) -> bool
    ensures { result ≡ names_procedure (before place.now) (code_of sort) }
{
    is_sort(sort, Sort::Id) && is_sort(place.last, Sort::Dot) && is_sort(place.second, Sort::DbmsWm)
}

fn without_first(slots: &'static [Parameter]) -> &'static [Parameter]
    ensures { result.now ≡ drop 1 slots.now }
{
    match slots {
        [_, rest @ ..] => rest,
        [] => slots,
    }
}

/// The parameters of the place behind the next symbol, and of those behind it.
fn slots_after(place: &Place, cursor: &Cursor) -> &'static [Parameter]
    ensures { result.now ≡ slots_after (before place.now) cursor.now }
{
    let sort = cursor.sort();
    if names_procedure(place, sort) {
        return all_parameters(procedure_of(cursor.word()));
    }
    if is_sort(sort, Sort::Comma) && place.depth == 1 {
        return without_first(place.slots);
    }
    place.slots
}

fn named_after(place: &Place, cursor: &Cursor) -> bool
    ensures { result ≡ named_after (before place.now) cursor.now }
{
    if is_sort(cursor.sort(), Sort::Arrow) {
        return place.named;
    }
    is_word(cursor.word(), b"WHERE_CLAUSE")
}

/// The place behind the next symbol.
fn after(place: &Place, cursor: &Cursor) -> Place
    requires { place.now.depth + 1 < 2 ^ 32 }
    ensures { before result ≡ after (before place.now) cursor.now }
{
    Place {
        last: cursor.sort(),
        second: place.last,
        named: named_after(place, cursor),
        depth: depth_after(place.depth, cursor.sort()),
        slots: slots_after(place, cursor),
    }
}

/// The form that the mask behind the comma behind the next symbol names.
fn mask_behind(cursor: &Cursor) -> Option<DateForm>
    ensures { result ≡ mask_of (between (next_text (behind (behind cursor.now)))) }
{
    let mut ahead = cursor.fork();
    ahead.advance();
    ahead.advance();
    mask_of(between(ahead.word()))
}

/// The form of a date that a text has to have at the cursor.
fn date_form(place: &Place, cursor: &Cursor) -> Option<DateForm>
    ensures { result ≡ date_form (before place.now) (behind cursor.now) }
{
    if is_sort(place.last, Sort::Date) {
        return Some(DateForm::Date);
    }
    if is_sort(place.last, Sort::Timestamp) {
        return Some(DateForm::Timestamp);
    }
    if is_sort(place.last, Sort::Open) && is_sort(place.second, Sort::ToDate) {
        return mask_behind(cursor);
    }
    None
}

/// Whether the next symbol is a size, an integer or a date text out of range.
fn is_bad(place: &Place, cursor: &Cursor) -> bool
    ensures { result ≡ is_bad (before place.now) cursor.now }
{
    let sort = cursor.sort();
    if is_sort(sort, Sort::Int) {
        if is_sort(place.last, Sort::Open) && is_sort(place.second, Sort::Varchar2) {
            return is_no_size(cursor.word());
        }
        return is_too_great(cursor.word());
    }
    if is_sort(sort, Sort::Text) {
        return is_no_date(date_form(place, cursor), between(cursor.word()));
    }
    false
}

fn is_clause_slot(slots: &[Parameter]) -> bool
    ensures { result ≡ is_clause_slot slots.now }
{
    match slots {
        [first, ..] => is_same(*first, Parameter::WhereClause),
        [] => false,
    }
}

/// Whether a text here is that of a where_clause.
fn takes_clause(place: &Place) -> bool
    ensures { result ≡ takes_clause (before place.now) }
{
    if is_sort(place.last, Sort::Arrow) {
        return place.named;
    }
    (is_sort(place.last, Sort::Open) || is_sort(place.last, Sort::Comma))
        && place.depth == 1
        && is_clause_slot(place.slots)
}

/// Whether some literal of a condition is out of range.
#[tactic(auto, unfolding(wm_grammar::specs::Literals::bad_within))]
fn is_bad_within(bytes: &[u8]) -> bool
    requires { length bytes.now < 2 ^ 32 }
    ensures { result ≡ bad_within bytes.now }
{
    let mut cursor = Cursor::new(bytes);
    let mut place = beginning();
    'symbols: while !cursor.is_at_end() {
        if is_bad(&place, &cursor) {
            return true;
        }
        place = after(&place, &cursor);
        cursor.advance();
    }
    false
}

/// Whether the next symbol is a where_clause in which a literal is out of range.
fn is_bad_clause(alloc: Global, place: &Place, cursor: &Cursor) -> Result<bool, Memory>
    ensures { IfOk result (λ b. b ≡ is_bad_clause (before place.now) cursor.now) }
{
    if is_sort(cursor.sort(), Sort::Text) && takes_clause(place) {
        let bytes = unquoted_bytes(alloc, cursor.word())?;
        return Ok(is_bad_within(bytes.as_slice()));
    }
    Ok(false)
}

/// Whether the next symbol is a literal out of range, or a where_clause in which one is.
fn is_bad_in_line(alloc: Global, place: &Place, cursor: &Cursor) -> Result<bool, Memory>
    ensures { IfOk result (λ b. b ≡ is_bad_in_line (before place.now) cursor.now) }
{
    if is_bad(place, cursor) {
        return Ok(true);
    }
    is_bad_clause(alloc, place, cursor)
}

/// How many bytes of the line are left from its first literal out of range on.
#[tactic(auto, unfolding(wm_grammar::specs::Literals::bad_literal))]
pub fn bad_literal(alloc: Global, line: &[u8]) -> Result<Option<usize>, Memory>
    requires { length line.now < 2 ^ 32 }
    ensures { IfOk result (λ o. o ≡ bad_literal line.now) }
{
    let mut cursor = Cursor::new(line);
    let mut place = beginning();
    'symbols: while !cursor.is_at_end() {
        let bad = is_bad_in_line(alloc, &place, &cursor)?;
        if bad {
            return Ok(Some(cursor.left()));
        }
        place = after(&place, &cursor);
        cursor.advance();
    }
    Ok(None)
}
