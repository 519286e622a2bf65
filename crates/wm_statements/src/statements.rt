//! Statements, read token by token.
ghost use Rattle.std.specs.Prelude.{◌≡◌, ℕ, ◌∷◌, [], List};
ghost use Rattle.wm_syntax.specs.Trees.{Expr as ExprTree, Statement as StatementTree};
ghost use Rattle.wm_syntax.specs.Views.{expr_view, exprs_view, set_view, sets_view, statement_view};
ghost use Rattle.wm_grammar.specs.Sorts as sorts;
ghost use Rattle.wm_grammar.specs.Reading.{optional_at};
ghost use Rattle.wm_grammar.specs.Symbols.{next_in};
ghost use Rattle.wm_grammar.specs.OperandReaders.{plain_name_at, name_at};
ghost use Rattle.wm_grammar.specs.ExpressionReaders.{expr_at};
ghost use Rattle.wm_grammar.specs.QueryReaders.{next_at, list_of_at};
ghost use Rattle.wm_grammar.specs.Statements.{also, is_key, keyed_by};
ghost use Rattle.wm_grammar.specs.StatementReaders.{precision_at, column_type_at, primary_key_at, never_null_at, column_option_at, option_sorts, column_options_at, column_item_at, key_list_at, key_columns_at, create_item_at, next_item_at, create_items_at, create_at, name_list_at, row_at, named_row_at, insert_at, set_at, update_at, delete_at};
ghost use Rattle.wm_terms.specs.Telling.{Told};

use std::alloc::Global;
use wm_arithmetic::expr;
use wm_base::Name;
use wm_conditions::filter;
use wm_grammar::Sort;
use wm_syntax::column::Names;
use wm_syntax::expr::{Expr, Exprs};
use wm_syntax::statement::{ColumnType, CreateItem, CreateItems, Set, Sets, Statement};
use wm_terms::cursor::Cursor;
use wm_terms::error::ParseError;
use wm_terms::operands::{name, plain_name};

/// What follows NUMBER in parentheses; nothing of it is kept.
#[tactic(auto, unfolding(wm_grammar::specs::StatementReaders::precision_at))]
fn precision(cursor: &mut Cursor) -> Result<(), ParseError>
    ensures { Told (λ _. tt) result cursor.new (precision_at cursor.old) }
{
    cursor.mark(Sort::Open)?;
    let _digits = cursor.integer()?;
    if cursor.is(Sort::Comma) {
        cursor.mark(Sort::Comma)?;
        cursor.no_scale()?;
    }
    cursor.mark(Sort::Close)
}

#[tactic(auto, unfolding(wm_grammar::specs::StatementReaders::column_type_at))]
fn column_type(cursor: &mut Cursor) -> Result<ColumnType, ParseError>
    ensures { Told (λ t. t) result cursor.new (column_type_at cursor.old) }
{
    if cursor.is(Sort::Number) {
        cursor.mark(Sort::Number)?;
        if cursor.is(Sort::Open) {
            precision(cursor)?;
        }
        return Ok(ColumnType::Number);
    }
    if cursor.is(Sort::Integer) {
        cursor.mark(Sort::Integer)?;
        return Ok(ColumnType::Number);
    }
    if cursor.is(Sort::Varchar2) {
        cursor.mark(Sort::Varchar2)?;
        cursor.mark(Sort::Open)?;
        let size = cursor.size()?;
        cursor.mark(Sort::Close)?;
        return Ok(ColumnType::Text(size));
    }
    if cursor.is(Sort::Date) {
        cursor.mark(Sort::Date)?;
        return Ok(ColumnType::Time);
    }
    cursor.mark(Sort::Timestamp)?;
    Ok(ColumnType::Time)
}

/// PRIMARY KEY, which is true.
fn primary_key(cursor: &mut Cursor) -> Result<bool, ParseError>
    ensures { Told (λ o. o) result cursor.new (primary_key_at cursor.old) }
{
    cursor.mark(Sort::Primary)?;
    cursor.mark(Sort::Key)?;
    Ok(true)
}

/// NOT NULL, which is false.
fn never_null(cursor: &mut Cursor) -> Result<bool, ParseError>
    ensures { Told (λ o. o) result cursor.new (never_null_at cursor.old) }
{
    cursor.mark(Sort::Not)?;
    cursor.mark(Sort::Null)?;
    Ok(false)
}

/// PRIMARY KEY, which is true, or NOT NULL, where each may be given once.
#[tactic(auto, unfolding(wm_grammar::specs::StatementReaders::column_option_at))]
fn column_option(cursor: &mut Cursor, primary: bool, not_null: bool) -> Result<bool, ParseError>
    ensures { Told (λ o. o) result cursor.new (column_option_at primary not_null cursor.old) }
{
    match (primary, not_null) {
        (true, true) => Err(cursor.fault()),
        (false, true) => primary_key(cursor),
        (true, false) => never_null(cursor),
        (false, false) => {
            if cursor.is(Sort::Primary) {
                return primary_key(cursor);
            }
            never_null(cursor)
        }
    }
}

/// Whether an option follows, where these have been given.
#[tactic(auto, using(wm_terms::proofs::Listing::none_next))]
fn option_follows(cursor: &Cursor, primary: bool, not_null: bool) -> bool
    ensures { result ≡ next_in (option_sorts primary not_null) cursor.now }
{
    match (primary, not_null) {
        (true, true) => false,
        (false, true) => cursor.is(Sort::Primary),
        (true, false) => cursor.is(Sort::Not),
        (false, false) => cursor.is_any(&[Sort::Primary, Sort::Not]),
    }
}

fn also(given: (bool, bool), key: bool) -> (bool, bool)
    ensures { result ≡ also given key }
{
    if key {
        (true, given.1)
    } else {
        (given.0, true)
    }
}

fn next_plain_name(cursor: &mut Cursor, alloc: Global) -> Result<Name, ParseError>
    ensures { Told (λ n. n) result cursor.new (next_at plain_name_at cursor.old) }
{
    cursor.mark(Sort::Comma)?;
    plain_name(cursor, alloc)
}

fn plain_names(cursor: &mut Cursor, alloc: Global) -> Result<Vec<Name>, ParseError>
    ensures { Told (λ v. v.items) result cursor.new (list_of_at plain_name_at cursor.old) }
{
    let first = plain_name(cursor, alloc)?;
    let mut list = Vec::new(alloc);
    list.push(first)?;
    'items: while cursor.is(Sort::Comma) {
        let next = next_plain_name(cursor, alloc)?;
        list.push(next)?;
    }
    Ok(list)
}

/// The columns of a key, for the item that is made of them.
fn key_list(cursor: &mut Cursor, alloc: Global) -> Result<Names, ParseError>
    ensures { (make : List (List ℕ) → CreateItem) → Told (λ n. make n) result cursor.new (key_list_at make cursor.old) }
{
    cursor.mark(Sort::Primary)?;
    cursor.mark(Sort::Key)?;
    cursor.mark(Sort::Open)?;
    let list = plain_names(cursor, alloc)?;
    cursor.mark(Sort::Close)?;
    Ok(Names::from_vec(list))
}

/// The columns of a key, in a table that has none yet.
#[tactic(auto, unfolding(wm_grammar::specs::StatementReaders::key_columns_at))]
fn key_columns(
    cursor: &mut Cursor,
    alloc: Global,
    keyed: bool,
    constraint: Option<Name>,
) -> Result<CreateItem, ParseError>
    ensures { Told (λ i. i) result cursor.new (key_columns_at keyed constraint cursor.old) }
{
    if keyed {
        return Err(cursor.fault());
    }
    let columns = key_list(cursor, alloc)?;
    Ok(CreateItem::Primary {
        constraint,
        columns,
    })
}

fn is_key(item: &CreateItem) -> bool
    ensures { result ≡ is_key item.now }
{
    match item {
        CreateItem::Column { primary, .. } => *primary,
        CreateItem::Primary { .. } => true,
    }
}

fn keyed_by(keyed: bool, item: &CreateItem) -> bool
    ensures { result ≡ keyed_by keyed item.now }
{
    keyed || is_key(item)
}

/// PRIMARY KEY and NOT NULL behind a column, in a table that has a key or has none yet: what has been given then.
#[tactic(auto, unfolding(wm_grammar::specs::StatementReaders::column_options_at))]
fn column_options(cursor: &mut Cursor, keyed: bool) -> Result<(bool, bool), ParseError>
    ensures { Told (λ g. g) result cursor.new (column_options_at keyed cursor.old) }
{
    let mut given = (keyed, false);
    'options: while option_follows(cursor, given.0, given.1) {
        let key = column_option(cursor, given.0, given.1)?;
        given = also(given, key);
    }
    Ok(given)
}

#[tactic(auto, unfolding(wm_grammar::specs::StatementReaders::column_item_at))]
fn column_item(cursor: &mut Cursor, alloc: Global, keyed: bool) -> Result<CreateItem, ParseError>
    ensures { Told (λ i. i) result cursor.new (column_item_at keyed cursor.old) }
{
    let name = plain_name(cursor, alloc)?;
    let of = column_type(cursor)?;
    let (key, not_null) = column_options(cursor, keyed)?;
    Ok(CreateItem::Column {
        name,
        of,
        primary: !keyed && key,
        not_null,
    })
}

/// An item, in a table that has a key or has none yet.
#[tactic(auto, unfolding(wm_grammar::specs::StatementReaders::create_item_at))]
fn create_item(cursor: &mut Cursor, alloc: Global, keyed: bool) -> Result<CreateItem, ParseError>
    ensures { Told (λ i. i) result cursor.new (create_item_at keyed cursor.old) }
{
    if cursor.is_any(&[Sort::Id, Sort::Validfrom, Sort::Validtill]) {
        return column_item(cursor, alloc, keyed);
    }
    let mut constraint = None;
    if cursor.is(Sort::Constraint) {
        cursor.mark(Sort::Constraint)?;
        constraint = Some(cursor.name(alloc, Sort::Id)?);
    }
    key_columns(cursor, alloc, keyed, constraint)
}

fn next_item(cursor: &mut Cursor, alloc: Global, keyed: bool) -> Result<CreateItem, ParseError>
    ensures { Told (λ i. i) result cursor.new (next_item_at keyed cursor.old) }
{
    cursor.mark(Sort::Comma)?;
    create_item(cursor, alloc, keyed)
}

#[tactic(auto, unfolding(wm_grammar::specs::StatementReaders::create_items_at))]
fn create_items(cursor: &mut Cursor, alloc: Global) -> Result<CreateItems, ParseError>
    ensures { Told (λ l. l) result cursor.new (create_items_at cursor.old) }
{
    let first = create_item(cursor, alloc, false)?;
    let mut keyed = is_key(&first);
    let mut list = Vec::new(alloc);
    list.push(first)?;
    'items: while cursor.is(Sort::Comma) {
        let next = next_item(cursor, alloc, keyed)?;
        keyed = keyed_by(keyed, &next);
        list.push(next)?;
    }
    Ok(CreateItems::from_vec(list))
}

#[tactic(auto, unfolding(wm_grammar::specs::StatementReaders::create_at))]
pub fn create(cursor: &mut Cursor, alloc: Global) -> Result<Statement, ParseError>
    ensures { Told statement_view result cursor.new (create_at cursor.old) }
{
    cursor.mark(Sort::Create)?;
    cursor.mark(Sort::Table)?;
    let table = cursor.name(alloc, Sort::Id)?;
    cursor.mark(Sort::Open)?;
    let items = create_items(cursor, alloc)?;
    cursor.mark(Sort::Close)?;
    Ok(Statement::Create { table, items })
}

fn next_name(cursor: &mut Cursor, alloc: Global) -> Result<Name, ParseError>
    ensures { Told (λ n. n) result cursor.new (next_at name_at cursor.old) }
{
    cursor.mark(Sort::Comma)?;
    name(cursor, alloc)
}

fn names(cursor: &mut Cursor, alloc: Global) -> Result<Vec<Name>, ParseError>
    ensures { Told (λ v. v.items) result cursor.new (list_of_at name_at cursor.old) }
{
    let first = name(cursor, alloc)?;
    let mut list = Vec::new(alloc);
    list.push(first)?;
    'items: while cursor.is(Sort::Comma) {
        let next = next_name(cursor, alloc)?;
        list.push(next)?;
    }
    Ok(list)
}

#[tactic(auto, unfolding(wm_grammar::specs::StatementReaders::name_list_at))]
fn name_list(cursor: &mut Cursor, alloc: Global) -> Result<Names, ParseError>
    ensures { Told (λ n. n) result cursor.new (name_list_at cursor.old) }
{
    cursor.mark(Sort::Open)?;
    let list = names(cursor, alloc)?;
    cursor.mark(Sort::Close)?;
    Ok(Names::from_vec(list))
}

fn next_expr(cursor: &mut Cursor, alloc: Global) -> Result<Expr, ParseError>
    ensures { Told expr_view result cursor.new (next_at (expr_at 64) cursor.old) }
{
    cursor.mark(Sort::Comma)?;
    expr(cursor, alloc)
}

fn exprs(cursor: &mut Cursor, alloc: Global) -> Result<Exprs, ParseError>
    ensures { Told (λ v. exprs_view v.items) result cursor.new (list_of_at (expr_at 64) cursor.old) }
{
    let first = expr(cursor, alloc)?;
    let mut list = Vec::new(alloc);
    list.push(first)?;
    'items: while cursor.is(Sort::Comma) {
        let next = next_expr(cursor, alloc)?;
        list.push(next)?;
    }
    Ok(list)
}

/// The columns that are named, if any.
fn named_columns(cursor: &mut Cursor, alloc: Global) -> Result<Option<Names>, ParseError>
    ensures { Told (λ n. n) result cursor.new (optional_at (sorts.OPEN ∷ []) name_list_at cursor.old) }
{
    if cursor.is(Sort::Open) {
        return Ok(Some(name_list(cursor, alloc)?));
    }
    Ok(None)
}

/// The values of a row, for the statement that is made of them.
fn row(cursor: &mut Cursor, alloc: Global) -> Result<Exprs, ParseError>
    ensures { (make : List ExprTree → StatementTree) → Told (λ v. make (exprs_view v.items)) result cursor.new (row_at 64 make cursor.old) }
{
    cursor.mark(Sort::Values)?;
    cursor.mark(Sort::Open)?;
    let values = exprs(cursor, alloc)?;
    match cursor.mark(Sort::Close) {
        Ok(()) => Ok(values),
        Err(fault) => {
            drop(values);
            Err(fault)
        }
    }
}

/// What stands behind the table of an INSERT. One function for all of it is long to prove.
fn row_of(cursor: &mut Cursor, alloc: Global, table: Name) -> Result<Statement, ParseError>
    ensures { Told statement_view result cursor.new (named_row_at 64 table cursor.old) }
{
    let names = named_columns(cursor, alloc)?;
    let values = row(cursor, alloc)?;
    Ok(Statement::Insert {
        table,
        names,
        values,
    })
}

#[tactic(auto, unfolding(wm_grammar::specs::StatementReaders::insert_at))]
pub fn insert(cursor: &mut Cursor, alloc: Global) -> Result<Statement, ParseError>
    ensures { Told statement_view result cursor.new (insert_at 64 cursor.old) }
{
    cursor.mark(Sort::Insert)?;
    cursor.mark(Sort::Into)?;
    let table = cursor.name(alloc, Sort::Id)?;
    row_of(cursor, alloc, table)
}

#[tactic(auto, unfolding(wm_grammar::specs::StatementReaders::set_at))]
fn set(cursor: &mut Cursor, alloc: Global) -> Result<Set, ParseError>
    ensures { Told set_view result cursor.new (set_at 64 cursor.old) }
{
    let name = name(cursor, alloc)?;
    cursor.mark(Sort::Eq)?;
    let becomes = expr(cursor, alloc)?;
    Ok(Set { name, becomes })
}

fn next_set(cursor: &mut Cursor, alloc: Global) -> Result<Set, ParseError>
    ensures { Told set_view result cursor.new (next_at (set_at 64) cursor.old) }
{
    cursor.mark(Sort::Comma)?;
    set(cursor, alloc)
}

fn sets(cursor: &mut Cursor, alloc: Global) -> Result<Sets, ParseError>
    ensures { Told (λ v. sets_view v.items) result cursor.new (list_of_at (set_at 64) cursor.old) }
{
    let first = set(cursor, alloc)?;
    let mut list = Vec::new(alloc);
    list.push(first)?;
    'items: while cursor.is(Sort::Comma) {
        let next = next_set(cursor, alloc)?;
        list.push(next)?;
    }
    Ok(list)
}

#[tactic(auto, unfolding(wm_grammar::specs::StatementReaders::update_at))]
pub fn update(cursor: &mut Cursor, alloc: Global) -> Result<Statement, ParseError>
    ensures { Told statement_view result cursor.new (update_at 64 cursor.old) }
{
    cursor.mark(Sort::Update)?;
    let table = cursor.name(alloc, Sort::Id)?;
    cursor.mark(Sort::Set)?;
    let sets = sets(cursor, alloc)?;
    let filter = filter(cursor, alloc)?;
    Ok(Statement::Update {
        table,
        sets,
        filter,
    })
}

#[tactic(auto, unfolding(wm_grammar::specs::StatementReaders::delete_at))]
pub fn delete(cursor: &mut Cursor, alloc: Global) -> Result<Statement, ParseError>
    ensures { Told statement_view result cursor.new (delete_at 64 cursor.old) }
{
    cursor.mark(Sort::Delete)?;
    if cursor.is(Sort::From) {
        cursor.mark(Sort::From)?;
    }
    let table = cursor.name(alloc, Sort::Id)?;
    let filter = filter(cursor, alloc)?;
    Ok(Statement::Delete { table, filter })
}
