ghost use Rattle.std.specs.Prelude.{◌≡◌, ◌<◌, ◌^◌, length, Ok};
ghost use Rattle.wm_syntax.specs.Views.{statement_view, line_view};
ghost use Rattle.wm_grammar.specs.Scanned.{symbols_of};
ghost use Rattle.wm_grammar.specs.Faults.{ended, all_of};
ghost use Rattle.wm_grammar.specs.StatementReaders.{statement_at, run_at, line_at};
ghost use Rattle.wm_terms.specs.Telling.{Told, Tells};
ghost use Rattle.wm_parser.specs.Lines.{semicolon_at, some_if, names_at, connect_at, disconnect_at, moment_at, session_at};

use std::alloc::Global;
use wm_base::Name;
use wm_call_lines::call;
use wm_grammar::Sort;
use wm_query::query;
use wm_statements::{create, delete, insert, update};
use wm_syntax::line::Line;
use wm_syntax::query::Query;
use wm_syntax::statement::Statement;
use wm_terms::cursor::Cursor;
use wm_terms::error::ParseError;
use wm_terms::operands::instant;

#[tactic(auto, unfolding(wm_grammar::specs::StatementReaders::statement_at))]
fn statement(cursor: &mut Cursor, alloc: Global) -> Result<Statement, ParseError>
    ensures { Told statement_view result cursor.new (statement_at 64 cursor.old) }
{
    if cursor.is(Sort::Create) {
        return create(cursor, alloc);
    }
    if cursor.is(Sort::Insert) {
        return insert(cursor, alloc);
    }
    if cursor.is(Sort::Update) {
        return update(cursor, alloc);
    }
    if cursor.is(Sort::Delete) {
        return delete(cursor, alloc);
    }
    if cursor.is(Sort::Select) {
        let found = query(cursor, alloc)?;
        return Ok(Statement::Select(found));
    }
    call(cursor, alloc)
}

/// Passes a `;`, and says whether one stood there.
#[tactic(auto, using(crate::proofs::Passing::semicolon_passed, crate::proofs::Passing::no_semicolon))]
fn skip_semicolon(cursor: &mut Cursor) -> bool
    ensures { semicolon_at cursor.old ≡ Ok (some_if result, cursor.new) }
{
    if cursor.is(Sort::Semicolon) {
        cursor.advance();
        return true;
    }
    false
}

/// What follows the name of a session.
#[tactic(auto, unfolding(wm_grammar::specs::StatementReaders::run_at))]
fn run(cursor: &mut Cursor, alloc: Global, session: Name) -> Result<Line, ParseError>
    ensures { Told line_view result cursor.new (run_at 64 session cursor.old) }
{
    cursor.mark(Sort::Colon)?;
    let statement = statement(cursor, alloc)?;
    let _ended = skip_semicolon(cursor);
    Ok(Line::Run { session, statement })
}

/// The names behind CONNECT.
fn names(cursor: &mut Cursor, alloc: Global) -> Result<Line, ParseError>
    ensures { Told line_view result cursor.new (names_at cursor.old) }
{
    let session = cursor.name(alloc, Sort::Id)?;
    let user = cursor.name(alloc, Sort::Id)?;
    Ok(Line::Connect { session, user })
}

fn connect(cursor: &mut Cursor, alloc: Global) -> Result<Line, ParseError>
    ensures { Told line_view result cursor.new (connect_at cursor.old) }
{
    let word = cursor.name(alloc, Sort::Connect)?;
    if cursor.is(Sort::Colon) {
        return run(cursor, alloc, word);
    }
    names(cursor, alloc)
}

fn disconnect(cursor: &mut Cursor, alloc: Global) -> Result<Line, ParseError>
    ensures { Told line_view result cursor.new (disconnect_at cursor.old) }
{
    let word = cursor.name(alloc, Sort::Disconnect)?;
    if cursor.is(Sort::Colon) {
        return run(cursor, alloc, word);
    }
    let session = cursor.name(alloc, Sort::Id)?;
    Ok(Line::Disconnect { session })
}

fn moment(cursor: &mut Cursor, alloc: Global) -> Result<Line, ParseError>
    ensures { Told line_view result cursor.new (moment_at cursor.old) }
{
    let word = cursor.name(alloc, Sort::At)?;
    if cursor.is(Sort::Colon) {
        return run(cursor, alloc, word);
    }
    let at = instant(cursor)?;
    Ok(Line::At(at))
}

fn session(cursor: &mut Cursor, alloc: Global) -> Result<Line, ParseError>
    ensures { Told line_view result cursor.new (session_at cursor.old) }
{
    let name = cursor.name(alloc, Sort::Id)?;
    run(cursor, alloc, name)
}

/// A line; CONNECT, DISCONNECT and AT before a `:` name a session.
#[tactic(auto, unfolding(wm_grammar::specs::StatementReaders::line_at))]
fn line(cursor: &mut Cursor, alloc: Global) -> Result<Line, ParseError>
    ensures { Told line_view result cursor.new (line_at 64 cursor.old) }
{
    if cursor.is(Sort::Connect) {
        return connect(cursor, alloc);
    }
    if cursor.is(Sort::Disconnect) {
        return disconnect(cursor, alloc);
    }
    if cursor.is(Sort::At) {
        return moment(cursor, alloc);
    }
    session(cursor, alloc)
}

/// Lets a query go, part by part; its condition by `drop`, since where a scope ends the proof takes one apart anew.
fn discard_query(query: Query) {
    let Query {
        projection: _projection,
        sources: _sources,
        filter,
        groups: _groups,
        orders: _orders,
        ..
    } = query;
    drop(filter);
}

/// Lets a statement go, part by part.
fn discard_statement(statement: Statement) {
    match statement {
        Statement::Create {
            table: _table,
            items: _items,
        } => {}
        Statement::Insert {
            table: _table,
            names: _names,
            values: _values,
        } => {}
        Statement::Update {
            table: _table,
            sets: _sets,
            filter,
        } => drop(filter),
        Statement::Delete {
            table: _table,
            filter,
        } => drop(filter),
        Statement::Select(query) => discard_query(query),
        Statement::Call {
            procedure: _procedure,
            args: _args,
            condition,
        } => drop(condition),
    }
}

/// Lets a tree go. It is taken apart, since the proof that a whole tree is dropped is too long.
pub fn discard(tree: Line) {
    match tree {
        Line::Connect {
            session: _session,
            user: _user,
        } => {}
        Line::Disconnect { session: _session } => {}
        Line::At(_) => {}
        Line::Run {
            session: _session,
            statement,
        } => discard_statement(statement),
    }
}

/// A line, where no symbol is left behind it.
fn finished(cursor: &Cursor, found: Line) -> Result<Line, ParseError>
    ensures { Tells line_view result (ended (line_view found) cursor.now) }
{
    if cursor.is_at_end() {
        return Ok(found);
    }
    discard(found);
    Err(cursor.fault())
}

/// The line that the bytes are, all of them.
pub fn line_in(alloc: Global, bytes: &[u8]) -> Result<Line, ParseError>
    requires { length bytes.now < 2 ^ 32 }
    ensures { Tells line_view result (all_of (line_at 64 (symbols_of bytes.now))) }
{
    let mut cursor = Cursor::new(bytes);
    let found = line(&mut cursor, alloc)?;
    finished(&cursor, found)
}
