ghost use Rattle.std.specs.Prelude.{◌≡◌};
ghost use Rattle.wm_syntax.specs.Views.{expr_view, item_view, out_view, outs_view, projection_view, src_view, srcs_view, query_view};
ghost use Rattle.wm_grammar.specs.OperandReaders.{column_at};
ghost use Rattle.wm_grammar.specs.Queries.{is_alone, room};
ghost use Rattle.wm_grammar.specs.QueryReaders.{next_at, list_of_at, other_aggregate_at, counted_at, query_item_at, out_at, projection_at, source_at, joined_at, next_source_at, separators, source_list_at, grouping_at, direction_at, order_key_at, order_at, ordering_at, query_at};
ghost use Rattle.wm_grammar.specs.Symbols.{next_in};
ghost use Rattle.wm_query.specs.Parts.{closed_at, alias_at};
ghost use Rattle.wm_terms.specs.Telling.{Told};

use std::alloc::Global;
use wm_arithmetic::expr;
use wm_base::Name;
use wm_conditions::{condition, filter};
use wm_grammar::Sort;
use wm_syntax::column::{Col, Cols};
use wm_syntax::expr::Expr;
use wm_syntax::query::{
    Agg, Item, Order, OrderBy, Orders, Out, Outs, Projection, Query, Src, Srcs,
};
use wm_terms::cursor::Cursor;
use wm_terms::error::ParseError;
use wm_terms::operands::column;

#[tactic(auto, unfolding(wm_grammar::specs::QueryReaders::other_aggregate_at))]
fn other_aggregate(cursor: &mut Cursor) -> Result<Agg, ParseError>
    ensures { Told (λ a. a) result cursor.new (other_aggregate_at cursor.old) }
{
    if cursor.is(Sort::Sum) {
        cursor.mark(Sort::Sum)?;
        return Ok(Agg::Sum);
    }
    if cursor.is(Sort::Min) {
        cursor.mark(Sort::Min)?;
        return Ok(Agg::Min);
    }
    cursor.mark(Sort::Max)?;
    Ok(Agg::Max)
}

/// The aggregate of an expression, behind which its parenthesis is closed.
fn closed(cursor: &mut Cursor, agg: Agg, argument: Expr) -> Result<Item, ParseError>
    ensures { Told item_view result cursor.new (closed_at agg (expr_view argument) cursor.old) }
{
    match cursor.mark(Sort::Close) {
        Ok(()) => Ok(Item::Agg { agg, of: argument }),
        Err(fault) => {
            drop(argument);
            Err(fault)
        }
    }
}

/// What follows COUNT and its parenthesis.
#[tactic(auto, unfolding(wm_grammar::specs::QueryReaders::counted_at))]
fn counted(cursor: &mut Cursor, alloc: Global) -> Result<Item, ParseError>
    ensures { Told item_view result cursor.new (counted_at 64 cursor.old) }
{
    if cursor.is(Sort::Star) {
        cursor.mark(Sort::Star)?;
        cursor.mark(Sort::Close)?;
        return Ok(Item::CountAll);
    }
    let of = expr(cursor, alloc)?;
    closed(cursor, Agg::Count, of)
}

/// An expression or an aggregate.
#[tactic(auto, unfolding(wm_grammar::specs::QueryReaders::query_item_at))]
fn query_item(cursor: &mut Cursor, alloc: Global) -> Result<Item, ParseError>
    ensures { Told item_view result cursor.new (query_item_at 64 cursor.old) }
{
    if cursor.is(Sort::Count) {
        cursor.mark(Sort::Count)?;
        cursor.mark(Sort::Open)?;
        return counted(cursor, alloc);
    }
    if cursor.is_any(&[Sort::Sum, Sort::Min, Sort::Max]) {
        let agg = other_aggregate(cursor)?;
        cursor.mark(Sort::Open)?;
        let of = expr(cursor, alloc)?;
        return closed(cursor, agg, of);
    }
    let plain = expr(cursor, alloc)?;
    Ok(Item::Expr(plain))
}

/// The name that AS gives an item, if it stands there.
fn alias(cursor: &mut Cursor, alloc: Global) -> Result<Option<Name>, ParseError>
    ensures { Told (λ n. n) result cursor.new (alias_at cursor.old) }
{
    if cursor.is(Sort::As) {
        cursor.mark(Sort::As)?;
        let name = cursor.name(alloc, Sort::Id)?;
        return Ok(Some(name));
    }
    Ok(None)
}

/// An item, and the name that AS gives it.
#[tactic(auto, unfolding(wm_grammar::specs::QueryReaders::out_at))]
fn out(cursor: &mut Cursor, alloc: Global) -> Result<Out, ParseError>
    ensures { Told out_view result cursor.new (out_at 64 cursor.old) }
{
    let item = query_item(cursor, alloc)?;
    match alias(cursor, alloc) {
        Ok(alias) => Ok(Out { item, alias }),
        Err(fault) => {
            drop(item);
            Err(fault)
        }
    }
}

fn next_out(cursor: &mut Cursor, alloc: Global) -> Result<Out, ParseError>
    ensures { Told out_view result cursor.new (next_at (out_at 64) cursor.old) }
{
    cursor.mark(Sort::Comma)?;
    out(cursor, alloc)
}

fn outs(cursor: &mut Cursor, alloc: Global) -> Result<Outs, ParseError>
    ensures { Told (λ v. outs_view v.items) result cursor.new (list_of_at (out_at 64) cursor.old) }
{
    let first = out(cursor, alloc)?;
    let mut list = Vec::new(alloc);
    list.push(first)?;
    'items: while cursor.is(Sort::Comma) {
        let next = next_out(cursor, alloc)?;
        list.push(next)?;
    }
    Ok(list)
}

#[tactic(auto, unfolding(wm_grammar::specs::QueryReaders::projection_at))]
fn projection(cursor: &mut Cursor, alloc: Global) -> Result<Projection, ParseError>
    ensures { Told projection_view result cursor.new (projection_at 64 cursor.old) }
{
    if cursor.is(Sort::Star) {
        cursor.mark(Sort::Star)?;
        return Ok(Projection::All);
    }
    let list = outs(cursor, alloc)?;
    Ok(Projection::Outs(list))
}

#[tactic(auto, unfolding(wm_grammar::specs::QueryReaders::source_at))]
fn source(cursor: &mut Cursor, alloc: Global) -> Result<Src, ParseError>
    ensures { Told src_view result cursor.new (source_at cursor.old) }
{
    let table = cursor.name(alloc, Sort::Id)?;
    let mut alias = None;
    if cursor.is(Sort::Id) {
        alias = Some(cursor.name(alloc, Sort::Id)?);
    }
    Ok(Src {
        table,
        alias,
        on: None,
    })
}

#[tactic(auto, unfolding(wm_grammar::specs::QueryReaders::joined_at))]
fn joined(cursor: &mut Cursor, alloc: Global) -> Result<Src, ParseError>
    ensures { Told src_view result cursor.new (joined_at 64 cursor.old) }
{
    cursor.mark(Sort::Join)?;
    let Src {
        table,
        alias,
        on: none,
    } = source(cursor, alloc)?;
    drop(none);
    cursor.mark(Sort::On)?;
    let on = condition(cursor, alloc)?;
    Ok(Src {
        table,
        alias,
        on: Some(on),
    })
}

/// Another source, where at least one may still come.
#[tactic(auto, unfolding(wm_grammar::specs::QueryReaders::next_source_at))]
fn next_source(cursor: &mut Cursor, alloc: Global, room: u8) -> Result<Src, ParseError>
    ensures { Told src_view result cursor.new (next_source_at 64 room cursor.old) }
{
    if room == 0 {
        return Err(cursor.fault());
    }
    if cursor.is(Sort::Comma) {
        cursor.mark(Sort::Comma)?;
        return source(cursor, alloc);
    }
    if cursor.is(Sort::Inner) {
        cursor.mark(Sort::Inner)?;
        return joined(cursor, alloc);
    }
    joined(cursor, alloc)
}

#[tactic(auto, unfolding(wm_grammar::specs::QueryReaders::direction_at))]
fn direction(cursor: &mut Cursor) -> Result<bool, ParseError>
    ensures { Told (λ d. d) result cursor.new (direction_at cursor.old) }
{
    if cursor.is(Sort::Asc) {
        cursor.mark(Sort::Asc)?;
        return Ok(false);
    }
    if cursor.is(Sort::Desc) {
        cursor.mark(Sort::Desc)?;
        return Ok(true);
    }
    Ok(false)
}

#[tactic(auto, unfolding(wm_grammar::specs::QueryReaders::order_key_at))]
fn order_key(cursor: &mut Cursor, alloc: Global) -> Result<OrderBy, ParseError>
    ensures { Told (λ k. k) result cursor.new (order_key_at cursor.old) }
{
    if cursor.is(Sort::Int) {
        let position = cursor.integer()?;
        return Ok(OrderBy::Position(position as i64));
    }
    let column = column(cursor, alloc)?;
    Ok(OrderBy::Col(column))
}

#[tactic(auto, unfolding(wm_grammar::specs::QueryReaders::order_at))]
fn order(cursor: &mut Cursor, alloc: Global) -> Result<Order, ParseError>
    ensures { Told (λ o. o) result cursor.new (order_at cursor.old) }
{
    let by = order_key(cursor, alloc)?;
    let descending = direction(cursor)?;
    Ok(Order { by, descending })
}

fn next_order(cursor: &mut Cursor, alloc: Global) -> Result<Order, ParseError>
    ensures { Told (λ o. o) result cursor.new (next_at order_at cursor.old) }
{
    cursor.mark(Sort::Comma)?;
    order(cursor, alloc)
}

fn orders(cursor: &mut Cursor, alloc: Global) -> Result<Vec<Order>, ParseError>
    ensures { Told (λ v. v.items) result cursor.new (list_of_at order_at cursor.old) }
{
    let first = order(cursor, alloc)?;
    let mut list = Vec::new(alloc);
    list.push(first)?;
    'items: while cursor.is(Sort::Comma) {
        let next = next_order(cursor, alloc)?;
        list.push(next)?;
    }
    Ok(list)
}

fn next_column(cursor: &mut Cursor, alloc: Global) -> Result<Col, ParseError>
    ensures { Told (λ c. c) result cursor.new (next_at column_at cursor.old) }
{
    cursor.mark(Sort::Comma)?;
    column(cursor, alloc)
}

fn columns(cursor: &mut Cursor, alloc: Global) -> Result<Vec<Col>, ParseError>
    ensures { Told (λ v. v.items) result cursor.new (list_of_at column_at cursor.old) }
{
    let first = column(cursor, alloc)?;
    let mut list = Vec::new(alloc);
    list.push(first)?;
    'items: while cursor.is(Sort::Comma) {
        let next = next_column(cursor, alloc)?;
        list.push(next)?;
    }
    Ok(list)
}

/// Whether at most one source stands there.
fn is_alone(sources: &[Src]) -> bool
    ensures { result ≡ is_alone (srcs_view sources.now) }
{
    match sources {
        [] | [_] => true,
        [_, _, ..] => false,
    }
}

/// The columns of GROUP BY, where one source stands before it.
#[tactic(auto, unfolding(wm_grammar::specs::QueryReaders::grouping_at))]
fn grouping(cursor: &mut Cursor, alloc: Global, alone: bool) -> Result<Cols, ParseError>
    ensures { Told (λ c. c) result cursor.new (grouping_at alone cursor.old) }
{
    if alone {
        if cursor.is(Sort::Group) {
            cursor.mark(Sort::Group)?;
            cursor.mark(Sort::By)?;
            let list = columns(cursor, alloc)?;
            return Ok(Cols::from_vec(list));
        }
        return Ok(Cols::from_vec(Vec::new(alloc)));
    }
    Ok(Cols::from_vec(Vec::new(alloc)))
}

#[tactic(auto, unfolding(wm_grammar::specs::QueryReaders::ordering_at))]
fn ordering(cursor: &mut Cursor, alloc: Global) -> Result<Orders, ParseError>
    ensures { Told (λ o. o) result cursor.new (ordering_at cursor.old) }
{
    if cursor.is(Sort::Order) {
        cursor.mark(Sort::Order)?;
        cursor.mark(Sort::By)?;
        let list = orders(cursor, alloc)?;
        return Ok(Orders::from_vec(list));
    }
    Ok(Orders::from_vec(Vec::new(alloc)))
}

/// Whether another source follows, where so many may still come.
#[tactic(auto, using(wm_terms::proofs::Listing::none_next))]
fn source_follows(cursor: &Cursor, room: u8) -> bool
    ensures { result ≡ next_in (separators room) cursor.now }
{
    if room == 0 {
        return false;
    }
    cursor.is_any(&[Sort::Comma, Sort::Inner, Sort::Join])
}

fn room_for(aggregate: bool) -> u8
    ensures { result ≡ room aggregate }
{
    if aggregate { 0 } else { 3 }
}

/// The sources of a query, with an aggregate before them or none.
#[tactic(auto, unfolding(wm_grammar::specs::QueryReaders::source_list_at))]
fn source_list(cursor: &mut Cursor, alloc: Global, aggregate: bool) -> Result<Srcs, ParseError>
    ensures { Told (λ v. srcs_view v.items) result cursor.new (source_list_at 64 aggregate cursor.old) }
{
    let first = source(cursor, alloc)?;
    let mut list = Vec::new(alloc);
    list.push(first)?;
    let mut room = room_for(aggregate);
    'items: while source_follows(cursor, room) {
        let next = next_source(cursor, alloc, room)?;
        list.push(next)?;
        room = room.saturating_sub(1);
    }
    Ok(list)
}

/// A query.
#[tactic(auto, unfolding(wm_grammar::specs::QueryReaders::query_at))]
pub fn query(cursor: &mut Cursor, alloc: Global) -> Result<Query, ParseError>
    ensures { Told query_view result cursor.new (query_at 64 cursor.old) }
{
    cursor.mark(Sort::Select)?;
    let distinct = cursor.is(Sort::Distinct);
    if distinct {
        cursor.mark(Sort::Distinct)?;
    }
    let projection = projection(cursor, alloc)?;
    cursor.mark(Sort::From)?;
    let sources = source_list(cursor, alloc, projection.has_aggregate())?;
    let filter = filter(cursor, alloc)?;
    let groups = match grouping(cursor, alloc, is_alone(sources.as_slice())) {
        Ok(groups) => groups,
        Err(fault) => {
            drop(filter);
            return Err(fault);
        }
    };
    match ordering(cursor, alloc) {
        Ok(orders) => Ok(Query {
            distinct,
            projection,
            sources,
            filter,
            groups,
            orders,
        }),
        Err(fault) => {
            drop(filter);
            Err(fault)
        }
    }
}
