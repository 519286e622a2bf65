//! The periods over which rows of a key stand, and what a period shares with them.

ghost use Rattle.std.specs.Prelude.{◌≡◌, true, ◌∷◌, ◌++◌, map, IfOk, OnOk};
ghost use Rattle.wm_graph.specs.Parts.{parts_of};
ghost use Rattle.wm_graph.specs.Rules.{keep_rules};
ghost use Rattle.wm_version_rows.specs.Listing.{AreSpans, IsFirstShared};
ghost use Rattle.wm_version_rows.specs.Standing.{IsBegun, stretch_ending, stretches_on};
ghost use Rattle.wm_state.specs.Listing.{first_shared, span_on};

use crate::laying::shown;
use crate::standing::{ending, first_from, from_behind};
use std::alloc::Global;
use wm_base::{Instant, Key, Memory, Period};
use wm_image::Image;
use wm_period::Piece;

/// What a period shares with the row of a piece, where the row stands on the piece and not behind it.
fn shared_at(from: Instant, piece: &Piece, rest: &[Piece], period: &Period) -> Option<Period>
    requires { IsBegun from (piece.now ∷ rest.now) }
    ensures { result ≡ first_shared period.now (stretch_ending from piece.now rest.now) }
{
    let whole = ending(from, piece, rest)?;
    whole.cut(period)
}

/// What a period shares with the first row of pieces that it overlaps.
fn first_shared(pieces: &[Piece], period: &Period) -> Option<Period>
    ensures { result ≡ first_shared period.now (stretches_on pieces.now) }
{
    let mut left = pieces;
    let mut from = first_from(pieces);
    while let [piece, rest @ ..] = left {
        let found = shared_at(from, piece, rest, period);
        if found.is_some() {
            return found;
        }
        from = from_behind(from, piece, rest);
        left = rest;
    }
    None
}

/// What a period shares with the first row of a key that it overlaps, of those that a version holds; None exactly where
/// it overlaps none. Only the pieces of that key are looked at.
pub fn overlap(
    alloc: Global,
    image: &Image,
    version: u64,
    table: u16,
    key: &Key,
    period: &Period,
) -> Result<Option<Period>, Memory>
    requires { keep_rules (parts_of image.now) ≡ true }
    ensures { IfOk result (λ found. IsFirstShared (parts_of image.now) version table key.now period.now found) }
{
    let pieces = shown(alloc, image, version, table, key)?;
    let found = first_shared(pieces.list(), period);
    Ok(found)
}

/// Puts the whole period of the row of a piece behind others, where it stands on the piece and not behind it.
fn push_span(
    spans: &mut Vec<Period>,
    from: Instant,
    piece: &Piece,
    rest: &[Piece],
) -> Result<(), Memory>
    requires { IsBegun from (piece.now ∷ rest.now) }
    ensures { OnOk result (spans.new.items ≡ spans.old.items ++ map span_on (stretch_ending from piece.now rest.now)) }
{
    if let Some(whole) = ending(from, piece, rest) {
        spans.push(whole)?;
    }
    Ok(())
}

/// Puts the periods over which the rows of pieces stand behind others.
fn push_spans(spans: &mut Vec<Period>, pieces: &[Piece]) -> Result<(), Memory>
    ensures { OnOk result (spans.new.items ≡ spans.old.items ++ map span_on (stretches_on pieces.now)) }
{
    let mut left = pieces;
    let mut from = first_from(pieces);
    while let [piece, rest @ ..] = left {
        push_span(spans, from, piece, rest)?;
        from = from_behind(from, piece, rest);
        left = rest;
    }
    Ok(())
}

/// The periods over which the rows of a key of a table stand, of those that a version holds, by from. Only the pieces
/// of that key are looked at.
pub fn spans_of_key(
    alloc: Global,
    image: &Image,
    version: u64,
    table: u16,
    key: &Key,
) -> Result<Vec<Period>, Memory>
    requires { keep_rules (parts_of image.now) ≡ true }
    ensures { IfOk result (λ spans. AreSpans (parts_of image.now) version table key.now spans.items) }
{
    let pieces = shown(alloc, image, version, table, key)?;
    let mut spans = Vec::new(alloc);
    push_spans(&mut spans, pieces.list())?;
    Ok(spans)
}
