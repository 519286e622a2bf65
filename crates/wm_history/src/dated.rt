//! The rows of a table with history as they stood in a workspace on a date.

ghost use Rattle.std.specs.Prelude.{◌≡◌, ◌∷◌, ℕ, List, [], Option, true, if◌then◌else◌, IfOk, OnOk};
ghost use Rattle.std.specs.Bool.{then_some};
ghost use Rattle.std.specs.Option.{option_or};
ghost use Rattle.std.specs.Ordering.{is_eq};
ghost use Rattle.wm_base.specs.Key.{key_order};
ghost use Rattle.wm_base.specs.Period.{covers};
ghost use Rattle.wm_base.specs.declared.value.Value.{Value};
ghost use Rattle.wm_dated.specs.Dated.{IsDatedShowing, born_with, hist_held};
ghost use Rattle.wm_graph.specs.Parts.{parts_of};
ghost use Rattle.wm_graph.specs.Rules.{keep_rules};
ghost use Rattle.wm_history.specs.Laid.{HasEnded, HaveStood, HoldBy, IsPutOver, laid_at};
ghost use Rattle.wm_period.specs.Pieces.{Held, held, held_at};
ghost use Rattle.wm_spec.specs.Lists.{Cell};
ghost use Rattle.wm_state.specs.Listing.{IsShowingBy};

use crate::layers::Layers;
use std::alloc::Global;
use std::collections::BTreeMap;
use wm_base::{Key, Memory, Period, Stamp};
use wm_image::Image;
use wm_index::kinds::hist_of;
use wm_listing::RowList;
use wm_period::{Piece, Pieces};
use wm_spec::record::{Hist, Space, Table};
use wm_version_rows::laying::{lay_key, period_of};
use wm_version_rows::listing::{Asked, push_rows};

/// What the rows of a table are made of, by key.
type Laid = BTreeMap<Key, Layers>;

/// Puts what a workspace was born with in the place of what is known of a key.
fn set_born(alloc: Global, laid: &mut Laid, key: &Key, born: Pieces) -> Result<(), Memory>
    ensures { OnOk result ((k : List Value) (t : ℕ) → laid_at laid.new.entries k t ≡ (if is_eq (key_order key.now k) then held_at born t else laid_at laid.old.entries k t)) }
{
    let own = key.copy(alloc)?;
    laid.insert(own, Layers::of_birth(alloc, born))?;
    Ok(())
}

/// Puts a piece over all that is known of a key.
fn put_piece(alloc: Global, laid: &mut Laid, key: &Key, piece: Piece) -> Result<(), Memory>
    ensures { OnOk result ((k : List Value) (t : ℕ) → laid_at laid.new.entries k t ≡ (if is_eq (key_order key.now k) then option_or (then_some (covers piece.period t) (held piece)) (laid_at laid.old.entries key.now t) else laid_at laid.old.entries k t)) }
{
    let own = key.copy(alloc)?;
    let mut layers = match laid.remove(&own) {
        Some(layers) => layers,
        None => Layers::of_birth(alloc, Pieces::new(alloc)),
    };
    layers.write(piece)?;
    laid.insert(own, layers)?;
    Ok(())
}

/// What an entry of a log wrote, over a period.
fn piece_over(hist: &Hist, period: Period) -> Piece
    ensures period { result.period ≡ period }
    ensures says { held result ≡ hist_held hist.now }
{
    Piece {
        period,
        stamp: Stamp { number: hist.stamp },
        kind: hist.kind,
        gone: hist.gone,
    }
}

/// Puts what the entry of an id wrote over what is known of its key, where its moment is at most a date.
fn put_early(
    alloc: Global,
    image: &Image,
    id: u64,
    date: u64,
    laid: &mut Laid,
) -> Result<(), Memory>
    ensures { OnOk result (IsPutOver image.now (id ∷ []) date laid.old.entries laid.new.entries) }
{
    let Some(hist) = hist_of(image.record(id)) else {
        return Ok(());
    };
    if hist.moment > date {
        return Ok(());
    }
    let Some(period) = period_of(&hist.cells) else {
        return Ok(());
    };
    put_piece(alloc, laid, &hist.cells.key, piece_over(hist, period))
}

/// Puts what the entries of some ids wrote over what is known of their keys, one after another, of those whose moment
/// is at most a date.
fn put_all_early(
    alloc: Global,
    image: &Image,
    ids: &[u64],
    date: u64,
    laid: &mut Laid,
) -> Result<(), Memory>
    ensures { OnOk result (IsPutOver image.now ids.now date laid.old.entries laid.new.entries) }
{
    for id in ids {
        put_early(alloc, image, *id, date, laid)?;
    }
    Ok(())
}

/// What a workspace was born with of a table, by key; LIVE with nothing.
fn born(alloc: Global, image: &Image, space: &Space, table: &Table) -> Result<Laid, Memory>
    requires { keep_rules (parts_of image.now) ≡ true }
    ensures { IfOk result (λ laid. HoldBy laid.entries table.now.number (born_with (parts_of image.now) space.now)) }
{
    let mut laid = BTreeMap::new(alloc);
    if space.number == 0 {
        return Ok(laid);
    }
    let Some(keys) = image.keys_of(table.number) else {
        return Ok(laid);
    };
    for (key, versions) in keys {
        let pieces = lay_key(alloc, image, versions.as_slice(), space.birth_version)?;
        set_born(alloc, &mut laid, key, pieces)?;
    }
    Ok(laid)
}

/// What stood in a workspace on a date of a table, by key: what it was born with, and over it what the entries of its
/// log up to then wrote.
fn stood(
    alloc: Global,
    image: &Image,
    space: &Space,
    date: u64,
    table: &Table,
) -> Result<Laid, Memory>
    requires { keep_rules (parts_of image.now) ≡ true }
    ensures { IfOk result (λ laid. HaveStood (parts_of image.now) space.now date table.now.number laid.entries) }
{
    let mut laid = born(alloc, image, space, table)?;
    let ids = image.hists(alloc, space.number, table.number)?;
    put_all_early(alloc, image, ids.as_slice(), date, &mut laid)?;
    Ok(laid)
}

/// What is shown of the rows of all keys, by key and from. Each key is laid when its rows are told.
fn list_laid(alloc: Global, image: &Image, asked: &Asked, laid: &Laid) -> Result<RowList, Memory>
    ensures { IfOk result (λ rows. (f : Cell → Option Held) → HoldBy laid.now.entries asked.now.table f → HasEnded f → IsShowingBy (parts_of image.now) f asked.now.table asked.now.valid asked.now.within rows) }
{
    let mut rows = RowList::new(alloc);
    for (_, layers) in laid {
        let pieces = layers.laid(alloc)?;
        push_rows(alloc, image, &mut rows, asked, pieces.list())?;
    }
    Ok(rows)
}

/// The rows of a table with history as they stood in a workspace on a date, by key and from: the rows; where the table
/// has valid time, those that overlap a period, each with its own behind its values. The keys of the table and the log
/// of the workspace on it are gone through at once. What the log has of a key is laid in halves over one another.
pub fn dated_showing(
    alloc: Global,
    image: &Image,
    space: &Space,
    date: u64,
    table: &Table,
    within: &Period,
) -> Result<RowList, Memory>
    requires { keep_rules (parts_of image.now) ≡ true }
    ensures { IfOk result (λ rows. IsDatedShowing (parts_of image.now) space.now date table.now within.now rows) }
{
    let laid = stood(alloc, image, space, date, table)?;
    let asked = Asked::of(space.birth_version, table, within);
    let rows = list_laid(alloc, image, &asked, &laid)?;
    Ok(rows)
}
