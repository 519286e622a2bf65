//! All that the versions on a path hold for one key, laid over one another.

ghost use Rattle.std.specs.Prelude.{◌≡◌, ◌<◌, ◌≤◌, ◌&&◌, ℕ, [], length, take, true, false, is_some, min, nat_le, nat_lt, IfOk};
ghost use Rattle.std.specs.Option.{option_copied, option_and_then, option_map_or, option_or, option_to_list};
ghost use Rattle.wm_base.specs.Period.{covers};
ghost use Rattle.wm_base.specs.declared.instant.TheConstants.{END};
ghost use Rattle.wm_graph.specs.Parts.{as_piece, parts_of};
ghost use Rattle.wm_graph.specs.Rules.{keep_rules};
ghost use Rattle.wm_image.specs.Shown.{first_held};
ghost use Rattle.wm_version_rows.specs.Laying.{along, entry_held, held_here, up_to};
ghost use Rattle.wm_ids.specs.Versioned.{AreNested, AreSpanned, VersionsRise, ids_under};
ghost use Rattle.wm_index.specs.Kinds.{kind_at};
ghost use Rattle.wm_period.specs.Pieces.{held_at};
ghost use Rattle.wm_state.specs.Standing.{newest_first, seen};
ghost use Rattle.wm_tree.specs.Versions.{path_in};

use crate::descent::{descend, is_reached};
use std::alloc::Global;
use wm_base::{Instant, Key, Memory, Period, Stamp};
use wm_ids::versioned::Versioned;
use wm_image::Image;
use wm_index::kinds::piece_of;
use wm_period::{Piece, Pieces};
use wm_spec::record::{CellRange, Record};

/// The instant of so many seconds, the end of time where they are more.
fn instant_of(seconds: u64) -> Instant
    ensures { result ≡ min seconds END }
{
    match Instant::new(seconds) {
        Some(instant) => instant,
        None => Instant::end(),
    }
}

/// The period of cells, or None where they have no moment.
pub fn period_of(cells: &CellRange) -> Option<Period>
    ensures { (t : ℕ) → t < END → option_map_or (λ p. covers p t) result false ≡ (nat_le cells.now.from t && nat_lt t cells.now.till) }
{
    Period::new(instant_of(cells.from), instant_of(cells.till))
}

/// A record as a piece of a version, or None where it is none or has no moment.
fn own_piece(found: Option<&Record>, version: u64) -> Option<Piece>
    ensures { (t : ℕ) → t < END → held_at (option_to_list result) t ≡ held_here (option_and_then as_piece (option_copied found.entry)) version t }
{
    let piece = piece_of(found)?;
    if piece.version != version {
        return None;
    }
    let period = period_of(&piece.cells)?;
    Some(Piece {
        period,
        stamp: Stamp {
            number: piece.stamp,
        },
        kind: piece.kind,
        gone: piece.gone,
    })
}

/// Lays a record behind others, where it is a piece of a version and has a moment, and tells whether nothing of it is
/// left to be laid: it is left where it begins before all others have ended.
fn lay_behind(run: &mut Pieces, found: Option<&Record>, version: u64) -> Result<bool, Memory>
    ensures laid { IfOk result (λ laid. laid ≡ true → (t : ℕ) → t < END → held_at run.new t ≡ option_or (held_at run.old t) (held_here (option_and_then as_piece (option_copied found.entry)) version t)) }
    ensures left { IfOk result (λ laid. laid ≡ false → run.new ≡ run.old) }
    ensures first { IfOk result (λ laid. run.old ≡ [] → laid ≡ true) }
{
    let Some(piece) = own_piece(found, version) else {
        return Ok(true);
    };
    let put = run.push_behind(piece)?;
    Ok(put)
}

/// Lays what a version has by some pieces of one table and key, id by id, as long as each begins when those before it
/// have ended: what is laid, and of how many ids.
fn lay_run(
    alloc: Global,
    image: &Image,
    ids: &[u64],
    version: u64,
) -> Result<(Pieces, usize), Memory>
    ensures held { IfOk result (λ run. (t : ℕ) → t < END → held_at run.0 t ≡ first_held (kind_at as_piece image.now (take run.1 ids.now)) version t) }
    ensures within { IfOk result (λ run. run.1 ≤ length ids.now) }
    ensures some { IfOk result (λ run. 0 < length ids.now → 0 < run.1) }
{
    let mut run = Pieces::with_capacity(alloc, ids.len())?;
    for (place, id) in ids.iter().enumerate() {
        if !lay_behind(&mut run, image.record(*id), version)? {
            return Ok((run, place));
        }
    }
    Ok((run, ids.len()))
}

/// What a version has by some pieces of one table and key. Most begin in the order of their ids, and these are laid one
/// behind another. The two halves of the others are laid under them, each made so itself, so that of n pieces each is
/// copied at most twice for each time that n can be halved.
fn lay_pieces(alloc: Global, image: &Image, ids: &[u64], version: u64) -> Result<Pieces, Memory>
    ensures { IfOk result (λ own. (t : ℕ) → t < END → held_at own t ≡ first_held (kind_at as_piece image.now ids.now) version t) }
{
    let (run, count) = lay_run(alloc, image, ids, version)?;
    let (_, rest) = ids.split_at(count);
    if rest.is_empty() {
        return Ok(run);
    }
    let (front, back) = rest.split_at(rest.len() / 2);
    let upper = lay_pieces(alloc, image, front, version)?;
    let lower = lay_pieces(alloc, image, back, version)?;
    let under = Pieces::over(alloc, &lower, &upper)?;
    let own = Pieces::over(alloc, &under, &run)?;
    Ok(own)
}

/// Lays the pieces of a version under others, of some pieces of one table and key.
pub fn lay_version(
    alloc: Global,
    image: &Image,
    ids: &[u64],
    version: u64,
    upper: Pieces,
) -> Result<Pieces, Memory>
    ensures { IfOk result (λ both. (t : ℕ) → t < END → held_at both t ≡ option_or (held_at upper t) (first_held (kind_at as_piece image.now ids.now) version t)) }
{
    if ids.is_empty() {
        return Ok(upper);
    }
    let lower = lay_pieces(alloc, image, ids, version)?;
    if upper.is_empty() {
        return Ok(lower);
    }
    let both = Pieces::over(alloc, &lower, &upper)?;
    Ok(both)
}

/// The moment before which pieces cover all from another on. They are gone through until one begins behind it.
fn covered_till(pieces: &[Piece], from: u64) -> u64
    ensures { (t : ℕ) → from ≤ t → t < result → is_some (held_at pieces.now t) ≡ true }
{
    let mut reached = from;
    for piece in pieces {
        if reached < piece.period.from().seconds() {
            return reached;
        }
        reached = reached.max(piece.period.till().seconds());
    }
    reached
}

/// Whether pieces cover all from one moment to another: then nothing that lies under them shows there.
fn covers_all(pieces: &Pieces, from: u64, till: u64) -> bool
    ensures { result ≡ true → (t : ℕ) → from ≤ t → t < till → is_some (held_at pieces.now t) ≡ true }
{
    till <= covered_till(pieces.list(), from)
}

/// Lays the pieces that a version has of a key under others, where the version stands on the path of one that is not
/// newer.
fn lay_entry(
    alloc: Global,
    image: &Image,
    entry: &Versioned,
    at: u64,
    upper: Pieces,
) -> Result<Pieces, Memory>
    requires rules { keep_rules (parts_of image.now) ≡ true }
    requires down { at ≤ entry.now.version }
    ensures { IfOk result (λ both. (t : ℕ) → t < END → held_at both t ≡ option_or (held_at upper t) (entry_held image.now (path_in (newest_first (parts_of image.now).versions) at) entry.now t)) }
{
    if !is_reached(image, at, entry.version) {
        return Ok(upper);
    }
    let both = lay_version(alloc, image, entry.ids.as_slice(), entry.version, upper)?;
    Ok(both)
}

/// Those of some versions that are not above `top`: no other stands on its path.
fn up_to(versions: &[Versioned], top: u64) -> &[Versioned]
    requires { VersionsRise versions.now }
    ensures { result.now ≡ up_to top versions.now }
{
    let count = versions.partition_point(|one| one.version <= top);
    &versions[..count]
}

/// Lays the pieces of the versions on the path of `top` over one another, those of the newest uppermost, until they
/// cover the period of the next version: it holds the periods of all older ones, so then nothing that is left shows.
/// The path is gone down once, from each version to the next.
pub fn lay_key(
    alloc: Global,
    image: &Image,
    versions: &[Versioned],
    top: u64,
) -> Result<Pieces, Memory>
    requires rules { keep_rules (parts_of image.now) ≡ true }
    requires nested { AreNested versions.now }
    requires spanned { AreSpanned image.now versions.now }
    ensures { IfOk result (λ laid. (t : ℕ) → t < END → held_at laid t ≡ along (λ v. first_held (kind_at as_piece image.now (ids_under versions.now v)) v t) (path_in (newest_first (parts_of image.now).versions) top)) }
{
    let mut laid = Pieces::new(alloc);
    let mut left = up_to(versions, top);
    let mut at = top;
    while let Some((entry, rest)) = left.split_last() {
        if covers_all(&laid, entry.from, entry.till) {
            return Ok(laid);
        }
        at = descend(image, at, entry.version);
        laid = lay_entry(alloc, image, entry, at, laid)?;
        left = rest;
    }
    Ok(laid)
}

/// All that a version has for a key of a table.
pub fn shown(
    alloc: Global,
    image: &Image,
    version: u64,
    table: u16,
    key: &Key,
) -> Result<Pieces, Memory>
    requires { keep_rules (parts_of image.now) ≡ true }
    ensures { IfOk result (λ pieces. (t : ℕ) → t < END → held_at pieces t ≡ seen (parts_of image.now) version (record { table = table; key = key.now; time = t })) }
{
    let versions = image.versions_of(table, key);
    let pieces = lay_key(alloc, image, versions, version)?;
    Ok(pieces)
}
