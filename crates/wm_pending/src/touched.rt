//! What a workspace touched since a position of its log.

ghost use Rattle.std.specs.Prelude.{◌≡◌, ℕ, ◌<◌, ◌&&◌, ◌||◌, ◌==◌, not, false, is_some, None, if◌then◌else◌, IfOk, OnOk};
ghost use Rattle.std.specs.BTreeSet.{contains};
ghost use Rattle.std.specs.List.{list_any};
ghost use Rattle.std.specs.Option.{option_and_then, option_copied, option_map_or, option_to_list};
ghost use Rattle.wm_base.specs.Period.{covers};
ghost use Rattle.wm_base.specs.declared.instant.TheConstants.{END};
ghost use Rattle.wm_graph.specs.Parts.{as_touch, parts_of};
ghost use Rattle.wm_index.specs.Kinds.{kind_at, passing};
ghost use Rattle.wm_pending.specs.Keys.{Place, place_order};
ghost use Rattle.wm_pending.specs.Touched.{covers_since, has_touch_of, has_touched, is_meant, is_since, is_touched, marks_since, passes_at, since_of, since_position};
ghost use Rattle.wm_period.specs.Pieces.{held_at};

use crate::erasing::erase_all;
use crate::keys::TableKeys;
use std::alloc::Global;
use std::collections::BTreeSet;
use wm_base::{Key, Kind, Memory, Period, Stamp};
use wm_image::Image;
use wm_period::{Piece, Pieces};
use wm_spec::record::{Record, Space, Trace};
use wm_version_rows::laying::period_of;

/// Which touches or marks are meant: those of a workspace that were made at a place below one, and whose position is
/// one or behind it.
#[derive(Clone, Copy)]
pub struct Since {
    pub space: u32,
    pub below: u32,
    pub from: u64,
}

impl Since {
    /// The touches of the parent of a workspace since the workspace took its log.
    pub fn of(space: &Space, parent: &Space) -> Since
        ensures { result ≡ since_of space.now parent.now }
    {
        Since {
            space: parent.number,
            below: parent.next_place,
            from: space.from,
        }
    }

    /// The marks of a workspace.
    pub fn marks(space: &Space) -> Since
        ensures { result ≡ marks_since space.now }
    {
        Since {
            space: space.number,
            below: space.next_place,
            from: 0,
        }
    }

    /// The same touches, but since another position.
    pub fn from_position(self, from: u64) -> Since
        ensures { result ≡ since_position self from }
    {
        Since {
            space: self.space,
            below: self.below,
            from,
        }
    }
}

/// Whether a touch or a mark is meant.
pub fn is_since(trace: &Trace, since: Since) -> bool
    ensures { result ≡ is_since since trace.now }
{
    trace.space == since.space && (trace.place < since.below && since.from <= trace.position)
}

/// A record that is a touch that is meant.
fn touch_since(found: Option<&Record>, since: Since) -> Option<&Trace>
    ensures { option_copied result ≡ passing (is_since since) (option_and_then as_touch (option_copied found.entry)) }
{
    match found {
        Some(Record::Touch(touch)) => {
            if is_since(touch, since) {
                Some(touch)
            } else {
                None
            }
        }
        _ => None,
    }
}

/// The ids of the touches that are meant. Of the workspace's other records none is looked at.
fn touched_since(alloc: Global, image: &Image, since: Since) -> Result<Vec<u64>, Memory>
    ensures { IfOk result (λ ids. (id : ℕ) → list_any (λ k. k == id) ids.items ≡ passes_at (is_meant since) image.now id) }
{
    let mut ids = image.touches_since(alloc, since.space, since.from)?;
    ids.retain(|id| touch_since(image.record(*id), since).is_some());
    Ok(ids)
}

/// Adds the key of a record, where that is a touch.
fn add_key(alloc: Global, keys: &mut TableKeys, found: Option<&Record>) -> Result<(), Memory>
    ensures { OnOk result ((q : Place) → contains place_order keys.new q ≡ (contains place_order keys.old q || has_touch_of q (option_to_list (option_and_then as_touch (option_copied found.entry))))) }
{
    if let Some(Record::Touch(touch)) = found {
        keys.insert((touch.cells.table, touch.cells.key.copy(alloc)?))?;
    }
    Ok(())
}

/// The keys of the touches among the records of some ids.
fn keys_of(alloc: Global, image: &Image, ids: &[u64]) -> Result<TableKeys, Memory>
    ensures { IfOk result (λ keys. (q : Place) → contains place_order keys q ≡ has_touch_of q (kind_at as_touch image.now ids.now)) }
{
    let mut keys = BTreeSet::new(alloc);
    for id in ids {
        add_key(alloc, &mut keys, image.record(*id))?;
    }
    Ok(keys)
}

/// The keys of the touches that are meant.
pub fn touched_keys(alloc: Global, image: &Image, since: Since) -> Result<TableKeys, Memory>
    ensures { IfOk result (λ keys. (q : Place) → contains place_order keys q ≡ has_touched (parts_of image.now).touches since q) }
{
    image.law_of_order();
    let ids = touched_since(alloc, image, since)?;
    keys_of(alloc, image, ids.as_slice())
}

/// The period of a record, where it is a touch that is meant and has a moment.
fn period_since(found: Option<&Record>, since: Since) -> Option<Period>
    ensures { (t : ℕ) → t < END → option_map_or (λ p. covers p t) result false ≡ covers_since since (option_and_then as_touch (option_copied found.entry)) t }
{
    let touch = touch_since(found, since)?;
    period_of(&touch.cells)
}

/// Takes the period of a record out of pieces, where it is a touch that is meant.
fn erase_since(
    alloc: Global,
    pieces: &mut Pieces,
    found: Option<&Record>,
    since: Since,
) -> Result<(), Memory>
    ensures { OnOk result ((t : ℕ) → t < END → is_some (held_at pieces.new t) ≡ (is_some (held_at pieces.old t) && not (covers_since since (option_and_then as_touch (option_copied found.entry)) t))) }
{
    if let Some(period) = period_since(found, since) {
        pieces.erase(alloc, &period)?;
    }
    Ok(())
}

/// Takes out of pieces of a key what a touch that is meant covers.
pub fn erase_touched(
    alloc: Global,
    image: &Image,
    pieces: &mut Pieces,
    since: Since,
    table: u16,
    key: &Key,
) -> Result<(), Memory>
    ensures { OnOk result ((t : ℕ) → t < END → is_some (held_at pieces.new t) ≡ (is_some (held_at pieces.old t) && not (is_touched (parts_of image.now).touches since (record { table = table; key = key.now; time = t })))) }
{
    image.law_of_order();
    for id in image.touches_of(table, key) {
        erase_since(alloc, pieces, image.record(*id), since)?;
    }
    Ok(())
}

/// A piece over a period. What it says means nothing.
pub fn over_period(alloc: Global, period: Period) -> Result<Pieces, Memory>
    ensures { IfOk result (λ pieces. (t : ℕ) → is_some (held_at pieces t) ≡ covers period t) }
{
    let mut pieces = Pieces::new(alloc);
    let piece = Piece {
        period,
        stamp: Stamp { number: 0 },
        kind: Kind::Insert,
        gone: false,
    };
    pieces.put(alloc, piece)?;
    Ok(pieces)
}

/// The periods of a key that no touch that is meant covers. What its pieces say means nothing.
fn untouched(
    alloc: Global,
    image: &Image,
    since: Since,
    table: u16,
    key: &Key,
) -> Result<Pieces, Memory>
    ensures { IfOk result (λ quiet. (t : ℕ) → t < END → is_some (held_at quiet t) ≡ not (is_touched (parts_of image.now).touches since (record { table = table; key = key.now; time = t }))) }
{
    let mut quiet = over_period(alloc, Period::always())?;
    erase_touched(alloc, image, &mut quiet, since, table, key)?;
    Ok(quiet)
}

/// Takes out of pieces of a key what they have where no touch that is meant covers it.
pub fn erase_untouched(
    alloc: Global,
    image: &Image,
    pieces: &mut Pieces,
    since: Since,
    table: u16,
    key: &Key,
) -> Result<(), Memory>
    ensures { OnOk result ((t : ℕ) → t < END → held_at pieces.new t ≡ (if is_touched (parts_of image.now).touches since (record { table = table; key = key.now; time = t }) then held_at pieces.old t else None)) }
{
    let quiet = untouched(alloc, image, since, table, key)?;
    let erased = erase_all(alloc, pieces, quiet.list());
    drop(quiet);
    erased?;
    Ok(())
}
