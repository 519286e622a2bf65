//! UPDATE that gives rows new periods.
ghost use Rattle.std.specs.Prelude.{◌≡◌, ◌<◌, true, List, Some, IfOk};
ghost use Rattle.std.specs.List.{list_all};
ghost use Rattle.std.specs.Option.{option_copied, option_map};
ghost use Rattle.wm_dml.specs.declared.moving.Move.{Move as MoveOf};
ghost use Rattle.wm_dml.specs.Moving.{moved_row};
ghost use Rattle.wm_dml.specs.Standing.{is_change};
ghost use Rattle.wm_change.specs.Acting.{DoesAt, IsSite};
ghost use Rattle.wm_change.specs.Changing.{is_filled_change};
ghost use Rattle.wm_plan.specs.Idle.{Idles};
ghost use Rattle.wm_change.specs.Moved.{AreShifts, Finds, NoneAt};
ghost use Rattle.wm_graph.specs.Parts.{parts_of};
ghost use Rattle.wm_graph.specs.Rules.{keep_rules};
ghost use Rattle.wm_model.specs.Step.{clash_at, first_clash, move_all};

use crate::site::Site;
use crate::write_all::write_all;
use std::alloc::Global;
use wm_base::{Key, Memory, Period};
use wm_dml::{Move, Shifts, clash_in, moved};
use wm_image::Image;
use wm_plan::planned::Planned;
use wm_plan::refuse::key_there;
use wm_spec::record::Table;
use wm_version_rows::overlap::spans_of_key;

/// The earliest part that a new period of a key shares with a row that stays, or with another new one.
fn clash_at(
    alloc: Global,
    image: &Image,
    version: u64,
    table: &Table,
    shifts: &Shifts,
    key: &Key,
) -> Result<Option<Period>, Memory>
    requires { keep_rules (parts_of image.now) ≡ true }
    ensures { IfOk result (λ found. (moves : List MoveOf) (m : MoveOf) → AreShifts shifts.now moves → m.key ≡ key.now → Finds (parts_of image.now) version (λ es. clash_at es table.now moves m) (option_map (λ p. (key.now, p)) found)) }
{
    let spans = spans_of_key(alloc, image, version, table.number, key)?;
    let found = clash_in(alloc, shifts.of(key), spans.as_slice())?;
    Ok(found)
}

/// The same of a key behind another that has no such part: where it is that one, it is not searched again.
fn clash_after(
    alloc: Global,
    image: &Image,
    version: u64,
    table: &Table,
    shifts: &Shifts,
    last: Option<&Key>,
    key: &Key,
) -> Result<Option<Period>, Memory>
    requires { keep_rules (parts_of image.now) ≡ true }
    ensures { IfOk result (λ found. (moves : List MoveOf) (m : MoveOf) → AreShifts shifts.now moves → NoneAt (parts_of image.now) version table.now moves (option_copied last.entry) → m.key ≡ key.now → Finds (parts_of image.now) version (λ es. clash_at es table.now moves m) (option_map (λ p. (key.now, p)) found)) }
{
    if let Some(last) = last {
        if last.equals(key) {
            return Ok(None);
        }
    }
    let found = clash_at(alloc, image, version, table, shifts, key)?;
    Ok(found)
}

/// The first key that has such a part, with that part.
fn first_clash(
    alloc: Global,
    image: &Image,
    version: u64,
    table: &Table,
    moves: &[Move],
    shifts: &Shifts,
) -> Result<Option<(Key, Period)>, Memory>
    requires rules { keep_rules (parts_of image.now) ≡ true }
    requires shifts { AreShifts shifts.now moves.now }
    ensures { IfOk result (λ found. Finds (parts_of image.now) version (λ es. first_clash es table.now moves.now moves.now) found) }
{
    let mut last: Option<&Key> = None;
    let mut left = moves;
    while let [one, rest @ ..] = left {
        if let Some(shared) = clash_after(alloc, image, version, table, shifts, last, &one.key)? {
            return Ok(Some((one.key.copy(alloc)?, shared)));
        }
        last = Some(&one.key);
        left = rest;
    }
    Ok(None)
}

/// Writes rows over new periods, where no other row of their keys stands.
pub fn move_all(alloc: Global, site: Site<'_>, moves: Vec<Move>) -> Result<Planned, Memory>
    requires site { IsSite site }
    requires fit { list_all (λ (m : MoveOf). is_change site.table.now (moved_row m)) moves.items ≡ true }
    requires filled { list_all (λ (m : MoveOf). is_filled_change (moved_row m)) moves.items ≡ true }
    ensures does { IfOk result (DoesAt site.entry (move_all site.entry.session.now site.entry.table.now moves.items)) }
    ensures idle { IfOk result Idles }
{
    let version = site.image.latest(site.session.space());
    let shifts = Shifts::of_moves(alloc, moves.as_slice())?;
    let clash = first_clash(
        alloc,
        site.image,
        version,
        site.table,
        moves.as_slice(),
        &shifts,
    )?;
    if let Some((key, shared)) = clash {
        return Ok(Planned::answered(alloc, key_there(key, Some(shared))));
    }
    let count = moves.len() as u64;
    let changes = moved(alloc, moves, &shifts)?;
    write_all(alloc, site, count, changes)
}
