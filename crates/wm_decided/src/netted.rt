//! What decisions come to, of which a later one takes the place of an earlier one on its cells.
ghost use Rattle.std.specs.Prelude.{◌≡◌, ◌++◌, ◌<◌, ℕ, map, max, min, nat_lt, length, IfOk, OnOk};
ghost use Rattle.std.specs.Bool.{then_some};
ghost use Rattle.std.specs.List.{All};
ghost use Rattle.std.specs.Option.{option_map, option_or};
ghost use Rattle.wm_base.specs.Period.{shared};
ghost use Rattle.wm_decided.specs.Counted.{IsSound, copies_in, copies_over, group_in, held_under, mark_by, placed, places_over};
ghost use Rattle.wm_decided.specs.Netted.{cells_decided, entries_decided, entry_copied, marks_of};
ghost use Rattle.wm_net.specs.Places.{last_position};
ghost use Rattle.wm_period.specs.declared.piece.Piece.{Piece as OnePiece};
ghost use Rattle.wm_spec.specs.Lists.{Cell, covers};
ghost use Rattle.wm_state.specs.Editing.{entry_of, settled_by};

use crate::decision::{Copied, Decision, row_copy};
use std::alloc::Global;
use std::collections::BTreeMap;
use wm_base::{Key, Kind, Memory, Name, Period, Stamp};
use wm_period::{Piece, Pieces};
use wm_state::edit::{NewEntry, NewMark};

/// What decisions come to, by table, key and from.
#[derive(Drop)]
pub struct Netted {
    /// One for each period over which one decision counts.
    pub marks: Vec<NewMark>,
    /// What the decisions copy where they count.
    pub entries: Vec<NewEntry>,
}

/// A table and a key of it.
type TableKey = (u16, Key);

/// By key, over which periods decisions count: a piece has the place of its decision for a stamp.
type ByKey = BTreeMap<TableKey, Pieces>;

/// Lays a decision over those before it.
fn lay(alloc: Global, by_key: &mut ByKey, decision: &Decision, place: u64) -> Result<(), Memory>
    ensures cells { OnOk result ((c : Cell) → held_under by_key.new.entries (c.table, c.key) c.time ≡ option_or (then_some (covers (cells_decided decision.now) c) (placed place)) (held_under by_key.old.entries (c.table, c.key) c.time)) }
    ensures sound { OnOk result (IsSound decision.now) }
{
    let key = (decision.table(), decision.key().copy(alloc)?);
    let mut pieces = by_key.remove(&key).unwrap_or(Pieces::new(alloc));
    let piece = Piece {
        period: decision.period(),
        stamp: Stamp { number: place },
        kind: Kind::Insert,
        gone: false,
    };
    pieces.put(alloc, piece)?;
    by_key.insert(key, pieces)?;
    let _copied = decision.copied();
    Ok(())
}

/// By key, over which periods each of the decisions counts.
fn lay_all(alloc: Global, decisions: &[Decision]) -> Result<ByKey, Memory>
    ensures cells { IfOk result (λ by_key. (c : Cell) → held_under by_key.entries (c.table, c.key) c.time ≡ option_map placed (last_position (map cells_decided decisions.now) c)) }
    ensures sound { IfOk result (λ by_key. All IsSound decisions.now) }
{
    let mut by_key = BTreeMap::new(alloc);
    for (place, decision) in decisions.iter().enumerate() {
        lay(alloc, &mut by_key, decision, place as u64)?;
    }
    Ok(by_key)
}

/// Puts the marks of a key behind others.
fn push_marks(
    alloc: Global,
    marks: &mut Vec<NewMark>,
    decisions: &[Decision],
    key: &TableKey,
    pieces: &[Piece],
) -> Result<(), Memory>
    requires { All (λ (p : OnePiece). p.stamp.number < length decisions.now) pieces.now }
    ensures { OnOk result ((place : ℕ) → map (settled_by place) marks.new.items ≡ map (settled_by place) marks.old.items ++ map (mark_by decisions.now place (group_in key.now)) (places_over pieces.now)) }
{
    for piece in pieces {
        let decision = &decisions[piece.stamp.number as usize];
        marks.push(NewMark {
            table: key.0,
            key: key.1.copy(alloc)?,
            period: piece.period,
            position: decision.position(),
        })?;
    }
    Ok(())
}

/// What two periods share.
fn shared(period: &Period, other: &Period) -> Option<Period>
    ensures { result ≡ then_some (nat_lt (max period.now.from other.now.from) (min period.now.till other.now.till)) (shared period.now other.now) }
{
    Period::new(
        period.from().max(other.from()),
        period.till().min(other.till()),
    )
}

/// Puts what is copied of a key over the period of a piece behind others, as entries of the line of a moment and a user.
fn push_copies(
    alloc: Global,
    entries: &mut Vec<NewEntry>,
    copied: &[Copied],
    key: &TableKey,
    piece: &Piece,
    moment: u64,
    user: &Name,
) -> Result<(), Memory>
    ensures { OnOk result (map entry_of entries.new.items ≡ map entry_of entries.old.items ++ map (entry_copied moment user.now (group_in key.now)) (copies_in piece.now.period.from piece.now.period.till piece.now.stamp.number copied.now)) }
{
    for one in copied {
        if let Some(period) = shared(&one.period, &piece.period) {
            entries.push(NewEntry {
                table: key.0,
                key: key.1.copy(alloc)?,
                period,
                row: row_copy(alloc, &one.row)?,
                stamp: one.stamp,
                kind: one.kind,
                moment,
                user: user.copy(alloc)?,
            })?;
        }
    }
    Ok(())
}

/// Puts what decisions copy of a key behind others, as entries of the line of a moment and a user.
fn push_entries(
    alloc: Global,
    entries: &mut Vec<NewEntry>,
    decisions: &[Decision],
    key: &TableKey,
    pieces: &[Piece],
    moment: u64,
    user: &Name,
) -> Result<(), Memory>
    requires { All (λ (p : OnePiece). p.stamp.number < length decisions.now) pieces.now }
    ensures { OnOk result (map entry_of entries.new.items ≡ map entry_of entries.old.items ++ map (entry_copied moment user.now (group_in key.now)) (copies_over decisions.now (places_over pieces.now))) }
{
    for piece in pieces {
        let decision = &decisions[piece.stamp.number as usize];
        push_copies(alloc, entries, decision.copied(), key, piece, moment, user)?;
    }
    Ok(())
}

/// What decisions come to, their entries as those of the line of a moment and a user. It takes no longer than to sort the
/// decisions by key, and in each key as long as its decisions and pieces take.
pub fn net_decisions(
    alloc: Global,
    decisions: &[Decision],
    moment: u64,
    user: &Name,
) -> Result<Netted, Memory>
    ensures marks { IfOk result (λ netted. (place : ℕ) → map (settled_by place) netted.marks.items ≡ marks_of place decisions.now) }
    ensures entries { IfOk result (λ netted. map entry_of netted.entries.items ≡ entries_decided moment user.now decisions.now) }
{
    let mut marks = Vec::new(alloc);
    let mut entries = Vec::new(alloc);
    for (key, mut pieces) in lay_all(alloc, decisions)? {
        pieces.join_same_stamp();
        push_marks(alloc, &mut marks, decisions, &key, pieces.list())?;
        push_entries(
            alloc,
            &mut entries,
            decisions,
            &key,
            pieces.list(),
            moment,
            user,
        )?;
        drop(key);
    }
    Ok(Netted { marks, entries })
}
