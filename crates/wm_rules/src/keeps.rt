//! All rules, asked one kind of records after another.
ghost use Rattle.std.specs.Prelude.{◌≡◌, ◌∷◌, [], IfOk};
ghost use Rattle.wm_rules.specs.Indexing.{IndexesOf};
ghost use Rattle.wm_cells.specs.Lookups.{collected};
ghost use Rattle.wm_graph.specs.Parts.{parts_of};
ghost use Rattle.wm_graph.specs.Rules.{are_tables, are_spaces, are_versions, are_savepoints, are_rows, are_pieces, are_hists, are_touches, are_locks, are_marks, are_turns, keep_rules, keep_rules_with};

use crate::indexes::{self, Indexes};
use crate::{hists, locks, pieces, savepoints, spaces, tables, traces, turns, versions};
use std::alloc::Global;
use wm_base::Memory;
use wm_cells::kinds::Kinds;
use wm_cells::{counters, rows};
use wm_spec::record::{Counters, Records};

/// Whether the records keep every rule over all of them. The one error is that memory ran out.
pub fn keeps_rules(alloc: Global, records: &Records) -> Result<bool, Memory>
    ensures { IfOk result (λ kept. kept ≡ keep_rules (parts_of records.now)) }
{
    let kinds = Kinds::of(alloc, records.as_slice())?;
    let kept = keep_rules(alloc, &kinds)?;
    Ok(kept)
}

/// Whether the records of each kind keep the rules.
fn keep_rules(alloc: Global, kinds: &Kinds) -> Result<bool, Memory>
    ensures { IfOk result (λ kept. kept ≡ keep_rules (collected kinds.now)) }
{
    if kinds.counters.len() != 1 {
        return Ok(false);
    }
    let kept = keep_rules_with(alloc, kinds, kinds.counters[0])?;
    Ok(kept)
}

/// Whether the records of each kind keep the rules, where these are the counters.
fn keep_rules_with(alloc: Global, kinds: &Kinds, counters: &Counters) -> Result<bool, Memory>
    ensures { IfOk result (λ kept. kept ≡ keep_rules_with (collected kinds.now) (counters.now ∷ [])) }
{
    let indexes = indexes::indexes_of(alloc, kinds)?;
    let kept = each_kind_keeps(alloc, &indexes, kinds, counters)?;
    Ok(kept)
}

/// Whether the records of each kind keep the rules, where these are the indexes and the counters.
fn each_kind_keeps(
    alloc: Global,
    indexes: &Indexes,
    kinds: &Kinds,
    counters: &Counters,
) -> Result<bool, Memory>
    requires { IndexesOf (collected kinds.now) indexes.now }
    ensures { IfOk result (λ kept. kept ≡ keep_rules_with (collected kinds.now) (counters.now ∷ [])) }
{
    if !counters::are_counters(counters)
        || !tables_keep(indexes, kinds)
        || !spaces_keep(indexes, kinds)
        || !versions_keep(indexes, kinds, counters.next_version)
        || !rows_keep(indexes, kinds, counters.next_stamp)
    {
        return Ok(false);
    }
    let kept = savepoints_keep(alloc, indexes, kinds, counters.work)?
        && pieces_keep(alloc, indexes, kinds, counters.next_stamp)?
        && hists_keep(alloc, indexes, kinds, counters.next_stamp)?
        && touches_keep(alloc, indexes, kinds)?
        && locks_keep(alloc, indexes, kinds, counters.work)?
        && marks_keep(alloc, indexes, kinds)?
        && turns_keep(alloc, indexes, kinds)?;
    Ok(kept)
}

/// Whether the tables keep their rules.
fn tables_keep(indexes: &Indexes, kinds: &Kinds) -> bool
    requires { IndexesOf (collected kinds.now) indexes.now }
    ensures { result ≡ are_tables (collected kinds.now).tables }
{
    indexes.tables.differ && tables::are_tables(kinds.tables.as_slice())
}

/// Whether the workspaces keep theirs.
fn spaces_keep(indexes: &Indexes, kinds: &Kinds) -> bool
    requires { IndexesOf (collected kinds.now) indexes.now }
    ensures { result ≡ are_spaces (collected kinds.now).spaces }
{
    indexes.spaces.differ && spaces::are_spaces(&indexes.spaces.index, kinds.spaces.as_slice())
}

/// Whether the versions keep theirs, where the next one is to have this number.
fn versions_keep(indexes: &Indexes, kinds: &Kinds, next: u64) -> bool
    requires { IndexesOf (collected kinds.now) indexes.now }
    ensures { result ≡ are_versions (collected kinds.now) next }
{
    let index = &indexes.versions.index;
    indexes.versions.differ
        && versions::each_is_version(
            &indexes.spaces.index,
            index,
            next,
            kinds.versions.as_slice(),
        )
        && versions::each_has_versions(&indexes.having, index, kinds.spaces.as_slice())
}

/// Whether the savepoints keep theirs, where so much work was counted.
fn savepoints_keep(
    alloc: Global,
    indexes: &Indexes,
    kinds: &Kinds,
    work: u64,
) -> Result<bool, Memory>
    requires { IndexesOf (collected kinds.now) indexes.now }
    ensures { IfOk result (λ kept. kept ≡ are_savepoints (collected kinds.now) work) }
{
    let spaces = &indexes.spaces.index;
    let list = kinds.savepoints.as_slice();
    if !savepoints::each_is_savepoint(spaces, &indexes.versions.index, work, list) {
        return Ok(false);
    }
    let kept = savepoints::stand_together(alloc, kinds.spaces.as_slice(), list)?;
    Ok(kept)
}

/// Whether the rows keep theirs, where the next stamp is this one.
fn rows_keep(indexes: &Indexes, kinds: &Kinds, next: u64) -> bool
    requires { IndexesOf (collected kinds.now) indexes.now }
    ensures { result ≡ are_rows (collected kinds.now) next }
{
    indexes.rows.differ && rows::each_is_row(&indexes.tables.index, next, kinds.rows.as_slice())
}

/// Whether the pieces keep theirs, where the next stamp is this one.
fn pieces_keep(alloc: Global, indexes: &Indexes, kinds: &Kinds, next: u64) -> Result<bool, Memory>
    requires { IndexesOf (collected kinds.now) indexes.now }
    ensures { IfOk result (λ kept. kept ≡ are_pieces (collected kinds.now) next) }
{
    let tables = &indexes.tables.index;
    let versions = &indexes.versions.index;
    let list = kinds.pieces.as_slice();
    if !pieces::each_is_piece(tables, versions, &indexes.rows.index, next, list) {
        return Ok(false);
    }
    let apart = pieces::are_apart(alloc, list)?;
    Ok(apart)
}

/// Whether the entries of logs keep theirs, where the next stamp is this one.
fn hists_keep(alloc: Global, indexes: &Indexes, kinds: &Kinds, next: u64) -> Result<bool, Memory>
    requires { IndexesOf (collected kinds.now) indexes.now }
    ensures { IfOk result (λ kept. kept ≡ are_hists (collected kinds.now) next) }
{
    let tables = &indexes.tables.index;
    let spaces = &indexes.spaces.index;
    let list = kinds.hists.as_slice();
    if !hists::each_is_hist(tables, spaces, &indexes.rows.index, next, list) {
        return Ok(false);
    }
    let differ = hists::positions_differ(alloc, list)?;
    Ok(differ)
}

/// Whether the touches keep theirs.
fn touches_keep(alloc: Global, indexes: &Indexes, kinds: &Kinds) -> Result<bool, Memory>
    requires { IndexesOf (collected kinds.now) indexes.now }
    ensures { IfOk result (λ kept. kept ≡ are_touches (collected kinds.now)) }
{
    let tables = &indexes.tables.index;
    let list = kinds.touches.as_slice();
    if !traces::each_is_touch(tables, &indexes.spaces.index, list) {
        return Ok(false);
    }
    let apart = traces::are_apart(alloc, list)?;
    Ok(apart)
}

/// Whether the locks keep theirs, where so much work was counted.
fn locks_keep(alloc: Global, indexes: &Indexes, kinds: &Kinds, work: u64) -> Result<bool, Memory>
    requires { IndexesOf (collected kinds.now) indexes.now }
    ensures { IfOk result (λ kept. kept ≡ are_locks (collected kinds.now) work) }
{
    let tables = &indexes.tables.index;
    let list = kinds.locks.as_slice();
    if !locks::each_is_lock(tables, &indexes.spaces.index, work, list) {
        return Ok(false);
    }
    let differ = locks::makings_differ(alloc, list)?;
    Ok(differ)
}

/// Whether the marks keep theirs.
fn marks_keep(alloc: Global, indexes: &Indexes, kinds: &Kinds) -> Result<bool, Memory>
    requires { IndexesOf (collected kinds.now) indexes.now }
    ensures { IfOk result (λ kept. kept ≡ are_marks (collected kinds.now)) }
{
    let tables = &indexes.tables.index;
    let list = kinds.marks.as_slice();
    if !traces::each_is_mark(tables, &indexes.spaces.index, list) {
        return Ok(false);
    }
    let apart = traces::are_apart(alloc, list)?;
    Ok(apart)
}

/// Whether the turns keep theirs.
fn turns_keep(alloc: Global, indexes: &Indexes, kinds: &Kinds) -> Result<bool, Memory>
    requires { IndexesOf (collected kinds.now) indexes.now }
    ensures { IfOk result (λ kept. kept ≡ are_turns (collected kinds.now)) }
{
    let spaces = kinds.spaces.as_slice();
    let kept = turns::are_turns(alloc, &indexes.spaces.index, spaces, kinds.turns.as_slice())?;
    Ok(kept)
}
