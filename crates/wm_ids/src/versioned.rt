//! The ids of pieces by table and key, version by version.

ghost use Rattle.std.specs.Prelude.{◌≡◌, ◌<◌, ◌≤◌, ◌==◌, ◌&&◌, List, [], ◌∷◌, drop, length, nat_le, take, IfErr, IfOk, OnOk};
ghost use Rattle.std.specs.List.{AllByRecursion};
ghost use Rattle.std.specs.List.Sorted.{IsStrictlySortedBy};
ghost use Rattle.std.specs.Ordering.{is_eq, nat_cmp};
ghost use Rattle.wm_base.specs.Key.{key_order};
ghost use Rattle.wm_base.specs.declared.value.Value.{Value};
ghost use Rattle.wm_ids.specs.Ids.{placed, without};
ghost use Rattle.wm_chunks.specs.Rising.{FitsAt, StandsAt};
ghost use Rattle.wm_ids.specs.Versioned.{AreNested, ChangedOn, ChangedWhere, HasLess, HasMore, IsWithin, VersionsRise, Widens, entry_version, ids_under, versions_in, versions_on, widened, widened_from};
ghost use Rattle.wm_ids.specs.declared.versioned.Versioned.{Versioned};

use crate::id_list::IdList;
use std::alloc::Global;
use std::collections::BTreeMap;
use wm_base::{Key, Memory};
use wm_spec::record::PieceRecord;

/// The ids of the pieces that a version has of one key, in ascending order, with a period in which all their cells lie,
/// and those of all older versions too (in seconds).
#[derive(Drop)]
pub struct Versioned {
    pub version: u64,
    pub from: u64,
    pub till: u64,
    pub ids: IdList,
}

/// By key: what each version has that has pieces there, the oldest version first.
pub type KeyVersions = BTreeMap<Key, Vec<Versioned>>;

/// By table and key: what each version has that has pieces there, the oldest version first.
pub type PieceIds = BTreeMap<u16, KeyVersions>;

/// What each version has of a key.
fn versions_of<'a>(keys: &'a KeyVersions, key: &Key) -> &'a [Versioned]
    ensures { result.now ≡ versions_in keys.now.entries key.now }
{
    match keys.get(key) {
        Some(versions) => versions.as_slice(),
        None => &[],
    }
}

/// What each version has of a key of a table, the oldest version first.
pub fn versions_of_key<'a>(tables: &'a PieceIds, table: u16, key: &Key) -> &'a [Versioned]
    ensures { result.now ≡ versions_on tables.now.entries table key.now }
{
    match tables.get(&table) {
        Some(keys) => versions_of(keys, key),
        None => &[],
    }
}

/// Where a version stands among those that rise, or else where it may be put, by halving.
fn search_version(versions: &[Versioned], version: u64) -> Result<usize, usize>
    requires { VersionsRise versions.now }
    ensures found { IfOk result (λ place. StandsAt entry_version version versions.now place) }
    ensures within { IfOk result (λ place. place < length versions.now) }
    ensures fits { IfErr result (λ place. FitsAt entry_version version versions.now place) }
    ensures between { IfErr result (λ place. place ≤ length versions.now) }
{
    versions.binary_search_by(|one| one.version.cmp(&version))
}

/// Where a version stands among those that rise, or else where it may be put. Most are the newest, or newer.
fn find_version(versions: &[Versioned], version: u64) -> Result<usize, usize>
    requires { VersionsRise versions.now }
    ensures found { IfOk result (λ place. StandsAt entry_version version versions.now place) }
    ensures within { IfOk result (λ place. place < length versions.now) }
    ensures fits { IfErr result (λ place. FitsAt entry_version version versions.now place) }
    ensures between { IfErr result (λ place. place ≤ length versions.now) }
{
    if versions.is_empty() {
        return Err(0);
    }
    let last = versions.len() - 1;
    let newest = versions[last].version;
    if newest < version {
        return Err(versions.len());
    }
    if newest == version {
        return Ok(last);
    }
    search_version(versions, version)
}

/// The ids of the pieces that a version has of a key of a table.
pub fn ids_of_version<'a>(tables: &'a PieceIds, table: u16, key: &Key, version: u64) -> &'a [u64]
    requires { VersionsRise (versions_on tables.now.entries table key.now) }
    ensures { result.now ≡ ids_under (versions_on tables.now.entries table key.now) version }
{
    let versions = versions_of_key(tables, table, key);
    match find_version(versions, version) {
        Ok(place) => versions[place].ids.as_slice(),
        Err(_) => &[],
    }
}

/// A period that holds the cells of a piece and those of the versions before a place, and no more than each version
/// from there on holds with the cells.
fn span_at(versions: &[Versioned], place: usize, piece: &PieceRecord) -> (u64, u64)
    requires widens { Widens versions.now }
    requires within { place ≤ length versions.now }
    ensures older { AllByRecursion (λ (e : Versioned). (result.0 ≤ e.from) × (e.till ≤ result.1)) (take place versions.now) }
    ensures newer { AllByRecursion (IsWithin piece.now result.0 result.1) (drop place versions.now) }
    ensures from { result.0 ≤ piece.now.cells.from }
    ensures till { piece.now.cells.till ≤ result.1 }
{
    let cells = &piece.cells;
    if place == 0 {
        return (cells.from, cells.till);
    }
    let before = &versions[place - 1];
    let from = before.from.min(cells.from);
    let till = before.till.max(cells.till);
    (from, till)
}

/// What a version has with one piece, in a period.
fn with_one(id: u64, version: u64, span: (u64, u64)) -> Versioned
    ensures version { result.version ≡ version }
    ensures from { result.from ≡ span.0 }
    ensures till { result.till ≡ span.1 }
    ensures ids { result.ids ≡ id ∷ [] }
{
    Versioned {
        version,
        from: span.0,
        till: span.1,
        ids: IdList::one(id),
    }
}

/// Puts an id among those of a version.
fn add_own(alloc: Global, one: &mut Versioned, id: u64) -> Result<(), Memory>
    requires { IsStrictlySortedBy nat_cmp one.old.ids }
    ensures version { OnOk result (one.new.version ≡ one.old.version) }
    ensures from { OnOk result (one.new.from ≡ one.old.from) }
    ensures till { OnOk result (one.new.till ≡ one.old.till) }
    ensures ids { OnOk result (one.new.ids ≡ placed id one.old.ids) }
{
    one.ids.add(alloc, id)
}

/// Whether the period of a version holds the cells of a piece.
fn holds(one: &Versioned, piece: &PieceRecord) -> bool
    ensures { result ≡ (nat_le one.now.from piece.now.cells.from && nat_le piece.now.cells.till one.now.till) }
{
    one.from <= piece.cells.from && piece.cells.till <= one.till
}

/// Widens the period of a version by the cells of a piece.
fn widen(one: &mut Versioned, piece: &PieceRecord)
    ensures { one.new ≡ widened piece.now one.old }
{
    one.from = one.from.min(piece.cells.from);
    one.till = one.till.max(piece.cells.till);
}

/// Widens the periods of the versions from a place on by the cells of a piece. Each holds all those before it, so
/// behind one that holds the cells each does.
fn widen_from(versions: &mut [Versioned], place: usize, piece: &PieceRecord)
    requires { Widens (drop place versions.old) }
    ensures { versions.new ≡ widened_from piece.now place versions.old }
{
    for index in place..versions.len() {
        if holds(&versions[index], piece) {
            return;
        }
        widen(&mut versions[index], piece);
    }
}

/// Puts the id of a piece among those of its version.
fn add_version_id(
    alloc: Global,
    versions: &mut Vec<Versioned>,
    id: u64,
    piece: &PieceRecord,
) -> Result<(), Memory>
    requires nested { AreNested versions.old.items }
    requires ascend { IsStrictlySortedBy nat_cmp (ids_under versions.old.items piece.now.version) }
    ensures { OnOk result (HasMore id piece.now versions.old.items versions.new.items) }
{
    match find_version(versions.as_slice(), piece.version) {
        Ok(place) => {
            add_own(alloc, &mut versions[place], id)?;
            widen_from(versions.as_mut_slice(), place, piece);
            Ok(())
        }
        Err(place) => {
            let span = span_at(versions.as_slice(), place, piece);
            let one = with_one(id, piece.version, span);
            versions.insert(place, one)?;
            widen_from(versions.as_mut_slice(), place + 1, piece);
            Ok(())
        }
    }
}

/// Takes an id from those of a version, and tells whether that has none left.
fn empties(one: &mut Versioned, id: u64) -> bool
    requires { IsStrictlySortedBy nat_cmp one.old.ids }
    ensures version { one.new.version ≡ one.old.version }
    ensures from { one.new.from ≡ one.old.from }
    ensures till { one.new.till ≡ one.old.till }
    ensures ids { one.new.ids ≡ without id one.old.ids }
    ensures empty { result ≡ (length one.new.ids == 0) }
{
    one.ids.remove(id);
    one.ids.is_empty()
}

/// Takes an id from those of a version. A version that has none left goes.
fn drop_version_id(versions: &mut Vec<Versioned>, version: u64, id: u64)
    requires nested { AreNested versions.old.items }
    requires ascend { IsStrictlySortedBy nat_cmp (ids_under versions.old.items version) }
    ensures { HasLess id version versions.old.items versions.new.items }
{
    let Ok(place) = find_version(versions.as_slice(), version) else {
        return;
    };
    if empties(&mut versions[place], id) {
        versions.remove(place);
    }
}

/// Puts the id of a piece under its key. Most keys have one piece, so a new one has room for one version.
fn add_key_id(
    alloc: Global,
    keys: &mut KeyVersions,
    id: u64,
    piece: &PieceRecord,
) -> Result<(), Memory>
    requires nested { AreNested (versions_in keys.old.entries piece.now.cells.key) }
    requires ascend { IsStrictlySortedBy nat_cmp (ids_under (versions_in keys.old.entries piece.now.cells.key) piece.now.version) }
    ensures { OnOk result ((k : List Value) → ChangedWhere (HasMore id piece.now) (is_eq (key_order piece.now.cells.key k)) (versions_in keys.old.entries k) (versions_in keys.new.entries k)) }
{
    let key = piece.cells.key.copy(alloc)?;
    let room = Vec::with_capacity(alloc, 1)?;
    let versions = keys.entry(key)?.or_insert(room);
    add_version_id(alloc, versions, id, piece)
}

/// Takes the id of a piece from under its key. A key that has none left goes.
fn drop_key_id(keys: &mut KeyVersions, id: u64, piece: &PieceRecord)
    requires nested { AreNested (versions_in keys.old.entries piece.now.cells.key) }
    requires ascend { IsStrictlySortedBy nat_cmp (ids_under (versions_in keys.old.entries piece.now.cells.key) piece.now.version) }
    ensures { (k : List Value) → ChangedWhere (HasLess id piece.now.version) (is_eq (key_order piece.now.cells.key k)) (versions_in keys.old.entries k) (versions_in keys.new.entries k) }
{
    let key = &piece.cells.key;
    let Some(versions) = keys.get_mut(key) else {
        return;
    };
    drop_version_id(versions, piece.version, id);
    if versions.is_empty() {
        drop(keys.remove(key));
    }
}

/// Puts the id of a piece under its table, key and version.
pub fn add_piece_id(
    alloc: Global,
    tables: &mut PieceIds,
    id: u64,
    piece: &PieceRecord,
) -> Result<(), Memory>
    requires nested { AreNested (versions_on tables.old.entries piece.now.cells.table piece.now.cells.key) }
    requires ascend { IsStrictlySortedBy nat_cmp (ids_under (versions_on tables.old.entries piece.now.cells.table piece.now.cells.key) piece.now.version) }
    ensures { OnOk result (ChangedOn (HasMore id piece.now) tables.old.entries tables.new.entries piece.now.cells.table piece.now.cells.key) }
{
    let table = piece.cells.table;
    let keys = tables.entry(table)?.or_insert(BTreeMap::new(alloc));
    add_key_id(alloc, keys, id, piece)
}

/// Takes the id of a piece from under its table, key and version.
pub fn drop_piece_id(tables: &mut PieceIds, id: u64, piece: &PieceRecord)
    requires nested { AreNested (versions_on tables.old.entries piece.now.cells.table piece.now.cells.key) }
    requires ascend { IsStrictlySortedBy nat_cmp (ids_under (versions_on tables.old.entries piece.now.cells.table piece.now.cells.key) piece.now.version) }
    ensures { ChangedOn (HasLess id piece.now.version) tables.old.entries tables.new.entries piece.now.cells.table piece.now.cells.key }
{
    if let Some(keys) = tables.get_mut(&piece.cells.table) {
        drop_key_id(keys, id, piece);
    }
}
