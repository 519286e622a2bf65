//! All records of a store, found by what they are.
ghost use Rattle.std.specs.Prelude.{◌≡◌, ◌<◌, ◌≤◌, ◌+◌, ◌^◌, ◌==◌, ◌||◌, nat_lt, ℕ, not, length, map, List, [], ◌∷◌, true, false, None, is_some, IsSome, IfSome, IfNone, IfOk, IfErr, OnOk, OnErr};
ghost use Rattle.std.specs.List.{count_by, find, list_all, list_any};
ghost use Rattle.wm_spec.specs.declared.record.stored.Stored.{Stored};
ghost use Rattle.std.specs.Option.{option_and_then, option_copied, option_map, option_map_or, option_to_list, unwrap_or};
ghost use Rattle.std.specs.Str.{bytes_eq};
ghost use Rattle.wm_spec.specs.declared.record.table.Table.{Table as OneTable};
ghost use Rattle.wm_spec.specs.declared.record.version.Version.{Version as OneVersion};
ghost use Rattle.wm_graph.specs.Parts.{as_counters, as_hist, as_space, as_table, parts_of, row_of, space_of, table_of, version_of};
ghost use Rattle.wm_graph.specs.Rules.{keep_rules};
ghost use Rattle.wm_spec.specs.Records.{AreRecords, record_at};
ghost use Rattle.wm_ids.specs.Ids.{set_found};
ghost use Rattle.wm_ids.specs.Versioned.{AreNested, AreSpanned};
ghost use Rattle.wm_index.specs.Hists.{AreByPosition, logged_on};
ghost use Rattle.wm_index.specs.Kinds.{kind_at};
ghost use Rattle.wm_index.specs.Sought.{MarksAt, MarksIn, OwnedBy, PieceAt, PiecesIn, TouchesAt, ids_with, is_sought, is_touch_since};
ghost use Rattle.wm_state.specs.ById.{Ascend, applied, by_id};
ghost use Rattle.wm_records.specs.Hops.{IsHop};
ghost use Rattle.wm_image.specs.Shown.{AreKeysOf, HoldKey, is_child_from, is_saved_behind, names, rests_on};
ghost use Rattle.wm_spec.specs.declared.record.savepoint.Savepoint.{Savepoint as OneSavepoint};
ghost use Rattle.wm_spec.specs.declared.record.space.Space.{Space as OneSpace};
ghost use Rattle.wm_state.specs.Drafts.{is_turn};
ghost use Rattle.wm_state.specs.Effects.{IsFree};
ghost use Rattle.wm_state.specs.Firsts.{first_recorded};
ghost use Rattle.wm_state.specs.Reading.{first_from};
ghost use Rattle.wm_state.specs.Standing.{by_number, latest, saved_as, saved_fields, saved_in, space_after, turn_at};
ghost use Rattle.wm_state.specs.State.{next_table};

use crate::children::{Behind, any_behind, least_child};
use crate::load::{ImageFault, put_with_catalog, sorted};
use crate::savepoints::soonest;
use crate::shown::{latest_of, turn_of};
use std::alloc::Global;
use std::collections::BTreeSet;
use std::marker::Model;
use wm_base::{Key, Memory};
use wm_catalog::Catalog;
use wm_chunks::NumberMap;
use wm_ids::ids::{are_empty, first_id};
use wm_ids::keyed::{ids_of, ids_on, ids_since, last_key};
use wm_ids::rows::ids_of_stamp;
use wm_ids::versioned::{KeyVersions, Versioned, ids_of_version, versions_of_key};
use wm_index::hists::ids_by_position;
use wm_index::index::Index;
use wm_index::kinds;
use wm_index::records::{Kept, at, first, next_id};
use wm_index::savepoints::{making_after, savepoint_in, savepoint_of_name};
use wm_index::spaces::{number_after, space_of_name};
use wm_index::tables::{id_named, table_of_number};
use wm_index::versions::version_at;
use wm_records::hops::{Hop, Hops};
use wm_records::records::{apply_all, clear_all};
use wm_records::tables::after_last;
use wm_rules::keeps_rules;
use wm_spec::record::{
    Batch, Counters, Record, Records, RowRecord, Savepoint, Space, Table, Turn, Version,
};

/// All records of a store, in the order of their ids, with an index of them, the hops of the versions (the long steps
/// down their paths) and a catalog of the tables.
#[derive(Drop)]
pub struct Image {
    kept: Kept,
    pub(crate) index: Index,
    hops: Hops,
    catalog: Catalog,
}

impl Model for Image {
    ghost use Rattle.std.specs.Prelude.{List};
    ghost use Rattle.wm_index.specs.Indexed.{listed, IsIndexed};
    ghost use Rattle.wm_graph.specs.Parts.{parts_of};
    ghost use Rattle.wm_records.specs.Cataloged.{IsCatalog};
    ghost use Rattle.wm_records.specs.Hops.{AreHops};
    ghost use Rattle.wm_spec.specs.declared.record.stored.Stored.{Stored};

    ghost Value = { List Stored };

    ghost view = { λ i. listed i.kept.entries };

    ghost invariant = { λ i. IsIndexed i.kept i.index × IsCatalog (listed i.kept.entries) i.catalog × AreHops (parts_of (listed i.kept.entries)).versions i.hops };
}

impl Image {
    /// No records.
    pub fn new(alloc: Global) -> Image
        ensures { result ≡ [] }
    {
        Image {
            kept: NumberMap::new(alloc),
            index: Index::new(alloc),
            hops: Hops::new(alloc),
            catalog: Catalog::new(alloc),
        }
    }

    /// The image of the records that a store holds.
    pub fn load(alloc: Global, records: Records) -> Result<Image, ImageFault>
        ensures image { IfOk result (λ image. image ≡ by_id records) }
        ensures differ { IfOk result (λ image. AreRecords records) }
        ensures rules { IfOk result (λ image. keep_rules (parts_of image) ≡ true) }
        ensures graph { IfErr result (λ fault. fault ≡ ImageFault.Graph → AreRecords records → keep_rules (parts_of (by_id records)) ≡ false) }
    {
        let records = sorted(records)?;
        let kept = keeps_rules(alloc, &records)?;
        if !kept {
            return Err(ImageFault::Graph);
        }
        let image = Image::of(alloc, records)?;
        Ok(image)
    }

    /// The image of records that stand by id.
    fn of(alloc: Global, records: Records) -> Result<Image, Memory>
        requires { Ascend records }
        ensures { IfOk result (λ image. image ≡ records) }
    {
        let mut kept = NumberMap::new(alloc);
        let mut index = Index::new(alloc);
        let mut hops = Hops::new(alloc);
        match put_with_catalog(alloc, &mut kept, &mut index, &mut hops, records) {
            Ok(catalog) => Ok(Image {
                kept,
                index,
                hops,
                catalog,
            }),
            Err(fault) => {
                drop(kept);
                drop(index);
                drop(hops);
                Err(fault)
            }
        }
    }

    /// The counters of the store.
    pub fn counters(&self) -> Counters
        requires { keep_rules (parts_of self.now) ≡ true }
        ensures { (parts_of self.now).counters ≡ result ∷ [] }
    {
        let found = kinds::counters_of(first(&self.kept, self.index.counters.as_slice()));
        found.unwrap()
    }

    /// How many tables there are.
    pub fn table_count(&self) -> usize
        ensures { result ≡ length (parts_of self.now).tables }
    {
        self.index.tables.len()
    }

    /// The number after the greatest of a table, 0 where there is none.
    pub fn next_table(&self) -> u32
        ensures { result ≡ next_table (by_number (parts_of self.now).tables) }
    {
        after_last(&self.kept, self.index.tables.as_slice())
    }

    /// The table of a name.
    pub fn table(&self, name: &[u8]) -> Option<&Table>
        requires { keep_rules (parts_of self.now) ≡ true }
        ensures { option_copied result ≡ find (λ (t : OneTable). bytes_eq name.now t.name) (by_number (parts_of self.now).tables) }
    {
        self.catalog.find(name)
    }

    /// The table of a number.
    pub fn table_numbered(&self, number: u16) -> Option<&Table>
        ensures { option_copied result ≡ table_of (parts_of self.now).tables number }
    {
        table_of_number(&self.kept, self.index.tables.as_slice(), number)
    }

    /// The id after the greatest of a record, 1 where there is none; None where the greatest id of all has a record.
    pub fn next_id(&self) -> Option<u64>
        ensures above { IfSome result (λ next. (id : ℕ) → next ≤ id → record_at self.now id ≡ None) }
        ensures lowest { IfSome result (λ next. (id : ℕ) → next ≡ id + 1 → 0 < id → IsSome (record_at self.now id)) }
        ensures full { IfNone result ((id : ℕ) × (2 ^ 64 ≤ id + 1) × IsSome (record_at self.now id)) }
        ensures ascend { Ascend self.now }
    {
        next_id(&self.kept)
    }

    /// The id of the counters.
    pub fn id_of_counters(&self) -> u64
        requires { keep_rules (parts_of self.now) ≡ true }
        ensures there { (parts_of self.now).counters ≡ option_to_list (option_and_then as_counters (record_at self.now result)) }
        ensures ascend { Ascend self.now }
    {
        let found = first_id(self.index.counters.as_slice());
        found.unwrap()
    }

    /// The id of the table of a name.
    pub fn id_of_table(&self, name: &[u8]) -> Option<u64>
        requires { keep_rules (parts_of self.now) ≡ true }
        ensures there { option_and_then as_table (option_and_then (record_at self.now) result) ≡ find (λ (t : OneTable). bytes_eq name.now t.name) (by_number (parts_of self.now).tables) }
        ensures found { is_some result ≡ is_some (find (λ (t : OneTable). bytes_eq name.now t.name) (by_number (parts_of self.now).tables)) }
    {
        id_named(&self.kept, self.index.tables.as_slice(), name)
    }

    /// The id of the workspace of a number.
    pub fn id_of_space(&self, number: u32) -> Option<u64>
        ensures there { option_and_then as_space (option_and_then (record_at self.now) result) ≡ space_of (parts_of self.now).spaces number }
        ensures found { is_some result ≡ is_some (space_of (parts_of self.now).spaces number) }
    {
        first_id(ids_of(&self.index.spaces, &number))
    }

    /// The workspace of a number.
    pub fn space(&self, number: u32) -> Option<&Space>
        ensures { option_copied result ≡ space_of (parts_of self.now).spaces number }
    {
        kinds::space_of(first(&self.kept, ids_of(&self.index.spaces, &number)))
    }

    /// The workspace of a name.
    pub fn space_named(&self, name: &[u8]) -> Option<&Space>
        ensures { option_copied result ≡ find (λ (r : OneSpace). bytes_eq name.now r.name) (parts_of self.now).spaces }
    {
        space_of_name(&self.kept, self.index.all_spaces.as_slice(), name)
    }

    /// The ids of the workspaces.
    pub fn spaces(&self) -> &[u64]
        ensures { kind_at as_space self.now result.now ≡ (parts_of self.now).spaces }
    {
        self.index.all_spaces.as_slice()
    }

    /// How many workspaces there are.
    pub fn space_count(&self) -> usize
        ensures { result ≡ length (parts_of self.now).spaces }
    {
        self.index.all_spaces.len()
    }

    /// The number after the greatest of a workspace, 0 where there is none.
    pub fn next_space(&self) -> u64
        ensures { result ≡ space_after (parts_of self.now).spaces }
    {
        number_after(last_key(&self.index.spaces))
    }

    /// Of the children of a workspace that were born at a place of it from this one on, or whose copy of it has so much
    /// of its log: the one of the least number.
    pub fn child_from(&self, parent: u32, place: u64, log_length: u64) -> Option<&Space>
        requires { keep_rules (parts_of self.now) ≡ true }
        ensures { option_copied result ≡ first_recorded (is_child_from parent place log_length) (parts_of self.now).spaces }
    {
        let behind = Behind {
            space: parent,
            place,
            log_length,
        };
        least_child(&self.kept, self.index.all_spaces.as_slice(), behind)
    }

    /// The savepoint of a workspace and a name.
    pub fn savepoint_named(&self, space: u32, name: &[u8]) -> Option<&Savepoint>
        requires { keep_rules (parts_of self.now) ≡ true }
        ensures { option_copied result ≡ find (λ (x : OneSavepoint). bytes_eq name.now x.name) (saved_in (parts_of self.now) space) }
    {
        savepoint_of_name(&self.kept, ids_of(&self.index.savepoints_of, &space), name)
    }

    /// The savepoint of a workspace and a making.
    pub fn savepoint(&self, space: u32, making: u64) -> Option<&Savepoint>
        ensures { option_copied result ≡ saved_as (parts_of self.now) space making }
    {
        savepoint_in(&self.kept, ids_of(&self.index.savepoints, &making), space)
    }

    /// The first savepoint of a workspace whose place was made on a date or later: the one at the least place, and of
    /// these the one made first.
    pub fn savepoint_from(&self, space: u32, date: u64) -> Option<&Savepoint>
        ensures { option_map saved_fields (option_copied result) ≡ first_from date (map saved_fields (saved_in (parts_of self.now) space)) }
    {
        soonest(&self.kept, ids_of(&self.index.savepoints_of, &space), date)
    }

    /// How many savepoints a workspace has.
    pub fn savepoint_count(&self, space: u32) -> usize
        ensures { result ≡ count_by (λ (x : OneSavepoint). x.space == space) (parts_of self.now).savepoints }
    {
        ids_of(&self.index.savepoints_of, &space).len()
    }

    /// Whether a workspace has a savepoint at a later place than this one, or one that had more of the log.
    pub fn has_savepoint_behind(&self, space: u32, place: u32, log_length: u64) -> bool
        ensures { result ≡ list_any (is_saved_behind space place log_length) (parts_of self.now).savepoints }
    {
        let behind = Behind {
            space,
            place: u64::from(place),
            log_length,
        };
        let ids = ids_of(&self.index.savepoints_of, &space);
        any_behind(&self.kept, ids, behind)
    }

    /// The making after the greatest of a savepoint, 1 where there is none.
    pub fn next_making(&self) -> u64
        requires { keep_rules (parts_of self.now) ≡ true }
        ensures above { list_all (λ (x : OneSavepoint). nat_lt x.making result) (parts_of self.now).savepoints ≡ true }
        ensures none { (parts_of self.now).savepoints ≡ [] → result ≡ 1 }
        ensures last { (x : OneSavepoint) (xs : List OneSavepoint) → (parts_of self.now).savepoints ≡ x ∷ xs → list_any (λ (y : OneSavepoint). (y.making + 1) == result) (parts_of self.now).savepoints ≡ true }
    {
        making_after(last_key(&self.index.savepoints))
    }

    /// The version of a number.
    pub fn version(&self, number: u64) -> Option<Version>
        ensures { result ≡ version_of (parts_of self.now).versions number }
    {
        version_at(&self.kept, &self.index, number)
    }

    /// The ways down from a version, where they are known.
    pub fn hop(&self, number: u64) -> Option<Hop>
        ensures { IfSome result (λ hop. IsHop (parts_of self.now).versions number hop) }
    {
        self.hops.hop(number)
    }

    /// The newest version of a workspace, 0 where it has none.
    pub fn latest(&self, space: u32) -> u64
        ensures { result ≡ latest (parts_of self.now) space }
    {
        latest_of(&self.kept, &self.index, space)
    }

    /// Whether no version stands under this one.
    pub fn is_leaf(&self, version: u64) -> bool
        ensures { result ≡ not (list_any (λ (v : OneVersion). v.parent == version) (parts_of self.now).versions) }
    {
        ids_of(&self.index.versions_under, &version).is_empty()
    }

    /// Whether no savepoint keeps a version, and no workspace with a parent was born from it or sees it under its own,
    /// nor does a savepoint of such a workspace.
    pub fn is_free(&self, version: u64) -> bool
        ensures exact { result ≡ not (list_any (λ (x : OneSavepoint). x.version == version) (parts_of self.now).savepoints || (list_any (rests_on version) (parts_of self.now).savepoints || list_any (names version) (parts_of self.now).spaces)) }
        ensures free { result ≡ true → IsFree (parts_of self.now) version }
    {
        are_empty(
            ids_of(&self.index.kept_as, &version),
            ids_of(&self.index.kept_under, &version),
            ids_of(&self.index.born_as, &version),
            ids_of(&self.index.seen_under, &version),
        )
    }

    /// What versions have of the pieces for a key of a table, the oldest version first.
    pub fn versions_of(&self, table: u16, key: &Key) -> &[Versioned]
        ensures nested { AreNested result.now }
        ensures spanned { AreSpanned self.now result.now }
        ensures held { HoldKey self.now table key.now result.now }
    {
        versions_of_key(&self.index.pieces, table, key)
    }

    /// What versions have of the pieces of a table, by key; None where it never had one.
    pub fn keys_of(&self, table: u16) -> Option<&KeyVersions>
        ensures { AreKeysOf self.now table (unwrap_or (option_map (λ keys. keys.entries) (option_copied result)) []) }
    {
        self.index.pieces.get(&table)
    }

    /// The ids of the pieces that a version has for a key of a table, in order.
    pub fn pieces_at(&self, table: u16, key: &Key, version: u64) -> &[u64]
        ensures { result.now ≡ ids_with (is_sought (PieceAt table key.now version)) self.now }
    {
        ids_of_version(&self.index.pieces, table, key, version)
    }

    /// The ids of the touches for a key of a table, of any workspace and place, in order.
    pub fn touches_of(&self, table: u16, key: &Key) -> &[u64]
        ensures { result.now ≡ ids_with (is_sought (TouchesAt table key.now)) self.now }
    {
        ids_on(&self.index.touches, table, key)
    }

    /// The ids of the marks for a key of a table, of any workspace and place, in order.
    pub fn marks_of(&self, table: u16, key: &Key) -> &[u64]
        ensures { result.now ≡ ids_with (is_sought (MarksAt table key.now)) self.now }
    {
        ids_on(&self.index.marks, table, key)
    }

    /// The ids of the marks of a workspace, in order.
    pub fn marks_in(&self, space: u32) -> &[u64]
        ensures { result.now ≡ ids_with (is_sought (MarksIn space)) self.now }
    {
        ids_of(&self.index.marks_in, &space)
    }

    /// The ids of the pieces of a version, in order; None where it has none.
    pub fn pieces_in(&self, version: u64) -> Option<&BTreeSet<u64>>
        ensures { set_found (option_copied result) ≡ ids_with (is_sought (PiecesIn version)) self.now }
    {
        self.index.pieces_in.get(&version)
    }

    /// The ids of all records that are a workspace's own, in order: of the workspace itself too; None where there are
    /// none.
    pub fn records_of(&self, space: u32) -> Option<&BTreeSet<u64>>
        ensures { set_found (option_copied result) ≡ ids_with (is_sought (OwnedBy space)) self.now }
    {
        self.index.owned.get(&space)
    }

    /// The ids of the touches of a workspace whose last entry stands in its log at a position or behind it.
    pub fn touches_since(&self, alloc: Global, space: u32, from: u64) -> Result<Vec<u64>, Memory>
        ensures { IfOk result (λ ids. (id : ℕ) → list_any (λ k. k == id) ids.items ≡ option_map_or (is_touch_since space from) (record_at self.now id) false) }
    {
        let ids = ids_since(alloc, &self.index.touched_at, space, from)?;
        Ok(ids)
    }

    /// The ids of the entries of the log of a workspace on a table, by position. No other entry is looked at.
    pub fn hists(&self, alloc: Global, space: u32, table: u16) -> Result<Vec<u64>, Memory>
        ensures { IfOk result (λ ids. AreByPosition (kind_at as_hist self.now ids.items) (logged_on space table (parts_of self.now).hists)) }
    {
        let Some(log) = self.index.hists_on.get(&(space, table)) else {
            return Ok(Vec::new(alloc));
        };
        let ids = ids_by_position(alloc, &self.kept, log)?;
        Ok(ids)
    }

    /// Whether a workspace has a turn of a number.
    pub fn has_turn(&self, space: u32, number: u32) -> bool
        ensures { result ≡ list_any (is_turn space number) (parts_of self.now).turns }
    {
        !ids_of(&self.index.turns_at, &(space, number)).is_empty()
    }

    /// The turn of a workspace of a number: its birth for 0, and then each rebase.
    pub fn turn(&self, space: u32, number: u32) -> Option<&Turn>
        ensures { option_copied result ≡ turn_at (parts_of self.now).turns space number }
    {
        turn_of(first(&self.kept, ids_of(&self.index.turns_at, &(space, number))))
    }

    /// The row of a stamp.
    pub fn row(&self, stamp: u64) -> Option<&RowRecord>
        ensures { option_copied result ≡ row_of (parts_of self.now).rows stamp }
    {
        kinds::row_of(first(&self.kept, ids_of_stamp(&self.index.rows, stamp)))
    }

    /// The record of an id.
    pub fn record(&self, id: u64) -> Option<&Record>
        ensures { option_copied result ≡ record_at self.now id }
    {
        at(&self.kept, id)
    }

    /// For its law alone: the records stand in the order of their ids.
    pub fn law_of_order(&self)
        ensures { Ascend self.now }
    {
        let _kept = &self.kept;
    }

    /// Makes of the records what a batch makes of them. Where memory runs out no record is left.
    pub fn apply(&mut self, alloc: Global, batch: Batch) -> Result<(), Memory>
        ensures ok { OnOk result (self.new ≡ applied batch.changes self.old) }
        ensures err { OnErr result (self.new ≡ []) }
    {
        let made = apply_all(
            alloc,
            &mut self.kept,
            &mut self.index,
            &mut self.hops,
            &mut self.catalog,
            batch.changes,
        );
        if made.is_err() {
            clear_all(
                alloc,
                &mut self.kept,
                &mut self.index,
                &mut self.hops,
                &mut self.catalog,
            );
        }
        made
    }
}
