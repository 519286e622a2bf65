//! The ids of the records, by what is sought.

ghost use Rattle.std.specs.Prelude.{◌≡◌, [], OnOk};
ghost use Rattle.wm_ids.specs.Versioned.{AllNested, Gains, Loses};
ghost use Rattle.wm_index.specs.Indexed.{Adds, Drops, IdsAscend, ids_at};
ghost use Rattle.wm_index.specs.Sought.{Sought};
ghost use Rattle.wm_spec.specs.declared.record.Record.TheVariants as records;

use std::alloc::Global;
use std::collections::{BTreeMap, BTreeSet};
use wm_base::Memory;
use wm_ids::ids::{add_id, drop_id};
use wm_ids::keyed::{
    Ids, NumberIds, Positions, TableIds, add_at, add_in, add_on, add_to, drop_at, drop_from,
    drop_in, drop_on,
};
use wm_ids::rows::{RowIds, add_row, drop_row, no_rows};
use wm_ids::sets::{IdSets, add_among, drop_among};
use wm_ids::versioned::{PieceIds, add_piece_id, drop_piece_id};
use wm_spec::record::{Hist, Lock, PieceRecord, Record, Savepoint, Space, Trace, Turn, Version};

/// Ids in ascending order: of the counters, the tables and the workspaces; of workspaces and versions by number; of
/// the versions of a workspace, by number, and of those under a version; of the savepoints of a workspace, by making,
/// of those that keep a version, and of those of workspaces with a parent that see a version under their workspace's
/// own; of the workspaces with a parent that were born from a version, or see it under their own; of rows by stamp;
/// of pieces by table, key and version; of touches and of marks by table and key; of the pieces of a version; of the
/// records that are a workspace's own, and of its marks alone; of touches by workspace and position, of turns by
/// workspace and number, and of entries of logs by workspace and table; of locks by table and key, by workspace, and by
/// making.
#[derive(Drop)]
pub struct Index {
    pub counters: Vec<u64>,
    pub tables: Vec<u64>,
    pub all_spaces: Vec<u64>,
    pub spaces: Ids<u32>,
    pub versions: Ids<u64>,
    pub versions_in: NumberIds,
    pub versions_under: Ids<u64>,
    pub savepoints_of: Ids<u32>,
    pub savepoints: Ids<u64>,
    pub kept_as: Ids<u64>,
    pub kept_under: Ids<u64>,
    pub born_as: Ids<u64>,
    pub seen_under: Ids<u64>,
    pub rows: RowIds,
    pub pieces: PieceIds,
    pub touches: TableIds,
    pub marks: TableIds,
    pub pieces_in: IdSets<u64>,
    pub owned: IdSets<u32>,
    pub marks_in: Ids<u32>,
    pub touched_at: Positions,
    pub turns_at: Ids<(u32, u32)>,
    pub hists_on: IdSets<(u32, u16)>,
    pub locks: TableIds,
    pub locks_of: IdSets<u32>,
    pub lock_makings: Ids<u64>,
}

impl Index {
    /// The index of no records.
    pub fn new(alloc: Global) -> Index
        ensures ids { (q : Sought) → ids_at result q ≡ [] }
        ensures pieces { result.pieces.entries ≡ [] }
    {
        Index {
            counters: Vec::new(alloc),
            tables: Vec::new(alloc),
            all_spaces: Vec::new(alloc),
            spaces: BTreeMap::new(alloc),
            versions: BTreeMap::new(alloc),
            versions_in: BTreeMap::new(alloc),
            versions_under: BTreeMap::new(alloc),
            savepoints_of: BTreeMap::new(alloc),
            savepoints: BTreeMap::new(alloc),
            kept_as: BTreeMap::new(alloc),
            kept_under: BTreeMap::new(alloc),
            born_as: BTreeMap::new(alloc),
            seen_under: BTreeMap::new(alloc),
            rows: no_rows(alloc),
            pieces: BTreeMap::new(alloc),
            touches: BTreeMap::new(alloc),
            marks: BTreeMap::new(alloc),
            pieces_in: BTreeMap::new(alloc),
            owned: BTreeMap::new(alloc),
            marks_in: BTreeMap::new(alloc),
            touched_at: BTreeSet::new(alloc),
            turns_at: BTreeMap::new(alloc),
            hists_on: BTreeMap::new(alloc),
            locks: BTreeMap::new(alloc),
            locks_of: BTreeMap::new(alloc),
            lock_makings: BTreeMap::new(alloc),
        }
    }

    /// Adds the id of a record.
    pub fn add_record(&mut self, alloc: Global, id: u64, added: &Record) -> Result<(), Memory>
        requires ascend { IdsAscend self.old }
        requires nested { AllNested self.old.pieces.entries }
        ensures ids { OnOk result (Adds self.old self.new id added.now) }
        ensures pieces { OnOk result (Gains self.old.pieces.entries self.new.pieces.entries id added.now) }
    {
        match added {
            Record::Counters(_) => add_id(&mut self.counters, id),
            Record::Table(_) => add_id(&mut self.tables, id),
            Record::Space(space) => self.add_space(alloc, id, space.get()),
            Record::Version(version) => self.add_version(alloc, id, version),
            Record::Savepoint(savepoint) => self.add_savepoint(alloc, id, savepoint.get()),
            Record::Row(row) => add_row(alloc, &mut self.rows, row.stamp, id),
            Record::Piece(piece) => self.add_piece(alloc, id, piece),
            Record::Touch(touch) => self.add_touch(alloc, id, touch),
            Record::Lock(lock) => self.add_lock(alloc, id, lock.get()),
            Record::Hist(hist) => self.add_hist(alloc, id, hist.get()),
            Record::Mark(mark) => self.add_mark(alloc, id, mark),
            Record::Turn(turn) => self.add_turn(alloc, id, turn),
        }
    }

    /// Adds the id of a workspace.
    fn add_space(&mut self, alloc: Global, id: u64, space: &Space) -> Result<(), Memory>
        requires { IdsAscend self.old }
        ensures ids { OnOk result (Adds self.old self.new id (records.Space space.now)) }
        ensures pieces { OnOk result (self.new.pieces.entries ≡ self.old.pieces.entries) }
    {
        add_id(&mut self.all_spaces, id)?;
        add_among(alloc, &mut self.owned, space.number, id)?;
        add_to(alloc, &mut self.spaces, space.number, id)?;
        if space.number == 0 {
            return Ok(());
        }
        add_to(alloc, &mut self.born_as, space.birth_version, id)?;
        add_to(alloc, &mut self.seen_under, space.base_version, id)
    }

    /// Adds the id of a version.
    fn add_version(&mut self, alloc: Global, id: u64, version: &Version) -> Result<(), Memory>
        requires { IdsAscend self.old }
        ensures ids { OnOk result (Adds self.old self.new id (records.Version version.now)) }
        ensures pieces { OnOk result (self.new.pieces.entries ≡ self.old.pieces.entries) }
    {
        add_among(alloc, &mut self.owned, version.space, id)?;
        add_to(alloc, &mut self.versions, version.number, id)?;
        add_in(
            alloc,
            &mut self.versions_in,
            version.space,
            version.number,
            id,
        )?;
        add_to(alloc, &mut self.versions_under, version.parent, id)
    }

    /// Adds the id of a savepoint.
    fn add_savepoint(&mut self, alloc: Global, id: u64, savepoint: &Savepoint) -> Result<(), Memory>
        requires { IdsAscend self.old }
        ensures ids { OnOk result (Adds self.old self.new id (records.Savepoint savepoint.now)) }
        ensures pieces { OnOk result (self.new.pieces.entries ≡ self.old.pieces.entries) }
    {
        add_among(alloc, &mut self.owned, savepoint.space, id)?;
        add_to(alloc, &mut self.savepoints_of, savepoint.space, id)?;
        add_to(alloc, &mut self.savepoints, savepoint.making, id)?;
        add_to(alloc, &mut self.kept_as, savepoint.version, id)?;
        if savepoint.space == 0 {
            return Ok(());
        }
        add_to(alloc, &mut self.kept_under, savepoint.base_version, id)
    }

    /// Adds the id of a piece.
    fn add_piece(&mut self, alloc: Global, id: u64, piece: &PieceRecord) -> Result<(), Memory>
        requires ascend { IdsAscend self.old }
        requires nested { AllNested self.old.pieces.entries }
        ensures ids { OnOk result (Adds self.old self.new id (records.Piece piece.now)) }
        ensures pieces { OnOk result (Gains self.old.pieces.entries self.new.pieces.entries id (records.Piece piece.now)) }
    {
        add_among(alloc, &mut self.pieces_in, piece.version, id)?;
        add_piece_id(alloc, &mut self.pieces, id, piece)
    }

    /// Adds the id of a touch.
    fn add_touch(&mut self, alloc: Global, id: u64, touch: &Trace) -> Result<(), Memory>
        requires { IdsAscend self.old }
        ensures ids { OnOk result (Adds self.old self.new id (records.Touch touch.now)) }
        ensures pieces { OnOk result (self.new.pieces.entries ≡ self.old.pieces.entries) }
    {
        add_among(alloc, &mut self.owned, touch.space, id)?;
        add_at(&mut self.touched_at, touch.space, touch.position, id)?;
        let cells = &touch.cells;
        add_on(alloc, &mut self.touches, cells.table, &cells.key, id)
    }

    /// Adds the id of a lock.
    fn add_lock(&mut self, alloc: Global, id: u64, lock: &Lock) -> Result<(), Memory>
        requires { IdsAscend self.old }
        ensures ids { OnOk result (Adds self.old self.new id (records.Lock lock.now)) }
        ensures pieces { OnOk result (self.new.pieces.entries ≡ self.old.pieces.entries) }
    {
        add_among(alloc, &mut self.owned, lock.space, id)?;
        add_among(alloc, &mut self.locks_of, lock.space, id)?;
        add_to(alloc, &mut self.lock_makings, lock.making, id)?;
        let cells = &lock.cells;
        add_on(alloc, &mut self.locks, cells.table, &cells.key, id)
    }

    /// Adds the id of a mark.
    fn add_mark(&mut self, alloc: Global, id: u64, mark: &Trace) -> Result<(), Memory>
        requires { IdsAscend self.old }
        ensures ids { OnOk result (Adds self.old self.new id (records.Mark mark.now)) }
        ensures pieces { OnOk result (self.new.pieces.entries ≡ self.old.pieces.entries) }
    {
        add_among(alloc, &mut self.owned, mark.space, id)?;
        add_to(alloc, &mut self.marks_in, mark.space, id)?;
        let cells = &mark.cells;
        add_on(alloc, &mut self.marks, cells.table, &cells.key, id)
    }

    /// Adds the id of a turn.
    fn add_turn(&mut self, alloc: Global, id: u64, turn: &Turn) -> Result<(), Memory>
        requires { IdsAscend self.old }
        ensures ids { OnOk result (Adds self.old self.new id (records.Turn turn.now)) }
        ensures pieces { OnOk result (self.new.pieces.entries ≡ self.old.pieces.entries) }
    {
        add_among(alloc, &mut self.owned, turn.space, id)?;
        let number = (turn.space, turn.rebase);
        add_to(alloc, &mut self.turns_at, number, id)
    }

    /// Adds the id of an entry of a log.
    fn add_hist(&mut self, alloc: Global, id: u64, hist: &Hist) -> Result<(), Memory>
        requires { IdsAscend self.old }
        ensures ids { OnOk result (Adds self.old self.new id (records.Hist hist.now)) }
        ensures pieces { OnOk result (self.new.pieces.entries ≡ self.old.pieces.entries) }
    {
        add_among(alloc, &mut self.owned, hist.space, id)?;
        let log = (hist.space, hist.cells.table);
        add_among(alloc, &mut self.hists_on, log, id)
    }

    /// Drops the id of a record.
    pub fn drop_record(&mut self, id: u64, dropped: &Record)
        requires ascend { IdsAscend self.old }
        requires nested { AllNested self.old.pieces.entries }
        ensures ids { Drops self.old self.new id dropped.now }
        ensures pieces { Loses self.old.pieces.entries self.new.pieces.entries id dropped.now }
    {
        match dropped {
            Record::Counters(_) => drop_id(&mut self.counters, id),
            Record::Table(_) => drop_id(&mut self.tables, id),
            Record::Space(space) => self.drop_space(id, space.get()),
            Record::Version(version) => self.drop_version(id, version),
            Record::Savepoint(savepoint) => self.drop_savepoint(id, savepoint.get()),
            Record::Row(row) => drop_row(&mut self.rows, row.stamp, id),
            Record::Piece(piece) => self.drop_piece(id, piece),
            Record::Touch(touch) => self.drop_touch(id, touch),
            Record::Lock(lock) => self.drop_lock(id, lock.get()),
            Record::Hist(hist) => self.drop_hist(id, hist.get()),
            Record::Mark(mark) => self.drop_mark(id, mark),
            Record::Turn(turn) => self.drop_turn(id, turn),
        }
    }

    /// Drops the id of a workspace.
    fn drop_space(&mut self, id: u64, space: &Space)
        requires { IdsAscend self.old }
        ensures ids { Drops self.old self.new id (records.Space space.now) }
        ensures pieces { self.new.pieces.entries ≡ self.old.pieces.entries }
    {
        drop_id(&mut self.all_spaces, id);
        drop_among(&mut self.owned, &space.number, id);
        drop_from(&mut self.spaces, &space.number, id);
        if space.number == 0 {
            return;
        }
        drop_from(&mut self.born_as, &space.birth_version, id);
        drop_from(&mut self.seen_under, &space.base_version, id);
    }

    /// Drops the id of a version.
    fn drop_version(&mut self, id: u64, version: &Version)
        requires { IdsAscend self.old }
        ensures ids { Drops self.old self.new id (records.Version version.now) }
        ensures pieces { self.new.pieces.entries ≡ self.old.pieces.entries }
    {
        drop_among(&mut self.owned, &version.space, id);
        drop_from(&mut self.versions, &version.number, id);
        drop_in(&mut self.versions_in, version.space, version.number, id);
        drop_from(&mut self.versions_under, &version.parent, id);
    }

    /// Drops the id of a savepoint.
    fn drop_savepoint(&mut self, id: u64, savepoint: &Savepoint)
        requires { IdsAscend self.old }
        ensures ids { Drops self.old self.new id (records.Savepoint savepoint.now) }
        ensures pieces { self.new.pieces.entries ≡ self.old.pieces.entries }
    {
        drop_among(&mut self.owned, &savepoint.space, id);
        drop_from(&mut self.savepoints_of, &savepoint.space, id);
        drop_from(&mut self.savepoints, &savepoint.making, id);
        drop_from(&mut self.kept_as, &savepoint.version, id);
        if savepoint.space == 0 {
            return;
        }
        drop_from(&mut self.kept_under, &savepoint.base_version, id);
    }

    /// Drops the id of a piece.
    fn drop_piece(&mut self, id: u64, piece: &PieceRecord)
        requires ascend { IdsAscend self.old }
        requires nested { AllNested self.old.pieces.entries }
        ensures ids { Drops self.old self.new id (records.Piece piece.now) }
        ensures pieces { Loses self.old.pieces.entries self.new.pieces.entries id (records.Piece piece.now) }
    {
        drop_among(&mut self.pieces_in, &piece.version, id);
        drop_piece_id(&mut self.pieces, id, piece);
    }

    /// Drops the id of a touch.
    fn drop_touch(&mut self, id: u64, touch: &Trace)
        requires { IdsAscend self.old }
        ensures ids { Drops self.old self.new id (records.Touch touch.now) }
        ensures pieces { self.new.pieces.entries ≡ self.old.pieces.entries }
    {
        drop_among(&mut self.owned, &touch.space, id);
        drop_at(&mut self.touched_at, touch.space, touch.position, id);
        let cells = &touch.cells;
        drop_on(&mut self.touches, cells.table, &cells.key, id);
    }

    /// Drops the id of a lock.
    fn drop_lock(&mut self, id: u64, lock: &Lock)
        requires { IdsAscend self.old }
        ensures ids { Drops self.old self.new id (records.Lock lock.now) }
        ensures pieces { self.new.pieces.entries ≡ self.old.pieces.entries }
    {
        drop_among(&mut self.owned, &lock.space, id);
        drop_among(&mut self.locks_of, &lock.space, id);
        drop_from(&mut self.lock_makings, &lock.making, id);
        let cells = &lock.cells;
        drop_on(&mut self.locks, cells.table, &cells.key, id);
    }

    /// Drops the id of a mark.
    fn drop_mark(&mut self, id: u64, mark: &Trace)
        requires { IdsAscend self.old }
        ensures ids { Drops self.old self.new id (records.Mark mark.now) }
        ensures pieces { self.new.pieces.entries ≡ self.old.pieces.entries }
    {
        drop_among(&mut self.owned, &mark.space, id);
        drop_from(&mut self.marks_in, &mark.space, id);
        let cells = &mark.cells;
        drop_on(&mut self.marks, cells.table, &cells.key, id);
    }

    /// Drops the id of a turn.
    fn drop_turn(&mut self, id: u64, turn: &Turn)
        requires { IdsAscend self.old }
        ensures ids { Drops self.old self.new id (records.Turn turn.now) }
        ensures pieces { self.new.pieces.entries ≡ self.old.pieces.entries }
    {
        drop_among(&mut self.owned, &turn.space, id);
        let number = (turn.space, turn.rebase);
        drop_from(&mut self.turns_at, &number, id);
    }

    /// Drops the id of an entry of a log.
    fn drop_hist(&mut self, id: u64, hist: &Hist)
        requires { IdsAscend self.old }
        ensures ids { Drops self.old self.new id (records.Hist hist.now) }
        ensures pieces { self.new.pieces.entries ≡ self.old.pieces.entries }
    {
        drop_among(&mut self.owned, &hist.space, id);
        let log = (hist.space, hist.cells.table);
        drop_among(&mut self.hists_on, &log, id);
    }
}
