//! The records of a store, by their kind.

ghost use Rattle.std.specs.Prelude.{◌≡◌, ◌++◌, ◌∷◌, [], IfOk, OnOk};
ghost use Rattle.wm_cells.specs.Lookups.{collected, added, referred};
ghost use Rattle.wm_graph.specs.Parts.{parts_in, parts_of};

use std::alloc::Global;
use wm_base::Memory;
use wm_spec::record::{
    Counters, Hist, Lock, PieceRecord, Record, RowRecord, Savepoint, Space, Stored, Table, Trace,
    Turn, Version,
};

/// The records of each kind, in the order in which they stand.
#[derive(Drop)]
pub struct Kinds<'a> {
    pub counters: Vec<&'a Counters>,
    pub tables: Vec<&'a Table>,
    pub spaces: Vec<&'a Space>,
    pub versions: Vec<&'a Version>,
    pub savepoints: Vec<&'a Savepoint>,
    pub rows: Vec<&'a RowRecord>,
    pub pieces: Vec<&'a PieceRecord>,
    pub touches: Vec<&'a Trace>,
    pub locks: Vec<&'a Lock>,
    pub hists: Vec<&'a Hist>,
    pub marks: Vec<&'a Trace>,
    pub turns: Vec<&'a Turn>,
}

impl<'a> Kinds<'a> {
    fn new(alloc: Global) -> Kinds<'a>
        ensures { collected result ≡ parts_in [] }
    {
        Kinds {
            counters: Vec::new(alloc),
            tables: Vec::new(alloc),
            spaces: Vec::new(alloc),
            versions: Vec::new(alloc),
            savepoints: Vec::new(alloc),
            rows: Vec::new(alloc),
            pieces: Vec::new(alloc),
            touches: Vec::new(alloc),
            locks: Vec::new(alloc),
            hists: Vec::new(alloc),
            marks: Vec::new(alloc),
            turns: Vec::new(alloc),
        }
    }

    /// The records by their kind.
    pub fn of(alloc: Global, records: &'a [Stored]) -> Result<Kinds<'a>, Memory>
        ensures { IfOk result (λ kinds. collected kinds ≡ parts_of records.now) }
    {
        let mut kinds = Kinds::new(alloc);
        for stored in records {
            kinds.add(&stored.record)?;
        }
        Ok(kinds)
    }

    fn add(&mut self, part: &'a Record) -> Result<(), Memory>
        ensures { OnOk result (collected self.new ≡ added (collected self.old) part.now) }
    {
        match part {
            Record::Counters(counters) => push(&mut self.counters, counters),
            Record::Table(table) => push(&mut self.tables, table.get()),
            Record::Space(space) => push(&mut self.spaces, space.get()),
            Record::Version(version) => push(&mut self.versions, version),
            Record::Savepoint(savepoint) => push(&mut self.savepoints, savepoint.get()),
            Record::Row(row) => push(&mut self.rows, row),
            Record::Piece(piece) => push(&mut self.pieces, piece),
            Record::Touch(touch) => push(&mut self.touches, touch),
            Record::Lock(lock) => push(&mut self.locks, lock.get()),
            Record::Hist(hist) => push(&mut self.hists, hist.get()),
            Record::Mark(mark) => push(&mut self.marks, mark),
            Record::Turn(turn) => push(&mut self.turns, turn),
        }
    }
}

/// Puts the item behind those of the list.
fn push<'a, T>(list: &mut Vec<&'a T>, item: &'a T) -> Result<(), Memory>
    ensures { OnOk result (referred list.new.items ≡ referred list.old.items ++ item.now ∷ []) }
{
    list.push(item)?;
    Ok(())
}
