//! Where rows that move stood and will stand, by key.
ghost use Rattle.std.specs.Prelude.{◌≡◌, ◌∷◌, [], ◌++◌, List, if◌then◌else◌, IfOk, OnOk};
ghost use Rattle.std.specs.Ordering.{is_eq};
ghost use Rattle.wm_base.specs.Key.{key_order};
ghost use Rattle.wm_base.specs.declared.value.Value.{Value};
ghost use Rattle.wm_dml.specs.Moving.{shifts_of, shifts_under};

use crate::moving::{Move, Shift};
use std::alloc::Global;
use std::collections::BTreeMap;
use std::marker::Model;
use wm_base::{Key, Memory};

/// Where the rows of each key stood and will stand.
#[derive(Drop)]
pub struct Shifts {
    by_key: BTreeMap<Key, Vec<Shift>>,
}

impl Model for Shifts {
    ghost use Rattle.std.specs.Prelude.{List};
    ghost use Rattle.std.specs.declared.alloc.Global.{Global};
    ghost use Rattle.std.specs.declared.vec.Vec.{Vec};
    ghost use Rattle.wm_base.specs.declared.value.Value.{Value as OneValue};
    ghost use Rattle.wm_dml.specs.declared.moving.Shift.{Shift as OneShift};

    ghost Value = { List (List OneValue × Vec OneShift Global) };

    ghost view = { λ s. s.by_key.entries };
}

impl Shifts {
    /// None.
    fn new(alloc: Global) -> Shifts
        ensures { result ≡ [] }
    {
        Shifts {
            by_key: BTreeMap::new(alloc),
        }
    }

    /// Puts one behind the others of a key.
    fn push(&mut self, alloc: Global, key: Key, shift: Shift) -> Result<(), Memory>
        ensures { OnOk result ((q : List Value) → shifts_under self.new q ≡ (if is_eq (key_order key q) then shifts_under self.old key ++ shift ∷ [] else shifts_under self.old q)) }
    {
        let mut shifts = self.by_key.remove(&key).unwrap_or(Vec::new(alloc));
        shifts.push(shift)?;
        self.by_key.insert(key, shifts)?;
        Ok(())
    }

    /// Those of rows that move.
    pub fn of_moves(alloc: Global, moves: &[Move]) -> Result<Shifts, Memory>
        ensures { IfOk result (λ shifts. (key : List Value) → shifts_under shifts key ≡ shifts_of key moves.now) }
    {
        let mut shifts = Shifts::new(alloc);
        for one in moves {
            shifts.push(alloc, one.key.copy(alloc)?, one.shift)?;
        }
        Ok(shifts)
    }

    /// Those of the rows of a key, in order; none where no row of the key moves.
    pub fn of(&self, key: &Key) -> &[Shift]
        ensures { result.now ≡ shifts_under self.now key.now }
    {
        match self.by_key.get(key) {
            Some(shifts) => shifts.as_slice(),
            None => &[],
        }
    }
}
