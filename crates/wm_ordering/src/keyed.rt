//! A row with the values that put it in order.
ghost use Rattle.std.specs.Prelude.{◌≡◌, map, IfOk};
ghost use Rattle.std.specs.List.{zip};
ghost use Rattle.wm_ordering.specs.declared.keyed.Keyed.{Keyed as KeyedRow};
ghost use Rattle.wm_ordering.specs.Keys.{shown_keyed_by};

use crate::shown::Shown;
use std::alloc::Global;
use wm_base::{Memory, Row, Values};

/// A row that is put in order by values of its own.
#[derive(Drop)]
pub struct Keyed {
    pub keys: Values,
    pub row: Row,
}

/// The rows that are shown, each with its keys.
pub fn all_shown_keyed(
    alloc: Global,
    keys: Vec<Values>,
    shown: Vec<Shown>,
) -> Result<Vec<Keyed>, Memory>
    ensures { IfOk result (λ keyed. keyed.items ≡ map shown_keyed_by (zip keys.items shown.items)) }
{
    let keyed = keys
        .into_iter()
        .zip(shown)
        .map(|(keys, one)| Keyed { keys, row: one.row })
        .collect(alloc)?;
    Ok(keyed)
}

/// The rows without their keys.
pub fn keyed_rows(alloc: Global, keyed: Vec<Keyed>) -> Result<Vec<Row>, Memory>
    ensures { IfOk result (λ rows. rows.items ≡ map (λ (k : KeyedRow). k.row) keyed.items) }
{
    let rows = keyed.into_iter().map(|one| one.row).collect(alloc)?;
    Ok(rows)
}
