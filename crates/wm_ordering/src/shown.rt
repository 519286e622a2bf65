//! A row of an answer with its tuple.
ghost use Rattle.std.specs.Prelude.{◌≡◌, map, IfOk};
ghost use Rattle.std.specs.List.{zip};
ghost use Rattle.wm_base.specs.declared.row.Row.{Row as RowOf};
ghost use Rattle.wm_ordering.specs.declared.shown.Shown.{Shown as ShownRow};
ghost use Rattle.wm_ordering.specs.Keys.{shown_by};

use std::alloc::Global;
use wm_base::{Memory, Row, Values};

/// A row of an answer, with the tuple that stands for what it is made of.
#[derive(Drop)]
pub struct Shown {
    pub tuple: Row,
    pub row: Row,
}

/// The values of the rows.
pub fn row_values(alloc: Global, rows: Vec<Row>) -> Result<Vec<Values>, Memory>
    ensures { IfOk result (λ values. values.items ≡ map (λ (row : RowOf). row.values) rows.items) }
{
    let values = rows.into_iter().map(|row| row.values).collect(alloc)?;
    Ok(values)
}

/// The tuples, each with the row of the values that it shows.
pub fn all_beside(
    alloc: Global,
    values: Vec<Values>,
    tuples: Vec<Row>,
) -> Result<Vec<Shown>, Memory>
    ensures { IfOk result (λ shown. shown.items ≡ map shown_by (zip values.items tuples.items)) }
{
    let shown = values
        .into_iter()
        .zip(tuples)
        .map(|(values, tuple)| Shown {
            tuple,
            row: Row { values },
        })
        .collect(alloc)?;
    Ok(shown)
}

/// The rows without their tuples.
pub fn shown_rows(alloc: Global, shown: Vec<Shown>) -> Result<Vec<Row>, Memory>
    ensures { IfOk result (λ rows. rows.items ≡ map (λ (s : ShownRow). s.row) shown.items) }
{
    let rows = shown.into_iter().map(|one| one.row).collect(alloc)?;
    Ok(rows)
}
