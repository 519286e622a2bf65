//! The test that is handed in decides which rows a change chooses and which a query keeps: it counts its calls.
use crate::selecting::finds_first;
use crate::tables::tables_of_bud;
use crate::trees::{all_where, first};
use std::alloc::Global;
use std::cell::Cell;
use std::mem::ManuallyDrop;
use std::test::Fail;
use wm_base::Memory;

/// Whether SELECT * FROM BUD WHERE ID = 1, and a change with the same WHERE, find the first row.
fn first_is_found(alloc: Global, calls: &Cell<u64>) -> Result<bool, Memory> {
    let tables = tables_of_bud(alloc)?;
    let query = ManuallyDrop::new(all_where(alloc, first(alloc)?));
    Ok(finds_first(alloc, &query, tables, calls))
}

#[test]
fn the_closure_chooses_rows_and_answers_a_query(rt: HostRuntime) -> Result<(), Fail> {
    let calls = Cell::new(0);
    assert!(rt; first_is_found(rt.alloc(), &calls)?);
    assert_eq!(rt; calls.get(), 4, "each judges both rows");
    Ok(())
}
