//! The rules of the records of touched and of settled cells.
ghost use Rattle.std.specs.Prelude.{◌≡◌, nat_lt, true, IfOk};
ghost use Rattle.std.specs.List.{list_all};
ghost use Rattle.wm_cells.specs.Lookups.{found, referred};
ghost use Rattle.wm_graph.specs.Rules.{differ, is_trace, is_touch, meet};

use crate::spaces;
use std::alloc::Global;
use wm_base::Memory;
use wm_cells::index::Index;
use wm_cells::{cells, overlaps};
use wm_spec::record::{Space, Table, Trace};

/// Whether the mark has cells and a place as it is to have them.
fn is_trace(tables: &Index<Table>, spaces: &Index<Space>, trace: &Trace) -> bool
    ensures { result ≡ is_trace (found tables.now.entries) (found spaces.now.entries) trace.now }
{
    cells::are_cells(tables, &trace.cells) && spaces::is_given(spaces, trace.space, trace.place)
}

/// Whether the touch has cells, a place and a position as it is to have them.
fn is_touch(tables: &Index<Table>, spaces: &Index<Space>, touch: &Trace) -> bool
    ensures { result ≡ is_touch (found tables.now.entries) (found spaces.now.entries) touch.now }
{
    is_trace(tables, spaces, touch) && spaces::has_position(spaces, touch.space, touch.position)
}

/// Whether each touch has cells, a place and a position as it is to have them.
pub fn each_is_touch(tables: &Index<Table>, spaces: &Index<Space>, touches: &[&Trace]) -> bool
    ensures { result ≡ list_all (is_touch (found tables.now.entries) (found spaces.now.entries)) (referred touches.now) }
{
    for touch in touches {
        if !is_touch(tables, spaces, touch) {
            return false;
        }
    }
    true
}

/// Whether each mark has cells and a place as it is to have them.
pub fn each_is_mark(tables: &Index<Table>, spaces: &Index<Space>, marks: &[&Trace]) -> bool
    ensures { result ≡ list_all (is_trace (found tables.now.entries) (found spaces.now.entries)) (referred marks.now) }
{
    for mark in marks {
        if !is_trace(tables, spaces, mark) {
            return false;
        }
    }
    true
}

/// Whether no two touches, or marks, meet, each of which begins before it ends.
pub fn are_apart(alloc: Global, traces: &[&Trace]) -> Result<bool, Memory>
    requires { list_all (λ x. nat_lt x.cells.from x.cells.till) (referred traces.now) ≡ true }
    ensures { IfOk result (λ apart. apart ≡ differ meet (referred traces.now)) }
{
    let apart = overlaps::are_apart(alloc, traces)?;
    Ok(apart)
}
