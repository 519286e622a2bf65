//! The indexes of the records of a store.

ghost use Rattle.std.specs.Prelude.{IfOk};
ghost use Rattle.wm_cells.specs.Lookups.{collected};
ghost use Rattle.wm_rules.specs.Indexing.{IndexesOf};

use crate::versions;
use std::alloc::Global;
use std::collections::BTreeSet;
use wm_base::Memory;
use wm_cells::index::{Indexed, index_of};
use wm_cells::kinds::Kinds;
use wm_spec::record::{RowRecord, Space, Table, Version};

/// What is found by its number, and which workspaces have a version.
#[derive(Drop)]
pub struct Indexes<'a> {
    pub tables: Indexed<'a, Table>,
    pub spaces: Indexed<'a, Space>,
    pub versions: Indexed<'a, Version>,
    pub rows: Indexed<'a, RowRecord>,
    pub having: BTreeSet<u32>,
}

/// The indexes of the records.
pub fn indexes_of<'a>(alloc: Global, kinds: &Kinds<'a>) -> Result<Indexes<'a>, Memory>
    ensures { IfOk result (IndexesOf (collected kinds.now)) }
{
    let tables = index_of(alloc, kinds.tables.as_slice())?;
    let spaces = index_of(alloc, kinds.spaces.as_slice())?;
    let versions = index_of(alloc, kinds.versions.as_slice())?;
    let rows = index_of(alloc, kinds.rows.as_slice())?;
    let having = versions::spaces_of(alloc, kinds.versions.as_slice())?;
    Ok(Indexes {
        tables,
        spaces,
        versions,
        rows,
        having,
    })
}
