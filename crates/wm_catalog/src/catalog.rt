//! The list of tables.
ghost use Rattle.std.specs.Prelude.{◌≡◌, [], ◌∷◌, ◌++◌, true, None, IfOk, OnOk};
ghost use Rattle.std.specs.Option.{option_copied};
ghost use Rattle.wm_catalog.specs.Catalog.{found, same_name};
ghost use Rattle.wm_graph.specs.Rules.{differ};

use indexmap::IndexMap;
use std::alloc::Global;
use std::marker::Model;
use wm_base::Memory;
use wm_spec::record::Table;

/// Tables in their order. No two have one name.
#[derive(Drop)]
pub struct Catalog {
    // Each under its name.
    tables: IndexMap<Vec<u8>, Table>,
}

impl Model for Catalog {
    ghost use Rattle.std.specs.Prelude.{List};
    ghost use Rattle.indexmap.specs.IndexMap.{values};
    ghost use Rattle.wm_spec.specs.declared.record.table.Table.{Table as OneTable};
    ghost use Rattle.wm_catalog.specs.Named.{IsNamed};

    ghost Value = { List OneTable };

    ghost view = { λ c. values c.tables };

    ghost invariant = { λ c. IsNamed c.tables.entries };
}

impl Catalog {
    /// No tables.
    pub fn new(alloc: Global) -> Catalog
        ensures { result ≡ [] }
    {
        Catalog {
            tables: IndexMap::new(alloc),
        }
    }

    /// These tables, where their names differ.
    pub fn from_tables(alloc: Global, tables: Vec<Table>) -> Result<Catalog, Memory>
        ensures { IfOk result (λ catalog. differ same_name tables.items ≡ true → catalog ≡ tables.items) }
    {
        let mut catalog = Catalog::new(alloc);
        for table in tables {
            catalog.put(alloc, table)?;
        }
        Ok(catalog)
    }

    /// The table of a name, None exactly where it is not there.
    pub fn find(&self, name: &[u8]) -> Option<&Table>
        ensures { option_copied result ≡ found name.now self.now }
    {
        self.tables.get(name)
    }

    /// Puts a table under its name, behind all others where none has that name.
    fn put(&mut self, alloc: Global, table: Table) -> Result<(), Memory>
        ensures { OnOk result (found table.name self.old ≡ None → self.new ≡ self.old ++ table ∷ []) }
    {
        let name = Vec::from_slice(alloc, table.name.as_bytes())?;
        self.tables.insert(name, table)?;
        Ok(())
    }
}
