//! What a line changes, committed to the store.
ghost use Rattle.std.specs.Prelude.{◌≡◌, ◌+◌, ◌*◌, ◌⊎◌, ℕ, List, [], length, OnOk};
ghost use Rattle.wm_engine.specs.Lines.{LineFaults};
ghost use Rattle.wm_engine.specs.Pages.{ChangesPages};
ghost use Rattle.wm_engine.specs.Working.{HoldsSorted, KeepsOver};
ghost use Rattle.wm_spec.specs.Records.{AreChanges};
ghost use Rattle.wm_spec.specs.declared.record.stored.Stored.{Stored};
ghost use Rattle.wm_state.specs.ById.{applied};
ghost use Rattle.wm_station.specs.History.{now};
ghost use Rattle.wm_station.specs.Moments.{Ended};
ghost use Rattle.wm_store.specs.Spelled.{FitPages};
ghost use Rattle.wm_store.specs.Stores.{ChangesOnly, IsStoreOf};

use crate::fault::LineFault;
use std::alloc::Global;
use wm_spec::record::Batch;
use wm_station::Station;
use wm_store::Store;

/// Commits a batch. One without changes leaves the disk alone.
pub fn commit<P: Station>(
    alloc: Global,
    station: &mut P,
    store: &mut Store,
    batch: &Batch,
) -> Result<(), LineFault>
    requires once { AreChanges batch.now.changes }
    requires fit { FitPages batch.now.changes }
    requires store { P.tells → IsStoreOf store.old (P.history station.old) }
    // Of the records that the store keeps, whichever they are.
    ensures works { P.tells → (rs : List Stored) → KeepsOver store.old rs (P.history station.old) → OnOk result (KeepsOver store.new (applied batch.now.changes rs) (P.history station.new)) }
    ensures any_moment { P.tells → (rs : List Stored) → KeepsOver store.old rs (P.history station.old) → Ended (P.history station.old) (P.history station.new) (λ file. HoldsSorted file rs ⊎ HoldsSorted file (applied batch.now.changes rs)) }
    // Where nothing changes the file is not touched.
    ensures nothing { P.tells → batch.now.changes ≡ [] → P.history station.new ≡ P.history station.old }
    // Nor where each change says what the records are already.
    ensures still { P.tells → (rs : List Stored) → KeepsOver store.old rs (P.history station.old) → ChangesOnly [] rs batch.now.changes → P.history station.new ≡ P.history station.old }
    // Of the pages behind page 0, at most two for each record that is other than it was, and two more, are other than they were.
    ensures pages { P.tells → (rs : List Stored) → KeepsOver store.old rs (P.history station.old) → (ids : List ℕ) → ChangesOnly ids rs batch.now.changes → OnOk result (ChangesPages store.new (2 * length ids + 2) (now (P.history station.old)) (now (P.history station.new))) }
    ensures same_store { batch.now.changes ≡ [] → OnOk result (store.new ≡ store.old) }
    ensures faults { LineFaults P.Station station.old station.new result }
{
    if batch.changes.as_slice().is_empty() {
        return Ok(());
    }
    store.commit(alloc, station, batch)?;
    Ok(())
}
