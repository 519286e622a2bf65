//! The page of each id.
ghost use Rattle.std.specs.Prelude.{◌≡◌, ℕ, Some, None, ◌==◌, if◌then◌else◌, IfOk, OnOk, OnErr};
ghost use Rattle.wm_heap.specs.Places.{at};

use wm_base::Memory;
use wm_chunks::NumberMap;

/// The page of each id.
pub type Places = NumberMap<u64>;

/// The page that an id is on.
pub fn page_of(places: &Places, id: u64) -> Option<u64>
    ensures { result ≡ at places.now.entries id }
{
    places.get(id).copied()
}

/// Gives an id its page, and tells the one that it had.
pub fn set_page_of(places: &mut Places, id: u64, page: u64) -> Result<Option<u64>, Memory>
    ensures before { IfOk result (λ before. before ≡ at places.old.entries id) }
    ensures ok { OnOk result ((j : ℕ) → at places.new.entries j ≡ (if j == id then Some page else at places.old.entries j)) }
    ensures err { OnErr result (places.new.entries ≡ places.old.entries) }
{
    let before = places.insert(id, page)?;
    Ok(before)
}

/// Takes its page from an id, where it has one.
pub fn clear_page_of(places: &mut Places, id: u64)
    ensures { (j : ℕ) → at places.new.entries j ≡ (if j == id then None else at places.old.entries j) }
{
    let _ = places.remove(id);
}
