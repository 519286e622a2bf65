//! The changes of a batch, as the heap takes them.
ghost use Rattle.std.specs.Prelude.{◌≡◌, ◌≤◌, length, IfOk, OnOk, IfSome};
ghost use Rattle.wm_codec.specs.Spelling.{CanSpell, HasSpelling, spelling};
ghost use Rattle.wm_store.specs.Spelled.{FitPages, HaveSpellings, blob_of, blobs_of};

use std::alloc::Global;
use wm_base::{Bytes, Memory};
use wm_codec::encode;
use wm_heap::{Blob, Blobs};
use wm_spec::record::Change;

/// How many bytes most records take at most.
const USUAL_BYTES: usize = 96;

/// A change, with its record in bytes.
fn spell_change(alloc: Global, change: &Change) -> Result<Blob, Memory>
    requires { IfSome change.now.becomes (λ r. CanSpell r × (length (spelling r) ≤ 4084)) }
    ensures blob { IfOk result (λ blob. blob ≡ blob_of change.now) }
    ensures spelled { OnOk result (IfSome change.now.becomes (λ r. HasSpelling r × (length (spelling r) ≤ 4084))) }
{
    let id = change.id;
    let Some(record) = &change.becomes else {
        return Ok(Blob { id, bytes: None });
    };
    let mut bytes = Bytes::from_vec(Vec::with_capacity(alloc, USUAL_BYTES)?);
    encode(alloc, record, &mut bytes)?;
    Ok(Blob {
        id,
        bytes: Some(bytes),
    })
}

/// The changes, with their records in bytes.
pub fn spell_changes(alloc: Global, changes: &[Change]) -> Result<Blobs, Memory>
    requires { FitPages changes.now }
    ensures blobs { IfOk result (λ blobs. blobs ≡ blobs_of changes.now) }
    ensures spelled { OnOk result (HaveSpellings changes.now) }
{
    let mut blobs = Blobs::new(alloc);
    for change in changes {
        blobs.push(spell_change(alloc, change)?)?;
    }
    Ok(blobs)
}
