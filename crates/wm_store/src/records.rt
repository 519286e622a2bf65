//! The records of a store, read from its pages.
ghost use Rattle.std.specs.Prelude.{◌≡◌, ◌≤◌, [], ◌++◌, true, if◌then◌else◌, Some, None, Ok, IfOk, IfErr, OnOk, IsErrOf};
ghost use Rattle.std.specs.Option.{option_map, option_or};
ghost use Rattle.wm_faults.specs.declared.fault.Damage.TheVariants as damages;
ghost use Rattle.wm_faults.specs.declared.fault.OpenFault.TheVariants as faults;
ghost use Rattle.wm_codec.specs.Reading.{record_of};
ghost use Rattle.wm_page.specs.Cause.{OpenCause};
ghost use Rattle.wm_heap.specs.Asking.{Finds};
ghost use Rattle.wm_heap.specs.Content.{slots_in};
ghost use Rattle.wm_heap.specs.Places.{IsHeapOf};
ghost use Rattle.wm_heap.specs.Room.{KnowsRoom};
ghost use Rattle.wm_store.specs.Answers.{FindsIn};
ghost use Rattle.wm_store.specs.Opened.{are_records, pages_opened, records_in};

use std::alloc::Global;
use wm_base::Memory;
use wm_codec::decode;
use wm_faults::{Damage, OpenFault};
use wm_heap::{Heap, Slots};
use wm_page::Pages;
use wm_spec::record::{Record, Records, Stored};

/// The record that the bytes spell.
pub fn record_in(alloc: Global, bytes: &[u8]) -> Result<Option<Record>, Memory>
    ensures { IfOk result (λ found. found ≡ record_of bytes.now) }
{
    let found = decode(alloc, bytes)?;
    Ok(found)
}

/// Puts the records of the slots behind those that are there, up to one whose bytes are none, and tells whether each
/// slot has one.
fn read_slots(alloc: Global, records: &mut Records, slots: &Slots) -> Result<bool, Memory>
    ensures are { IfOk result (λ are. are ≡ are_records slots.now) }
    ensures read { IfOk result (λ are. are ≡ true → records.new ≡ records.old ++ records_in slots.now) }
{
    for slot in slots.iter() {
        let Some(record) = record_in(alloc, slot.bytes)? else {
            return Ok(false);
        };
        records.push(Stored {
            id: slot.id,
            record,
        })?;
    }
    Ok(true)
}

/// The records of the pages that were read so far, as long as each slot has one.
#[derive(Drop)]
struct RecordReader {
    records: Records,
    /// The first page with a slot whose bytes are no record.
    unread: Option<u64>,
}

impl RecordReader {
    /// Nothing was read.
    fn new(alloc: Global) -> RecordReader
        ensures records { result.records ≡ [] }
        ensures unread { result.unread ≡ None }
    {
        RecordReader {
            records: Records::new(alloc),
            unread: None,
        }
    }

    /// Puts the records of a page behind those that are there, unless an earlier page has a slot without one.
    fn read(&mut self, alloc: Global, page: u64, slots: &Slots) -> Result<(), Memory>
        ensures unread { OnOk result (self.new.unread ≡ option_or self.old.unread (if are_records slots.now then None else Some page)) }
        ensures read { OnOk result (self.new.unread ≡ None → self.new.records ≡ self.old.records ++ records_in slots.now) }
    {
        if self.unread.is_some() {
            return Ok(());
        }
        if !read_slots(alloc, &mut self.records, slots)? {
            self.unread = Some(page);
        }
        Ok(())
    }

    /// The records, or else the damage.
    fn finish(self) -> Result<Records, OpenFault>
        ensures records { IfOk result (λ records. (self.unread ≡ None) × (records ≡ self.records)) }
        ensures damage { IfErr result (λ e. Finds e (option_map (λ page. (page, damages.Record)) self.unread)) }
        ensures store { IsErrOf result faults.NotStore → ⊥ }
        ensures disk { IsErrOf result faults.Disk → ⊥ }
    {
        match self.unread {
            None => Ok(self.records),
            Some(page) => Err(OpenFault::Damaged {
                page,
                kind: Damage::Record,
            }),
        }
    }
}

/// The heap and the records of the pages in use, each read once. Damage of a record is told where no page has other
/// damage.
pub fn load_pages<G: Pages>(alloc: Global, pages: &mut G) -> Result<(Heap, Records), OpenFault>
    requires { 2 ≤ G.in_use pages.old }
    ensures heap { G.tells → IfOk result (λ r. IsHeapOf r.0 (G.held pages.old) (G.in_use pages.old)) }
    ensures room { G.tells → IfOk result (λ r. KnowsRoom r.0.room (slots_in (G.held pages.old)) (G.in_use pages.old)) }
    ensures records { G.tells → IfOk result (λ r. pages_opened (G.held pages.old) (G.in_use pages.old) (G.in_file pages.old) ≡ Ok r.1) }
    ensures fault { G.tells → IfErr result (λ e. FindsIn e (pages_opened (G.held pages.old) (G.in_use pages.old) (G.in_file pages.old))) }
    ensures store { IsErrOf result faults.NotStore → ⊥ }
    ensures told { G.tells → G.held pages.new ≡ G.held pages.old }
    ensures past { G.tells → G.past pages.new ≡ G.past pages.old }
    ensures source { G.source pages.new ≡ G.source pages.old }
    ensures in_use { G.in_use pages.new ≡ G.in_use pages.old }
    ensures in_file { G.in_file pages.new ≡ G.in_file pages.old }
    ensures cause { OpenCause (G.faults pages.old) (G.faults pages.new) result }
{
    let mut heap = Heap::new(alloc);
    let mut reader = RecordReader::new(alloc);
    for page in 2..pages.count() {
        let slots = heap.load_page(alloc, pages)?;
        reader.read(alloc, page, &slots)?;
    }
    let records = reader.finish()?;
    Ok((heap, records))
}
