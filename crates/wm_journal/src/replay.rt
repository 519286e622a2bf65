//! Bringing the images of an open journal to their places.
ghost use Rattle.std.specs.Prelude.{◌≡◌, ◌+◌, ◌-◌, ◌*◌, ◌/◌, ◌^◌, ◌<◌, ◌≤◌, ◌++◌, ◌↔◌, true, false, All, ⊤, length, MatchOption, IsTrue, IfOk, IfErr, OnOk, OnErr};
ghost use Rattle.wm_page.specs.Batch.{entries};
ghost use Rattle.wm_page.specs.Cause.{OpenCause};
ghost use Rattle.wm_page.specs.Entries.{is_named};
ghost use Rattle.wm_page.specs.Fields.{number_at};
ghost use Rattle.wm_station.specs.History.{now, stretch};
ghost use Rattle.wm_station.specs.Cause.{DiskCause};
ghost use Rattle.wm_journal.specs.Disk.{journal_at, directory_pages, may_name};
ghost use Rattle.wm_journal.specs.Header.{IsHeader};
ghost use Rattle.wm_journal.specs.Opening.{Says, IsUntouched, Repaired, RepairedPart};
ghost use Rattle.wm_journal.specs.Writes.{Did, DidPart, placing, gating};

use crate::device::{open_fault, place, set_gate};
use crate::format::GATE_CLOSED;
use crate::header::{Header, damaged};
use std::alloc::Global;
use wm_base::Bytes;
use wm_faults::{Damage, OpenFault};
use wm_page::{PAGE_SIZE, PageWrite, read_number};
use wm_station::{DiskFailed, Station};

/// Where the journal is open, brings its images to their places and closes it.
pub(crate) fn repair<P: Station>(
    alloc: Global,
    station: &mut P,
    size: u64,
    header: &Header,
) -> Result<(), OpenFault>
    requires size { P.tells → size ≡ length (now (P.history station.old)) }
    requires header { P.tells → IsHeader header.now (now (P.history station.old)) }
    ensures done { P.tells → OnOk result (Repaired (P.history station.old) (P.history station.new)) }
    ensures part { P.tells → OnErr result (RepairedPart (P.history station.old) (P.history station.new)) }
    ensures fault { P.tells → IfErr result (λ e. Says e (now (P.history station.old))) }
    ensures untouched { P.tells → IfErr result (λ e. IsUntouched e → P.history station.new ≡ P.history station.old) }
    ensures cause { OpenCause (P.disk_faults station.old) (P.disk_faults station.new) result }
    ensures say_quiet { P.say_faults station.new ≡ P.say_faults station.old }
{
    if !header.open {
        return Ok(());
    }
    if !lies_within(size, header) {
        return Err(damaged(0, Damage::Journal));
    }
    let pages = match read_pages(alloc, station, size, header) {
        Ok(Some(pages)) => pages,
        Ok(None) => return Err(damaged(0, Damage::Journal)),
        Err(failed) => return Err(open_fault(failed)),
    };
    match put_back(station, &pages) {
        Ok(()) => Ok(()),
        Err(failed) => Err(open_fault(failed)),
    }
}

// Writes the pages to their places and closes the gate.
fn put_back<P: Station>(station: &mut P, pages: &[PageWrite]) -> Result<(), DiskFailed>
    requires { All (λ w. w.page * 4096 < 2 ^ 64) pages.now }
    ensures did { P.tells → OnOk result (Did (placing (entries pages.now) ++ gating 0) (P.history station.old) (P.history station.new)) }
    ensures part { P.tells → OnErr result (DidPart (placing (entries pages.now) ++ gating 0) (P.history station.old) (P.history station.new)) }
    ensures cause { DiskCause (P.disk_faults station.old) (P.disk_faults station.new) result }
    ensures say_quiet { P.say_faults station.new ≡ P.say_faults station.old }
{
    place(station, pages)?;
    set_gate(station, GATE_CLOSED)
}

// The journal is behind page 1, has an image and ends within the file.
fn lies_within(size: u64, header: &Header) -> bool
    ensures { IsTrue result ↔ ((2 ≤ header.now.start) × (0 < header.now.images) × ((header.now.start + directory_pages header.now.images + header.now.images) * 4096 ≤ size)) }
{
    let pages = size / 4096;
    let directory = header.images.div_ceil(512);
    header.start >= 2
        && header.images >= 1
        && header.start <= pages
        && directory <= pages - header.start
        && header.images <= pages - header.start - directory
}

// The pages that the journal has, where it may name them.
fn read_pages<P: Station>(
    alloc: Global,
    station: &mut P,
    size: u64,
    header: &Header,
) -> Result<Option<Vec<PageWrite>>, DiskFailed>
    requires size { P.tells → size ≡ length (now (P.history station.old)) }
    requires room { (header.now.start + directory_pages header.now.images + header.now.images) * 4096 ≤ size }
    ensures pages { P.tells → IfOk result (λ found. MatchOption found
        (may_name header.now.start (journal_at (now (P.history station.old)) header.now.start header.now.images) ≡ false)
        (λ pages. (entries pages.items ≡ journal_at (now (P.history station.old)) header.now.start header.now.images)
        × (may_name header.now.start (entries pages.items) ≡ true))) }
    ensures below { IfOk result (λ found. MatchOption found ⊤ (λ pages. All (λ w. w.page * 4096 < 2 ^ 64) pages.items)) }
    ensures told { P.tells → P.history station.new ≡ P.history station.old }
    ensures cause { DiskCause (P.disk_faults station.old) (P.disk_faults station.new) result }
    ensures say_quiet { P.say_faults station.new ≡ P.say_faults station.old }
{
    let mut pages: Vec<PageWrite> = Vec::new(alloc);
    let numbers = header.start * 4096;
    let images = numbers + header.images.div_ceil(512) * 4096;
    for i in 0..header.images {
        let page = read_page_number(station, size, numbers + i * 8)?;
        if page == 0 || page >= header.start || is_named(page, &pages) {
            return Ok(None);
        }
        let bytes = read_page(alloc, station, size, images + i * 4096)?;
        pages.push(PageWrite { page, bytes })?;
    }
    Ok(Some(pages))
}

// The number in the eight bytes from a place on.
fn read_page_number<P: Station>(station: &mut P, size: u64, at: u64) -> Result<u64, DiskFailed>
    requires size { P.tells → size ≡ length (now (P.history station.old)) }
    requires room { at + 8 ≤ size }
    ensures number { P.tells → IfOk result (λ n. n ≡ number_at (now (P.history station.old)) at) }
    ensures told { P.tells → P.history station.new ≡ P.history station.old }
    ensures cause { DiskCause (P.disk_faults station.old) (P.disk_faults station.new) result }
    ensures say_quiet { P.say_faults station.new ≡ P.say_faults station.old }
{
    let mut bytes = [0; 8];
    station.read(at, &mut bytes)?;
    Ok(read_number(&bytes, 0))
}

// The 4,096 bytes from a place on.
fn read_page<P: Station>(
    alloc: Global,
    station: &mut P,
    size: u64,
    at: u64,
) -> Result<Bytes, DiskFailed>
    requires size { P.tells → size ≡ length (now (P.history station.old)) }
    requires room { at + 4096 ≤ size }
    ensures bytes { P.tells → IfOk result (λ bytes. bytes ≡ stretch (now (P.history station.old)) at 4096) }
    ensures whole { IfOk result (λ bytes. length bytes ≡ 4096) }
    ensures told { P.tells → P.history station.new ≡ P.history station.old }
    ensures cause { DiskCause (P.disk_faults station.old) (P.disk_faults station.new) result }
    ensures say_quiet { P.say_faults station.new ≡ P.say_faults station.old }
{
    let mut bytes = vec![in alloc; 0; PAGE_SIZE]?;
    station.read(at, bytes.as_mut_slice())?;
    Ok(Bytes::from_vec(bytes))
}

fn is_named(page: u64, pages: &[PageWrite]) -> bool
    ensures { result ≡ is_named page (entries pages.now) }
{
    for write in pages {
        if write.page == page {
            return true;
        }
    }
    false
}
