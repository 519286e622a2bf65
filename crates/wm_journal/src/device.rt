//! Writes to the device, each run of them ended by a sync.
ghost use Rattle.std.specs.Prelude.{◌≡◌, ◌+◌, ◌*◌, ◌^◌, ◌<◌, ◌++◌, length, All, OnOk, OnErr, IfErr, IsErrOf};
ghost use Rattle.wm_page.specs.Batch.{entries};
ghost use Rattle.wm_page.specs.Cause.{OpenCause};
ghost use Rattle.wm_page.specs.Fields.{eight_bytes};
ghost use Rattle.wm_station.specs.Cause.{DiskCause};
ghost use Rattle.wm_station.specs.History.{Synced};
ghost use Rattle.wm_journal.specs.Opening.{IsSilent};
ghost use Rattle.wm_journal.specs.Writes.{Did, DidPart, placing, gating, arming, committing, root_page, marking, rooting, making};

use crate::format::{FIELDS_AT, FORMAT, GATE_AT, GATE_CLOSED, GATE_OPEN, MADE, NOT_MADE};
use wm_faults::{MakeFault, OpenFault, StoreFault};
use wm_page::{PAGE_SIZE, PageWrite, write_number};
use wm_station::{DiskFailed, Station};

// Writes each page to its place.
pub(crate) fn place<P: Station>(station: &mut P, pages: &[PageWrite]) -> Result<(), DiskFailed>
    requires { All (λ w. w.page * 4096 < 2 ^ 64) pages.now }
    ensures did { P.tells → OnOk result (Did (placing (entries pages.now)) (P.history station.old) (P.history station.new)) }
    ensures part { P.tells → OnErr result (DidPart (placing (entries pages.now)) (P.history station.old) (P.history station.new)) }
    ensures cause { DiskCause (P.disk_faults station.old) (P.disk_faults station.new) result }
    ensures wants { IsErrOf result DiskFailed.Memory → P.wants }
    ensures say_quiet { P.say_faults station.new ≡ P.say_faults station.old }
{
    for write in pages {
        station.write_at(write.page * 4096, write.bytes.as_slice())?;
    }
    station.sync()
}

// Writes the gate's byte.
pub(crate) fn set_gate<P: Station>(station: &mut P, gate: u8) -> Result<(), DiskFailed>
    ensures did { P.tells → OnOk result (Did (gating gate) (P.history station.old) (P.history station.new)) }
    ensures part { P.tells → OnErr result (DidPart (gating gate) (P.history station.old) (P.history station.new)) }
    ensures cause { DiskCause (P.disk_faults station.old) (P.disk_faults station.new) result }
    ensures wants { IsErrOf result DiskFailed.Memory → P.wants }
    ensures say_quiet { P.say_faults station.new ≡ P.say_faults station.old }
{
    station.write_at(GATE_AT, &[gate])?;
    station.sync()
}

// Writes a journal of so many pages from a page on, and its fields.
#[tactic(auto, unfolding(crate::specs::Writes::arming))]
fn arm<P: Station>(
    station: &mut P,
    start: u64,
    images: u64,
    journal: &[u8],
) -> Result<(), DiskFailed>
    requires fits { start * 4096 < 2 ^ 64 }
    ensures did { P.tells → OnOk result (Did (arming start images journal.now) (P.history station.old) (P.history station.new)) }
    ensures part { P.tells → OnErr result (DidPart (arming start images journal.now) (P.history station.old) (P.history station.new)) }
    ensures cause { DiskCause (P.disk_faults station.old) (P.disk_faults station.new) result }
    ensures wants { IsErrOf result DiskFailed.Memory → P.wants }
    ensures say_quiet { P.say_faults station.new ≡ P.say_faults station.old }
{
    station.write_at(start * 4096, journal)?;
    station.write_at(FIELDS_AT, &fields(start, images))?;
    station.sync()
}

// The fields of a journal, as they stand on page 0.
#[tactic(auto, unfolding(wm_page::specs::Fields::eight_bytes))]
fn fields(start: u64, images: u64) -> [u8; 16]
    ensures { result ≡ eight_bytes start ++ eight_bytes images }
{
    let mut bytes = [0; 16];
    write_number(&mut bytes, 0, start);
    write_number(&mut bytes, 8, images);
    bytes
}

/// Writes the pages all or nothing: first to a journal that begins at a page behind all others, then to
/// their places.
pub(crate) fn write_through<P: Station>(
    station: &mut P,
    start: u64,
    journal: &[u8],
    pages: &[PageWrite],
) -> Result<(), DiskFailed>
    requires fits { start * 4096 < 2 ^ 64 }
    requires below { All (λ w. w.page < start) pages.now }
    ensures few { length pages.now < 2 ^ 64 }
    ensures did { P.tells → OnOk result (Did (committing start (length pages.now) journal.now (entries pages.now)) (P.history station.old) (P.history station.new)) }
    ensures part { P.tells → OnErr result (DidPart (committing start (length pages.now) journal.now (entries pages.now)) (P.history station.old) (P.history station.new)) }
    ensures cause { DiskCause (P.disk_faults station.old) (P.disk_faults station.new) result }
    ensures wants { IsErrOf result DiskFailed.Memory → P.wants }
    ensures say_quiet { P.say_faults station.new ≡ P.say_faults station.old }
{
    arm(station, start, pages.len() as u64, journal)?;
    set_gate(station, GATE_OPEN)?;
    place(station, pages)?;
    set_gate(station, GATE_CLOSED)
}

/// Brings all that was written to the disk.
pub(crate) fn settle<P: Station>(station: &mut P) -> Result<(), OpenFault>
    ensures ok { P.tells → OnOk result (P.history station.new ≡ Synced (P.history station.old)) }
    ensures err { P.tells → OnErr result (P.history station.new ≡ P.history station.old) }
    ensures silent { IfErr result IsSilent }
    ensures cause { OpenCause (P.disk_faults station.old) (P.disk_faults station.new) result }
    ensures wants { IsErrOf result OpenFault.Memory → P.wants }
    ensures say_quiet { P.say_faults station.new ≡ P.say_faults station.old }
{
    match station.sync() {
        Ok(()) => Ok(()),
        Err(failed) => Err(open_fault(failed)),
    }
}

pub(crate) fn make_fault(failed: DiskFailed) -> MakeFault
    ensures disk { result ≡ MakeFault.Disk → failed ≡ DiskFailed.Failed }
    ensures memory { result ≡ MakeFault.Memory → failed ≡ DiskFailed.Memory }
    ensures not_exists { result ≡ MakeFault.Exists → ⊥ }
{
    match failed {
        DiskFailed::Failed => MakeFault::Disk,
        DiskFailed::Memory => MakeFault::Memory,
    }
}

/// The fault of a store that is opened.
pub fn open_fault(failed: DiskFailed) -> OpenFault
    ensures disk { result ≡ OpenFault.Disk → failed ≡ DiskFailed.Failed }
    ensures memory { result ≡ OpenFault.Memory → failed ≡ DiskFailed.Memory }
    ensures silent { IsSilent result }
{
    match failed {
        DiskFailed::Failed => OpenFault::Disk,
        DiskFailed::Memory => OpenFault::Memory,
    }
}

/// The fault of a store that is read or changed.
pub fn store_fault(failed: DiskFailed) -> StoreFault
    ensures disk { result ≡ StoreFault.Disk → failed ≡ DiskFailed.Failed }
    ensures memory { result ≡ StoreFault.Memory → failed ≡ DiskFailed.Memory }
    ensures not_changed { result ≡ StoreFault.Changed → ⊥ }
{
    match failed {
        DiskFailed::Failed => StoreFault::Disk,
        DiskFailed::Memory => StoreFault::Memory,
    }
}

/// Makes a store of these pages: byte 0 says so only once all else is on the disk.
pub(crate) fn write_made<P: Station>(station: &mut P, pages: &[PageWrite]) -> Result<(), DiskFailed>
    requires { All (λ w. w.page * 4096 < 2 ^ 64) pages.now }
    ensures did { P.tells → OnOk result (Did (making root_page (entries pages.now)) (P.history station.old) (P.history station.new)) }
    ensures part { P.tells → OnErr result (DidPart (making root_page (entries pages.now)) (P.history station.old) (P.history station.new)) }
    ensures cause { DiskCause (P.disk_faults station.old) (P.disk_faults station.new) result }
    ensures wants { IsErrOf result DiskFailed.Memory → P.wants }
    ensures say_quiet { P.say_faults station.new ≡ P.say_faults station.old }
{
    write_byte(station, NOT_MADE)?;
    write_root(station, pages)?;
    write_byte(station, MADE)
}

// Writes page 0 and the others.
fn write_root<P: Station>(station: &mut P, pages: &[PageWrite]) -> Result<(), DiskFailed>
    requires { All (λ w. w.page * 4096 < 2 ^ 64) pages.now }
    ensures did { P.tells → OnOk result (Did (rooting root_page (entries pages.now)) (P.history station.old) (P.history station.new)) }
    ensures part { P.tells → OnErr result (DidPart (rooting root_page (entries pages.now)) (P.history station.old) (P.history station.new)) }
    ensures cause { DiskCause (P.disk_faults station.old) (P.disk_faults station.new) result }
    ensures wants { IsErrOf result DiskFailed.Memory → P.wants }
    ensures say_quiet { P.say_faults station.new ≡ P.say_faults station.old }
{
    station.write_at(0, &root_page())?;
    place(station, pages)
}

// Writes byte 0.
fn write_byte<P: Station>(station: &mut P, byte: u8) -> Result<(), DiskFailed>
    ensures did { P.tells → OnOk result (Did (marking byte) (P.history station.old) (P.history station.new)) }
    ensures part { P.tells → OnErr result (DidPart (marking byte) (P.history station.old) (P.history station.new)) }
    ensures cause { DiskCause (P.disk_faults station.old) (P.disk_faults station.new) result }
    ensures wants { IsErrOf result DiskFailed.Memory → P.wants }
    ensures say_quiet { P.say_faults station.new ≡ P.say_faults station.old }
{
    station.write_at(0, &[byte])?;
    station.sync()
}

// Page 0 with the format alone.
#[tactic(auto, unfolding(crate::specs::Writes::root_page))]
fn root_page() -> [u8; PAGE_SIZE]
    ensures { result ≡ root_page }
{
    let mut page = [0; PAGE_SIZE];
    page[1] = FORMAT;
    page
}
