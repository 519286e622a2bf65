//! The fields of pages 0 and 1, as opening reads and tests them.
ghost use Rattle.std.specs.Prelude.{◌≡◌, ◌<◌, ◌≤◌, true, false, length, None, IfOk, IfErr, OnOk, IsErrOf};
ghost use Rattle.wm_page.specs.Cause.{OpenCause};
ghost use Rattle.wm_station.specs.History.{now};
ghost use Rattle.wm_station.specs.Cause.{DiskCause};
ghost use Rattle.wm_journal.specs.Disk.{is_made, has_format, is_open, count_of, damage_of};
ghost use Rattle.wm_journal.specs.Header.{IsHeader};
ghost use Rattle.wm_journal.specs.Opening.{Says, IsSilent, IsUntouched};

use crate::device::{make_fault, open_fault};
use crate::format::{FORMAT, GATE_OPEN, MADE};
use wm_faults::{Damage, MakeFault, OpenFault};
use wm_page::read_number;
use wm_station::{DiskFailed, Station};

/// What page 0 says of the journal.
#[derive(Drop)]
pub(crate) struct Header {
    pub(crate) open: bool,
    pub(crate) start: u64,
    pub(crate) images: u64,
}

/// Whether a store was made in this file.
pub(crate) fn is_made<P: Station>(station: &mut P) -> Result<bool, DiskFailed>
    ensures made { P.tells → IfOk result (λ made. made ≡ is_made (now (P.history station.old))) }
    ensures told { P.tells → P.history station.new ≡ P.history station.old }
    ensures cause { DiskCause (P.disk_faults station.old) (P.disk_faults station.new) result }
    ensures wants { IsErrOf result DiskFailed.Memory → P.wants }
    ensures say_quiet { P.say_faults station.new ≡ P.say_faults station.old }
{
    let size = station.len()?;
    if size == 0 {
        return Ok(false);
    }
    let mut byte = [0];
    station.read(0, &mut byte)?;
    Ok(byte[0] == MADE)
}

/// The length of the file.
pub(crate) fn size_of<P: Station>(station: &mut P) -> Result<u64, OpenFault>
    ensures size { P.tells → IfOk result (λ n. n ≡ length (now (P.history station.old))) }
    ensures told { P.tells → P.history station.new ≡ P.history station.old }
    ensures silent { IfErr result IsSilent }
    ensures cause { OpenCause (P.disk_faults station.old) (P.disk_faults station.new) result }
    ensures wants { IsErrOf result OpenFault.Memory → P.wants }
    ensures say_quiet { P.say_faults station.new ≡ P.say_faults station.old }
{
    match station.len() {
        Ok(size) => Ok(size),
        Err(failed) => Err(open_fault(failed)),
    }
}

/// Reads and tests page 0.
pub(crate) fn read_header<P: Station>(station: &mut P, size: u64) -> Result<Header, OpenFault>
    requires { P.tells → size ≡ length (now (P.history station.old)) }
    ensures header { P.tells → IfOk result (λ h. IsHeader h (now (P.history station.old))) }
    ensures fault { P.tells → IfErr result (λ e. Says e (now (P.history station.old))) }
    ensures told { P.tells → P.history station.new ≡ P.history station.old }
    ensures cause { OpenCause (P.disk_faults station.old) (P.disk_faults station.new) result }
    ensures wants { IsErrOf result OpenFault.Memory → P.wants }
    ensures say_quiet { P.say_faults station.new ≡ P.say_faults station.old }
{
    match is_made(station) {
        Ok(true) => {}
        Ok(false) => return Err(OpenFault::NotStore),
        Err(failed) => return Err(open_fault(failed)),
    }
    if size < 4096 {
        return Err(damaged(0, Damage::Short));
    }
    let mut bytes = [0; 32];
    if let Err(failed) = station.read(0, &mut bytes) {
        return Err(open_fault(failed));
    }
    if bytes[1] != FORMAT {
        return Err(damaged(0, Damage::Format));
    }
    Ok(Header {
        open: bytes[8] == GATE_OPEN,
        start: read_number(&bytes, 16),
        images: read_number(&bytes, 24),
    })
}

/// Reads and tests the page count of a file whose journal is closed.
pub(crate) fn read_count<P: Station>(station: &mut P, size: u64) -> Result<u64, OpenFault>
    requires size { P.tells → size ≡ length (now (P.history station.old)) }
    requires made { P.tells → is_made (now (P.history station.old)) ≡ true }
    requires format { P.tells → has_format (now (P.history station.old)) ≡ true }
    requires closed { P.tells → is_open (now (P.history station.old)) ≡ false }
    requires whole { P.tells → 4096 ≤ length (now (P.history station.old)) }
    ensures count { P.tells → IfOk result (λ n. n ≡ count_of (now (P.history station.old))) }
    ensures enough { IfOk result (λ n. 3 ≤ n) }
    ensures store { P.tells → OnOk result (damage_of (now (P.history station.old)) ≡ None) }
    ensures fault { P.tells → IfErr result (λ e. Says e (now (P.history station.old))) }
    ensures touched { IfErr result (λ e. IsUntouched e → ⊥) }
    ensures told { P.tells → P.history station.new ≡ P.history station.old }
    ensures cause { OpenCause (P.disk_faults station.old) (P.disk_faults station.new) result }
    ensures wants { IsErrOf result OpenFault.Memory → P.wants }
    ensures say_quiet { P.say_faults station.new ≡ P.say_faults station.old }
{
    if size < 8192 {
        return Err(damaged(1, Damage::Short));
    }
    let mut bytes = [0; 8];
    if let Err(failed) = station.read(4096, &mut bytes) {
        return Err(open_fault(failed));
    }
    let count = read_number(&bytes, 0);
    if count < 3 {
        return Err(damaged(1, Damage::Root));
    }
    Ok(count)
}

/// A damage of a page.
pub(crate) fn damaged(page: u64, kind: Damage) -> OpenFault
    ensures { result ≡ OpenFault.Damaged page kind }
{
    OpenFault::Damaged { page, kind }
}
