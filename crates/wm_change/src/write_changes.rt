//! Rows of a table that are changed in a workspace.
ghost use Rattle.std.specs.Prelude.{◌≡◌, ◌+◌, ◌<◌, ◌^◌, ℕ, List, length, map, nat_le, nat_lt, true, IfOk};
ghost use Rattle.std.specs.List.{list_all};
ghost use Rattle.wm_dml.specs.Standing.{change_keys, change_lasts, is_change};
ghost use Rattle.wm_change.specs.Acting.{DoesAt, IsSite};
ghost use Rattle.wm_change.specs.Changing.{is_filled_change};
ghost use Rattle.wm_plan.specs.Idle.{Idles};
ghost use Rattle.wm_graph.specs.Parts.{parts_of};
ghost use Rattle.wm_graph.specs.Rules.{keep_rules};
ghost use Rattle.wm_model.specs.Changes.{write_edits};
ghost use Rattle.wm_model.specs.Entered.{change_entry, entries_from};
ghost use Rattle.wm_model.specs.Step.{cells_of, claim_of, lock_fault, parts_locked, write_all};
ghost use Rattle.wm_outline.specs.Outline.{outline_of};
ghost use Rattle.wm_spec.specs.declared.record.table.Table.{Table as OneTable};
ghost use Rattle.wm_state.specs.Drawing.{are_sorted};
ghost use Rattle.wm_state.specs.Editing.{entry_of};
ghost use Rattle.wm_state.specs.State.{Session as SessionState};

use crate::site::Site;
use std::alloc::Global;
use wm_barred::barring::{Claim, entries_fault};
use wm_barred::parts::{Holder, entry_parts};
use wm_base::{Memory, Name, Refusal};
use wm_dml::RowChange;
use wm_image::Image;
use wm_plan::answer::Answer;
use wm_plan::planned::Planned;
use wm_plan::refuse::{at_its_end, change_limit};
use wm_plan::seating::Seating;
use wm_plan::session::Session;
use wm_plan::work::{is_long, is_spent_by};
use wm_spec::record::{Counters, Table};
use wm_state::edit::{Cells, Edit, Entries, NewEntry, NewLock};

/// The entry that is written for a change, of this stamp.
fn entry_of(
    alloc: Global,
    stamp: u64,
    moment: u64,
    user: &Name,
    table: u16,
    change: RowChange,
) -> Result<NewEntry, Memory>
    ensures { IfOk result (λ entry. (t : OneTable) → table ≡ t.number → entry_of entry ≡ change_entry stamp moment user.now t change) }
{
    let user = user.copy(alloc)?;
    Ok(NewEntry {
        table,
        key: change.key,
        period: change.period,
        row: change.row,
        stamp,
        kind: change.kind,
        moment,
        user,
    })
}

/// The entries that are written for changes, whose stamps follow one another from this one on.
fn entries_of(
    alloc: Global,
    stamp: u64,
    moment: u64,
    user: &Name,
    table: &Table,
    changes: Vec<RowChange>,
) -> Result<Vec<NewEntry>, Memory>
    requires { stamp + length changes.items < 2 ^ 64 }
    ensures { IfOk result (λ entries. map entry_of entries.items ≡ entries_from stamp moment user.now table.now changes.items) }
{
    let mut entries = Vec::new(alloc);
    let mut stamp = stamp;
    for change in changes {
        entries.push(entry_of(alloc, stamp, moment, user, table.number, change)?)?;
        stamp += 1;
    }
    Ok(entries)
}

/// Whether stamps are left for so many changes.
fn are_left(counters: &Counters, count: u64) -> bool
    ensures { result ≡ nat_le (counters.now.next_stamp + count) (counters.now.limit + 1) }
{
    let limit = u64::from(counters.limit) + 1;
    counters.next_stamp <= limit && count <= limit - counters.next_stamp
}

/// What a lock bars a session's entries for.
fn lock_fault(
    alloc: Global,
    image: &Image,
    session: &Session,
    entries: &[NewEntry],
) -> Result<Option<Refusal>, Memory>
    requires rules { keep_rules (parts_of image.now) ≡ true }
    ensures { IfOk result (λ fault. (xs : List SessionState) (m : ℕ) → fault ≡ lock_fault (outline_of (parts_of image.now) xs m) (claim_of session.now session.now.space) (map cells_of (map entry_of entries.now))) }
{
    let claim = Claim {
        space: session.space(),
        user: session.user(),
        except: None,
    };
    entries_fault(alloc, image, claim, entries)
}

/// What a session locks by its entries, if it does.
fn parts_locked(
    alloc: Global,
    image: &Image,
    session: &Session,
    entries: &[NewEntry],
) -> Result<Vec<NewLock>, Memory>
    requires rules { keep_rules (parts_of image.now) ≡ true }
    ensures { IfOk result (λ parts. (xs : List SessionState) (m : ℕ) → parts.items ≡ parts_locked (outline_of (parts_of image.now) xs m) session.now session.now.space (map cells_of (map entry_of entries.now))) }
{
    let Some(mode) = session.locking() else {
        return Ok(Vec::new(alloc));
    };
    let holder = Holder {
        space: session.space(),
        mode,
        user: session.user(),
    };
    entry_parts(alloc, image, holder, entries)
}

/// The edits that write entries into a session's workspace, and lock what it locks by them.
fn edits_of(
    alloc: Global,
    session: &Session,
    entries: Vec<NewEntry>,
    parts: Vec<NewLock>,
) -> Result<Vec<Edit>, Memory>
    ensures { IfOk result (λ made. made.items ≡ write_edits session.now.space session.now entries.items parts.items) }
{
    let space = session.space();
    let entries = Entries::from_vec(entries);
    let mut edits = Vec::new(alloc);
    edits.push(Edit::Append { space, entries })?;
    let Some(mode) = session.locking() else {
        return Ok(edits);
    };
    if parts.len() > 0 {
        let user = session.user().copy(alloc)?;
        let cells = Cells::from_vec(parts);
        edits.push(Edit::Lock {
            space,
            mode,
            user,
            cells,
        })?;
    }
    Ok(edits)
}

/// Writes changes of rows, of which there are some, by key, into the session's workspace, and locks what the session locks
/// by them, and answers that so many rows are changed.
pub fn write_changes(
    alloc: Global,
    site: Site<'_>,
    rows_changed: u64,
    changes: Vec<RowChange>,
) -> Result<Planned, Memory>
    requires site { IsSite site }
    requires some { nat_lt 0 (length changes.items) ≡ true }
    requires counted { nat_lt 0 rows_changed ≡ true }
    // The changes fit the table and stand by key, each over a period that has a moment, and no text in them is empty.
    requires fit { list_all (is_change site.table.now) changes.items ≡ true }
    requires last { list_all change_lasts changes.items ≡ true }
    requires keys { are_sorted (change_keys changes.items) ≡ true }
    requires filled { list_all is_filled_change changes.items ≡ true }
    ensures does { IfOk result (DoesAt site.entry (write_all site.entry.session.now site.entry.table.now rows_changed changes.items)) }
    ensures idle { IfOk result Idles }
{
    let image = site.image;
    let session = site.session;
    let counters = image.counters();
    let stamp = counters.next_stamp;
    let user = session.user();
    let entries = entries_of(alloc, stamp, site.moment, user, site.table, changes)?;
    if let Some(refusal) = lock_fault(alloc, image, session, entries.as_slice())? {
        return Ok(Planned::answered(alloc, Answer::Refused(refusal)));
    }
    if !are_left(&counters, entries.len() as u64) {
        return Ok(Planned::answered(alloc, change_limit(counters.limit)));
    }
    if is_long(site.space.log_length, entries.as_slice()) {
        return Ok(Planned::answered(alloc, at_its_end(alloc, b"LOG")?));
    }
    let parts = parts_locked(alloc, image, session, entries.as_slice())?;
    if is_spent_by(&counters, parts.len() as u64) {
        return Ok(Planned::answered(alloc, at_its_end(alloc, b"WORK")?));
    }
    let edits = edits_of(alloc, session, entries, parts)?;
    Ok(Planned {
        edits,
        seating: Seating::Stay,
        answer: Answer::Done(rows_changed),
    })
}
