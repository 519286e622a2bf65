//! What is wrong with the cells that the line reads, writes or locks.
ghost use Rattle.std.specs.Prelude.{◌≡◌, ◌++◌, codes, OnOk};
ghost use Rattle.wm_print.specs.Values.{quoted, place_text};
ghost use Rattle.wm_print.specs.Refusals.{cell_text};

use crate::words::{push_keyed, push_named, push_numbered, push_text, push_text_and_name};
use std::alloc::Global;
use wm_base::{Bytes, CellRefusal, Key, Memory, Name, Period};

/// Adds words, a table and a key, with its period where there is one.
fn push_conflict(
    alloc: Global,
    out: &mut Bytes,
    words: &[u8],
    table: &Name,
    key: &Key,
    period: &Option<Period>,
) -> Result<(), Memory>
    ensures { OnOk result (out.new ≡ out.old ++ (words.now ++ (table.now ++ (codes " " ++ place_text key.now period.now)))) }
{
    push_named(out, words, table)?;
    push_keyed(alloc, out, b" ", key, period)
}

/// Adds the user and the mode of a lock.
fn push_holder(out: &mut Bytes, user: &Name, mode: &Name) -> Result<(), Memory>
    ensures { OnOk result (out.new ≡ out.old ++ (codes " " ++ (user.now ++ (codes " " ++ mode.now)))) }
{
    push_named(out, b" ", user)?;
    push_named(out, b" ", mode)
}

/// Adds the text of a lock that bars a change.
fn push_locked(
    alloc: Global,
    out: &mut Bytes,
    workspace: &Name,
    user: &Name,
    mode: &Name,
    key: &Key,
    period: &Option<Period>,
) -> Result<(), Memory>
    ensures { OnOk result (out.new ≡ out.old ++ (codes "WM-050 locked " ++ (quoted workspace.now ++ (codes " " ++ (user.now ++ (codes " " ++ (mode.now ++ (codes " " ++ place_text key.now period.now)))))))) }
{
    push_text(out, b"WM-050 locked ", workspace)?;
    push_holder(out, user, mode)?;
    push_keyed(alloc, out, b" ", key, period)
}

/// Adds the text of a refusal of the cells.
#[tactic(auto, unfolding(crate::specs::Refusals::cell_text))]
pub fn push_cell(alloc: Global, out: &mut Bytes, refusal: &CellRefusal) -> Result<(), Memory>
    ensures { OnOk result (out.new ≡ out.old ++ cell_text refusal.now) }
{
    match refusal {
        CellRefusal::Wm050(workspace, user, mode, key, period) => {
            push_locked(alloc, out, workspace, user, mode, key, period)
        }
        CellRefusal::Wm051(table, key, period) => {
            push_conflict(alloc, out, b"WM-051 conflict ", table, key, period)
        }
        CellRefusal::Wm052(workspace, session) => {
            push_text_and_name(out, b"WM-052 resolve open ", workspace, session)
        }
        CellRefusal::Wm053(workspace) => push_text(out, b"WM-053 no resolve open ", workspace),
        CellRefusal::Wm060(key, period) => {
            push_keyed(alloc, out, b"WM-060 key there ", key, period)
        }
        CellRefusal::Wm061(column) => push_named(out, b"WM-061 NULL in ", column),
        CellRefusal::Wm062(column) => push_named(out, b"WM-062 key column ", column),
        CellRefusal::Wm063(column) => push_named(out, b"WM-063 too heavy ", column),
        CellRefusal::Wm064 => out.append(b"WM-064 out of range"),
        CellRefusal::Wm065(column) => {
            push_numbered(alloc, out, b"WM-065 literal ", *column as u64)
        }
    }
}
