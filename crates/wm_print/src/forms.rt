//! What is wrong with the line itself.
ghost use Rattle.std.specs.Prelude.{◌≡◌, ◌++◌, OnOk};
ghost use Rattle.wm_print.specs.Refusals.{switch_text, form_text};

use crate::words::{push_named, push_numbered};
use std::alloc::Global;
use wm_base::{Bytes, FormRefusal, Memory, Name};

/// Adds words, a table, and whether its versioning is on.
fn push_switch(out: &mut Bytes, words: &[u8], table: &Name, on: bool) -> Result<(), Memory>
    ensures { OnOk result (out.new ≡ out.old ++ (words.now ++ (table.now ++ switch_text on))) }
{
    push_named(out, words, table)?;
    if on {
        out.append(b" on")
    } else {
        out.append(b" off")
    }
}

/// Adds the text of a refusal of the line's form.
#[tactic(auto, unfolding(crate::specs::Refusals::form_text))]
pub fn push_form(alloc: Global, out: &mut Bytes, refusal: &FormRefusal) -> Result<(), Memory>
    ensures { OnOk result (out.new ≡ out.old ++ form_text refusal.now) }
{
    match refusal {
        FormRefusal::Wm001 => out.append(b"WM-001 line too long"),
        FormRefusal::Wm002 => out.append(b"WM-002 not UTF-8"),
        FormRefusal::Wm003(column) => {
            push_numbered(alloc, out, b"WM-003 syntax ", *column as u64)
        }
        FormRefusal::Wm004(session) => push_named(out, b"WM-004 no session ", session),
        FormRefusal::Wm005(session) => push_named(out, b"WM-005 session exists ", session),
        FormRefusal::Wm010(table) => push_named(out, b"WM-010 no table ", table),
        FormRefusal::Wm011(table) => push_named(out, b"WM-011 table exists ", table),
        FormRefusal::Wm012(column) => push_named(out, b"WM-012 no column ", column),
        FormRefusal::Wm013(name) => push_named(out, b"WM-013 type ", name),
        FormRefusal::Wm014(count) => push_numbered(alloc, out, b"WM-014 count ", *count),
        FormRefusal::Wm015(table) => push_named(out, b"WM-015 no primary key ", table),
        FormRefusal::Wm016(bytes) => push_numbered(alloc, out, b"WM-016 bad name ", *bytes),
        FormRefusal::Wm017(table) => push_named(out, b"WM-017 not valid-time ", table),
        FormRefusal::Wm018(table) => push_named(out, b"WM-018 no history ", table),
        FormRefusal::Wm019(table, on) => push_switch(out, b"WM-019 versioning ", table, *on),
    }
}
