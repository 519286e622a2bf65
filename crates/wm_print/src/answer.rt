//! Whole answers.
ghost use Rattle.std.specs.Prelude.{◌≡◌, ◌++◌, codes, IfOk, OnOk};
ghost use Rattle.std.specs.List.{flat_map};
ghost use Rattle.std.specs.Fmt.{decimal};
ghost use Rattle.wm_print.specs.Texts.{Done, Listing, Refused, row_text, done_text, rows_text, answer_text};

use crate::refusal::push_refusal;
use crate::value::{push_count, push_joined};
use std::alloc::Global;
use wm_base::{Bytes, Memory, Refusal, Row};
use wm_listing::RowList;

/// Adds a row on a line of its own.
#[tactic(auto, unfolding(crate::specs::Texts::row_text))]
pub fn push_row(alloc: Global, out: &mut Bytes, row: &Row) -> Result<(), Memory>
    ensures { OnOk result (out.new ≡ out.old ++ row_text row.now) }
{
    push_joined(alloc, out, b"|", row.values.as_slice())?;
    out.append(b"\n")
}

/// Adds each row on a line of its own.
fn push_rows(alloc: Global, out: &mut Bytes, rows: &[Row]) -> Result<(), Memory>
    ensures { OnOk result (out.new ≡ out.old ++ flat_map row_text rows.now) }
{
    for row in rows {
        push_row(alloc, out, row)?;
    }
    Ok(())
}

/// Adds a word, a number and LF.
fn push_counted(alloc: Global, out: &mut Bytes, word: &[u8], count: u64) -> Result<(), Memory>
    ensures { OnOk result (out.new ≡ out.old ++ (word.now ++ (decimal count ++ codes "\n"))) }
{
    out.append(word)?;
    push_count(alloc, out, count)?;
    out.append(b"\n")
}

/// Adds how many rows were changed.
pub fn push_done(alloc: Global, out: &mut Bytes, count: u64) -> Result<(), Memory>
    ensures { OnOk result (out.new ≡ out.old ++ done_text count) }
{
    push_counted(alloc, out, b"DONE ", count)
}

/// Adds how many rows stand before.
pub fn push_row_count(alloc: Global, out: &mut Bytes, count: u64) -> Result<(), Memory>
    ensures { OnOk result (out.new ≡ out.old ++ rows_text count) }
{
    push_counted(alloc, out, b"ROWS ", count)
}

/// The bytes of rows: each on a line of its own, and then how many they are.
#[tactic(auto, unfolding(crate::specs::Texts::answer_text))]
pub fn print_rows(alloc: Global, rows: &RowList) -> Result<Bytes, Memory>
    ensures { IfOk result (λ bytes. bytes ≡ answer_text (Listing rows.now)) }
{
    let mut out = Bytes::new(alloc);
    push_rows(alloc, &mut out, rows.as_slice())?;
    push_row_count(alloc, &mut out, rows.len() as u64)?;
    Ok(out)
}

/// The bytes of a refusal: its text on a line of its own.
#[tactic(auto, unfolding(crate::specs::Texts::answer_text))]
pub fn print_refusal(alloc: Global, refusal: &Refusal) -> Result<Bytes, Memory>
    ensures { IfOk result (λ bytes. bytes ≡ answer_text (Refused refusal.now)) }
{
    let mut out = Bytes::new(alloc);
    push_refusal(alloc, &mut out, refusal)?;
    out.append(b"\n")?;
    Ok(out)
}

/// The bytes that say how many rows were changed.
#[tactic(auto, unfolding(crate::specs::Texts::answer_text))]
pub fn print_done(alloc: Global, count: u64) -> Result<Bytes, Memory>
    ensures { IfOk result (λ bytes. bytes ≡ answer_text (Done count)) }
{
    let mut out = Bytes::new(alloc);
    push_done(alloc, &mut out, count)?;
    Ok(out)
}
