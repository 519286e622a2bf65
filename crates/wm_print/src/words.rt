//! Words, and what a refusal names behind them.
ghost use Rattle.std.specs.Prelude.{◌≡◌, ◌++◌, codes, OnOk};
ghost use Rattle.std.specs.Fmt.{decimal};
ghost use Rattle.wm_instants.specs.Texts.{instant_text};
ghost use Rattle.wm_print.specs.Values.{quoted, place_text};

use crate::value::{push_count, push_place, push_quoted};
use std::alloc::Global;
use wm_base::{Bytes, Instant, Key, Memory, Name, Period};
use wm_instants::write_instant;

/// Adds words and an identifier or a mode, plain.
pub fn push_named(out: &mut Bytes, words: &[u8], name: &Name) -> Result<(), Memory>
    ensures { OnOk result (out.new ≡ out.old ++ (words.now ++ name.now)) }
{
    out.append(words)?;
    out.append(name.as_bytes())
}

/// Adds words and the name of a workspace or a savepoint, between quotes.
pub fn push_text(out: &mut Bytes, words: &[u8], name: &Name) -> Result<(), Memory>
    ensures { OnOk result (out.new ≡ out.old ++ (words.now ++ quoted name.now)) }
{
    out.append(words)?;
    push_quoted(out, name.as_bytes())
}

/// Adds words and a number.
pub fn push_numbered(
    alloc: Global,
    out: &mut Bytes,
    words: &[u8],
    number: u64,
) -> Result<(), Memory>
    ensures { OnOk result (out.new ≡ out.old ++ (words.now ++ decimal number)) }
{
    out.append(words)?;
    push_count(alloc, out, number)
}

/// Adds words and a moment.
pub fn push_dated(out: &mut Bytes, words: &[u8], moment: Instant) -> Result<(), Memory>
    ensures { OnOk result (out.new ≡ out.old ++ (words.now ++ instant_text moment)) }
{
    out.append(words)?;
    write_instant(moment, out)
}

/// Adds words, the name of a workspace between quotes, and an identifier or a mode, plain.
pub fn push_text_and_name(
    out: &mut Bytes,
    words: &[u8],
    workspace: &Name,
    name: &Name,
) -> Result<(), Memory>
    ensures { OnOk result (out.new ≡ out.old ++ (words.now ++ (quoted workspace.now ++ (codes " " ++ name.now)))) }
{
    push_text(out, words, workspace)?;
    push_named(out, b" ", name)
}

/// Adds words and the names of two workspaces, each between quotes.
pub fn push_two_texts(
    out: &mut Bytes,
    words: &[u8],
    workspace: &Name,
    child: &Name,
) -> Result<(), Memory>
    ensures { OnOk result (out.new ≡ out.old ++ (words.now ++ (quoted workspace.now ++ (codes " " ++ quoted child.now)))) }
{
    push_text(out, words, workspace)?;
    push_text(out, b" ", child)
}

/// Adds words, the name of a workspace between quotes, and a moment.
pub fn push_text_and_date(
    out: &mut Bytes,
    words: &[u8],
    workspace: &Name,
    moment: Instant,
) -> Result<(), Memory>
    ensures { OnOk result (out.new ≡ out.old ++ (words.now ++ (quoted workspace.now ++ (codes " " ++ instant_text moment)))) }
{
    push_text(out, words, workspace)?;
    push_dated(out, b" ", moment)
}

/// Adds words and a key, with its period where there is one.
pub fn push_keyed(
    alloc: Global,
    out: &mut Bytes,
    words: &[u8],
    key: &Key,
    period: &Option<Period>,
) -> Result<(), Memory>
    ensures { OnOk result (out.new ≡ out.old ++ (words.now ++ place_text key.now period.now)) }
{
    out.append(words)?;
    push_place(alloc, out, key, period)
}
