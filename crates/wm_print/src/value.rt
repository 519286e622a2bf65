//! Numbers, texts, times, periods, values and keys.
ghost use Rattle.std.specs.Prelude.{◌≡◌, ◌++◌, OnOk};
ghost use Rattle.std.specs.List.{flat_map};
ghost use Rattle.std.specs.Fmt.{decimal, signed_decimal};
ghost use Rattle.wm_print.specs.Values.{doubled, quoted, period_text, value_text, more, joined, key_text, perhaps_period, place_text};

use std::alloc::Global;
use wm_base::{Bytes, Key, Memory, Period, Value};
use wm_instants::write_instant;

/// Adds a number in decimal.
pub fn push_count(alloc: Global, out: &mut Bytes, count: u64) -> Result<(), Memory>
    ensures { OnOk result (out.new ≡ out.old ++ decimal count) }
{
    let digits = count.to_string(alloc)?;
    out.append(digits.as_bytes())
}

/// Adds a number in decimal, behind a minus sign where it is negative.
fn push_number(alloc: Global, out: &mut Bytes, number: i64) -> Result<(), Memory>
    ensures { OnOk result (out.new ≡ out.old ++ signed_decimal number) }
{
    let digits = number.to_string(alloc)?;
    out.append(digits.as_bytes())
}

/// Adds a byte of a text between quotes: a quote stands twice.
fn push_doubled(out: &mut Bytes, byte: u8) -> Result<(), Memory>
    ensures { OnOk result (out.new ≡ out.old ++ doubled byte) }
{
    if byte == b'\'' {
        out.append(b"''")
    } else {
        out.push(byte)
    }
}

/// Adds the bytes of a text between quotes.
fn push_doubled_all(out: &mut Bytes, text: &[u8]) -> Result<(), Memory>
    ensures { OnOk result (out.new ≡ out.old ++ flat_map doubled text.now) }
{
    for byte in text {
        push_doubled(out, *byte)?;
    }
    Ok(())
}

/// Adds a text between quotes.
#[tactic(auto, unfolding(crate::specs::Values::quoted))]
pub fn push_quoted(out: &mut Bytes, text: &[u8]) -> Result<(), Memory>
    ensures { OnOk result (out.new ≡ out.old ++ quoted text.now) }
{
    out.append(b"'")?;
    push_doubled_all(out, text)?;
    out.append(b"'")
}

/// Adds a period with its ends.
#[tactic(auto, unfolding(crate::specs::Values::period_text))]
fn push_period(out: &mut Bytes, period: &Period) -> Result<(), Memory>
    ensures { OnOk result (out.new ≡ out.old ++ period_text period.now) }
{
    out.append(b"[")?;
    write_instant(period.from(), out)?;
    out.append(b", ")?;
    write_instant(period.till(), out)?;
    out.append(b")")
}

/// Adds a value.
pub fn push_value(alloc: Global, out: &mut Bytes, value: &Value) -> Result<(), Memory>
    ensures { OnOk result (out.new ≡ out.old ++ value_text value.now) }
{
    match value {
        Value::Null => out.append(b"NULL"),
        Value::Num(number) => push_number(alloc, out, *number),
        Value::Text(text) => push_quoted(out, text.as_bytes()),
        Value::Time(instant) => write_instant(*instant, out),
        Value::Span(period) => push_period(out, period),
    }
}

/// Adds values, each behind a separator.
fn push_more(
    alloc: Global,
    out: &mut Bytes,
    separator: &[u8],
    values: &[Value],
) -> Result<(), Memory>
    ensures { OnOk result (out.new ≡ out.old ++ more separator.now values.now) }
{
    for value in values {
        out.append(separator)?;
        push_value(alloc, out, value)?;
    }
    Ok(())
}

/// Adds values with a separator between.
pub fn push_joined(
    alloc: Global,
    out: &mut Bytes,
    separator: &[u8],
    values: &[Value],
) -> Result<(), Memory>
    ensures { OnOk result (out.new ≡ out.old ++ joined separator.now values.now) }
{
    match values {
        [value, values @ ..] => {
            push_value(alloc, out, value)?;
            push_more(alloc, out, separator, values)
        }
        [] => Ok(()),
    }
}

/// Adds a key: its one value, or its values in brackets.
#[tactic(auto, unfolding(crate::specs::Values::key_text))]
pub fn push_key(alloc: Global, out: &mut Bytes, key: &Key) -> Result<(), Memory>
    ensures { OnOk result (out.new ≡ out.old ++ key_text key.now) }
{
    if key.values().len() == 1 {
        return push_joined(alloc, out, b", ", key.values());
    }
    out.append(b"(")?;
    push_joined(alloc, out, b", ", key.values())?;
    out.append(b")")
}

/// Adds a blank and the period, where there is one.
fn push_perhaps_period(out: &mut Bytes, period: &Option<Period>) -> Result<(), Memory>
    ensures { OnOk result (out.new ≡ out.old ++ perhaps_period period.now) }
{
    match period {
        Some(period) => {
            out.append(b" ")?;
            push_period(out, period)
        }
        None => Ok(()),
    }
}

/// Adds a key, and the period on which it is meant, where there is one.
pub fn push_place(
    alloc: Global,
    out: &mut Bytes,
    key: &Key,
    period: &Option<Period>,
) -> Result<(), Memory>
    ensures { OnOk result (out.new ≡ out.old ++ place_text key.now period.now) }
{
    push_key(alloc, out, key)?;
    push_perhaps_period(out, period)
}
