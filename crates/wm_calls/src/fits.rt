ghost use Rattle.std.specs.Prelude.{◌≡◌};
ghost use Rattle.wm_calls.specs.Takes.{is_history, is_freeze, is_lock, is_side, fits_text, fits_truth, fits_const, fits};

use crate::takes::Takes;
use wm_grammar::is_word;
use wm_syntax::constant::Const;
use wm_syntax::statement::ArgValue;

fn is_history(text: &[u8]) -> bool
    ensures { result ≡ is_history text.now }
{
    is_word(text, b"NONE") || is_word(text, b"VIEW_WO_OVERWRITE")
}

fn is_freeze(text: &[u8]) -> bool
    ensures { result ≡ is_freeze text.now }
{
    is_word(text, b"NO_ACCESS")
        || is_word(text, b"READ_ONLY")
        || is_word(text, b"1WRITER")
        || is_word(text, b"1WRITER_SESSION")
        || is_word(text, b"WM_ONLY")
}

fn is_lock(text: &[u8]) -> bool
    ensures { result ≡ is_lock text.now }
{
    is_word(text, b"E") || is_word(text, b"S") || is_word(text, b"WE") || is_word(text, b"VE")
}

fn is_side(text: &[u8]) -> bool
    ensures { result ≡ is_side text.now }
{
    is_word(text, b"PARENT") || is_word(text, b"CHILD") || is_word(text, b"BASE")
}

fn fits_text(takes: Takes, text: &[u8]) -> bool
    ensures { result ≡ fits_text takes text.now }
{
    match takes {
        Takes::Text | Takes::Clause => true,
        Takes::History => is_history(text),
        Takes::Freeze => is_freeze(text),
        Takes::Lock => is_lock(text),
        Takes::Side => is_side(text),
        Takes::Truth | Takes::False | Takes::Moment => false,
    }
}

fn fits_truth(takes: Takes, value: bool) -> bool
    ensures { result ≡ fits_truth takes value }
{
    match takes {
        Takes::Truth => true,
        Takes::False => !value,
        _ => false,
    }
}

fn fits_const(required: bool, takes: Takes, value: &Const) -> bool
    ensures { result ≡ fits_const required takes value.now }
{
    match value {
        Const::Null => !required || takes == Takes::Clause,
        Const::Text(text) => fits_text(takes, text.as_bytes()),
        Const::Time(_) | Const::Sysdate => takes == Takes::Moment,
        Const::Num(_) | Const::Span { .. } => false,
    }
}

/// Whether the value is one that a parameter takes.
pub fn fits(required: bool, takes: Takes, value: &ArgValue) -> bool
    ensures { result ≡ fits required takes value.now }
{
    match value {
        ArgValue::Const(value) => fits_const(required, takes, value),
        ArgValue::Bool(value) => fits_truth(takes, *value),
    }
}
