//! Values that a record can keep.

ghost use Rattle.std.specs.Prelude.{◌≡◌};
ghost use Rattle.std.specs.List.{list_all};
ghost use Rattle.wm_state.specs.Drafts.{can_keep};

use wm_base::Value;

/// Whether a record can keep a value.
fn can_keep(value: &Value) -> bool
    ensures { result ≡ can_keep value.now }
{
    match value {
        Value::Text(text) => !text.as_bytes().is_empty(),
        _ => true,
    }
}

/// Whether a record can keep all of some values.
pub fn are_kept(values: &[Value]) -> bool
    ensures { result ≡ list_all can_keep values.now }
{
    for value in values {
        if !can_keep(value) {
            return false;
        }
    }
    true
}
