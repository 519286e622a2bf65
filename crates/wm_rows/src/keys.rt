//! The keys of a table, in order.
ghost use Rattle.std.specs.Prelude.{◌≡◌};

use std::marker::Model;
use wm_base::Key;

/// Keys of a table.
#[derive(Drop)]
pub struct Keys {
    list: Vec<Key>,
}

impl Model for Keys {
    ghost use Rattle.std.specs.Prelude.{List};
    ghost use Rattle.wm_base.specs.declared.value.Value.{Value as OneValue};

    ghost Value = { List (List OneValue) };

    ghost view = { λ k. k.list.items };
}

impl Keys {
    pub(crate) fn from_vec(list: Vec<Key>) -> Keys
        ensures { result ≡ list.items }
    {
        Keys { list }
    }

    /// The keys in their order.
    pub fn list(&self) -> &[Key]
        ensures { result.now ≡ self.now }
    {
        self.list.as_slice()
    }
}
