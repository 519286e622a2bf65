//! Names that are short, and names that differ.
ghost use Rattle.std.specs.Prelude.{◌≡◌, ℕ, List};
ghost use Rattle.std.specs.List.{list_any};
ghost use Rattle.std.specs.Str.{bytes_eq};
ghost use Rattle.wm_graph.specs.Rules.{differ, is_short};

use wm_base::Name;
use wm_spec::record::{Space, Table, TableColumn};

/// The most bytes of a name.
const LONGEST: usize = 30;

/// What has a name.
pub trait Named {
    ghost name_of: { Self → List ℕ };

    fn name(&self) -> &Name
        ensures { result.now ≡ name_of self.now };
}

impl Named for TableColumn {
    ghost name_of = { λ c. c.name };

    fn name(&self) -> &Name {
        &self.name
    }
}

impl Named for &Table {
    ghost name_of = { λ t. t.now.name };

    fn name(&self) -> &Name {
        &self.name
    }
}

impl Named for &Space {
    ghost name_of = { λ s. s.now.name };

    fn name(&self) -> &Name {
        &self.name
    }
}

/// Whether a name, a user or a writer is no longer than it may be.
pub fn is_short(name: &Name) -> bool
    ensures { result ≡ is_short name.now }
{
    name.len() <= LONGEST
}

/// Whether one of the items has this name.
fn is_named<T: Named>(name: &Name, items: &[T]) -> bool
    ensures { result ≡ list_any (λ x. bytes_eq name.now (T.name_of x)) items.now }
{
    items
        .iter()
        .any(|item| item.name().as_bytes() == name.as_bytes())
}

/// Whether no two items have one name. Each is compared with each, so there are to be few.
pub fn names_differ<T: Named>(items: &[T]) -> bool
    ensures { result ≡ differ (λ x y. bytes_eq (T.name_of x) (T.name_of y)) items.now }
{
    for (place, item) in items.iter().enumerate() {
        if is_named(item.name(), &items[place + 1..]) {
            return false;
        }
    }
    true
}
