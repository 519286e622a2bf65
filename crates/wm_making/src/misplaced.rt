//! Names that are listed: of the columns of a key, or of those to which values go.
ghost use Rattle.std.specs.Prelude.{◌≡◌, ℕ, List, [], Bool, option_copied};
ghost use Rattle.std.specs.List.{list_any};
ghost use Rattle.std.specs.Str.{bytes_eq};
ghost use Rattle.wm_making.specs.Creating.{declares as declares_name, misplaced as first_misplaced};

use wm_base::Name;
use wm_syntax::statement::{CreateItem, CreateItems};

/// What has columns, each under its name.
pub trait HasColumns {
    ghost has: { Self → List ℕ → Bool };

    fn has_column(&self, name: &Name) -> bool
        ensures { result ≡ has self.now name.now };
}

impl HasColumns for CreateItems {
    ghost has = { λ items name. list_any (declares_name name) items };

    fn has_column(&self, name: &Name) -> bool {
        is_declared(name, self.as_slice())
    }
}

/// Whether the item declares a column of this name.
fn declares(name: &Name, item: &CreateItem) -> bool
    ensures { result ≡ declares_name name.now item.now }
{
    match item {
        CreateItem::Column { name: other, .. } => name.as_bytes() == other.as_bytes(),
        CreateItem::Primary { .. } => false,
    }
}

/// Whether one of the items declares a column of this name.
pub fn is_declared(name: &Name, items: &[CreateItem]) -> bool
    ensures { result ≡ list_any (declares_name name.now) items.now }
{
    items.iter().any(|item| declares(name, item))
}

/// Whether the name is one of these.
fn is_among(name: &Name, names: &[Name]) -> bool
    ensures { result ≡ list_any (bytes_eq name.now) names.now }
{
    names
        .iter()
        .any(|other| name.as_bytes() == other.as_bytes())
}

/// The first name of the list that is no column of the table, or stands in the list already.
pub fn misplaced<'a, T: HasColumns>(table: &T, names: &'a [Name]) -> Option<&'a Name>
    ensures { option_copied result ≡ first_misplaced (T.has table.now) [] names.now }
{
    for (place, name) in names.iter().enumerate() {
        if !table.has_column(name) || is_among(name, &names[..place]) {
            return Some(name);
        }
    }
    None
}
