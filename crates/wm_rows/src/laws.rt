//! Laws of what is stored and seen. Each is the contract of a function that does nothing.

ghost use Rattle.std.specs.Prelude.{◌≡◌, ℕ, true, nat_eq, List, ◌∷◌, None};
ghost use Rattle.std.specs.List.{list_any};
ghost use Rattle.std.specs.Option.{option_map, option_or};
ghost use Rattle.wm_base.specs.declared.value.Value.{Value};
ghost use Rattle.wm_period.specs.Pieces.{held_at};
ghost use Rattle.wm_rows.specs.Entries.{HavePeriods, held_of, pieces_of};
ghost use Rattle.wm_rows.specs.Rows.{Layers, own_in, seen_in, stored};
ghost use Rattle.wm_rows.specs.declared.row_key.RowKey.{RowKey as Row};
ghost use Rattle.wm_spec.specs.Lists.{Entry, told};
ghost use Rattle.wm_tree.specs.Versions.{IsTree, path_in};
ghost use Rattle.wm_tree.specs.declared.version.Version.{Version};

/// A list of entries holds at each cell what its pieces hold, put over one another in the order of the
/// entries.
pub fn a_list_holds_what_its_pieces_hold()
    ensures { (es : List Entry) (table : ℕ) (key : List Value) (t : ℕ) → HavePeriods es → held_at (pieces_of table key es) t ≡ option_map held_of (told es (record { table = table; key = key; time = t })) }
{}

/// A version sees what is its own above a base on its path, and elsewhere what the base sees.
pub fn what_is_own_lies_over_the_base()
    ensures { (tree : List Version) (layers : Layers) (version base : ℕ) (row : Row) (t : ℕ) → IsTree tree → list_any (nat_eq base) (path_in tree version) ≡ true → seen_in tree layers version row t ≡ option_or (own_in tree layers version base row t) (seen_in tree layers base row t) }
{}

/// A version that stores nothing sees what the version under which it was added saw.
pub fn a_version_that_stores_nothing_sees_its_parent()
    ensures { (tree grown : List Version) (layers : Layers) (version parent : ℕ) (row : Row) (t : ℕ) → path_in grown version ≡ version ∷ path_in tree parent → stored layers version row t ≡ None → seen_in grown layers version row t ≡ seen_in tree layers parent row t }
{}
