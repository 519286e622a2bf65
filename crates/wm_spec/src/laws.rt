//! Laws of the model. Each is the contract of a function that does nothing.
ghost use Rattle.std.specs.Prelude.{◌≡◌, ℕ, List, [], ◌∷◌, ◌++◌};
ghost use Rattle.std.specs.Bool.{then_some};
ghost use Rattle.std.specs.List.{list_any};
ghost use Rattle.std.specs.Option.{option_or};
ghost use Rattle.wm_base.specs.declared.value.Value.{Value};
ghost use Rattle.wm_spec.specs.Lists.{Entry, Cell, told, told_of, covers, is_of, stamp_at};
ghost use Rattle.wm_spec.specs.Stretches.{keys, rows_of_key, value_at, AreMaximal, KeysAscend, is_key_in};

/// Later entries of a list lie over earlier ones, cell by cell.
pub fn later_entries_lie_over_earlier_ones()
    ensures { (xs ys : List Entry) (c : Cell) → told (xs ++ ys) c ≡ option_or (told ys c) (told xs c) }
{}

/// An entry more changes the cells that it covers, and no others.
pub fn an_entry_changes_its_own_cells()
    ensures { (es : List Entry) (e : Entry) (c : Cell) → told (es ++ e ∷ []) c ≡ option_or (then_some (covers e c) (told_of e)) (told es c) }
{}

/// The rows of a list are the maximal periods on which it holds a row of one stamp.
pub fn rows_are_maximal_stretches()
    ensures held { (es : List Entry) (table : ℕ) (key : List Value) (t : ℕ) → value_at (rows_of_key es table key) t ≡ stamp_at es table key t }
    ensures maximal { (es : List Entry) (table : ℕ) (key : List Value) → AreMaximal 0 (rows_of_key es table key) }
{}

/// The keys of a table ascend, each once, and are those of its entries and no others.
pub fn keys_ascend()
    ensures ascend { (es : List Entry) (table : ℕ) → KeysAscend (keys es table) }
    ensures of_entries { (es : List Entry) (table : ℕ) (key : List Value) → is_key_in key (keys es table) ≡ list_any (is_of table key) es }
{}
