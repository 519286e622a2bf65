//! Laws of net lists, of what is gained, of conflicts, of last positions and of counts. Each is the contract of a
//! function that does nothing.
ghost use Rattle.std.specs.Prelude.{◌≡◌, ◌≤◌, ◌+◌, ℕ, List, [], ◌∷◌, ◌++◌, map, length, take, drop, Bool, true, false, not, ◌&&◌, ◌||◌, nat_lt, if◌then◌else◌, Some, None, slice_get};
ghost use Rattle.std.specs.List.{All};
ghost use Rattle.wm_base.specs.declared.value.Value.{Value};
ghost use Rattle.wm_spec.specs.Lists.{Entry, Cell, Told, told, touched, covers, reach, stamp_at, Alike};
ghost use Rattle.wm_spec.specs.Stretches.{cuts, rows_of_key};
ghost use Rattle.wm_spec.specs.declared.record.cell_range.CellRange.{CellRange};
ghost use Rattle.wm_net.specs.Counts.{cut_count, IsSteady, has_ends, has_cuts, Meet, AreApart, has_cell};
ghost use Rattle.wm_net.specs.Groups.{Group};
ghost use Rattle.wm_net.specs.Listed.{Stretch, IsListing, stretches, with_stamp, same_number};
ghost use Rattle.wm_net.specs.Nets.{net, gained, gained_at, IsGained, IsToldListing, Stamped};
ghost use Rattle.wm_net.specs.Places.{Once};
ghost use Rattle.wm_net.specs.Conflicts.{Sides, Stamps, same_stamps, conflict_at, conflicts, conflicts_in, grouped, in_table};

/// A net list holds what its list holds, covers each cell once, and is the only list that goes by table, key and from,
/// joined, and holds that.
pub fn a_net_list_holds_what_its_list_holds()
    ensures alike { (moment : ℕ) (user : List ℕ) (tells : ℕ → Told) (es : List Entry) → Stamped tells es → Alike (net moment user es) es }
    ensures once { (moment : ℕ) (user : List ℕ) (es : List Entry) → Once (net moment user es) }
    ensures only { (moment : ℕ) (user : List ℕ) (tells : ℕ → Told) (es xs : List Entry) → Stamped tells es → IsToldListing moment user (told es) xs
        → xs ≡ net moment user es }
{}

/// The rows of a key are the stretches of the stamps that stand there, joined where stamps are equal.
pub fn rows_are_stretches_of_stamps()
    ensures { (es : List Entry) (table : ℕ) (key : List Value)
        → rows_of_key es table key ≡ map with_stamp (stretches same_number (stamp_at es table key) 0 (cuts es table key)) }
{}

/// What is gained is what is pending where own entries touch nothing, and no other list that goes by table, key and
/// from, joined, is so.
pub fn own_entries_keep_out_what_is_pending()
    ensures held { (moment : ℕ) (user : List ℕ) (tells : ℕ → Told) (own pending : List Entry) → Stamped tells pending
        → IsGained own pending (gained moment user own pending) }
    ensures only { (moment : ℕ) (user : List ℕ) (tells : ℕ → Told) (own pending xs : List Entry) → Stamped tells pending
        → IsToldListing moment user (gained_at own pending) xs → xs ≡ gained moment user own pending }
{}

/// The stretches of conflict go by table, key and from, are as long as they can be, and no other list is so. The same is
/// said of those of a table, in that table; and the first of all is the first of its own.
pub fn conflicts_are_maximal_stretches()
    ensures are { (s : Sides) → IsListing same_stamps grouped (conflict_at s) (conflicts s) }
    ensures only { (s : Sides) (xs : List (Group × Stretch Stamps)) → IsListing same_stamps grouped (conflict_at s) xs → xs ≡ conflicts s }
    ensures table { (table : ℕ) (s : Sides) (xs : List (Group × Stretch Stamps)) → IsListing same_stamps grouped (in_table table (conflict_at s)) xs
        → xs ≡ conflicts_in table s }
    ensures first { (s : Sides) (x : Group × Stretch Stamps) → slice_get (conflicts s) 0 ≡ Some x → slice_get (conflicts_in x.0.table s) 0 ≡ Some x }
{}

/// The last position decides what touches a cell from a position on.
pub fn last_positions_decide()
    ensures behind { (n : ℕ) (es : List Entry) (c : Cell) → touched (drop n es) c ≡ nat_lt n (reach es c) }
    ensures append { (xs ys : List Entry) (c : Cell) → reach (xs ++ ys) c ≡ (if touched ys c then reach ys c + length xs else reach xs c) }
    ensures once { (xs : List Entry) (e : Entry) (ys : List Entry) (c : Cell) → Once (xs ++ e ∷ ys) → covers e c ≡ true
        → reach (xs ++ e ∷ ys) c ≡ length xs + 1 }
{}

/// What is pending from a position of a parent's log on is what the parent holds where its last position is at least
/// that, and what is own is what a workspace holds where own entries touch: both are told with no log at hand.
pub fn no_log_is_needed()
    ensures pending { (first base own log : List Entry) (from : ℕ) (c : Cell) → Alike (base ++ own) (first ++ log)
        → told (drop from log) c ≡ (if nat_lt from (reach log c) then told (base ++ own) c else None) }
    ensures own { (base own : List Entry) (c : Cell) → told own c ≡ (if touched own c then told (base ++ own) c else None) }
{}

/// A refresh keeps that a workspace's base and own changes hold what it was born with and its log do.
pub fn a_refresh_keeps_lists_alike()
    ensures { (first base own log p_first p_base p_own p_log : List Entry) (from : ℕ) (gained : List Entry)
        → Alike (base ++ own) (first ++ log) → Alike (p_base ++ p_own) (p_first ++ p_log) → Alike base (p_first ++ take from p_log)
        → IsGained own (drop from p_log) gained → Alike ((p_base ++ p_own) ++ own) (first ++ (log ++ gained)) }
{}

/// So does a merge.
pub fn a_merge_keeps_lists_alike()
    ensures { (first base own log p_first p_base p_own p_log : List Entry) (from : ℕ) (net gained : List Entry)
        → Alike (base ++ own) (first ++ log) → Alike (p_base ++ p_own) (p_first ++ p_log) → Alike base (p_first ++ take from p_log)
        → Alike net own → IsGained own (drop from p_log) gained → Alike ((p_base ++ (p_own ++ net)) ++ []) (first ++ (log ++ gained)) }
{}

/// The stretches into which cells fall grow in number with the cells and with what is cut, and those of cells apart from
/// others come on top of those of the others.
pub fn counts_grow_with_cells_and_cuts()
    ensures cuts { (es fs : List Entry) (f : Cell → Bool) → has_cuts fs es ≡ true → cut_count es f ≤ cut_count fs f }
    ensures cells { (es : List Entry) (f g : Cell → Bool) → ((c : Cell) → f c ≡ true → g c ≡ true)
        → cut_count es f ≤ cut_count es g }
    ensures apart { (es : List Entry) (f g : Cell → Bool) → ((c : Cell) → f c ≡ true → g c ≡ false)
        → cut_count es f + cut_count es g ≤ cut_count es (λ c. f c || g c) }
{}

/// A net list is no longer than the stretches of the cells of its list, and what is gained than those of the cells that
/// are pending and not own; both together are no longer than the stretches of all cells of the two lists.
pub fn lists_are_no_longer_than_their_cells_are_cut()
    ensures net { (moment : ℕ) (user : List ℕ) (es own : List Entry) → has_cuts es own ≡ true
        → length (net moment user own) ≤ cut_count es (touched own) }
    ensures gained { (moment : ℕ) (user : List ℕ) (es own pending : List Entry)
        → has_cuts es own ≡ true → has_cuts es pending ≡ true
        → length (gained moment user own pending) ≤ cut_count es (λ c. touched pending c && not (touched own c)) }
    ensures both { (moment : ℕ) (user : List ℕ) (es own pending : List Entry)
        → has_cuts es own ≡ true → has_cuts es pending ≡ true
        → length (net moment user own) + length (gained moment user own pending)
        ≤ cut_count es (λ c. touched own c || touched pending c) }
{}

/// Things that share no cell and change at cuts alone, each with one of some cells, are no more than the stretches of
/// these cells: things that are told by number, and ranges of cells that end where entries do.
pub fn things_apart_are_no_more_than_stretches()
    ensures things { (es : List Entry) (f : Cell → Bool) (covered : ℕ → Cell → Bool) (xs : List ℕ) → IsSteady es f
        → All (λ x. IsSteady es (covered x)) xs → All (λ x. Meet (covered x) f) xs → AreApart covered xs
        → length xs ≤ cut_count es f }
    ensures ranges { (es own : List Entry) (xs : List CellRange) → has_cuts es own ≡ true
        → All (λ r. has_ends es r ≡ true) xs → All (λ r. Meet (has_cell r) (touched own)) xs → AreApart has_cell xs
        → length xs ≤ cut_count es (touched own) }
{}
