//! The values that the rows of a group have at the columns of GROUP BY.
ghost use Rattle.std.specs.Prelude.{◌≡◌, ◌∷◌, fold, refl};
ghost use Rattle.std.specs.Cmp.{partial_order_from_total, partial_equiv_from_equiv};
ghost use Rattle.std.specs.Ordering.{as_partial_cmp, eq_by_cmp};
ghost use Rattle.std.proofs.lemmas.Cmp.{eq_by_cmp_equiv};
ghost use Rattle.wm_select.specs.Hashes.{all_writes, equal_writes, writes_of};
ghost use Rattle.wm_ordering.specs.Orders.{left_to_right_total};
ghost use Rattle.wm_ordering.specs.Sorting.{left_to_right};

use std::cmp::Ordering;
use std::hash::{Hash, Hasher};
use std::marker::Model;
use wm_base::{Value, Values};
use wm_ordering::order::{ascending, left_to_right};

/// The values that the rows of a group have at the columns of GROUP BY, in the order of groups: from left to right,
/// each ascending.
#[derive(Drop)]
pub struct GroupKey {
    first: Value,
    others: Values,
}

impl Model for GroupKey {
    ghost use Rattle.std.specs.Prelude.{List, ◌∷◌};
    ghost use Rattle.wm_base.specs.declared.value.Value.{Value as OneValue};

    ghost Value = { List OneValue };

    ghost view = { λ k. k.first ∷ k.others };
}

impl GroupKey {
    /// The key of these values.
    pub fn new(first: Value, others: Values) -> GroupKey
        ensures { result ≡ first ∷ others }
    {
        GroupKey { first, others }
    }

    /// How two groups stand to one another.
    fn compare(&self, other: &GroupKey) -> Ordering
        ensures { result ≡ left_to_right self.now other.now }
    {
        match ascending(&self.first, &other.first) {
            Ordering::Equal => left_to_right(self.others.as_slice(), other.others.as_slice()),
            order => order,
        }
    }
}

impl PartialEq for GroupKey {
    ghost eq = { eq_by_cmp left_to_right };

    ghost laws = { partial_equiv_from_equiv (eq_by_cmp_equiv left_to_right_total) };

    fn eq(&self, other: &GroupKey) -> bool {
        self.compare(other) == Ordering::Equal
    }
}

impl Eq for GroupKey {
    ghost laws = { eq_by_cmp_equiv left_to_right_total };
}

impl PartialOrd for GroupKey {
    ghost partial_cmp = { as_partial_cmp left_to_right };

    ghost laws = { partial_order_from_total left_to_right_total };

    fn partial_cmp(&self, other: &GroupKey) -> Option<Ordering> {
        Some(self.compare(other))
    }
}

impl Ord for GroupKey {
    ghost cmp = { left_to_right };

    ghost total = { left_to_right_total };

    ghost matches_partial_cmp = { λ _ _. refl };

    ghost matches_eq = { λ _ _. refl };

    fn cmp(&self, other: &GroupKey) -> Ordering {
        self.compare(other)
    }
}

/// Feeds a value to a hash.
fn feed<H: Hasher>(value: &Value, state: &mut H)
    ensures { state.new ≡ fold H.write state.old (writes_of value.now) }
{
    match value {
        Value::Null => {}
        Value::Num(number) => state.write_i64(*number),
        Value::Text(text) => state.write(text.as_bytes()),
        Value::Time(instant) => state.write_u64(instant.seconds()),
        Value::Span(period) => {
            state.write_u64(period.from().seconds());
            state.write_u64(period.till().seconds());
        }
    }
}

/// Feeds values to a hash, one behind another.
fn feed_all<H: Hasher>(values: &[Value], state: &mut H)
    ensures { state.new ≡ fold H.write state.old (all_writes values.now) }
{
    if let [value, others @ ..] = values {
        feed(value, state);
        feed_all(others, state);
    }
}

impl Hash for GroupKey {
    ghost hash_input = { all_writes };

    ghost respects_eq = { equal_writes };

    fn hash<H: Hasher>(&self, state: &mut H) {
        feed(&self.first, state);
        feed_all(self.others.as_slice(), state);
    }
}
