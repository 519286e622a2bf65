//! `==` and `<` of values.

ghost use Rattle.std.specs.Prelude.{refl};
ghost use Rattle.std.specs.Cmp.{partial_order_from_total, partial_equiv_from_equiv};
ghost use Rattle.std.specs.Ordering.{as_partial_cmp, eq_by_cmp};
ghost use Rattle.std.proofs.lemmas.Cmp.{eq_by_cmp_equiv};
ghost use Rattle.wm_base.specs.Orders.{value_order_total};
ghost use Rattle.wm_base.specs.Value.{value_order};

use crate::value::Value;
use std::cmp::Ordering;

impl PartialEq for Value {
    ghost eq = { eq_by_cmp value_order };

    ghost laws = { partial_equiv_from_equiv (eq_by_cmp_equiv value_order_total) };

    fn eq(&self, other: &Value) -> bool {
        self.order(other) == Ordering::Equal
    }
}

impl Eq for Value {
    ghost laws = { eq_by_cmp_equiv value_order_total };
}

impl PartialOrd for Value {
    ghost partial_cmp = { as_partial_cmp value_order };

    ghost laws = { partial_order_from_total value_order_total };

    fn partial_cmp(&self, other: &Value) -> Option<Ordering> {
        Some(self.order(other))
    }
}

impl Ord for Value {
    ghost cmp = { value_order };

    ghost total = { value_order_total };

    ghost matches_partial_cmp = { λ _ _. refl };

    ghost matches_eq = { λ _ _. refl };

    fn cmp(&self, other: &Value) -> Ordering {
        self.order(other)
    }
}
