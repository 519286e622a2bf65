//! `==` and `<` of the keys of rows.

ghost use Rattle.std.specs.Prelude.{refl};
ghost use Rattle.std.specs.Cmp.{partial_order_from_total, partial_equiv_from_equiv};
ghost use Rattle.std.specs.Ordering.{as_partial_cmp, eq_by_cmp};
ghost use Rattle.std.proofs.lemmas.Cmp.{eq_by_cmp_equiv};
ghost use Rattle.wm_rows.specs.RowOrder.{row_order_total};
ghost use Rattle.wm_rows.specs.Rows.{row_order};

use crate::row_key::RowKey;
use std::cmp::Ordering;

impl PartialEq for RowKey {
    ghost eq = { eq_by_cmp row_order };

    ghost laws = { partial_equiv_from_equiv (eq_by_cmp_equiv row_order_total) };

    fn eq(&self, other: &RowKey) -> bool {
        self.compare(other) == Ordering::Equal
    }
}

impl Eq for RowKey {
    ghost laws = { eq_by_cmp_equiv row_order_total };
}

impl PartialOrd for RowKey {
    ghost partial_cmp = { as_partial_cmp row_order };

    ghost laws = { partial_order_from_total row_order_total };

    fn partial_cmp(&self, other: &RowKey) -> Option<Ordering> {
        Some(self.compare(other))
    }
}

impl Ord for RowKey {
    ghost cmp = { row_order };

    ghost total = { row_order_total };

    ghost matches_partial_cmp = { λ _ _. refl };

    ghost matches_eq = { λ _ _. refl };

    fn cmp(&self, other: &RowKey) -> Ordering {
        self.compare(other)
    }
}
