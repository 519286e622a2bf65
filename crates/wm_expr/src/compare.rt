//! How values compare.
ghost use Rattle.std.specs.Prelude.{◌≡◌};
ghost use Rattle.wm_base.specs.Value.{compare_of};
ghost use Rattle.wm_spec.specs.Conditions.{is_met as met, test as tested, is_null as null, truth_if, one_of as any_of, between as lies_between, negated_if};
ghost use Rattle.wm_expr.specs.Seen.{seen_value};

use crate::operands::constant_seen;
use crate::seen::Seen;
use std::cmp::Ordering;
use wm_base::Truth;
use wm_syntax::cond::Cmp;
use wm_syntax::constant::Const;

/// How two values compare, or None exactly where one is NULL or they differ in type.
pub fn compare(one: Seen, other: Seen) -> Option<Ordering>
    ensures { result ≡ compare_of (seen_value one.entry) (seen_value other.entry) }
{
    match (one, other) {
        (Seen::Number(m), Seen::Number(n)) => Some(m.cmp(&n)),
        (Seen::Bytes(s), Seen::Bytes(t)) => Some(s.cmp(t)),
        (Seen::Moment(i), Seen::Moment(j)) => Some(i.cmp(&j)),
        (Seen::Ends(from, till), Seen::Ends(begin, end)) => Some(
            from.cmp(&begin).then(till.cmp(&end)),
        ),
        _ => None,
    }
}

/// Whether the mark holds of two values that compare so.
fn is_met(mark: Cmp, order: Ordering) -> bool
    ensures { result ≡ met mark order }
{
    match mark {
        Cmp::Eq => order.is_eq(),
        Cmp::NotEq | Cmp::BangEq => order.is_ne(),
        Cmp::Lt => order.is_lt(),
        Cmp::Le => order.is_le(),
        Cmp::Gt => order.is_gt(),
        Cmp::Ge => order.is_ge(),
    }
}

/// `Yes` or `No`.
pub fn truth_if(holds: bool) -> Truth
    ensures { result ≡ truth_if holds }
{
    if holds { Truth::Yes } else { Truth::No }
}

/// How true a comparison is: unknown where one of the two is NULL.
pub fn test(mark: Cmp, one: Seen, other: Seen) -> Truth
    ensures { result ≡ tested mark (seen_value one.entry) (seen_value other.entry) }
{
    match compare(one, other) {
        Some(order) => truth_if(is_met(mark, order)),
        None => Truth::Unknown,
    }
}

pub fn is_null(value: Seen) -> bool
    ensures { result ≡ null (seen_value value.entry) }
{
    matches!(value, Seen::Nothing)
}

/// How true it is that the value is one of the list: that it is equal to the first, or to the second, and so on.
pub fn one_of(value: Seen, list: &[Const]) -> Truth
    ensures { result ≡ any_of (seen_value value.entry) list.now }
{
    let mut truth = Truth::No;
    for constant in list {
        truth = truth.or(test(Cmp::Eq, value, constant_seen(constant)));
    }
    truth
}

/// How true it is that the value is at least `low` and at most `high`.
pub fn between(value: Seen, low: Seen, high: Seen) -> Truth
    ensures { result ≡ lies_between (seen_value value.entry) (seen_value low.entry) (seen_value high.entry) }
{
    test(Cmp::Ge, value, low).and(test(Cmp::Le, value, high))
}

/// The truth with a NOT before it where one stands there.
pub fn negate_if(negated: bool, truth: Truth) -> Truth
    ensures { result ≡ negated_if negated truth }
{
    if negated { truth.not() } else { truth }
}
