//! How much values weigh together.
ghost use Rattle.std.specs.Prelude.{◌≡◌, nat_le};
ghost use Rattle.wm_graph.specs.Rules.{weight};

use wm_base::Value;

/// Whether the values weigh no more than so much together.
pub fn weigh_at_most(values: &[Value], most: u64) -> bool
    ensures { result ≡ nat_le (weight values.now) most }
{
    let mut left = most;
    for value in values {
        let weight = value.weight();
        if weight > left {
            return false;
        }
        left -= weight;
    }
    true
}
