//! What new periods leave of old ones.
ghost use Rattle.std.specs.Prelude.{◌≡◌, ℕ, ◌++◌, ◌&&◌, not, IfOk, OnOk};
ghost use Rattle.std.specs.List.{All, Any};
ghost use Rattle.wm_base.specs.declared.instant.TheConstants.{END};
ghost use Rattle.wm_period.specs.Periods.{covered};
ghost use Rattle.wm_temporal.specs.Uncovered.{Follow, stretch, free, uncovered, IsLongest};

use std::alloc::Global;
use wm_base::{Instant, Memory, Period};

/// What the new periods leave free of each old one, one old period after another. Where the new ones stand in order these
/// are its longest parts that none of them covers; `free` says what else. Parts of two old periods stay two where they meet.
pub fn uncovered(alloc: Global, olds: &[Period], news: &[Period]) -> Result<Vec<Period>, Memory>
    ensures exact { IfOk result (λ list. list.items ≡ uncovered olds.now news.now) }
    ensures in_order { IfOk result (λ list. Follow 0 olds.now END → Follow 0 news.now END → Follow 0 list.items END) }
    ensures cells { IfOk result (λ list. Follow 0 news.now END → (t : ℕ) → covered list.items t ≡ (covered olds.now t && not (covered news.now t))) }
    ensures longest { IfOk result (λ list. Follow 0 olds.now END → Follow 0 news.now END → All (λ part. Any (λ old. IsLongest news.now old part) olds.now) list.items) }
{
    let mut list = Vec::new(alloc);
    for old in olds {
        push_free(&mut list, old, news)?;
    }
    Ok(list)
}

/// Puts what the new periods leave free of one old period behind the list.
pub fn push_free(into: &mut Vec<Period>, old: &Period, news: &[Period]) -> Result<(), Memory>
    ensures { OnOk result (into.new.items ≡ into.old.items ++ free old.now.from old.now.till news.now) }
{
    let till = old.till();
    let mut from = old.from();
    for new in news {
        push_stretch(into, from, new.from().min(till))?;
        from = from.max(new.till());
    }
    push_stretch(into, from, till)?;
    Ok(())
}

/// Puts the period from one instant to another behind the list, if the first is below the second.
fn push_stretch(into: &mut Vec<Period>, from: Instant, till: Instant) -> Result<(), Memory>
    ensures { OnOk result (into.new.items ≡ into.old.items ++ stretch from till) }
{
    if let Some(period) = Period::new(from, till) {
        into.push(period)?;
    }
    Ok(())
}
