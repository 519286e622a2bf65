//! What stands on all sides of a key: in the base of a workspace, in its parent and in itself.

ghost use Rattle.std.specs.Prelude.{◌≡◌};
ghost use Rattle.wm_net.specs.Conflicts.{same_stamp, same_stamps};
ghost use Rattle.wm_pending.specs.Sides.{stamps_in};

use wm_period::Pieces;

/// The pieces of one key of a workspace's base, its parent and itself, and those that lie where both changed something.
#[derive(Drop)]
pub struct Sides {
    pub contested: Pieces,
    pub base: Pieces,
    pub parent: Pieces,
    pub child: Pieces,
}

/// The stamps of the rows that stand on the sides at an instant, or None where none does.
#[derive(Clone, Copy)]
pub struct SideStamps {
    pub base: Option<u64>,
    pub parent: Option<u64>,
    pub child: Option<u64>,
}

/// Whether one row stands at two instants, or none does.
pub fn stand_alike(one: Option<u64>, other: Option<u64>) -> bool
    ensures { result ≡ same_stamp one other }
{
    match (one, other) {
        (None, None) => true,
        (Some(first), Some(second)) => first == second,
        _ => false,
    }
}

impl SideStamps {
    /// Whether each side has one row or none at two instants.
    pub fn equals(self, other: SideStamps) -> bool
        ensures { result ≡ same_stamps (stamps_in self) (stamps_in other) }
    {
        stand_alike(self.base, other.base)
            && (stand_alike(self.parent, other.parent) && stand_alike(self.child, other.child))
    }
}
