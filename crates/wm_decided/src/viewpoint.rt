//! The points that a session compares.
ghost use Rattle.std.specs.Prelude.{◌≡◌, IfOk};

use std::alloc::Global;
use std::marker::Model;
use wm_base::{Memory, Name};

/// A point: what is newest in the workspace of a name, or a savepoint of it. Both are looked up whenever it is used.
#[derive(Drop)]
pub struct Viewpoint {
    pub workspace: Name,
    pub savepoint: Option<Name>,
}

impl Model for Viewpoint {
    ghost use Rattle.wm_state.specs.State.{Viewpoint as ViewpointState};

    ghost Value = { ViewpointState };

    ghost view = { λ v. record { workspace = v.workspace; savepoint = v.savepoint } };
}

/// The two points that are compared.
#[derive(Drop)]
pub struct Difference {
    pub first: Viewpoint,
    pub second: Viewpoint,
}

impl Model for Difference {
    ghost use Rattle.wm_state.specs.State.{Difference as DifferenceState};

    ghost Value = { DifferenceState };

    ghost view = { λ d. record { first = d.first; second = d.second } };
}

/// A copy of a name, where there is one.
fn name_copy(alloc: Global, name: &Option<Name>) -> Result<Option<Name>, Memory>
    ensures { IfOk result (λ copy. copy ≡ name.now) }
{
    match name {
        Some(name) => Ok(Some(name.copy(alloc)?)),
        None => Ok(None),
    }
}

impl Viewpoint {
    fn copy(&self, alloc: Global) -> Result<Viewpoint, Memory>
        ensures { IfOk result (λ copy. copy ≡ self.now) }
    {
        Ok(Viewpoint {
            workspace: self.workspace.copy(alloc)?,
            savepoint: name_copy(alloc, &self.savepoint)?,
        })
    }
}

impl Difference {
    /// A copy.
    pub fn copy(&self, alloc: Global) -> Result<Difference, Memory>
        ensures { IfOk result (λ copy. copy ≡ self.now) }
    {
        Ok(Difference {
            first: self.first.copy(alloc)?,
            second: self.second.copy(alloc)?,
        })
    }
}
