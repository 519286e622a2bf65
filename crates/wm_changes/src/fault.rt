//! Why edits are not drafted.
ghost use Rattle.std.specs.Prelude.{◌≡◌};
ghost use Rattle.wm_changes.specs.declared.fault.DraftFault.TheVariants.{Memory as NoMemory};

use thiserror::Error;
use wm_base::Memory;

/// Why the edits of a line are not drafted.
#[derive(Clone, Copy, Debug, PartialEq, Eq, Error)]
pub enum DraftFault {
    #[error("out of memory")]
    Memory,
    /// Too few ids are left for the records that they add.
    #[error("out of ids")]
    Ids,
}

impl From<Memory> for DraftFault {
    ghost from_gives = { λ _ e. e ≡ NoMemory };

    fn from(_error: Memory) -> DraftFault {
        DraftFault::Memory
    }
}
