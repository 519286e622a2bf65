ghost use Rattle.std.specs.Prelude.{◌≡◌};
ghost use Rattle.wm_engine.specs.Working.{fault_of};
ghost use Rattle.wm_engine.specs.declared.fault.LineFault.TheVariants.{Memory as NoMemory};

use thiserror::Error;
use wm_base::Memory;
use wm_draft::DraftFault;
use wm_faults::StoreFault;

/// Why a line was not answered. The engine is given up then, and the store is opened again.
#[derive(Clone, Copy, Debug, PartialEq, Eq, Error)]
pub enum LineFault {
    #[error("the disk failed")]
    Disk,
    #[error("the store was changed by another writer")]
    Changed,
    #[error("out of memory")]
    Memory,
}

impl From<Memory> for LineFault {
    ghost from_gives = { λ _ e. e ≡ NoMemory };

    fn from(_error: Memory) -> LineFault {
        LineFault::Memory
    }
}

impl From<DraftFault> for LineFault {
    ghost from_gives = { λ _ e. e ≡ NoMemory };

    fn from(_fault: DraftFault) -> LineFault {
        LineFault::Memory
    }
}

impl From<StoreFault> for LineFault {
    ghost from_gives = { λ fault e. e ≡ fault_of fault };

    fn from(fault: StoreFault) -> LineFault {
        match fault {
            StoreFault::Disk => LineFault::Disk,
            StoreFault::Changed => LineFault::Changed,
            StoreFault::Memory => LineFault::Memory,
        }
    }
}
