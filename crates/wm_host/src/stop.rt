//! Why a command ends before its end.
ghost use Rattle.std.specs.Prelude.{◌≡◌};
ghost use Rattle.wm_host.specs.declared.stop.Stop.TheVariants.{Memory as NoMemory, SourceFault};
ghost use Rattle.wm_host.specs.Cause.{stop_of_say, stop_of_line, stop_of_open, stop_of_make};

use thiserror::Error;
use wm_base::Memory;
use wm_engine::LineFault;
use wm_faults::{Damage, MakeFault, OpenFault};
use wm_station::{SayFailed, SourceFailed};

/// Why a command ends before its end.
#[derive(Clone, Copy, Debug, PartialEq, Eq, Error)]
pub(crate) enum Stop {
    #[error("the source failed")]
    SourceFault,
    #[error("the answers failed")]
    SayFault,
    #[error("the disk failed")]
    DiskFault,
    #[error("the file is no store")]
    NotStore,
    #[error("page {page} is damaged: {kind:?}")]
    Damaged { page: u64, kind: Damage },
    #[error("there is a store already")]
    Exists,
    /// The script has more than 2^30 bytes.
    #[error("the script is too long")]
    InputLimit,
    #[error("out of memory")]
    Memory,
    #[error("the store was changed by another writer")]
    Changed,
}

impl From<Memory> for Stop {
    ghost from_gives = { λ _ e. e ≡ NoMemory };

    fn from(_error: Memory) -> Stop {
        Stop::Memory
    }
}

impl From<SourceFailed> for Stop {
    ghost from_gives = { λ _ e. e ≡ SourceFault };

    fn from(_error: SourceFailed) -> Stop {
        Stop::SourceFault
    }
}

impl From<SayFailed> for Stop {
    ghost from_gives = { λ failed e. e ≡ stop_of_say failed };

    fn from(failed: SayFailed) -> Stop {
        match failed {
            SayFailed::Failed => Stop::SayFault,
            SayFailed::Memory => Stop::Memory,
        }
    }
}

impl From<LineFault> for Stop {
    ghost from_gives = { λ fault e. e ≡ stop_of_line fault };

    fn from(fault: LineFault) -> Stop {
        match fault {
            LineFault::Disk => Stop::DiskFault,
            LineFault::Changed => Stop::Changed,
            LineFault::Memory => Stop::Memory,
        }
    }
}

impl From<OpenFault> for Stop {
    ghost from_gives = { λ fault e. e ≡ stop_of_open fault };

    fn from(fault: OpenFault) -> Stop {
        match fault {
            OpenFault::Disk => Stop::DiskFault,
            OpenFault::NotStore => Stop::NotStore,
            OpenFault::Damaged { page, kind } => Stop::Damaged { page, kind },
            OpenFault::Memory => Stop::Memory,
        }
    }
}

impl From<MakeFault> for Stop {
    ghost from_gives = { λ fault e. e ≡ stop_of_make fault };

    fn from(fault: MakeFault) -> Stop {
        match fault {
            MakeFault::Disk => Stop::DiskFault,
            MakeFault::Exists => Stop::Exists,
            MakeFault::Memory => Stop::Memory,
        }
    }
}
