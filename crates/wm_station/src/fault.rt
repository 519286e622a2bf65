//! What goes wrong outside.
ghost use Rattle.std.specs.Prelude.{◌≡◌};
ghost use Rattle.wm_station.specs.declared.fault.DiskFailed.TheVariants.{Memory};
ghost use Rattle.wm_station.specs.declared.fault.SayFailed.TheVariants.{Memory as Unsaid};

use std::alloc::{AllocError, AllocFailed};
use thiserror::Error;

/// The source of a script gave no bytes.
#[derive(Clone, Copy, Debug, PartialEq, Eq, Error)]
#[error("the source failed")]
pub struct SourceFailed;

/// Why a call on the file was not done.
#[derive(Clone, Copy, Debug, PartialEq, Eq, Error)]
pub enum DiskFailed {
    /// The disk failed, and its count of faults rose.
    #[error("the disk failed")]
    Failed,
    /// A disk in memory wants memory.
    #[error("out of memory")]
    Memory,
}

/// Why bytes of an answer were not said.
#[derive(Clone, Copy, Debug, PartialEq, Eq, Error)]
pub enum SayFailed {
    /// The way out failed, and its count of faults rose.
    #[error("the answers failed")]
    Failed,
    /// A station in memory wants memory.
    #[error("out of memory")]
    Memory,
}

impl From<AllocError> for DiskFailed {
    ghost from_gives = { λ _ e. e ≡ Memory };

    fn from(_: AllocError) -> Self {
        DiskFailed::Memory
    }
}

impl From<AllocError> for SayFailed {
    ghost from_gives = { λ _ e. e ≡ Unsaid };

    fn from(_: AllocError) -> Self {
        SayFailed::Memory
    }
}

impl<T: Drop> From<AllocFailed<T>> for DiskFailed {
    ghost from_gives = { λ _ e. e ≡ Memory };

    fn from(_: AllocFailed<T>) -> Self {
        DiskFailed::Memory
    }
}
