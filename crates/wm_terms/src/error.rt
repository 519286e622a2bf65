ghost use Rattle.std.specs.Prelude.{◌≡◌};
ghost use Rattle.wm_terms.specs.declared.error.ParseError.TheVariants.{Memory as OutOfMemory};

use std::alloc::{AllocError, AllocFailed};
use thiserror::Error;
use wm_base::Memory;

/// Why symbols could not be read.
#[derive(Clone, Copy, Debug, PartialEq, Error)]
pub enum ParseError {
    #[error("out of memory")]
    Memory,
    /// No form continues a token; so many bytes are left from it on.
    #[error("a token that no form continues")]
    Syntax(usize),
}

impl From<Memory> for ParseError {
    ghost from_gives = { λ _ e. e ≡ OutOfMemory };

    fn from(_memory: Memory) -> ParseError {
        ParseError::Memory
    }
}

impl From<AllocError> for ParseError {
    ghost from_gives = { λ _ e. e ≡ OutOfMemory };

    fn from(_error: AllocError) -> ParseError {
        ParseError::Memory
    }
}

impl<T: Drop> From<AllocFailed<T>> for ParseError {
    ghost from_gives = { λ _ e. e ≡ OutOfMemory };

    fn from(_failed: AllocFailed<T>) -> ParseError {
        ParseError::Memory
    }
}
