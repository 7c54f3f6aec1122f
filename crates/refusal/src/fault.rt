ghost use Rattle.std.specs.Prelude.{◌≡◌};
ghost use Rattle.refusal.specs.declared.fault.OrMemory.TheVariants.{Memory, Refused};

use crate::numbered_fault::NumberedFault;
use std::alloc::{AllocError, AllocFailed};
use std::fmt::Display;
use thiserror::Error;

/// Why a call that takes memory returned no value: memory ran out, or the request was refused.
#[derive(Clone, Copy, Debug, PartialEq, Eq, Error)]
pub enum OrMemory<F: Display> {
    /// Memory ran out.
    #[error("out of memory")]
    Memory,
    /// The call refused the request, for this reason.
    #[error("{0}")]
    Refused(F),
}

impl<F: Display> From<AllocError> for OrMemory<F> {
    ghost from_gives = { λ _ e. e ≡ Memory };

    fn from(_error: AllocError) -> OrMemory<F> {
        OrMemory::Memory
    }
}

impl<F: Display, T: Drop> From<AllocFailed<T>> for OrMemory<F> {
    ghost from_gives = { λ _ e. e ≡ Memory };

    fn from(_error: AllocFailed<T>) -> OrMemory<F> {
        OrMemory::Memory
    }
}

impl<F: NumberedFault> From<F> for OrMemory<F> {
    ghost from_gives = { λ fault e. e ≡ Refused fault };

    fn from(fault: F) -> OrMemory<F> {
        OrMemory::Refused(fault)
    }
}
