ghost use Rattle.std.specs.Prelude.{◌≡◌};
ghost use Rattle.path_report.specs.declared.fault.ReportFault.TheVariants.{Memory, Write};

use std::alloc::{AllocError, AllocFailed};
use streams::WriteFailed;
use thiserror::Error;

/// Why a report is not whole.
#[derive(Clone, Copy, Debug, PartialEq, Eq, Error)]
pub enum ReportFault {
    /// Memory ran out.
    #[error("out of memory")]
    Memory,
    /// A write or a flush failed.
    #[error("write failed")]
    Write,
}

impl From<AllocError> for ReportFault {
    ghost from_gives = { λ _ e. e ≡ Memory };

    fn from(_error: AllocError) -> ReportFault {
        ReportFault::Memory
    }
}

impl<T: Drop> From<AllocFailed<T>> for ReportFault {
    ghost from_gives = { λ _ e. e ≡ Memory };

    fn from(_error: AllocFailed<T>) -> ReportFault {
        ReportFault::Memory
    }
}

impl From<WriteFailed> for ReportFault {
    ghost from_gives = { λ _ e. e ≡ Write };

    fn from(_error: WriteFailed) -> ReportFault {
        ReportFault::Write
    }
}
