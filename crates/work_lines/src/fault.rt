ghost use Rattle.std.specs.Prelude.{◌≡◌};
ghost use Rattle.work_lines.specs.declared.fault.WorkFault.TheVariants as faults;
ghost use Rattle.work_lines.specs.Work.{of_workers};

use std::alloc::AllocError;
use thiserror::Error;

/// Why packets were not carried, or their ends not reported.
#[derive(Clone, Copy, Debug, PartialEq, Eq, Error)]
pub enum WorkFault {
    /// The lines were not answered to their end.
    #[error("{0}")]
    Lines(event_lines::RunFault),
    /// There are not 1 to 8 workers.
    #[error("workers refused")]
    Workers,
    /// Memory for a flight, for the run or for the report ran out, after all lines were answered.
    #[error("out of memory")]
    Memory,
    /// The report was not written, or not all of it.
    #[error("write failed")]
    Write,
}

impl From<event_lines::RunFault> for WorkFault {
    ghost from_gives = { λ fault e. e ≡ faults.Lines fault };

    fn from(fault: event_lines::RunFault) -> WorkFault {
        WorkFault::Lines(fault)
    }
}

impl From<router_workers::RunFault> for WorkFault {
    ghost from_gives = { λ fault e. e ≡ of_workers fault };

    fn from(fault: router_workers::RunFault) -> WorkFault {
        match fault {
            router_workers::RunFault::Workers => WorkFault::Workers,
            router_workers::RunFault::Memory => WorkFault::Memory,
        }
    }
}

impl From<AllocError> for WorkFault {
    ghost from_gives = { λ _ e. e ≡ faults.Memory };

    fn from(_error: AllocError) -> WorkFault {
        WorkFault::Memory
    }
}
