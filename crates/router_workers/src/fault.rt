ghost use Rattle.router_workers.specs.Fault as faults;

use refusal::NumberedFault;
use std::alloc::AllocError;
use thiserror::Error;

/// Why a run did not take place.
#[derive(Clone, Copy, Debug, PartialEq, Eq, Error)]
pub enum RunFault {
    /// There are not 1 to 8 workers.
    #[error("a run has 1 to 8 workers")]
    Workers,
    /// Memory ran out, or a thread could not be started, before any worker took a flight.
    #[error("there is no memory for the run")]
    Memory,
}

impl NumberedFault for RunFault {
    ghost code_and_name = { faults.code_and_name };

    fn code_and_name(self) -> (u16, &'static str) {
        match self {
            Self::Workers => (120, "Workers"),
            Self::Memory => (121, "Memory"),
        }
    }
}
