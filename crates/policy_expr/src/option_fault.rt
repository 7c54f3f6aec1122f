ghost use Rattle.std.specs.Prelude.{◌≡◌};
ghost use Rattle.policy_expr.specs.Options as options;
ghost use Rattle.policy_expr.specs.declared.option_fault.OptionFault.TheVariants.{Unread};

use crate::fault::PolicyFault;
use refusal::{NumberedFault, OrMemory};
use thiserror::Error;

/// Why texts are no options of a request.
#[derive(Clone, Copy, Debug, PartialEq, Eq, Error)]
pub enum OptionFault {
    /// There is no option, or there are more than 16.
    #[error("a request has 1 to 16 policy options")]
    OptionCount,
    /// The policy of an option can't be read.
    #[error("{0}")]
    Unread(PolicyFault),
}

impl NumberedFault for OptionFault {
    ghost code_and_name = { options.code_and_name };

    fn code_and_name(self) -> (u16, &'static str) {
        match self {
            Self::OptionCount => (67, "OptionCount"),
            Self::Unread(fault) => fault.code_and_name(),
        }
    }
}

impl From<PolicyFault> for OptionFault {
    ghost from_gives = { λ f e. e ≡ Unread f };

    fn from(fault: PolicyFault) -> OptionFault {
        OptionFault::Unread(fault)
    }
}

/// Why a call that takes memory returned no options: memory ran out, or a refusal.
pub type OptionError = OrMemory<OptionFault>;
