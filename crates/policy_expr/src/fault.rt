ghost use Rattle.std.specs.Prelude.{◌≡◌};
ghost use Rattle.policy_expr.specs.Fault as faults;
ghost use Rattle.policy_expr.specs.declared.fault.PolicyFault.TheVariants.{BadPredicate};

use isd_as::AddrFault;
use refusal::{NumberedFault, OrMemory};
use thiserror::Error;

/// Why a text is no policy.
#[derive(Clone, Copy, Debug, PartialEq, Eq, Error)]
pub enum PolicyFault {
    /// The text of a sequence ends where a predicate or a parenthesis must come.
    #[error("a sequence ends where an item must come")]
    UnexpectedEnd,
    /// A predicate can't be read, or another token stands where one has to come.
    #[error("a hop predicate can't be read")]
    BadPredicate,
    /// A parenthesis is closed that was not opened, or is not closed.
    #[error("the parentheses of a sequence don't match")]
    Unbalanced,
    /// More than 32 parentheses are open at once.
    #[error("a sequence has at most 32 parentheses open at once")]
    TooDeep,
    /// A sequence has more than 256 nodes, or an access control list more than 256 entries.
    #[error("a sequence has at most 256 nodes, and a list at most 256 entries")]
    TooLarge,
    /// The last entry of an access control list has a predicate, or there is no entry.
    #[error("the last entry of a list has no predicate")]
    NoDefault,
    /// An entry before the last has no predicate.
    #[error("an entry without a predicate is the last of its list")]
    AfterDefault,
}

impl NumberedFault for PolicyFault {
    ghost code_and_name = { faults.code_and_name };

    fn code_and_name(self) -> (u16, &'static str) {
        match self {
            Self::UnexpectedEnd => (60, "UnexpectedEnd"),
            Self::BadPredicate => (61, "BadPredicate"),
            Self::Unbalanced => (62, "Unbalanced"),
            Self::TooDeep => (63, "TooDeep"),
            Self::TooLarge => (64, "TooLarge"),
            Self::NoDefault => (65, "NoDefault"),
            Self::AfterDefault => (66, "AfterDefault"),
        }
    }
}

impl From<AddrFault> for PolicyFault {
    ghost from_gives = { λ _ e. e ≡ BadPredicate };

    fn from(_fault: AddrFault) -> PolicyFault {
        PolicyFault::BadPredicate
    }
}

/// Why a call that takes memory returned no policy: memory ran out, or a refusal.
pub type PolicyError = OrMemory<PolicyFault>;
