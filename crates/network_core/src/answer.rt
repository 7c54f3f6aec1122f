ghost use Rattle.std.specs.Prelude.{◌≡◌, slice_get};
ghost use Rattle.std.specs.Option.{ok_or};
ghost use Rattle.refusal.specs.Refusal.{Gives};
ghost use Rattle.network_core.specs.declared.fault.EventFault.TheVariants as faults;

use crate::fault::EventFault;
use combinator::{Path, PathList};
use isd_as::IsdAs;
use policy_expr::Policy;
use std::alloc::Global;
use std::marker::Model;

/// A kept answer: the ends of its request, its paths, and the policy of the used option. The
/// network shares it with each packet that was sent by one of its paths.
#[derive(Drop)]
pub(crate) struct Answer {
    pub(crate) source: IsdAs,
    pub(crate) destination: IsdAs,
    pub(crate) paths: PathList,
    pub(crate) policy: Policy<Global>,
}

impl Model for Answer {
    ghost use Rattle.policy_expr.specs.Code.{policy_codes};
    ghost use Rattle.network_core.specs.Value.{KeptAnswer};

    ghost Value = { KeptAnswer };

    ghost coded = { Prim.hlevel policy_codes };

    ghost view = { λ a. record {
      source = a.source;
      destination = a.destination;
      answer = a.paths;
      rules = a.policy;
    } };
}

impl Answer {
    /// The path of this number.
    pub(crate) fn path_numbered(&self, number: u32) -> Result<&Path, EventFault>
        ensures { Gives (λ path. path.now) result
            (ok_or (slice_get self.now.answer.paths number) faults.NoAnswer) }
    {
        match self.paths.get(number as usize) {
            Some(path) => Ok(path),
            None => Err(EventFault::NoAnswer),
        }
    }
}
