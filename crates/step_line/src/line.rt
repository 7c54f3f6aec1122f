//! The line that is printed for a packet.

ghost use Rattle.std.specs.Prelude.{◌≡◌, IfOk, reverse};
ghost use Rattle.std.specs.String.{string_bytes};
ghost use Rattle.step_line.specs.Line.{outcome_line, refusal_line};

use router_step::{Outcome, Refusal};
use std::alloc::{AllocError, Global};

/// The line, without its end, of a packet that was not refused, with its bytes after the step.
/// `AllocError` if memory runs out.
pub fn outcome_line(alloc: Global, outcome: Outcome, packet: &[u8]) -> Result<String, AllocError>
    ensures { IfOk result (λ line. string_bytes line ≡ outcome_line outcome packet.now) }
{
    let digits = hex::encode(alloc, packet)?;
    match outcome {
        Outcome::ToLink(interface) => format!(in alloc; "link {} {}", interface, digits.as_str()),
        Outcome::ToRouter(router) => format!(in alloc; "router {} {}", router, digits.as_str()),
        Outcome::Deliver => format!(in alloc; "deliver {}", digits.as_str()),
    }
}

/// The line of a packet that was refused, without its end. `AllocError` if memory runs out.
pub fn refusal_line(alloc: Global, refusal: Refusal) -> Result<String, AllocError>
    ensures { IfOk result (λ line. string_bytes line ≡ refusal_line refusal) }
{
    let mut line = String::from_str(alloc, "refused ")?;
    refusal.push_to(&mut line)?;
    Ok(line)
}
