//! The check that refuses a packet.
#![tactic(auto, unfolding(crate::specs::Failed::failed_sides))]

ghost use Rattle.std.specs.Prelude.{◌≡◌, IfOk, option_map};
ghost use Rattle.std.specs.String.{string_bytes};
ghost use Rattle.packet_view.specs.Checks.{checks_of};
ghost use Rattle.packet_view.specs.Failed.{failed_sides};

use crate::check::Check;
use crate::checks::checks_of;
use router_step::Arrival;
use scion_topology::RouterView;
use std::alloc::{AllocError, Global};

/// The two sides of the first check that fails, if one does.
fn failed_sides(alloc: Global, checks: &[Check]) -> Result<Option<String>, AllocError>
    ensures { IfOk result (λ sides. option_map string_bytes sides ≡ failed_sides checks.now) }
{
    for check in checks {
        if check.verdict.is_err() {
            return Ok(Some(String::from_str(alloc, check.sides.as_str())?));
        }
    }
    Ok(None)
}

/// The number and the two sides of the check that fails when the router of this view makes its
/// step, at the second `now`, on a packet that came to it by `arrival`; `None` if all checks
/// succeed. It is the check that [`router_step::step`] refuses the packet for
/// ([`laws::checks_are_the_steps`](crate::laws::checks_are_the_steps)), in the words of
/// [`packet_lines`](crate::packet_lines).
///
/// [`AllocError`] if memory runs out.
pub fn failed_check(
    alloc: Global,
    view: RouterView<'_>,
    now: u32,
    arrival: Arrival,
    packet: &[u8],
) -> Result<Option<String>, AllocError>
    ensures { IfOk result (λ sides. option_map string_bytes sides
        ≡ failed_sides (checks_of view.entry now arrival packet.now)) }
{
    let checks = checks_of(alloc, view, now, arrival, packet)?;
    failed_sides(alloc, &checks)
}
