//! A packet as a router sees it whose turn is next.
#![tactic(auto, unfolding(crate::specs::Lines::turn_lines))]

ghost use Rattle.std.specs.Prelude.{◌≡◌, IfOk, MatchResult};
ghost use Rattle.std.specs.String.{string_bytes};
ghost use Rattle.router_step.specs.Packet.{packet_step};
ghost use Rattle.step_line.specs.Line.{text_of};
ghost use Rattle.packet_view.specs.Lines.{turn_lines};

use crate::checks::checks_of;
use crate::fields::fields_text;
use crate::lines::checks_text;
use router_step::{Arrival, step};
use scion_topology::RouterView;
use std::alloc::{AllocError, Global};
use step_line::{outcome_line, refusal_line};

/// The line of a turn on these bytes, without its end.
fn turn_line(
    alloc: Global,
    view: &RouterView<'_>,
    now: u32,
    arrival: Arrival,
    packet: &mut [u8],
) -> Result<String, AllocError>
    ensures { IfOk result (λ line. string_bytes line
        ≡ text_of (packet_step view.now now arrival packet.old)) }
{
    match step(view, now, arrival, packet) {
        Ok(outcome) => outcome_line(alloc, outcome, packet),
        Err(refusal) => refusal_line(alloc, refusal),
    }
}

/// The lines about a packet that comes by `arrival` to a router with this view, at the second
/// `now`: its fields, the checks of the router up to the first that fails, and the line of the turn
/// as `scionet step` prints it. [`AllocError`] if memory runs out.
pub fn turn_lines(
    alloc: Global,
    view: RouterView<'_>,
    now: u32,
    arrival: Arrival,
    packet: &[u8],
) -> Result<String, AllocError>
    ensures { IfOk result (λ text. string_bytes text
        ≡ turn_lines view.entry now arrival packet.now) }
{
    let mut turned = Vec::from_slice(alloc, packet)?;
    let line = turn_line(alloc, &view, now, arrival, &mut turned)?;
    let checks = checks_of(alloc, view, now, arrival, packet)?;
    let mut text = fields_text(alloc, packet)?;
    text.push_str(checks_text(alloc, &checks)?.as_str())?;
    text.push_str(line.as_str())?;
    text.push_str("\n")?;
    Ok(text)
}
