//! A whole packet as a router sees it whose turn is next.

ghost use Rattle.std.specs.Prelude.{◌≡◌, IfOk};
ghost use Rattle.std.specs.String.{string_bytes};
ghost use Rattle.step_line.specs.Fault.{PrintsTurn};
ghost use Rattle.packet_view.specs.Whole.{whole_lines, whole_lines_of, whole_turn_lines};

use crate::whole::whole_fields_text;
use crate::whole_checks::{turned_line, whole_checks_text};
use router_step::Arrival;
use scion_topology::RouterView;
use separators::bytes::trim;
use std::alloc::{AllocError, Global};
use step_line::{StepCommand, TurnFault, bytes};

/// The lines about a whole packet that comes by `arrival` to a router with this view, at the second
/// `now`. The last is that of the turn, and has no line end.
fn whole_lines(
    alloc: Global,
    view: RouterView<'_>,
    now: u32,
    arrival: Arrival,
    packet: &[u8],
) -> Result<String, AllocError>
    ensures { IfOk result (λ lines. string_bytes lines ≡ whole_lines
        (record { view = view.entry; moment = now; arrival = arrival }) packet.now) }
{
    let mut turned = Vec::from_slice(alloc, packet)?;
    let line = turned_line(alloc, &view, now, arrival, &mut turned)?;
    let mut lines = whole_fields_text(alloc, packet)?;
    lines.push_str(whole_checks_text(alloc, view, now, arrival, packet)?.as_str())?;
    lines.push_str(line.as_str())?;
    Ok(lines)
}

/// The same with the end of the last line. [`AllocError`] if memory runs out.
#[tactic(auto, unfolding(crate::specs::Whole::whole_turn_lines))]
pub fn whole_turn_lines(
    alloc: Global,
    view: RouterView<'_>,
    now: u32,
    arrival: Arrival,
    packet: &[u8],
) -> Result<String, AllocError>
    ensures { IfOk result (λ text. string_bytes text
        ≡ whole_turn_lines view.entry now arrival packet.now) }
{
    let mut lines = whole_lines(alloc, view, now, arrival, packet)?;
    lines.push_str("\n")?;
    Ok(lines)
}

/// The lines about the whole packet that the text gives in hexadecimal, at the router of this turn,
/// as [`packet_lines`](crate::packet_lines) has them of a frame: the fields of the common header,
/// of the addresses, of the path header and the payload; the check of all headers, and those of the
/// router up to the first that fails; and the line of the turn, which has no line end. Of bytes
/// that are no whole packet, what stands behind the common header is one line.
///
/// [`TurnFault::PacketText`] if the text is not hexadecimal digits, two for each byte;
/// [`TurnFault::Memory`] if memory runs out.
#[tactic(auto, unfolding(crate::specs::Whole::whole_lines_of))]
pub fn whole_packet_lines(
    alloc: Global,
    command: &StepCommand,
    text: &[u8],
) -> Result<String, TurnFault>
    ensures { PrintsTurn result (whole_lines_of command.now text.now) }
{
    let Some(packet) = bytes(alloc, trim(text))? else {
        return Err(TurnFault::PacketText);
    };
    let (now, arrival) = (command.moment(), command.arrival());
    Ok(whole_lines(alloc, command.view(), now, arrival, &packet)?)
}
