//! The checks of a router on a whole packet, and the line of its turn.

ghost use Rattle.std.specs.Prelude.{◌≡◌, ◌≤◌, ◌++◌, length, IfOk, OnOk};
ghost use Rattle.std.specs.String.{string_bytes};
ghost use Rattle.scion_packet.specs.Layout.{path_place};
ghost use Rattle.scion_packet.specs.Reading.{path_header_in};
ghost use Rattle.scion_packet.specs.Turn.{whole_packet_step};
ghost use Rattle.packet_view.specs.Whole.{frame_checks_text, headers_side, turn_refusal_line, turned_line, verdict_text};

use crate::checks::checks_of;
use crate::lines::checks_text;
use crate::whole::{frame_in, packet_fault_line};
use router_step::Arrival;
use scion_packet::{TurnRefusal, read, turn};
use scion_topology::RouterView;
use std::alloc::{AllocError, Global};
use std::fmt::Write;
use step_line::{outcome_line, refusal_line};

/// The line of the turn, without its end.
pub(crate) fn turned_line(
    alloc: Global,
    view: &RouterView<'_>,
    now: u32,
    arrival: Arrival,
    packet: &mut [u8],
) -> Result<String, AllocError>
    ensures { IfOk result (λ line. string_bytes line
        ≡ turned_line (whole_packet_step view.now now arrival packet.old)) }
{
    match turn(view, now, arrival, packet) {
        Ok(outcome) => outcome_line(alloc, outcome, packet),
        Err(TurnRefusal::Packet(fault)) => packet_fault_line(alloc, fault),
        Err(TurnRefusal::Step(refusal)) => refusal_line(alloc, refusal),
    }
}

/// Adds the sides of the check of all headers.
#[tactic(auto, unfolding(crate::specs::Whole::headers_side))]
fn add_headers_side(text: &mut String, packet: &[u8]) -> Result<(), AllocError>
    ensures { OnOk result
        (string_bytes text.new ≡ string_bytes text.old ++ headers_side packet.now) }
{
    let len = packet.len();
    write!(text, "0 headers: a whole packet of {len} bytes: ")
}

/// The checks of a router with this view on the frame of a whole packet, up to the first that
/// fails.
fn frame_checks_text(
    alloc: Global,
    view: RouterView<'_>,
    now: u32,
    arrival: Arrival,
    packet: &[u8],
) -> Result<String, AllocError>
    requires common { 12 ≤ length packet.now }
    requires place { path_place packet.now ≤ length packet.now }
    ensures { IfOk result (λ text. string_bytes text ≡ frame_checks_text
        (record { view = view.entry; moment = now; arrival = arrival }) packet.now) }
{
    let frame = frame_in(alloc, packet)?;
    let checks = checks_of(alloc, view, now, arrival, &frame)?;
    checks_text(alloc, &checks)
}

/// The verdict of the check of all headers, and the checks of the router.
fn verdict_text(
    alloc: Global,
    view: RouterView<'_>,
    now: u32,
    arrival: Arrival,
    packet: &[u8],
) -> Result<String, AllocError>
    ensures { IfOk result (λ text. string_bytes text ≡ verdict_text
        (record { view = view.entry; moment = now; arrival = arrival }) packet.now (path_header_in packet.now)) }
{
    match read(packet) {
        Ok(_) => {
            let checks = frame_checks_text(alloc, view, now, arrival, packet)?;
            let mut text = String::from_str(alloc, "ok\n")?;
            text.push_str(checks.as_str())?;
            Ok(text)
        }
        Err(fault) => {
            let mut text = packet_fault_line(alloc, fault)?;
            text.push_str("\n")?;
            Ok(text)
        }
    }
}

/// The check of all headers, and the checks of the router up to the first that fails.
pub(crate) fn whole_checks_text(
    alloc: Global,
    view: RouterView<'_>,
    now: u32,
    arrival: Arrival,
    packet: &[u8],
) -> Result<String, AllocError>
    ensures { IfOk result (λ text. string_bytes text ≡ headers_side packet.now ++ verdict_text
        (record { view = view.entry; moment = now; arrival = arrival }) packet.now (path_header_in packet.now)) }
{
    let verdict = verdict_text(alloc, view, now, arrival, packet)?;
    let mut text = String::new(alloc);
    add_headers_side(&mut text, packet)?;
    text.push_str(verdict.as_str())?;
    Ok(text)
}
