//! The output of `scionet_view packet` about a packet.
#![tactic(auto, unfolding(crate::specs::Lines::check_text, crate::specs::Lines::checks_text, crate::specs::Lines::lines_of,))]

ghost use Rattle.std.specs.Prelude.{◌≡◌, ◌++◌, IfOk, OnOk};
ghost use Rattle.std.specs.String.{string_bytes};
ghost use Rattle.step_line.specs.Fault.{PrintsTurn};
ghost use Rattle.packet_view.specs.Checks.{checks_of};
ghost use Rattle.packet_view.specs.Lines.{check_text, checks_text, lines_of};

use crate::check::Check;
use crate::checks::checks_of;
use crate::fields::fields_text;
use separators::bytes::trim;
use std::alloc::{AllocError, Global};
use step_line::{StepCommand, TurnFault, bytes, refusal_line};

/// Adds the line of a check.
fn add_line(alloc: Global, text: &mut String, check: &Check) -> Result<(), AllocError>
    ensures { OnOk result (string_bytes text.new ≡ string_bytes text.old ++ check_text check.now) }
{
    text.push_str(check.sides.as_str())?;
    text.push_str(": ")?;
    match check.verdict {
        Ok(()) => text.push_str("ok")?,
        Err(refusal) => text.push_str(refusal_line(alloc, refusal)?.as_str())?,
    }
    text.push_str("\n")
}

/// The checks up to the first that fails, each on a line.
pub(crate) fn checks_text(alloc: Global, checks: &[Check]) -> Result<String, AllocError>
    ensures { IfOk result (λ text. string_bytes text ≡ checks_text checks.now) }
{
    let mut text = String::new(alloc);
    for check in checks {
        add_line(alloc, &mut text, check)?;
        if check.verdict.is_err() {
            return Ok(text);
        }
    }
    Ok(text)
}

/// Adds the checks of the turn's router on the packet, up to the first that fails.
pub(crate) fn add_checks(
    alloc: Global,
    text: &mut String,
    command: &StepCommand,
    packet: &[u8],
) -> Result<(), AllocError>
    ensures { let turn = command.now in OnOk result (string_bytes text.new ≡ string_bytes text.old
        ++ checks_text (checks_of turn.view turn.moment turn.arrival packet.now)) }
{
    let view = command.view();
    let checks = checks_of(alloc, view, command.moment(), command.arrival(), packet)?;
    text.push_str(checks_text(alloc, &checks)?.as_str())
}

/// The lines about the packet that the text gives in hexadecimal, at the router of this turn.
/// Letters may be of either case, and blanks around the digits are ignored. The lines are the
/// fields of the packet, the checks up to the first that fails, and the line of
/// [`StepCommand::line`], which has no line end.
///
/// [`TurnFault::PacketText`] if the text is not hexadecimal digits, two for each byte;
/// [`TurnFault::Memory`] if memory runs out.
pub fn packet_lines(alloc: Global, command: &StepCommand, text: &[u8]) -> Result<String, TurnFault>
    ensures { PrintsTurn result (lines_of command.now text.now) }
{
    let Some(packet) = bytes(alloc, trim(text))? else {
        return Err(TurnFault::PacketText);
    };
    let mut lines = fields_text(alloc, &packet)?;
    add_checks(alloc, &mut lines, command, &packet)?;
    lines.push_str(command.line(alloc, text)?.as_str())?;
    Ok(lines)
}
