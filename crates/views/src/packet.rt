//! A packet that a source gives, as text.

ghost use Rattle.std.specs.Prelude.{IfOk};
ghost use Rattle.std.specs.String.{string_bytes};
ghost use Rattle.packet_view.specs.Lines.{lines_of};
ghost use Rattle.packet_view.specs.Whole.{whole_lines_of};
ghost use Rattle.views.specs.Shown.{TellsInput};

use commands::CommandFault;
use packet_view::{packet_lines, whole_packet_lines};
use std::alloc::Global;
use step_line::StepCommand;
use streams::{MAX_INPUT_LEN, Source, read_all};

/// The lines about the packet that the source gives in hexadecimal, and about its turn.
///
/// The faults are those of [`read_all`] and of [`packet_lines`].
pub(crate) fn packet_text<S: Source>(
    alloc: Global,
    source: &mut S,
    command: &StepCommand,
) -> Result<String, CommandFault>
    ensures { IfOk result (λ text. TellsInput (lines_of command.now)
        (S.left source.old) (S.left source.new) (string_bytes text)) }
{
    let packet = read_all(alloc, source, MAX_INPUT_LEN as u64)?;
    let mut lines = packet_lines(alloc, command, &packet)?;
    lines.push_str("\n")?;
    Ok(lines)
}

/// The same of a whole packet. The faults are those of [`read_all`] and of [`whole_packet_lines`].
pub(crate) fn whole_packet_text<S: Source>(
    alloc: Global,
    source: &mut S,
    command: &StepCommand,
) -> Result<String, CommandFault>
    ensures { IfOk result (λ text. TellsInput (whole_lines_of command.now)
        (S.left source.old) (S.left source.new) (string_bytes text)) }
{
    let packet = read_all(alloc, source, MAX_INPUT_LEN as u64)?;
    let mut lines = whole_packet_lines(alloc, command, &packet)?;
    lines.push_str("\n")?;
    Ok(lines)
}
