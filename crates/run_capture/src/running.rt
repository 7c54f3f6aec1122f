//! The capture of a run of lines.

ghost use Rattle.std.specs.Prelude.{◌≡◌};
ghost use Rattle.run_capture.specs.Lines.{Captures};

use crate::recorder::Recorder;
use event_lines::{RunFault, cut_line};
use scion_packet::PacketInfo;
use std::alloc::Global;

/// The capture of a run of these lines, as a file of the format pcap: all lines are answered as
/// [`event_lines::listen`] answers them, and each datagram that the packets would have on the wire
/// is in the file, at the second of the run: from a host to the first router, from router to
/// router, and from the last router to a host. Each has the packet, as it is after the turn, as a
/// whole packet that says besides what `info` says.
///
/// [`RunFault::Topology`] if the first line is no topology; [`RunFault::Memory`] if memory runs
/// out. No other fault comes. The file has at most 2 KB for each packet that is sent and each turn.
pub fn capture(alloc: Global, info: &PacketInfo, input: &[u8]) -> Result<Vec<u8>, RunFault>
    ensures { Captures result info.now input.now }
{
    let mut recorder = Recorder::new(alloc, info)?;
    let mut left = input;
    while let Some((line, behind)) = cut_line(left) {
        recorder.record(alloc, line)?;
        left = behind;
    }
    if recorder.is_done(left) {
        return Ok(recorder.into_file());
    }
    recorder.record(alloc, left)?;
    Ok(recorder.into_file())
}
