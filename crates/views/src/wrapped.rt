//! Packets of the network after some lines, as whole packets.

ghost use Rattle.std.specs.Prelude.{◌≡◌, ◌||◌, ℕ, List, IfOk, OnOk, option_map};
ghost use Rattle.std.specs.Io.KnownBytes.{Consumes};
ghost use Rattle.std.specs.String.{string_bytes};
ghost use Rattle.event_lines.specs.Run.{is_read_fault};
ghost use Rattle.run_capture.specs.Lines.{IsCapture};
ghost use Rattle.views.specs.Reached.{Shows, said_of};
ghost use Rattle.wire_packets.specs.Wrapped.{wrapped};
ghost use Rattle.views.specs.Wrapped.{Answers, whole_text, wrapped_line, wrapped_text};

use crate::network_after::{Said, network_after};
use commands::CommandFault;
use event_lines::RunFault;
use network_core::{EventFault, Packet};
use packet_view::packet_fault_line;
use refusal::OrMemory;
use run_capture::capture;
use scion_packet::PacketInfo;
use std::alloc::{AllocError, Global};
use streams::{MAX_INPUT_LEN, Reader, Sink, Source, read_all};
use wire_packets::wrap;

/// The line about a frame: its whole packet in hexadecimal, or why there is none.
#[tactic(auto, using(crate::proofs::Wrapping::bytes_shown, crate::proofs::Wrapping::refusal_shown))]
fn whole_text(alloc: Global, info: &PacketInfo, frame: &[u8]) -> Result<String, AllocError>
    ensures { IfOk result (λ text. string_bytes text ≡ whole_text (wrapped info.now frame.now)) }
{
    let mut text = match wrap(alloc, info, frame) {
        Ok(bytes) => hex::encode(alloc, &bytes)?,
        Err(OrMemory::Refused(fault)) => packet_fault_line(alloc, fault)?,
        Err(OrMemory::Memory) => return Err(AllocError),
    };
    text.push_str("\n")?;
    Ok(text)
}

/// The line about a packet, if there is one.
fn wrapped_text(
    alloc: Global,
    info: &PacketInfo,
    packet: Option<&Packet>,
) -> Result<Said, AllocError>
    ensures { IfOk result (λ said. said_of said
        ≡ wrapped_text info.now (option_map (λ p. p.now) packet.entry)) }
{
    let Some(packet) = packet else {
        return Ok(Err(EventFault::NoPacket));
    };
    Ok(Ok(whole_text(alloc, info, packet.bytes())?))
}

/// The packet of this number in the network after the lines of a source, as a whole packet that
/// says besides what `info` says, in hexadecimal on a line, or the line of its refusal if it has no
/// path header; [`EventFault::NoPacket`] if there is no such packet.
///
/// The faults are those of [`network_after`]; [`RunFault::Memory`] also if memory runs out for the
/// text.
pub(crate) fn wrapped_packet<S: Source, R: Sink>(
    alloc: Global,
    source: &mut S,
    replies: &mut R,
    info: &PacketInfo,
    number: u32,
) -> Result<Said, RunFault>
    ensures shows { Shows (λ net said. said ≡ wrapped_line info.now number net) result
        (S.left source.old) (S.left source.new) (R.held replies.old) (R.held replies.new) }
    ensures flag { S.failed source.new ≡ (S.failed source.old || is_read_fault result) }
{
    let said = {
        let net = network_after(alloc, source, replies)?;
        wrapped_text(alloc, info, net.packet(number as usize))
    };
    Ok(said?)
}

/// Writes the replies to the lines of this input.
fn write_replies<R: Sink>(alloc: Global, input: &[u8], replies: &mut R) -> Result<(), RunFault>
    ensures { OnOk result (Answers input.now (R.held replies.old) (R.held replies.new)) }
{
    network_after(alloc, &mut Reader::new(input), replies)?;
    Ok(())
}

/// The capture of a run of the lines of a source, up to its end. The lines are run twice: first for
/// their replies, which a capture does not have.
pub(crate) fn captured_run<S: Source, R: Sink>(
    alloc: Global,
    source: &mut S,
    replies: &mut R,
    info: &PacketInfo,
) -> Result<Vec<u8>, CommandFault>
    ensures { IfOk result (λ file. (bytes : List ℕ)
        × (Consumes (S.left source.old) (S.left source.new) bytes
        × (IsCapture info.now bytes file.items
        × Answers bytes (R.held replies.old) (R.held replies.new)))) }
{
    let input = read_all(alloc, source, MAX_INPUT_LEN as u64)?;
    write_replies(alloc, &input, replies)?;
    Ok(capture(alloc, info, &input)?)
}
