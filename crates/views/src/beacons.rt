//! The lines of a complete beaconing of a topology.

ghost use Rattle.std.specs.Prelude.{◌≡◌, ◌++◌, ℕ, codes, List, IfOk, OnOk};
ghost use Rattle.std.specs.String.{string_bytes};
ghost use Rattle.std.specs.Io.KnownBytes.{Appends, Consumes};
ghost use Rattle.beacon_lines.specs.Lines.{AreBeaconLines, one_line};
ghost use Rattle.event_lines.specs.Answers.{refused_text};
ghost use Rattle.views.specs.Remark.{if_so, is_beaconless};
ghost use Rattle.views.specs.declared.remark.Remark.TheVariants.{NoBeacon};

use crate::remark::Remark;
use beacon_lines::{BeaconingOptions, beacon_lines};
use commands::CommandFault;
use refusal::{NumberedFault, OrMemory};
use scion_topology::TopologyFault;
use std::alloc::{AllocError, Global};
use streams::{MAX_INPUT_LEN, Sink, Source, read_all, write_all};

/// The reply of a run to a first line that is refused as a topology, for this reason.
fn refused_line(alloc: Global, fault: TopologyFault) -> Result<String, AllocError>
    ensures { IfOk result (λ text. string_bytes text ≡ refused_text fault ++ codes "\n") }
{
    let mut text = format!(in alloc; "topology no {} {}", fault.code(), fault.name())?;
    text.push_str("\n")?;
    Ok(text)
}

/// Writes that reply.
fn write_refused<R: Sink>(
    alloc: Global,
    fault: TopologyFault,
    replies: &mut R,
) -> Result<(), CommandFault>
    ensures { OnOk result (Appends (R.held replies.old) (R.held replies.new)
        (refused_text fault ++ codes "\n")) }
{
    let reply = refused_line(alloc, fault)?;
    write_all(replies, reply.as_bytes())?;
    Ok(())
}

/// The lines of a beaconing of the topology that the source has, up to its end. If the topology is
/// refused, what a run would reply to it is written to `replies`.
pub(crate) fn beacons<S: Source, R: Sink>(
    alloc: Global,
    source: &mut S,
    replies: &mut R,
    options: &BeaconingOptions,
) -> Result<String, CommandFault>
    ensures { IfOk result (λ text. (bytes : List ℕ)
        × (Consumes (S.left source.old) (S.left source.new) bytes
        × AreBeaconLines options.entry.now (one_line bytes) (string_bytes text))) }
{
    let topology = read_all(alloc, source, MAX_INPUT_LEN as u64)?;
    match beacon_lines(alloc, topology, options) {
        Ok(lines) => Ok(lines),
        Err(OrMemory::Memory) => Err(CommandFault::Memory),
        Err(OrMemory::Refused(fault)) => {
            write_refused(alloc, fault, replies)?;
            Err(CommandFault::Topology)
        }
    }
}

/// The remark on the lines of a beaconing: that they have no event but the first, which sets the
/// second.
pub(crate) fn beacons_remark(lines: &[u8]) -> Option<Remark>
    ensures { result ≡ if_so (is_beaconless lines.now) NoBeacon }
{
    let count = lines.iter().filter(|byte| **byte == b'\n').count();
    if count <= 2 {
        Some(Remark::NoBeacon)
    } else {
        None
    }
}
