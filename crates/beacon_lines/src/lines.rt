ghost use Rattle.std.specs.Prelude.{◌≡◌, ◌++◌, codes, Err, flat_map, IfErr, IfOk, IsTrue, OnOk};
ghost use Rattle.std.specs.Str.{is_utf8};
ghost use Rattle.std.specs.String.{string_bytes};
ghost use Rattle.refusal.specs.declared.fault.OrMemory.{OrMemory};
ghost use Rattle.scion_topology.specs.declared.fault.TopologyFault.{TopologyFault};
ghost use Rattle.scion_topology.specs.Topology.{network_in};
ghost use Rattle.network_core.specs.Event.{Tick};
ghost use Rattle.beacon_lines.specs.Beaconing.{network_event};
ghost use Rattle.beacon_lines.specs.Lines.{AreBeaconLines, byte_in_line, event_line, one_line};
ghost use Rattle.beacon_lines.specs.inner.Search.{begun_net, IsServedAll};

use crate::event::BeaconEvent;
use crate::line::{push_line, push_tick};
use crate::options::BeaconingOptions;
use crate::run::BeaconRun;
use crate::search::SearchGraph;
use refusal::OrMemory;
use scion_topology::{Topology, TopologyFault};
use std::alloc::{AllocError, Global};
use std::str;

/// Why no lines were made: the topology is refused, or memory ran out.
pub type ReadError = OrMemory<TopologyFault>;

/// The byte as it stands in one line: a space for an end of a line.
fn byte_in_line(byte: u8) -> u8
    ensures { result ≡ byte_in_line byte }
{
    if byte == b'\n' || byte == b'\r' {
        b' '
    } else {
        byte
    }
}

/// Makes the bytes one line: each end of a line in them becomes a space.
fn to_one_line(bytes: &mut [u8])
    ensures { bytes.new ≡ one_line bytes.old }
{
    for byte in bytes.iter_mut() {
        *byte = byte_in_line(*byte);
    }
}

/// The beaconing of a topology.
fn beaconing_of(
    alloc: Global,
    topology: Topology,
    options: &BeaconingOptions,
) -> Result<BeaconRun, AllocError>
    ensures second { IfOk result (λ run. run.second ≡ options.entry.now.now) }
    ensures served { IfOk result (λ run. IsServedAll options.entry.now
        (begun_net topology options.entry.now.now) run.net) }
{
    topology.known();
    let graph = SearchGraph::of(alloc, &topology)?;
    let mut run = BeaconRun::new(alloc, topology, options.now)?;
    graph.spread(alloc, &mut run, options)?;
    Ok(run)
}

/// Adds the lines of events.
fn push_lines(text: &mut String, events: &[BeaconEvent]) -> Result<(), AllocError>
    ensures { OnOk result (string_bytes text.new
        ≡ string_bytes text.old
        ++ flat_map (λ event. event_line (network_event event)) events.now) }
{
    for event in events {
        push_line(text, *event)?;
    }
    Ok(())
}

/// A line, with its end, and behind it the lines that set the second and have the events.
fn text_of(
    alloc: Global,
    line: &str,
    now: u32,
    events: &[BeaconEvent],
) -> Result<String, AllocError>
    ensures { IfOk result (λ text. string_bytes text
        ≡ ((line.now ++ codes "\n") ++ event_line (Tick now))
        ++ flat_map (λ event. event_line (network_event event)) events.now) }
{
    let mut text = String::from_str(alloc, line)?;
    text.push_str("\n")?;
    push_tick(&mut text, now)?;
    push_lines(&mut text, events)?;
    Ok(text)
}

/// The lines of a complete beaconing of the topology in this line, which is the first of them.
fn lines_from(alloc: Global, line: &str, options: &BeaconingOptions) -> Result<String, ReadError>
    ensures lines { IfOk result
        (λ text. AreBeaconLines options.entry.now line.now (string_bytes text)) }
    ensures refused { IfErr result (λ error. (fault : TopologyFault)
        → error ≡ OrMemory.Refused fault → network_in line.now ≡ Err fault) }
{
    let network = Topology::from_json(alloc, line.as_bytes())?;
    network.known();
    let run = beaconing_of(alloc, network, options)?;
    Ok(text_of(alloc, line, options.now, run.events())?)
}

/// The lines of a complete beaconing of the topology in these bytes, which are the first line.
fn lines_of_bytes(
    alloc: Global,
    line: &[u8],
    options: &BeaconingOptions,
) -> Result<String, ReadError>
    ensures lines { IfOk result
        (λ text. AreBeaconLines options.entry.now line.now (string_bytes text)) }
    ensures refused { IfErr result (λ error. (fault : TopologyFault)
        → error ≡ OrMemory.Refused fault → network_in line.now ≡ Err fault) }
    ensures wanted { IfErr result (λ error. error ≡ OrMemory.Memory
        → IsTrue (is_utf8 line.now)) }
{
    match str::from_utf8(line) {
        Ok(line) => lines_from(alloc, line, options),
        Err(_) => Err(OrMemory::Refused(TopologyFault::NotJson)),
    }
}

/// The lines of a complete beaconing of a topology, as `scionet run` takes them: the topology, the
/// second, and the events that make the segments. Each core AS begins beacons over its links. Each
/// AS ends and passes on the first of one origin that reach it, as many as are wanted: beacons go
/// down over child links, and from core AS to core AS over core links. So each AS that a core AS
/// reaches within 63 entries gets a segment from it, unless the network would need more than a
/// million beacons, and a core AS if it is reached within the wanted entries.
///
/// The topology is one JSON text of one or more lines. If it is refused, its fault is returned.
/// Memory can run out only if the bytes are UTF-8.
///
/// With C core ASes and L links it tries at most 2·C·L·K beacons if K segments are wanted from one
/// AS to another. It takes time and memory in proportion to those that it makes, and some 64 steps
/// for each that it tries.
pub fn beacon_lines(
    alloc: Global,
    topology: Vec<u8>,
    options: &BeaconingOptions,
) -> Result<String, ReadError>
    ensures lines { IfOk result (λ text.
        AreBeaconLines options.entry.now (one_line topology.items) (string_bytes text)) }
    ensures refused { IfErr result (λ error. (fault : TopologyFault)
        → error ≡ OrMemory.Refused fault → network_in (one_line topology.items) ≡ Err fault) }
    ensures wanted { IfErr result (λ error. error ≡ OrMemory.Memory
        → IsTrue (is_utf8 (one_line topology.items))) }
{
    let mut line = topology;
    to_one_line(&mut line);
    lines_of_bytes(alloc, &line, options)
}
