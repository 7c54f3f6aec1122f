//! Packets that were sent at second 1000: in the row of three ASes, over the segment issued there,
//! and over a line of eight ASes.

use event_lines::{AcceptedLines, RunFault, listen};
use isd_as::IsdAs;
use network_core::Net;
use refusing::Shortage;
use std::alloc::Global;
use streams::{Reader, Writer};
use worked::{at, line, row};

/// The last AS of the row, the child of the middle one.
pub(crate) fn last() -> IsdAs {
    at(1, 0x112)
}

/// The middle AS of the row.
pub(crate) fn middle() -> IsdAs {
    at(1, 0x111)
}

/// The first AS of the row, a core AS.
pub(crate) fn first() -> IsdAs {
    at(1, 0x110)
}

/// The lines after the topology that issue the row's segment, from the first AS to the last.
fn issuing() -> &'static str {
    r#"
{"do":"tick","now":1000}
{"do":"originate","ia":"1-ff00:0:110","egress":1,"beta0":4660}
{"do":"extend","beacon":0,"ia":"1-ff00:0:111","egress":2}
{"do":"terminate","beacon":1,"ia":"1-ff00:0:112"}
"#
}

/// The row's network with a packet between each of these pairs of ASes, by the first path found.
fn network_once(alloc: Global, ways: &[(IsdAs, IsdAs)]) -> Result<Net, RunFault> {
    let mut text = String::from_str(alloc, row())?;
    text.push_str(issuing())?;
    let mut ask = 0u32;
    for (src, dst) in ways {
        writeln!(
            text,
            r#"{{"do":"ask","src":"{src}","dst":"{dst}","limit":4}}"#
        )?;
        writeln!(
            text,
            r#"{{"do":"send","ask":{ask},"path":0,"payload":"6869"}}"#
        )?;
        ask = ask.saturating_add(1);
    }
    network_of(alloc, text.as_str())
}

/// The network that these lines lead to.
fn network_of(alloc: Global, text: &str) -> Result<Net, RunFault> {
    let mut source = Reader::new(text.as_bytes());
    let mut sink = Writer::new(Vec::new(alloc));
    listen(alloc, AcceptedLines::All, &mut source, &mut sink)
}

/// The same, made again if memory ran out and that may be. The replies go into a vector, so that a
/// write fails only if memory runs out.
pub(crate) fn network(alloc: Global, ways: &[(IsdAs, IsdAs)], shortage: &Shortage) -> Option<Net> {
    match network_once(alloc, ways) {
        Ok(net) => Some(net),
        Err(RunFault::Memory | RunFault::Write) if shortage.may_want() => {
            network_once(alloc, ways).ok()
        }
        Err(_) => None,
    }
}

/// The row's network with so many packets from its last AS to its first, by the path of one answer.
pub(crate) fn crowded_network(alloc: Global, packets: usize) -> Result<Net, RunFault> {
    let mut text = String::from_str(alloc, row())?;
    text.push_str(issuing())?;
    let (src, dst) = (last(), first());
    writeln!(
        text,
        r#"{{"do":"ask","src":"{src}","dst":"{dst}","limit":4}}"#
    )?;
    for _ in 0..packets {
        writeln!(text, r#"{{"do":"send","ask":0,"path":0,"payload":""}}"#)?;
    }
    network_of(alloc, text.as_str())
}

/// Eight ASes in a line, with a packet from the last to the first over the segment between them.
pub(crate) fn long_network(alloc: Global) -> Result<Net, RunFault> {
    let mut text = line(alloc, 8)?;
    text.push_str(
        r#"
{"do":"tick","now":1000}
{"do":"originate","ia":"1-1","egress":2,"beta0":7}
"#,
    )?;
    for beacon in 0..6u32 {
        writeln!(
            text,
            r#"{{"do":"extend","beacon":{beacon},"ia":"1-{}","egress":2}}"#,
            beacon + 2
        )?;
    }
    text.push_str(
        r#"{"do":"terminate","beacon":6,"ia":"1-8"}
{"do":"ask","src":"1-8","dst":"1-1","limit":1}
{"do":"send","ask":0,"path":0,"payload":""}
"#,
    )?;
    network_of(alloc, text.as_str())
}
