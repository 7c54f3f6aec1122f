//! A network given as lines: whole commands, from the bytes of lines to the bytes of replies.

use anyhow::Result;
use event_lines::run_lines;
use std::alloc::{AllocError, Global};
use streams::{Reader, Writer};

/// The lines that lead, in a network of three ASes in a row, to an answer of one path.
fn start() -> &'static str {
    concat!(
        r#"{"do":"tick","now":1000}"#,
        "\n",
        r#"{"do":"originate","ia":"1-ff00:0:110","egress":1,"beta0":4660}"#,
        "\n",
        r#"{"do":"extend","beacon":0,"ia":"1-ff00:0:111","egress":2}"#,
        "\n",
        r#"{"do":"terminate","beacon":1,"ia":"1-ff00:0:112"}"#,
        "\n",
        r#"{"do":"ask","src":"1-ff00:0:112","dst":"1-ff00:0:110","limit":4}"#,
        "\n",
    )
}

/// The subject of a work's lines.
#[derive(Clone, Copy)]
pub(crate) enum About {
    /// Ten lines: a request for paths, a beacon that is begun and ended, a tick of the clock and a
    /// bad line, and then a packet that is sent, turned four times and shown.
    All,
    /// A packet that is sent, has its three turns and is shown: five lines.
    Packets,
    /// Five lines: a beacon that is begun, passed on and ended, after the segment before has
    /// expired and was swept.
    Beacons,
    /// A request for paths under an access list and a sequence: one line.
    Requests,
}

/// Lines of a packet's work that do not name the packet.
fn around() -> &'static str {
    r#"{"do":"ask","src":"1-ff00:0:112","dst":"1-ff00:0:110","limit":4,"sequence":"0* 1-ff00:0:110"}
{"do":"terminate","beacon":1,"ia":"1-ff00:0:112"}
{"do":"tick","now":1000}
{"do":"fly"}
{"do":"send","ask":0,"path":0,"payload":"6869"}
"#
}

/// A packet.
fn sending() -> &'static str {
    r#"{"do":"send","ask":0,"path":0,"payload":"6869"}
"#
}

/// A request under a policy.
fn asking() -> &'static str {
    concat!(
        r#"{"do":"ask","src":"1-ff00:0:112","dst":"1-ff00:0:110","limit":4,"acl":["- 2","+"],"#,
        r#""sequence":"0* 1-ff00:0:110"}"#,
        "\n",
    )
}

/// Several turns of a packet, which is then shown.
fn push_turns(text: &mut String, number: u32, count: u8) -> Result<(), AllocError> {
    for _ in 0..count {
        writeln!(text, r#"{{"do":"turn","packet":{number}}}"#)?;
    }
    writeln!(text, r#"{{"do":"show","packet":{number}}}"#)
}

/// A beacon through the three ASes; its numbers are the next two, and at its second the segment
/// before has expired.
fn push_beacon(text: &mut String, number: u32) -> Result<(), AllocError> {
    let first = number.saturating_mul(2).saturating_add(2);
    let second = first.saturating_add(1);
    let now = number.saturating_mul(21_601).saturating_add(22_601);
    writeln!(text, r#"{{"do":"tick","now":{now}}}"#)?;
    text.push_str(
        r#"{"do":"sweep"}
{"do":"originate","ia":"1-ff00:0:110","egress":1,"beta0":4660}
"#,
    )?;
    writeln!(
        text,
        r#"{{"do":"extend","beacon":{first},"ia":"1-ff00:0:111","egress":2}}"#
    )?;
    writeln!(
        text,
        r#"{{"do":"terminate","beacon":{second},"ia":"1-ff00:0:112"}}"#
    )
}

/// The lines of the work with this number.
fn push_lines(text: &mut String, about: About, number: u32) -> Result<(), AllocError> {
    match about {
        About::All => {
            text.push_str(around())?;
            push_turns(text, number, 4)
        }
        About::Packets => {
            text.push_str(sending())?;
            push_turns(text, number, 3)
        }
        About::Beacons => push_beacon(text, number),
        About::Requests => text.push_str(asking()),
    }
}

/// Runs a network over the lines of `count` packets, beacons or requests, and sums the bytes of the
/// replies.
pub(crate) fn lines(alloc: Global, about: About, count: u32) -> Result<u64> {
    let mut text = format!(in alloc; "{}\n{}", worked::row(), start())?;
    for number in 0..count {
        push_lines(&mut text, about, number)?;
    }
    let mut source = Reader::new(text.as_bytes());
    let mut sink = Writer::new(Vec::new(alloc));
    run_lines(alloc, &mut source, &mut sink)?;
    let mut sum = 0u64;
    for byte in sink.into_inner().as_slice() {
        sum = sum.wrapping_add(u64::from(*byte));
    }
    Ok(sum)
}
