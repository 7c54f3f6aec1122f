//! The words of `wrap` and `capture`: what whole packets say besides their path and payload.

use crate::words::{place_option, range_option};
use clap::parser::ValueSource;
use clap::{Arg, ArgMatches, Command};
use commands::{WordsFault, with_example};
use scion_packet::{HostAddress, PacketInfo};
use std::alloc::{AllocError, Global};
use std::net::IpAddr;
use step_line::number;

/// The flow and the traffic class of all packets.
const FLOW: u32 = 1;

const TRAFFIC_CLASS: u8 = 0;

/// The end of the long help of `wrap`.
static WRAP_HELP: &str = with_example!(
    "\
Standard input has the lines of 'scionet run'. The packet, as it is after the last of them, is \
printed as it is on the wire, in hexadecimal: common header, address header, path header, payload. \
The hosts and the next header are those of the options, whichever way the packet goes; the traffic \
class is 0, and the flow 1. That there is no such packet is a fault, 'no 130 NoPacket'.

Example: a packet from an AS to its parent
  printf '%s\\n' \\
",
    " |
  scionet_view wrap --packet 0 --source-host 10.0.0.7
"
);

/// The end of the long help of `capture`.
static CAPTURE_HELP: &str = with_example!(
    "\
Standard input has the lines of 'scionet run'. The output is a file of the format pcap: each \
datagram that the packets would have on the wire, from a host to the first router, from router to \
router, and to a host, at the second of the run. The AS in place N of the topology's list, from \
0, has the network 10.H.L.0/24, where H is N / 256 and L the rest; its router R has the address \
R + 1 there, and its hosts have 100. The payload of UDP, port 50000, is the whole packet as 'wrap' \
prints it. A packet that a router refuses goes no further.

Example: both datagrams of a packet from an AS to its parent
  printf '%s\\n' \\
",
    " \\
    '{\"do\":\"turn\",\"packet\":0}' | scionet_view capture > run.pcap
"
);

/// An option with the address of a host.
fn host_option<'a>(alloc: Global, name: &'a str, help: &'a str) -> Arg<'a> {
    Arg::new(alloc, name)
        .long(name)
        .value_name("ADDRESS")
        .default_value("10.0.0.100")
        .help(help)
}

/// The options with what packets say besides.
pub(crate) fn info_options<'a>(alloc: Global) -> Result<Vec<Arg<'a>>, AllocError> {
    let help = "The address of the source host, of IPv4 or IPv6";
    let source = host_option(alloc, "source-host", help);
    let help = "The address of the destination host, of IPv4 or IPv6";
    let destination = host_option(alloc, "destination-host", help);
    let help = "The number of the protocol with which the payload begins";
    let next = range_option(alloc, "next-header", (0, 255), "253", help);
    Ok(vec![in alloc; source, destination, next]?)
}

/// The command `wrap`.
pub(crate) fn wrap_command<'a>(alloc: Global) -> Result<Command<'a>, AllocError> {
    let packet = place_option(alloc, "packet", "The number of a packet, from 0").required(true);
    let options = info_options(alloc)?;
    Command::new(alloc, "wrap")
        .about("Prints a packet of that network as it is on the wire")
        .after_long_help(WRAP_HELP)
        .arg(packet)?
        .args(options)
}

/// The command `capture`.
pub(crate) fn capture_command<'a>(alloc: Global) -> Result<Command<'a>, AllocError> {
    let options = info_options(alloc)?;
    Command::new(alloc, "capture")
        .about("Writes the packets of a run as a capture for Wireshark")
        .after_long_help(CAPTURE_HELP)
        .args(options)
}

/// The fault of a text that is no address.
fn bad_address(alloc: Global, name: &str, text: &str) -> Result<WordsFault, AllocError> {
    let said = format!(in alloc;
        "scionet_view: --{name}: found \"{text}\", wanted an address of IPv4 or IPv6\n"
    )?;
    Ok(WordsFault::Usage(said))
}

/// The address of a host in the option of this name, if it is given.
fn host_in(
    alloc: Global,
    matches: &ArgMatches<'_>,
    name: &str,
) -> Result<Option<HostAddress>, WordsFault> {
    let Some(text) = matches.get_str(name) else {
        return Ok(None);
    };
    match IpAddr::parse_ascii(text.as_bytes()) {
        Ok(IpAddr::V4(address)) => Ok(Some(HostAddress::ipv4(address.octets()))),
        Ok(IpAddr::V6(address)) => Ok(Some(HostAddress::ipv6(address.octets()))),
        Err(_) => Err(bad_address(alloc, name, text)?),
    }
}

/// The names of the options with what packets say besides.
static INFO_OPTIONS: [&str; 3] = ["source-host", "destination-host", "next-header"];

/// The fault of the first of these options that the words have, if they have one: it says something
/// of no packet but a whole one of a run.
pub(crate) fn unwanted_info(
    alloc: Global,
    matches: &ArgMatches<'_>,
) -> Result<Option<WordsFault>, AllocError> {
    for name in &INFO_OPTIONS {
        if let Some(ValueSource::CommandLine) = matches.value_source(name) {
            let said = format!(in alloc;
                "scionet_view: --{name}: wanted with --packet and --whole alone\n"
            )?;
            return Ok(Some(WordsFault::Usage(said)));
        }
    }
    Ok(None)
}

/// The number of the next header, if it can be read.
fn next_header_in(matches: &ArgMatches<'_>) -> Option<u8> {
    let next = number(matches.get_str("next-header")?, 0, 255)?;
    Some(next as u8)
}

/// What packets say besides, as the matches of a command with these options have it; `None` if a
/// number can't be read. The fault tells of the first address that is none.
pub(crate) fn info_in(
    alloc: Global,
    matches: &ArgMatches<'_>,
) -> Result<Option<PacketInfo>, WordsFault> {
    let Some(next) = next_header_in(matches) else {
        return Ok(None);
    };
    let Some(source) = host_in(alloc, matches, "source-host")? else {
        return Ok(None);
    };
    let Some(destination) = host_in(alloc, matches, "destination-host")? else {
        return Ok(None);
    };
    Ok(PacketInfo::new(TRAFFIC_CLASS, FLOW, next, destination, source).ok())
}
