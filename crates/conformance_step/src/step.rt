use commands::step_line;
use hex::encode;
use hop_mac::hop_mac;
use std::alloc::{AllocError, Global};
use std::process::Abort;
use std::test::Fail;

/// The first words for a router of 1-ff00:0:111 and a packet of a host, without the second and the
/// interface.
const FRONT: [&str; 7] = [
    "step",
    "--ia",
    "1-ff00:0:111",
    "--router",
    "0",
    "--key",
    "6b",
];

/// A packet of two hops from 1-ff00:0:111 to 1-ff00:0:110, up to its first hop's authenticator.
const UP: &str = "0001ff00000001100001ff0000000111000020000000b39600000064003f00020000";

/// The same front with the second hop as the current one.
const MOVED: &str = "0001ff00000001100001ff0000000111010020000000b39600000064003f00020000";

/// The hop behind that authenticator.
const BEHIND: &str = "003f00000001a1a2a3a4a5a6";

/// The same packet with a wrong authenticator.
const WRONG: &str =
    "0001ff00000001100001ff0000000111000020000000b39600000064003f00020000b1b2b3b4b5b6003f00000001a1\
    a2a3a4a5a6";

/// The same packet cut off by a byte.
const CUT: &str =
    "0001ff00000001100001ff0000000111000020000000b39600000064003f00020000b1b2b3b4b5b6003f00000001a1\
    a2a3a4a5";

/// The words of a turn at this second.
pub(crate) fn words<'a>(now: &'a str, from: &'a str, interface: &'a str) -> [&'a str; 12] {
    let [step, ia, address, router, number, key, hex] = FRONT;
    [
        step, ia, address, router, number, key, hex, "--now", now, "--from", from, interface,
    ]
}

/// Asserts that a turn with these words and this packet prints this line.
fn expect_line(
    rt: &impl Abort,
    alloc: Global,
    words: &[&str],
    packet: &str,
    line: &str,
) -> Result<(), Fail> {
    assert_eq!(rt; step_line(alloc, words, packet)?.as_str(), line);
    Ok(())
}

/// Each form of a refusal, and the forms that a packet's text may have.
#[test]
fn refusals(rt: HostRuntime) -> Result<(), Fail> {
    let late = words("21701", "host", "2,parent,0,up");
    let upper = format!(in rt.alloc(); " \t\r\n{UP}B1B2B3B4B5B6{BEHIND}\r\n")?;
    let rows = [
        (WRONG, "refused 93 Expired"),
        (upper.as_str(), "refused 93 Expired"),
        (CUT, "refused 90 BadHeader 20 Short"),
        ("", "refused 90 BadHeader 20 Short"),
        (" \n", "refused 90 BadHeader 20 Short"),
    ];
    for (packet, line) in rows {
        expect_line(&rt, rt.alloc(), &late, packet, line)?;
    }
    Ok(())
}

/// The packet that begins in this way up to the first hop's authenticator, with this authenticator.
fn up_packet(alloc: Global, front: &str, mac: [u8; 6]) -> Result<String, AllocError> {
    let digits = encode(alloc, mac.as_slice())?;
    format!(in alloc; "{front}{}{BEHIND}", digits.as_str())
}

/// The authenticator of the packet's first hop.
fn first_mac() -> [u8; 6] {
    hop_mac(b"k", 0xb396, 100, 63, 2, 0)
}

/// A packet sent on over a link, and refused if the link is down.
#[test]
fn sent_over_a_link(rt: HostRuntime) -> Result<(), Fail> {
    let alloc = rt.alloc();
    let packet = up_packet(alloc, UP, first_mac())?;
    let moved = up_packet(alloc, MOVED, first_mac())?;
    let line = format!(in alloc; "link 2 {}", moved.as_str())?;
    let up = words("100", "host", "2,parent,0,up");
    expect_line(&rt, alloc, &up, &packet, &line)?;
    let down = words("100", "host", "2,parent,0,down");
    expect_line(&rt, alloc, &down, &packet, "refused 100 LinkDown")
}
