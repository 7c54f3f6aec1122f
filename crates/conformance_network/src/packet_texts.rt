use packet_view::{packet_lines, whole_packet_lines};
use std::test::Fail;
use step_line::{StepArgs, StepCommand, TurnFault};

/// A packet of two hops from 1-ff00:0:111 to 1-ff00:0:110, at its first hop.
const RIGHT: &str =
    "0001ff00000001100001ff0000000111000020000000b39600000064003f00020000110e4c1d3dad003f00000001a1\
    a2a3a4a5a6";

/// The same packet with a wrong authenticator.
const WRONG: &str =
    "0001ff00000001100001ff0000000111000020000000b39600000064003f00020000110e4c1d3dae003f00000001a1\
    a2a3a4a5a6";

/// The same packet without its last byte.
const CUT: &str =
    "0001ff00000001100001ff0000000111000020000000b39600000064003f00020000110e4c1d3dad003f00000001a1\
    a2a3a4a5";

/// The view of the right packet that a host gives to its router at second 100.
const SHOWN: &str = "0001ff0000000110 destination 1-ff00:0:110\n\
     0001ff0000000111 source 1-ff00:0:111\n\
     00 at info field 0, hop field 0\n\
     002000 segments of 2, 0 and 0 hop fields\n\
     0000 info 0 construction direction 0\n\
     b396 info 0 accumulator 45974\n\
     00000064 info 0 made at second 100\n\
     00 hop 0 flags 0\n\
     3f hop 0 live up to second 21700\n\
     0002 hop 0 construction ingress 2\n\
     0000 hop 0 construction egress 0\n\
     110e4c1d3dad hop 0 authenticator\n\
     00 hop 1 flags 0\n\
     3f hop 1 live up to second 21700\n\
     0000 hop 1 construction ingress 0\n\
     0001 hop 1 construction egress 1\n\
     a1a2a3a4a5a6 hop 1 authenticator\n\
     1 header: a packet of 52 bytes: ok\n\
     2 indices: at info field 0, hop field 0 of segment 0; segments of 2, \
     0 and 0 hop fields; from a host: ok\n\
     3 way in: from a host; the way in is interface 0 of no router, this is router 0: ok\n\
     4 live: expires at 21700, now 100: ok\n\
     5 authenticator: packet 110e4c1d3dad, right under the key in use: 110e4c1d3dad: ok\n\
     6 source: 1-ff00:0:111 from a host; this is 1-ff00:0:111: ok\n\
     7 destination: 1-ff00:0:110; this is 1-ff00:0:111, at hop 1 of 2: ok\n\
     10 way out: interface 2 of router 0: ok\n\
     11 link kinds: from a host to parent: ok\n\
     12 owner: router 0, this is router 0: ok\n\
     13 link: up: ok\n\
     link 2 0001ff00000001100001ff0000000111010020000000b39600000064003f00020000110e4c1d3dad003f000\
     00001a1a2a3a4a5a6";

/// The turn of router 0 of 1-ff00:0:111 with a packet of a host, at this second.
fn texts<'a, 'm>(now: &'a str, interfaces: &'m [&'a str]) -> StepArgs<'a, 'm> {
    StepArgs {
        ia: "1-ff00:0:111",
        router: "0",
        key: "6b",
        previous: None,
        now,
        from: "host",
        interfaces,
    }
}

/// Each field, each check up to the last, and the line of the turn.
#[test]
fn a_packet_that_goes_on_is_shown_whole(rt: HostRuntime) -> Result<(), Fail> {
    let alloc = rt.alloc();
    let own = ["2,parent,0,up"];
    let command = StepCommand::from_texts(alloc, texts("100", &own))?.ok_or("a turn")?;
    let lines = packet_lines(alloc, &command, RIGHT.as_bytes())?;
    assert_eq!(&rt; lines.as_str(), SHOWN);
    Ok(())
}

/// Turns, each with its second, its interface and its packet, and the ends of their views.
const REFUSED: [(&str, &str, &str, &str); 5] = [
    (
        "21701",
        "2,parent,0,up",
        RIGHT,
        "\n4 live: expires at 21700, now 21701: refused 93 Expired\nrefused 93 Expired",
    ),
    (
        "21700",
        "2,parent,0,up",
        WRONG,
        "\n4 live: expires at 21700, now 21700: ok\n\
         5 authenticator: packet 110e4c1d3dae, right under the key in use: 110e4c1d3dad: \
         refused 94 BadMac\nrefused 94 BadMac",
    ),
    (
        "100",
        "2,parent,0,up",
        CUT,
        "\n1 header: a packet of 51 bytes: refused 90 BadHeader 20 Short\n\
         refused 90 BadHeader 20 Short",
    ),
    (
        "100",
        "2,parent,0,down",
        RIGHT,
        "\n13 link: down: refused 100 LinkDown\nrefused 100 LinkDown",
    ),
    (
        "100",
        "3,parent,0,up",
        RIGHT,
        "\n10 way out: interface 2 of no router: refused 98 UnknownEgress\n\
         refused 98 UnknownEgress",
    ),
];

#[test]
fn the_check_that_fails_is_the_last_one_shown(rt: HostRuntime) -> Result<(), Fail> {
    let alloc = rt.alloc();
    for (now, interface, packet, end) in &REFUSED {
        let own = [*interface];
        let command = StepCommand::from_texts(alloc, texts(*now, &own))?.ok_or("a turn")?;
        let lines = packet_lines(alloc, &command, packet.as_bytes())?;
        assert!(&rt; lines.as_str().ends_with(*end), "{}", lines.as_str());
    }
    Ok(())
}

#[test]
fn text_that_is_no_hexadecimal_is_refused(rt: HostRuntime) -> Result<(), Fail> {
    let alloc = rt.alloc();
    let command = StepCommand::from_texts(alloc, texts("100", &[]))?.ok_or("a turn")?;
    let refused = packet_lines(alloc, &command, b"0g");
    assert!(&rt; matches!(refused, Err(TurnFault::PacketText)));
    Ok(())
}

/// The right packet with its headers on the wire, from a host with an address of IPv6.
const WHOLE: &str = "0000000111150000010300000001ff00000001100001ff00000001110a000064\
    20010db8000000000000000000000001000020000000b39600000064003f00020000\
    110e4c1d3dad003f00000001a1a2a3a4a5a6";

/// Its view begins with the fields in front of the path header.
const WHOLE_FRONT: &str = "00000001 version 0, traffic class 0, flow 1\n\
     11 next header 17\n\
     15 headers of 84 bytes\n\
     0000 payload of 0 bytes\n\
     01 path of type 1\n\
     03 destination host of type 0, 4 bytes; source host of type 0, 16 bytes\n\
     0000 reserved\n\
     0001ff0000000110 destination 1-ff00:0:110\n\
     0001ff0000000111 source 1-ff00:0:111\n\
     0a000064 destination host 10.0.0.100\n\
     20010db8000000000000000000000001 source host 2001:db8::1\n\
     00 at info field 0, hop field 0\n\
     002000 segments of 2, 0 and 0 hop fields\n";

/// The check of all headers, and the first of the router.
const WHOLE_CHECKS: &str = "\na1a2a3a4a5a6 hop 1 authenticator\n\
     0 headers: a whole packet of 84 bytes: ok\n\
     1 header: a packet of 52 bytes: ok\n";

/// The line of the turn: the packet at its second hop.
const WHOLE_TURNED: &str = "\n13 link: up: ok\n\
     link 2 0000000111150000010300000001ff00000001100001ff00000001110a000064\
     20010db8000000000000000000000001010020000000b39600000064003f00020000\
     110e4c1d3dad003f00000001a1a2a3a4a5a6";

#[test]
fn a_whole_packet_is_shown_with_all_its_headers(rt: HostRuntime) -> Result<(), Fail> {
    let alloc = rt.alloc();
    let own = ["2,parent,0,up"];
    let command = StepCommand::from_texts(alloc, texts("100", &own))?.ok_or("a turn")?;
    let lines = whole_packet_lines(alloc, &command, WHOLE.as_bytes())?;
    assert!(&rt;
        lines.as_str().starts_with(WHOLE_FRONT),
        "{}",
        lines.as_str()
    );
    assert!(&rt; lines.as_str().contains(WHOLE_CHECKS), "{}", lines.as_str());
    assert!(&rt;
        lines.as_str().ends_with(WHOLE_TURNED),
        "{}",
        lines.as_str()
    );
    Ok(())
}

/// A whole packet of another version: its common header, and one line for the rest.
#[test]
fn no_fields_are_shown_behind_a_common_header_that_is_refused(rt: HostRuntime) -> Result<(), Fail> {
    let alloc = rt.alloc();
    let command = StepCommand::from_texts(alloc, texts("100", &[]))?.ok_or("a turn")?;
    let lines = whole_packet_lines(alloc, &command, b"100000011115000001030000ab")?;
    let end = "\n0000 reserved\n\
        ab no whole packet\n\
        0 headers: a whole packet of 13 bytes: refused 161 BadVersion\n\
        refused 161 BadVersion";
    assert!(&rt;
        lines.as_str().starts_with("10000001 version 1, "),
        "{}",
        lines.as_str()
    );
    assert!(&rt; lines.as_str().ends_with(end), "{}", lines.as_str());
    Ok(())
}
