//! All refusals of addresses, headers, segments, networks, policies and paths, each with its
//! number, its name and its sentence.

use beaconing::BeaconFault;
use combinator::CombineFault;
use isd_as::AddrFault;
use path_header::HeaderFault;
use path_segment::SegmentFault;
use path_server::StoreFault;
use path_verifier::VerifyFault;
use policy_expr::{Denied, OptionFault, PolicyFault};
use refusal::{NumberedFault, OrMemory};
use router_step::Refusal;
use scion_packet::{PacketFault, TurnRefusal};
use scion_topology::TopologyFault;
use std::alloc::AllocError;
use std::test::Fail;

/// Adds a line for each refusal.
fn push_refusals<F: NumberedFault>(text: &mut String, refusals: &[F]) -> Result<(), AllocError> {
    for refusal in refusals {
        writeln!(text, "{} {} {refusal}", refusal.code(), refusal.name())?;
    }
    Ok(())
}

#[test]
fn refusals_of_addresses_and_headers_have_sentences(rt: HostRuntime) -> Result<(), Fail> {
    let mut text = String::new(rt.alloc());
    let addresses = [
        AddrFault::NoDash,
        AddrFault::BadDigit,
        AddrFault::IsdRange,
        AddrFault::AsRange,
        AddrFault::BadGroups,
    ];
    push_refusals(&mut text, &addresses)?;
    let headers = [
        HeaderFault::Short,
        HeaderFault::Reserved,
        HeaderFault::PeerFlag,
        HeaderFault::AlertFlag,
        HeaderFault::SegLens,
        HeaderFault::TooManyHops,
        HeaderFault::BadIndex,
        HeaderFault::RoomTooSmall,
    ];
    push_refusals(&mut text, &headers)?;
    assert_eq!(rt;
        text.as_str(),
        "1 NoDash an address has a '-' between its ISD and its AS number
2 BadDigit a number is empty or has a character that is no digit of it
3 IsdRange an ISD is at most 65535
4 AsRange an AS number in decimal is at most 4294967295
5 BadGroups an AS number in groups is three groups of 1 to 4 characters
20 Short the header is cut off
21 Reserved a reserved bit is set
22 PeerFlag an info field has the peering flag
23 AlertFlag a hop field has a router alert flag
24 SegLens the segment lengths are not those of a path
25 TooManyHops a path has at most 64 hop fields
26 BadIndex an index points behind the last field
27 RoomTooSmall the room is shorter than the header
"
    );
    Ok(())
}

#[test]
fn refusals_of_segments_and_stores_have_sentences(rt: HostRuntime) -> Result<(), Fail> {
    let mut text = String::new(rt.alloc());
    let segments = [
        SegmentFault::TooShort,
        SegmentFault::TooLong,
        SegmentFault::BadEnds,
        SegmentFault::Loop,
        SegmentFault::NotJson,
    ];
    push_refusals(&mut text, &segments)?;
    push_refusals(&mut text, &[StoreFault::Full, StoreFault::Expired])?;
    assert_eq!(rt;
        text.as_str(),
        "30 TooShort a segment has at least 2 entries
31 TooLong a segment has at most 63 entries
32 BadEnds an interface is 0 exactly where a segment begins or ends
33 Loop an AS stands in two entries
34 NotJson the text is not a segment in JSON
50 Full the store has 32 segments of this kind between these ASes
51 Expired the segment has expired
"
    );
    Ok(())
}

#[test]
fn refusals_of_topologies_and_beacons_have_sentences(rt: HostRuntime) -> Result<(), Fail> {
    let mut text = String::new(rt.alloc());
    let topologies = [
        TopologyFault::NotJson,
        TopologyFault::BadField,
        TopologyFault::DuplicateAs,
        TopologyFault::DuplicateIf,
        TopologyFault::UnknownAs,
        TopologyFault::BadKind,
        TopologyFault::NoRouter,
        TopologyFault::NoLink,
        TopologyFault::TooMany,
    ];
    push_refusals(&mut text, &topologies)?;
    let beacons = [
        BeaconFault::TooLong,
        BeaconFault::Loop,
        BeaconFault::NotCore,
        BeaconFault::NoInterface,
        BeaconFault::LinkDown,
        BeaconFault::WrongKind,
        BeaconFault::NotHere,
    ];
    push_refusals(&mut text, &beacons)?;
    assert_eq!(rt;
        text.as_str(),
        "10 NotJson the text is not JSON
11 BadField a field is missing, of another type or out of its range
12 DuplicateAs an AS is listed twice
13 DuplicateIf an interface stands at two ends of links
14 UnknownAs an AS is not listed
15 BadKind a link joins ASes that its kind does not join
16 NoRouter an AS has no router of this number
17 NoLink an AS has no interface of this number
18 TooMany there are 1 to 1024 ASes and at most 4096 links
31 TooLong a beacon has at most 62 entries
33 Loop the AS stands in the beacon already
40 NotCore the AS is no core AS of the topology
41 NoInterface the AS has no interface of this number
42 LinkDown the link is down
43 WrongKind a beacon of this kind does not follow this link
44 NotHere the beacon does not come to this AS
"
    );
    Ok(())
}

#[test]
fn refusals_of_routers_have_sentences(rt: HostRuntime) -> Result<(), Fail> {
    let mut text = String::new(rt.alloc());
    let refusals = [
        Refusal::BadHeader(HeaderFault::Short),
        Refusal::IndexMismatch,
        Refusal::WrongIngress,
        Refusal::Expired,
        Refusal::BadMac,
        Refusal::SourceAs,
        Refusal::DestinationAs,
        Refusal::SwitchInside,
        Refusal::UnknownEgress,
        Refusal::LinkKinds,
        Refusal::LinkDown,
    ];
    push_refusals(&mut text, &refusals)?;
    assert_eq!(rt;
        text.as_str(),
        "90 BadHeader the packet has no path header: the header is cut off
91 IndexMismatch the indices of the packet do not fit its path
92 WrongIngress the packet did not come in where its hop field says
93 Expired the hop has expired
94 BadMac the authenticator of the hop is not right
95 SourceAs the source AS does not fit how the packet came
96 DestinationAs the destination AS does not fit the end of the path
97 SwitchInside a packet from inside the AS can't change segments
98 UnknownEgress the AS has no interface of the way out
99 LinkKinds the links in and out can't be joined
100 LinkDown the link at the way out is down
"
    );
    Ok(())
}

#[test]
fn refusals_of_whole_packets_have_sentences(rt: HostRuntime) -> Result<(), Fail> {
    let mut text = String::new(rt.alloc());
    let refusals = [
        PacketFault::ShortPacket,
        PacketFault::BadVersion,
        PacketFault::BadPathType,
        PacketFault::BadHeader(HeaderFault::Short),
        PacketFault::BadHeaderLength,
        PacketFault::BadPayloadLength,
        PacketFault::BadField,
        PacketFault::PayloadTooLarge,
        PacketFault::RoomTooSmall,
    ];
    push_refusals(&mut text, &refusals)?;
    let packet = TurnRefusal::Packet(PacketFault::BadVersion);
    let router = TurnRefusal::Step(Refusal::Expired);
    writeln!(text, "{packet}; {router}")?;
    assert_eq!(rt;
        text.as_str(),
        "160 ShortPacket the packet is shorter than its common header and its addresses
161 BadVersion the version of the packet is not 0
162 BadPathType the packet has no SCION path
90 BadHeader the packet has no path header: the header is cut off
163 BadHeaderLength the headers of the packet are not as long as it says
164 BadPayloadLength the payload of the packet is not as long as it says
11 BadField a field of the packet is out of its range
165 PayloadTooLarge the payload is too large for a packet
27 RoomTooSmall the packet does not fit into its room
the version of the packet is not 0; the hop has expired
"
    );
    Ok(())
}

#[test]
fn refusals_of_policies_and_paths_have_sentences(rt: HostRuntime) -> Result<(), Fail> {
    let mut text = String::new(rt.alloc());
    let policies = [
        PolicyFault::UnexpectedEnd,
        PolicyFault::BadPredicate,
        PolicyFault::Unbalanced,
        PolicyFault::TooDeep,
        PolicyFault::TooLarge,
        PolicyFault::NoDefault,
        PolicyFault::AfterDefault,
    ];
    push_refusals(&mut text, &policies)?;
    let options = [
        OptionFault::Unread(PolicyFault::BadPredicate),
        OptionFault::OptionCount,
    ];
    push_refusals(&mut text, &options)?;
    let paths = [
        VerifyFault::PieceCount,
        VerifyFault::Range,
        VerifyFault::Kinds,
        VerifyFault::CutAtCore,
        VerifyFault::NotJoined,
        VerifyFault::Source,
        VerifyFault::Destination,
        VerifyFault::TooManyHops,
        VerifyFault::Loop,
        VerifyFault::Expired,
        VerifyFault::HeaderDiffers,
        VerifyFault::AclDenied(Denied { hop: 1, entry: 0 }),
        VerifyFault::SequenceMismatch,
    ];
    push_refusals(&mut text, &paths)?;
    push_refusals(&mut text, &[CombineFault::SameAs])?;
    assert_eq!(rt;
        text.as_str(),
        "60 UnexpectedEnd a sequence ends where an item must come
61 BadPredicate a hop predicate can't be read
62 Unbalanced the parentheses of a sequence don't match
63 TooDeep a sequence has at most 32 parentheses open at once
64 TooLarge a sequence has at most 256 nodes, and a list at most 256 entries
65 NoDefault the last entry of a list has no predicate
66 AfterDefault an entry without a predicate is the last of its list
61 BadPredicate a hop predicate can't be read
67 OptionCount a request has 1 to 16 policy options
70 PieceCount a path has one to three pieces
71 Range a piece is not from one entry of its segment to a later one
72 Kinds the pieces are not up, core and down in this order
73 CutAtCore a piece is cut where it may not be
74 NotJoined adjoining pieces don't meet in one AS
75 Source the path does not begin in the source
76 Destination the path does not end in the destination
77 TooManyHops a path has at most 64 hop fields
78 Loop the walk names an AS twice
79 Expired a hop of the path has expired
80 HeaderDiffers the header is not that of the pieces
81 AclDenied the policy denies a hop of the walk
82 SequenceMismatch the walk is not a word of the policy's sequence
85 SameAs the source and the destination are one AS
"
    );
    Ok(())
}

#[test]
fn want_of_memory_has_its_own_sentence_and_a_refusal_that_of_its_reason(
    rt: HostRuntime,
) -> Result<(), Fail> {
    let answers = [OrMemory::Memory, OrMemory::Refused(AddrFault::IsdRange)];
    let [memory, refused] = answers;
    let text = format!(in rt.alloc(); "{memory}; {refused}")?;
    assert_eq!(rt; text.as_str(), "out of memory; an ISD is at most 65535");
    Ok(())
}
