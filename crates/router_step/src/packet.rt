//! The step on the bytes of a packet.

#![tactic(auto, unfolding(crate::specs::Packet::packet_step))]

ghost use Rattle.std.specs.Prelude.{◌≡◌, ℕ, ◌+◌, ◌≤◌, true, List, ◌++◌, length, take, drop, OnOk, OnErr, IfOk};
ghost use Rattle.path_header.specs.Value.{HeaderValue, header_len};
ghost use Rattle.path_header.specs.Spelling.{SpellsHeader};
ghost use Rattle.path_header.specs.Shown.{has_header, header_at_front};
ghost use Rattle.refusal.specs.Refusal.{Gives};
ghost use Rattle.router_step.specs.Step.{step_of};
ghost use Rattle.router_step.specs.inner.Step.{IsStepped};
ghost use Rattle.router_step.specs.Packet.{destination_of, source_of, header_in, packet_step, IsPacketStepped, IsFrame};

use crate::arrival::Arrival;
use crate::fault::Refusal;
use crate::outcome::Outcome;
use crate::route::step_header;
use isd_as::IsdAs;
use path_header::{Header, HeaderFault, HeaderMut, decode};
use scion_topology::RouterView;

/// The length of the addresses in front of the path header, destination and source.
pub const ADDRESSES_LEN: usize = 16;

/// One step of the router with this view, at the second `now`, on a packet that came to it by
/// `arrival`. It returns where the packet goes and changes its path header, or returns the first
/// check that fails.
///
/// A packet is 8 bytes of destination address, 8 bytes of source address, a path header, and a
/// payload. After a refusal every byte is as before; else only bytes of the header change, and its
/// length stays. [`Refusal`] has the checks in their order; the definition `step_of` has them with
/// the changes, each by its number.
///
/// If the packet came over a link against construction direction, this hop's authenticator is taken
/// out of the accumulator, before it is checked. At a switch to another segment both indices go on
/// by one. If the packet leaves over a link, its hop field is the next one, and in construction
/// direction this hop's authenticator is put into the accumulator.
pub fn step(
    view: &RouterView<'_>,
    now: u32,
    arrival: Arrival,
    packet: &mut [u8],
) -> Result<Outcome, Refusal>
    // The exact outcome or refusal, and every byte of the packet after it.
    ensures exact { let step = packet_step view.now now arrival packet.old
        in IsPacketStepped step packet.old packet.new result }
{
    check_header(packet)?;
    let (addresses, rest) = packet.split_at_mut(ADDRESSES_LEN);
    step_in_parts(view, now, arrival, addresses, rest)
}

/// The step on a packet in two parts: the addresses of destination and source, 16 bytes, and the
/// bytes behind them, which have to begin with a path header ([`HeaderMut::check_len`] tells).
///
/// It answers as [`step`] does on the packet in one piece, and never [`Refusal::BadHeader`]. Only
/// bytes of the path header change, and none after a refusal.
// Inlined, as all of a step below it: where a library has steps on frames and on whole packets,
// each has the code for itself, and none of them pays for a call that both share.
#[inline(always)]
pub fn step_in_parts(
    view: &RouterView<'_>,
    now: u32,
    arrival: Arrival,
    addresses: &[u8],
    rest: &mut [u8],
) -> Result<Outcome, Refusal>
    requires addresses { length addresses.now ≡ 16 }
    requires header { has_header rest.old ≡ true }
    // The exact outcome or refusal, and every byte after it, of the packet in one piece.
    ensures exact { let step = packet_step view.now now arrival (addresses.now ++ rest.old)
        in IsPacketStepped step (addresses.now ++ rest.old) (addresses.now ++ rest.new) result }
{
    let source = source_in(addresses);
    let destination = destination_in(addresses);
    step_behind(view, now, arrival, source, destination, rest)
}

/// The step on the bytes after a packet's addresses, which begin with a header.
// Inlined, as `step_in_parts`.
#[inline(always)]
fn step_behind(
    view: &RouterView<'_>,
    now: u32,
    arrival: Arrival,
    source: IsdAs,
    destination: IsdAs,
    bytes: &mut [u8],
) -> Result<Outcome, Refusal>
    requires { has_header bytes.old ≡ true }
    ensures exact { let step = step_of view.now now arrival source destination
        (header_at_front bytes.old)
        in IsStepped step (header_at_front bytes.old) (header_at_front bytes.new) result }
    ensures refused { OnErr result (bytes.new ≡ bytes.old) }
    ensures rest { let header = header_at_front bytes.new
        in drop (header_len header) bytes.new
        ≡ drop (header_len (header_at_front bytes.old)) bytes.old }
    // The bytes begin with a header after the step, too.
    ensures after { let header = header_at_front bytes.new
        in SpellsHeader (take (header_len header) bytes.new) header }
{
    let mut header = HeaderMut::checked(bytes);
    let stepped = step_header(view, now, arrival, source, destination, &mut header);
    header.known();
    stepped
}

/// Checks that a path header comes after the addresses of a packet: [`Refusal::BadHeader`] with the
/// reason if there is none.
fn check_header(packet: &[u8]) -> Result<(), Refusal>
    ensures exact { let header = header_at_front (drop 16 packet.now)
        in Gives (λ _. (header, header_len header)) result (header_in packet.now) }
    ensures long { OnOk result (16 ≤ length packet.now) }
    ensures begins { OnOk result (has_header (drop 16 packet.now) ≡ true) }
{
    if packet.len() < ADDRESSES_LEN {
        return Err(Refusal::BadHeader(HeaderFault::Short));
    }
    let (_, rest) = packet.split_at(ADDRESSES_LEN);
    match HeaderMut::check(rest) {
        Ok(()) => Ok(()),
        Err(fault) => Err(Refusal::BadHeader(fault)),
    }
}

/// The path header after the addresses of a packet, and its length in bytes: [`Refusal::BadHeader`]
/// with the reason if there is none.
pub fn read_header(packet: &[u8]) -> Result<(Header, usize), Refusal>
    ensures exact { result ≡ header_in packet.now }
    ensures len { IfOk result (λ front. front.1 ≡ header_len front.0) }
    ensures within { IfOk result (λ front. 16 + front.1 ≤ length packet.now) }
    ensures found { IfOk result
        (λ front. SpellsHeader (take front.1 (drop 16 packet.now)) front.0) }
    ensures only { (addresses text rest : List ℕ) (header : HeaderValue)
        → IsFrame packet.now addresses text rest header → result ≡ Ok (header, header_len header) }
{
    if packet.len() < ADDRESSES_LEN {
        return Err(Refusal::BadHeader(HeaderFault::Short));
    }
    let (_, rest) = packet.split_at(ADDRESSES_LEN);
    match decode(rest) {
        Ok(front) => Ok(front),
        Err(fault) => Err(Refusal::BadHeader(fault)),
    }
}

/// The address of the packet's destination AS: its first 8 bytes.
pub fn destination_in(packet: &[u8]) -> IsdAs
    requires { 8 ≤ length packet.now }
    ensures { result ≡ destination_of packet.now }
{
    let mut bytes = [0; 8];
    bytes.copy_from_slice(&packet[..8]);
    IsdAs::from_bytes(bytes)
}

/// The address of the packet's source AS: its next 8 bytes.
pub fn source_in(packet: &[u8]) -> IsdAs
    requires { 16 ≤ length packet.now }
    ensures { result ≡ source_of packet.now }
{
    let (_, rest) = packet.split_at(8);
    destination_in(rest)
}
