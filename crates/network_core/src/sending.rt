//! Sending packets, and replying to delivered ones.

ghost use Rattle.std.specs.Prelude.{◌≡◌, ◌≤◌, IfErr, IfOk, OnOk, Some, length, nat_le, slice_get};
ghost use Rattle.std.specs.Arc.{arc_value};
ghost use Rattle.refusal.specs.Refusal.{Gives, check};
ghost use Rattle.path_verifier.specs.Accepted.{IsAccepted, IsRefused};
ghost use Rattle.path_verifier.specs.declared.fault.VerifyFault.{VerifyFault};
ghost use Rattle.forwarding.specs.Frame.{HasFrame};
ghost use Rattle.network_core.specs.declared.fault.EventFault.TheVariants as faults;
ghost use Rattle.network_core.specs.inner.Doing.{BeginsAt, DoesSend, Readies, ReadiesFrom};
ghost use Rattle.network_core.specs.Event.{BackOf, ByAnswer, ByWay, way_of};
ghost use Rattle.network_core.specs.Value.{asked_at, way_on};
ghost use Rattle.network_core.specs.Step.{header_back, packet_of, shipment_by};

use crate::answer::Answer;
use crate::event::Given;
use crate::fault::EventFault;
use crate::limits::{MAX_OBJECTS, MAX_PAYLOAD_LEN};
use crate::net::{EventError, Net};
use crate::packet::Packet;
use crate::reply::Reply;
use crate::sent::Sent;
use combinator::Path;
use forwarding::{PacketInFlight, PacketLocation, frame};
use path_header::Header;
use path_verifier::{VerifiedPath, lend_all, verify};
use policy_expr::Policy;
use router_step::{destination_in, read_header, source_in};
use std::alloc::{AllocError, Global};
use std::sync::Arc;

impl Net {
    /// Sends a packet by a path of an answer.
    pub(crate) fn send(
        &mut self,
        alloc: Global,
        ask: u32,
        path: u32,
        payload: &[u8],
    ) -> Result<Reply, EventError>
        ensures { DoesSend (shipment_by self.old (ByAnswer ask path) payload.now)
            self.old self.new result }
    {
        self.shrink_last_packet();
        match self.ready_answered(alloc, ask, path, payload) {
            Ok(packet) => self.keep_packet(packet),
            Err(error) => Err(error),
        }
    }

    /// Sends a packet by a given way.
    pub(crate) fn send_over(
        &mut self,
        alloc: Global,
        way: &Given<'_>,
        payload: &[u8],
    ) -> Result<Reply, EventError>
        ensures { DoesSend (shipment_by self.old (ByWay (way_of way.now)) payload.now)
            self.old self.new result }
    {
        self.shrink_last_packet();
        match self.ready_given(alloc, way, payload) {
            Ok(packet) => self.keep_packet(packet),
            Err(error) => Err(error),
        }
    }

    /// Sends the reply to a delivered packet.
    pub(crate) fn back(
        &mut self,
        alloc: Global,
        packet: u32,
        payload: &[u8],
    ) -> Result<Reply, EventError>
        ensures { DoesSend (shipment_by self.old (BackOf packet) payload.now)
            self.old self.new result }
    {
        self.shrink_last_packet();
        match self.ready_back(alloc, packet, payload) {
            Ok(packet) => self.keep_packet(packet),
            Err(error) => Err(error),
        }
    }

    /// Gives back the room that the last packet no longer needs, if it has ended. This calls the
    /// allocator, so it is done where a packet is sent, which takes memory anyway.
    fn shrink_last_packet(&mut self)
        ensures { self.new ≡ self.old }
    {
        if let Some(last) = self.packets.last_mut() {
            last.transit.shrink_to_fit();
        }
    }

    /// A packet by a given way, ready to be sent, or the first refusal.
    fn ready_given(
        &self,
        alloc: Global,
        way: &Given<'_>,
        payload: &[u8],
    ) -> Result<Packet, EventError>
        ensures { ReadiesFrom (λ p. p) self.now
            (shipment_by self.now (ByWay (way_of way.now)) payload.now) result }
    {
        check_payload(payload)?;
        self.ready(alloc, way, payload)
    }

    /// A packet by a path of an answer, ready to be sent, or the first refusal.
    fn ready_answered(
        &self,
        alloc: Global,
        ask: u32,
        path: u32,
        payload: &[u8],
    ) -> Result<Packet, EventError>
        ensures { ReadiesFrom (λ p. p) self.now
            (shipment_by self.now (ByAnswer ask path) payload.now) result }
    {
        let answer = self.answer_numbered(ask)?;
        let one = answer.path_numbered(path)?;
        check_payload(payload)?;
        self.ready_on(alloc, answer, path, one, payload)
    }

    /// A packet by the path of this number of an answer, ready to be sent, or the first refusal.
    fn ready_on(
        &self,
        alloc: Global,
        answer: &Arc<Answer>,
        number: u32,
        path: &Path,
        payload: &[u8],
    ) -> Result<Packet, EventError>
        requires there { slice_get (arc_value answer.now).answer.paths number ≡ Some path.now }
        requires few { length payload.now ≤ 1024 }
        ensures { Readies (λ p. p) self.now
            (record { way = way_on (arc_value answer.now) path.now; payload = payload.now })
            result }
    {
        let router = self.first_router_on(answer, path)?;
        let sent = Sent::by_answer(alloc, answer, number as usize, payload)?;
        Ok(packet_of(alloc, sent, router)?)
    }

    /// The router at which a packet by a path of an answer departs, or the first refusal.
    fn first_router_on(&self, answer: &Answer, path: &Path) -> Result<u8, EventFault>
        ensures { BeginsAt self.now (way_on answer.now path.now) result }
    {
        let pieces = lend_all(path.pieces());
        let way = Given {
            source: answer.source,
            destination: answer.destination,
            pieces: &pieces,
            header: path.header(),
            policy: &answer.policy,
        };
        self.first_router(&way)
    }

    /// The reply to a delivered packet, ready to be sent, or the first refusal.
    fn ready_back(&self, alloc: Global, packet: u32, payload: &[u8]) -> Result<Packet, EventError>
        ensures { ReadiesFrom (λ p. p) self.now
            (shipment_by self.now (BackOf packet) payload.now) result }
    {
        let one = self.packet_numbered(packet)?;
        let header = header_back(one)?;
        check_payload(payload)?;
        one.sent.known();
        let pieces = lend_all(one.sent.pieces()).turned();
        let policy = Policy::any();
        let bytes = one.bytes();
        let way = Given {
            source: destination_in(bytes),
            destination: source_in(bytes),
            pieces: &pieces,
            header: &header,
            policy: &policy,
        };
        self.ready(alloc, &way, payload)
    }

    /// A packet by a way that is copied, ready to be sent, or the first refusal.
    fn ready(&self, alloc: Global, way: &Given<'_>, payload: &[u8]) -> Result<Packet, EventError>
        requires { length payload.now ≤ 1024 }
        ensures { Readies (λ p. p) self.now
            (record { way = way_of way.now; payload = payload.now }) result }
    {
        let path = self.accepted(way)?;
        let router = self.router_at_start(way, &path)?;
        let sent = Sent::by_given(alloc, way, &path, payload)?;
        Ok(packet_of(alloc, sent, router)?)
    }

    /// The router at which a packet by this way departs, or the first refusal.
    fn first_router(&self, way: &Given<'_>) -> Result<u8, EventFault>
        ensures { BeginsAt self.now (way_of way.now) result }
    {
        let path = self.accepted(way)?;
        self.router_at_start(way, &path)
    }

    /// The path of a way, or the refusal of the verifier.
    fn accepted<'a>(&self, way: &Given<'a>) -> Result<VerifiedPath<'a, 'a, Global>, EventFault>
        ensures found { IfOk result (λ path. path ≡ asked_at self.now.moment (way_of way.now)) }
        ensures refused { IfErr result (λ fault. (first : VerifyFault)
            × (IsRefused (asked_at self.now.moment (way_of way.now)) first
            × (fault ≡ faults.Path first))) }
    {
        match verify(
            way.pieces,
            way.header,
            way.source,
            way.destination,
            self.moment,
            way.policy,
        ) {
            Ok(path) => Ok(path),
            Err(fault) => Err(EventFault::Path(fault)),
        }
    }

    /// The router at which a packet by a way departs, whose path this is, or the first refusal.
    fn router_at_start(
        &self,
        way: &Given<'_>,
        path: &VerifiedPath<'_, '_, Global>,
    ) -> Result<u8, EventFault>
        requires { path.now ≡ asked_at self.now.moment (way_of way.now) }
        ensures { BeginsAt self.now (way_of way.now) result }
    {
        path.known();
        let out = path.walk()[0].egress;
        let router = match self.topology.owner(way.source, out) {
            Ok(router) => router,
            Err(fault) => return Err(EventFault::Topology(fault)),
        };
        if self.packets.len() >= MAX_OBJECTS {
            return Err(EventFault::TooMany);
        }
        Ok(router)
    }
}

/// Checks that a payload is short enough.
fn check_payload(payload: &[u8]) -> Result<(), EventFault>
    ensures judged { Gives (λ x. x) result
        (check (nat_le (length payload.now) 1024) faults.PayloadTooLong) }
    ensures few { IfOk result (λ _. length payload.now ≤ 1024) }
{
    if payload.len() > MAX_PAYLOAD_LEN {
        return Err(EventFault::PayloadTooLong);
    }
    Ok(())
}

/// The header of a delivered packet, reversed.
fn header_back(one: &Packet) -> Result<Header, EventFault>
    ensures { Gives (λ header. header) result
        (header_back one.now.packet one.now.packet.place) }
{
    if one.place() != PacketLocation::Delivered {
        return Err(EventFault::NotDelivered);
    }
    match read_header(one.bytes()) {
        Ok((mut header, _)) => {
            header.reverse();
            Ok(header)
        }
        Err(_) => Err(EventFault::NotDelivered),
    }
}

/// The packet of a shipment, at this router of its source, unless memory runs out.
fn packet_of(alloc: Global, sent: Sent, router: u8) -> Result<Packet, AllocError>
    ensures packet { IfOk result (λ p. p ≡ packet_of sent router) }
    ensures frame { OnOk result (HasFrame sent.way.source sent.way.destination sent.way.pieces) }
{
    sent.known();
    let source = sent.source();
    let header = sent.header();
    header.known();
    let bytes = frame(alloc, source, sent.destination(), header, sent.payload())?;
    // The room for passed hops comes last, so that what is given back of it lies at the end of the
    // memory that is in use, where the next packet can take it.
    let transit = PacketInFlight::at_router(alloc, bytes, source, router)?;
    Ok(Packet { sent, transit })
}
