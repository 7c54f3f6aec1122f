ghost use Rattle.std.specs.Prelude.{◌≡◌, ◌≤◌, length};

use crate::sent::Sent;
use forwarding::{PacketInFlight, PacketLocation};
use policy_expr::WalkHop;
use std::marker::Model;

/// A packet: its shipment, and where it is.
#[derive(Drop)]
pub struct Packet {
    pub(crate) sent: Sent,
    pub(crate) transit: PacketInFlight,
}

impl Model for Packet {
    ghost use Rattle.policy_expr.specs.Code.{policy_codes};
    ghost use Rattle.network_core.specs.Value.{PacketValue};

    ghost Value = { PacketValue };

    ghost coded = { Prim.hlevel policy_codes };

    ghost view = { λ p. record { sent = p.sent; packet = p.transit } };
}

impl Packet {
    /// Its shipment.
    pub fn sent(&self) -> &Sent
        ensures { result.now ≡ self.now.sent }
    {
        &self.sent
    }

    /// Its bytes.
    pub fn bytes(&self) -> &[u8]
        ensures { result.now ≡ self.now.packet.bytes }
    {
        self.transit.bytes()
    }

    /// Where it is.
    pub fn place(&self) -> PacketLocation
        ensures { result ≡ self.now.packet.place }
    {
        self.transit.place()
    }

    /// The hops that it has passed, in order; only the first 64 are kept.
    pub fn passed(&self) -> &[WalkHop]
        ensures value { result.now ≡ self.now.packet.passed }
        ensures few { length result.now ≤ 64 }
    {
        self.transit.passed()
    }
}
