ghost use Rattle.std.specs.Prelude.{◌≡◌};
ghost use Rattle.forwarding.specs.Turn.{stop_at};

use isd_as::{IfId, IsdAs};
use router_step::{Arrival, Refusal};

/// A router that has a packet, and how the packet came to it.
#[derive(Clone, Copy, Debug, PartialEq, Eq)]
pub struct RouterStop {
    /// The router's AS.
    pub ia: IsdAs,
    /// The router's number in its AS.
    pub router: u8,
    /// How the packet came to the router.
    pub arrival: Arrival,
    /// The interface by which the packet came into the AS, or 0 in the AS where it was sent.
    pub came_in_by: IfId,
}

impl RouterStop {
    /// The stop of a packet that a host of this AS sends, at this router of the AS.
    pub fn of_host(ia: IsdAs, router: u8) -> RouterStop
        ensures { result ≡ stop_at ia router Arrival.FromHost 0 }
    {
        RouterStop {
            ia,
            router,
            arrival: Arrival::FromHost,
            came_in_by: IfId::NONE,
        }
    }
}

/// Where a packet is.
#[derive(Clone, Copy, Debug, PartialEq, Eq)]
pub enum PacketLocation {
    /// At a router that has not made its step yet.
    AtRouter(RouterStop),
    /// Delivered, in its destination AS.
    Delivered,
    /// Refused, by the router of this number in this AS.
    Refused(IsdAs, u8, Refusal),
    /// Lost on its way.
    Lost,
}
