//! The marks of a packet in the picture.

ghost use Rattle.std.specs.Prelude.{◌≡◌};
ghost use Rattle.network_view.specs.Marks.{is_at, is_in, leaves_by, was_passed};

use isd_as::IsdAs;
use policy_expr::WalkHop;
use scion_topology::{End, Link};

/// A router of a network.
#[derive(Clone, Copy, Debug, PartialEq, Eq)]
pub struct Router {
    /// Its AS.
    pub ia: IsdAs,
    /// Its number there.
    pub number: u8,
}

/// Whether the packet is at this router of this AS.
pub(crate) fn is_at(at: Option<Router>, ia: IsdAs, number: u8) -> bool
    ensures { result ≡ is_at at ia number }
{
    match at {
        Some(router) => router.ia == ia && router.number == number,
        None => false,
    }
}

/// Whether the packet is at a router of this AS.
pub(crate) fn is_in(at: Option<Router>, ia: IsdAs) -> bool
    ensures { result ≡ is_in at ia }
{
    at.is_some_and(|router| router.ia == ia)
}

/// Whether the hop leaves its AS by the interface of this end.
fn leaves_by(end: &End, hop: &WalkHop) -> bool
    ensures { result ≡ leaves_by end.now hop.now }
{
    end.ia == hop.ia && end.number == hop.egress
}

/// Whether a packet that has passed these hops has passed the link: it left an AS by one of the
/// link's ends. It takes the time of the hops.
pub fn was_passed(passed: &[WalkHop], link: &Link) -> bool
    ensures { result ≡ was_passed passed.now link.now }
{
    passed
        .iter()
        .any(|hop| leaves_by(&link.a, hop) || leaves_by(&link.b, hop))
}
