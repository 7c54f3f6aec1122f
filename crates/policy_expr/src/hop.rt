ghost use Rattle.std.specs.Prelude.{◌≡◌, ◌⊎◌, ◌↔◌, IsTrue};
ghost use Rattle.isd_as.specs.Address.{Fits};
ghost use Rattle.policy_expr.specs.Hop.{FitsInterfaces, Matches};

use isd_as::{IfId, IsdAs};

/// One hop of a walk: an AS, and the interfaces by which the walk enters and leaves it.
#[derive(Clone, Copy, Debug, PartialEq, Eq)]
pub struct WalkHop {
    /// The AS.
    pub ia: IsdAs,
    /// The interface by which the walk enters the AS, or 0 in the first AS.
    pub ingress: IfId,
    /// The interface by which the walk leaves the AS, or 0 in the last AS.
    pub egress: IfId,
}

/// The interfaces that a hop predicate matches. The number 0 is a wildcard.
#[derive(Clone, Copy, Debug, PartialEq, Eq)]
pub enum Interfaces {
    /// Any interfaces.
    Any,
    /// This one is the way in or the way out.
    Either(IfId),
    /// The first is the way in, and the second the way out.
    Both(IfId, IfId),
}

/// A hop predicate: which ISD, AS and interfaces it matches. The number 0 is a wildcard for each of
/// them.
#[derive(Clone, Copy, Debug, PartialEq, Eq)]
pub struct HopPred {
    /// The ISD and the AS.
    pub ia: IsdAs,
    /// The interfaces.
    pub interfaces: Interfaces,
}

impl HopPred {
    /// Whether the predicate matches the hop's ISD, AS and interfaces.
    pub fn matches(&self, hop: &WalkHop) -> bool
        ensures { IsTrue result ↔ Matches self.now hop.now }
    {
        hop.ia.fits(self.ia) && self.interfaces.fit(hop)
    }
}

impl Interfaces {
    /// Whether these interfaces match those of the hop.
    fn fit(self, hop: &WalkHop) -> bool
        ensures { IsTrue result ↔ FitsInterfaces self hop.now }
    {
        match self {
            Interfaces::Any => true,
            Interfaces::Either(wanted) => {
                fits(wanted.0.into(), hop.ingress.0.into())
                    || fits(wanted.0.into(), hop.egress.0.into())
            }
            Interfaces::Both(ingress, egress) => {
                fits(ingress.0.into(), hop.ingress.0.into())
                    && fits(egress.0.into(), hop.egress.0.into())
            }
        }
    }
}

/// Whether a number is the wanted one, or the wildcard 0 is wanted.
fn fits(wanted: u64, number: u64) -> bool
    ensures { IsTrue result ↔ Fits wanted number }
{
    wanted == 0 || wanted == number
}
