use crate::keys::Keys;
use isd_as::{IfId, IsdAs};

/// The class of a link: which ASes it joins.
#[derive(Clone, Copy, Debug, PartialEq, Eq)]
pub enum LinkClass {
    /// Two core ASes, of one ISD or of two.
    Core,
    /// A parent, at end `a`, and a child of the same ISD that is no core AS, at end `b`.
    Child,
}

/// An end of a link: an interface of an AS and the router that owns it.
#[derive(Clone, Copy, Debug, PartialEq, Eq)]
pub struct End {
    /// The AS.
    pub ia: IsdAs,
    /// The number of the interface.
    pub number: IfId,
    /// The router of the AS that owns the interface.
    pub router: u8,
}

/// A link between two ASes. [`Topology`](crate::Topology) has the rules for it.
#[derive(Clone, Copy, Debug, PartialEq, Eq)]
pub struct Link {
    /// Its class.
    pub class: LinkClass,
    /// One end; the parent's end of a child link.
    pub a: End,
    /// The other end; the child's end of a child link.
    pub b: End,
    /// Whether it is up.
    pub up: bool,
}

/// An AS as it is listed in a topology.
#[derive(Drop)]
pub struct AsEntry {
    /// Its address.
    pub ia: IsdAs,
    /// Whether it is a core AS of its ISD.
    pub core: bool,
    /// The expiry of its hops, in units of 337.5 seconds, minus one.
    pub exp_time: u8,
    /// The keys whose authenticators it accepts, the one in use first.
    pub keys: Keys,
    /// The number of its routers, which are numbered from 0.
    pub routers: u8,
}

/// What a topology says of an AS, without its keys.
#[derive(Clone, Copy, Debug, PartialEq, Eq)]
pub struct AsInfo {
    /// Its place in the topology's list, from 0.
    pub position: usize,
    /// Whether it is a core AS of its ISD.
    pub core: bool,
    /// The expiry of its hops, in units of 337.5 seconds, minus one.
    pub exp: u8,
    /// The number of its routers.
    pub routers: u8,
}
