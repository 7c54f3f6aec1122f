//! What a picture shows.

use crate::extent::Addresses;
use crate::marks::Router;
use policy_expr::WalkHop;
use scion_topology::{AsEntry, Link};

/// A network, the part of it that is drawn, and what is marked.
#[derive(Drop)]
pub(crate) struct Scene<'a> {
    pub(crate) ases: &'a [AsEntry],
    pub(crate) links: &'a [Link],
    /// The ASes of the part that is shown.
    pub(crate) inside: &'a Addresses,
    /// These ASes, and those that a link joins to one of them.
    pub(crate) drawn: &'a Addresses,
    /// The hops that a packet has passed.
    pub(crate) passed: &'a [WalkHop],
    /// The router that has the packet.
    pub(crate) at: &'a Option<Router>,
}
