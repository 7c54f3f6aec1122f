//! Packets on their way: their places on their paths, and the turns of routers that move them.
//!
//! A [`PacketInFlight`] is a packet in a network: its bytes, its place, and the hops that it has
//! passed. Each turn is one step of the router at its place; after it the packet is at the next
//! router, delivered, or refused. The laws are about a packet on an accepted path: no router
//! refuses it, it passes its walk hop by hop, and it is delivered after an exact number of turns.
//! No turn takes memory.
#![tactic(auto)]

mod departing;
mod framing;
mod in_flight;
pub mod laws;
mod location;
mod reply;

pub use departing::first_out;
pub use framing::frame;
pub use in_flight::{PacketInFlight, add_hop, turn_in_place};
pub use location::{PacketLocation, RouterStop};
pub use reply::TurnReply;
