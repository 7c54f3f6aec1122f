//! The network of one process, and the events that change it one after another: its topology, the
//! current second, the beacons under way, the registered segments, the answers, and the packets
//! that were sent.
#![tactic(auto)]

mod answer;
mod asking;
mod beacons;
mod control;
mod event;
mod fault;
pub mod laws;
mod limits;
mod net;
mod packet;
mod packets;
mod reply;
mod running;
mod sending;
mod sent;

pub use event::{Event, Given};
pub use fault::{EventFault, OWN_FAULTS};
pub use limits::{MAX_OBJECTS, MAX_PAYLOAD_LEN};
pub use net::Net;
pub use packet::Packet;
pub use reply::Reply;
pub use running::{Stopped, run};
pub use sent::Sent;
