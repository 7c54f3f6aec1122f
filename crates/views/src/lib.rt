//! What `scionet_view` shows: a packet as a router sees it, field by field and check by check; a
//! network as a picture; the path of a packet or of an answer; the paths between ASes and the links
//! that they need; the events by which a topology is beaconed; a packet as it is on the wire, and a
//! run as a capture; and why lines are refused.
//!
//! [`show`] reads a source and writes to a sink what a view of it has to tell. The packet, the
//! lines of a network and the faults are those of `scionet`.
#![tactic(auto)]

mod answer;
mod beacons;
mod explain;
mod fault;
mod network;
mod network_after;
mod packet;
mod path;
mod remark;
mod report;
mod run_packet;
mod showing;
mod wrapped;

pub use fault::ViewFault;
pub use remark::Remark;
pub use showing::show;
