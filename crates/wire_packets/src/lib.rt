//! Packets as they are on the wire: the whole packet of a frame, and datagrams of UDP with whole
//! packets in a file of the format pcap.
//!
//! A frame is a packet as a router's step takes it: the addresses of both ASes, the path header and
//! the payload. What stands besides on the wire, in the common header and in the addresses of the
//! hosts, is given.
#![tactic(auto)]

mod file;
mod station;
mod wrapping;

pub use file::{Hop, empty_file, push_datagram};
pub use station::Station;
pub use wrapping::wrap;
