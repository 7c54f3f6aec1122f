//! A run of lines as a capture in the format pcap: each datagram that its packets would have on the
//! wire.
#![tactic(auto)]

mod hops;
mod recorder;
mod running;
mod turned;

pub use running::capture;
