//! The router and the path header of this network as a static library, for hosts written in C,
//! Rust, Python or JavaScript.
//!
//! Each call takes numbers, records and slices of bytes, and no memory of its own. To a host a
//! slice is a pointer and a length; no call keeps one. A call has no demands on its arguments
//! beyond these types, and answers all of them with a [`ScionAnswer`].
#![tactic(auto)]

mod answer;
mod authenticator;
mod header;
mod packet_records;
mod packets;
mod parts;
mod records;
mod router;
mod whole;

pub use answer::ScionAnswer;
pub use authenticator::scion_hop_mac;
pub use header::{scion_header_check, scion_header_reverse};
pub use packet_records::{ScionHost, ScionPacketInfo};
pub use packets::scion_step_all;
pub use records::{ScionInterface, ScionPacket, ScionRouter};
pub use router::scion_step;
pub use whole::{
    scion_whole_packet_read, scion_whole_packet_reply, scion_whole_packet_step,
    scion_whole_packet_write,
};
