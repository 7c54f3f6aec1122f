//! Whole SCION packets: common header, address header, path header and payload, as they are on the
//! wire. They are read and written, a router makes its turn on them, and a host gets the reply.
#![tactic(auto)]

mod checking;
mod fault;
mod host;
pub mod laws;
mod layout;
mod packet;
mod reading;
mod replying;
mod turning;
mod writing;

pub use fault::{PacketFault, TurnRefusal};
pub use host::HostAddress;
pub use packet::{PacketInfo, WholePacket};
pub use reading::read;
pub use replying::reply;
pub use turning::turn;
pub use writing::write;
