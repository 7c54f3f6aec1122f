//! One step of a router of a SCION network on a packet.
//!
//! A router checks the packet's current hop field against its view of its AS, in a fixed order of
//! thirteen steps. Then it sends the packet over a link, hands it to another router of the AS, or
//! delivers it. A packet that is refused stays as it was.
#![tactic(auto)]

mod arrival;
pub mod checks;
mod fault;
pub mod laws;
mod outcome;
mod packet;
mod place;
mod route;

pub use arrival::Arrival;
pub use fault::Refusal;
pub use outcome::Outcome;
pub use packet::{ADDRESSES_LEN, destination_in, read_header, source_in, step, step_in_parts};
pub use place::{seg_id_on_arrival, way_in, way_out};
