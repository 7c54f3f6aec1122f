//! A packet at a router as text: each of its fields, each check of the router with both its sides,
//! and the result of the step.
//!
//! A packet is a frame, as a router's step takes it, or a whole packet, as it is on the wire.
//!
//! The checks are those of [`router_step::step`], up to the first that fails, and the last line is
//! the one that `scionet step` prints. The text has about 20 bytes for each byte of the packet, and
//! one or two kilobytes more; each byte is read a few times.
#![tactic(auto)]

mod check;
mod checks;
mod failed;
mod fields;
mod host;
pub mod laws;
mod lines;
mod part;
mod sides;
mod situation;
mod turned;
mod whole;
mod whole_checks;
mod whole_turn;

pub use failed::failed_check;
pub use fields::fields_text;
pub use lines::packet_lines;
pub use turned::turn_lines;
pub use whole::{packet_fault_line, whole_fields_text};
pub use whole_turn::{whole_packet_lines, whole_turn_lines};
