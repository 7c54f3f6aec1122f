//! A network that is prepared by lines of text, and whose packets are then carried by workers:
//! `scionet work`.
//!
//! The lines are those that prepare a network. After their replies comes a line for each packet,
//! about the end of its flight.
#![tactic(auto)]

mod fault;
mod flights;
mod report;
mod work;

pub use fault::WorkFault;
pub use work::work_lines;
