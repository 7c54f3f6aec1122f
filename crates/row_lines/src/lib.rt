//! The lines of `examples/row.txt`: each run of them that is answered delivers its packet.
#![tactic(auto)]

pub mod laws;
