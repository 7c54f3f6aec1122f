//! Three ASes in a row, and the history of a packet in them: all premises of the headline hold for
//! it, and it arrives.
#![tactic(auto)]

pub mod laws;
