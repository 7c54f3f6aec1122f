//! Whole packets in a network: what is proved of its packets holds of them.
#![tactic(auto)]

pub mod laws;
