//! Beaconing: how ASes make path segments, entry by entry.
//!
//! A core AS begins a beacon over one of its links. Each AS in which the beacon arrives may pass it
//! on over another link, or end it as a segment. Each adds its own entry, with an authenticator
//! under its key and the chain of the entries before. No AS adds an entry unless its links lead
//! there.
#![tactic(auto)]

mod calls;
mod fault;
mod here;
pub mod laws;

pub use calls::{extend, originate, terminate};
pub use fault::{BeaconError, BeaconFault};
