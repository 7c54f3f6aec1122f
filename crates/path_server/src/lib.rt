//! A path store: the known path segments, and the lookup of those for a source and a destination.
//!
//! The store is a list in the order of registration. It takes no segment that has expired, none
//! twice, and at most 32 of one kind from one AS to another. A lookup copies the live segments of
//! which paths between two ASes can be made. An index of the segments' ends finds them.
#![tactic(auto)]

mod blocks;
mod ends;
mod expiry;
mod fault;
mod index;
pub mod laws;
mod lookup;
mod op;
mod same_ends;
mod set;
mod store;
mod sweeps;

pub use fault::{StoreError, StoreFault};
pub use op::StoreOp;
pub use same_ends::MAX_ALIKE;
pub use set::SegmentSet;
pub use store::PathStore;
