//! Path segments: beaconing makes them, path servers store them, and paths are made of pieces of
//! them.
//!
//! A segment is a list of entries, one for each AS that it passes, in the direction in which it was
//! made. Each entry has its AS's authenticator of the hop. A beacon is a segment under way. Types
//! keep the rules of both, so that no value breaks them. Segments are written to JSON and read from
//! it.
#![tactic(auto)]

mod beacon;
mod chain;
mod entry;
mod fault;
mod kind;
pub mod laws;
mod reading;
mod rules;
mod segment;
mod writing;

pub use beacon::Beacon;
pub use entry::Entry;
pub use fault::{SegmentError, SegmentFault};
pub use kind::SegKind;
pub use rules::{MAX_BEACON_LEN, MAX_SEGMENT_LEN};
pub use segment::Segment;
