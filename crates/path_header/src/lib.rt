//! The path header of a SCION packet: its value, its one encoding as bytes, and its reversal.
//!
//! A path has one to three segments. The header has an info field for each segment, a hop field for
//! each AS on a segment, and two indices for the packet's place on the path. [`Header`] is its
//! value, and [`decode`] and [`encode`] translate between bytes and values. [`HeaderMut`] reads and
//! changes a header in its bytes. No call takes memory.
#![tactic(auto)]

mod borrowed;
mod checking;
mod fault;
mod fields;
mod header;
pub mod laws;
mod lens;
mod meta;
mod reading;
mod reversal;
mod writing;

pub use borrowed::HeaderMut;
pub use fault::HeaderFault;
pub use fields::{HopField, InfoField};
pub use header::{Header, MAX_HEADER_LEN};
pub use lens::{HOP_LEN, INFO_LEN, MAX_HOPS, MAX_SEGMENT_HOPS, META_LEN, SegLens};
pub use reading::decode;
pub use writing::{encode, hop_bytes, info_bytes};
