//! A complete beaconing of a topology, as lines that `scionet run` takes: the events by which each
//! core AS reaches the ASes below it and the other core ASes.
//!
//! Each event is done in a network of its own, and its line is written only if it was not refused.
#![tactic(auto)]

mod arrivals;
mod event;
mod line;
mod lines;
mod options;
mod run;
mod search;
mod ways;

pub use lines::{ReadError, beacon_lines};
pub use options::{BeaconingOptions, MAX_PER_PAIR};
