//! What paths a network has between its ASes, and what they need.
//!
//! A path is open if none of the links that it crosses is down. For each pair of ASes a line has
//! the number of open paths, what is said of the best of them, how many links may be lost before no
//! path is left, and the links and the ASes without which there is no open path. The last lines are
//! the links that most pairs need, and those that are cut. Each line is a text, or a JSON object.
#![tactic(auto)]

mod best;
mod cut;
mod fault;
mod json;
mod line;
mod needed;
mod open_walk;
mod pair;
mod report;
mod summary;
mod survival;

pub use fault::ReportFault;
pub use report::{MAX_RANKED_LINKS, ReportOptions, path_report};
