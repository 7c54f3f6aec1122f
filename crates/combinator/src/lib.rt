//! The path combinator: it finds the paths between two ASes that known segments give. For each walk
//! it answers the path that expires last, in a fixed order and up to a limit.
//!
//! It lists the usable pieces once and divides them into groups of pieces that put the same hops
//! into a walk. Of a list of groups that meet, one path is the best, and it is found place by
//! place; only that one is looked at, and only if its hop fields and info fields don't tell that it
//! is not among the first of the answer. The verifier's rules decide whether it may be sent. It is
//! kept if no list of groups with the same walk gives a better one.
#![tactic(auto)]

mod answer;
mod better;
mod choice;
mod chosen;
mod combination;
mod combiner;
mod fault;
mod found;
mod front;
mod group;
mod groups;
pub mod laws;
mod limit;
mod options;
mod ordered;
mod path;
mod request;
mod search;
mod usable_piece;
mod usable_pieces;
mod walks;

pub use answer::{Paths, paths_between};
pub use choice::{Choice, paths_with};
pub use combination::combine;
pub use combiner::Combiner;
pub use fault::{CombineError, CombineFault};
pub use limit::{BAD_LIMIT, MAX_PATHS, is_limit};
pub use path::{Path, PathList};
pub use path_verifier::OwnedPiece;
pub use walks::Walks;
