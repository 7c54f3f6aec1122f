//! Tests of policies, of paths, and of answers to requests for paths.
//!
//! They are test vectors from outside, worked examples and sentences, of which no clause speaks.
//! Tests have crates of their own and use public calls only, since a crate with tests is proved
//! twice.
#![tactic(auto)]

#[cfg(test)]
mod answers;
#[cfg(test)]
mod options;
#[cfg(test)]
mod paths;
#[cfg(test)]
mod policies;
