//! Tests of the commands of `scionet`.
//!
//! They are test vectors from outside, worked examples and sentences, of which no clause speaks.
//! Tests have crates of their own and use public calls only, since a crate with tests is proved
//! twice.
#![tactic(auto)]

#[cfg(test)]
mod sentences;
#[cfg(test)]
mod step;
#[cfg(test)]
mod step_program;
