//! Tests of `run_lines` and of `run`: streams that fail, calls without lines, and sentences.
//!
//! Whole networks as lines are among the cases of `cases/`, which the built `scionet` is run over.
//! Tests have crates of their own and use public calls only, since a crate with tests is proved
//! twice.
#![tactic(auto)]

#[cfg(test)]
mod cut_lines;
#[cfg(test)]
mod event_runs;
#[cfg(test)]
mod given_paths;
#[cfg(test)]
mod row;
#[cfg(test)]
mod sentences;
#[cfg(test)]
mod streams_fail;
#[cfg(test)]
mod strictly;
#[cfg(test)]
mod table;
