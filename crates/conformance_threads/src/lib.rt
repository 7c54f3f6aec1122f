//! Tests of what threads share, over the crates below: what the contracts leave to tests, and
//! worked examples.
//!
//! Each call may run out of memory, and is then repeated; but only one call of a test may. So these
//! tests pass if any one of their allocations is refused, each in turn, and a test prints on
//! standard output what ran out of memory. In the tests of `strictly`, `sizes` and `crowds` no
//! allocation is refused, so there memory may not run out. The sentences of refusals are tested
//! separately.
#![tactic(auto)]

#[cfg(test)]
mod board;
#[cfg(test)]
mod calls;
#[cfg(test)]
mod crowds;
#[cfg(test)]
mod daemon;
#[cfg(test)]
mod letters;
#[cfg(test)]
mod segments;
#[cfg(test)]
mod sentences;
#[cfg(test)]
mod sizes;
#[cfg(test)]
mod strictly;
