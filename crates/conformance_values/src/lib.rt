//! Tests of the values on the wire and in stores: addresses, authenticators, headers and segments.
//!
//! They are test vectors from outside, worked examples and sentences, of which no clause speaks.
//! Tests have crates of their own and use public calls only, since a crate with tests is proved
//! twice.
#![tactic(auto)]

#[cfg(test)]
mod addresses;
#[cfg(test)]
mod authenticators;
#[cfg(test)]
mod headers;
#[cfg(test)]
mod segments;
#[cfg(test)]
mod store;
