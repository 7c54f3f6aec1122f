//! Tests of networks: topologies; packets as text, field by field and check by check; a whole
//! packet by hand; pictures of networks; and the sentences of refusals.
//!
//! They are worked examples and sentences, of which no clause speaks. Tests have crates of their
//! own and use public calls only, since a crate with tests is proved twice.
#![tactic(auto)]

#[cfg(test)]
mod packet_texts;
#[cfg(test)]
mod pictures;
#[cfg(test)]
mod refusals;
#[cfg(test)]
mod topologies;
#[cfg(test)]
mod whole_packets;
