//! Tests of flights and of the workers that carry them, over the network of the worked examples.
#![tactic(auto)]

#[cfg(test)]
mod flights;
#[cfg(test)]
mod gate;
#[cfg(test)]
mod network;
#[cfg(test)]
mod runs;
