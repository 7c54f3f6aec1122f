//! Tests in which each allocation is refused in turn, for sequences, access control lists, policies
//! and their options, which take any allocator.
//!
//! A call runs out of memory if and only if one of its allocations was refused; else it returns its
//! one right value. Made again with enough memory, it returns that value. It keeps no block after
//! its value was dropped.
#![tactic(auto)]

#[cfg(test)]
mod calls;
#[cfg(test)]
mod places;
#[cfg(test)]
mod refusals;
#[cfg(test)]
mod rows;
