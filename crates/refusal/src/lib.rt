//! Errors of calls that can also run out of memory, and the words in which contracts speak of them.
//!
//! A call that takes memory returns a value or an error. The error is [`OrMemory`] of its crate's
//! refusals: a refusal, or running out of memory.
#![tactic(auto)]

mod fault;
mod numbered_fault;

pub use fault::OrMemory;
pub use numbered_fault::NumberedFault;
