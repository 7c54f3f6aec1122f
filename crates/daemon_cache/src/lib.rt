//! A daemon that answers requests for paths, with a cache that threads share.
//!
//! [`Daemon::ask`] looks segments up on a published board and returns the paths that can be made of
//! them. The cache changes no answer: an entry is used only if the request and the segments are the
//! same.
#![tactic(auto)]

mod daemon;
mod entry;
mod fault;
mod kept;
mod request;
mod texts;

pub use daemon::Daemon;
pub use fault::{AskError, AskFault};
