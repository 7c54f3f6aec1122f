//! Requests for paths, and to verify a path, with their answers: both are JSON.
//!
//! [`paths_answer`] and [`verdict_answer`] read a request with all segments that it is about, so
//! that a host need not keep a network. `scion_ffi_paths` exports both to other languages.
#![tactic(auto)]

mod answer;
mod expiry;
mod fault;
pub mod laws;
mod paths;
mod request;
mod segment;
mod stretch;
mod text;
mod verdict;

pub use fault::{MAX_FAULT_LEN, RequestError, RequestFault};
pub use paths::paths_answer;
pub use request::MAX_REQUEST_LEN;
pub use verdict::verdict_answer;
