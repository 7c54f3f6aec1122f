//! The paths of this network as a static library, for hosts written in C, Rust or Python: requests
//! and answers are JSON, those of `path_requests`.
//!
//! A call frees all memory that it takes before it returns.
#![tactic(auto)]

mod calls;
mod room;

pub use calls::{scion_paths, scion_verify};
pub use room::ScionText;
