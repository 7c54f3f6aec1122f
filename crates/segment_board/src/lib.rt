//! A published board of path segments: one writer publishes registrations and sweeps, and readers
//! look segments up without waiting for anybody.
//!
//! [`new_board`] returns the [`BoardWriter`], and the writer gives out its [`BoardReader`]s. A
//! publication is seen at one step, whole or not at all. A reader never loses what it has seen:
//! each of its lookups is answered from a store that some published operations made, and these
//! begin with all that it had seen or learnt.
#![tactic(auto)]

mod board_state;
mod edition;
mod fault;
mod history;
mod reader;
mod writer;

pub use fault::{BoardFault, LookupError};
pub use history::Told;
pub use reader::BoardReader;
pub use writer::{BoardWriter, new_board};
