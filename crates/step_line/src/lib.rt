//! One turn of a router as text: the result of `scionet step` for its options and a packet.
//!
//! Texts give the router's view, the second of its step, and how the packet came to it. The packet
//! comes as hexadecimal text, and the result is one line.
#![tactic(auto)]

mod command;
mod fault;
mod fields;
mod line;
mod texts;

pub use command::StepCommand;
pub use fault::TurnFault;
pub use fields::{bytes, number};
pub use line::{outcome_line, refusal_line};
pub use texts::StepArgs;
