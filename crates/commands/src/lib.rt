//! The commands of `scionet`: the words of its command line, and what each command does with its
//! streams.
//!
//! [`Command`] is the meaning of the words. [`run`] carries it out: it reads a source, writes to a
//! sink, reports a fault on another sink, and returns the exit status.
#![tactic(auto)]

mod command;
mod example;
mod fault;
mod matched;
mod process;
mod program;
mod status;
mod step_fault;
mod words;

pub use command::{Command, explain_refusal, step_line};
pub use fault::{CommandFault, WordsFault};
pub use matched::turn;
pub use process::words_behind;
pub use program::{end, execute, run};
pub use status::Status;
pub use step_fault::StepFault;
pub use words::{VERSION, with_turn};
