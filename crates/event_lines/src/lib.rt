//! A network that reads lines of text and answers each with a line: `scionet run`.
//!
//! The first line is a topology. Each line after it is an event of the network, or shows a packet.
//! [`listen`] accepts all lines, or only those that prepare a network, and returns the network
//! after them. A [`LineRun`] answers lines that come one by one. [`members`] is the table of lines.
#![tactic(auto)]

mod accepted;
mod cutting;
mod fault;
pub mod fields;
mod happening;
pub mod input;
pub mod laws;
mod line;
mod line_run;
pub mod members;
mod policy_misfit;
mod run;
mod session;
mod text;

pub use accepted::AcceptedLines;
pub use cutting::cut_line;
pub use fault::RunFault;
pub use line_run::LineRun;
pub use run::{listen, run_lines};
pub use text::{hops_text, kinds_text};
