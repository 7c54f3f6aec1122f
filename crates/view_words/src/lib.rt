//! The words of `scionet_view`: its subcommands and their help, and what they ask for.
//!
//! [`read_view`] reads the words after the program's name as a [`View`], or says why they are
//! refused.
#![tactic(auto)]

mod extent_words;
mod packet_words;
mod report_words;
mod turn_words;
mod view;
mod words;

pub use report_words::ReportWords;
pub use view::{Subject, View};
pub use words::read_view;
