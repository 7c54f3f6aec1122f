//! What is wrong with the lines that a run refuses: where in the line, what stands there, and what
//! is wanted.
//!
//! [`explain`] answers the lines of a source as a run does, and writes what is wrong with each as
//! soon as its reply is known. Of a line that is right it says nothing.
#![tactic(auto)]

mod doubled;
mod event;
mod explanation;
mod finding;
mod found;
mod history;
mod joining;
mod json;
mod json_text;
mod line_words;
mod located;
mod misfit;
mod notes;
mod place;
mod policy;
mod reason;
mod refused;
mod said;
mod sentence;
mod sequence;
mod subject;
mod telling;
mod topology;
mod turn;
mod unanswered;
mod unread;

pub use finding::FindingForm;
pub use telling::explain;
