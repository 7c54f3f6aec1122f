//! An inbox between running threads: a queue of fixed length that loses no value and gives none
//! twice.
//!
//! [`Inbox::new`] returns the inbox with the passes of a sender and of the receiver. Each thread
//! uses the inbox by a pass of its own, whose account has the values put in and taken out by it.
//! The rule of the inbox is kept by seven kinds of step: making the inbox, splitting a pass, taking
//! over a pass whose thread has ended, a push that succeeds and one that returns its value, and a
//! pop with a value and one that finds the inbox empty. The owner of a pass that has taken over all
//! others knows about all values: each came out as often as it was put in, or is still there, and
//! the values of each of the first two senders came out in that sender's order.
#![tactic(auto)]

mod account;
mod ends;
mod inbox;
mod pass;
mod rule;

pub use ends::{InboxEnd, Receiver, Sender};
pub use inbox::Inbox;
pub use pass::{InboxPass, ReceiverPass, Receives, Right, SenderPass, Sends};

#[cfg(test)]
mod tests;
