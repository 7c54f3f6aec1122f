//! Flights, and the workers that carry them.
//!
//! A [`Flight`] is a packet that was sent in a network that no longer changes: each call of
//! [`Flight::advance`] is one turn of the router that has it. [`run_workers`] carries many flights
//! at one second on 1 to 8 running threads, each with an inbox. It reports exactly one end for each
//! flight: that to which the turns of its routers lead, in any schedule, or that there was no room
//! for it in an inbox. An [`Inbox`] and its passes can be used by themselves.
#![tactic(auto)]

mod carried;
mod end;
mod fault;
mod flight;
pub mod laws;
mod pass_pairs;
mod posted;
mod report;
mod run;
mod worker;

pub use end::End;
pub use fault::RunFault;
pub use flight::Flight;
pub use inbox::{
    Inbox, InboxPass, Receiver, ReceiverPass, Receives, Right, Sender, SenderPass, Sends,
};
pub use report::Report;
pub use run::{MAX_WORKERS, is_number_of_workers, run_workers};
pub use worker::{Gate, OpenGate, worker_of};
