use router_step::{Outcome, Refusal};

/// The result of a packet's turn.
#[derive(Clone, Copy, Debug, PartialEq, Eq)]
pub enum TurnReply {
    /// The router made its step, with this outcome.
    Went(Outcome),
    /// The router refused the packet.
    Refused(Refusal),
    /// There was no step: the packet is at no router of the network.
    Still,
}
