use crate::fault::EventFault;
use forwarding::TurnReply;

/// The reply to an event.
#[derive(Clone, Copy, Debug, PartialEq, Eq)]
pub enum Reply {
    /// The event was done.
    Done,
    /// The event made the beacon of this number.
    Begun(usize),
    /// The event made a segment and registered it: `true` if it is new to the store.
    Registered(bool),
    /// The event removed this number of segments from the store.
    Swept(usize),
    /// The event gave the answer of this number.
    Answered(usize),
    /// The event sent the packet of this number.
    Sent(usize),
    /// The packet had its turn.
    Turned(TurnReply),
    /// The event was refused, and changed nothing.
    Refused(EventFault),
}
