use isd_as::IfId;

/// Where a packet goes that was not refused.
#[derive(Clone, Copy, Debug, PartialEq, Eq)]
pub enum Outcome {
    /// Over the link at this interface.
    ToLink(IfId),
    /// To the router of this number in the same AS, which owns the way out.
    ToRouter(u8),
    /// To its destination, in this AS.
    Deliver,
}
