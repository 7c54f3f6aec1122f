use isd_as::IfId;

/// How a packet came to its router.
#[derive(Clone, Copy, Debug, PartialEq, Eq)]
pub enum Arrival {
    /// From a host of the router's AS.
    FromHost,
    /// From another router of the AS.
    Inside,
    /// Over the link at this interface.
    Link(IfId),
}
