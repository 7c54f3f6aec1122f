use isd_as::{IfId, IsdAs};

/// The entry that an AS adds to a beacon: its own hop.
#[derive(Clone, Copy, Debug, PartialEq, Eq)]
pub struct Entry {
    /// The AS.
    pub ia: IsdAs,
    /// The interface to the AS before this one, in construction direction; 0 at the first entry.
    pub cons_ingress: IfId,
    /// The interface to the AS after this one, in construction direction; 0 at the last entry of a
    /// segment.
    pub cons_egress: IfId,
    /// How long the hop is live, from the segment's timestamp on: 337.5 seconds times `exp_time` +
    /// 1.
    pub exp_time: u8,
    /// The authenticator by which the AS recognizes the hop as its own.
    pub mac: [u8; 6],
}
