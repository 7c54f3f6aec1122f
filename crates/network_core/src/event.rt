use isd_as::{IfId, IsdAs};
use path_header::Header;
use path_verifier::Pieces;
use policy_expr::{OptionText, Policy};
use std::alloc::Global;

/// A given way of a packet: its ends, its pieces with their header, and the policy under which it
/// is sent.
#[derive(Clone, Copy)]
pub struct Given<'a> {
    /// The source AS.
    pub source: IsdAs,
    /// The destination AS.
    pub destination: IsdAs,
    /// The pieces, in order of travel.
    pub pieces: &'a Pieces<'a>,
    /// The header.
    pub header: &'a Header,
    /// The policy.
    pub policy: &'a Policy<Global>,
}

/// An event of a network. Beacons, answers and packets have numbers of their own, from 0 in the
/// order in which they were made.
#[derive(Clone, Copy)]
pub enum Event<'a> {
    /// Sets the network's time.
    Tick {
        /// The second.
        now: u32,
    },
    /// A core AS begins a beacon over one of its links, at the current second.
    Originate {
        /// The AS.
        ia: IsdAs,
        /// The interface of the link.
        egress: IfId,
        /// The first accumulator of the beacon.
        beta0: u16,
    },
    /// An AS passes on a beacon that arrived in it, over one of its links. The old beacon stays.
    Extend {
        /// The number of the beacon.
        beacon: u32,
        /// The AS.
        ia: IsdAs,
        /// The interface of the link.
        egress: IfId,
    },
    /// An AS ends a beacon that arrived in it, and the segment is registered at the current second.
    /// The beacon stays.
    Terminate {
        /// The number of the beacon.
        beacon: u32,
        /// The AS.
        ia: IsdAs,
    },
    /// Removes the stored segments that are not live at the current second.
    Sweep,
    /// Asks for paths of the stored segments that are live at the current second. The answer is
    /// kept, together with the policy of the used option.
    Ask {
        /// The source AS of the paths.
        src: IsdAs,
        /// The destination AS of the paths.
        dst: IsdAs,
        /// The policy options, 1 to 16.
        options: &'a [OptionText<'a>],
        /// The largest number of paths wanted, 1 to 64.
        limit: u32,
    },
    /// Sends a packet by a path of an answer, with the ends of its request and the policy of the
    /// used option. If the verifier accepts the way at the current second, the packet is put at the
    /// router that owns the first way out.
    Send {
        /// The number of the answer.
        ask: u32,
        /// The number of the path in it, from 0.
        path: u32,
        /// The payload, of at most 1,024 bytes.
        payload: &'a [u8],
    },
    /// Sends a packet by a given way, checked in the same way.
    SendGiven {
        /// The way.
        way: Given<'a>,
        /// The payload, of at most 1,024 bytes.
        payload: &'a [u8],
    },
    /// The router that has the packet makes one step.
    Turn {
        /// The number of the packet.
        packet: u32,
    },
    /// The packet is lost.
    Lose {
        /// The number of the packet.
        packet: u32,
    },
    /// Changes a byte of the packet by exclusive or.
    Alter {
        /// The number of the packet.
        packet: u32,
        /// The place of the byte.
        at: u32,
        /// The value for the exclusive or.
        xor: u8,
    },
    /// Answers a delivered packet: its addresses, path and header are reversed, and a packet of its
    /// own is sent back without a policy.
    Back {
        /// The number of the delivered packet.
        packet: u32,
        /// The payload of the reply, of at most 1,024 bytes.
        payload: &'a [u8],
    },
    /// Cuts the link at an interface of an AS.
    CutLink {
        /// The AS.
        ia: IsdAs,
        /// The interface.
        interface: IfId,
    },
    /// Mends the link at an interface of an AS.
    MendLink {
        /// The AS.
        ia: IsdAs,
        /// The interface.
        interface: IfId,
    },
    /// An AS takes another key into use; the key in use until now becomes the one before.
    RotateKey {
        /// The AS.
        ia: IsdAs,
        /// The key, of 1 to 64 bytes.
        key: &'a [u8],
    },
}
