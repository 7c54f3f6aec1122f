ghost use Rattle.std.specs.Prelude.{◌≡◌, ◌++◌, OnErr, OnOk};
ghost use Rattle.std.specs.String.{string_bytes};
ghost use Rattle.router_step.specs.Fault as faults;
ghost use Rattle.router_step.specs.Fault.{refusal_text};

use path_header::HeaderFault;
use refusal::NumberedFault;
use std::alloc::AllocError;
use thiserror::Error;

/// Why a router refuses a packet: the first check that fails, in the order of the variants. A
/// switch to another segment checks expiry and authenticator once more, before the interface of the
/// way out is looked for.
#[derive(Clone, Copy, Debug, PartialEq, Eq, Error)]
pub enum Refusal {
    /// The packet has fewer bytes than its addresses need, or no path header after them.
    #[error("the packet has no path header: {0}")]
    BadHeader(HeaderFault),
    /// The current hop field is not in the current info field's segment, a segment has a single hop
    /// field, or a packet from a host is not at the first hop field.
    #[error("the indices of the packet do not fit its path")]
    IndexMismatch,
    /// The packet came over a link that this router does not own, or that is not the hop's way in.
    #[error("the packet did not come in where its hop field says")]
    WrongIngress,
    /// The hop is past its expiry.
    #[error("the hop has expired")]
    Expired,
    /// The hop's authenticator is right under none of the keys that this AS accepts.
    #[error("the authenticator of the hop is not right")]
    BadMac,
    /// A packet from a host has another AS as its source, or a packet from outside has this one.
    #[error("the source AS does not fit how the packet came")]
    SourceAs,
    /// The path ends in this AS and the packet is for another AS, or the other way round.
    #[error("the destination AS does not fit the end of the path")]
    DestinationAs,
    /// The path switches to another segment in this AS, and the packet did not come over a link.
    #[error("a packet from inside the AS can't change segments")]
    SwitchInside,
    /// The AS has no interface with the number of the hop's way out.
    #[error("the AS has no interface of the way out")]
    UnknownEgress,
    /// A path may not join the links by which the packet comes in and leaves.
    #[error("the links in and out can't be joined")]
    LinkKinds,
    /// The link at the hop's way out is down.
    #[error("the link at the way out is down")]
    LinkDown,
}

impl NumberedFault for Refusal {
    ghost code_and_name = { faults.code_and_name };

    fn code_and_name(self) -> (u16, &'static str) {
        match self {
            Self::BadHeader(_) => (90, "BadHeader"),
            Self::IndexMismatch => (91, "IndexMismatch"),
            Self::WrongIngress => (92, "WrongIngress"),
            Self::Expired => (93, "Expired"),
            Self::BadMac => (94, "BadMac"),
            Self::SourceAs => (95, "SourceAs"),
            Self::DestinationAs => (96, "DestinationAs"),
            Self::SwitchInside => (97, "SwitchInside"),
            Self::UnknownEgress => (98, "UnknownEgress"),
            Self::LinkKinds => (99, "LinkKinds"),
            Self::LinkDown => (100, "LinkDown"),
        }
    }
}

impl Refusal {
    /// Adds the number and the name to a text; for a packet without a path header, also those of
    /// the header's refusal. `AllocError` if memory runs out; the text is then as it was.
    pub fn push_to(self, text: &mut String) -> Result<(), AllocError>
        ensures ok { OnOk result
            (string_bytes text.new ≡ string_bytes text.old ++ refusal_text self) }
        ensures err { OnErr result (string_bytes text.new ≡ string_bytes text.old) }
    {
        // `write!` to the text itself would not say what it leaves of it without memory.
        let alloc = *text.allocator();
        let (code, name) = self.code_and_name();
        let words = match self {
            Self::BadHeader(fault) => {
                format!(in alloc; "{code} {name} {} {}", fault.code(), fault.name())?
            }
            _ => format!(in alloc; "{code} {name}")?,
        };
        text.push_str(&words)
    }
}
