ghost use Rattle.std.specs.Prelude.{◌≡◌, option_map, Some};
ghost use Rattle.network_core.specs.Event as events;
ghost use Rattle.beacon_lines.specs.Beaconing.{network_event};
ghost use Rattle.beacon_lines.specs.inner.Events.{effect_of, is_new, is_stored};

use isd_as::{IfId, IsdAs};
use network_core::{Event, Reply};

/// An event of a beaconing, after the one that sets its second.
#[derive(Clone, Copy)]
pub(crate) enum BeaconEvent {
    /// An AS begins a beacon.
    Originate {
        ia: IsdAs,
        egress: IfId,
        beta0: u16,
    },
    /// An AS passes on the beacon of this number.
    Extend {
        beacon: u32,
        ia: IsdAs,
        egress: IfId,
    },
    /// An AS ends the beacon of this number.
    Terminate {
        beacon: u32,
        ia: IsdAs,
    },
}

/// What an event has made.
#[derive(Clone, Copy)]
pub(crate) enum Effect {
    /// The beacon of this number.
    Begun(u32),
    /// A segment is stored. `true` if it was not stored before.
    Stored(bool),
    /// Something else.
    Done,
    /// Nothing: the event was refused.
    Refused,
}

impl Effect {
    /// Whether something is there that was not there before.
    pub(crate) fn is_new(self) -> bool
        ensures { result ≡ is_new self }
    {
        match self {
            Self::Begun(_) | Self::Done => true,
            Self::Stored(new) => new,
            Self::Refused => false,
        }
    }

    /// Whether a segment is stored now.
    pub(crate) fn is_stored(self) -> bool
        ensures { result ≡ is_stored self }
    {
        matches!(self, Self::Stored(_))
    }
}

/// What an event made, by its reply.
pub(crate) fn effect_of(reply: Reply) -> Effect
    ensures { result ≡ effect_of reply }
{
    match reply {
        Reply::Refused(_) => Effect::Refused,
        Reply::Registered(new) => Effect::Stored(new),
        Reply::Begun(beacon) => match u32::try_from(beacon) {
            Ok(beacon) => Effect::Begun(beacon),
            Err(_) => Effect::Done,
        },
        _ => Effect::Done,
    }
}

impl BeaconEvent {
    /// The event of a network. It is never `None`, and is returned so since the borrow checker has
    /// no rule for an event that is lent where it was made.
    pub(crate) fn of_network<'a>(&self) -> Option<Event<'a>>
        ensures { option_map events.event_value result ≡ Some (network_event self.now) }
    {
        Some(match *self {
            Self::Originate { ia, egress, beta0 } => Event::Originate { ia, egress, beta0 },
            Self::Extend { beacon, ia, egress } => Event::Extend { beacon, ia, egress },
            Self::Terminate { beacon, ia } => Event::Terminate { beacon, ia },
        })
    }
}
