//! Which lines a run accepts.

ghost use Rattle.std.specs.Prelude.{◌≡◌};
ghost use Rattle.network_core.specs.Event as events;
ghost use Rattle.event_lines.specs.AcceptedLines.{accepts, prepares};
ghost use Rattle.event_lines.specs.inner.Seen.{line_value};

use crate::line::Line;
use network_core::Event;

/// Which lines after the first a run accepts; all others are bad lines.
#[derive(Clone, Copy, Debug, PartialEq, Eq)]
pub enum AcceptedLines {
    /// All lines.
    All,
    /// Only lines that prepare a network: none that turns, loses, alters, answers or shows a
    /// packet.
    Preparing,
}

/// Whether an event prepares a network: it does not turn, lose, alter or answer a packet.
fn prepares(event: &Event<'_>) -> bool
    ensures { result ≡ prepares (events.event_value event.now) }
{
    !matches!(
        event,
        Event::Turn { .. } | Event::Lose { .. } | Event::Alter { .. } | Event::Back { .. }
    )
}

impl AcceptedLines {
    /// Whether the run accepts this line.
    pub(crate) fn accepts(self, line: &Line<'_>) -> bool
        ensures { result ≡ accepts self (line_value line.now) }
    {
        match self {
            AcceptedLines::All => true,
            AcceptedLines::Preparing => match line {
                Line::Happens(event) => prepares(event),
                Line::Show { .. } => false,
            },
        }
    }
}
