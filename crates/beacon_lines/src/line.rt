//! The line of an event.
#![tactic(auto, unfolding(crate::specs::Lines::event_line))]

ghost use Rattle.std.specs.Prelude.{◌≡◌, ◌++◌, OnOk};
ghost use Rattle.std.specs.String.{string_bytes};
ghost use Rattle.network_core.specs.Event.{Tick};
ghost use Rattle.beacon_lines.specs.Beaconing.{network_event};
ghost use Rattle.beacon_lines.specs.Lines.{event_line};

use crate::event::BeaconEvent;
use std::alloc::AllocError;
use std::fmt::Write;

/// Adds the line of the event that sets the second, with its end.
pub(crate) fn push_tick(text: &mut String, now: u32) -> Result<(), AllocError>
    ensures { OnOk result
        (string_bytes text.new ≡ string_bytes text.old ++ event_line (Tick now)) }
{
    writeln!(text, r#"{{"do":"tick","now":{now}}}"#)
}

/// Adds the line of an event, with its end.
pub(crate) fn push_line(text: &mut String, event: BeaconEvent) -> Result<(), AllocError>
    ensures { OnOk result
        (string_bytes text.new ≡ string_bytes text.old ++ event_line (network_event event)) }
{
    match event {
        BeaconEvent::Originate { ia, egress, beta0 } => writeln!(
            text,
            r#"{{"do":"originate","ia":"{ia}","egress":{egress},"beta0":{beta0}}}"#
        ),
        BeaconEvent::Extend { beacon, ia, egress } => writeln!(
            text,
            r#"{{"do":"extend","beacon":{beacon},"ia":"{ia}","egress":{egress}}}"#
        ),
        BeaconEvent::Terminate { beacon, ia } => {
            writeln!(
                text,
                r#"{{"do":"terminate","beacon":{beacon},"ia":"{ia}"}}"#
            )
        }
    }
}
