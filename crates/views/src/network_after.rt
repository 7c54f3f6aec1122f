//! The network after some lines.

ghost use Rattle.std.specs.Prelude.{◌≡◌, ◌||◌};
ghost use Rattle.event_lines.specs.declared.accepted.AcceptedLines.TheVariants.{All};
ghost use Rattle.event_lines.specs.Run.{Listens, is_read_fault};

use event_lines::{AcceptedLines, RunFault, listen};
use network_core::{EventFault, Net};
use std::alloc::Global;
use streams::{Sink, Source};

/// What is said of a network, or the reason for which an event that speaks of the same would be
/// refused.
pub(crate) type Said = Result<String, EventFault>;

/// The network after the lines of a source, whose replies are written to `replies`. The faults are
/// those of [`listen`].
pub(crate) fn network_after<S: Source, R: Sink>(
    alloc: Global,
    source: &mut S,
    replies: &mut R,
) -> Result<Net, RunFault>
    ensures listens { Listens All result (S.left source.old) (S.left source.new)
        (R.held replies.old) (R.held replies.new) }
    ensures flag { S.failed source.new ≡ (S.failed source.old || is_read_fault result) }
{
    listen(alloc, AcceptedLines::All, source, replies)
}
