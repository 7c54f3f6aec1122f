//! A run of lines over streams.

ghost use Rattle.std.specs.Prelude.{◌≡◌, ◌||◌, [], false};
ghost use Rattle.std.specs.String.{string_bytes};
ghost use Rattle.event_lines.specs.Replies.{stage_behind};
ghost use Rattle.event_lines.specs.Run.{Listens, Runs, has_line_end, is_read_fault, is_write_fault};
ghost use Rattle.event_lines.specs.inner.Session.{Exchanges, Finishes, Hears, WritesRest, session_value, unbegun_session};

use crate::accepted::AcceptedLines;
use crate::fault::RunFault;
use crate::input::{read_into, wanted_after};
use crate::session::Session;
use network_core::Net;
use std::alloc::Global;
use streams::{MAX_INPUT_LEN, MAX_READ_LEN, Sink, Source, write_all};

/// Writes the replies that are not written yet.
fn write_replies<K: Sink>(session: &mut Session, sink: &mut K) -> Result<(), RunFault>
    ensures written { WritesRest result (session_value session.old) (session_value session.new)
        (K.held sink.old) (K.held sink.new) }
    ensures flag { K.failed sink.new ≡ (K.failed sink.old || is_write_fault result) }
{
    if write_all(sink, session.replies.as_bytes()).is_err() {
        return Err(RunFault::Write);
    }
    if sink.flush().is_err() {
        return Err(RunFault::Write);
    }
    session.replies.clear();
    Ok(())
}

/// Answers the lines whose ends are among these bytes, and writes the replies.
fn exchange<K: Sink>(
    alloc: Global,
    accepted: AcceptedLines,
    session: &mut Session,
    sink: &mut K,
    bytes: &[u8],
) -> Result<(), RunFault>
    requires whole { has_line_end session.old.rest.items ≡ false }
    requires written { string_bytes session.old.replies ≡ [] }
    ensures told { Exchanges accepted result bytes.now (session_value session.old)
        (session_value session.new)
        (K.held sink.old) (K.held sink.new) }
    ensures flag { K.failed sink.new ≡ (K.failed sink.old || is_write_fault result) }
{
    let heard = session.answer_bytes(alloc, accepted, bytes);
    write_replies(session, sink)?;
    heard
}

/// Answers the last line if it has no end, and writes the reply. An input without bytes is one
/// empty line.
fn finish<K: Sink>(
    alloc: Global,
    accepted: AcceptedLines,
    session: &mut Session,
    sink: &mut K,
) -> Result<(), RunFault>
    requires { string_bytes session.old.replies ≡ [] }
    ensures told { Finishes accepted result (session_value session.old) (stage_behind session.new.run)
        (K.held sink.old) (K.held sink.new) }
    ensures flag { K.failed sink.new ≡ (K.failed sink.old || is_write_fault result) }
{
    if session.is_done() {
        return Ok(());
    }
    let heard = session.answer(alloc, accepted);
    write_replies(session, sink)?;
    heard
}

/// Answers the lines of a source in a session that has not begun, as [`listen`] says.
fn hear<S: Source, K: Sink>(
    alloc: Global,
    accepted: AcceptedLines,
    session: &mut Session,
    source: &mut S,
    sink: &mut K,
) -> Result<(), RunFault>
    requires { session_value session.old ≡ unbegun_session }
    ensures heard { Hears accepted result (stage_behind session.new.run)
        (S.left source.old) (S.left source.new)
        (K.held sink.old) (K.held sink.new) }
    ensures source { S.failed source.new ≡ (S.failed source.old || is_read_fault result) }
    ensures sink { K.failed sink.new ≡ (K.failed sink.old || is_write_fault result) }
{
    let mut room = [0u8; MAX_READ_LEN];
    let mut count = 0;
    loop {
        let wanted = wanted_after(count);
        let Some(bytes) = read_into(source, &mut room[..wanted]) else {
            return Err(RunFault::Read);
        };
        if bytes.is_empty() {
            return finish(alloc, accepted, session, sink);
        }
        if count == MAX_INPUT_LEN {
            return Err(RunFault::InputTooLong);
        }
        exchange(alloc, accepted, session, sink, bytes)?;
        count += bytes.len();
    }
}

/// Answers the lines of a source, and returns the network after them. The first line is a topology.
/// Each later line is an event of the network, or shows a packet; a line that is not accepted is a
/// bad line. Each line has one reply. The replies to the lines of one read are written and flushed
/// before more is read; no clause speaks of the flush.
///
/// The lines after the first are a run of their events, in their order, and the replies are those
/// of its history. So the guarantees of a run ([`network_core::run`]) hold for them, also for the
/// lines that were answered before a fault.
///
/// [`RunFault::Topology`] if the first line is no topology, after its reply; no other fault but
/// [`RunFault::Write`] may come then. [`RunFault::Read`] and [`RunFault::Write`] if the source or
/// the sink failed; [`RunFault::Memory`] if memory ran out at a line that had not ended before the
/// last read, after the replies to those before; [`RunFault::InputTooLong`] at byte 67,108,865.
///
/// It ends for every source that ends or passes that limit. A line takes the time and memory of its
/// event, and more in proportion to its bytes. The bytes of one line, and the replies to the lines
/// of one read of up to 8,192 bytes, are held at a time.
pub fn listen<S: Source, K: Sink>(
    alloc: Global,
    accepted: AcceptedLines,
    source: &mut S,
    sink: &mut K,
) -> Result<Net, RunFault>
    ensures listens { Listens accepted result (S.left source.old) (S.left source.new)
        (K.held sink.old) (K.held sink.new) }
    ensures source { S.failed source.new ≡ (S.failed source.old || is_read_fault result) }
    ensures sink { K.failed sink.new ≡ (K.failed sink.old || is_write_fault result) }
{
    let mut session = Session::new(alloc);
    hear(alloc, accepted, &mut session, source, sink)?;
    Ok(session.into_net())
}

/// Answers all lines of a source as [`listen`] does, and drops the network. Its faults are those of
/// [`listen`].
pub fn run_lines<S: Source, K: Sink>(
    alloc: Global,
    source: &mut S,
    sink: &mut K,
) -> Result<(), RunFault>
    ensures runs { Runs result (S.left source.old) (S.left source.new)
        (K.held sink.old) (K.held sink.new) }
    ensures source { S.failed source.new ≡ (S.failed source.old || is_read_fault result) }
    ensures sink { K.failed sink.new ≡ (K.failed sink.old || is_write_fault result) }
{
    listen(alloc, AcceptedLines::All, source, sink)?;
    Ok(())
}
