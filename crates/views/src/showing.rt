//! A view of the bytes of a source, on a sink.

ghost use Rattle.std.specs.Prelude.{◌≡◌};
ghost use Rattle.views.specs.Fault.{of_command, of_findings, of_network, of_said};
ghost use Rattle.views.specs.Shown.{ShowsPath, ShowsView, WritesMade};

use crate::answer::answer_path;
use crate::beacons::{beacons, beacons_remark};
use crate::explain::explanation;
use crate::fault::ViewFault;
use crate::network::network_picture;
use crate::network_after::Said;
use crate::packet::{packet_text, whole_packet_text};
use crate::path::packet_path;
use crate::remark::Remark;
use crate::report::network_report;
use crate::run_packet::{run_packet, whole_run_packet};
use crate::wrapped::{captured_run, wrapped_packet};
use beacon_lines::BeaconingOptions;
use commands::CommandFault;
use event_lines::RunFault;
use network_core::EventFault;
use scion_packet::PacketInfo;
use std::alloc::Global;
use streams::{Sink, Source, write_all};
use view_words::{Subject, View};

/// The remark on what was shown, if there is one; or why it was not.
type Shown = Result<Option<Remark>, ViewFault>;

/// What a command has come to, with its fault as one of a view.
fn of_command<A>(made: Result<A, CommandFault>) -> Result<A, ViewFault>
    ensures { result ≡ of_command made }
{
    match made {
        Ok(value) => Ok(value),
        Err(fault) => Err(ViewFault::Command(fault)),
    }
}

/// What is said of a network, with its refusal as a fault of a view.
fn of_network<A>(said: Result<A, EventFault>) -> Result<A, ViewFault>
    ensures { result ≡ of_network said }
{
    match said {
        Ok(value) => Ok(value),
        Err(fault) => Err(ViewFault::Refused(fault)),
    }
}

/// The same after a run over lines.
fn of_said<A>(made: Result<Result<A, EventFault>, RunFault>) -> Result<A, ViewFault>
    ensures { result ≡ of_said made }
{
    match made {
        Ok(said) => of_network(said),
        Err(fault) => Err(ViewFault::Command(CommandFault::from(fault))),
    }
}

/// The end of an explanation, with the remark that it found something, if it did.
fn of_findings(explained: Result<bool, RunFault>) -> Shown
    ensures { result ≡ of_findings explained }
{
    match explained {
        Ok(true) => Ok(Some(Remark::Found)),
        Ok(false) => Ok(None),
        Err(fault) => Err(ViewFault::Command(CommandFault::from(fault))),
    }
}

/// Writes the text that was made, if one was. There is no remark on it.
fn write_made<K: Sink>(made: Result<String, ViewFault>, sink: &mut K) -> Shown
    ensures { WritesMade made result (K.held sink.old) (K.held sink.new) }
{
    let text = made?;
    write_all(sink, text.as_bytes())?;
    Ok(None)
}

/// Writes the text that a command has made, if it has made one.
fn write_command<K: Sink>(made: Result<String, CommandFault>, sink: &mut K) -> Shown
    ensures { WritesMade (of_command made) result (K.held sink.old) (K.held sink.new) }
{
    write_made(of_command(made), sink)
}

/// Writes the text that a run over lines has made, if it has made one.
fn write_run<K: Sink>(made: Result<Said, RunFault>, sink: &mut K) -> Shown
    ensures { WritesMade (of_said made) result (K.held sink.old) (K.held sink.new) }
{
    write_made(of_said(made), sink)
}

/// Writes the capture of the run of the lines that the source has.
fn show_capture<S: Source, R: Sink, K: Sink>(
    alloc: Global,
    info: &PacketInfo,
    source: &mut S,
    replies: &mut R,
    sink: &mut K,
) -> Shown
    ensures { ShowsView (View.Capture info.now) result (S.left source.old) (S.left source.new)
        (R.held replies.old) (R.held replies.new) (K.held sink.old) (K.held sink.new) }
{
    let file = of_command(captured_run(alloc, source, replies, info))?;
    write_all(sink, &file)?;
    Ok(None)
}

/// Writes the lines of a beaconing of the topology that the source has.
fn show_beacons<S: Source, R: Sink, K: Sink>(
    alloc: Global,
    options: &BeaconingOptions,
    source: &mut S,
    replies: &mut R,
    sink: &mut K,
) -> Shown
    ensures { ShowsView (View.Beacons options.entry.now) result (S.left source.old) (S.left source.new)
        (R.held replies.old) (R.held replies.new) (K.held sink.old) (K.held sink.new) }
{
    let lines = of_command(beacons(alloc, source, replies, options))?;
    write_all(sink, lines.as_bytes())?;
    Ok(beacons_remark(lines.as_bytes()))
}

/// Shows the path of what is named, in the network after the lines that the source has.
fn show_path<S: Source, R: Sink, K: Sink>(
    alloc: Global,
    subject: Subject,
    source: &mut S,
    replies: &mut R,
    sink: &mut K,
) -> Shown
    ensures { ShowsPath subject result (S.left source.old) (S.left source.new)
        (R.held replies.old) (R.held replies.new) (K.held sink.old) (K.held sink.new) }
{
    match subject {
        Subject::Packet(number) => write_run(packet_path(alloc, source, replies, number), sink),
        Subject::Answer { answer, path } => {
            write_run(answer_path(alloc, source, replies, answer, path), sink)
        }
    }
}

/// Shows what the view wants of the bytes of the source: an explanation and a report line by line,
/// a capture as a file, and anything else as one text. Returns the remark on it, if there is one.
///
/// The replies to the lines of a run are written to `replies`, as [`event_lines::listen`] has them;
/// and so is that to a topology which is refused a beaconing. No other view has replies.
///
/// The faults are those of the calls that make what is shown, which write nothing to `sink` if they
/// fail, but for an explanation and a report; [`CommandFault::Write`] if a write failed; and
/// [`ViewFault::Refused`], before anything is written to `sink`.
pub fn show<S: Source, R: Sink, K: Sink>(
    alloc: Global,
    view: &View,
    source: &mut S,
    replies: &mut R,
    sink: &mut K,
) -> Result<Option<Remark>, ViewFault>
    ensures { ShowsView view.now result (S.left source.old) (S.left source.new)
        (R.held replies.old) (R.held replies.new) (K.held sink.old) (K.held sink.new) }
{
    match view {
        View::Explain { is_json } => of_findings(explanation(alloc, *is_json, source, sink)),
        View::Report(words) => of_said(network_report(alloc, source, replies, words, sink)),
        View::Capture(info) => show_capture(alloc, info, source, replies, sink),
        View::Beacons(options) => show_beacons(alloc, options, source, replies, sink),
        View::Path(subject) => show_path(alloc, *subject, source, replies, sink),
        View::Packet(command) => write_command(packet_text(alloc, source, command), sink),
        View::WholePacket(command) => {
            write_command(whole_packet_text(alloc, source, command), sink)
        }
        View::PacketOfRun(number) => write_run(run_packet(alloc, source, replies, *number), sink),
        View::WholePacketOfRun(info, number) => {
            let said = whole_run_packet(alloc, source, replies, info, *number);
            write_run(said, sink)
        }
        View::Wrap(info, number) => {
            write_run(wrapped_packet(alloc, source, replies, info, *number), sink)
        }
        View::Network(extent, subject) => {
            let said = network_picture(alloc, source, replies, extent, *subject);
            write_run(said, sink)
        }
    }
}
