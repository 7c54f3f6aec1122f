//! The report of the network after some lines.

ghost use Rattle.std.specs.Prelude.{◌≡◌, ◌||◌, false};
ghost use Rattle.event_lines.specs.Run.{is_read_fault, is_write_fault};
ghost use Rattle.path_report.specs.Report.{BeginsReport, IsReport};
ghost use Rattle.views.specs.Reached.{Begins, Writes};
ghost use Rattle.views.specs.Report.{BeginsPaths, Reports, ShowsReport, TellsPaths, are_one, bare_line, has_named, is_bare, report_fault, report_remark, run_fault, wanted_by};

use crate::network_after::network_after;
use crate::remark::Remark;
use combinator::CombineFault;
use event_lines::RunFault;
use isd_as::IsdAs;
use network_core::{EventFault, Net};
use path_report::{ReportFault, ReportOptions, path_report};
use scion_topology::{Topology, TopologyFault};
use std::alloc::Global;
use streams::{Sink, Source, write_all};
use view_words::ReportWords;

/// Whether a topology has this AS, if one is named.
fn has_named(topology: &Topology, named: Option<IsdAs>) -> bool
    ensures { result ≡ has_named topology.now named }
{
    match named {
        None => true,
        Some(ia) => topology.as_entry(ia).is_ok(),
    }
}

/// Whether both are named, and are one AS.
fn are_one(from: Option<IsdAs>, to: Option<IsdAs>) -> bool
    ensures { result ≡ are_one from to }
{
    match (from, to) {
        (Some(from), Some(to)) => from == to,
        _ => false,
    }
}

/// Why there is no report between these ASes, if there is none.
fn report_fault(topology: &Topology, from: Option<IsdAs>, to: Option<IsdAs>) -> Option<EventFault>
    ensures { result ≡ report_fault topology.now from to }
{
    let has_from = has_named(topology, from);
    let has_to = has_named(topology, to);
    if !(has_from && has_to) {
        return Some(EventFault::Topology(TopologyFault::UnknownAs));
    }
    if are_one(from, to) {
        return Some(EventFault::Combination(CombineFault::SameAs));
    }
    None
}

/// The fault of a run over lines that a fault of a report is.
fn run_fault(fault: ReportFault) -> RunFault
    ensures { result ≡ run_fault fault }
{
    match fault {
        ReportFault::Memory => RunFault::Memory,
        ReportFault::Write => RunFault::Write,
    }
}

/// Writes the report of a network.
fn write_wanted<K: Sink>(
    alloc: Global,
    net: &Net,
    words: &ReportWords,
    sink: &mut K,
) -> Result<(), RunFault>
    ensures written { let wanted = wanted_by words.now in
        Writes (IsReport net.now wanted) (BeginsReport net.now wanted) result
        (K.held sink.old) (K.held sink.new) }
    ensures flag { K.failed sink.new ≡ (K.failed sink.old || is_write_fault result) }
{
    let wanted = ReportOptions {
        from: words.from,
        to: words.to,
        policy: &words.policy,
        limit: words.limit,
        json: words.json,
    };
    path_report(alloc, net, &wanted, sink).map_err(run_fault)
}

/// Whether a report would say of each pair that it has no path, since the network stores no
/// segment; for JSON that is said all the same.
fn is_bare(net: &Net, words: &ReportWords) -> bool
    ensures { result ≡ is_bare (wanted_by words.now) net.now }
{
    !words.json && net.store().len() == 0
}

/// The line in place of a report of a network without segments.
fn bare_line() -> &'static str
    ensures { result.now ≡ bare_line }
{
    "no segment is stored: 'scionet_view beacons' prints the lines that make some\n"
}

/// Writes the line in place of a report of a network without segments.
fn write_bare<K: Sink>(sink: &mut K) -> Result<(), RunFault>
    ensures written { Writes (λ text. text ≡ bare_line) (Begins bare_line) result
        (K.held sink.old) (K.held sink.new) }
    ensures flag { K.failed sink.new ≡ (K.failed sink.old || is_write_fault result) }
{
    write_all(sink, bare_line().as_bytes()).map_err(|_| RunFault::Write)
}

/// Writes the report of a network, or the line in place of one that would say nothing.
fn write_paths<K: Sink>(
    alloc: Global,
    net: &Net,
    words: &ReportWords,
    sink: &mut K,
) -> Result<(), RunFault>
    ensures written { let wanted = wanted_by words.now in
        Writes (TellsPaths wanted net.now) (BeginsPaths wanted net.now) result
        (K.held sink.old) (K.held sink.new) }
    ensures flag { K.failed sink.new ≡ (K.failed sink.old || is_write_fault result) }
{
    if is_bare(net, words) {
        return write_bare(sink);
    }
    write_wanted(alloc, net, words, sink)
}

/// The remark on a report for JSON.
fn report_remark(net: &Net, words: &ReportWords) -> Option<Remark>
    ensures { result ≡ report_remark (wanted_by words.now) net.now }
{
    if words.json && net.store().len() == 0 {
        Some(Remark::NoSegment)
    } else {
        None
    }
}

/// The remark on a report that was written, or the reason for which there is none.
type Reported = Result<Option<Remark>, EventFault>;

/// Writes the report of a network, if there is one.
fn write_report<K: Sink>(
    alloc: Global,
    net: &Net,
    words: &ReportWords,
    sink: &mut K,
) -> Result<Reported, RunFault>
    ensures written { let wanted = wanted_by words.now in
        Reports (report_fault net.now.network wanted.from wanted.to) wanted net.now result
        (K.held sink.old) (K.held sink.new) }
    ensures flag { K.failed sink.new ≡ (K.failed sink.old || is_write_fault result) }
    ensures read { is_read_fault result ≡ false }
{
    match report_fault(net.topology(), words.from, words.to) {
        Some(fault) => Ok(Err(fault)),
        None => {
            write_paths(alloc, net, words, sink)?;
            Ok(Ok(report_remark(net, words)))
        }
    }
}

/// Writes the report of the network after the lines of a source, line by line, or, but for JSON, a
/// line that no segment is stored, if there is none; then the remark says so. There is no report if
/// an AS is named that the topology does not have, [`TopologyFault::UnknownAs`], or one is named
/// twice, [`CombineFault::SameAs`].
///
/// The faults are those of [`network_after`], before anything is written; and then
/// [`RunFault::Memory`], if memory runs out for the report, and [`RunFault::Write`].
pub(crate) fn network_report<S: Source, R: Sink, K: Sink>(
    alloc: Global,
    source: &mut S,
    replies: &mut R,
    words: &ReportWords,
    sink: &mut K,
) -> Result<Reported, RunFault>
    ensures shows { ShowsReport (wanted_by words.now) result
        (S.left source.old) (S.left source.new) (R.held replies.old) (R.held replies.new)
        (K.held sink.old) (K.held sink.new) }
    ensures flag { S.failed source.new ≡ (S.failed source.old || is_read_fault result) }
{
    let net = network_after(alloc, source, replies)?;
    write_report(alloc, &net, words, sink)
}
