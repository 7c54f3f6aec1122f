//! A run of lines over streams, and of the flights that they prepare.

ghost use Rattle.std.specs.Prelude.{◌≡◌, ◌<◌, ◌≤◌, ◌||◌, IsTrue, IfOk, IfErr};
ghost use Rattle.std.specs.String.{string_bytes};
ghost use Rattle.network_core.specs.Delivery.{AllMayDepart};
ghost use Rattle.work_lines.specs.Report.{Reports};
ghost use Rattle.router_workers.specs.Run.{is_number_of_workers};
ghost use Rattle.work_lines.specs.Work.{Works, is_work_read_fault, is_work_write_fault};
ghost use Rattle.work_lines.specs.inner.Work.{Stops, WritesReport, is_unwritten};

use crate::fault::WorkFault;
use crate::flights::flights_of;
use crate::report::report;
use event_lines::{AcceptedLines, listen};
use network_core::Net;
use router_workers::{OpenGate, is_number_of_workers, run_workers};
use std::alloc::Global;
use std::sync::Wait;
use std::thread::Threads;
use streams::{Sink, Source, write_all};

/// The report about the flights of a network's packets, after `workers` workers have carried them.
///
/// The number of workers is judged before a flight is made.
fn carry<R: Threads + Wait + Sync>(
    rt: &R,
    alloc: Global,
    net: &Net,
    workers: usize,
    slots: usize,
) -> Result<String, WorkFault>
    requires packets { AllMayDepart net.now }
    requires some { 0 < slots }
    requires few { slots ≤ 4096 }
    ensures report { IfOk result (λ text. Reports net.now slots (string_bytes text)) }
    ensures workers { IfOk result (λ _. IsTrue (is_number_of_workers workers)) }
    ensures fault { IfErr result (Stops workers) }
{
    if !is_number_of_workers(workers) {
        return Err(WorkFault::Workers);
    }
    let flights = flights_of(alloc, net)?;
    let carried = run_workers(
        rt,
        alloc,
        net.topology(),
        net.now(),
        workers,
        slots,
        &flights,
        &OpenGate,
    )?;
    Ok(report(alloc, carried.ends())?)
}

/// Writes a report.
fn write_report<K: Sink>(text: &str, sink: &mut K) -> Result<(), WorkFault>
    ensures written { WritesReport result text.now (K.held sink.old) (K.held sink.new) }
    ensures flag { K.failed sink.new ≡ (K.failed sink.old || is_unwritten result) }
{
    if write_all(sink, text.as_bytes()).is_err() {
        return Err(WorkFault::Write);
    }
    if sink.flush().is_err() {
        return Err(WorkFault::Write);
    }
    Ok(())
}

/// Answers the lines of a source that prepare a network, as [`listen`] does. Then, as
/// [`run_workers`] does, it carries each packet that was sent through the network after these
/// lines, at its current second, on `workers` workers with inboxes of `slots` places. Then it
/// writes how the flight of each packet ended, in their order: `flight N delivered TURNS`, `flight
/// N refused CODE Name`, or `flight N dropped`.
///
/// [`WorkFault::Lines`] if the lines were not answered to their end; no packet is carried then.
/// [`WorkFault::Workers`] if there are not 1 to 8 workers, also if there is no packet; else
/// [`WorkFault::Memory`] if memory runs out for a flight, the run or the report; else
/// [`WorkFault::Write`] if the sink failed at the report. These three come after all replies were
/// written.
///
/// It takes the time and memory of [`listen`], and also of a copy of each packet, its turns, and
/// its line.
pub fn work_lines<R: Threads + Wait + Sync, S: Source, K: Sink>(
    rt: &R,
    alloc: Global,
    source: &mut S,
    sink: &mut K,
    workers: usize,
    slots: usize,
) -> Result<(), WorkFault>
    requires some { 0 < slots }
    requires few { slots ≤ 4096 }
    ensures works { Works result workers slots (S.left source.old) (S.left source.new)
        (K.held sink.old) (K.held sink.new) }
    ensures source { S.failed source.new ≡ (S.failed source.old || is_work_read_fault result) }
    ensures sink { K.failed sink.new ≡ (K.failed sink.old || is_work_write_fault result) }
{
    let net = listen(alloc, AcceptedLines::Preparing, source, sink)?;
    let text = carry(rt, alloc, &net, workers, slots)?;
    write_report(text.as_str(), sink)
}
