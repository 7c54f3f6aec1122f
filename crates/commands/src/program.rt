//! A run of the program over any source and sinks.

ghost use Rattle.std.specs.Prelude.{◌≡◌, ◌<◌, ◌≤◌, IfErr, map};
ghost use Rattle.commands.specs.Words.{IsCommandLine, command_or_run};
ghost use Rattle.commands.specs.Fault.{IsOwnFault, status_of, usage_text};
ghost use Rattle.commands.specs.Run.{AnswersSource, CarriesPackets, DoesCommand, EndsWith, Steps, Tells, TellsOf, change_of};
ghost use Rattle.commands.specs.declared.status.Status.TheVariants.{Done, Refused};

use crate::command::Command;
use crate::fault::CommandFault;
use crate::status::Status;
use event_lines::run_lines;
use std::alloc::Global;
use std::sync::Wait;
use std::thread::Threads;
use step_line::StepCommand;
use streams::{MAX_INPUT_LEN, Sink, Source, read_all, write_all};
use work_lines::work_lines;

/// One turn of a router on the packet of the source; it prints one line.
fn run_step<S: Source, K: Sink>(
    alloc: Global,
    command: &StepCommand,
    source: &mut S,
    sink: &mut K,
) -> Result<(), CommandFault>
    ensures { Steps result command.now (change_of S.left S.failed source.old source.new)
        (change_of K.held K.failed sink.old sink.new) }
{
    let packet = read_all(alloc, source, MAX_INPUT_LEN as u64)?;
    let mut line = command.line(alloc, &packet)?;
    line.push_str("\n")?;
    write_all(sink, line.as_bytes())?;
    Ok(())
}

/// The network of the source's lines; it answers each line with a line.
fn run_network<S: Source, K: Sink>(
    alloc: Global,
    source: &mut S,
    sink: &mut K,
) -> Result<(), CommandFault>
    ensures { AnswersSource result (change_of S.left S.failed source.old source.new)
        (change_of K.held K.failed sink.old sink.new) }
{
    run_lines(alloc, source, sink)?;
    Ok(())
}

/// The network that the source's lines prepare; `workers` workers carry its packets, with inboxes
/// of `slots` places.
fn run_workers<R: Threads + Wait + Sync, S: Source, K: Sink>(
    rt: &R,
    alloc: Global,
    workers: u32,
    slots: u32,
    source: &mut S,
    sink: &mut K,
) -> Result<(), CommandFault>
    requires some { 0 < slots }
    requires few { slots ≤ 4096 }
    ensures { CarriesPackets result workers slots
        (change_of S.left S.failed source.old source.new)
        (change_of K.held K.failed sink.old sink.new) }
{
    work_lines(rt, alloc, source, sink, workers as usize, slots as usize)?;
    Ok(())
}

/// Carries out the command of the words after the program's name: it reads the source to its end,
/// and writes the lines of the result to the sink.
///
/// The words are checked before anything is read. [`CommandFault::Usage`] and
/// [`CommandFault::NoCommand`] as in [`Command::parse`]; [`CommandFault::Read`] if and only if the
/// source failed, and [`CommandFault::Write`] if and only if the sink failed;
/// [`CommandFault::InputTooLong`] if byte 67,108,865 is read; [`CommandFault::PacketText`] as in
/// [`StepCommand::line`]; [`CommandFault::Topology`] as in [`run_lines`], after its reply;
/// [`CommandFault::Workers`] as in [`work_lines`], after all replies; [`CommandFault::Memory`] if
/// memory runs out.
pub fn execute<'a, R: Threads + Wait + Sync, S: Source, K: Sink>(
    rt: &R,
    alloc: Global,
    words: &'a [&'a str],
    source: &mut S,
    sink: &mut K,
) -> Result<(), CommandFault>
    ensures does { DoesCommand result (command_or_run (map (λ word. word.now) words.entry.now))
        (change_of S.left S.failed source.old source.new)
        (change_of K.held K.failed sink.old sink.new) }
    ensures silent { IfErr result (λ fault. status_of fault ≡ Refused
        → (source.new ≡ source.old) × (sink.new ≡ sink.old)) }
    // For words that `clap` accepts and that are no command, the fault is our own.
    ensures usage { IfErr result (λ fault.
        IsCommandLine (map (λ word. word.now) words.entry.now) → IsOwnFault fault) }
{
    match Command::parse(alloc, words)? {
        Command::Step(command) => run_step(alloc, &command, source, sink),
        Command::Run => run_network(alloc, source, sink),
        Command::Work { workers, slots } => { run_workers(rt, alloc, workers, slots, source, sink) }
    }
}

/// Ends a run with this fault: writes the message about it to `errors`, as far as that succeeds.
pub fn end<E: Sink>(fault: &CommandFault, errors: &mut E) -> Status
    ensures status { result ≡ status_of fault.now }
    ensures tells { TellsOf fault.now (change_of E.held E.failed errors.old errors.new) }
{
    let _ = write_all(errors, fault.message().as_bytes());
    fault.status()
}

/// Runs `scionet` with the words after the program's name: carries out their command, and reports a
/// fault on `errors`.
///
/// [`Status::Refused`] if the words are refused or ask for help; [`Status::Failed`] after any
/// other fault.
pub fn run<'a, R: Threads + Wait + Sync, S: Source, K: Sink, E: Sink>(
    rt: &R,
    alloc: Global,
    words: &'a [&'a str],
    source: &mut S,
    sink: &mut K,
    errors: &mut E,
) -> Status
    ensures ends { EndsWith result (command_or_run (map (λ word. word.now) words.entry.now))
        (change_of S.left S.failed source.old source.new)
        (change_of K.held K.failed sink.old sink.new)
        (change_of E.held E.failed errors.old errors.new) }
    ensures quiet { result ≡ Done → errors.new ≡ errors.old }
    ensures silent { result ≡ Refused → (source.new ≡ source.old) × (sink.new ≡ sink.old) }
    // The message about words that `clap` accepts and that are no command is our own.
    ensures usage { result ≡ Refused → IsCommandLine (map (λ word. word.now) words.entry.now)
        → Tells usage_text (change_of E.held E.failed errors.old errors.new) }
{
    match execute(rt, alloc, words, source, sink) {
        Ok(()) => Status::Done,
        Err(fault) => end(&fault, errors),
    }
}
