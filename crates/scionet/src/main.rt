//! `scionet`: passes the process's words and streams to the commands.
//!
//! The exit status is 0 if the command was carried out, 2 if the words are refused or ask for help,
//! and 1 after any other fault. The message about a fault goes to standard error.
#![tactic(auto)]

ghost use Rattle.commands.specs.Run.{change_of};
ghost use Rattle.scionet.specs.Ran.{RanOn};

use commands::{CommandFault, Status, end, run, words_behind};
use std::process::ExitCode;
use std::sync::Wait;
use std::thread::Threads;
use streams::{Reader, Sink, Source, Writer};

/// Runs the program's command with the words of the process and these streams; `T` lets it start
/// threads and wait for them. No clause can name the words of a process, so this one says that
/// there are some.
fn run_command<T: Threads + Wait + Sync, S: Source, K: Sink, E: Sink>(
    rt: &HostRuntime,
    threads: &T,
    source: &mut S,
    sink: &mut K,
    errors: &mut E,
) -> Status
    ensures { RanOn result (change_of S.left S.failed source.old source.new)
        (change_of K.held K.failed sink.old sink.new)
        (change_of E.held E.failed errors.old errors.new) }
{
    let alloc = rt.alloc();
    let given = match words_behind(rt) {
        Ok(given) => given,
        Err(fault) => return end(&CommandFault::from(fault), errors),
    };
    let words: Vec<&str> = match given.iter().map(|word| word.as_str()).collect(alloc) {
        Ok(words) => words,
        Err(_) => return end(&CommandFault::Memory, errors),
    };
    run(threads, alloc, &words, source, sink, errors)
}

fn main(rt: HostRuntime) -> ExitCode {
    let status = run_command(
        &rt,
        &rt,
        &mut Reader::new(rt.stdin()),
        &mut Writer::new(rt.stdout()),
        &mut Writer::new(rt.stderr()),
    );
    ExitCode::from(status.code())
}
