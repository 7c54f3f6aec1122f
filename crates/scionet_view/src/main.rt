//! `scionet_view`: passes the process's words and streams to the views.
//!
//! The status is 0 if something was shown, also if nobody reads it to its end, and 3 if that is an
//! explanation that found something; 2 if the words are refused or ask for help; and 1 after any
//! other fault, whose message goes to standard error. There it is also told which lines of a run
//! were refused.
#![tactic(auto)]

mod named;
mod output;
mod replies;

use crate::named::Named;
use crate::output::Output;
use crate::replies::Replies;
use commands::{CommandFault, Status, words_behind};
use network_core::EventFault;
use refusal::NumberedFault;
use std::process::ExitCode;
use streams::{Reader, Writer};
use view_words::{View, read_view};
use views::{Remark, ViewFault, show};

/// The status if an explanation found something.
const FOUND: u8 = 3;

/// The view that the words of the process ask for.
fn asked(rt: &HostRuntime) -> Result<View, CommandFault> {
    let alloc = rt.alloc();
    let given = words_behind(rt)?;
    let words: Vec<&str> = given.iter().map(|word| word.as_str()).collect(alloc)?;
    Ok(read_view(alloc, &words)?)
}

/// Tells of a fault of a command, as far as that succeeds, and returns the status.
fn tell_command(rt: &HostRuntime, fault: &CommandFault, refusal: &str) -> Status {
    let _ = match fault {
        CommandFault::Usage(text) => eprint!(rt; "{text}"),
        CommandFault::Topology if !refusal.is_empty() => eprintln!(rt;
            "scionet_view: {fault}: {refusal}: 'scionet_view explain' shows the place in its line"
        ),
        _ => eprintln!(rt; "scionet_view: {fault}"),
    };
    fault.status()
}

/// Tells why what a view names is refused, and returns the status.
fn tell_refused(rt: &HostRuntime, view: &View, fault: EventFault) -> Status {
    let named = Named { view, fault };
    let (code, name) = fault.code_and_name();
    let _ = eprintln!(rt; "scionet_view: {named}no {code} {name}: {fault}");
    Status::Failed
}

/// Tells of a fault, and returns the status.
fn tell_fault(rt: &HostRuntime, view: &View, fault: &ViewFault, replies: &Replies) -> Status {
    match fault {
        ViewFault::Command(fault) => tell_command(rt, fault, replies.topology_refusal()),
        ViewFault::Refused(fault) => tell_refused(rt, view, *fault),
    }
}

/// Tells what else there is to say of what was shown, if there is something, and returns the
/// status.
fn tell_remark(rt: &HostRuntime, remark: Option<Remark>) -> u8 {
    match remark {
        None => Status::Done.code(),
        // Its lines say what was found.
        Some(Remark::Found) => FOUND,
        Some(remark) => {
            let _ = eprintln!(rt; "scionet_view: {}", remark.text());
            Status::Done.code()
        }
    }
}

/// Tells how a view ended, if there is something to tell, and returns the status.
fn tell_end(
    rt: &HostRuntime,
    view: &View,
    shown: &Result<Option<Remark>, ViewFault>,
    replies: &Replies,
) -> u8 {
    match shown {
        Ok(remark) => tell_remark(rt, *remark),
        Err(fault) => tell_fault(rt, view, fault, replies).code(),
    }
}

/// Tells which lines of the run were refused, if some were.
fn tell_lines(rt: &HostRuntime, replies: &Replies) {
    let (count, first) = (replies.refused(), replies.first_refused());
    let _ = match count {
        0 => Ok(()),
        1 => eprintln!(rt;
            "scionet_view: line {first} was refused: 'scionet_view explain' says why"
        ),
        _ => eprintln!(rt;
            "scionet_view: {count} lines were refused, first line {first}: \
             'scionet_view explain' says why"
        ),
    };
}

/// Shows the view of standard input on standard output, tells on standard error what else there is
/// to tell, and returns the status.
fn run(rt: &HostRuntime, view: &View) -> u8 {
    let mut replies = Replies::new();
    let mut output = Output::new(Writer::new(rt.stdout()));
    let shown = show(
        rt.alloc(),
        view,
        &mut Reader::new(rt.stdin()),
        &mut replies,
        &mut output,
    );
    let status = if output.is_closed() {
        Status::Done.code()
    } else {
        tell_end(rt, view, &shown, &replies)
    };
    tell_lines(rt, &replies);
    status
}

fn main(rt: HostRuntime) -> ExitCode {
    let status = match asked(&rt) {
        Ok(view) => run(&rt, &view),
        Err(fault) => tell_command(&rt, &fault, "").code(),
    };
    ExitCode::from(status)
}
