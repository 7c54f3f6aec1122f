//! The sentences of the faults of events, of requests, of work and of commands.

use beaconing::BeaconFault;
use combinator::CombineFault;
use commands::{CommandFault, WordsFault};
use event_lines::RunFault;
use network_core::EventFault;
use path_server::StoreFault;
use path_verifier::VerifyFault;
use policy_expr::{OptionFault, PolicyFault};
use scion_topology::TopologyFault;
use std::alloc::Global;
use std::fmt::Display;
use std::process::Abort;
use std::test::Fail;
use work_lines::WorkFault;

/// Asserts the sentence of each fault.
fn expect_sentences<F: Display>(
    rt: &impl Abort,
    alloc: Global,
    rows: &[(F, &str)],
) -> Result<(), Fail> {
    for (fault, sentence) in rows {
        assert_eq!(rt; fault.to_string(alloc)?.as_str(), *sentence);
    }
    Ok(())
}

/// Faults of events: those of the crates below, and the one of their own that no case can show,
/// since it takes a million packets. `cases/explain` has the others.
fn faults_of_events() -> [(EventFault, &'static str); 8] {
    let unread = OptionFault::Unread(PolicyFault::NoDefault);
    [
        (
            EventFault::Beacon(BeaconFault::LinkDown),
            "the link is down",
        ),
        (
            EventFault::Store(StoreFault::Full),
            "the store has 32 segments of this kind between these ASes",
        ),
        (
            EventFault::Policy(unread),
            "the last entry of a list has no predicate",
        ),
        (
            EventFault::Policy(OptionFault::OptionCount),
            "a request has 1 to 16 policy options",
        ),
        (
            EventFault::Combination(CombineFault::SameAs),
            "the source and the destination are one AS",
        ),
        (
            EventFault::Path(VerifyFault::Expired),
            "a hop of the path has expired",
        ),
        (
            EventFault::Topology(TopologyFault::NoLink),
            "an AS has no interface of this number",
        ),
        (EventFault::TooMany, "there are a million already"),
    ]
}

#[test]
fn sentences_of_events(rt: HostRuntime) -> Result<(), Fail> {
    expect_sentences(&rt, rt.alloc(), &faults_of_events())
}

#[test]
fn sentences_of_requests_and_of_work(rt: HostRuntime) -> Result<(), Fail> {
    let requests = [(
        CombineFault::SameAs,
        "the source and the destination are one AS",
    )];
    let work = [
        (WorkFault::Lines(RunFault::Read), "read failed"),
        (WorkFault::Workers, "workers refused"),
        (WorkFault::Memory, "out of memory"),
        (WorkFault::Write, "write failed"),
    ];
    expect_sentences(&rt, rt.alloc(), &requests)?;
    expect_sentences(&rt, rt.alloc(), &work)
}

#[test]
fn sentences_of_words_and_of_commands(rt: HostRuntime) -> Result<(), Fail> {
    let alloc = rt.alloc();
    let words = [
        (WordsFault::Usage("a text".to_string(alloc)?), "a text"),
        (WordsFault::NoCommand, "usage"),
        (WordsFault::Memory, "out of memory"),
    ];
    let commands = [
        (CommandFault::Usage("a text".to_string(alloc)?), "a text"),
        (CommandFault::Workers, "workers refused"),
    ];
    expect_sentences(&rt, alloc, &words)?;
    expect_sentences(&rt, alloc, &commands)
}
