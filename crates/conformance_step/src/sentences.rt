use commands::{CommandFault, StepFault};
use std::alloc::Global;
use std::fmt::Display;
use std::test::Fail;
use step_line::TurnFault;
use streams::{InputFault, WriteFailed};

/// Whether this is the sentence of a fault.
fn is_sentence<F: Display>(alloc: Global, fault: &F, sentence: &str) -> Result<bool, Fail> {
    Ok(fault.to_string(alloc)?.as_str() == sentence)
}

/// The sentences of the faults of streams and of a turn.
#[test]
fn sentences(rt: HostRuntime) -> Result<(), Fail> {
    let alloc = rt.alloc();
    assert!(rt; is_sentence(alloc, &InputFault::Read, "read failed")?);
    assert!(rt; is_sentence(alloc, &InputFault::TooLong, "input too long")?);
    assert!(rt; is_sentence(alloc, &InputFault::Memory, "out of memory")?);
    assert!(rt; is_sentence(alloc, &WriteFailed, "write failed")?);
    assert!(rt; is_sentence(alloc, &TurnFault::PacketText, "bad packet text")?);
    assert!(rt; is_sentence(alloc, &TurnFault::Memory, "out of memory")?);
    assert!(rt; is_sentence(alloc, &StepFault::NoCommand, "usage")?);
    assert!(rt; is_sentence(alloc, &StepFault::PacketText, "bad packet text")?);
    assert!(rt; is_sentence(alloc, &StepFault::Memory, "out of memory")?);
    Ok(())
}

/// The sentences of the faults of a command.
#[test]
fn sentences_of_commands(rt: HostRuntime) -> Result<(), Fail> {
    let rows = [
        (CommandFault::NoCommand, "usage"),
        (CommandFault::PacketText, "bad packet text"),
        (CommandFault::Topology, "topology refused"),
        (CommandFault::Read, "read failed"),
        (CommandFault::Write, "write failed"),
        (CommandFault::InputTooLong, "input too long"),
        (CommandFault::Memory, "out of memory"),
    ];
    for (fault, sentence) in &rows {
        assert!(rt; is_sentence(rt.alloc(), fault, sentence)?);
    }
    Ok(())
}
