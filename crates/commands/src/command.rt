#![tactic(auto, unfolding(crate::specs::Words::command_or_run))]

ghost use Rattle.std.specs.Prelude.{◌≡◌, IfErr, IfOk, IfSome, map};
ghost use Rattle.clap.specs.Words.{subcommand_rows_of};
ghost use Rattle.commands.specs.Words.{IsCommandLine, IsInRange, command_or_run, command_in, turn_asked};
ghost use Rattle.commands.specs.Fault.{AnswersTurn, AsksFor, Explains, IsOwnStepFault, IsOwnWordsFault};

use crate::fault::WordsFault;
use crate::matched::{turn, work};
use crate::step_fault::StepFault;
use crate::words::program;
use clap::error::ErrorKind;
use clap::{ArgMatches, Error};
use std::alloc::{AllocError, Global};
use step_line::StepCommand;

/// The command of a command line.
#[derive(Drop)]
pub enum Command {
    /// `step`: one turn of a router on the packet on standard input.
    Step(StepCommand),
    /// `run`, or no words at all: a network whose lines come on standard input.
    Run,
    /// `work`: a network prepared by the lines on standard input, whose packets are carried by
    /// workers.
    Work {
        /// The number of workers.
        workers: u32,
        /// The number of places of each worker's inbox, 1 to 4,096.
        slots: u32,
    },
}

/// The fault of words that `clap` refuses with this error: [`WordsFault::Usage`] with its text, or
/// [`WordsFault::Memory`] if memory ran out, there or for the text.
pub fn explain_refusal(alloc: Global, error: &Error) -> WordsFault
    ensures { Explains result error.now }
{
    if error.kind() == ErrorKind::OutOfMemory {
        return WordsFault::Memory;
    }
    match error.to_string(alloc) {
        Ok(text) => WordsFault::Usage(text),
        Err(_) => WordsFault::Memory,
    }
}

/// The command that the matches name, if they name one.
fn read_command(alloc: Global, matches: &ArgMatches<'_>) -> Result<Option<Command>, AllocError>
    ensures value { IfOk result (λ o. o ≡ command_in (subcommand_rows_of matches.now)) }
    ensures range { IfOk result (λ o. IfSome o IsInRange) }
{
    let Some((name, given)) = matches.subcommand() else {
        return Ok(None);
    };
    match name {
        "run" => Ok(Some(Command::Run)),
        "work" => Ok(work(given)),
        _ => Ok(turn(alloc, given)?.map(Command::Step)),
    }
}

impl Command {
    /// The command of the words after the program's name; without any it is [`Command::Run`].
    ///
    /// [`WordsFault::Usage`] with the text of `clap`, if it refuses the words or they ask for help.
    /// [`WordsFault::NoCommand`] if the words name no command, those of `step` give no turn, or a
    /// number of `work` can't be read. [`WordsFault::Memory`] if memory runs out.
    pub fn parse<'a>(alloc: Global, words: &'a [&'a str]) -> Result<Command, WordsFault>
        ensures asks { AsksFor result (command_or_run (map (λ word. word.now) words.entry.now)) }
        ensures range { IfOk result IsInRange }
        // For words that `clap` accepts and that are no command, the fault is our own.
        ensures usage { IfErr result (λ fault.
            IsCommandLine (map (λ word. word.now) words.entry.now) → IsOwnWordsFault fault) }
    {
        if words.is_empty() {
            return Ok(Command::Run);
        }
        let matches = match program(alloc)?.try_get_matches_from(words) {
            Ok(matches) => matches,
            Err(error) => return Err(explain_refusal(alloc, &error)),
        };
        match read_command(alloc, &matches)? {
            Some(command) => Ok(command),
            None => Err(WordsFault::NoCommand),
        }
    }
}

/// The line, without its end, that `scionet step` prints for these words and this text on standard
/// input. The words are those after the program's name.
///
/// [`StepFault::Usage`] as in [`Command::parse`]; [`StepFault::NoCommand`] as there, and if the
/// words are another command; then [`StepFault::PacketText`] as in [`StepCommand::line`];
/// [`StepFault::Memory`] if memory runs out.
pub fn step_line<'a>(alloc: Global, words: &'a [&'a str], packet: &str) -> Result<String, StepFault>
    ensures answers { AnswersTurn result (turn_asked (command_or_run (map (λ word. word.now)
        words.entry.now))) packet.now }
    // For words that `clap` accepts and that are no turn, the fault is our own.
    ensures usage { IfErr result (λ fault.
        IsCommandLine (map (λ word. word.now) words.entry.now) → IsOwnStepFault fault) }
{
    match Command::parse(alloc, words)? {
        Command::Step(command) => Ok(command.line(alloc, packet.as_bytes())?),
        Command::Run | Command::Work { .. } => Err(StepFault::NoCommand),
    }
}
