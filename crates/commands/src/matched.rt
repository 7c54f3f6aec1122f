//! Commands from the matches of a command line.

ghost use Rattle.std.specs.Prelude.{◌≡◌, IfOk, IfSome, codes, map, option_map};
ghost use Rattle.clap.specs.Words.{all_of, first_of, found_of, rows_of};
ghost use Rattle.commands.specs.Words.{IsInRange, turn_in_rows, work_in};

use crate::command::Command;
use clap::ArgMatches;
use std::alloc::{AllocError, Global};
use step_line::{StepArgs, StepCommand, number};

/// The first text that was given for this option.
#[tactic(auto, using(crate::proofs::Matches::first_of_rows))]
fn text_of<'a>(matches: &ArgMatches<'a>, id: &str) -> Option<&'a str>
    ensures { option_map (λ t. t.now) result ≡ first_of id.now (rows_of (found_of matches.now)) }
{
    matches.get_str(id)
}

/// The texts of the interfaces, if any were given.
#[tactic(auto, using(crate::proofs::Matches::all_of_rows))]
fn interfaces_of<'m, 'a>(matches: &'m ArgMatches<'a>) -> Option<&'m [&'a str]>
    ensures { option_map (λ s. map (λ t. t.now) s.now) result
        ≡ all_of (codes "interface") (rows_of (found_of matches.entry.now)) }
{
    matches.get_strs("interface")
}

/// The numbers of workers and of places in an inbox, from the matches of `work`.
pub(crate) fn work(matches: &ArgMatches<'_>) -> Option<Command>
    ensures value { result ≡ work_in (rows_of (found_of matches.now)) }
    ensures range { IfSome result IsInRange }
{
    let workers = text_of(matches, "workers")?;
    let slots = text_of(matches, "slots")?;
    let workers = number(workers, 0, u64::from(u32::MAX))? as u32;
    let slots = number(slots, 1, 4_096)? as u32;
    Some(Command::Work { workers, slots })
}

/// The turn that the matches of `step`, or of another command with the same options, describe;
/// `None` if they describe none.
///
/// [`AllocError`] if memory runs out.
pub fn turn(alloc: Global, matches: &ArgMatches<'_>) -> Result<Option<StepCommand>, AllocError>
    ensures { IfOk result (λ o. o ≡ turn_in_rows (rows_of (found_of matches.now))) }
{
    let Some(ia) = text_of(matches, "ia") else {
        return Ok(None);
    };
    let Some(router) = text_of(matches, "router") else {
        return Ok(None);
    };
    let Some(key) = text_of(matches, "key") else {
        return Ok(None);
    };
    let previous = text_of(matches, "previous");
    let Some(now) = text_of(matches, "now") else {
        return Ok(None);
    };
    let Some(from) = text_of(matches, "from") else {
        return Ok(None);
    };
    let Some(interfaces) = interfaces_of(matches) else {
        let texts = StepArgs {
            ia,
            router,
            key,
            previous,
            now,
            from,
            interfaces: &[],
        };
        return StepCommand::from_texts(alloc, texts);
    };
    let texts = StepArgs {
        ia,
        router,
        key,
        previous,
        now,
        from,
        interfaces,
    };
    StepCommand::from_texts(alloc, texts)
}
