//! The words of a turn that can't be read.

use clap::ArgMatches;
use commands::WordsFault;
use isd_as::IsdAs;
use std::alloc::{AllocError, Global};
use step_line::{bytes, number};

/// The options of a turn in the order in which they are read, each with what is wanted of it.
static WANTED: [(&str, &str); 6] = [
    ("ia", "the address of an AS, as 1-ff00:0:111"),
    ("router", "a number from 0 to 63"),
    ("key", "two hexadecimal digits for each of 1 to 64 bytes"),
    (
        "previous",
        "two hexadecimal digits for each of 1 to 64 bytes",
    ),
    ("now", "a second from 0 to 4294967295"),
    ("from", "'host', 'inside', or an interface from 1 to 65535"),
];

/// What is wanted of the interfaces of a turn.
static INTERFACES: &str = "scionet_view: wanted interfaces as IF,core|parent|child,ROUTER,up|down, \
each IF from 1 to 65535 and once, each ROUTER from 0 to 63\n";

/// Whether a text is a key.
fn is_key(alloc: Global, text: &str) -> Result<bool, AllocError> {
    match bytes(alloc, text.as_bytes())? {
        Some(key) => Ok(!key.is_empty() && key.len() <= 64),
        None => Ok(false),
    }
}

/// Whether a text is one that this option of a turn takes.
fn is_taken(alloc: Global, option: &str, text: &str) -> Result<bool, AllocError> {
    if option == "ia" {
        return Ok(IsdAs::parse(text).is_ok());
    }
    if option == "router" {
        return Ok(number(text, 0, 63).is_some());
    }
    if option == "now" {
        return Ok(number(text, 0, u64::from(u32::MAX)).is_some());
    }
    if option == "from" {
        let is_word = text == "host" || text == "inside";
        return Ok(is_word || number(text, 1, u64::from(u16::MAX)).is_some());
    }
    is_key(alloc, text)
}

/// The fault of a turn whose words are none: it tells of the first option that can't be read, or
/// else of the interfaces.
pub(crate) fn bad_turn(alloc: Global, matches: &ArgMatches<'_>) -> Result<WordsFault, AllocError> {
    for (option, wanted) in &WANTED {
        let Some(text) = matches.get_str(option) else {
            continue;
        };
        if !is_taken(alloc, option, text)? {
            let said = format!(in alloc;
                "scionet_view: --{option}: found \"{text}\", wanted {wanted}\n"
            )?;
            return Ok(WordsFault::Usage(said));
        }
    }
    Ok(WordsFault::Usage(String::from_str(alloc, INTERFACES)?))
}
