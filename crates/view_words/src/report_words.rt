//! The words of `report`.

use clap::builder::ValueParser;
use clap::{Arg, ArgAction, ArgMatches, Command};
use commands::WordsFault;
use isd_as::IsdAs;
use policy_expr::{AclText, Policy, PolicyText};
use refusal::{NumberedFault, OrMemory};
use std::alloc::{AllocError, Global};
use step_line::number;

/// The end of the long help of `report`.
static REPORT_HELP: &str = "\
Standard input has the lines of 'scionet run'. For each ordered pair of ASes of the network after \
the last of them there is a line, in the order of the topology's list:
  FROM TO paths N hops H until S survives K needs L LINK.. through A AS..
N paths lead from FROM to TO at the network's second, keep the policy, and cross no link that is \
down. The best of them has H hops and is live up to second S. Whichever K links of the network are \
lost, one of the paths is left; more than 3 links are not tried, so that '3+' is at least 3. Each \
of the paths crosses these L links, so that no packet arrives by any path while one of them is cut, \
and passes these A ASes, beside FROM and TO. \
A link is written by its two ends, as 'IA#IF~IA#IF'. Without a path the line ends after 'paths 0'. \
If there are as many paths as the limit, there may be more: N is then followed by '+', and the line \
ends with 'survives unknown needs unknown through unknown'.

Behind them stand 'link LINK pairs N', for at most 10 links: those that most pairs need; and \
'cut LINK' for each link that is cut. Where no segment is stored, one line says so, and nothing else \
is printed.

With --json each line is a JSON object. That of a pair has the members 'from', 'to', 'paths', 'more' \
(whether there may be more paths), 'hops', 'until', 'survives' (3 is at least 3), 'needs' and \
'through'; what is not known, or if there is no path, is null. Each link has its ends 'a' and 'b' \
with 'ia' and 'if'. The last objects have 'link' and 'pairs', or 'cut'. tools/compare_reports.py \
compares two such reports.

That the topology has no AS of a given address is a fault, 'no 14 UnknownAs', and so is one address \
that is given twice, 'no 85 SameAs'. The last entry of an access list has no predicate.

Example: the ASes that lose all their paths to 1-ff00:0:110 if the link at its interface 1 is cut
  scionet_view report --to 1-ff00:0:110 < LINES |
  awk '/^[0-9].* 1-ff00:0:110#1~/ { print $1 }'";

/// What a report is about, as the words say.
#[derive(Drop)]
pub struct ReportWords {
    /// The AS in which the paths begin, if it is named.
    pub from: Option<IsdAs>,
    /// The AS in which they end, if it is named.
    pub to: Option<IsdAs>,
    /// The policy that they keep.
    pub policy: Policy<Global>,
    /// The most paths between two ASes.
    pub limit: u16,
    /// Whether each line is a JSON object.
    pub json: bool,
}

/// An option with a text.
fn text_option<'a>(alloc: Global, name: &'a str, value: &'a str, help: &'a str) -> Arg<'a> {
    Arg::new(alloc, name)
        .long(name)
        .value_name(value)
        .allow_hyphen_values(true)
        .help(help)
}

/// The option with the largest number of paths.
fn limit_option<'a>(alloc: Global) -> Arg<'a> {
    Arg::new(alloc, "limit")
        .long("limit")
        .value_name("N")
        .value_parser(ValueParser::Signed(1, i64::from(u16::MAX)))
        .default_value("1024")
        .help("The most paths that are looked for between two ASes")
}

/// The option for lines that are JSON objects.
fn json_option<'a>(alloc: Global) -> Arg<'a> {
    Arg::new(alloc, "json")
        .long("json")
        .action(ArgAction::SetTrue)
        .help("Prints each line as a JSON object")
}

/// The command `report`.
pub(crate) fn report_command<'a>(alloc: Global) -> Result<Command<'a>, AllocError> {
    let help = "An entry of an access list that all hops pass, as '- 1-ff00:0:110' or '+'";
    let acl = text_option(alloc, "acl", "ENTRY", help).action(ArgAction::Append);
    let help = "A sequence that each path is a word of, as '1 0* 2'";
    let options = vec![in alloc;
        text_option(alloc, "from", "IA", "The AS in which the paths begin"),
        text_option(alloc, "to", "IA", "The AS in which the paths end"),
        acl,
        text_option(alloc, "sequence", "TEXT", help),
        limit_option(alloc),
        json_option(alloc),
    ]?;
    Command::new(alloc, "report")
        .about("Reports the paths of that network, and which links they need")
        .after_long_help(REPORT_HELP)
        .args(options)
}

/// The fault of words that have a text which is refused: its number, its name and its sentence.
fn bad_words<F: NumberedFault>(alloc: Global, fault: F) -> Result<WordsFault, AllocError> {
    let (code, name) = fault.code_and_name();
    let text = format!(in alloc; "scionet_view: no {code} {name}: {fault}\n")?;
    Ok(WordsFault::Usage(text))
}

/// The address in the option of this name, if it is given.
pub(crate) fn address_in(
    alloc: Global,
    matches: &ArgMatches<'_>,
    name: &str,
) -> Result<Option<IsdAs>, WordsFault> {
    let Some(text) = matches.get_str(name) else {
        return Ok(None);
    };
    match IsdAs::parse(text) {
        Ok(ia) => Ok(Some(ia)),
        Err(fault) => Err(bad_words(alloc, fault)?),
    }
}

/// The entries of the access list, if there are some.
fn acl_in(alloc: Global, matches: &ArgMatches<'_>) -> Result<Option<AclText>, AllocError> {
    let Some(entries) = matches.get_strs("acl") else {
        return Ok(None);
    };
    let mut acl = AclText::new(alloc);
    for entry in entries {
        acl.push(alloc, entry)?;
    }
    Ok(Some(acl))
}

/// The policy of the options.
fn policy_in(alloc: Global, matches: &ArgMatches<'_>) -> Result<Policy<Global>, WordsFault> {
    let acl = acl_in(alloc, matches)?;
    let text = PolicyText {
        acl: acl.as_ref(),
        sequence: matches.get_str("sequence"),
    };
    match Policy::parse(alloc, &text) {
        Ok(policy) => Ok(policy),
        Err(OrMemory::Memory) => Err(WordsFault::Memory),
        Err(OrMemory::Refused(fault)) => Err(bad_words(alloc, fault)?),
    }
}

/// The largest number of paths, if it can be read.
fn limit_in(matches: &ArgMatches<'_>) -> Option<u16> {
    let limit = number(matches.get_str("limit")?, 1, u64::from(u16::MAX))?;
    Some(limit as u16)
}

/// The report of the matches of `report`; `None` if its limit can't be read. The fault has the
/// first refusal: of an address, of the access list or of the sequence.
pub(crate) fn report_in(
    alloc: Global,
    matches: &ArgMatches<'_>,
) -> Result<Option<ReportWords>, WordsFault> {
    let Some(limit) = limit_in(matches) else {
        return Ok(None);
    };
    Ok(Some(ReportWords {
        from: address_in(alloc, matches, "from")?,
        to: address_in(alloc, matches, "to")?,
        policy: policy_in(alloc, matches)?,
        limit,
        json: matches.get_flag("json"),
    }))
}
