//! The words that say which part of a network a picture shows.

use crate::report_words::address_in;
use clap::builder::ValueParser;
use clap::{Arg, ArgAction, ArgGroup, ArgMatches};
use commands::WordsFault;
use isd_as::Isd;
use network_view::{Centre, Extent};
use std::alloc::{AllocError, Global};
use step_line::number;

/// The options of `network` with the part that its picture shows. A number of links wants a part.
pub(crate) fn extent_options<'a>(alloc: Global) -> Result<Vec<Arg<'a>>, AllocError> {
    let isd = Arg::new(alloc, "isd")
        .long("isd")
        .value_name("ISD")
        .value_parser(ValueParser::Signed(1, i64::from(u16::MAX)))
        .help("Shows this ISD, and in gray the ASes beside it");
    let around = Arg::new(alloc, "around")
        .long("around")
        .value_name("IA")
        .help("Shows this AS and what is near it, and in gray the ASes beside that");
    let core = Arg::new(alloc, "core")
        .long("core")
        .action(ArgAction::SetTrue)
        .help("Shows the core ASes, and in gray the ASes beside them");
    let hops = Arg::new(alloc, "hops")
        .long("hops")
        .value_name("N")
        .value_parser(ValueParser::Signed(0, i64::from(u8::MAX)))
        .help("Shows also what is at most N links from there: 1 with --around, otherwise 0")
        .requires_arg("centre")?;
    Ok(vec![in alloc; isd, around, core, hops]?)
}

/// The rule that at most one part is named.
pub(crate) fn centre_group<'a>(alloc: Global) -> Result<ArgGroup<'a>, AllocError> {
    ArgGroup::new(alloc, "centre")
        .arg("isd")?
        .arg("around")?
        .arg("core")
}

/// The ISD that is named, if one is.
fn isd_in(matches: &ArgMatches<'_>) -> Option<Isd> {
    let isd = number(matches.get_str("isd")?, 1, u64::from(u16::MAX))?;
    Some(Isd(isd as u16))
}

/// The number of links that is named, if one is.
fn hops_in(matches: &ArgMatches<'_>) -> Option<u8> {
    let hops = number(matches.get_str("hops")?, 0, u64::from(u8::MAX))?;
    Some(hops as u8)
}

/// The part that the matches of `network` ask for: the whole network if they name none.
pub(crate) fn extent_in(alloc: Global, matches: &ArgMatches<'_>) -> Result<Extent, WordsFault> {
    let hops = hops_in(matches);
    if let Some(ia) = address_in(alloc, matches, "around")? {
        return Ok(Extent {
            centre: Centre::As(ia),
            hops: hops.unwrap_or(1),
        });
    }
    let centre = match isd_in(matches) {
        Some(isd) => Centre::Isd(isd),
        None if matches.get_flag("core") => Centre::Core,
        None => Centre::Whole,
    };
    Ok(Extent {
        centre,
        hops: hops.unwrap_or(0),
    })
}
