//! The line of a pair of ASes.
#![tactic(auto, unfolding(crate::specs::Line::ases_text, crate::specs::Line::best_text, crate::specs::Line::link_name, crate::specs::Line::links_text, crate::specs::Line::more_text, crate::specs::Line::needed_text, crate::specs::Line::pair_line,))]

ghost use Rattle.std.specs.Prelude.{◌≡◌, ◌++◌, codes, flat_map, OnOk};
ghost use Rattle.std.specs.String.{string_bytes};
ghost use Rattle.isd_as.specs.Address.{canonical};
ghost use Rattle.path_report.specs.Line.{ases_text, best_text, link_name, links_text, more_text, needed_text, pair_line, paths_text};

use crate::best::BestPath;
use crate::pair::PairReport;
use crate::survival::MAX_LOST;
use isd_as::IsdAs;
use scion_topology::Link;
use std::alloc::AllocError;
use std::fmt::Write;

/// What stands behind a number if there may be more.
fn more_text(is_full: bool) -> &'static str
    ensures { result.now ≡ more_text is_full }
{
    if is_full { "+" } else { "" }
}

/// Adds a link by its ends, as `ISD-AS#IF~ISD-AS#IF`.
pub(crate) fn add_link(text: &mut String, link: &Link) -> Result<(), AllocError>
    ensures { OnOk result (string_bytes text.new ≡ string_bytes text.old ++ link_name link.now) }
{
    let (a, b) = (link.a, link.b);
    write!(text, "{}#{}~{}#{}", a.ia, a.number, b.ia, b.number)
}

/// Adds what is said of the best path.
fn add_best(text: &mut String, best: Option<BestPath>) -> Result<(), AllocError>
    ensures { OnOk result (string_bytes text.new ≡ string_bytes text.old ++ best_text best) }
{
    match best {
        Some(BestPath { hops, last }) => write!(text, " hops {hops} until {last}"),
        None => text.push_str(" hops unknown until unknown"),
    }
}

/// Adds links, with a space before each.
fn add_links(text: &mut String, links: &[Link]) -> Result<(), AllocError>
    ensures { OnOk result (string_bytes text.new
        ≡ string_bytes text.old ++ flat_map (λ link. codes " " ++ link_name link) links.now) }
{
    for link in links {
        text.push_str(" ")?;
        add_link(text, link)?;
    }
    Ok(())
}

/// Adds ASes, with a space before each.
fn add_ases(text: &mut String, ases: &[IsdAs]) -> Result<(), AllocError>
    ensures { OnOk result (string_bytes text.new
        ≡ string_bytes text.old ++ flat_map (λ ia. codes " " ++ canonical ia) ases.now) }
{
    for ia in ases {
        write!(text, " {ia}")?;
    }
    Ok(())
}

/// Adds the links that the paths need, with their number.
fn add_needed_links(text: &mut String, links: &[Link]) -> Result<(), AllocError>
    ensures { OnOk result
        (string_bytes text.new ≡ string_bytes text.old ++ links_text links.now) }
{
    let count = links.len();
    write!(text, " needs {count}")?;
    add_links(text, links)
}

/// Adds the ASes that the paths pass, with their number.
fn add_needed_ases(text: &mut String, ases: &[IsdAs]) -> Result<(), AllocError>
    ensures { OnOk result
        (string_bytes text.new ≡ string_bytes text.old ++ ases_text ases.now) }
{
    let count = ases.len();
    write!(text, " through {count}")?;
    add_ases(text, ases)
}

/// Adds how many links may be lost, and the links and the ASes that the paths need.
fn add_needed(text: &mut String, report: &PairReport) -> Result<(), AllocError>
    ensures { OnOk result (string_bytes text.new
        ≡ string_bytes text.old ++ needed_text report.now.is_full report.now) }
{
    if report.is_full {
        return text.push_str(" survives unknown needs unknown through unknown");
    }
    let survives = report.survives;
    let more = more_text(survives == MAX_LOST);
    write!(text, " survives {survives}{more}")?;
    add_needed_links(text, &report.needed)?;
    add_needed_ases(text, &report.through)
}

/// Adds what is said of the paths, if there are some.
fn add_paths(text: &mut String, report: &PairReport) -> Result<(), AllocError>
    ensures { OnOk result (string_bytes text.new
        ≡ string_bytes text.old ++ paths_text report.now.paths report.now) }
{
    if report.paths == 0 {
        return Ok(());
    }
    add_best(text, report.best)?;
    add_needed(text, report)
}

/// Adds the line of a pair.
pub(crate) fn add_line(text: &mut String, report: &PairReport) -> Result<(), AllocError>
    ensures { OnOk result
        (string_bytes text.new ≡ string_bytes text.old ++ pair_line report.now) }
{
    let (from, to, paths) = (report.pair.from, report.pair.to, report.paths);
    let more = more_text(report.is_full);
    write!(text, "{from} {to} paths {paths}{more}")?;
    add_paths(text, report)?;
    text.push_str("\n")
}
