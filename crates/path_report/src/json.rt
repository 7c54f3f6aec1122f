//! The lines of a report as JSON objects.
#![tactic(auto)]

ghost use Rattle.std.specs.Prelude.{◌≡◌, ◌++◌, codes, flat_map, OnOk};
ghost use Rattle.std.specs.String.{string_bytes};
ghost use Rattle.path_report.specs.Cut.{cut_json};
ghost use Rattle.path_report.specs.Json.{address_json, ases_json, best_json, bool_json, counted_json, end_json, is_known, items_json, known_json, link_json, links_json, needed_json, pair_json, rank_json};

use crate::best::BestPath;
use crate::pair::PairReport;
use crate::summary::RankedLink;
use isd_as::IsdAs;
use scion_topology::{End, Link};
use std::alloc::AllocError;
use std::fmt::Write;

/// Adds an address as a JSON text.
#[tactic(auto, unfolding(crate::specs::Json::address_json))]
fn add_address(text: &mut String, ia: IsdAs) -> Result<(), AllocError>
    ensures { OnOk result (string_bytes text.new ≡ string_bytes text.old ++ address_json ia) }
{
    write!(text, "\"{ia}\"")
}

/// Adds an end of a link, with the members that it has in a topology.
#[tactic(auto, unfolding(crate::specs::Json::end_json))]
fn add_end(text: &mut String, end: &End) -> Result<(), AllocError>
    ensures { OnOk result (string_bytes text.new ≡ string_bytes text.old ++ end_json end.now) }
{
    let (ia, number) = (end.ia, end.number);
    write!(text, "{{\"ia\":\"{ia}\",\"if\":{number}}}")
}

/// Adds a link by its ends.
#[tactic(auto, unfolding(crate::specs::Json::link_json))]
fn add_link(text: &mut String, link: &Link) -> Result<(), AllocError>
    ensures { OnOk result (string_bytes text.new ≡ string_bytes text.old ++ link_json link.now) }
{
    text.push_str("{\"a\":")?;
    add_end(text, &link.a)?;
    text.push_str(",\"b\":")?;
    add_end(text, &link.b)?;
    text.push_str("}")
}

/// Adds links, with a comma before each.
fn add_more_links(text: &mut String, links: &[Link]) -> Result<(), AllocError>
    ensures { OnOk result (string_bytes text.new
        ≡ string_bytes text.old ++ flat_map (λ link. codes "," ++ link_json link) links.now) }
{
    for link in links {
        text.push_str(",")?;
        add_link(text, link)?;
    }
    Ok(())
}

/// Adds the links of an array.
fn add_links(text: &mut String, links: &[Link]) -> Result<(), AllocError>
    ensures { OnOk result
        (string_bytes text.new ≡ string_bytes text.old ++ items_json link_json links.now) }
{
    match links {
        [] => Ok(()),
        [one, more @ ..] => {
            add_link(text, one)?;
            add_more_links(text, more)
        }
    }
}

/// Adds addresses, with a comma before each.
fn add_more_addresses(text: &mut String, ases: &[IsdAs]) -> Result<(), AllocError>
    ensures { OnOk result (string_bytes text.new
        ≡ string_bytes text.old ++ flat_map (λ ia. codes "," ++ address_json ia) ases.now) }
{
    for ia in ases {
        text.push_str(",")?;
        add_address(text, *ia)?;
    }
    Ok(())
}

/// Adds the addresses of an array.
fn add_addresses(text: &mut String, ases: &[IsdAs]) -> Result<(), AllocError>
    ensures { OnOk result
        (string_bytes text.new ≡ string_bytes text.old ++ items_json address_json ases.now) }
{
    match ases {
        [] => Ok(()),
        [one, more @ ..] => {
            add_address(text, *one)?;
            add_more_addresses(text, more)
        }
    }
}

/// A truth value.
#[tactic(auto, unfolding(crate::specs::Json::bool_json))]
fn bool_json(value: bool) -> &'static str
    ensures { result.now ≡ bool_json value }
{
    if value { "true" } else { "false" }
}

/// Adds what is said of the best path.
#[tactic(auto, unfolding(crate::specs::Json::best_json))]
fn add_best(text: &mut String, best: Option<BestPath>) -> Result<(), AllocError>
    ensures { OnOk result (string_bytes text.new ≡ string_bytes text.old ++ best_json best) }
{
    match best {
        Some(BestPath { hops, last }) => write!(text, ",\"hops\":{hops},\"until\":{last}"),
        None => text.push_str(",\"hops\":null,\"until\":null"),
    }
}

/// Whether it is known what the paths need.
fn is_known(report: &PairReport) -> bool
    ensures { result ≡ is_known report.now.is_full report.now.paths }
{
    report.paths != 0 && !report.is_full
}

/// Adds the links that the paths need.
#[tactic(auto, unfolding(crate::specs::Json::links_json))]
fn add_needed_links(text: &mut String, links: &[Link]) -> Result<(), AllocError>
    ensures { OnOk result
        (string_bytes text.new ≡ string_bytes text.old ++ links_json links.now) }
{
    text.push_str(",\"needs\":[")?;
    add_links(text, links)?;
    text.push_str("]")
}

/// Adds the ASes that the paths pass.
#[tactic(auto, unfolding(crate::specs::Json::ases_json))]
fn add_needed_ases(text: &mut String, ases: &[IsdAs]) -> Result<(), AllocError>
    ensures { OnOk result
        (string_bytes text.new ≡ string_bytes text.old ++ ases_json ases.now) }
{
    text.push_str(",\"through\":[")?;
    add_addresses(text, ases)?;
    text.push_str("]")
}

/// Adds how many links may be lost, and what the paths need.
#[tactic(auto, unfolding(crate::specs::Json::known_json))]
fn add_known(text: &mut String, report: &PairReport) -> Result<(), AllocError>
    ensures { OnOk result
        (string_bytes text.new ≡ string_bytes text.old ++ known_json report.now) }
{
    let survives = report.survives;
    write!(text, ",\"survives\":{survives}")?;
    add_needed_links(text, &report.needed)?;
    add_needed_ases(text, &report.through)
}

/// Adds how many links may be lost, and what the paths need, if it is known.
fn add_needed(text: &mut String, known: bool, report: &PairReport) -> Result<(), AllocError>
    ensures { OnOk result
        (string_bytes text.new ≡ string_bytes text.old ++ needed_json known report.now) }
{
    if known {
        add_known(text, report)
    } else {
        text.push_str(",\"survives\":null,\"needs\":null,\"through\":null")
    }
}

/// Adds the ASes of a pair, and the number of their paths.
#[tactic(auto, unfolding(crate::specs::Json::counted_json))]
fn add_pair(text: &mut String, report: &PairReport) -> Result<(), AllocError>
    ensures { OnOk result
        (string_bytes text.new ≡ string_bytes text.old ++ counted_json report.now) }
{
    let (paths, more) = (report.paths, bool_json(report.is_full));
    text.push_str("{\"from\":")?;
    add_address(text, report.pair.from)?;
    text.push_str(",\"to\":")?;
    add_address(text, report.pair.to)?;
    write!(text, ",\"paths\":{paths},\"more\":{more}")
}

/// Adds the line of a pair.
#[tactic(auto, unfolding(crate::specs::Json::pair_json))]
pub(crate) fn add_json_line(text: &mut String, report: &PairReport) -> Result<(), AllocError>
    ensures { OnOk result
        (string_bytes text.new ≡ string_bytes text.old ++ pair_json report.now) }
{
    add_pair(text, report)?;
    add_best(text, report.best)?;
    add_needed(text, is_known(report), report)?;
    text.push_str("}\n")
}

/// Adds the line of a link that some pairs need.
#[tactic(auto, unfolding(crate::specs::Json::rank_json))]
pub(crate) fn add_json_rank(text: &mut String, ranked: &RankedLink) -> Result<(), AllocError>
    ensures { OnOk result
        (string_bytes text.new ≡ string_bytes text.old ++ rank_json ranked.now) }
{
    let pairs = ranked.pairs;
    text.push_str("{\"link\":")?;
    add_link(text, &ranked.link)?;
    write!(text, ",\"pairs\":{pairs}}}\n")
}

/// Adds the line of a link that is cut.
#[tactic(auto, unfolding(crate::specs::Cut::cut_json))]
pub(crate) fn add_json_cut(text: &mut String, link: &Link) -> Result<(), AllocError>
    ensures { OnOk result (string_bytes text.new ≡ string_bytes text.old ++ cut_json link.now) }
{
    text.push_str("{\"cut\":")?;
    add_link(text, link)?;
    text.push_str("}\n")
}
