//! The links that most pairs of ASes need, and those that are cut.
#![tactic(auto, unfolding(crate::specs::Summary::rank_line))]

ghost use Rattle.std.specs.Prelude.{◌≡◌, ◌++◌, IfOk, IsPermutation, IsSorted, OnOk, flat_map};
ghost use Rattle.std.specs.String.{string_bytes};
ghost use Rattle.path_report.specs.Summary.{IsRanking, needs, pairs_needing, rank_cmp, rank_line, ranks_from};
ghost use Rattle.path_report.specs.Report.{rank_text};
ghost use Rattle.path_report.specs.inner.Named.{IsSummary, is_among, is_same};

use crate::cut::add_cut_links;
use crate::json::add_json_rank;
use crate::line::add_link;
use crate::pair::PairReport;
use crate::report::MAX_RANKED_LINKS;
use scion_topology::Link;
use std::alloc::{AllocError, Global};
use std::cmp::Ordering;
use std::fmt::Write;

/// Whether both links have the same first end.
fn is_same(one: &Link, other: &Link) -> bool
    ensures { result ≡ is_same one.now other.now }
{
    one.a.ia == other.a.ia && one.a.number == other.a.number
}

/// Whether the link is one of these.
fn is_among(links: &[Link], link: &Link) -> bool
    ensures { result ≡ is_among links.now link.now }
{
    links.iter().any(|one| is_same(one, link))
}

/// Whether a pair needs the link.
fn needs(report: &PairReport, link: &Link) -> bool
    ensures { result ≡ needs report.now link.now }
{
    is_among(&report.needed, link)
}

/// How many pairs need the link.
fn pairs_needing(reports: &[PairReport], link: &Link) -> usize
    ensures { result ≡ pairs_needing reports.now link.now }
{
    reports.iter().filter(|report| needs(report, link)).count()
}

/// A link that some pairs need.
#[derive(Clone, Copy)]
pub(crate) struct RankedLink {
    /// How many pairs need it.
    pub(crate) pairs: usize,
    /// Its place in the list of links.
    place: usize,
    pub(crate) link: Link,
}

impl RankedLink {
    /// The order of links: more pairs need the first, or as many do and it is listed first.
    fn compare(&self, other: &RankedLink) -> Ordering
        ensures { result ≡ rank_cmp self.now other.now }
    {
        other
            .pairs
            .cmp(&self.pairs)
            .then(self.place.cmp(&other.place))
    }
}

/// The links that some pairs need, in the order of the list.
fn ranks_of(
    alloc: Global,
    links: &[Link],
    reports: &[PairReport],
) -> Result<Vec<RankedLink>, AllocError>
    ensures { IfOk result (λ found. found.items ≡ ranks_from reports.now 0 links.now) }
{
    let mut found = Vec::new(alloc);
    for (place, link) in links.iter().enumerate() {
        let pairs = pairs_needing(reports, link);
        if pairs > 0 {
            let link = *link;
            found.push(RankedLink { pairs, place, link })?;
        }
    }
    Ok(found)
}

/// Puts the links in their order.
fn put_in_order(links: &mut Vec<RankedLink>)
    ensures sorted { IsSorted rank_cmp links.new.items }
    ensures same { IsPermutation links.old.items links.new.items }
{
    links.sort_unstable_by(|one, other| one.compare(other));
}

/// The links that some pairs need, in their order.
fn ranked_links(
    alloc: Global,
    links: &[Link],
    reports: &[PairReport],
) -> Result<Vec<RankedLink>, AllocError>
    ensures { IfOk result (λ ranked. IsRanking links.now reports.now ranked.items) }
{
    let mut found = ranks_of(alloc, links, reports)?;
    put_in_order(&mut found);
    Ok(found)
}

/// Adds the line of a link.
fn add_rank(text: &mut String, ranked: &RankedLink) -> Result<(), AllocError>
    ensures { OnOk result
        (string_bytes text.new ≡ string_bytes text.old ++ rank_line ranked.now) }
{
    let pairs = ranked.pairs;
    text.push_str("link ")?;
    add_link(text, &ranked.link)?;
    write!(text, " pairs {pairs}\n")
}

/// Adds the line of a link, in either form.
fn add_rank_text(text: &mut String, json: bool, ranked: &RankedLink) -> Result<(), AllocError>
    ensures { OnOk result
        (string_bytes text.new ≡ string_bytes text.old ++ rank_text json ranked.now) }
{
    if json {
        add_json_rank(text, ranked)
    } else {
        add_rank(text, ranked)
    }
}

/// The lines of links.
fn rank_lines(alloc: Global, json: bool, ranked: &[RankedLink]) -> Result<String, AllocError>
    ensures { IfOk result (λ text. string_bytes text ≡ flat_map (rank_text json) ranked.now) }
{
    let mut text = String::new(alloc);
    for one in ranked {
        add_rank_text(&mut text, json, one)?;
    }
    Ok(text)
}

/// The lines of the links that most pairs need, and of those that are cut.
pub(crate) fn summary_text(
    alloc: Global,
    json: bool,
    links: &[Link],
    reports: &[PairReport],
) -> Result<String, AllocError>
    ensures { IfOk result (λ text. IsSummary json links.now reports.now (string_bytes text)) }
{
    let mut ranked = ranked_links(alloc, links, reports)?;
    ranked.truncate(MAX_RANKED_LINKS);
    let mut text = rank_lines(alloc, json, &ranked)?;
    add_cut_links(&mut text, json, links)?;
    Ok(text)
}
