//! What is said of the paths between two ASes.

ghost use Rattle.std.specs.Prelude.{◌≡◌, ◌<◌, ◌≤◌, [], IfOk};
ghost use Rattle.combinator.specs.Combiner.{asked_of};
ghost use Rattle.path_report.specs.Pair.{IsPairReport, TellsBest};

use crate::best::{BestPath, first_open};
use crate::needed::{needed_ases, needed_links};
use crate::open_walk::open_walks;
use crate::report::ReportOptions;
use crate::survival::losses_survived;
use combinator::Combiner;
use isd_as::IsdAs;
use network_core::Net;
use scion_topology::Link;
use std::alloc::{AllocError, Global};
use std::marker::Model;

/// An ordered pair of ASes.
#[derive(Clone, Copy)]
pub(crate) struct AsPair {
    /// The AS in which paths begin.
    pub(crate) from: IsdAs,
    /// The AS in which they end.
    pub(crate) to: IsdAs,
}

/// What is said of the paths of a pair of ASes.
#[derive(Drop)]
pub(crate) struct PairReport {
    pub(crate) pair: AsPair,
    /// Whether as many walks were found as were looked for, so that there may be more.
    pub(crate) is_full: bool,
    /// The number of walks whose links are all up.
    pub(crate) paths: usize,
    /// The best path whose links are all up.
    pub(crate) best: Option<BestPath>,
    /// The most links, up to 3, whose loss always leaves an open walk; 0 if there is none, or if
    /// there may be more walks.
    pub(crate) survives: usize,
    /// The links that all open walks cross; none if there is no such walk, or if there may be more
    /// walks.
    pub(crate) needed: Vec<Link>,
    /// The ASes between the two that all open walks pass; none if there is no such walk, or if
    /// there may be more walks.
    pub(crate) through: Vec<IsdAs>,
}

impl Model for PairReport {
    ghost use Rattle.path_report.specs.Pair.{PairValue};

    ghost Value = { PairValue };

    ghost view = { λ r. record {
      pair = r.pair;
      is_full = r.is_full;
      paths = r.paths;
      best = r.best;
      survives = r.survives;
      needed = r.needed.items;
      through = r.through.items;
    } };
}

/// What is said of the best path of a pair whose links are all up: of the first of them in the
/// answer to a request for `some` paths, or for twice as many, and so on up to the limit. An answer
/// with fewer paths is the last.
///
/// It takes at most twice the time of the last request.
fn best_between(
    alloc: Global,
    net: &Net,
    wanted: &ReportOptions<'_>,
    combiner: &Combiner<'_>,
    some: usize,
) -> Result<Option<BestPath>, AllocError>
    requires some { 0 < some }
    requires few { some ≤ wanted.now.limit }
    ensures { IfOk result (TellsBest net.now.network.links
        (asked_of combiner.now wanted.entry.now.rules) wanted.entry.now.limit) }
{
    let limit = usize::from(wanted.limit);
    let paths = combiner.paths(alloc, wanted.policy, some)?;
    let best = first_open(alloc, net.topology(), &paths)?;
    if best.is_some() || paths.len() < some || some == limit {
        return Ok(best);
    }
    best_between(alloc, net, wanted, combiner, limit.min(2 * some))
}

/// What is said of a pair with so many open walks, where no links and no ASes are named.
fn without_links(
    alloc: Global,
    pair: AsPair,
    is_full: bool,
    paths: usize,
    best: Option<BestPath>,
) -> PairReport
    ensures { result ≡ record {
      pair = pair;
      is_full = is_full;
      paths = paths;
      best = best;
      survives = 0;
      needed = [];
      through = [];
    } }
{
    PairReport {
        pair,
        is_full,
        paths,
        best,
        survives: 0,
        needed: Vec::new(alloc),
        through: Vec::new(alloc),
    }
}

/// What is said of the paths of a pair of ASes in a network, at its second.
pub(crate) fn pair_report(
    alloc: Global,
    net: &Net,
    wanted: &ReportOptions<'_>,
    pair: AsPair,
) -> Result<PairReport, AllocError>
    ensures report { IfOk result
        (IsPairReport net.now wanted.entry.now.rules wanted.entry.now.limit) }
    ensures pair { IfOk result (λ report. report.pair ≡ pair) }
{
    let (topology, limit) = (net.topology(), usize::from(wanted.limit));
    topology.known();
    let set = net
        .store()
        .segments_for(alloc, pair.from, pair.to, net.now())?;
    let combiner = Combiner::of(alloc, &set, pair.from, pair.to)?;
    let walks = combiner.walks(alloc, wanted.policy, limit)?;
    let open = open_walks(alloc, topology, &walks)?;
    let is_full = walks.len() == limit;
    let paths = open.len();
    if paths == 0 {
        return Ok(without_links(alloc, pair, is_full, paths, None));
    }
    let best = best_between(alloc, net, wanted, &combiner, 1)?;
    if is_full {
        return Ok(without_links(alloc, pair, is_full, paths, best));
    }
    Ok(PairReport {
        pair,
        is_full,
        paths,
        best,
        survives: losses_survived(alloc, &open)?,
        needed: needed_links(alloc, topology, &open)?,
        through: needed_ases(alloc, topology, &pair, &open)?,
    })
}
