ghost use Rattle.std.specs.Prelude.{◌≡◌, ◌++◌, ◌||◌, IfOk, OnOk, is_err};
ghost use Rattle.std.specs.String.{string_bytes};
ghost use Rattle.std.specs.Io.KnownBytes.{Appends};
ghost use Rattle.streams.specs.Streams.{AppendsFront};
ghost use Rattle.path_report.specs.Report.{WritesReport, if_wanted, is_chosen, is_wanted, is_write_fault, pair_text, pairs_from, pairs_of};
ghost use Rattle.path_report.specs.inner.Reports.{WritesPair, WritesPairs};

use crate::fault::ReportFault;
use crate::json::add_json_line;
use crate::line::add_line;
use crate::pair::{AsPair, PairReport, pair_report};
use crate::summary::summary_text;
use isd_as::IsdAs;
use network_core::Net;
use policy_expr::Policy;
use scion_topology::AsEntry;
use std::alloc::{AllocError, Global};
use std::marker::Model;
use streams::{Sink, WriteFailed, write_all};

/// The most links that are named at the end of a report.
pub const MAX_RANKED_LINKS: usize = 10;

/// What a report is about.
#[derive(Drop)]
pub struct ReportOptions<'a> {
    /// The AS in which the paths begin; each AS if it is `None`.
    pub from: Option<IsdAs>,
    /// The AS in which the paths end; each AS if it is `None`.
    pub to: Option<IsdAs>,
    /// The policy that the paths keep.
    pub policy: &'a Policy<Global>,
    /// The most paths that are looked for between two ASes.
    pub limit: u16,
    /// Whether each line is a JSON object.
    pub json: bool,
}

impl<'a> Model for ReportOptions<'a> {
    ghost use Rattle.policy_expr.specs.Code.{policy_codes};
    ghost use Rattle.path_report.specs.Report.{ReportOptionsValue};

    ghost Value = { ReportOptionsValue };

    ghost coded = { Prim.hlevel policy_codes };

    ghost view = { λ w. record {
      from = w.from;
      to = w.to;
      rules = w.policy.now;
      limit = w.limit;
      json = w.json;
    } };
}

/// Whether this AS is the named one, or none is named.
fn is_chosen(named: Option<IsdAs>, ia: IsdAs) -> bool
    ensures { result ≡ is_chosen named ia }
{
    match named {
        None => true,
        Some(one) => one == ia,
    }
}

/// Whether a report is about this pair.
fn is_wanted(wanted: &ReportOptions<'_>, pair: AsPair) -> bool
    ensures { result ≡ is_wanted wanted.entry.now pair }
{
    pair.from != pair.to && is_chosen(wanted.from, pair.from) && is_chosen(wanted.to, pair.to)
}

/// Adds a pair, if it is wanted.
fn add_pair(
    wanted: &ReportOptions<'_>,
    from: IsdAs,
    to: IsdAs,
    pairs: &mut Vec<AsPair>,
) -> Result<(), AllocError>
    ensures { OnOk result (pairs.new.items
        ≡ pairs.old.items ++ if_wanted wanted.entry.now (record { from = from; to = to })) }
{
    if is_wanted(wanted, AsPair { from, to }) {
        pairs.push(AsPair { from, to })?;
    }
    Ok(())
}

/// Adds the wanted pairs that begin in this AS.
fn add_pairs_from(
    wanted: &ReportOptions<'_>,
    ases: &[AsEntry],
    from: IsdAs,
    pairs: &mut Vec<AsPair>,
) -> Result<(), AllocError>
    ensures { OnOk result
        (pairs.new.items ≡ pairs.old.items ++ pairs_from wanted.entry.now ases.now from) }
{
    for one in ases {
        add_pair(wanted, from, one.ia, pairs)?;
    }
    Ok(())
}

/// The wanted pairs, in the order of the ASes.
fn wanted_pairs(
    alloc: Global,
    wanted: &ReportOptions<'_>,
    ases: &[AsEntry],
) -> Result<Vec<AsPair>, AllocError>
    ensures { IfOk result (λ pairs. pairs.items ≡ pairs_of wanted.entry.now ases.now) }
{
    let mut pairs = Vec::new(alloc);
    for one in ases {
        add_pairs_from(wanted, ases, one.ia, &mut pairs)?;
    }
    Ok(pairs)
}

/// Adds the line of a pair, in either form.
fn add_pair_text(text: &mut String, json: bool, report: &PairReport) -> Result<(), AllocError>
    ensures { OnOk result
        (string_bytes text.new ≡ string_bytes text.old ++ pair_text json report.now) }
{
    if json {
        add_json_line(text, report)
    } else {
        add_line(text, report)
    }
}

/// The line of a pair, in either form.
fn line_of(alloc: Global, json: bool, report: &PairReport) -> Result<String, AllocError>
    ensures { IfOk result (λ text. string_bytes text ≡ pair_text json report.now) }
{
    let mut text = String::new(alloc);
    add_pair_text(&mut text, json, report)?;
    Ok(text)
}

/// Writes a line, and passes it on to the device.
fn write_line<K: Sink>(line: &str, sink: &mut K) -> Result<(), WriteFailed>
    ensures written { OnOk result (Appends (K.held sink.old) (K.held sink.new) line.now) }
    ensures front { AppendsFront (K.held sink.old) (K.held sink.new) line.now }
    ensures flag { K.failed sink.new ≡ (K.failed sink.old || is_err result) }
{
    write_all(sink, line.as_bytes())?;
    sink.flush().map_err(|_| WriteFailed)
}

/// What is said of a pair, once its line is written.
fn write_pair<K: Sink>(
    alloc: Global,
    net: &Net,
    wanted: &ReportOptions<'_>,
    pair: AsPair,
    sink: &mut K,
) -> Result<PairReport, ReportFault>
    ensures written { WritesPair net.now wanted.entry.now pair result
        (K.held sink.old) (K.held sink.new) }
    ensures flag { K.failed sink.new ≡ (K.failed sink.old || is_write_fault result) }
{
    let report = pair_report(alloc, net, wanted, pair)?;
    let line = line_of(alloc, wanted.json, &report)?;
    write_line(line.as_str(), sink)?;
    Ok(report)
}

/// What is said of each wanted pair, once their lines are written.
fn write_pairs<K: Sink>(
    alloc: Global,
    net: &Net,
    wanted: &ReportOptions<'_>,
    pairs: &[AsPair],
    sink: &mut K,
) -> Result<Vec<PairReport>, ReportFault>
    requires { pairs.now ≡ pairs_of wanted.now net.now.network.ases }
    ensures written { WritesPairs (λ reports. reports.items) net.now wanted.entry.now result
        (K.held sink.old) (K.held sink.new) }
    ensures flag { K.failed sink.new ≡ (K.failed sink.old || is_write_fault result) }
{
    let mut reports = Vec::new(alloc);
    for pair in pairs {
        let report = write_pair(alloc, net, wanted, *pair, sink)?;
        reports.push(report)?;
    }
    Ok(reports)
}

/// Writes the report of a network at its second: a line for each wanted pair of ASes, in the order
/// of the topology; a line for each of the links that most pairs need, at most
/// [`MAX_RANKED_LINKS`]; and a line for each link that is cut.
///
/// The line of a pair is `FROM TO paths N hops H until S survives K needs L LINK.. through A AS..`.
/// Its N paths have different walks, whose links are all up. The best of them has H hops, which are
/// all live up to second S. Whichever K links of the network are lost, one of the N walks is left,
/// and of K + 1 this is not so; `3+` are at least 3. All of the walks cross these L links, and pass
/// these A ASes, beside those of the pair. Without a path the line ends after `paths 0`. If there
/// are as many walks as the limit, there may be more: N is followed by `+`, and the line ends with
/// `survives unknown needs unknown through unknown`. The best path is that of an answer with at
/// most as many paths as the limit; H and S are `unknown` if there is none in it. The line of a
/// link is `link LINK pairs N`, or `cut LINK`.
///
/// As JSON, a pair has the members `from`, `to`, `paths`, `more` (whether there may be more paths),
/// `hops`, `until`, `survives` (3: at least 3), `needs` and `through`; a link those of a topology,
/// `a` and `b`, each with `ia` and `if`. What is not known, or if there is no path, is `null`. A
/// link of the last lines has `link` and `pairs`, or `cut`.
///
/// For each pair it takes the time of [`Combiner::walks`](combinator::Combiner::walks), and of each
/// walk for a search of the link at each of its hops; that of
/// [`Combiner::paths`](combinator::Combiner::paths) for one path, or twice that of those before the
/// first whose links are up; and of the walks for each three links, each of one walk; and each AS
/// of the network for the hops of a walk. The links at the end take the time of each link and each
/// pair, for each link that the pair needs. The memory is that of the walks of one pair, and of
/// what is said of each pair.
///
/// Each line of a pair is written, and passed on to the device, as soon as it is known.
///
/// [`ReportFault::Memory`] if memory runs out, [`ReportFault::Write`] if a write or a flush fails;
/// what was written then is the beginning of a report.
pub fn path_report<K: Sink>(
    alloc: Global,
    net: &Net,
    wanted: &ReportOptions<'_>,
    sink: &mut K,
) -> Result<(), ReportFault>
    ensures written { WritesReport net.now wanted.entry.now result
        (K.held sink.old) (K.held sink.new) }
    ensures flag { K.failed sink.new ≡ (K.failed sink.old || is_write_fault result) }
{
    let pairs = wanted_pairs(alloc, wanted, net.topology().ases())?;
    let reports = write_pairs(alloc, net, wanted, &pairs, sink)?;
    let ranked = summary_text(alloc, wanted.json, net.topology().links(), &reports)?;
    write_line(ranked.as_str(), sink)?;
    Ok(())
}
