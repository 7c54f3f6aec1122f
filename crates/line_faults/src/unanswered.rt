//! Requests whose answer has no path, or paths that can't be travelled now: the first reason that
//! holds; and entries of their lists for an AS that is not there. Segments, walks and policies are
//! looked up and judged by the calls that answer a request.

ghost use Rattle.line_faults.specs.inner.Denying.{DeniesWalk};

use crate::history::{address_at, word_of};
use crate::place::{Place, entry_starts, push_entry, push_entry_from, push_place};
use crate::refused::{Context, is_down, push_link};
use crate::said::Said;
use combinator::{Combiner, PathList};
use event_lines::fields::read_options;
use event_lines::hops_text;
use isd_as::IsdAs;
use json_fields::{Document, JsonRoom};
use network_core::Net;
use path_segment::Segment;
use path_server::SegmentSet;
use policy_expr::{Denied, HopPred, OwnedOptionText, Policy, PolicyOption, WalkHop};
use refusal::OrMemory;
use scion_topology::Topology;
use serde_json::Value;
use std::alloc::{AllocError, Global};
use std::fmt::Write;

/// Both ends of a request.
#[derive(Clone, Copy)]
struct Ends {
    src: IsdAs,
    dst: IsdAs,
}

/// Adds what is strange in the answer of a request: the entries of its lists for an AS that is not
/// there, and why it has no path, or which link of its paths is down.
pub(crate) fn add_unanswered(
    alloc: Global,
    warnings: &mut Vec<Said>,
    line: Place<'_>,
    context: &Context<'_>,
    request: &Value,
) -> Result<(), AllocError> {
    let Some(net) = context.net else {
        return Ok(());
    };
    if word_of(request) != "ask" {
        return Ok(());
    }
    let (Some(src), Some(dst)) = (address_at(request, "src"), address_at(request, "dst")) else {
        return Ok(());
    };
    let Some(answer) = net.answer(context.history.answers) else {
        return Ok(());
    };
    add_unlisted_entries(alloc, warnings, line, net.topology(), request)?;
    if answer.is_empty() {
        add_no_path(alloc, warnings, line, net, Ends { src, dst }, request)
    } else {
        add_link_down(alloc, warnings, context, net, answer)
    }
}

/// Adds each entry of the lists of a request that is for an AS which no topology lists.
fn add_unlisted_entries(
    alloc: Global,
    warnings: &mut Vec<Said>,
    line: Place<'_>,
    topology: &Topology,
    request: &Value,
) -> Result<(), AllocError> {
    if request.get("acl").is_none() && request.get("options").is_none() {
        return Ok(());
    }
    for (number, option) in options_of(alloc, line)?.iter().enumerate() {
        let place = option_place(line, request, number);
        let unlisted = unlisted_entries(alloc, topology, &option.policy)?;
        add_unlisted_of_list(alloc, warnings, place, &unlisted)?;
    }
    Ok(())
}

/// The entries of a policy's list that are for an AS which no topology lists, each with its place
/// in the list.
fn unlisted_entries(
    alloc: Global,
    topology: &Topology,
    policy: &Policy<Global>,
) -> Result<Vec<(usize, IsdAs)>, AllocError> {
    let mut unlisted = Vec::new(alloc);
    let entries = policy.acl().map_or(&[][..], |list| list.entries());
    for (number, entry) in entries.iter().enumerate() {
        if let Some(HopPred { ia, .. }) = entry.pred {
            if !ia.is_wildcard() && topology.as_info(ia).is_err() {
                unlisted.push((number, ia))?;
            }
        }
    }
    Ok(unlisted)
}

/// Adds a warning for each of these entries of the list at a place.
fn add_unlisted_of_list(
    alloc: Global,
    warnings: &mut Vec<Said>,
    place: Place<'_>,
    unlisted: &[(usize, IsdAs)],
) -> Result<(), AllocError> {
    if unlisted.is_empty() {
        return Ok(());
    }
    let starts = entry_starts(alloc, place)?;
    for (number, ia) in unlisted {
        let mut warning = Said::new(alloc);
        push_entry_from(&mut warning, place, *number, starts.get(*number).copied())?;
        warning.push_found(ia)?;
        warning.text.push_str(": the topology has no such AS")?;
        warnings.push(warning)?;
    }
    Ok(())
}

/// Adds the first link that is down of the paths of an answer.
fn add_link_down(
    alloc: Global,
    warnings: &mut Vec<Said>,
    context: &Context<'_>,
    net: &Net,
    answer: &PathList,
) -> Result<(), AllocError> {
    for (number, path) in answer.paths().iter().enumerate() {
        for hop in path.walk() {
            if is_down(net, hop.ia, hop.egress) {
                let mut warning = Said::new(alloc);
                write!(
                    warning.text,
                    "path {number} of the answer can't be travelled now"
                )?;
                push_link(&mut warning.text, net, context.history, hop.ia, hop.egress)?;
                warnings.push(warning)?;
                return Ok(());
            }
        }
    }
    Ok(())
}

/// Adds why there is no path between two ASes.
fn add_no_path(
    alloc: Global,
    warnings: &mut Vec<Said>,
    line: Place<'_>,
    net: &Net,
    ends: Ends,
    request: &Value,
) -> Result<(), AllocError> {
    let Ends { src, dst } = ends;
    let topology = net.topology();
    if topology.as_info(src).is_err() || topology.as_info(dst).is_err() {
        return Ok(());
    }
    let live = net.store().segments_for(alloc, src, dst, net.now())?;
    let any: Policy<Global> = Policy::any();
    let walks = Combiner::of(alloc, &live, src, dst)?.walks(alloc, &any, 1)?;
    if let Some(walk) = walks.get(0) {
        return add_denied(alloc, warnings, line, walk, request);
    }
    let all = net.store().segments_for(alloc, src, dst, 0)?;
    let mut warning = Said::new(alloc);
    push_lack(&mut warning, line, net, ends, &live, &all)?;
    warnings.push(warning)?;
    Ok(())
}

/// Whether an AS is one below a core AS.
fn is_below(net: &Net, ia: IsdAs) -> bool {
    match net.topology().as_info(ia) {
        Ok(info) => !info.core,
        Err(_) => false,
    }
}

/// Adds which segments a request lacks, of those that are live and of all that were registered.
fn push_lack(
    why: &mut Said,
    line: Place<'_>,
    net: &Net,
    ends: Ends,
    live: &SegmentSet,
    all: &SegmentSet,
) -> Result<(), AllocError> {
    let Ends { src, dst } = ends;
    if is_below(net, src) && live.ups().is_empty() {
        return push_no_end(why, line, "src", src, all.ups());
    }
    if is_below(net, dst) && live.downs().is_empty() {
        return push_no_end(why, line, "dst", dst, all.downs());
    }
    push_place(why, line, "dst")?;
    why.push_found(&dst)?;
    why.text.push_str(if !live.cores().is_empty() {
        ": no path: the segments between it and src make none"
    } else if all.cores().is_empty() {
        ": no path: no core segment joins its core ASes and those of src"
    } else {
        ": no path: the core segments between its core ASes and those of src have expired"
    })
}

/// Adds that no live segment ends in an AS: there is none, or all of these have expired.
fn push_no_end(
    why: &mut Said,
    line: Place<'_>,
    name: &str,
    ia: IsdAs,
    expired: &[Segment],
) -> Result<(), AllocError> {
    push_place(why, line, name)?;
    why.push_found(&ia)?;
    why.text.push_str(": no path: ")?;
    match expired.iter().map(|segment| last_live(segment)).max() {
        None => why.text.push_str("no segment ends in it"),
        Some(second) => {
            write!(
                why.text,
                "the segments that end in it were live up to second {second}"
            )
        }
    }
}

/// The last second at which all hops of a segment are live.
fn last_live(segment: &Segment) -> u64 {
    match segment.entries().len().checked_sub(1) {
        Some(last) => segment.least_expiry(0, last) / 2,
        None => 0,
    }
}

/// The policy options of a request; none if they can't be read.
fn options_of(alloc: Global, line: Place<'_>) -> Result<Vec<PolicyOption<Global>>, AllocError> {
    let mut room = JsonRoom::new(alloc);
    let Some(document) = Document::read(alloc, &mut room, line.text().as_bytes())? else {
        return Ok(Vec::new(alloc));
    };
    let Some(texts) = read_options(alloc, &document.root())? else {
        return Ok(Vec::new(alloc));
    };
    let lent = OwnedOptionText::lend_all(alloc, &texts)?;
    match PolicyOption::parse_all(alloc, &lent) {
        Ok(options) => Ok(options),
        Err(OrMemory::Memory) => Err(AllocError),
        Err(OrMemory::Refused(_)) => Ok(Vec::new(alloc)),
    }
}

/// Where the policy of the option of this number stands in a request.
fn option_place<'a>(line: Place<'a>, request: &Value, number: usize) -> Place<'a> {
    match request.get("options") {
        Some(_) => line.item("options", number),
        None => line,
    }
}

/// Adds for each option of a request what of it denies the walk of a path.
fn add_denied(
    alloc: Global,
    warnings: &mut Vec<Said>,
    line: Place<'_>,
    walk: &[WalkHop],
    request: &Value,
) -> Result<(), AllocError> {
    for (number, option) in options_of(alloc, line)?.iter().enumerate() {
        let place = option_place(line, request, number);
        let mut warning = Said::new(alloc);
        push_denied(alloc, &mut warning, place, &option.policy, walk)?;
        warnings.push(warning)?;
    }
    Ok(())
}

/// What of a policy denies a walk.
#[derive(Clone, Copy)]
enum Denial {
    /// This entry of its list, this hop.
    Entry { entry: usize, hop: usize },
    /// No entry, and so its sequence.
    Sequence,
}

/// What of a policy denies a walk that it denies.
fn denial_of(policy: &Policy<Global>, walk: &[WalkHop]) -> Denial
    ensures { DeniesWalk policy.now.acl walk.now result }
{
    match policy.verdict(walk) {
        Err(Denied { hop, entry }) => Denial::Entry { entry, hop },
        Ok(()) => Denial::Sequence,
    }
}

/// Adds what of a policy denies the walk of a path: an entry of its list, or its sequence.
fn push_denied(
    alloc: Global,
    why: &mut Said,
    place: Place<'_>,
    policy: &Policy<Global>,
    walk: &[WalkHop],
) -> Result<(), AllocError> {
    let hops = hops_text(alloc, walk)?;
    match denial_of(policy, walk) {
        Denial::Entry { entry, hop } => {
            push_entry(why, place, entry)?;
            why.text.push_str(": no path: it denies ")?;
            if let Some(hop) = walk.get(hop) {
                write!(why.text, "{}#{},{}", hop.ia, hop.ingress, hop.egress)?;
            }
            write!(why.text, " of the path {hops}")
        }
        Denial::Sequence => {
            push_place(why, place, "sequence")?;
            write!(why.text, ": no path: the path {hops} is no word of it")
        }
    }
}
