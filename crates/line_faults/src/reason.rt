//! Why a line is refused, and what is strange in it.

ghost use Rattle.std.specs.Prelude.{◌≡◌, ◌==◌, IfOk, IfSome, OnOk, Some, false, true};
ghost use Rattle.serde_json.specs.View.{view};
ghost use Rattle.line_faults.specs.Misfits.{line_site, refused_misfit, topology_misfit};
ghost use Rattle.line_faults.specs.Subjects.{refused_subject};
ghost use Rattle.line_faults.specs.inner.Meaning.{IsStill, meant_by, member_said, site_of};

use crate::doubled::add_doubled;
use crate::event::push_bad_line;
use crate::joining::push_broken_rule;
use crate::json::push_break;
use crate::misfit::topology_misfit;
use crate::place::Place;
use crate::policy::push_unread;
use crate::refused::{Context, push_own_refusal, push_refused};
use crate::said::Said;
use crate::subject::event_subject;
use crate::topology::{push_event_first, topology_misfits};
use crate::turn::push_refused_turn;
use crate::unanswered::add_unanswered;
use crate::unread::{add_unread_of_event, add_unread_of_topology};
use serde_json::Value;
use std::alloc::{AllocError, Global};
use std::str;

/// The most faults of a topology that are told.
const MAX_FAULTS: usize = 16;

/// A line of an input, with its number from 1, and its reply, with the number and the name of the
/// refusal that it tells.
#[derive(Clone, Copy)]
pub(crate) struct Line<'a> {
    pub(crate) number: usize,
    pub(crate) bytes: &'a [u8],
    pub(crate) reply: &'a str,
    pub(crate) refusal: Option<(u16, &'static str)>,
}

impl<'a> Line<'a> {
    /// Whether it is to be a topology.
    fn is_topology(&self) -> bool
        ensures { result ≡ (self.now.number == 1) }
    {
        self.number == 1
    }

    /// The place that is the line itself.
    fn place(&self) -> Place<'a>
        ensures { site_of result ≡ line_site }
    {
        Place::line(str::from_utf8(self.bytes).unwrap_or(""))
    }

    /// The number of the refusal that its reply tells, if it tells one.
    fn code(&self) -> Option<usize> {
        self.refusal.map(|(code, _)| usize::from(code))
    }
}

/// Why a line is refused with this number: where in it, what stands there, and what is wanted.
pub(crate) fn reason_of(
    alloc: Global,
    context: &Context<'_>,
    line: &Line<'_>,
    code: usize,
    value: Option<&Value>,
) -> Result<Said, AllocError>
    ensures meant { IfOk result (λ why. IfSome value.entry (λ value. IfSome
        (refused_misfit (line.now.number == 1) code (view value.now))
        (λ meant. meant_by why ≡ Some meant))) }
    ensures subject { IfOk result (λ why. IfSome value.entry (λ value. IfSome
        (refused_subject (line.now.number == 1) code (view value.now))
        (λ name. member_said why ≡ Some name))) }
{
    let mut why = Said::new(alloc);
    let Some(value) = value else {
        push_no_value(alloc, &mut why, line)?;
        return or_unknown(why);
    };
    if line.is_topology() {
        push_topology(alloc, &mut why, line.place(), code, value)?;
        return or_unknown(why);
    }
    push_event(alloc, &mut why, line.place(), context, code, value)?;
    or_unknown(why)
}

/// What is said of a line, or that its place was not found.
fn or_unknown(mut why: Said) -> Result<Said, AllocError>
    ensures { IfOk result (λ told. IsStill why told) }
{
    if why.text.is_empty() {
        why.text.push_str("its place was not found")?;
    }
    Ok(why)
}

/// Adds where a line is no JSON.
fn push_no_value(alloc: Global, why: &mut Said, line: &Line<'_>) -> Result<(), AllocError> {
    let goes_on = push_break(alloc, why, line.bytes)?;
    if line.is_topology() && line.bytes.is_empty() {
        why.text.push_str("; the first line has to be the topology")
    } else if line.is_topology() && is_yaml(line.bytes) {
        why.text.push_str("; this is YAML, of which 'python3 tools/topo.py FILE' makes a topology")
    } else if !goes_on {
        Ok(())
    } else if line.is_topology() {
        why.text.push_str("; a topology is one line, and 'jq -c . FILE' prints it so")
    } else {
        why.text.push_str("; an event is one line")
    }
}

/// Whether a first line is that of a topology in YAML.
fn is_yaml(line: &[u8]) -> bool {
    line.starts_with(b"---") || line.starts_with(b"ASes:") || line.starts_with(b"links:")
}

/// Adds why a topology is refused with this number.
fn push_topology(
    alloc: Global,
    why: &mut Said,
    line: Place<'_>,
    code: usize,
    topology: &Value,
) -> Result<(), AllocError>
    requires { site_of line ≡ line_site }
    ensures { OnOk result (IfSome (refused_misfit true code (view topology.now))
        (λ meant. meant_by why.new ≡ Some meant)) }
{
    if code == 11 {
        return push_bad_topology(why, line, topology);
    }
    push_broken_rule(alloc, why, line, code, topology)
}

/// Adds why a topology has not the form of one: the first of the objects that have not.
fn push_bad_topology(why: &mut Said, line: Place<'_>, topology: &Value) -> Result<(), AllocError>
    requires { site_of line ≡ line_site }
    ensures { OnOk result (IfSome (topology_misfit (view topology.now))
        (λ meant. meant_by why.new ≡ Some meant)) }
{
    let Some(misfit) = topology_misfit(line, topology) else {
        return Ok(());
    };
    misfit.push_to(why)?;
    push_event_first(why, topology)
}

/// Adds why a line after the first is refused with this number.
fn push_event(
    alloc: Global,
    why: &mut Said,
    line: Place<'_>,
    context: &Context<'_>,
    code: usize,
    event: &Value,
) -> Result<(), AllocError>
    requires { site_of line ≡ line_site }
    ensures meant { OnOk result (IfSome (refused_misfit false code (view event.now))
        (λ meant. meant_by why.new ≡ Some meant)) }
    ensures subject { OnOk result (IfSome (refused_subject false code (view event.now))
        (λ name. member_said why.new ≡ Some name)) }
{
    if code == 140 {
        return push_bad_line(why, line, event);
    }
    match event_subject(event, code) {
        Some(member) => push_refused(why, line, context, code, event, member),
        None => push_other_refusal(alloc, why, line, context, code, event),
    }
}

/// Adds why a line after the first is refused with this number, which is none that an event passes
/// on from below: a policy that can't be read, a turn at which a router refuses the packet, or a
/// refusal of the event's own.
fn push_other_refusal(
    alloc: Global,
    why: &mut Said,
    line: Place<'_>,
    context: &Context<'_>,
    code: usize,
    event: &Value,
) -> Result<(), AllocError> {
    match code {
        60..=66 => push_unread(alloc, why, line, code, event),
        90..=100 => push_refused_turn(alloc, why, line, context, event),
        _ => push_own_refusal(why, line, context, code, event),
    }
}

/// Adds what is wrong with the form of a topology besides what is said of why it is refused, and
/// what is strange in it.
fn add_topology_warnings(
    alloc: Global,
    warnings: &mut Vec<Said>,
    line: &Line<'_>,
    topology: &Value,
) -> Result<(), AllocError> {
    if line.code() == Some(11) {
        let misfits = topology_misfits(alloc, line.place(), topology, MAX_FAULTS)?;
        for misfit in misfits.iter().skip(1) {
            let mut warning = Said::new(alloc);
            misfit.push_to(&mut warning)?;
            warnings.push(warning)?;
        }
    }
    add_unread_of_topology(alloc, warnings, line.place(), topology)
}

/// What is strange in a line and no fault.
pub(crate) fn warnings_of(
    alloc: Global,
    context: &Context<'_>,
    line: &Line<'_>,
    value: Option<&Value>,
) -> Result<Vec<Said>, AllocError> {
    let mut warnings = Vec::new(alloc);
    match value {
        None => {}
        Some(topology) if line.is_topology() => {
            add_doubled(alloc, &mut warnings, line.place().text())?;
            add_topology_warnings(alloc, &mut warnings, line, topology)?;
        }
        Some(event) => {
            add_doubled(alloc, &mut warnings, line.place().text())?;
            add_unread_of_event(alloc, &mut warnings, line.place(), context, event)?;
            add_unanswered(alloc, &mut warnings, line.place(), context, event)?;
        }
    }
    Ok(warnings)
}
