//! What is found in a line.

ghost use Rattle.std.specs.Prelude.{◌≡◌, ◌==◌, ◌++◌, ◌||◌, false, flat_map, not, option_map, OnOk, IfOk, IfSome, Some};
ghost use Rattle.std.specs.String.{string_bytes};
ghost use Rattle.serde_json.specs.View.{view};
ghost use Rattle.json_fields.specs.Fields.{document_in};
ghost use Rattle.event_lines.specs.Refusals.{Tells, coded, is_refusal};
ghost use Rattle.event_lines.specs.Run.{has_line_end};
ghost use Rattle.line_faults.specs.Explanation.{AreReasons, IsReason, IsTold};
ghost use Rattle.line_faults.specs.Finding.{written};
ghost use Rattle.line_faults.specs.Misfits.{meant_in};
ghost use Rattle.line_faults.specs.Subjects.{subject_in};
ghost use Rattle.line_faults.specs.inner.Adding.{Adds, AddsOne, AreFound, SaysAs, one_line, warning_of};
ghost use Rattle.line_faults.specs.inner.Meaning.{meant_by, member_said};

use crate::finding::{Finding, FindingForm};
use crate::reason::{Line, reason_of, warnings_of};
use crate::refused::Context;
use crate::said::Said;
use serde_json::Value;
use std::alloc::{AllocError, Global};

/// The end of a line.
const LINE_END: u8 = b'\n';

/// A text on one line: the text itself, or dots if it has more lines.
fn on_one_line(text: &str) -> &str
    ensures same { result.now ≡ one_line text.now }
    ensures one { has_line_end result.now ≡ false }
{
    if text.as_bytes().contains(&LINE_END) {
        "..."
    } else {
        text
    }
}

/// The finding that says why a line is refused, whose reply tells a refusal of this number and
/// name.
fn finding_of<'a>(line: &Line<'a>, code: u16, name: &'static str, why: &'a Said) -> Finding<'a>
    requires tells { Tells line.now.reply.now (Some (code, name.now)) }
    requires meant { IfSome (meant_in line.now.number line.now.bytes.now code)
        (λ meant. meant_by why.now ≡ Some meant) }
    requires subject { IfSome (subject_in line.now.number line.now.bytes.now code)
        (λ name. member_said why.now ≡ Some name) }
    ensures is { IsReason line.now.number line.now.bytes.now line.now.reply.now result }
    ensures says { SaysAs why.now result }
{
    Finding {
        line: line.number,
        reply: Some(line.reply),
        refusal: Some(usize::from(code)),
        name: Some(name),
        says: on_one_line(why.text.as_str()),
        column: why.column,
        member: why.member(),
        found: why.found(),
        wanted: why.wanted(),
    }
}

/// Adds the finding that says why a line is refused, with this refusal.
fn push_reason(
    alloc: Global,
    form: FindingForm,
    text: &mut String,
    line: &Line<'_>,
    refusal: (u16, &'static str),
    why: &Said,
) -> Result<(), AllocError>
    requires tells { Tells line.now.reply.now (Some (refusal.0, refusal.1.now)) }
    requires meant { IfSome (meant_in line.now.number line.now.bytes.now refusal.0)
        (λ meant. meant_by why.now ≡ Some meant) }
    requires subject { IfSome (subject_in line.now.number line.now.bytes.now refusal.0)
        (λ name. member_said why.now ≡ Some name) }
    ensures { OnOk result (AddsOne form
        (IsReason line.now.number line.now.bytes.now line.now.reply.now)
        (string_bytes text.old) (string_bytes text.new)) }
{
    let (code, name) = refusal;
    finding_of(line, code, name, why).push_to(alloc, form, text)
}

/// The warning with which this is said of the line of a number.
fn warning_of(number: usize, warning: &Said) -> Finding<'_>
    ensures { result ≡ warning_of number warning.now }
{
    Finding {
        line: number,
        reply: None,
        refusal: None,
        name: None,
        says: on_one_line(warning.text.as_str()),
        column: warning.column,
        member: warning.member(),
        found: warning.found(),
        wanted: warning.wanted(),
    }
}

/// Adds a warning about a line.
fn push_warning(
    alloc: Global,
    form: FindingForm,
    text: &mut String,
    number: usize,
    warning: &Said,
) -> Result<(), AllocError>
    ensures { OnOk result (string_bytes text.new
        ≡ string_bytes text.old ++ written form (warning_of number warning.now)) }
{
    warning_of(number, warning).push_to(alloc, form, text)
}

/// Adds each warning about a line.
fn push_warnings(
    alloc: Global,
    form: FindingForm,
    text: &mut String,
    number: usize,
    warnings: &[Said],
) -> Result<(), AllocError>
    ensures { OnOk result (string_bytes text.new ≡ string_bytes text.old
        ++ flat_map (λ warning. written form (warning_of number warning)) warnings.now) }
{
    for warning in warnings {
        push_warning(alloc, form, text, number, warning)?;
    }
    Ok(())
}

/// Adds the finding that says why a line is refused, if it is.
#[tactic(auto, using(crate::proofs::Told::meant_there, crate::proofs::Told::subject_there, crate::proofs::Told::no_reason, crate::proofs::Told::one_reason))]
fn push_refusal(
    alloc: Global,
    form: FindingForm,
    text: &mut String,
    context: &Context<'_>,
    line: &Line<'_>,
    value: Option<&Value>,
) -> Result<(), AllocError>
    requires tells { Tells line.now.reply.now (coded line.now.refusal) }
    requires value { option_map (λ v. view v.now) value ≡ document_in line.now.bytes.now }
    ensures { OnOk result (Adds form (AreReasons (is_refusal line.now.reply.now)
        line.now.number line.now.bytes.now line.now.reply.now)
        (string_bytes text.old) (string_bytes text.new)) }
{
    let Some(refusal) = line.refusal else {
        return Ok(());
    };
    let why = reason_of(alloc, context, line, usize::from(refusal.0), value)?;
    push_reason(alloc, form, text, line, refusal, &why)
}

/// Whether there is a finding: a refusal, or one of this many warnings.
fn is_any(refused: bool, warnings: usize) -> bool
    ensures { result ≡ (refused || not (warnings == 0)) }
{
    refused || warnings != 0
}

/// Adds why a line is refused, if it is, and the warnings about it. Returns whether there is any of
/// these.
#[tactic(auto, using(crate::proofs::Told::told))]
pub(crate) fn push_comments(
    alloc: Global,
    form: FindingForm,
    text: &mut String,
    context: &Context<'_>,
    line: &Line<'_>,
    value: Option<&Value>,
) -> Result<bool, AllocError>
    requires tells { Tells line.now.reply.now (coded line.now.refusal) }
    requires value { option_map (λ v. view v.now) value ≡ document_in line.now.bytes.now }
    ensures { IfOk result (λ found. Adds form
        (AreFound found (IsTold line.now.number line.now.bytes.now line.now.reply.now))
        (string_bytes text.old) (string_bytes text.new)) }
{
    push_refusal(alloc, form, text, context, line, value)?;
    let warnings = warnings_of(alloc, context, line, value)?;
    push_warnings(alloc, form, text, line.number, &warnings)?;
    Ok(is_any(line.refusal.is_some(), warnings.len()))
}
