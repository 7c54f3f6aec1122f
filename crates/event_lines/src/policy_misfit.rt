//! The first part of a request's policy that has not its form.

ghost use Rattle.std.specs.Prelude.{◌≡◌, None, Some, option_map};
ghost use Rattle.serde_json.specs.View.{items_view, view};
ghost use Rattle.event_lines.specs.declared.members.MemberForm.TheVariants.{Absent};
ghost use Rattle.event_lines.specs.Members.{first_given, named, no_text};
ghost use Rattle.event_lines.specs.PolicyForm.{acl_misfit, misfit, misfit_value, option_misfit, policy_misfit, sequence_misfit, texts_misfit};

use crate::members::{LONG, Member, MemberForm};
use serde_json::Value;

/// A part of a request's policy that has not its form.
#[derive(Clone, Copy, Debug)]
pub struct PolicyMisfit {
    /// The number of its option in `options`, from 0, if it is of one.
    pub option: Option<usize>,
    /// The number of the entry in `acl`, from 0, if it is one.
    pub entry: Option<usize>,
    /// The member, with the form that it, or the entry, is to have.
    pub member: Member,
}

/// The number of the first of these entries that is no text.
pub(crate) fn first_no_text(entries: &[Value]) -> Option<usize>
    ensures { result ≡ first_given no_text (items_view entries.now) }
{
    for (number, entry) in entries.iter().enumerate() {
        if !entry.is_string() {
            return Some(number);
        }
    }
    None
}

/// The access list of an option, or of a request without options, if it has not its form.
fn acl_misfit(policy: &Value, option: Option<usize>) -> Option<PolicyMisfit>
    ensures { option_map misfit_value result ≡ acl_misfit option (view policy.now) }
{
    let acl = policy.get("acl")?;
    let Some(entries) = acl.as_array() else {
        return Some(PolicyMisfit {
            option,
            entry: None,
            member: Member("acl", MemberForm::Texts),
        });
    };
    let entry = first_no_text(entries)?;
    Some(PolicyMisfit {
        option,
        entry: Some(entry),
        member: Member("acl", MemberForm::Text),
    })
}

/// The sequence of an option, or of a request without options, if it has not its form.
fn sequence_misfit(policy: &Value, option: Option<usize>) -> Option<PolicyMisfit>
    ensures { option_map misfit_value result ≡ sequence_misfit option (view policy.now) }
{
    let sequence = policy.get("sequence")?;
    if sequence.is_string() {
        return None;
    }
    Some(PolicyMisfit {
        option,
        entry: None,
        member: Member("sequence", MemberForm::Text),
    })
}

/// The first text of an option, or of a request without options, that has not its form.
fn texts_misfit(policy: &Value, option: Option<usize>) -> Option<PolicyMisfit>
    ensures { option_map misfit_value result ≡ texts_misfit option (view policy.now) }
{
    match acl_misfit(policy, option) {
        Some(part) => Some(part),
        None => sequence_misfit(policy, option),
    }
}

/// The first part of the option of this number that has not its form.
fn option_misfit(option: &Value, number: usize) -> Option<PolicyMisfit>
    ensures { option_map misfit_value result ≡ option_misfit number (view option.now) }
{
    let weight = Member("weight", LONG);
    if weight.is_in(option) {
        return texts_misfit(option, Some(number));
    }
    Some(PolicyMisfit {
        option: Some(number),
        entry: None,
        member: weight,
    })
}

/// The first part of these options that has not its form.
fn options_misfit(options: &[Value]) -> Option<PolicyMisfit>
    ensures { option_map misfit_value result ≡ first_given option_misfit (items_view options.now) }
{
    for (number, option) in options.iter().enumerate() {
        if let Some(part) = option_misfit(option, number) {
            return Some(part);
        }
    }
    None
}

/// This member of a request, which is not to be there.
fn absent(name: &'static str) -> PolicyMisfit
    ensures { Some (misfit_value result) ≡ misfit None None (named name.now Absent) }
{
    PolicyMisfit {
        option: None,
        entry: None,
        member: Member(name, MemberForm::Absent),
    }
}

/// The first part of a request's policy that has not its form, in the order in which it is read.
#[tactic(auto, unfolding(crate::specs::PolicyForm::policy_misfit))]
pub fn policy_misfit(request: &Value) -> Option<PolicyMisfit>
    ensures { option_map misfit_value result ≡ policy_misfit (view request.now) }
{
    let Some(options) = request.get("options") else {
        return texts_misfit(request, None);
    };
    if request.get("acl").is_some() {
        return Some(absent("acl"));
    }
    if request.get("sequence").is_some() {
        return Some(absent("sequence"));
    }
    match options.as_array() {
        Some(options) => options_misfit(options),
        None => Some(PolicyMisfit {
            option: None,
            entry: None,
            member: Member("options", MemberForm::Items),
        }),
    }
}
