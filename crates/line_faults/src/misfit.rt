//! Objects of a line that have not their form.
#![tactic(auto, unfolding(json_fields::specs::Fields::list_at))]

ghost use Rattle.std.specs.Prelude.{◌≡◌, codes, map, option_map, OnOk, Some};
ghost use Rattle.serde_json.specs.Find.{as_array, at, get};
ghost use Rattle.serde_json.specs.View.{items_view, view};
ghost use Rattle.json_fields.specs.Fields.{list_at};
ghost use Rattle.event_lines.specs.Members.{first_given, first_of, link_members, member_value, topology_members};
ghost use Rattle.line_faults.specs.Misfits.{as_misfit, asked_misfit, end_misfit, item_site, line_site, link_misfit, object_misfit, policy_meant, policy_of, policy_site, topology_misfit};
ghost use Rattle.line_faults.specs.inner.Meaning.{meant_by, misfit_meant, site_of};

use crate::found::push_wanted;
use crate::place::{Place, push_entry, push_object, push_place};
use crate::said::Said;
use event_lines::members::{
    Member, MemberForm, as_members, end_members, first_misfit, link_members, policy_misfit,
    topology_members,
};
use serde_json::Value;
use std::alloc::AllocError;

/// An object that is none; or the first of its members that is missing or not of its form; or the
/// first entry of its access list that is not.
#[derive(Clone, Copy)]
pub(crate) struct Misfit<'v> {
    /// Where the object stands.
    place: Place<'v>,
    /// What stands there.
    object: &'v Value,
    /// The member, with the form that it, or the entry, is to have; none if there is no object.
    member: Option<Member>,
    /// The number of the entry, if it is one.
    entry: Option<usize>,
}

/// The entry of this number of an object's access list.
fn entry_of(object: &Value, number: usize) -> Option<&Value> {
    object.get("acl")?.get(number)
}

impl<'v> Misfit<'v> {
    /// Adds where it is, what stands there, and what is wanted.
    pub(crate) fn push_to(&self, why: &mut Said) -> Result<(), AllocError>
        ensures { OnOk result (meant_by why.new ≡ Some (misfit_meant self.now)) }
    {
        let (place, object) = (self.place, self.object);
        match (self.member, self.entry) {
            (None, _) => {
                push_object(why, place)?;
                push_wanted(why, place, Some(object), &MemberForm::Object)
            }
            (Some(Member(name, form)), None) => {
                push_place(why, place, name)?;
                push_wanted(why, place, object.get(name), &form)
            }
            (Some(Member(_, form)), Some(number)) => {
                push_entry(why, place, number)?;
                push_wanted(why, place, entry_of(object, number), &form)
            }
        }
    }
}

/// The first of these members that the object at a place does not have in its form, or that it is
/// no object.
pub(crate) fn object_misfit<'v>(
    place: Place<'v>,
    object: &'v Value,
    members: &[Member],
) -> Option<Misfit<'v>>
    ensures { option_map misfit_meant result
        ≡ object_misfit (site_of place.entry) (map member_value members.now)
        (view object.entry.now) }
{
    if !object.is_object() {
        return Some(Misfit {
            place,
            object,
            member: None,
            entry: None,
        });
    }
    let member = first_misfit(object, members)?;
    Some(Misfit {
        place,
        object,
        member: Some(*member),
        entry: None,
    })
}

/// The place of the policy of this option of a request, or of the request's own.
fn policy_place(line: Place<'_>, option: Option<usize>) -> Place<'_>
    requires { site_of line ≡ line_site }
    ensures { site_of result ≡ policy_site option }
{
    match option {
        None => line,
        Some(number) => line.item("options", number),
    }
}

/// The policy of this option of a request, or the request with its own.
fn policy_of(request: &Value, option: Option<usize>) -> Option<&Value>
    ensures { option_map (λ policy. view policy.now) result
        ≡ policy_of option (view request.now) }
{
    match option {
        None => Some(request),
        Some(number) => request.get("options")?.get(number),
    }
}

/// The first part of a request's policy that has not its form.
fn asked_misfit<'v>(line: Place<'v>, request: &'v Value) -> Option<Misfit<'v>>
    requires { site_of line ≡ line_site }
    ensures { option_map misfit_meant result ≡ policy_meant (view request.entry.now) }
{
    let part = policy_misfit(request)?;
    let place = policy_place(line, part.option);
    let policy = policy_of(request, part.option)?;
    match part.entry {
        None => object_misfit(place, policy, &[part.member]),
        Some(_) => Some(Misfit {
            place,
            object: policy,
            member: Some(part.member),
            entry: part.entry,
        }),
    }
}

/// The first part of a line with this word and these members that is missing or not of its form.
pub(crate) fn line_misfit<'v>(
    line: Place<'v>,
    value: &'v Value,
    word: &str,
    members: &[Member],
) -> Option<Misfit<'v>>
    requires { site_of line ≡ line_site }
    ensures { option_map misfit_meant result
        ≡ first_of (asked_misfit word.now (view value.entry.now))
        (object_misfit line_site (map member_value members.now) (view value.entry.now)) }
{
    if word == "ask" {
        if let Some(misfit) = asked_misfit(line, value) {
            return Some(misfit);
        }
    }
    object_misfit(line, value, members)
}

/// A list of a topology.
pub(crate) fn list_of<'v>(topology: &'v Value, name: &str) -> Option<&'v [Value]>
    ensures { option_map (λ list. items_view list.now) result
        ≡ list_at name.now (view topology.now) }
{
    match topology.get(name)? {
        Value::Array(values) => Some(values),
        _ => None,
    }
}

/// The AS of this number of a topology, if it has not its form.
pub(crate) fn as_misfit<'v>(line: Place<'v>, number: usize, value: &'v Value) -> Option<Misfit<'v>>
    ensures { option_map misfit_meant result
        ≡ as_misfit (item_site (codes "ases") number) (view value.entry.now) }
{
    object_misfit(line.item("ases", number), value, as_members())
}

/// The link of this number of a topology, if it has not its form, whatever its ends.
pub(crate) fn members_misfit<'v>(
    line: Place<'v>,
    number: usize,
    link: &'v Value,
) -> Option<Misfit<'v>>
    ensures { option_map misfit_meant result
        ≡ object_misfit (item_site (codes "links") number) link_members (view link.entry.now) }
{
    object_misfit(line.item("links", number), link, link_members())
}

/// The end of this name of the link of this number, if it has not its form.
pub(crate) fn end_misfit<'v>(
    line: Place<'v>,
    number: usize,
    name: &'static str,
    link: &'v Value,
) -> Option<Misfit<'v>>
    ensures { option_map misfit_meant result
        ≡ end_misfit (item_site (codes "links") number) name.now (view link.entry.now) }
{
    let end = link.get(name)?;
    object_misfit(line.link_end(number, name), end, end_members())
}

/// The first that has not its form of a link and its ends.
fn link_misfit<'v>(line: Place<'v>, number: usize, link: &'v Value) -> Option<Misfit<'v>>
    ensures { option_map misfit_meant result
        ≡ link_misfit (item_site (codes "links") number) (view link.entry.now) }
{
    if let Some(misfit) = members_misfit(line, number, link) {
        return Some(misfit);
    }
    if let Some(misfit) = end_misfit(line, number, "a", link) {
        return Some(misfit);
    }
    end_misfit(line, number, "b", link)
}

/// The first of these ASes that has not its form.
fn ases_misfit<'v>(line: Place<'v>, ases: &'v [Value]) -> Option<Misfit<'v>>
    ensures { option_map misfit_meant result
        ≡ first_given (λ number one. as_misfit (item_site (codes "ases") number) one)
        (items_view ases.entry.now) }
{
    for (number, one) in ases.iter().enumerate() {
        if let Some(misfit) = as_misfit(line, number, one) {
            return Some(misfit);
        }
    }
    None
}

/// The first of these links that has not its form.
fn links_misfit<'v>(line: Place<'v>, links: &'v [Value]) -> Option<Misfit<'v>>
    ensures { option_map misfit_meant result
        ≡ first_given (λ number one. link_misfit (item_site (codes "links") number) one)
        (items_view links.entry.now) }
{
    for (number, link) in links.iter().enumerate() {
        if let Some(misfit) = link_misfit(line, number, link) {
            return Some(misfit);
        }
    }
    None
}

/// A topology that has not its form, whatever its ASes and links.
pub(crate) fn top_misfit<'v>(line: Place<'v>, topology: &'v Value) -> Option<Misfit<'v>>
    requires { site_of line ≡ line_site }
    ensures { option_map misfit_meant result
        ≡ object_misfit line_site topology_members (view topology.entry.now) }
{
    object_misfit(line, topology, topology_members())
}

/// The first that has not its form of a topology, its ASes, and its links.
pub(crate) fn topology_misfit<'v>(line: Place<'v>, topology: &'v Value) -> Option<Misfit<'v>>
    requires { site_of line ≡ line_site }
    ensures { option_map misfit_meant result ≡ topology_misfit (view topology.entry.now) }
{
    if let Some(misfit) = top_misfit(line, topology) {
        return Some(misfit);
    }
    if let Some(ases) = list_of(topology, "ases") {
        if let Some(misfit) = ases_misfit(line, ases) {
            return Some(misfit);
        }
    }
    links_misfit(line, list_of(topology, "links")?)
}
