//! What is strange in a line and no fault: members that nobody reads, and addresses that no AS has.

use crate::history::{address_at, word_of};
use crate::place::{Place, push_name, push_place};
use crate::refused::Context;
use crate::said::Said;
use crate::topology::values_of;
use event_lines::members::{
    Member, as_members, end_members, link_members, members_of, option_members, policy_members,
    topology_members, word_member,
};
use serde_json::Value;
use std::alloc::{AllocError, Global};

/// Adds a warning for each member of an object at a place that is in neither list.
fn add_unread(
    alloc: Global,
    warnings: &mut Vec<Said>,
    place: Place<'_>,
    object: &Value,
    members: &[Member],
    others: &[Member],
) -> Result<(), AllocError> {
    let Value::Object(found) = object else {
        return Ok(());
    };
    for (name, _) in found.iter() {
        if !is_among(name, members) && !is_among(name, others) {
            warnings.push(unread_warning(alloc, place, name)?)?;
        }
    }
    Ok(())
}

/// Whether a member of this name is among these.
fn is_among(name: &str, members: &[Member]) -> bool {
    members.iter().any(|member| member.0 == name)
}

/// The warning about a member that nobody reads.
fn unread_warning(alloc: Global, place: Place<'_>, name: &str) -> Result<Said, AllocError> {
    let mut warning = Said::new(alloc);
    push_name(&mut warning, place, name)?;
    warning
        .text
        .push_str(": no member of this name is read here")?;
    Ok(warning)
}

/// Adds a warning for each member of a topology that nobody reads.
pub(crate) fn add_unread_of_topology(
    alloc: Global,
    warnings: &mut Vec<Said>,
    line: Place<'_>,
    topology: &Value,
) -> Result<(), AllocError> {
    add_unread(alloc, warnings, line, topology, topology_members(), &[])?;
    for (number, one) in values_of(topology, "ases").iter().enumerate() {
        add_unread(
            alloc,
            warnings,
            line.item("ases", number),
            one,
            as_members(),
            &[],
        )?;
    }
    for (number, link) in values_of(topology, "links").iter().enumerate() {
        let place = line.item("links", number);
        add_unread(alloc, warnings, place, link, link_members(), &[])?;
        add_unread_of_end(alloc, warnings, line, number, link, "a")?;
        add_unread_of_end(alloc, warnings, line, number, link, "b")?;
    }
    Ok(())
}

/// Adds a warning for each member of an end of the link of a number that nobody reads.
fn add_unread_of_end(
    alloc: Global,
    warnings: &mut Vec<Said>,
    line: Place<'_>,
    number: usize,
    link: &Value,
    name: &'static str,
) -> Result<(), AllocError> {
    match link.get(name) {
        Some(end) => {
            let place = line.link_end(number, name);
            add_unread(alloc, warnings, place, end, end_members(), &[])
        }
        None => Ok(()),
    }
}

/// Adds a warning for each member of a line after the first that nobody reads, and for each address
/// of a request that no AS has.
pub(crate) fn add_unread_of_event(
    alloc: Global,
    warnings: &mut Vec<Said>,
    line: Place<'_>,
    context: &Context<'_>,
    event: &Value,
) -> Result<(), AllocError> {
    let word = word_of(event);
    let Some(members) = members_of(word) else {
        return Ok(());
    };
    if word != "ask" {
        return add_unread(alloc, warnings, line, event, members, word_member());
    }
    add_unread(alloc, warnings, line, event, members, policy_members())?;
    for (number, option) in values_of(event, "options").iter().enumerate() {
        let place = line.item("options", number);
        add_unread(alloc, warnings, place, option, option_members(), &[])?;
    }
    add_unlisted(alloc, warnings, line, context, event, "src")?;
    add_unlisted(alloc, warnings, line, context, event, "dst")
}

/// Adds a warning if no AS has the address of this name in a request.
fn add_unlisted(
    alloc: Global,
    warnings: &mut Vec<Said>,
    line: Place<'_>,
    context: &Context<'_>,
    request: &Value,
    name: &str,
) -> Result<(), AllocError> {
    let (Some(net), Some(ia)) = (context.net, address_at(request, name)) else {
        return Ok(());
    };
    if net.topology().as_info(ia).is_ok() {
        return Ok(());
    }
    let mut warning = Said::new(alloc);
    push_place(&mut warning, line, name)?;
    warning.push_found(&ia)?;
    warning.text.push_str(": the topology has no such AS")?;
    warnings.push(warning)?;
    Ok(())
}
