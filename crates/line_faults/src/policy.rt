//! Policies of a request that can't be read.

use crate::found::push_value;
use crate::history::text_of;
use crate::place::{Place, push_entry, push_place};
use crate::said::Said;
use crate::sentence::push_sentence;
use crate::sequence::push_stop;
use policy_expr::{Acl, AclText, MAX_ACL_ENTRIES, PolicyFault, Seq};
use refusal::OrMemory;
use separators::text::trim;
use serde_json::Value;
use std::alloc::{AllocError, Global};
use std::fmt::Write;

/// Adds where the first policy of a request that is refused can't be read, and the sentence of the
/// refusal of this number.
pub(crate) fn push_unread(
    alloc: Global,
    why: &mut Said,
    line: Place<'_>,
    code: usize,
    request: &Value,
) -> Result<(), AllocError> {
    match request.get("options") {
        Some(Value::Array(options)) => push_unread_option(alloc, why, line, options)?,
        _ => push_unread_policy(alloc, why, line, request)?,
    };
    why.text.push_str(": ")?;
    push_sentence(&mut why.text, code)
}

/// Adds where the first option that is refused can't be read. Returns whether there is one.
fn push_unread_option(
    alloc: Global,
    why: &mut Said,
    line: Place<'_>,
    options: &[Value],
) -> Result<bool, AllocError> {
    for (number, option) in options.iter().enumerate() {
        if push_unread_policy(alloc, why, line.item("options", number), option)? {
            return Ok(true);
        }
    }
    Ok(false)
}

/// Adds where a policy can't be read. Returns whether it can't.
fn push_unread_policy(
    alloc: Global,
    why: &mut Said,
    place: Place<'_>,
    policy: &Value,
) -> Result<bool, AllocError> {
    if let Some(Value::Array(entries)) = policy.get("acl") {
        if push_unread_list(alloc, why, place, entries)? {
            return Ok(true);
        }
    }
    match text_of(policy, "sequence") {
        Some(text) if !trim(text).is_empty() => push_unread_sequence(alloc, why, place, text),
        _ => Ok(false),
    }
}

/// Adds where a sequence can't be read. Returns whether it can't.
fn push_unread_sequence(
    alloc: Global,
    why: &mut Said,
    place: Place<'_>,
    text: &str,
) -> Result<bool, AllocError> {
    match Seq::parse(alloc, text) {
        Ok(_) => Ok(false),
        Err(OrMemory::Memory) => Err(AllocError),
        Err(OrMemory::Refused(_)) => {
            push_place(why, place, "sequence")?;
            push_stop(alloc, why, text)?;
            Ok(true)
        }
    }
}

/// Why an entry alone is no list: `NoDefault` if it has a predicate, and `None` if it has none.
fn entry_fault(alloc: Global, entry: &Value) -> Result<Option<PolicyFault>, AllocError> {
    let mut list = AclText::new(alloc);
    list.push(alloc, entry.as_str().unwrap_or(""))?;
    match Acl::parse(alloc, &list) {
        Ok(_) => Ok(None),
        Err(OrMemory::Memory) => Err(AllocError),
        Err(OrMemory::Refused(fault)) => Ok(Some(fault)),
    }
}

/// The place of the entry because of which a list can't be read, if there is one.
fn unread_entry(alloc: Global, entries: &[Value]) -> Result<Option<usize>, AllocError> {
    let mut bare = None;
    let mut is_last_bare = false;
    for (number, entry) in entries.iter().enumerate() {
        if is_last_bare {
            bare = bare.or(number.checked_sub(1));
        }
        let fault = entry_fault(alloc, entry)?;
        if fault == Some(PolicyFault::BadPredicate) {
            return Ok(Some(number));
        }
        is_last_bare = fault.is_none();
    }
    if is_last_bare {
        Ok(bare)
    } else {
        Ok(entries.len().checked_sub(1))
    }
}

/// Adds the entry because of which a list can't be read. Returns whether there is one.
fn push_unread_list(
    alloc: Global,
    why: &mut Said,
    place: Place<'_>,
    entries: &[Value],
) -> Result<bool, AllocError> {
    let number = unread_entry(alloc, entries)?;
    let count = entries.len();
    if number.is_none() && count > 0 && count <= MAX_ACL_ENTRIES {
        return Ok(false);
    }
    match number.and_then(|number| Some((number, entries.get(number)?))) {
        Some((number, entry)) => {
            push_entry(why, place, number)?;
            push_value(why, place, entry)?;
        }
        None => {
            push_place(why, place, "acl")?;
            write!(why.text, ": found {count} entries")?;
        }
    }
    Ok(true)
}
