#![tactic(auto, unfolding(crate::specs::Acl::entry_at))]

ghost use Rattle.std.specs.Prelude.{◌≡◌, map, IfOk, IsOk, Ok};
ghost use Rattle.std.specs.Result.{result_map_both};
ghost use Rattle.std.specs.String.{string_bytes};
ghost use Rattle.refusal.specs.Refusal.{each, Judges};
ghost use Rattle.policy_expr.specs.Acl.{acl_at, entry_at, signed_entry, is_bare, says_nothing, signed_at};

use crate::acl::AclEntry;
use crate::acl_text::AclText;
use crate::fault::PolicyFault;
use crate::hop::{HopPred, Interfaces};
use separators::text::{trim, trim_start};
use std::alloc::{AllocError, Allocator};

/// The largest number of entries of a list.
pub const MAX_ACL_ENTRIES: usize = 256;

/// The first refusal of a list's texts. Takes no memory.
pub(crate) fn check_acl(text: &AclText) -> Result<(), PolicyFault>
    ensures { Judges result (acl_at text.now) }
{
    check_entries(text.texts())
}

/// The first refusal of these texts as a list.
fn check_entries(texts: &[String]) -> Result<(), PolicyFault>
    ensures { Judges result (acl_at (map string_bytes texts.now)) }
{
    let mut is_last_bare = false;
    let mut is_other_bare = false;
    for text in texts {
        let is_bare = is_text_bare(text.as_str())?;
        is_other_bare = is_other_bare || is_last_bare;
        is_last_bare = is_bare;
    }
    if texts.len() > MAX_ACL_ENTRIES {
        return Err(PolicyFault::TooLarge);
    }
    if !is_last_bare {
        return Err(PolicyFault::NoDefault);
    }
    if is_other_bare {
        return Err(PolicyFault::AfterDefault);
    }
    Ok(())
}

/// Whether the entry of a text has no predicate.
fn is_text_bare(text: &str) -> Result<bool, PolicyFault>
    ensures { result ≡ result_map_both is_bare (λ fault. fault) (entry_at text.now) }
{
    match read_entry(text) {
        Ok(entry) => Ok(entry.is_bare()),
        Err(fault) => Err(fault),
    }
}

/// The entries of texts each of which can be read.
pub(crate) fn read_entries<A: Allocator>(
    alloc: A,
    texts: &[String],
) -> Result<Vec<AclEntry, A>, AllocError>
    requires { IsOk (each entry_at (map string_bytes texts.now)) }
    ensures { IfOk result
        (λ entries. each entry_at (map string_bytes texts.now) ≡ Ok entries.items) }
{
    let mut entries = Vec::with_capacity(alloc, texts.len())?;
    for text in texts {
        entries.push(read_entry(text.as_str()).unwrap())?;
    }
    Ok(entries)
}

/// The entry of a text.
fn read_entry(text: &str) -> Result<AclEntry, PolicyFault>
    ensures { result ≡ entry_at text.now }
{
    let text = trim(text);
    match text.as_bytes().split_first() {
        Some((b'+', _)) => read_signed(true, trim_start(&text[1..])),
        Some((b'-', _)) => read_signed(false, trim_start(&text[1..])),
        _ => Err(PolicyFault::BadPredicate),
    }
}

/// The entry of a sign and of the text after it.
fn read_signed(allows: bool, text: &str) -> Result<AclEntry, PolicyFault>
    ensures { result ≡ signed_at allows text.now }
{
    if text.is_empty() {
        return Ok(AclEntry { allows, pred: None });
    }
    let pred = HopPred::parse(text)?;
    Ok(of_pred(allows, pred))
}

/// The entry of a sign and a predicate; a predicate of wildcards alone is dropped.
fn of_pred(allows: bool, pred: HopPred) -> AclEntry
    ensures { result ≡ signed_entry allows pred }
{
    let is_bare = pred.ia.number() == 0 && pred.interfaces == Interfaces::Any;
    AclEntry {
        allows,
        pred: if is_bare { None } else { Some(pred) },
    }
}
