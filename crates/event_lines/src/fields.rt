//! The members of a line's JSON object, also for other readers of such objects.
#![tactic(auto, unfolding(crate::specs::Line::bytes_at, crate::specs::Line::ia_in, crate::specs::Line::listed_options, crate::specs::Line::maybe_text_at, crate::specs::Line::one_option, crate::specs::Line::option_in, crate::specs::Line::option_with, crate::specs::Line::texts_at,))]

ghost use Rattle.std.specs.Prelude.{◌≡◌, IfOk, IsSome, OnErr, option_map};
ghost use Rattle.std.specs.String.{string_bytes};
ghost use Rattle.serde_json.specs.Find.{as_str};
ghost use Rattle.json_fields.specs.Documents.{list_items, node_data};
ghost use Rattle.json_fields.specs.Fields.{items_at, text_at};
ghost use Rattle.event_lines.specs.Line.{byte_at, bytes_at, ia_in, long_at, maybe_text_at, one_option, option_in, option_with, options_in, listed_options, short_at, texts_at};

use hex::FromHexError;
use isd_as::{IfId, IsdAs};
use json_fields::{Node, NodeList};
use policy_expr::{AclText, OwnedOptionText};
use std::alloc::{AllocError, Global};

/// A member that is a number of 32 bits.
pub fn read_u32(object: &Node<'_, '_>, name: &str) -> Option<u32>
    ensures { result ≡ long_at name.now (node_data object.now) }
{
    let number = object.whole(name, 0, 4_294_967_295)?;
    Some(number as u32)
}

/// A member that is a number of 16 bits.
pub(crate) fn read_u16(object: &Node<'_, '_>, name: &str) -> Option<u16>
    ensures { result ≡ short_at name.now (node_data object.now) }
{
    let number = object.whole(name, 0, 65535)?;
    Some(number as u16)
}

/// A member that is a number of 8 bits.
pub(crate) fn read_u8(object: &Node<'_, '_>, name: &str) -> Option<u8>
    ensures { result ≡ byte_at name.now (node_data object.now) }
{
    let number = object.whole(name, 0, 255)?;
    Some(number as u8)
}

/// A member that is the number of an interface.
pub(crate) fn interface(object: &Node<'_, '_>, name: &str) -> Option<IfId>
    ensures { result ≡ short_at name.now (node_data object.now) }
{
    let number = read_u16(object, name)?;
    Some(IfId(number))
}

/// A member that is an address.
pub fn read_address(object: &Node<'_, '_>, name: &str) -> Option<IsdAs>
    ensures { result ≡ ia_in name.now (node_data object.now) }
{
    let text = object.text(name)?;
    IsdAs::parse(text).ok()
}

/// A member that is bytes in hexadecimal, with digits of either case.
///
/// [`AllocError`] if memory runs out, which it may only if the member is a text.
pub fn read_bytes(
    alloc: Global,
    object: &Node<'_, '_>,
    name: &str,
) -> Result<Option<Vec<u8>>, AllocError>
    ensures bytes { IfOk result (λ o. option_map (λ v. v.items) o
        ≡ bytes_at name.now (node_data object.now)) }
    ensures wanted { OnErr result (IsSome (text_at name.now (node_data object.now))) }
{
    let Some(text) = object.text(name) else {
        return Ok(None);
    };
    match hex::decode(alloc, text.as_bytes()) {
        Ok(bytes) => Ok(Some(bytes)),
        Err(FromHexError::OutOfMemory) => Err(AllocError),
        Err(_) => Ok(None),
    }
}

/// The texts of a list of texts.
fn acl_text(alloc: Global, values: NodeList<'_, '_>) -> Result<Option<AclText>, AllocError>
    ensures { IfOk result (λ o. o ≡ items_at as_str (list_items values.entry)) }
{
    let mut texts = AclText::new(alloc);
    let mut left = values;
    while let Some((value, later)) = left.split_first() {
        let Some(text) = value.as_text() else {
            return Ok(None);
        };
        texts.push(alloc, text)?;
        left = later;
    }
    Ok(Some(texts))
}

/// A list of texts; it may be absent.
fn texts(
    alloc: Global,
    object: &Node<'_, '_>,
    name: &str,
) -> Result<Option<Option<AclText>>, AllocError>
    ensures { IfOk result (λ o. o ≡ texts_at name.now (node_data object.now)) }
{
    if !object.has(name) {
        return Ok(Some(None));
    }
    let Some(values) = object.list(name) else {
        return Ok(None);
    };
    match acl_text(alloc, values)? {
        Some(texts) => Ok(Some(Some(texts))),
        None => Ok(None),
    }
}

/// A text; it may be absent.
fn maybe_text(
    alloc: Global,
    object: &Node<'_, '_>,
    name: &str,
) -> Result<Option<Option<String>>, AllocError>
    ensures { IfOk result (λ o. option_map (λ t. option_map string_bytes t) o
        ≡ maybe_text_at name.now (node_data object.now)) }
{
    if !object.has(name) {
        return Ok(Some(None));
    }
    match object.text(name) {
        Some(text) => Ok(Some(Some(String::from_str(alloc, text)?))),
        None => Ok(None),
    }
}

/// An option of this weight from the members `acl` and `sequence`.
fn option_of_weight(
    alloc: Global,
    weight: u32,
    object: &Node<'_, '_>,
) -> Result<Option<OwnedOptionText>, AllocError>
    ensures { IfOk result (λ o. o ≡ option_with weight (node_data object.now)) }
{
    let Some(acl) = texts(alloc, object, "acl")? else {
        return Ok(None);
    };
    let Some(sequence) = maybe_text(alloc, object, "sequence")? else {
        return Ok(None);
    };
    Ok(Some(OwnedOptionText {
        acl,
        sequence,
        weight,
    }))
}

/// A policy option of a list.
fn option(alloc: Global, object: &Node<'_, '_>) -> Result<Option<OwnedOptionText>, AllocError>
    ensures { IfOk result (λ o. o ≡ option_in (node_data object.now)) }
{
    let Some(weight) = read_u32(object, "weight") else {
        return Ok(None);
    };
    option_of_weight(alloc, weight, object)
}

/// The policy options of a list.
fn each_option(
    alloc: Global,
    values: NodeList<'_, '_>,
) -> Result<Option<Vec<OwnedOptionText>>, AllocError>
    ensures { IfOk result (λ o. option_map (λ v. v.items) o
        ≡ items_at option_in (list_items values.entry)) }
{
    let mut options = Vec::new(alloc);
    let mut left = values;
    while let Some((value, later)) = left.split_first() {
        let Some(option) = option(alloc, &value)? else {
            return Ok(None);
        };
        options.push(option)?;
        left = later;
    }
    Ok(Some(options))
}

/// The policy options of the member `options`, with which neither `acl` nor `sequence` may occur.
fn read_list(
    alloc: Global,
    object: &Node<'_, '_>,
) -> Result<Option<Vec<OwnedOptionText>>, AllocError>
    ensures { IfOk result (λ o. option_map (λ v. v.items) o
        ≡ listed_options (node_data object.now)) }
{
    if object.has("acl") || object.has("sequence") {
        return Ok(None);
    }
    match object.list("options") {
        Some(values) => each_option(alloc, values),
        None => Ok(None),
    }
}

/// One policy option of weight 0.
fn single(alloc: Global, object: &Node<'_, '_>) -> Result<Option<Vec<OwnedOptionText>>, AllocError>
    ensures { IfOk result (λ o. option_map (λ v. v.items) o ≡ one_option (node_data object.now)) }
{
    let Some(option) = option_of_weight(alloc, 0, object)? else {
        return Ok(None);
    };
    let mut options = Vec::new(alloc);
    options.push(option)?;
    Ok(Some(options))
}

/// The policy options of a request: those of `options`, or one of weight 0.
pub fn read_options(
    alloc: Global,
    object: &Node<'_, '_>,
) -> Result<Option<Vec<OwnedOptionText>>, AllocError>
    ensures { IfOk result (λ o. option_map (λ v. v.items) o ≡ options_in (node_data object.now)) }
{
    if !object.has("options") {
        single(alloc, object)
    } else {
        read_list(alloc, object)
    }
}
