//! The values of the options, from their texts.
#![tactic(auto, unfolding(crate::specs::Fields::arrival_at, crate::specs::Fields::table_at, crate::specs::Fields::table_entry_at))]

ghost use Rattle.std.specs.Prelude.{◌≡◌, ℕ, ◌≤◌, IfOk, IfSome, List, map, option_map};
ghost use Rattle.isd_as.specs.Reading.{all_digits};
ghost use Rattle.step_line.specs.Fields.{arrival_at, hex_bytes_of, table_entry_at, table_at, link_kind_at, bounded_number_at, state_at};

use hex::FromHexError;
use isd_as::IfId;
use router_step::Arrival;
use scion_topology::{IfEntry, LinkKind};
use separators::sign::cut;
use std::alloc::{AllocError, Global};

/// Whether each byte is a decimal digit.
fn is_all_digits(text: &str) -> bool
    ensures { result ≡ all_digits 10 text.now }
{
    text.as_bytes().iter().all(|b| (*b as char).is_digit(10))
}

/// The number from `low` to `high` that the text is in decimal digits, without a sign; `None` if it
/// is none.
#[tactic(auto, unfolding(crate::specs::Fields::bounded_number_at))]
pub fn number(text: &str, low: u64, high: u64) -> Option<u64>
    ensures value { result ≡ bounded_number_at low high text.now }
    ensures low { IfSome result (λ n. low ≤ n) }
    ensures high { IfSome result (λ n. n ≤ high) }
{
    if text.is_empty() || !is_all_digits(text) {
        return None;
    }
    match u64::from_str_radix(text, 10) {
        Ok(number) if low <= number && number <= high => Some(number),
        _ => None,
    }
}

/// The bytes that the text is in hexadecimal, with letters of either case; `None` if it is no
/// hexadecimal.
pub fn bytes(alloc: Global, text: &[u8]) -> Result<Option<Vec<u8>>, AllocError>
    ensures { IfOk result (λ o. option_map (λ v. v.items) o ≡ hex_bytes_of text.now) }
{
    match hex::decode(alloc, text) {
        Ok(bytes) => Ok(Some(bytes)),
        Err(FromHexError::OutOfMemory) => Err(AllocError),
        Err(_) => Ok(None),
    }
}

/// How the packet came: `host`, `inside` or the number of an interface.
pub(crate) fn arrival(text: &str) -> Option<Arrival>
    ensures { result ≡ arrival_at text.now }
{
    match text {
        "host" => Some(Arrival::FromHost),
        "inside" => Some(Arrival::Inside),
        _ => {
            let number = number(text, 1, 65535)?;
            Some(Arrival::Link(IfId(number as u16)))
        }
    }
}

/// The kind of a link: what the AS at its far end is.
#[tactic(auto, unfolding(crate::specs::Fields::link_kind_at))]
fn kind(text: &str) -> Option<LinkKind>
    ensures { result ≡ link_kind_at text.now }
{
    match text {
        "core" => Some(LinkKind::Core),
        "parent" => Some(LinkKind::Parent),
        "child" => Some(LinkKind::Child),
        _ => None,
    }
}

/// Whether a link is up.
#[tactic(auto, unfolding(crate::specs::Fields::state_at))]
fn is_up(text: &str) -> Option<bool>
    ensures { result ≡ state_at text.now }
{
    match text {
        "up" => Some(true),
        "down" => Some(false),
        _ => None,
    }
}

/// An interface, `NUMBER,core|parent|child,ROUTER,up|down`.
fn interface(text: &str) -> Option<IfEntry>
    ensures { result ≡ table_entry_at text.now }
{
    let (number_text, rest) = cut(text, ',')?;
    let (kind_text, rest) = cut(rest, ',')?;
    let (router_text, state_text) = cut(rest, ',')?;
    let number = number(number_text, 1, 65535)?;
    let kind = kind(kind_text)?;
    let router = number_of_router(router_text)?;
    let up = is_up(state_text)?;
    Some(IfEntry {
        number: IfId(number as u16),
        kind,
        router,
        up,
    })
}

/// The number of a router in its AS, 0 to 63.
pub(crate) fn number_of_router(text: &str) -> Option<u8>
    ensures { result ≡ bounded_number_at 0 63 text.now }
{
    let number = number(text, 0, 63)?;
    Some(number as u8)
}

/// The table of these interfaces.
pub(crate) fn interfaces(alloc: Global, texts: &[&str]) -> Result<Option<Vec<IfEntry>>, AllocError>
    ensures { IfOk result
        (λ o. option_map (λ v. v.items) o ≡ table_at (map (λ t. t.now) texts.now)) }
{
    let mut table = Vec::new(alloc);
    for text in texts {
        let Some(entry) = interface(text) else {
            return Ok(None);
        };
        table.push(entry)?;
    }
    Ok(Some(table))
}
