//! Finds an AS that is listed twice and an interface at two links: by sorting numbers, or by
//! comparing pairs if there is no memory for sorting.

ghost use Rattle.std.specs.Prelude.{◌≡◌, ◌<◌, ◌^◌, ◌++◌, IfOk, OnOk, All, map};
ghost use Rattle.std.specs.List.{flat_map};
ghost use Rattle.scion_topology.specs.Causes.{lists_twice, stands, joins_twice};
ghost use Rattle.scion_topology.specs.inner.Doubled.{HasBits, end_number, numbers_of};

use crate::as_lookup::is_listed;
use crate::network::{AsEntry, End, Link};
use crate::validation::has_end;
use doubles::has_double;
use std::alloc::{AllocError, Global};

/// Whether an AS is listed twice.
#[tactic(auto, using(crate::proofs::Twice::lists_twice_is))]
pub(crate) fn lists_twice(alloc: Global, ases: &[AsEntry]) -> bool
    ensures { result ≡ lists_twice ases.now }
{
    match as_numbers(alloc, ases) {
        Ok(mut numbers) => has_double(&mut numbers),
        Err(AllocError) => lists_one_of_pairs(ases),
    }
}

/// The addresses of the ASes as numbers.
fn as_numbers(alloc: Global, ases: &[AsEntry]) -> Result<Vec<u128>, AllocError>
    ensures { IfOk result (λ numbers. numbers.items ≡ map (λ one. one.ia) ases.now) }
{
    let mut numbers = Vec::with_capacity(alloc, ases.len())?;
    for one in ases {
        numbers.push(u128::from(one.ia.number()))?;
    }
    Ok(numbers)
}

/// Whether an AS is listed twice, by comparing pairs.
#[tactic(auto, unfolding(crate::specs::Causes::lists_twice))]
fn lists_one_of_pairs(ases: &[AsEntry]) -> bool
    ensures { result ≡ lists_twice ases.now }
{
    let mut rest = ases;
    while let Some((one, others)) = rest.split_first() {
        if is_listed(others, one.ia) {
            return true;
        }
        rest = others;
    }
    false
}

/// Whether two links end at one interface.
pub(crate) fn joins_twice(alloc: Global, links: &[Link]) -> bool
    ensures { result ≡ joins_twice links.now }
{
    match interface_numbers(alloc, links) {
        Ok(mut numbers) => has_double(&mut numbers),
        Err(AllocError) => joins_one_of_pairs(links),
    }
}

/// The numbers of the interfaces at the ends of links.
fn interface_numbers(alloc: Global, links: &[Link]) -> Result<Vec<u128>, AllocError>
    ensures numbers { IfOk result (λ numbers. numbers.items ≡ flat_map numbers_of links.now) }
    ensures bits { OnOk result (All HasBits links.now) }
{
    let mut numbers = Vec::with_capacity(alloc, 2 * links.len())?;
    for link in links {
        push_numbers(&mut numbers, link)?;
    }
    Ok(numbers)
}

/// Adds the numbers of the interfaces at both ends of a link, or one number if they are equal.
fn push_numbers(numbers: &mut Vec<u128>, link: &Link) -> Result<(), AllocError>
    ensures numbers { OnOk result (numbers.new.items ≡ numbers.old.items ++ numbers_of link.now) }
    ensures bits { HasBits link.now }
{
    let (a, b) = (end_number(&link.a), end_number(&link.b));
    numbers.push(a)?;
    if a != b {
        numbers.push(b)?;
    }
    Ok(())
}

/// An interface as a number: its AS's address, and then its own number.
fn end_number(end: &End) -> u128
    ensures value { result ≡ end_number end.now }
    ensures bits { end.now.number < 2 ^ 16 }
{
    u128::from(end.ia.number()) * (1 << 16) + u128::from(end.number.number())
}

/// Whether a link of the list ends at the interface of this end.
fn stands(links: &[Link], end: &End) -> bool
    ensures { result ≡ stands links.now end.now }
{
    links.iter().any(|link| has_end(link, end.ia, end.number))
}

/// Whether two links end at one interface, by comparing pairs.
#[tactic(auto, unfolding(crate::specs::Causes::joins_twice))]
fn joins_one_of_pairs(links: &[Link]) -> bool
    ensures { result ≡ joins_twice links.now }
{
    let mut rest = links;
    while let Some((link, others)) = rest.split_first() {
        if stands(others, &link.a) || stands(others, &link.b) {
            return true;
        }
        rest = others;
    }
    false
}
