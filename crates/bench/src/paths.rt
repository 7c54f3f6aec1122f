//! Paths: sequences that are read and matched, and paths that are verified.

use crate::input::Input;
use anyhow::Result;
use isd_as::{IfId, IsdAs};
use path_header::decode;
use path_verifier::{Piece, Pieces, verify};
use policy_expr::{Policy, Seq, WalkHop};
use std::alloc::Global;

/// The AS number of a walk's first hop; those of the others follow it.
const FIRST_HOP: u64 = 100;

/// Matches a sequence `count` times with a walk of 64 hops of ISD 1, and counts the words. The
/// first hop's way in is one interface or another in turn.
pub(crate) fn matches(alloc: Global, input: &Input, count: u32) -> Result<u64> {
    let sequence = Seq::parse(alloc, input.sequence.as_str())?;
    let mut walk = [WalkHop {
        ia: IsdAs::from_number(0),
        ingress: IfId(1),
        egress: IfId(2),
    }; 64];
    for (at, hop) in walk.iter_mut().enumerate() {
        let number = FIRST_HOP.wrapping_add(at as u64 % 64);
        hop.ia = IsdAs::from_number(1 << 48 | number);
    }
    let mut sum = 0u64;
    for turn in 0..count {
        walk[0].ingress = IfId((turn % 2) as u16);
        if sequence.matches(&walk) {
            sum = sum.wrapping_add(1);
        }
    }
    Ok(sum)
}

/// Reads a sequence `count` times, and counts those that can be read.
pub(crate) fn parses(alloc: Global, input: &Input, count: u32) -> Result<u64> {
    let mut sum = 0u64;
    for _ in 0..count {
        if Seq::parse(alloc, input.sequence.as_str()).is_ok() {
            sum = sum.wrapping_add(1);
        }
    }
    Ok(sum)
}

/// Verifies a path `count` times, in turn at one second and at the next, and sums the hops of those
/// accepted.
pub(crate) fn verifies(input: &Input, count: u32) -> Result<u64> {
    let mut pieces = Pieces::new();
    for stretch in input.stretches.iter() {
        pieces.push(Piece {
            segment: &stretch.segment,
            from: stretch.from,
            to: stretch.to,
            along: stretch.along,
        })?;
    }
    let (header, _) = decode(&input.header)?;
    let policy: Policy<Global> = Policy::any();
    let (source, destination) = (input.source, input.destination);
    let mut sum = 0u64;
    for turn in 0..count {
        let now = input.now.wrapping_add(turn % 2);
        if let Ok(path) = verify(&pieces, &header, source, destination, now, &policy) {
            sum = sum.wrapping_add(path.walk().len() as u64);
        }
    }
    Ok(sum)
}
