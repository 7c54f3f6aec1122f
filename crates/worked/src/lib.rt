//! Worked examples for the tests of several crates: topologies, addresses, and paths in parts.
#![tactic(auto)]

mod networks;

ghost use Rattle.std.specs.Prelude.{◌≡◌, ◌+◌, option_map};
ghost use Rattle.isd_as.specs.Address.{address_of};

use isd_as::{IfId, IsdAs};
pub use networks::{Drawing, End, line, numbered, pair, ring, row};
use path_header::{Header, HopField, InfoField};
use path_segment::{Entry, Segment};
use path_verifier::{Piece, Pieces};
use policy_expr::{AclText, OptionText, Policy, PolicyText, WalkHop};
use std::alloc::Global;
use std::test::Fail;

/// The address with this ISD, and an AS number of three groups whose first is ff00 and last is
/// `last`.
pub fn at(isd: u16, last: u16) -> IsdAs
    ensures { result ≡ address_of isd (0xff00_0000_0000 + last) }
{
    IsdAs::from_number(u64::from(isd) * (1 << 48) + 0xff00_0000_0000 + u64::from(last))
}

/// An entry of a segment, with the expiry 63.
pub fn entry(ia: IsdAs, cons_ingress: u16, cons_egress: u16, mac: [u8; 6]) -> Entry
    ensures { result ≡ record {
      ia = ia;
      cons_ingress = cons_ingress;
      cons_egress = cons_egress;
      exp_time = 63;
      mac = mac;
    } }
{
    Entry {
        ia,
        cons_ingress: IfId(cons_ingress),
        cons_egress: IfId(cons_egress),
        exp_time: 63,
        mac,
    }
}

/// A hop of a walk.
pub fn hop(ia: IsdAs, ingress: u16, egress: u16) -> WalkHop
    ensures { result ≡ record { ia = ia; ingress = ingress; egress = egress } }
{
    WalkHop {
        ia,
        ingress: IfId(ingress),
        egress: IfId(egress),
    }
}

/// A piece of a segment.
pub fn piece(segment: &Segment, from: usize, to: usize, along: bool) -> Piece<'_>
    ensures { result ≡ record { segment = segment.now; from = from; to = to; along = along } }
{
    Piece {
        segment,
        from,
        to,
        along,
    }
}

/// Pieces from a place of a segment to its end, each in a direction.
pub fn pieces_of<'s>(parts: &[(&'s Segment, usize, bool)]) -> Result<Pieces<'s>, Fail> {
    let mut pieces = Pieces::new();
    for (segment, from, along) in parts {
        let last = segment.entries().len().saturating_sub(1);
        pieces.push(piece(segment, *from, last, *along))?;
    }
    Ok(pieces)
}

/// The header of pieces from a place of a segment to its end, each in a direction.
pub fn header_of(
    alloc: Global,
    lens: [u8; 3],
    pieces: &[(&Segment, usize, bool)],
) -> Result<Header, Fail> {
    let mut infos = Vec::new(alloc);
    let mut hops = Vec::new(alloc);
    for (segment, from, along) in pieces {
        let mut fields = Vec::new(alloc);
        for entry in segment.entries().iter().skip(*from) {
            fields.push(HopField {
                exp_time: entry.exp_time,
                cons_ingress: entry.cons_ingress,
                cons_egress: entry.cons_egress,
                mac: entry.mac,
            })?;
        }
        let last = segment.entries().len().saturating_sub(1);
        let first = if *along { *from } else { last };
        if !*along {
            fields.reverse();
        }
        infos.push(InfoField {
            construction: *along,
            seg_id: beta_at(segment, first),
            timestamp: segment.timestamp(),
        })?;
        for field in fields {
            hops.push(field)?;
        }
    }
    Ok(Header::new(lens, &infos, &hops)?)
}

/// The texts of an option; the list and the sequence may each be absent.
pub fn option_text<'a>(
    acl: Option<&'a AclText>,
    sequence: Option<&'a str>,
    weight: u32,
) -> OptionText<'a>
    ensures { result ≡ record {
      acl = option_map (λ t. t.now) acl.entry;
      sequence = option_map (λ t. t.now) sequence.entry;
      weight = weight;
    } }
{
    OptionText {
        text: PolicyText { acl, sequence },
        weight,
    }
}

/// The policy of these texts; an empty list is no list, and a blank sequence is no sequence.
pub fn policy(alloc: Global, acl: &[&str], sequence: &str) -> Result<Policy<Global>, Fail> {
    let mut texts = AclText::new(alloc);
    for text in acl {
        texts.push(alloc, text)?;
    }
    let acl = if acl.is_empty() { None } else { Some(&texts) };
    let text = PolicyText {
        acl,
        sequence: Some(sequence),
    };
    Ok(Policy::parse(alloc, &text)?)
}

/// The accumulator at a place of a segment.
fn beta_at(segment: &Segment, place: usize) -> u16 {
    if place < segment.entries().len() {
        segment.beta_at(place)
    } else {
        0
    }
}
