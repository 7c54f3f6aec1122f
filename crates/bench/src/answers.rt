//! Answers to one request, over 32 segments up, 32 between core ASes and 32 down.

ghost use Rattle.std.specs.Prelude.{◌<◌};

use anyhow::{Result, anyhow};
use combinator::{PathList, combine};
use isd_as::{IfId, IsdAs};
use path_segment::{Entry, SegKind, Segment};
use path_server::{PathStore, SegmentSet};
use policy_expr::{Policy, PolicyOption};
use std::alloc::Global;

/// The number of segments of each kind.
const SEGMENTS: u32 = 32;

/// The second at which all is made and requested.
const NOW: u32 = 1000;

/// An AS of an ISD.
fn address(isd: u16, number: u32) -> IsdAs {
    IsdAs::from_number(u64::from(isd) << 48 | u64::from(number))
}

/// The AS in which the paths begin.
fn source() -> IsdAs {
    address(1, 5000)
}

/// The AS in which the paths end.
fn destination() -> IsdAs {
    address(2, 5000)
}

/// The segment of this number and kind, over three ASes.
fn segment(alloc: Global, kind: SegKind, number: u16, ases: [IsdAs; 3]) -> Result<Segment> {
    let own = IfId(number % 1000 + 1);
    let ways = [(IfId(0), own), (IfId(1), IfId(2)), (own, IfId(0))];
    let [first, second] = number.to_be_bytes();
    let mut entries = Vec::with_capacity(alloc, 3)?;
    for (ia, (cons_ingress, cons_egress)) in ases.iter().zip(ways.iter()) {
        let [.., third, fourth] = ia.to_bytes();
        entries.push(Entry {
            ia: *ia,
            cons_ingress: *cons_ingress,
            cons_egress: *cons_egress,
            exp_time: 63,
            mac: [first, second, third, fourth, 5, 6],
        })?;
    }
    let timestamp = NOW + u32::from(number % 4);
    Ok(Segment::new(kind, timestamp, number, entries)?)
}

/// Registers a segment.
fn put(store: &mut PathStore, segment: Segment) -> Result<()> {
    match store.register(segment, NOW) {
        Ok(_) => Ok(()),
        Err(_) => Err(anyhow!("a segment is not taken in")),
    }
}

/// The segments, spread over several core ASes in each of two ISDs.
fn segments(alloc: Global, cores: u32) -> Result<SegmentSet> {
    let mut store = PathStore::new(alloc);
    for place in 0..SEGMENTS {
        let core = if cores == 0 { 0 } else { place % cores };
        let (near, far) = (address(1, core), address(2, core));
        let number = (place % SEGMENTS) as u16;
        let up = [near, address(1, 1000 + place), source()];
        let over = [near, address(1, 2000 + place), far];
        let down = [far, address(2, 3000 + place), destination()];
        let rows = [
            (SegKind::Intra, number, up),
            (SegKind::Core, 100 + number, over),
            (SegKind::Intra, 200 + number, down),
        ];
        for (kind, number, ases) in rows {
            put(&mut store, segment(alloc, kind, number, ases)?)?;
        }
    }
    Ok(store.segments_for(alloc, source(), destination(), NOW)?)
}

/// The ways out of all hops of an answer in their order, as digits to the base 31.
fn sum_of(list: &PathList) -> u64 {
    let mut sum = 0u64;
    for place in 0..list.len() {
        if let Some(path) = list.get(place) {
            for hop in path.walk() {
                sum = sum.wrapping_mul(31).wrapping_add(u64::from(hop.egress.0));
            }
        }
    }
    sum
}

/// Asks `count` times for at most `limit` paths, and sums the answers.
pub(crate) fn answers(alloc: Global, cores: u32, limit: usize, count: u32) -> Result<u64>
    requires { 0 < limit }
{
    let set = segments(alloc, cores)?;
    let policy: Policy<Global> = Policy::any();
    let options = [PolicyOption { policy, weight: 0 }];
    let mut sum = 0u64;
    for _ in 0..count {
        let list = combine(alloc, &set, source(), destination(), &options, limit)?;
        sum = sum.wrapping_add(sum_of(&list));
    }
    Ok(sum)
}
