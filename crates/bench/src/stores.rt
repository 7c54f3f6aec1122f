//! Stores of many segments: making, registering and sweeping them, and lookups among them.

use anyhow::Result;
use isd_as::{IfId, IsdAs};
use path_segment::{Entry, SegKind, Segment};
use path_server::{PathStore, SegmentSet};
use std::alloc::Global;

/// The number of segments besides those that are looked up.
const OTHERS: u32 = 10_000;

/// The number of segments up, between core ASes, and down that are looked up.
const FOUND: u16 = 32;

/// The second at which all is made.
pub(crate) const NOW: u32 = 1000;

/// An AS of an ISD.
pub(crate) fn address(isd: u16, number: u32) -> IsdAs {
    IsdAs::from_number(u64::from(isd) << 48 | u64::from(number))
}

/// The interface of an AS for this address.
fn port(ia: IsdAs) -> IfId {
    IfId((ia.number() % 0x1_0000_0000_0000 % 60_000) as u16 + 1)
}

/// A segment over three ASes.
pub(crate) fn segment(
    alloc: Global,
    kind: SegKind,
    timestamp: u32,
    beta0: u16,
    ases: [IsdAs; 3],
) -> Result<Segment> {
    let [first, second, third] = ases;
    let ways = [
        (first, IfId(0), port(second)),
        (second, port(first), port(third)),
        (third, port(second), IfId(0)),
    ];
    let mut entries = Vec::with_capacity(alloc, 3)?;
    for (ia, cons_ingress, cons_egress) in ways.iter() {
        let [.., high, low] = ia.to_bytes();
        entries.push(Entry {
            ia: *ia,
            cons_ingress: *cons_ingress,
            cons_egress: *cons_egress,
            exp_time: 63,
            mac: [1, (beta0 % 256) as u8, high, low, 5, 6],
        })?;
    }
    Ok(Segment::new(kind, timestamp, beta0, entries)?)
}

/// The other segment of this number. Three of four are intra. They begin in fifty ASes, and eight
/// of them end in each of many.
fn other(alloc: Global, number: u32) -> Result<Segment> {
    let kind = if number % 4 == 3 {
        SegKind::Core
    } else {
        SegKind::Intra
    };
    let ases = [
        address(3, 10 + number % 50),
        address(3, 100_000u32.wrapping_add(number)),
        address(3, 10_000 + number / 8),
    ];
    segment(alloc, kind, NOW, (number % 65_536) as u16, ases)
}

/// Registers a segment, and returns the number of new ones.
fn put(store: &mut PathStore, segment: Segment) -> u64 {
    match store.register(segment, NOW) {
        Ok(true) => 1,
        _ => 0,
    }
}

/// Makes the other segments `count` times, and sums their seconds.
pub(crate) fn make(alloc: Global, count: u32) -> Result<u64> {
    let mut sum = 0u64;
    for _ in 0..count {
        for number in 0..OTHERS {
            sum = sum.wrapping_add(u64::from(other(alloc, number)?.timestamp()));
        }
    }
    Ok(sum)
}

/// Makes and registers the other segments `count` times, and counts those that are new.
pub(crate) fn register(alloc: Global, count: u32) -> Result<u64> {
    let mut sum = 0u64;
    for _ in 0..count {
        let mut store = PathStore::new(alloc);
        for number in 0..OTHERS {
            sum = sum.wrapping_add(put(&mut store, other(alloc, number)?));
        }
    }
    Ok(sum)
}

/// Sweeps a store of 20,000 live segments `count` times, and sums their numbers before and after.
pub(crate) fn sweep(alloc: Global, count: u32) -> Result<u64> {
    let mut store = PathStore::new(alloc);
    for number in 0..2 * OTHERS {
        put(&mut store, other(alloc, number)?);
    }
    let before = store.len() as u64;
    for _ in 0..count {
        store.sweep(NOW);
    }
    Ok(before.wrapping_add(store.len() as u64))
}

/// A store of the other segments, and of those that are looked up between two ASes.
fn store(alloc: Global, src: IsdAs, dst: IsdAs) -> Result<PathStore> {
    let mut store = PathStore::new(alloc);
    for number in 0..OTHERS {
        put(&mut store, other(alloc, number)?);
    }
    let (near, far) = (address(1, 1), address(2, 1));
    for beta0 in 0..FOUND {
        let number = u32::from(beta0);
        let rows = [
            (SegKind::Intra, [near, address(1, 1000 + number), src]),
            (SegKind::Core, [near, address(1, 2000 + number), far]),
            (SegKind::Intra, [far, address(2, 3000 + number), dst]),
        ];
        for (kind, ases) in rows {
            put(
                &mut store,
                segment(alloc, kind, NOW + number % 4, beta0, ases)?,
            );
        }
    }
    Ok(store)
}

/// The number of segments that a lookup found.
fn count_segments(set: &SegmentSet) -> u64 {
    (set.ups().len() as u64)
        .wrapping_add(set.cores().len() as u64)
        .wrapping_add(set.downs().len() as u64)
}

/// Looks up 32 segments up, 32 between core ASes and 32 down among the others, `count` times, and
/// counts those found.
pub(crate) fn look_up(alloc: Global, count: u32) -> Result<u64> {
    let (src, dst) = (address(1, 5000), address(2, 5000));
    let store = store(alloc, src, dst)?;
    let mut sum = 0u64;
    for turn in 0..count {
        let set = store.segments_for(alloc, src, dst, NOW + turn % 2)?;
        sum = sum.wrapping_add(count_segments(&set));
    }
    Ok(sum)
}

/// Copies what such a lookup finds `count` times, and counts the copies. A lookup returns copies,
/// so this is its work without the search.
pub(crate) fn copy(alloc: Global, count: u32) -> Result<u64> {
    let (src, dst) = (address(1, 5000), address(2, 5000));
    let set = store(alloc, src, dst)?.segments_for(alloc, src, dst, NOW)?;
    let mut sum = 0u64;
    for _ in 0..count {
        sum = sum.wrapping_add(count_segments(&set.try_clone(alloc)?));
    }
    Ok(sum)
}
