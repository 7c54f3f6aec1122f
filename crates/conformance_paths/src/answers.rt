use bumpalo::Bump;
use combinator::{Path, PathList, combine, paths_with};
use isd_as::{IfId, IsdAs};
use path_header::{MAX_HEADER_LEN, encode};
use path_segment::{Entry, SegKind, Segment};
use path_server::{PathStore, SegmentSet};
use policy_expr::{AclText, OptionText, PolicyOption};
use std::alloc::{AllocError, Global};
use std::slice;
use std::test::Fail;
use worked::{at, hop, option_text, policy};

/// An entry: its AS, its ways in and out, and the digits of its authenticator.
type Row = (IsdAs, u16, u16, u64);

/// The segment of these entries, each with the expiry 63.
fn segment(
    alloc: Global,
    kind: SegKind,
    timestamp: u32,
    beta0: u16,
    rows: &[Row],
) -> Result<Segment, Fail> {
    let mut entries = Vec::new(alloc);
    for (ia, cons_ingress, cons_egress, digits) in rows {
        let [_, _, a, b, c, d, e, f] = digits.to_be_bytes();
        entries.push(Entry {
            ia: *ia,
            cons_ingress: IfId(*cons_ingress),
            cons_egress: IfId(*cons_egress),
            exp_time: 63,
            mac: [a, b, c, d, e, f],
        })?;
    }
    Ok(Segment::new(kind, timestamp, beta0, entries)?)
}

/// The lookup for two ends in a store of copies of these segments, registered one after another.
fn set_of(
    alloc: Global,
    segments: &[Segment],
    src: IsdAs,
    dst: IsdAs,
    now: u32,
) -> Result<SegmentSet, Fail> {
    let mut store = PathStore::new(alloc);
    for segment in segments {
        if store.register(segment.try_clone()?, now).is_err() {
            return Err(Fail::new("the segment is not taken in"));
        }
    }
    Ok(store.segments_for(alloc, src, dst, now)?)
}

/// The header of a path in hexadecimal digits.
fn digits_of(alloc: Global, path: &Path) -> Result<String, Fail> {
    let mut room = [0; MAX_HEADER_LEN];
    let len = encode(path.header(), &mut room)?;
    Ok(hex::encode(alloc, &room[..len])?)
}

/// The header of the only path of an answer, in digits, taken from copies of the answer and of the
/// path.
fn header_of_one(alloc: Global, list: &PathList) -> Result<String, Fail> {
    let copy = list.try_clone(alloc)?;
    if copy.is_empty() {
        return Err(Fail::new("no path"));
    }
    if copy.len() != 1 {
        return Err(Fail::new("another number of paths"));
    }
    let Some(path) = copy.get(0) else {
        return Err(Fail::new("no path"));
    };
    digits_of(alloc, &path.try_clone(alloc)?)
}

/// The header of the only path over these segments, without a policy.
fn only_header(
    alloc: Global,
    segments: &[Segment],
    src: IsdAs,
    dst: IsdAs,
    now: u32,
) -> Result<String, Fail> {
    let set = set_of(alloc, segments, src, dst, now)?;
    let policy = policy(alloc, &[], "")?;
    let options = [PolicyOption { policy, weight: 0 }];
    let list = combine(alloc, &set, src, dst, &options, 8)?;
    header_of_one(alloc, &list)
}

/// The worked segment of two ASes, made at a second with a first accumulator.
fn two_ases(alloc: Global, timestamp: u32, beta0: u16) -> Result<Segment, Fail> {
    let rows = [
        (at(1, 0x110), 0, 1, 0xa1a2_a3a4_a5a6),
        (at(1, 0x111), 2, 0, 0xb1b2_b3b4_b5b6),
    ];
    segment(alloc, SegKind::Intra, timestamp, beta0, &rows)
}

/// Two segments of the worked walk, made at these seconds with these first accumulators.
fn twice(alloc: Global, first: (u32, u16), second: (u32, u16)) -> Result<Vec<Segment>, Fail> {
    Ok(vec![in alloc;
        two_ases(alloc, first.0, first.1)?,
        two_ases(alloc, second.0, second.1)?,
    ]?)
}

/// Of two segments of one walk, the later one gives the path; if both expire at the same time, the
/// one with smaller header bytes, in either order of registration.
#[test]
fn one_segment_gives_the_header_of_a_walk(rt: HostRuntime) -> Result<(), Fail> {
    let rows = [
        ((100, 4660), (100, 4660), "00000064"),
        ((100, 4660), (200, 4660), "000000c8"),
        ((200, 4660), (100, 4660), "000000c8"),
        ((100, 4660), (100, 4661), "00000064"),
        ((100, 4661), (100, 4660), "00000064"),
    ];
    for (first, second, timestamp) in rows {
        let segments = twice(rt.alloc(), first, second)?;
        let header = only_header(rt.alloc(), &segments, at(1, 0x111), at(1, 0x110), 100)?;
        let wanted = format!(in rt.alloc();
            "000020000000b396{timestamp}003f00020000b1b2b3b4b5b6003f00000001a1a2a3a4a5a6"
        )?;
        assert_eq!(rt; header.as_str(), wanted.as_str());
    }
    Ok(())
}

/// The segment of three ASes in a row, with the keys `a0`, `a1` and `a2`.
fn three_ases(alloc: Global) -> Result<Segment, Fail> {
    let rows = [
        (at(1, 0x110), 0, 1, 0xaef5_22c4_1890),
        (at(1, 0x111), 1, 2, 0x39b9_48f8_a321),
        (at(1, 0x112), 1, 0, 0xad8a_52e6_ab61),
    ];
    segment(alloc, SegKind::Intra, 1000, 4660, &rows)
}

/// The list that denies the AS in the middle.
fn without_the_middle(alloc: Global) -> Result<AclText, AllocError> {
    let mut acl = AclText::new(alloc);
    acl.push(alloc, "- 1-ff00:0:111")?;
    acl.push(alloc, "+")?;
    Ok(acl)
}

/// The answer over the three ASes in a row, under these options.
pub(crate) fn combine_in_a_row(alloc: Global, texts: &[OptionText<'_>]) -> Result<PathList, Fail> {
    let (src, dst) = (at(1, 0x112), at(1, 0x110));
    let segment = three_ases(alloc)?;
    let set = set_of(alloc, slice::from_ref(&segment), src, dst, 1000)?;
    combine_in_arena(alloc, &set, src, dst, texts)
}

/// The answer stays when the arena of the options is gone.
#[test]
fn an_option_that_leaves_no_path_gives_way_to_a_lighter_one(rt: HostRuntime) -> Result<(), Fail> {
    let acl = without_the_middle(rt.alloc())?;
    let texts = [option_text(None, None, 1), option_text(Some(&acl), None, 5)];
    let list = combine_in_a_row(rt.alloc(), &texts)?;
    assert_eq!(rt; list.option(), Some(0));
    assert_eq!(rt; list.len(), 1);
    let walk = [
        hop(at(1, 0x112), 0, 1),
        hop(at(1, 0x111), 2, 1),
        hop(at(1, 0x110), 1, 0),
    ];
    assert!(rt;
        list.get(0)
            .is_some_and(|path| path.walk() == walk.as_slice())
    );
    Ok(())
}

/// The answer under options that are read into an arena and dropped with it; it equals the one that
/// borrows its segments.
fn combine_in_arena(
    alloc: Global,
    set: &SegmentSet,
    src: IsdAs,
    dst: IsdAs,
    texts: &[OptionText<'_>],
) -> Result<PathList, Fail> {
    let arena = Bump::new(alloc);
    let options = PolicyOption::parse_all(&arena, texts)?;
    let list = combine(alloc, set, src, dst, &options, 4)?;
    let choice = paths_with(alloc, set, src, dst, &options, 4)?;
    if choice.option() == list.option() && choice.paths().len() == list.len() {
        Ok(list)
    } else {
        Err(Fail::new("the lent answer is another one"))
    }
}
