use crate::segments::{first_entry, last_entry};
use isd_as::{IfId, IsdAs};
use path_segment::{Entry, SegKind, Segment};
use path_server::{PathStore, StoreFault, StoreOp};
use refusal::OrMemory;
use std::alloc::{AllocError, Global};
use std::process::Abort;
use std::test::Fail;

/// An AS of ISD 1: `110` stands for `1-ff00:0:110`.
fn ia(number: u64) -> IsdAs {
    IsdAs::from_number(0x0001_ff00_0000_0000 | number)
}

/// A segment of two ASes, made at the second 100.
fn segment(
    alloc: Global,
    kind: SegKind,
    beta0: u16,
    first: IsdAs,
    last: IsdAs,
) -> Result<Segment, Fail> {
    let entries = vec![in alloc;
        Entry {
            ia: first,
            ..first_entry()
        },
        Entry {
            ia: last,
            ..last_entry()
        },
    ]?;
    Ok(Segment::new(kind, 100, beta0, entries)?)
}

/// The worked segment, from 1-ff00:0:110 down to 1-ff00:0:111, with another first accumulator.
pub(crate) fn worked(alloc: Global, beta0: u16) -> Result<Segment, Fail> {
    segment(alloc, SegKind::Intra, beta0, ia(0x110), ia(0x111))
}

/// What comes of registering a copy of a segment: whether it is new, or the refusal, with which the
/// copy has to be handed back.
pub(crate) fn register_copy(
    store: &mut PathStore,
    segment: &Segment,
    now: u32,
) -> Result<Result<bool, StoreFault>, Fail> {
    match store.register(segment.try_clone()?, now) {
        Ok(is_new) => Ok(Ok(is_new)),
        Err((_, OrMemory::Memory)) => Err(Fail::from(AllocError)),
        Err((back, OrMemory::Refused(fault))) if back.is_same(segment) => Ok(Err(fault)),
        Err(_) => Err(Fail::from("another segment was handed back")),
    }
}

/// Whether these are the same segments in the same order.
pub(crate) fn are_same(segments: &[Segment], others: &[&Segment]) -> bool {
    segments.len() == others.len()
        && segments
            .iter()
            .zip(others)
            .all(|(segment, other)| segment.is_same(other))
}

/// Whether a lookup between these ASes at a second finds these segments up and down, and no core
/// segment.
fn looks_up(
    alloc: Global,
    store: &PathStore,
    ends: (u64, u64),
    now: u32,
    ups: &[&Segment],
    downs: &[&Segment],
) -> Result<bool, AllocError> {
    let set = store.segments_for(alloc, ia(ends.0), ia(ends.1), now)?;
    let is_told = set.cores().is_empty() && set.now() == now;
    Ok(is_told && are_same(set.ups(), ups) && are_same(set.downs(), downs))
}

/// Whether a copy of a lookup from the worked segment's last AS has that segment.
fn copies(alloc: Global, store: &PathStore, worked: &Segment) -> Result<bool, AllocError> {
    let set = store.segments_for(alloc, ia(0x111), ia(0x110), 100)?;
    let copy = set.try_clone(alloc)?;
    Ok(are_same(copy.ups(), &[worked]) && copy.now() == 100)
}

/// Asserts that a segment is stored once, known the second time and refused when it has expired.
fn expect_stored(
    rt: &impl Abort,
    alloc: Global,
    store: &mut PathStore,
    segment: &Segment,
) -> Result<(), Fail> {
    assert!(rt; store.is_empty());
    assert_eq!(rt; register_copy(store, segment, 100)?, Ok(true));
    assert_eq!(rt; register_copy(store, segment, 100)?, Ok(false));
    assert_eq!(rt;
        register_copy(store, segment, 21_701)?,
        Err(StoreFault::Expired)
    );
    assert!(rt; store.len() == 1);
    assert!(rt; are_same(store.segments(), &[segment]));
    assert!(rt; copies(alloc, store, segment)?);
    Ok(())
}

/// Asserts that the worked segment is found from both its ends up to its last second.
fn expect_found(
    rt: &impl Abort,
    alloc: Global,
    store: &PathStore,
    segment: &Segment,
) -> Result<(), Fail> {
    assert!(rt; looks_up(alloc, store, (0x111, 0x110), 100, &[segment], &[])?);
    assert!(rt; looks_up(alloc, store, (0x110, 0x111), 21_700, &[], &[segment])?);
    assert!(rt; looks_up(alloc, store, (0x111, 0x110), 21_701, &[], &[])?);
    Ok(())
}

/// Asserts that the worked segment is swept after it has expired.
fn expect_swept(rt: &impl Abort, store: &mut PathStore) {
    assert_eq!(rt; store.sweep(21_700), 0);
    assert_eq!(rt; store.sweep(21_701), 1);
    assert_eq!(rt; store.sweep(21_701), 0);
    assert!(rt; store.is_empty());
}

/// It is found from its ends up to its last second, and swept after that.
#[test]
fn a_segment_is_stored_once(rt: HostRuntime) -> Result<(), Fail> {
    let alloc = rt.alloc();
    let segment = worked(alloc, 4660)?;
    let mut store = PathStore::new(alloc);
    expect_stored(&rt, alloc, &mut store, &segment)?;
    expect_found(&rt, alloc, &store, &segment)?;
    expect_swept(&rt, &mut store);
    Ok(())
}

/// A store of the worked segment with the first accumulators 1 to `count`.
fn store_of(alloc: Global, count: u16) -> Result<PathStore, Fail> {
    let mut store = PathStore::new(alloc);
    for beta0 in 1..=count {
        register_copy(&mut store, &worked(alloc, beta0)?, 100)??;
    }
    Ok(store)
}

/// Segments that are registered after 32 worked ones: kind, first accumulator, ends and second, and
/// what comes of it.
static FURTHER: [(SegKind, u16, u64, u64, u32, Result<bool, StoreFault>); 6] = [
    (SegKind::Intra, 33, 0x110, 0x111, 100, Err(StoreFault::Full)),
    (SegKind::Intra, 32, 0x110, 0x111, 100, Ok(false)),
    (
        SegKind::Intra,
        33,
        0x110,
        0x111,
        21_701,
        Err(StoreFault::Expired),
    ),
    (SegKind::Core, 33, 0x110, 0x111, 100, Ok(true)),
    (SegKind::Intra, 33, 0x110, 0x112, 100, Ok(true)),
    (SegKind::Intra, 33, 0x112, 0x111, 100, Ok(true)),
];

/// There may be more of another kind or between other ASes.
#[test]
fn at_most_32_segments_of_one_kind_and_ends_are_stored(rt: HostRuntime) -> Result<(), Fail> {
    let alloc = rt.alloc();
    let mut store = store_of(alloc, 32)?;
    assert_eq!(rt; store.len(), 32);
    for (kind, beta0, first, last, now, answer) in &FURTHER {
        let one = segment(alloc, *kind, *beta0, ia(*first), ia(*last))?;
        assert_eq!(rt; register_copy(&mut store, &one, *now)?, *answer);
    }
    Ok(())
}

/// A segment from 1-ff00:0:110 over 1-ff00:0:111 to a child of that AS, made at second 1000.
fn half(alloc: Global, egress: u16, last: u64) -> Result<Segment, Fail> {
    let middle = Entry {
        cons_egress: IfId(egress),
        ..last_entry()
    };
    let last = Entry {
        ia: ia(last),
        ..last_entry()
    };
    let entries = vec![in alloc; first_entry(), middle, last]?;
    Ok(Segment::new(SegKind::Intra, 1000, 7, entries)?)
}

/// Whether a lookup at second 1000 between the two children finds just these two.
fn finds(
    alloc: Global,
    store: &PathStore,
    left: &Segment,
    right: &Segment,
) -> Result<bool, AllocError> {
    let is_there = looks_up(alloc, store, (0x112, 0x113), 1000, &[left], &[right])?;
    Ok(is_there && looks_up(alloc, store, (0x113, 0x112), 1000, &[right], &[left])?)
}

/// Asserts that 32 worked segments are stored, and no further one.
fn expect_full(rt: &impl Abort, alloc: Global, store: &mut PathStore) -> Result<(), Fail> {
    for beta0 in 1..=32 {
        let one = worked(alloc, beta0)?;
        assert_eq!(rt; register_copy(store, &one, 100)?, Ok(true));
    }
    let one = worked(alloc, 33)?;
    assert_eq!(rt; register_copy(store, &one, 100)?, Err(StoreFault::Full));
    Ok(())
}

/// Whether a lookup finds the worked segments up, in their order, and this one down.
fn finds_worked(alloc: Global, store: &PathStore, down: &Segment) -> Result<bool, AllocError> {
    let set = store.segments_for(alloc, ia(0x111), ia(0x112), 1000)?;
    let mut ups = set.ups().iter().zip(1..);
    let are_in_order = ups.all(|(up, beta0)| up.beta0() == beta0);
    Ok(are_in_order && set.ups().len() == 32 && are_same(set.downs(), &[down]))
}

/// Asserts that both are stored next to the 32 worked segments, found, and kept when those are
/// swept.
fn expect_two(
    rt: &impl Abort,
    alloc: Global,
    store: &mut PathStore,
    left: &Segment,
    right: &Segment,
) -> Result<(), Fail> {
    assert_eq!(rt; register_copy(store, left, 1000)?, Ok(true));
    assert_eq!(rt; register_copy(store, right, 1000)?, Ok(true));
    assert!(rt; finds(alloc, store, left, right)?);
    assert_eq!(rt; store.sweep(21_701), 32);
    assert!(rt; are_same(store.segments(), &[left, right]));
    assert!(rt; finds(alloc, store, left, right)?);
    Ok(())
}

/// A sweep that removes 32 segments leaves a shortcut's two, and lookups find them, also after
/// further segments were stored.
#[test]
fn a_sweep_leaves_what_is_live(rt: HostRuntime) -> Result<(), Fail> {
    let alloc = rt.alloc();
    let mut store = store_of(alloc, 32)?;
    let left = half(alloc, 2, 0x112)?;
    let right = half(alloc, 3, 0x113)?;
    expect_two(&rt, alloc, &mut store, &left, &right)?;
    expect_full(&rt, alloc, &mut store)?;
    assert!(rt; store.len() == 34);
    assert!(rt; finds(alloc, &store, &left, &right)?);
    assert!(rt; finds_worked(alloc, &store, &left)?);
    Ok(())
}

/// A new segment, the same again, one that has expired, and a sweep before and after its last
/// second.
#[test]
fn operations_are_applied_in_their_order(rt: HostRuntime) -> Result<(), Fail> {
    let alloc = rt.alloc();
    let mut store = PathStore::new(alloc);
    let s = worked(alloc, 4660)?;
    let rows = [
        (StoreOp::Register(worked(alloc, 4660)?, 100), 1),
        (StoreOp::Register(worked(alloc, 4660)?, 100), 1),
        (StoreOp::Register(worked(alloc, 4661)?, 21_701), 1),
        (StoreOp::Sweep(21_700), 1),
        (StoreOp::Sweep(21_701), 0),
    ];
    for (operation, len) in &rows {
        store.apply(operation)?;
        assert!(rt; store.len() == *len);
        assert!(rt; store.segments().iter().all(|one| one.is_same(&s)));
    }
    Ok(())
}

/// Core segments in both directions, one apart, and a segment down from each end.
fn core_store(alloc: Global) -> Result<PathStore, Fail> {
    let rows = [
        (SegKind::Core, 0x110, 0x120),
        (SegKind::Intra, 0x110, 0x111),
        (SegKind::Core, 0x110, 0x130),
        (SegKind::Core, 0x120, 0x110),
        (SegKind::Intra, 0x120, 0x121),
    ];
    let mut store = PathStore::new(alloc);
    for (kind, first, last) in rows {
        let one = segment(alloc, kind, 0, ia(first), ia(last))?;
        register_copy(&mut store, &one, 100)??;
    }
    Ok(store)
}

/// Between the ASes themselves, and between those in which their up and down segments begin.
#[test]
fn core_segments_are_found_from_either_end(rt: HostRuntime) -> Result<(), Fail> {
    let alloc = rt.alloc();
    let store = core_store(alloc)?;
    assert_eq!(rt; store.len(), 5);
    let (to, fro) = (&store.segments()[0], &store.segments()[3]);
    let ends = [
        (0x111, 0x121, 1, 1),
        (0x111, 0x120, 1, 0),
        (0x110, 0x121, 0, 1),
        (0x110, 0x120, 0, 0),
        (0x120, 0x110, 0, 0),
    ];
    for (src, dst, ups, downs) in ends {
        let set = store.segments_for(alloc, ia(src), ia(dst), 100)?;
        assert!(rt; are_same(set.cores(), &[to, fro]));
        assert!(rt; set.ups().len() == ups);
        assert!(rt; set.downs().len() == downs);
    }
    let none = store.segments_for(alloc, ia(0x111), ia(0x140), 100)?;
    assert!(rt; none.cores().is_empty());
    assert!(rt; none.downs().is_empty());
    Ok(())
}
