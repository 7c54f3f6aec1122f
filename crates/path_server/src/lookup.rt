//! The segments that a lookup returns, found by the index, and copies of them.

ghost use Rattle.std.specs.Prelude.{◌≡◌, ◌++◌, ℕ, filter, IfOk, OnOk};
ghost use Rattle.std.specs.List.{flat_map};
ghost use Rattle.std.specs.List.Sorted.{IsNonDecreasingBy, IsStrictlyIncreasing};
ghost use Rattle.path_segment.specs.Tests.{is_live};
ghost use Rattle.path_server.specs.Index.{IsIndex, rank_at};
ghost use Rattle.path_server.specs.inner.Index.{ends_number, segments_at, passes_at, live_places, core_places, is_in};
ghost use Rattle.path_server.specs.inner.Blocks.{joined, AreFilled};
ghost use Rattle.path_server.specs.Lookup.{is_intra_to, is_reached, leads_between};

use crate::blocks::between;
use crate::ends::Ends;
use crate::index::range;
use isd_as::IsdAs;
use path_segment::{SegKind, Segment};
use std::alloc::{AllocError, Global};

/// How a look-up copies segments.
#[derive(Clone, Copy)]
pub(crate) enum Copying {
    /// Copies share the parts of the segments.
    Shared,
    /// Copies have parts of their own.
    Unshared,
}

/// Copies of these segments, which share their parts.
pub(crate) fn clone_segments(
    alloc: Global,
    segments: &[Segment],
) -> Result<Vec<Segment>, AllocError>
    ensures { IfOk result (λ copies. copies.items ≡ segments.now) }
{
    let mut copies = Vec::with_capacity(alloc, segments.len())?;
    for segment in segments {
        copies.push(segment.try_clone()?)?;
    }
    Ok(copies)
}

/// A copy of a segment.
fn copy_of(alloc: Global, segment: &Segment, copying: Copying) -> Result<Segment, AllocError>
    ensures { IfOk result (λ copy. copy ≡ segment.now) }
{
    match copying {
        Copying::Shared => segment.try_clone(),
        Copying::Unshared => segment.unshared_copy(alloc),
    }
}

/// Copies of the segments at these places.
pub(crate) fn copies_at(
    alloc: Global,
    segments: &[Segment],
    places: &[usize],
    copying: Copying,
) -> Result<Vec<Segment>, AllocError>
    ensures { IfOk result (λ copies. copies.items ≡ segments_at segments.now places.now) }
{
    let mut copies = Vec::with_capacity(alloc, places.len())?;
    for place in places {
        if let Some(segment) = segments.get(*place) {
            copies.push(copy_of(alloc, segment, copying)?)?;
        }
    }
    Ok(copies)
}

/// The places of the live intra segments that end in an AS, in order of registration.
pub(crate) fn places_ending_in(
    alloc: Global,
    segments: &[Segment],
    blocks: &[Vec<usize>],
    ia: IsdAs,
    now: u32,
) -> Result<Vec<usize>, AllocError>
    requires index { IsIndex segments.now (joined blocks.now) }
    requires filled { AreFilled blocks.now }
    ensures { IfOk result (λ places.
        segments_at segments.now places.items ≡ filter (is_intra_to ia now) segments.now) }
{
    let last = ia.number();
    let low = Ends::new(SegKind::Intra, 0, last);
    let high = Ends::new(SegKind::Intra, u64::MAX, last);
    let mut places = Vec::new(alloc);
    add_live_between(&mut places, segments, blocks, low, high, now)?;
    put_in_order(&mut places);
    Ok(places)
}

/// The numbers of the ASes on one side of a path: its end, and those in which its segments begin.
pub(crate) fn ases_reached(
    alloc: Global,
    ia: IsdAs,
    segments: &[Segment],
) -> Result<Vec<u64>, AllocError>
    ensures { IfOk result (λ ases. (other : ℕ) → is_in ases.items other
        ≡ is_reached ia segments.now other) }
{
    let mut ases = Vec::new(alloc);
    ases.push(ia.number())?;
    for segment in segments {
        let first = segment.first_as().number();
        if ases.last() != Some(&first) {
            ases.push(first)?;
        }
    }
    ases.sort_unstable();
    ases.dedup();
    Ok(ases)
}

/// The places of the live core segments between the ASes of one side and those of the other, in
/// either direction and in order of registration; the ASes are given as numbers.
pub(crate) fn core_places_between(
    alloc: Global,
    segments: &[Segment],
    blocks: &[Vec<usize>],
    near: &[u64],
    far: &[u64],
    now: u32,
) -> Result<Vec<usize>, AllocError>
    requires index { IsIndex segments.now (joined blocks.now) }
    requires filled { AreFilled blocks.now }
    ensures { IfOk result (λ places. segments_at segments.now places.items ≡
        filter (leads_between (is_in near.now) (is_in far.now) now) segments.now) }
{
    let mut places = Vec::new(alloc);
    add_between(&mut places, segments, blocks, near, far, now)?;
    add_between(&mut places, segments, blocks, far, near, now)?;
    put_in_order(&mut places);
    Ok(places)
}

/// Adds the places of the live core segments that begin in one of the first ASes and end in one of
/// the last.
fn add_between(
    places: &mut Vec<usize>,
    segments: &[Segment],
    blocks: &[Vec<usize>],
    firsts: &[u64],
    lasts: &[u64],
    now: u32,
) -> Result<(), AllocError>
    requires rises { IsNonDecreasingBy (rank_at segments.now) (joined blocks.now) }
    requires filled { AreFilled blocks.now }
    ensures { OnOk result (places.new.items ≡ places.old.items
        ++ flat_map (λ last. flat_map (core_places segments.now (joined blocks.now) now last)
        firsts.now)
        lasts.now) }
{
    for last in lasts {
        add_ending(places, segments, blocks, firsts, *last, now)?;
    }
    Ok(())
}

/// Adds the places of the live core segments that begin in one of the first ASes and end in the
/// last. Mostly those that end there are in one block, and only they are searched then.
fn add_ending(
    places: &mut Vec<usize>,
    segments: &[Segment],
    blocks: &[Vec<usize>],
    firsts: &[u64],
    last: u64,
    now: u32,
) -> Result<(), AllocError>
    requires rises { IsNonDecreasingBy (rank_at segments.now) (joined blocks.now) }
    requires filled { AreFilled blocks.now }
    ensures { OnOk result (places.new.items ≡ places.old.items
        ++ flat_map (core_places segments.now (joined blocks.now) now last) firsts.now) }
{
    let low = Ends::new(SegKind::Core, 0, last);
    let high = Ends::new(SegKind::Core, u64::MAX, last);
    match between(segments, blocks, low, high) {
        [block] => {
            let same_end = range(segments, block, low, high);
            add_among(places, segments, same_end, firsts, last, now)
        }
        some => add_from(places, segments, some, firsts, last, now),
    }
}

/// Adds those of these places whose segments are live core segments that begin in one of the first
/// ASes and end in the last.
fn add_among(
    places: &mut Vec<usize>,
    segments: &[Segment],
    some: &[usize],
    firsts: &[u64],
    last: u64,
    now: u32,
) -> Result<(), AllocError>
    requires { IsNonDecreasingBy (rank_at segments.now) some.now }
    ensures { OnOk result (places.new.items
        ≡ places.old.items ++ flat_map (core_places segments.now some.now now last) firsts.now) }
{
    if some.is_empty() {
        return Ok(());
    }
    for first in firsts {
        let ends = Ends::new(SegKind::Core, *first, last);
        add_live(places, segments, range(segments, some, ends, ends), now)?;
    }
    Ok(())
}

/// Adds the places in these blocks whose segments are live core segments that begin in one of the
/// first ASes and end in the last.
fn add_from(
    places: &mut Vec<usize>,
    segments: &[Segment],
    some: &[Vec<usize>],
    firsts: &[u64],
    last: u64,
    now: u32,
) -> Result<(), AllocError>
    requires rises { IsNonDecreasingBy (rank_at segments.now) (joined some.now) }
    requires filled { AreFilled some.now }
    ensures { OnOk result (places.new.items ≡ places.old.items
        ++ flat_map (core_places segments.now (joined some.now) now last) firsts.now) }
{
    for first in firsts {
        let ends = Ends::new(SegKind::Core, *first, last);
        add_live_between(places, segments, some, ends, ends, now)?;
    }
    Ok(())
}

/// Adds the places in these blocks whose segments are live and have ends from `low` to `high`.
fn add_live_between(
    places: &mut Vec<usize>,
    segments: &[Segment],
    blocks: &[Vec<usize>],
    low: Ends,
    high: Ends,
    now: u32,
) -> Result<(), AllocError>
    requires rises { IsNonDecreasingBy (rank_at segments.now) (joined blocks.now) }
    requires filled { AreFilled blocks.now }
    ensures { OnOk result (places.new.items ≡ places.old.items
        ++ live_places segments.now (joined blocks.now) now (ends_number low) (ends_number high)) }
{
    let some = between(segments, blocks, low, high);
    for block in some {
        add_live(places, segments, range(segments, block, low, high), now)?;
    }
    Ok(())
}

/// Adds the places among these whose segments are live.
fn add_live(
    places: &mut Vec<usize>,
    segments: &[Segment],
    some: &[usize],
    now: u32,
) -> Result<(), AllocError>
    ensures { OnOk result (places.new.items ≡
        places.old.items ++ filter (passes_at (is_live now) segments.now) some.now) }
{
    places.try_reserve(some.len())?;
    for place in some {
        if is_live_at(segments, *place, now) {
            places.push(*place)?;
        }
    }
    Ok(())
}

/// Whether there is a live segment at a place.
pub(crate) fn is_live_at(segments: &[Segment], place: usize, now: u32) -> bool
    ensures { result ≡ passes_at (is_live now) segments.now place }
{
    match segments.get(place) {
        Some(segment) => segment.is_live(now),
        None => false,
    }
}

/// Puts places into the order of registration, without duplicates. Those of segments with the same
/// ends are in that order already.
fn put_in_order(places: &mut Vec<usize>)
    ensures rises { IsStrictlyIncreasing places.new.items }
    ensures same { (place : ℕ) → is_in places.new.items place ≡ is_in places.old.items place }
{
    if !places.is_sorted_by(|place, next| place < next) {
        places.sort_unstable();
        places.dedup();
    }
}
