//! The answer to a registration, from the segments of the same kind and ends.
#![tactic(auto, unfolding(crate::specs::Store::answer_to))]

ghost use Rattle.std.specs.Prelude.{◌≡◌, ◌<◌, ◌^◌, count_by, filter, length, is_none, IfSome};
ghost use Rattle.std.specs.List.{list_any};
ghost use Rattle.path_segment.specs.Tests.{is_same};
ghost use Rattle.std.specs.List.Sorted.{IsNonDecreasingBy};
ghost use Rattle.path_server.specs.Index.{IsIndex, rank_at};
ghost use Rattle.path_server.specs.inner.Index.{ends_number, lies_between, passes_at};
ghost use Rattle.path_server.specs.inner.Blocks.{joined, AreFilled};
ghost use Rattle.path_server.specs.Segment.{is_alike};
ghost use Rattle.path_server.specs.Store.{answer_to};

use crate::blocks::between;
use crate::ends::Ends;
use crate::fault::StoreFault;
use crate::index::range;
use path_segment::Segment;

/// The largest number of segments with the same kind, first AS and last AS.
pub const MAX_ALIKE: usize = 32;

/// The answer to a registration, before memory is requested.
pub(crate) fn answer_to(
    segments: &[Segment],
    blocks: &[Vec<usize>],
    segment: &Segment,
    now: u32,
) -> Result<bool, StoreFault>
    requires index { IsIndex segments.now (joined blocks.now) }
    requires filled { AreFilled blocks.now }
    ensures { result ≡ answer_to segments.now segment.now now }
{
    if !segment.is_live(now) {
        return Err(StoreFault::Expired);
    }
    match alike(segments, blocks, segment) {
        None => Ok(false),
        Some(count) if count >= MAX_ALIKE => Err(StoreFault::Full),
        Some(_) => Ok(true),
    }
}

/// The number of segments with this one's kind, first AS and last AS, or nothing if an equal one is
/// among them.
fn alike(segments: &[Segment], blocks: &[Vec<usize>], segment: &Segment) -> Option<usize>
    requires index { IsIndex segments.now (joined blocks.now) }
    requires filled { AreFilled blocks.now }
    ensures stored { is_none result ≡ list_any (is_same segment.now) segments.now }
    ensures count { IfSome result (λ count. count
        ≡ count_by (is_alike segment.now) segments.now) }
{
    alike_between(segments, blocks, Ends::of(segment), segment)
}

/// The number of places in these blocks whose segments have these ends, or nothing if an equal
/// segment is at one of them.
fn alike_between(
    segments: &[Segment],
    blocks: &[Vec<usize>],
    ends: Ends,
    segment: &Segment,
) -> Option<usize>
    requires rises { IsNonDecreasingBy (rank_at segments.now) (joined blocks.now) }
    requires filled { AreFilled blocks.now }
    requires few { length (joined blocks.now) < 2 ^ 64 }
    ensures stored { is_none result ≡ list_any (passes_at (is_same segment.now) segments.now)
        (filter (lies_between segments.now (ends_number ends) (ends_number ends))
        (joined blocks.now)) }
    ensures count { IfSome result (λ count. count ≡ length (filter (lies_between segments.now
        (ends_number ends) (ends_number ends)) (joined blocks.now))) }
{
    let some = between(segments, blocks, ends, ends);
    let mut count = 0;
    for block in some {
        let places = range(segments, block, ends, ends);
        if is_among(segments, places, segment) {
            return None;
        }
        count += places.len();
    }
    Some(count)
}

/// Whether an equal segment is at one of these places.
fn is_among(segments: &[Segment], places: &[usize], segment: &Segment) -> bool
    ensures { result ≡ list_any (passes_at (is_same segment.now) segments.now) places.now }
{
    places
        .iter()
        .any(|place| is_same_at(segments, *place, segment))
}

/// Whether an equal segment is at this place.
fn is_same_at(segments: &[Segment], place: usize, segment: &Segment) -> bool
    ensures { result ≡ passes_at (is_same segment.now) segments.now place }
{
    match segments.get(place) {
        Some(other) => segment.is_same(other),
        None => false,
    }
}
