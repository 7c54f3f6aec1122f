//! The index of a list of segments: their places, ordered by ends and then by registration.

ghost use Rattle.std.specs.Prelude.{◌≡◌, ◌≤◌, ◌<◌, ℕ, length, filter, vec_len, vec_capacity};
ghost use Rattle.std.specs.List.{AllWithin, insert};
ghost use Rattle.std.specs.List.Sorted.{IsNonDecreasingBy};
ghost use Rattle.path_server.specs.Index.{rank_at};
ghost use Rattle.path_server.specs.inner.Index.{ends_number, lies_between};

use crate::ends::{Ends, is_above, is_below};
use path_segment::Segment;

/// The places of the segments whose ends lie from `low` to `high`, both included.
pub(crate) fn range<'a>(
    segments: &[Segment],
    index: &'a [usize],
    low: Ends,
    high: Ends,
) -> &'a [usize]
    requires { IsNonDecreasingBy (rank_at segments.now) index.now }
    ensures part { result.now
        ≡ filter (lies_between segments.now (ends_number low) (ends_number high)) index.now }
    ensures ordered { IsNonDecreasingBy (rank_at segments.now) result.now }
{
    let (_, rest) = index.split_at(start_of(segments, index, low));
    &rest[..end_of(segments, rest, high)]
}

/// The number of places whose segments have ends below these.
fn start_of(segments: &[Segment], index: &[usize], ends: Ends) -> usize
    requires { IsNonDecreasingBy (rank_at segments.now) index.now }
    ensures within { result ≤ length index.now }
    ensures below { AllWithin (λ place. rank_at segments.now place < ends_number ends)
        index.now 0 result }
    ensures rest { AllWithin (λ place. ends_number ends ≤ rank_at segments.now place)
        index.now result (length index.now) }
{
    index.partition_point(|place| is_below(segments, *place, ends))
}

/// The number of places whose segments have these ends or ends below them. There is no search if
/// the first place is already above these ends.
pub(crate) fn end_of(segments: &[Segment], index: &[usize], ends: Ends) -> usize
    requires { IsNonDecreasingBy (rank_at segments.now) index.now }
    ensures within { result ≤ length index.now }
    ensures below { AllWithin (λ place. rank_at segments.now place ≤ ends_number ends)
        index.now 0 result }
    ensures rest { AllWithin (λ place. ends_number ends < rank_at segments.now place)
        index.now result (length index.now) }
{
    match index.first() {
        Some(place) if is_above(segments, *place, ends) => 0,
        _ => index.partition_point(|place| !is_above(segments, *place, ends)),
    }
}

/// Inserts a place into an index that has room for it.
///
/// The place is appended and rotated to where it belongs, so that the places behind it are moved at
/// once. `Vec::insert` moves them one by one.
pub(crate) fn insert_place(index: &mut Vec<usize>, at: usize, place: usize)
    requires within { at ≤ vec_len index.old }
    requires room { vec_len index.old < vec_capacity index.old }
    ensures { index.new.items ≡ insert index.old.items at place }
{
    let _ = index.push(place);
    index[at..].rotate_right(1);
}
