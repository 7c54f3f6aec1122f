#![tactic(auto, unfolding(crate::specs::Index::rank_between))]

ghost use Rattle.std.specs.Prelude.{◌≡◌, ◌^◌, ◌<◌, nat_lt};
ghost use Rattle.std.specs.Ordering.{nat_cmp};
ghost use Rattle.path_server.specs.Index.{rank_between, rank, rank_at, order_at, HasAddresses};
ghost use Rattle.path_server.specs.inner.Index.{ends_number};

use path_segment::{SegKind, Segment};
use std::cmp::Ordering;

/// The ends of segments as an index orders them: by kind, core segments first, then by the last AS,
/// then by the first AS.
#[derive(Clone, Copy)]
pub(crate) struct Ends {
    kind: SegKind,
    ases: u128,
}

impl Ends {
    /// The ends of the segments of a kind from one AS to another; both ASes are given as numbers.
    pub(crate) fn new(kind: SegKind, first: u64, last: u64) -> Ends
        ensures { ends_number result ≡ rank_between kind first last }
    {
        let ases = u128::from(last) * (1 << 64) + u128::from(first);
        Ends { kind, ases }
    }

    /// The ends of a segment.
    pub(crate) fn of(segment: &Segment) -> Ends
        ensures number { ends_number result ≡ rank segment.now }
        ensures addresses { HasAddresses segment.now }
    {
        let (first, last) = (segment.first_as().number(), segment.last_as().number());
        Ends::new(segment.kind(), first, last)
    }

    /// The ends of the segment at a place, or the least ends if there is no such segment.
    fn at(segments: &[Segment], place: usize) -> Ends
        ensures { ends_number result ≡ rank_at segments.now place }
    {
        match segments.get(place) {
            Some(segment) => Ends::of(segment),
            None => Ends {
                kind: SegKind::Core,
                ases: 0,
            },
        }
    }

    /// Whether these ends come before the others.
    fn is_below(self, others: Ends) -> bool
        ensures { result ≡ nat_lt (ends_number self) (ends_number others) }
    {
        match (self.kind, others.kind) {
            (SegKind::Core, SegKind::Intra) => true,
            (SegKind::Intra, SegKind::Core) => false,
            _ => self.ases < others.ases,
        }
    }
}

/// Whether the segment at a place has ends below these.
pub(crate) fn is_below(segments: &[Segment], place: usize, ends: Ends) -> bool
    ensures { result ≡ nat_lt (rank_at segments.now place) (ends_number ends) }
{
    Ends::at(segments, place).is_below(ends)
}

/// Whether the segment at a place has ends above these.
pub(crate) fn is_above(segments: &[Segment], place: usize, ends: Ends) -> bool
    ensures { result ≡ nat_lt (ends_number ends) (rank_at segments.now place) }
{
    ends.is_below(Ends::at(segments, place))
}

/// The order of two places: by the ends of their segments, and then by registration.
pub(crate) fn in_order(segments: &[Segment], place: usize, other: usize) -> Ordering
    ensures { result ≡ nat_cmp (order_at segments.now place) (order_at segments.now other) }
{
    let (ends, others) = (Ends::at(segments, place), Ends::at(segments, other));
    if ends.is_below(others) {
        Ordering::Less
    } else if others.is_below(ends) {
        Ordering::Greater
    } else {
        place.cmp(&other)
    }
}
