//! When segments expire.

ghost use Rattle.path_segment.specs.Chain.{IsLeastExpiry};
ghost use Rattle.path_server.specs.Expiry.{IsEarliestExpiry};

use path_segment::Segment;

/// The earliest expiry of a segment's hops, in half seconds.
pub(crate) fn least_expiry(segment: &Segment) -> u64
    ensures { IsLeastExpiry segment.now.timestamp segment.now.entries result }
{
    let last = segment.entries().len() - 1;
    segment.least_expiry(0, last)
}

/// The earliest expiry of these segments' hops, in half seconds, or the largest number if there are
/// no segments.
pub(crate) fn least_expiry_of(segments: &[Segment]) -> u64
    ensures { IsEarliestExpiry segments.now result }
{
    let mut least = u64::MAX;
    for segment in segments {
        least = least.min(least_expiry(segment));
    }
    least
}
