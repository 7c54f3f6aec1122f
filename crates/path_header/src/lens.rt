ghost use Rattle.std.specs.Prelude.{◌≡◌, ◌≤◌, ◌<◌, OnOk};
ghost use Rattle.path_header.specs.Value.{info_count, hop_count, len_for, segment_at, AreLens, IsInSegment};
ghost use Rattle.path_header.specs.Building.{checked_lens};
ghost use Rattle.path_header.specs.Reversal.{reversed_lens};

use crate::fault::HeaderFault;

/// The length of a meta field in bytes.
pub const META_LEN: usize = 4;

/// The length of an info field in bytes.
pub const INFO_LEN: usize = 8;

/// The length of a hop field in bytes.
pub const HOP_LEN: usize = 12;

/// The largest number of hop fields of a path.
pub const MAX_HOPS: usize = 64;

/// The largest length of a segment, which has six bits.
pub const MAX_SEGMENT_HOPS: u8 = 63;

/// The number of hop fields in each of the up to three segments of a path; 0 means no segment.
#[derive(Clone, Copy, Debug, PartialEq, Eq)]
pub struct SegLens {
    /// The number of hop fields of the first segment.
    pub first: u8,
    /// The number of hop fields of the second segment.
    pub second: u8,
    /// The number of hop fields of the third segment.
    pub third: u8,
}

impl SegLens {
    /// The number of segments, and so of info fields: the number of lengths that are not 0.
    pub fn info_count(self) -> usize
        ensures value { result ≡ info_count self }
        ensures bound { result ≤ 3 }
    {
        usize::from(self.first.min(1))
            + usize::from(self.second.min(1))
            + usize::from(self.third.min(1))
    }

    /// The number of hop fields: the sum of the lengths.
    pub fn hop_count(self) -> usize
        ensures value { result ≡ hop_count self }
        ensures bound { result < 766 }
    {
        usize::from(self.first) + usize::from(self.second) + usize::from(self.third)
    }

    /// The index of the segment to which this hop field belongs.
    pub fn segment_of(self, hop: usize) -> usize
        requires { hop < hop_count self }
        ensures value { result ≡ segment_at self hop }
        ensures segment { IsInSegment self hop result }
        ensures below { AreLens self → result < info_count self }
    {
        let first = usize::from(self.first);
        if hop < first {
            0
        } else if hop < first + usize::from(self.second) {
            1
        } else {
            2
        }
    }

    /// The length in bytes of a header with these lengths.
    pub(crate) fn encoded_len(self) -> usize
        ensures { result ≡ len_for self }
    {
        META_LEN + INFO_LEN * self.info_count() + HOP_LEN * self.hop_count()
    }

    /// These lengths, or why no path header may have them.
    pub(crate) fn checked(self) -> Result<SegLens, HeaderFault>
        ensures exact { result ≡ checked_lens self }
        ensures valid { OnOk result (AreLens self) }
    {
        let has_gap = self.first == 0 || (self.second == 0 && self.third > 0);
        let is_wide = self.first > MAX_SEGMENT_HOPS
            || self.second > MAX_SEGMENT_HOPS
            || self.third > MAX_SEGMENT_HOPS;
        if has_gap || is_wide {
            return Err(HeaderFault::SegLens);
        }
        if self.hop_count() > MAX_HOPS {
            return Err(HeaderFault::TooManyHops);
        }
        Ok(self)
    }

    /// The lengths with the segments in reverse order.
    pub(crate) fn reversed(self) -> SegLens
        requires { AreLens self }
        ensures value { result ≡ reversed_lens self }
        ensures valid { AreLens result }
        ensures infos { info_count result ≡ info_count self }
        ensures hops { hop_count result ≡ hop_count self }
    {
        if self.second == 0 {
            self
        } else if self.third == 0 {
            SegLens {
                first: self.second,
                second: self.first,
                third: 0,
            }
        } else {
            SegLens {
                first: self.third,
                second: self.second,
                third: self.first,
            }
        }
    }
}
