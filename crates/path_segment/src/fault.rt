ghost use Rattle.path_segment.specs.Fault as faults;

use refusal::{NumberedFault, OrMemory};
use thiserror::Error;

/// Why entries are no beacon or no segment, or why a text is no segment.
#[derive(Clone, Copy, Debug, PartialEq, Eq, Error)]
pub enum SegmentFault {
    /// A segment of fewer than 2 entries, or a beacon of none.
    #[error("a segment has at least 2 entries")]
    TooShort,
    /// A segment of more than 63 entries, or a beacon of more than 62.
    #[error("a segment has at most 63 entries")]
    TooLong,
    /// The first entry has a way in or a later one has none; the last entry of a segment has a way
    /// out, or another entry has none.
    #[error("an interface is 0 exactly where a segment begins or ends")]
    BadEnds,
    /// Two entries are of one AS.
    #[error("an AS stands in two entries")]
    Loop,
    /// The text is not JSON, or does not have the form of a segment.
    #[error("the text is not a segment in JSON")]
    NotJson,
}

impl NumberedFault for SegmentFault {
    ghost code_and_name = { faults.code_and_name };

    fn code_and_name(self) -> (u16, &'static str) {
        match self {
            Self::TooShort => (30, "TooShort"),
            Self::TooLong => (31, "TooLong"),
            Self::BadEnds => (32, "BadEnds"),
            Self::Loop => (33, "Loop"),
            Self::NotJson => (34, "NotJson"),
        }
    }
}

/// Why a call that takes memory returned no beacon or segment.
pub type SegmentError = OrMemory<SegmentFault>;
