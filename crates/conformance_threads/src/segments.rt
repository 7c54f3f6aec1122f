//! The segments that these tests publish, and the paths over them.

use combinator::{Path, PathList};
use isd_as::IsdAs;
use path_header::encode;
use path_segment::{Entry, SegKind, Segment};
use path_server::SegmentSet;
use policy_expr::WalkHop;
use std::alloc::Global;
use worked::{entry, hop};

/// The second at which the worked segment was made.
pub(crate) const EARLY: u32 = 100;

/// The second at which the later segment was made.
pub(crate) const LATE: u32 = 200;

/// A second at which the worked segment has expired, and the later one has not.
pub(crate) const AFTER_EARLY: u32 = 21_701;

/// An AS of ISD 1: `110` stands for `1-ff00:0:110`.
pub(crate) fn ia(number: u64) -> IsdAs {
    IsdAs::from_number(0x0001_ff00_0000_0000 | number)
}

/// The entries of the worked segment.
fn entries() -> [Entry; 2] {
    [
        entry(ia(0x110), 0, 1, [0xa1, 0xa2, 0xa3, 0xa4, 0xa5, 0xa6]),
        entry(ia(0x111), 2, 0, [0xb1, 0xb2, 0xb3, 0xb4, 0xb5, 0xb6]),
    ]
}

/// The worked segment, from 1-ff00:0:110 down to 1-ff00:0:111, as if made at this second.
pub(crate) fn worked(alloc: Global, timestamp: u32) -> Option<Segment> {
    let entries = Vec::from_array(alloc, entries()).ok()?;
    Segment::new(SegKind::Intra, timestamp, 4660, entries).ok()
}

/// The result of a lookup between the ends of the worked segment.
#[derive(Clone, Copy, Debug, PartialEq, Eq)]
pub(crate) enum Finding {
    Nothing,
    /// The worked segment, made at this second, and no other.
    Worked(u32),
    Other,
}

/// The finding of a lookup's set.
pub(crate) fn finding_in(set: &SegmentSet) -> Finding {
    if !set.cores().is_empty() || !set.downs().is_empty() {
        return Finding::Other;
    }
    match set.ups() {
        [] => Finding::Nothing,
        [up] if is_worked(up) => Finding::Worked(up.timestamp()),
        _ => Finding::Other,
    }
}

/// Whether it is the worked segment, whenever it was made.
fn is_worked(segment: &Segment) -> bool {
    segment.kind() == SegKind::Intra
        && segment.beta0() == 4660
        && segment.entries() == entries().as_slice()
}

/// The answer between the ends of the worked segment.
#[derive(Clone, Copy, Debug, PartialEq, Eq)]
pub(crate) enum Answer {
    Nothing,
    /// Only the path up the worked segment.
    Up,
    /// Only the path down the worked segment.
    Down,
    Other,
}

/// The header of the path up.
const UP: [u8; 36] = [
    0x00, 0x00, 0x20, 0x00, 0x00, 0x00, 0xb3, 0x96, 0x00, 0x00, 0x00, 0x64, 0x00, 0x3f, 0x00, 0x02,
    0x00, 0x00, 0xb1, 0xb2, 0xb3, 0xb4, 0xb5, 0xb6, 0x00, 0x3f, 0x00, 0x00, 0x00, 0x01, 0xa1, 0xa2,
    0xa3, 0xa4, 0xa5, 0xa6,
];

/// The header of the path down: in construction direction, with the accumulator 1234.
const DOWN: [u8; 36] = [
    0x00, 0x00, 0x20, 0x00, 0x01, 0x00, 0x12, 0x34, 0x00, 0x00, 0x00, 0x64, 0x00, 0x3f, 0x00, 0x00,
    0x00, 0x01, 0xa1, 0xa2, 0xa3, 0xa4, 0xa5, 0xa6, 0x00, 0x3f, 0x00, 0x02, 0x00, 0x00, 0xb1, 0xb2,
    0xb3, 0xb4, 0xb5, 0xb6,
];

/// Whether a path has this walk, and a header of these bytes.
fn has(path: &Path, walk: [WalkHop; 2], header: &[u8; 36]) -> bool {
    let mut room = [0u8; 36];
    path.walk() == walk.as_slice() && encode(path.header(), &mut room) == Ok(36) && room == *header
}

/// Which paths these are.
pub(crate) fn answer_of(paths: &PathList) -> Answer {
    match paths.paths() {
        [] => Answer::Nothing,
        [path] if has(path, [hop(ia(0x111), 0, 2), hop(ia(0x110), 1, 0)], &UP) => Answer::Up,
        [path] if has(path, [hop(ia(0x110), 0, 1), hop(ia(0x111), 2, 0)], &DOWN) => Answer::Down,
        _ => Answer::Other,
    }
}
