//! Boards with many segments that are published often, and a daemon over several segments. Nothing
//! is refused here, so that no call may run out of memory.

ghost use Rattle.std.specs.Prelude.{◌≡◌};

use crate::calls::{Calls, on_board_of, seated};
use crate::segments::ia;
use combinator::PathList;
use daemon_cache::{AskFault, Daemon};
use isd_as::IfId;
use path_segment::{SegKind, Segment};
use refusal::OrMemory;
use refusing::Shortage;
use segment_board::{BoardFault, BoardReader, BoardWriter};
use std::alloc::Global;
use std::sync::Wait;
use std::test::Fail;
use std::thread;
use worked::{entry, option_text};

/// How often a reader's call is repeated where it could not enter.
const TIMES: usize = 1_000;

/// How many segments are published one by one.
const LIVE: u32 = 40;

/// Seconds at which such segments begin to be made. By the next one they have expired.
static BEGINNINGS: [u32; 5] = [100, 30_100, 60_100, 90_100, 120_100];

/// A segment with its two ASes and the interfaces of its link.
#[derive(Clone, Copy)]
struct Link {
    kind: SegKind,
    from: (u64, u16),
    to: (u64, u16),
}

/// From the first of two core ASes down to the AS below it, from the second down to the AS below
/// that, and from the second to the first.
static LINKS: [Link; 3] = [
    Link {
        kind: SegKind::Intra,
        from: (0x110, 1),
        to: (0x111, 2),
    },
    Link {
        kind: SegKind::Intra,
        from: (0x120, 7),
        to: (0x121, 8),
    },
    Link {
        kind: SegKind::Core,
        from: (0x120, 5),
        to: (0x110, 6),
    },
];

/// These three, and one beside each of those that lead down.
static PARALLEL_LINKS: [Link; 5] = [
    Link {
        kind: SegKind::Intra,
        from: (0x110, 1),
        to: (0x111, 2),
    },
    Link {
        kind: SegKind::Intra,
        from: (0x110, 3),
        to: (0x111, 4),
    },
    Link {
        kind: SegKind::Core,
        from: (0x120, 5),
        to: (0x110, 6),
    },
    Link {
        kind: SegKind::Intra,
        from: (0x120, 7),
        to: (0x121, 8),
    },
    Link {
        kind: SegKind::Intra,
        from: (0x120, 9),
        to: (0x121, 10),
    },
];

/// The segment over a link, made at this second.
fn segment_over(alloc: Global, link: Link, timestamp: u32) -> Option<Segment> {
    let (first, egress) = link.from;
    let (last, ingress) = link.to;
    let entries = vec![in alloc;
        entry(ia(first), 0, egress, [0; 6]),
        entry(ia(last), ingress, 0, [0; 6]),
    ];
    Segment::new(link.kind, timestamp, 4660, entries.ok()?).ok()
}

/// How many segments up, of the core and down a lookup between the ASes below finds.
fn counts<R: Wait>(
    calls: &Calls<'_, R>,
    reader: &mut BoardReader,
    now: u32,
) -> Option<(usize, usize, usize)>
    ensures { reader.new.board ≡ reader.old.board }
{
    for _ in 0..TIMES {
        match reader.lookup(calls.alloc, ia(0x111), ia(0x121), now) {
            Ok(set) => return Some((set.ups().len(), set.cores().len(), set.downs().len())),
            Err(OrMemory::Refused(BoardFault::NoEntry)) => thread::yield_now(),
            Err(_) => return None,
        }
    }
    None
}

/// Publishes the segment of this number, and returns whether a lookup finds it and those before it.
fn is_found<R: Wait>(
    calls: &Calls<'_, R>,
    board: &mut BoardWriter,
    reader: &mut BoardReader,
    number: u32,
    begun: u32,
) -> Option<bool>
    requires { reader.old.board ≡ board.old.board }
    ensures writer { board.new.board ≡ board.old.board }
    ensures reader { reader.new.board ≡ reader.old.board }
{
    let link = *LINKS.get((number % 3) as usize)?;
    let timestamp = begun.saturating_add(number);
    let segment = segment_over(calls.alloc, link, timestamp)?;
    board.register(segment, timestamp).ok()?;
    board.publish(calls.rt).ok()?;
    reader.learn(board.tell());
    let (ups, cores, downs) = counts(calls, reader, timestamp)?;
    let wanted = [
        number / 3 + 1,
        number.saturating_add(1) / 3,
        number.saturating_add(2) / 3,
    ];
    Some([ups, cores, downs] == wanted.map(|count| count as usize))
}

/// Whether each of so many segments that begin to be made at this second is found as soon as it is
/// published, and all before it are. The first publish also sweeps those of an earlier beginning.
fn are_found<R: Wait>(calls: &Calls<'_, R>, board: &mut BoardWriter, begun: u32) -> Option<bool>
    ensures { board.new.board ≡ board.old.board }
{
    let mut reader = seated(board)?;
    board.sweep(begun).ok()?;
    let mut are_right = true;
    for number in 0..LIVE {
        are_right &= is_found(calls, board, &mut reader, number, begun)?;
    }
    Some(are_right)
}

/// The same for each beginning, by a reader of its own, on a board with a place for one.
fn in_turn<R: Wait>(calls: &Calls<'_, R>, board: &mut BoardWriter) -> Option<[bool; 5]> {
    let mut are_right = [false; 5];
    for (is_right, begun) in are_right.iter_mut().zip(&BEGINNINGS) {
        *is_right = are_found(calls, board, *begun)?;
    }
    Some(are_right)
}

#[test]
fn forty_segments_are_found_through_two_hundred_publishes(rt: HostRuntime) -> Result<(), Fail> {
    let are_right = on_board_of(&rt, 1, Shortage::none(), in_turn)?;
    assert_eq!(rt; are_right, Some([true; 5]));
    Ok(())
}

/// A daemon's answer between the ASes below at this second, and whether the cache gave it.
fn asked<R: Wait>(
    calls: &Calls<'_, R>,
    daemon: &Daemon,
    reader: &mut BoardReader,
    now: u32,
) -> Option<(PathList, bool)> {
    let options = [option_text(None, None, 0)];
    for _ in 0..TIMES {
        match daemon.ask(
            calls.rt,
            calls.alloc,
            reader,
            ia(0x111),
            ia(0x121),
            &options,
            now,
            8,
        ) {
            Ok(given) => return Some(given),
            Err(OrMemory::Refused(AskFault::NoEntry)) => thread::yield_now(),
            Err(_) => return None,
        }
    }
    None
}

/// The four walks over these links: each by an AS, the interface at which it is entered, and the
/// one at which it is left.
static WALKS: [[(u64, u16, u16); 4]; 4] = [
    [(0x111, 0, 2), (0x110, 1, 6), (0x120, 5, 7), (0x121, 8, 0)],
    [(0x111, 0, 2), (0x110, 1, 6), (0x120, 5, 9), (0x121, 10, 0)],
    [(0x111, 0, 4), (0x110, 3, 6), (0x120, 5, 7), (0x121, 8, 0)],
    [(0x111, 0, 4), (0x110, 3, 6), (0x120, 5, 9), (0x121, 10, 0)],
];

/// Whether one of the paths has this walk.
fn has_walk(paths: &PathList, walk: &[(u64, u16, u16); 4]) -> bool {
    paths.paths().iter().any(|path| {
        path.walk().len() == walk.len()
            && path.walk().iter().zip(walk).all(|(hop, (number, ingress, egress))| {
                hop.ia == ia(*number)
                    && hop.ingress == IfId(*ingress)
                    && hop.egress == IfId(*egress)
            })
    })
}

/// Whether two lists have the same paths in the same order.
fn are_same(one: &PathList, other: &PathList) -> bool {
    one.len() == other.len()
        && one.paths().iter().zip(other.paths()).all(|(left, right)| left.walk() == right.walk()
            && left.header() == right.header())
}

/// Whether a request over all of these segments is answered with the four walks, and a second later
/// with the same from the cache.
fn over_parallel_links<R: Wait>(
    calls: &Calls<'_, R>,
    board: &mut BoardWriter,
) -> Option<[bool; 4]> {
    for link in &PARALLEL_LINKS {
        board
            .register(segment_over(calls.alloc, *link, 1000)?, 1000)
            .ok()?;
    }
    board.publish(calls.rt).ok()?;
    let mut reader = seated(board)?;
    reader.learn(board.tell());
    let daemon = calls.daemon(4)?;
    let (made, is_made_served) = asked(calls, &daemon, &mut reader, 1000)?;
    let (kept, is_served) = asked(calls, &daemon, &mut reader, 1001)?;
    let has_all = WALKS.iter().all(|walk| has_walk(&made, walk)) && made.len() == WALKS.len();
    Some([has_all, !is_made_served, are_same(&made, &kept), is_served])
}

#[test]
fn four_paths_over_five_segments_are_made_and_served(rt: HostRuntime) -> Result<(), Fail> {
    let are_right = on_board_of(&rt, 1, Shortage::none(), over_parallel_links)?;
    assert_eq!(rt; are_right, Some([true; 4]));
    Ok(())
}
