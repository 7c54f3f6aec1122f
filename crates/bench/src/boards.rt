//! A published board: six segments between two ASes, which give eight paths, and lookups of them
//! while the board's writer publishes others.

ghost use Rattle.std.specs.Prelude.{◌<◌, ◌≤◌};

use crate::stores::{NOW, address, segment};
use anyhow::{Context, Result};
use isd_as::IsdAs;
use path_segment::SegKind;
use segment_board::{BoardReader, BoardWriter, new_board};
use std::alloc::{AllocError, Global};
use std::sync::Wait;
use std::sync::atomic::{AtomicU64, AtomicUsize, Ordering};
use std::thread;
use std::thread::Threads;

/// The second at which the segment that comes and goes is made.
const BEFORE: u32 = NOW - 900;

/// The second at which that segment has expired, and the six have not.
const LATER: u32 = NOW + 21_000;

/// How often a reader that could not enter tries again.
pub(crate) const TRIES: u32 = 1000;

/// The AS from which the segments lead.
pub(crate) fn source() -> IsdAs {
    address(1, 5000)
}

/// The AS to which they lead.
pub(crate) fn destination() -> IsdAs {
    address(2, 5000)
}

/// Counters of what threads did.
#[derive(Drop)]
pub(crate) struct Tally {
    /// The sum of all that was found.
    pub(crate) sum: AtomicU64,
    /// The number of threads that have ended.
    pub(crate) ended: AtomicUsize,
}

impl Tally {
    /// Nothing is counted.
    pub(crate) fn new() -> Tally {
        Tally {
            sum: AtomicU64::new(0),
            ended: AtomicUsize::new(0),
        }
    }

    /// Counts what a thread found that now ends.
    pub(crate) fn end(&self, sum: u64) {
        self.sum.fetch_add(sum, Ordering::SeqCst);
        self.ended.fetch_add(1, Ordering::SeqCst);
    }
}

/// Adds a segment to the pending operations, unless memory runs out.
fn put(
    alloc: Global,
    board: &mut BoardWriter,
    kind: SegKind,
    timestamp: u32,
    beta0: u16,
    ases: [IsdAs; 3],
) -> Result<()> {
    let segment = segment(alloc, kind, timestamp, beta0, ases)?;
    board.register(segment, NOW).ok().context("memory ran out")
}

/// Publishes two segments up, two between core ASes and two down, all over the same two core ASes.
pub(crate) fn publish_six<R: Wait>(rt: &R, alloc: Global, board: &mut BoardWriter) -> Result<()> {
    let (near, far) = (address(1, 1), address(2, 1));
    for beta0 in 0..2 {
        let number = u32::from(beta0);
        let rows = [
            (SegKind::Intra, [near, address(1, 1000 + number), source()]),
            (SegKind::Core, [near, address(1, 2000 + number), far]),
            (
                SegKind::Intra,
                [far, address(2, 3000 + number), destination()],
            ),
        ];
        for (kind, ases) in rows {
            put(alloc, board, kind, NOW, beta0, ases)?;
        }
    }
    Ok(board.publish(rt)?)
}

/// Readers of the board, in this number.
pub(crate) fn readers_of(
    alloc: Global,
    board: &mut BoardWriter,
    readers: usize,
) -> Result<Vec<BoardReader>> {
    let mut made = Vec::new(alloc);
    for _ in 0..readers {
        made.push(board.reader()?)?;
    }
    Ok(made)
}

/// Publishes a segment between other ASes and then a sweep that removes it, again and again, until
/// `count` threads have ended.
fn publish_others<R: Wait>(
    rt: &R,
    alloc: Global,
    board: &mut BoardWriter,
    tally: &Tally,
    threads: usize,
) -> Result<()> {
    let ases = [address(3, 1), address(3, 2), address(3, 3)];
    for _ in rt.forever() {
        if tally.ended.load(Ordering::SeqCst) >= threads {
            return Ok(());
        }
        put(alloc, board, SegKind::Intra, BEFORE, 0, ases)?;
        board.publish(rt)?;
        board.sweep(LATER)?;
        board.publish(rt)?;
        thread::yield_now();
    }
    Ok(())
}

/// The number of segments that a lookup finds; 0 if memory ran out.
fn count_segments(alloc: Global, reader: &mut BoardReader) -> u64 {
    for _ in 0..TRIES {
        if let Ok(set) = reader.lookup(alloc, source(), destination(), NOW) {
            let count = set.ups().len() + set.cores().len() + set.downs().len();
            return count as u64;
        }
        thread::yield_now();
    }
    0
}

/// Looks the segments up `count` times, and counts those found.
fn look_up(alloc: Global, mut reader: BoardReader, tally: &Tally, count: u32) {
    let mut sum = 0u64;
    for _ in 0..count {
        sum = sum.wrapping_add(count_segments(alloc, &mut reader));
    }
    tally.end(sum);
}

/// Looks the segments up `count` times with each of these readers, in a thread each, while the
/// writer publishes others.
fn look_up_in_threads<R: Threads + Wait + Sync>(
    rt: &R,
    alloc: Global,
    board: &mut BoardWriter,
    readers: Vec<BoardReader>,
    tally: &Tally,
    count: u32,
) -> Result<()> {
    let threads = readers.len();
    thread::scope(thread::scope_env(), rt, move |scope| -> Result<()> {
        for reader in readers {
            if scope
                .spawn(move || look_up(alloc, reader, tally, count))
                .is_err()
            {
                return Err(AllocError.into());
            }
        }
        publish_others(rt, alloc, board, tally, threads)
    })
}

/// The number of segments that these readers find while the writer publishes others.
fn count_found<R: Threads + Wait + Sync>(
    rt: &R,
    alloc: Global,
    board: &mut BoardWriter,
    readers: usize,
    count: u32,
) -> Result<u64> {
    publish_six(rt, alloc, board)?;
    let readers = readers_of(alloc, board, readers)?;
    let tally = Tally::new();
    look_up_in_threads(rt, alloc, board, readers, &tally, count)?;
    Ok(tally.sum.load(Ordering::SeqCst))
}

/// Looks six segments up `count` times with each of several readers of one board, while its writer
/// publishes others, and counts those found.
pub(crate) fn look_ups<R: Threads + Wait + Sync>(
    rt: &R,
    alloc: Global,
    readers: usize,
    count: u32,
) -> Result<u64>
    requires some { 0 < readers }
    requires few { readers ≤ 8 }
{
    let mut board = new_board(rt, alloc, readers)?;
    let sum = count_found(rt, alloc, &mut board, readers, count);
    board.close(rt);
    sum
}
