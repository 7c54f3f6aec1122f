//! A daemon that several threads ask, for paths that its cache has or for paths that it has to
//! make.

ghost use Rattle.std.specs.Prelude.{◌<◌, ◌≤◌};

use crate::boards::{TRIES, Tally, destination, publish_six, readers_of, source};
use crate::stores::NOW;
use anyhow::{Context, Result};
use daemon_cache::Daemon;
use segment_board::{BoardReader, BoardWriter, new_board};
use std::alloc::{AllocError, Global};
use std::sync::Wait;
use std::sync::atomic::Ordering;
use std::thread;
use std::thread::Threads;
use worked::option_text;

/// The number of answers for which the cache has room.
const CAPACITY: usize = 64;

/// Whether requests are all the same, or all different.
#[derive(Clone, Copy, PartialEq, Eq)]
pub(crate) enum Asking {
    /// The cache has their answer.
    Same,
    /// The cache has none of their answers.
    Different,
}

/// The requests of one thread: the first weight, and the number of requests.
#[derive(Clone, Copy)]
struct Round {
    asking: Asking,
    first: u32,
    count: u32,
}

/// Asks for the paths under an option of this weight; returns their number, and whether they came
/// from the cache.
fn ask<R: Wait>(
    rt: &R,
    alloc: Global,
    daemon: &Daemon,
    reader: &mut BoardReader,
    weight: u32,
) -> Option<(u64, bool)> {
    let options = [option_text(None, Some("0*"), weight)];
    for _ in 0..TRIES {
        let answer = daemon.ask(rt, alloc, reader, source(), destination(), &options, NOW, 8);
        if let Ok((paths, is_served)) = answer {
            return Some((paths.len() as u64, is_served));
        }
        thread::yield_now();
    }
    None
}

/// Asks `count` times, and counts the paths of the answers that came from where they should.
fn ask_all<R: Wait>(
    rt: &R,
    alloc: Global,
    daemon: &Daemon,
    mut reader: BoardReader,
    round: Round,
    tally: &Tally,
) {
    let mut sum = 0u64;
    for turn in 0..round.count {
        let weight = match round.asking {
            Asking::Same => 0,
            Asking::Different => round.first.wrapping_add(turn),
        };
        if let Some((paths, is_served)) = ask(rt, alloc, daemon, &mut reader, weight) {
            if is_served == (round.asking == Asking::Same) {
                sum = sum.wrapping_add(paths);
            }
        }
    }
    tally.end(sum);
}

/// Asks with each of these readers, in a thread each: the first of them this round, and each other
/// one the round behind the one before.
fn ask_in_threads<R: Threads + Wait + Sync>(
    rt: &R,
    alloc: Global,
    daemon: &Daemon,
    readers: Vec<BoardReader>,
    round: Round,
    tally: &Tally,
) -> Result<(), AllocError> {
    thread::scope(
        thread::scope_env(),
        rt,
        move |scope| -> Result<(), AllocError> {
            let mut round = round;
            for reader in readers {
                if scope
                    .spawn(move || ask_all(rt, alloc, daemon, reader, round, tally))
                    .is_err()
                {
                    return Err(AllocError);
                }
                round.first = round.first.wrapping_add(round.count);
            }
            Ok(())
        },
    )
}

/// The number of paths that these readers get, after the cache has the answer to requests of
/// weight 0.
fn count_paths<R: Threads + Wait + Sync>(
    rt: &R,
    alloc: Global,
    daemon: &Daemon,
    board: &mut BoardWriter,
    threads: usize,
    round: Round,
) -> Result<u64> {
    publish_six(rt, alloc, board)?;
    let mut own = board.reader()?;
    ask(rt, alloc, daemon, &mut own, 0).context("the first request was not answered")?;
    let readers = readers_of(alloc, board, threads)?;
    let tally = Tally::new();
    ask_in_threads(rt, alloc, daemon, readers, round, &tally)?;
    Ok(tally.sum.load(Ordering::SeqCst))
}

/// Asks `count` times in each of several threads for eight paths, and counts those that came from
/// the cache, or those that did not.
pub(crate) fn asks<R: Threads + Wait + Sync>(
    rt: &R,
    alloc: Global,
    asking: Asking,
    threads: usize,
    count: u32,
) -> Result<u64>
    requires { threads < 8 }
{
    let daemon = Daemon::new(alloc, CAPACITY)?;
    let mut board = new_board(rt, alloc, threads + 1)?;
    let round = Round {
        asking,
        first: 1,
        count,
    };
    let sum = count_paths(rt, alloc, &daemon, &mut board, threads, round);
    board.close(rt);
    sum
}
