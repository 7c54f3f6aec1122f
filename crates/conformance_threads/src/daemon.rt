//! A daemon: its cache changes no answer, whichever thread asks.

ghost use Rattle.std.specs.Prelude.{◌≡◌, IfSome};

use crate::calls::{Calls, on_board, seated};
use crate::letters::{Letter, LetterBox, OneBoard, Seat};
use crate::segments::{AFTER_EARLY, Answer, EARLY, ia};
use daemon_cache::Daemon;
use isd_as::IsdAs;
use refusing::Shortage;
use segment_board::{BoardReader, BoardWriter};
use std::alloc::AllocError;
use std::marker::Brand;
use std::sync::Wait;
use std::test::Fail;
use std::thread;
use std::thread::{Threads, join};

/// The ends of the path up.
fn up() -> (IsdAs, IsdAs) {
    (ia(0x111), ia(0x110))
}

/// The ends of the path down.
fn down() -> (IsdAs, IsdAs) {
    (ia(0x110), ia(0x111))
}

/// Publishes the worked segment, and a reader that has learnt it.
pub(crate) fn published<R: Wait>(
    calls: &Calls<'_, R>,
    board: &mut BoardWriter,
) -> Option<BoardReader>
    ensures same { board.new.board ≡ board.old.board }
    ensures reader { IfSome result (λ reader. reader.board ≡ board.old.board) }
{
    let mut reader = seated(board)?;
    calls.register(board, EARLY)?;
    calls.publish(board)?;
    reader.learn(board.tell());
    Some(reader)
}

/// Whether this is the answer, and whether a cache with room for so many gave it as expected. If
/// memory ran out when an answer was to be kept, the cache lacks it, and a cache for one may still
/// have the answer before it.
fn is(
    given: Option<(Answer, bool)>,
    answer: Answer,
    is_served: bool,
    capacity: usize,
    shortage: &Shortage,
) -> bool {
    let Some((found, flag)) = given else {
        return false;
    };
    let may_differ = is_served || capacity == 1;
    found == answer && (flag == is_served || (may_differ && shortage.may_miss()))
}

/// Whether the path is answered, then given by the cache, and no longer answered after its segment
/// was swept.
pub(crate) fn row<R: Wait>(calls: &Calls<'_, R>, board: &mut BoardWriter) -> Option<[bool; 3]> {
    let daemon = calls.daemon(4)?;
    let mut reader = published(calls, board)?;
    let first = calls.ask(&daemon, &mut reader, up());
    let second = calls.ask(&daemon, &mut reader, up());
    let is_second = is(second, Answer::Up, true, 4, calls.shortage);
    calls.sweep(board, AFTER_EARLY)?;
    calls.publish(board)?;
    reader.learn(board.tell());
    let swept = calls.ask(&daemon, &mut reader, up());
    Some([
        first == Some((Answer::Up, false)),
        is_second,
        swept == Some((Answer::Nothing, false)),
    ])
}

#[test]
fn an_answer_is_served_while_its_segments_stay(rt: HostRuntime) -> Result<(), Fail> {
    let rows = on_board(&rt, Shortage::new(), row)?;
    assert_eq!(rt; rows, Some([true, true, true]));
    Ok(())
}

/// The answer to a reader of what was published: from a daemon with an empty cache, or without one.
fn once<R: Wait>(
    calls: &Calls<'_, R>,
    board: &mut BoardWriter,
    is_by_daemon: bool,
) -> Option<Answer> {
    let daemon = calls.daemon(4)?;
    let mut reader = published(calls, board)?;
    if is_by_daemon {
        let (answer, _) = calls.ask(&daemon, &mut reader, up())?;
        return Some(answer);
    }
    calls.answer(&mut reader)
}

/// An answer of a daemon runs out of memory in no more cases than one without a daemon, and so
/// never for keeping it. Those who refuse the allocations compare the cases of this test and of the
/// next.
#[test]
fn an_answer_is_asked_for(rt: HostRuntime) -> Result<(), Fail> {
    let answer = on_board(
        &rt,
        Shortage::new(),
        |calls, board| once(calls, board, true),
    )?;
    assert_eq!(rt; answer, Some(Answer::Up));
    Ok(())
}

#[test]
fn an_answer_is_made(rt: HostRuntime) -> Result<(), Fail> {
    let answer = on_board(
        &rt,
        Shortage::new(),
        |calls, board| once(calls, board, false),
    )?;
    assert_eq!(rt; answer, Some(Answer::Up));
    Ok(())
}

/// Whether the answer for both directions, one after the other, is right and not from the cache,
/// which has room for so many.
fn both<R: Wait>(
    calls: &Calls<'_, R>,
    daemon: &Daemon,
    reader: &mut BoardReader,
    capacity: usize,
) -> bool
    ensures { reader.new.board ≡ reader.old.board }
{
    let above = calls.ask(daemon, reader, up());
    let below = calls.ask(daemon, reader, down());
    is(above, Answer::Up, false, capacity, calls.shortage)
        && is(below, Answer::Down, false, capacity, calls.shortage)
}

/// Whether a cache with room for one answer, asked for both directions in turn three times each,
/// gives the same each time and none from the cache.
pub(crate) fn in_turn<R: Wait>(calls: &Calls<'_, R>, board: &mut BoardWriter) -> Option<[bool; 3]> {
    let daemon = calls.daemon(1)?;
    let mut reader = published(calls, board)?;
    let first = both(calls, &daemon, &mut reader, 1);
    let second = both(calls, &daemon, &mut reader, 1);
    let third = both(calls, &daemon, &mut reader, 1);
    Some([first, second, third])
}

#[test]
fn a_cache_of_one_serves_neither_of_two(rt: HostRuntime) -> Result<(), Fail> {
    let rounds = on_board(&rt, Shortage::new(), in_turn)?;
    assert_eq!(rt; rounds, Some([true, true, true]));
    Ok(())
}

/// Whether a cache with room for more gives both directions, after each was asked for once.
fn both_served<R: Wait>(calls: &Calls<'_, R>, board: &mut BoardWriter) -> Option<[bool; 3]> {
    let daemon = calls.daemon(4)?;
    let mut reader = published(calls, board)?;
    let are_made = both(calls, &daemon, &mut reader, 4);
    let above = calls.ask(&daemon, &mut reader, up());
    let below = calls.ask(&daemon, &mut reader, down());
    let is_up = is(above, Answer::Up, true, 4, calls.shortage);
    let is_down = is(below, Answer::Down, true, 4, calls.shortage);
    Some([are_made, is_up, is_down])
}

#[test]
fn a_cache_of_four_serves_both_of_two(rt: HostRuntime) -> Result<(), Fail> {
    let rounds = on_board(&rt, Shortage::new(), both_served)?;
    assert_eq!(rt; rounds, Some([true, true, true]));
    Ok(())
}

/// Asks until a letter comes; until then the answer may be no path or the one path. Then it learns
/// what the letter says and asks again. Returns whether all answers were such, and the last was the
/// one path.
fn learns_and_asks<B: OneBoard, R: Wait>(
    calls: &Calls<'_, R>,
    daemon: &Daemon,
    seat: Seat<B>,
    letters: &LetterBox<B>,
) -> bool {
    let mut reader = seat.leave();
    for _ in 0..1_000_000 {
        if let Some(letter) = letters.take(calls.rt) {
            reader.learn(letter.open());
            let answer = calls.ask(daemon, &mut reader, up());
            return is_either(answer, Answer::Up, Answer::Up);
        }
        let answer = calls.ask(daemon, &mut reader, up());
        if !is_either(answer, Answer::Nothing, Answer::Up) {
            return false;
        }
        thread::yield_now();
    }
    false
}

/// Whether the answer is one of these two, from the cache or not.
fn is_either(given: Option<(Answer, bool)>, one: Answer, other: Answer) -> bool {
    match given {
        Some((answer, _)) => answer == one || answer == other,
        None => false,
    }
}

/// Publishes the worked segment, and then puts a letter into each box.
fn publishes_and_writes<B: OneBoard, R: Wait>(
    calls: &Calls<'_, R>,
    board: &mut BoardWriter,
    boxes: [&LetterBox<B>; 2],
) -> Option<()>
    requires { board.old.board ≡ B.board }
{
    calls.register(board, EARLY)?;
    calls.publish(board)?;
    boxes[0].put(calls.rt, Letter::new(board.tell()));
    boxes[1].put(calls.rt, Letter::new(board.tell()));
    Some(())
}

/// The result of two threads that each wait for a letter of their own.
fn both_learn_and_ask<B: OneBoard + Send + Sync, R: Threads + Wait + Sync>(
    calls: &Calls<'_, R>,
    daemon: &Daemon,
    one: Seat<B>,
    two: Seat<B>,
    boxes: [&LetterBox<B>; 2],
) -> (bool, bool) {
    let [first, second] = boxes;
    join(
        calls.rt,
        move || learns_and_asks(calls, daemon, one, first),
        move || learns_and_asks(calls, daemon, two, second),
    )
}

/// Two threads with a reader each ask one daemon while a third thread publishes the segment.
/// Returns whether each gets the path after it has learnt from its letter. If a thread can't be
/// started, its part is done after the other one, so that the awaited part comes last.
fn apart<B: OneBoard + Send + Sync, R: Threads + Wait + Sync>(
    calls: &Calls<'_, R>,
    board: &mut BoardWriter,
) -> Option<(bool, bool)>
    requires { board.old.board ≡ B.board }
{
    let daemon = &calls.daemon(4)?;
    let one = Seat::new(seated(board)?);
    let two = Seat::new(seated(board)?);
    let (first, second) = (&LetterBox::<B>::empty(), &LetterBox::<B>::empty());
    let (both, published) = join(
        calls.rt,
        move || both_learn_and_ask(calls, daemon, one, two, [first, second]),
        || publishes_and_writes(calls, board, [first, second]),
    );
    published?;
    Some(both)
}

#[test]
fn two_threads_ask_one_daemon_while_a_third_publishes(rt: HostRuntime) -> Result<(), Fail> {
    let shortage = Shortage::new();
    let calls = Calls::new(&rt, &shortage);
    let mut board = calls.board(2).ok_or(AllocError)?;
    let answered = apart::<Brand, _>(&calls, &mut board);
    board.close(&rt);
    shortage.tell(&rt);
    assert_eq!(rt; answered, Some((true, true)));
    Ok(())
}
