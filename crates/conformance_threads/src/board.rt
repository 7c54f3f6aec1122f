//! A published board: readers find what is published, also in other threads.

ghost use Rattle.std.specs.Prelude.{◌≡◌};

use crate::calls::{Calls, on_board, on_board_of, seated};
use crate::segments::{AFTER_EARLY, EARLY, Finding, LATE};
use refusal::NumberedFault;
use refusing::Shortage;
use segment_board::{BoardReader, BoardWriter};
use std::alloc::AllocError;
use std::sync::Wait;
use std::test::Fail;
use std::thread;
use std::thread::{Threads, join};

/// What is found before the segment is published, after that, at a second at which it has expired,
/// and after it was swept. The reader learns what was published.
pub(crate) fn row<R: Wait>(calls: &Calls<'_, R>, board: &mut BoardWriter) -> Option<[Finding; 4]> {
    let mut reader = seated(board)?;
    let before = calls.find(&mut reader, 100)?;
    calls.register(board, EARLY)?;
    calls.publish(board)?;
    reader.learn(board.tell());
    let after = calls.find(&mut reader, 100)?;
    let late = calls.find(&mut reader, AFTER_EARLY)?;
    calls.sweep(board, AFTER_EARLY)?;
    calls.publish(board)?;
    reader.learn(board.tell());
    let swept = calls.find(&mut reader, 100)?;
    Some([before, after, late, swept])
}

#[test]
fn what_is_published_is_found(rt: HostRuntime) -> Result<(), Fail> {
    let findings = on_board(&rt, Shortage::new(), row)?;
    let (none, worked) = (Finding::Nothing, Finding::Worked(EARLY));
    assert_eq!(rt; findings, Some([none, worked, none, none]));
    Ok(())
}

/// What is found after three operations were published at once: two registrations, and the sweep of
/// the first segment.
fn at_once<R: Wait>(calls: &Calls<'_, R>, board: &mut BoardWriter) -> Option<[Finding; 2]> {
    let mut reader = seated(board)?;
    calls.register(board, EARLY)?;
    calls.register(board, LATE)?;
    calls.sweep(board, AFTER_EARLY)?;
    let before = calls.find(&mut reader, 100)?;
    calls.publish(board)?;
    reader.learn(board.tell());
    let after = calls.find(&mut reader, 100)?;
    Some([before, after])
}

#[test]
fn all_that_is_pending_is_published(rt: HostRuntime) -> Result<(), Fail> {
    let findings = on_board(&rt, Shortage::new(), at_once)?;
    assert_eq!(rt; findings, Some([Finding::Nothing, Finding::Worked(LATE)]));
    Ok(())
}

/// Whether two lookups of a reader that learns what was published both find this.
fn finds_twice<R: Wait>(
    calls: &Calls<'_, R>,
    board: &BoardWriter,
    reader: &mut BoardReader,
    finding: Finding,
) -> bool
    requires { reader.old.board ≡ board.now.board }
    ensures { reader.new.board ≡ reader.old.board }
{
    reader.learn(board.tell());
    let first = calls.find(reader, 100);
    let second = calls.find(reader, 100);
    first == Some(finding) && second == Some(finding)
}

/// Whether, five times, each of two readers finds the segment twice after its publication, and
/// twice nothing after it was swept.
fn in_rounds<R: Wait>(calls: &Calls<'_, R>, board: &mut BoardWriter) -> Option<bool> {
    let mut one = seated(board)?;
    let mut two = seated(board)?;
    let mut are_right = true;
    for _ in 0..5 {
        calls.register(board, EARLY)?;
        calls.publish(board)?;
        let worked = Finding::Worked(EARLY);
        are_right &= finds_twice(calls, board, &mut one, worked);
        are_right &= finds_twice(calls, board, &mut two, worked);
        calls.sweep(board, AFTER_EARLY)?;
        calls.publish(board)?;
        are_right &= finds_twice(calls, board, &mut one, Finding::Nothing);
        are_right &= finds_twice(calls, board, &mut two, Finding::Nothing);
    }
    Some(are_right)
}

#[test]
fn ten_publishes_are_found_by_two_readers(rt: HostRuntime) -> Result<(), Fail> {
    let are_right = on_board(&rt, Shortage::new(), in_rounds)?;
    assert_eq!(rt; are_right, Some(true));
    Ok(())
}

/// The number of readers that a board gives at once, at most nine.
fn places<R: Wait>(calls: &Calls<'_, R>, board: &mut BoardWriter) -> Option<usize> {
    let mut readers = match Vec::with_capacity(calls.alloc, 9) {
        Ok(readers) => readers,
        Err(AllocError) => {
            if !calls.shortage.may_want() {
                return None;
            }
            Vec::with_capacity(calls.alloc, 9).ok()?
        }
    };
    for _ in 0..9 {
        if let Some(reader) = seated(board) {
            readers.push(reader).ok()?;
        }
    }
    Some(readers.len())
}

#[test]
fn a_board_has_the_places_that_were_asked_for(rt: HostRuntime) -> Result<(), Fail> {
    for readers in 1..9 {
        let places = on_board_of(&rt, readers, Shortage::new(), places)?;
        assert_eq!(rt; places, Some(readers));
    }
    Ok(())
}

/// The codes of two requests for a third reader of a board for two, 0 if there was no refusal.
fn third<R>(_calls: &Calls<'_, R>, board: &mut BoardWriter) -> Option<(u16, u16)> {
    let _one = seated(board)?;
    let _two = seated(board)?;
    let mut least = u16::MAX;
    let mut most = 0;
    for _ in 0..1_000 {
        let code = match board.reader() {
            Ok(_) => 0,
            Err(fault) => fault.code(),
        };
        least = least.min(code);
        most = most.max(code);
    }
    Some((least, most))
}

#[test]
fn a_third_reader_finds_no_place(rt: HostRuntime) -> Result<(), Fail> {
    let codes = on_board(&rt, Shortage::new(), third)?;
    assert_eq!(rt; codes, Some((110, 110)));
    Ok(())
}

/// Whether lookups find nothing at first, and then the segment.
fn awaits<R: Wait>(calls: &Calls<'_, R>, mut reader: BoardReader) -> bool {
    for _ in 0..1_000_000 {
        match calls.find(&mut reader, 100) {
            Some(Finding::Nothing) => thread::yield_now(),
            finding => return finding == Some(Finding::Worked(EARLY)),
        }
    }
    false
}

/// Whether two readers in threads of their own find what a third thread publishes. If a thread
/// can't be started, its part is done after the other one, so that the awaited part comes last.
fn apart<R: Threads + Wait + Sync>(
    calls: &Calls<'_, R>,
    board: &mut BoardWriter,
) -> Option<(bool, bool)> {
    let one = seated(board)?;
    let two = seated(board)?;
    let (both, published) = join(
        calls.rt,
        move || {
            join(
                calls.rt,
                move || awaits(calls, one),
                move || awaits(calls, two),
            )
        },
        || registers_and_publishes(calls, board),
    );
    published?;
    Some(both)
}

/// Publishes the worked segment.
fn registers_and_publishes<R: Wait>(calls: &Calls<'_, R>, board: &mut BoardWriter) -> Option<()> {
    calls.register(board, EARLY)?;
    calls.publish(board)
}

#[test]
fn readers_in_other_threads_find_it(rt: HostRuntime) -> Result<(), Fail> {
    let shortage = Shortage::new();
    let calls = Calls::new(&rt, &shortage);
    let mut board = calls.board(2).ok_or(AllocError)?;
    let found = apart(&calls, &mut board);
    board.close(&rt);
    shortage.tell(&rt);
    assert_eq!(rt; found, Some((true, true)));
    Ok(())
}
