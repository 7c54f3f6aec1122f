//! Many operations at once, full caches, and requests with options, texts and the largest limit.

use crate::calls::{Calls, on_board, seated};
use crate::daemon::published;
use crate::segments::{AFTER_EARLY, Answer, EARLY, Finding, LATE, answer_of, ia};
use daemon_cache::{AskFault, Daemon};
use policy_expr::{AclText, OptionText};
use refusal::OrMemory;
use refusing::Shortage;
use segment_board::{BoardReader, BoardWriter};
use std::sync::Wait;
use std::test::Fail;
use std::thread;
use worked::option_text;

/// What is found after 64 operations were published at once, each second one of which sweeps what
/// the one before it has registered, except the last.
fn after_many<R: Wait>(calls: &Calls<'_, R>, board: &mut BoardWriter) -> Option<Finding> {
    for _ in 0..31 {
        calls.register(board, EARLY)?;
        calls.sweep(board, AFTER_EARLY)?;
    }
    calls.register(board, LATE)?;
    calls.sweep(board, AFTER_EARLY)?;
    calls.publish(board)?;
    let mut reader = seated(board)?;
    reader.learn(board.tell());
    calls.find(&mut reader, 100)
}

#[test]
fn sixty_four_operations_are_published_at_once(rt: HostRuntime) -> Result<(), Fail> {
    let finding = on_board(&rt, Shortage::none(), after_many)?;
    assert_eq!(rt; finding, Some(Finding::Worked(LATE)));
    Ok(())
}

/// The answer up the worked segment to a request with these options and this limit, and whether the
/// cache gave it.
fn asked<R: Wait>(
    calls: &Calls<'_, R>,
    daemon: &Daemon,
    reader: &mut BoardReader,
    options: &[OptionText<'_>],
    limit: usize,
) -> Option<(Answer, bool)> {
    let (src, dst) = (ia(0x111), ia(0x110));
    for _ in 0..1_000 {
        match daemon.ask(calls.rt, calls.alloc, reader, src, dst, options, 100, limit) {
            Ok((paths, is_served)) => return Some((answer_of(&paths), is_served)),
            Err(OrMemory::Refused(AskFault::NoEntry)) => thread::yield_now(),
            Err(_) => return None,
        }
    }
    None
}

/// Whether a daemon with room for four answers each of these requests, which differ in their
/// limits, and from its cache if it says so beside it. The fifth leaves no room for the answer that
/// was used least recently.
fn is_in_order<R: Wait>(calls: &Calls<'_, R>, board: &mut BoardWriter) -> Option<bool> {
    let daemon = calls.daemon(4)?;
    let mut reader = published(calls, board)?;
    let made = [(1, false), (2, false), (3, false), (4, false), (1, true)];
    let kept = [(5, false), (1, true), (3, true), (4, true), (5, true)];
    let gone = [(2, false), (2, true), (1, false)];
    let plain = [option_text(None, None, 0)];
    for (limit, is_served) in made.iter().chain(&kept).chain(&gone) {
        let given = asked(calls, &daemon, &mut reader, &plain, *limit);
        if given != Some((Answer::Up, *is_served)) {
            return Some(false);
        }
    }
    Some(true)
}

/// Whether a daemon with room for 1,024 answers as many requests, which differ in a limit or in a
/// weight, and from its cache when they come again.
fn are_all_kept<R: Wait>(calls: &Calls<'_, R>, board: &mut BoardWriter) -> Option<bool> {
    let daemon = calls.daemon(1024)?;
    let mut reader = published(calls, board)?;
    for is_served in [false, true] {
        for number in 0..1024u32 {
            let options = [option_text(None, None, number / 64)];
            let limit = (number % 64) as usize + 1;
            let given = asked(calls, &daemon, &mut reader, &options, limit);
            if given != Some((Answer::Up, is_served)) {
                return Some(false);
            }
        }
    }
    Some(true)
}

#[test]
fn caches_are_filled(rt: HostRuntime) -> Result<(), Fail> {
    let are_right = on_board(&rt, Shortage::none(), |calls, board| {
        let four = is_in_order(calls, board);
        Some((four, are_all_kept(calls, board)))
    })?;
    assert_eq!(rt; are_right, Some((Some(true), Some(true))));
    Ok(())
}

/// The answers to a request with two options, of which the heavier denies the path, and to one with
/// sixteen, of which the last alone allows it; each is asked twice.
fn by_options<R: Wait>(
    calls: &Calls<'_, R>,
    board: &mut BoardWriter,
) -> Option<[(Answer, bool); 4]> {
    let daemon = calls.daemon(4)?;
    let mut reader = published(calls, board)?;
    let mut acl = AclText::new(calls.alloc);
    acl.push(calls.alloc, "- 1-ff00:0:110").ok()?;
    acl.push(calls.alloc, "+").ok()?;
    let two = [
        option_text(None, None, 1),
        option_text(Some(&acl), Some("0*"), 5),
    ];
    let mut sixteen = Vec::new(calls.alloc);
    for _ in 0..15 {
        sixteen
            .push(option_text(None, Some("1-ff00:0:111 2"), 7))
            .ok()?;
    }
    sixteen
        .push(option_text(None, Some("1-ff00:0:111 1"), 0))
        .ok()?;
    let mut answers = [(Answer::Other, false); 4];
    for round in [0, 1] {
        answers[round] = asked(calls, &daemon, &mut reader, &two, 64)?;
        answers[round + 2] = asked(calls, &daemon, &mut reader, &sixteen, 64)?;
    }
    Some(answers)
}

#[test]
fn options_are_answered_and_served(rt: HostRuntime) -> Result<(), Fail> {
    let answers = on_board(&rt, Shortage::none(), by_options)?;
    let (made, served) = ((Answer::Up, false), (Answer::Up, true));
    assert_eq!(rt; answers, Some([made, served, made, served]));
    Ok(())
}
