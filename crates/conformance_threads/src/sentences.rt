//! Refusals: their order, and their sentences.

use crate::segments::ia;
use daemon_cache::{AskFault, Daemon};
use isd_as::IsdAs;
use policy_expr::{OptionFault, OptionText};
use refusal::{NumberedFault, OrMemory};
use segment_board::{BoardFault, BoardReader, BoardWriter, new_board};
use std::alloc::Global;
use std::sync::Wait;
use std::test::Fail;
use worked::option_text;

/// The code of the refusal of a request from 1-ff00:0:111, or 0 if there is none.
fn code_of<R: Wait>(
    rt: &R,
    alloc: Global,
    reader: &mut BoardReader,
    dst: IsdAs,
    options: &[OptionText<'_>],
    limit: usize,
) -> Option<u16> {
    let daemon = Daemon::new(alloc, 1).ok()?;
    Some(
        match daemon.ask(rt, alloc, reader, ia(0x111), dst, options, 100, limit) {
            Ok(_) => 0,
            Err(OrMemory::Refused(fault)) => fault.code(),
            Err(OrMemory::Memory) => 1,
        },
    )
}

/// The refusals of requests from which one cause after another is removed.
fn refusals<R: Wait>(rt: &R, alloc: Global, board: &mut BoardWriter) -> Option<[u16; 5]> {
    let mut reader = board.reader().ok()?;
    let same = ia(0x111);
    let unread = [option_text(None, Some("1 |"), 0)];
    let plain = [option_text(None, None, 0)];
    Some([
        code_of(rt, alloc, &mut reader, same, &[], 0)?,
        code_of(rt, alloc, &mut reader, same, &[], 65)?,
        code_of(rt, alloc, &mut reader, same, &[], 64)?,
        code_of(rt, alloc, &mut reader, same, &unread, 64)?,
        code_of(rt, alloc, &mut reader, same, &plain, 64)?,
    ])
}

#[test]
fn requests_are_refused_in_order(rt: HostRuntime) -> Result<(), Fail> {
    let mut board = new_board(&rt, rt.alloc(), 2)?;
    let codes = refusals(&rt, rt.alloc(), &mut board);
    board.close(&rt);
    assert_eq!(rt; codes, Some([137, 137, 67, 60, 85]));
    Ok(())
}

#[test]
fn refusals_of_a_daemon_have_sentences(rt: HostRuntime) -> Result<(), Fail> {
    let alloc = rt.alloc();
    let told = [
        (AskFault::BadLimit, "the limit is not 1 to 64"),
        (
            AskFault::SameAs,
            "the source and the destination are one AS",
        ),
        (AskFault::NoEntry, "the reader could not enter the board"),
        (
            AskFault::Options(OptionFault::OptionCount),
            "a request has 1 to 16 policy options",
        ),
    ];
    for (fault, sentence) in told {
        assert_eq!(rt; format!(in alloc; "{fault}")?.as_str(), sentence);
    }
    Ok(())
}

#[test]
fn refusals_of_a_board_have_sentences(rt: HostRuntime) -> Result<(), Fail> {
    let alloc = rt.alloc();
    let told = [
        (
            BoardFault::NoPlace,
            "no place for a reader is free on the board",
        ),
        (BoardFault::NoEntry, "the reader could not enter the board"),
    ];
    for (fault, sentence) in told {
        assert_eq!(rt; format!(in alloc; "{fault}")?.as_str(), sentence);
    }
    Ok(())
}
