//! The calls of a board and of a daemon with no leave to run out of memory, since nothing is
//! refused.

use crate::calls::on_board;
use crate::segments::{EARLY, Finding};
use crate::{board, daemon};
use refusing::Shortage;
use std::test::Fail;

#[test]
fn what_is_published_is_found_and_served(rt: HostRuntime) -> Result<(), Fail> {
    let rows = on_board(&rt, Shortage::none(), |calls, writer| {
        let findings = board::row(calls, writer);
        Some((findings, daemon::row(calls, writer)))
    })?;
    let (none, worked) = (Finding::Nothing, Finding::Worked(EARLY));
    let findings = Some([none, worked, none, none]);
    assert_eq!(rt; rows, Some((findings, Some([true, true, true]))));
    Ok(())
}

/// Also where no answer is missing from the cache since memory ran out.
#[test]
fn a_cache_of_one_never_serves_either_of_two(rt: HostRuntime) -> Result<(), Fail> {
    let rounds = on_board(&rt, Shortage::none(), daemon::in_turn)?;
    assert_eq!(rt; rounds, Some([true, true, true]));
    Ok(())
}
