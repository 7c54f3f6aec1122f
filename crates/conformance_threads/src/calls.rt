//! Calls that are repeated if that is allowed: up to 1,000 times if a reader found no place or
//! could not enter, and once if memory ran out for the first time in a test. Any other failure
//! counts as none.

ghost use Rattle.std.specs.Prelude.{◌≡◌, ◌<◌, ◌≤◌, IfSome};

use crate::segments::{Answer, Finding, answer_of, finding_in, ia, worked};
use bumpalo::Bump;
use combinator::combine;
use daemon_cache::{AskError, AskFault, Daemon};
use isd_as::IsdAs;
use path_segment::Segment;
use path_server::SegmentSet;
use policy_expr::PolicyOption;
use refusal::OrMemory;
use refusing::Shortage;
use segment_board::{BoardFault, BoardReader, BoardWriter, new_board};
use std::alloc::{Alloc, AllocError, Global};
use std::io::Print;
use std::sync::Wait;
use std::test::Fail;
use std::thread;
use worked::option_text;

/// How often a reader's call is repeated.
const TIMES: usize = 1_000;

/// What the calls of a test share: its runtime, its allocator, and how often memory ran out.
#[derive(Drop)]
pub(crate) struct Calls<'t, R> {
    pub(crate) rt: &'t R,
    pub(crate) alloc: Global,
    pub(crate) shortage: &'t Shortage,
}

/// What `act` finds on a board with room for `readers` readers. The board is closed after that, and
/// what ran out of memory is printed. `act` may not start threads: no bound of a closure says what
/// that needs of the runtime.
pub(crate) fn on_board_of<R, T, F>(
    rt: &R,
    readers: usize,
    shortage: Shortage,
    act: F,
) -> Result<Option<T>, Fail>
where
    R: Wait + Print + Alloc<A = Global>,
    F: FnOnce(&Calls<'_, R>, &mut BoardWriter) -> Option<T>,
    requires some { 0 < readers }
    requires few { readers ≤ 8 }
    requires act { F.IsAlwaysCallable act }
{
    let calls = Calls::new(rt, &shortage);
    let mut board = calls.board(readers).ok_or(AllocError)?;
    let outcome = act(&calls, &mut board);
    board.close(rt);
    shortage.tell(rt);
    Ok(outcome)
}

/// What `act` finds on a board with room for two readers.
pub(crate) fn on_board<R, T, F>(rt: &R, shortage: Shortage, act: F) -> Result<Option<T>, Fail>
where
    R: Wait + Print + Alloc<A = Global>,
    F: FnOnce(&Calls<'_, R>, &mut BoardWriter) -> Option<T>,
    requires { F.IsAlwaysCallable act }
{
    on_board_of(rt, 2, shortage, act)
}

impl<'t, R: Alloc<A = Global>> Calls<'t, R> {
    /// The calls of a test of this runtime.
    pub(crate) fn new(rt: &'t R, shortage: &'t Shortage) -> Calls<'t, R> {
        Calls {
            rt,
            alloc: rt.alloc(),
            shortage,
        }
    }
}

impl<R: Wait> Calls<'_, R> {
    /// A board with room for `readers` readers.
    pub(crate) fn board(&self, readers: usize) -> Option<BoardWriter>
        requires some { 0 < readers }
        requires few { readers ≤ 8 }
    {
        if let Ok(board) = new_board(self.rt, self.alloc, readers) {
            return Some(board);
        }
        if self.shortage.may_want() {
            return new_board(self.rt, self.alloc, readers).ok();
        }
        None
    }

    /// The worked segment, as if made at this second.
    fn segment(&self, timestamp: u32) -> Option<Segment> {
        if let Some(segment) = worked(self.alloc, timestamp) {
            return Some(segment);
        }
        if self.shortage.may_want() {
            return worked(self.alloc, timestamp);
        }
        None
    }

    /// Adds the registration of the worked segment, made at this second, to the pending operations.
    pub(crate) fn register(&self, board: &mut BoardWriter, timestamp: u32) -> Option<()>
        ensures { board.new.board ≡ board.old.board }
    {
        let Err(refused) = board.register(self.segment(timestamp)?, 100) else {
            return Some(());
        };
        if self.shortage.may_want() {
            return board.register(refused.value, 100).ok();
        }
        None
    }

    /// Adds a sweep at this second to the pending operations.
    pub(crate) fn sweep(&self, board: &mut BoardWriter, now: u32) -> Option<()>
        ensures { board.new.board ≡ board.old.board }
    {
        if board.sweep(now).is_ok() {
            return Some(());
        }
        if self.shortage.may_want() {
            return board.sweep(now).ok();
        }
        None
    }

    /// Publishes the pending operations.
    pub(crate) fn publish(&self, board: &mut BoardWriter) -> Option<()>
        ensures { board.new.board ≡ board.old.board }
    {
        if board.publish(self.rt).is_ok() {
            return Some(());
        }
        if self.shortage.may_want() {
            return board.publish(self.rt).ok();
        }
        None
    }

    /// What a lookup at this second finds between the ends of the worked segment.
    pub(crate) fn find(&self, reader: &mut BoardReader, now: u32) -> Option<Finding>
        ensures { reader.new.board ≡ reader.old.board }
    {
        for _ in 0..TIMES {
            match reader.lookup(self.alloc, ia(0x111), ia(0x110), now) {
                Ok(set) => return Some(finding_in(&set)),
                Err(OrMemory::Refused(BoardFault::NoEntry)) => thread::yield_now(),
                Err(OrMemory::Memory) => {
                    if !self.shortage.may_want() {
                        return None;
                    }
                }
                Err(OrMemory::Refused(BoardFault::NoPlace)) => return None,
            }
        }
        None
    }

    /// A daemon with room for `capacity` answers.
    pub(crate) fn daemon(&self, capacity: usize) -> Option<Daemon>
        requires some { 0 < capacity }
        requires few { capacity ≤ 1024 }
    {
        if let Ok(daemon) = Daemon::new(self.alloc, capacity) {
            return Some(daemon);
        }
        if self.shortage.may_want() {
            return Daemon::new(self.alloc, capacity).ok();
        }
        None
    }

    /// The answer between these ends at second 100, and whether the cache gave it; or why there is
    /// none.
    fn ask_once(
        &self,
        daemon: &Daemon,
        reader: &mut BoardReader,
        ends: (IsdAs, IsdAs),
    ) -> Result<(Answer, bool), AskError>
        ensures { reader.new.board ≡ reader.old.board }
    {
        let (src, dst) = ends;
        let options = [option_text(None, None, 0)];
        match daemon.ask(self.rt, self.alloc, reader, src, dst, &options, 100, 4) {
            Ok((paths, is_served)) => Ok((answer_of(&paths), is_served)),
            Err(error) => Err(error),
        }
    }

    /// The same, repeated if that is allowed.
    pub(crate) fn ask(
        &self,
        daemon: &Daemon,
        reader: &mut BoardReader,
        ends: (IsdAs, IsdAs),
    ) -> Option<(Answer, bool)>
        ensures { reader.new.board ≡ reader.old.board }
    {
        let (src, dst) = ends;
        for _ in 0..TIMES {
            match self.ask_once(daemon, reader, (src, dst)) {
                Ok(given) => return Some(given),
                Err(OrMemory::Refused(AskFault::NoEntry)) => thread::yield_now(),
                Err(OrMemory::Memory) => {
                    if !self.shortage.may_want() {
                        return None;
                    }
                }
                Err(OrMemory::Refused(_)) => return None,
            }
        }
        None
    }

    /// The answer up the worked segment that a daemon with an empty cache gives, made without a
    /// daemon.
    pub(crate) fn answer(&self, reader: &mut BoardReader) -> Option<Answer> {
        if let Some(answer) = answer_once(self.alloc, reader) {
            return Some(answer);
        }
        if self.shortage.may_want() {
            return answer_once(self.alloc, reader);
        }
        None
    }
}

/// A reader.
pub(crate) fn seated(board: &mut BoardWriter) -> Option<BoardReader>
    ensures same { board.new ≡ board.old }
    ensures reader { IfSome result (λ reader. reader.board ≡ board.old.board) }
{
    for _ in 0..TIMES {
        match board.reader() {
            Ok(reader) => return Some(reader),
            Err(BoardFault::NoPlace) => thread::yield_now(),
            Err(BoardFault::NoEntry) => return None,
        }
    }
    None
}

/// The answer up the worked segment, without a daemon; none if something is refused.
fn answer_once(alloc: Global, reader: &mut BoardReader) -> Option<Answer> {
    let Ok(set) = reader.lookup(alloc, ia(0x111), ia(0x110), 100) else {
        return None;
    };
    answer_in(alloc, &set)
}

/// The same from a lookup's set.
fn answer_in(alloc: Global, set: &SegmentSet) -> Option<Answer> {
    let arena = Bump::new(alloc);
    let texts = [option_text(None, None, 0)];
    let Ok(options) = PolicyOption::parse_all(&arena, &texts) else {
        return None;
    };
    if options.is_empty() || options.len() > 16 {
        return None;
    }
    let Ok(paths) = combine(alloc, set, ia(0x111), ia(0x110), &options, 4) else {
        return None;
    };
    Some(answer_of(&paths))
}
