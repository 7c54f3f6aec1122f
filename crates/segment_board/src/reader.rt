//! Readers of a board, which never wait.

ghost use Rattle.std.specs.Prelude.{◌≡◌, ◌⊎◌, Some, IfOk, IfErr, IfNone, IfSome, OnOk};
ghost use mathlib.Core.List.{IsPrefix};
ghost use Rattle.left_right.specs.Sides.{view as view_of};
ghost use Rattle.path_server.specs.Store.{store_of};
ghost use Rattle.path_server.specs.Lookup.{segments_for};
ghost use Rattle.segment_board.specs.History.{newest};
ghost use Rattle.segment_board.specs.inner.History.{ContinuesFrom};
ghost use Rattle.segment_board.specs.Board.{GivesNothing};

use crate::board_state::{Enters, StoreReader};
use crate::fault::{BoardFault, LookupError};
use crate::history::{HistoryPrefix, Told};
use core::mem::replace_with;
use isd_as::IsdAs;
use path_server::SegmentSet;
use refusal::OrMemory;
use std::alloc::{AllocError, Global};
use std::marker::Model;

/// A reader of a board. In contracts it is its board, the operations that it has seen, those that
/// it was told, and those that it found when it entered last.
#[derive(Drop)]
pub struct BoardReader {
    pub(crate) place: StoreReader,
    pub(crate) front: HistoryPrefix,
    pub(crate) told: HistoryPrefix,
}

impl Model for BoardReader {
    ghost use Rattle.left_right.specs.Sides.{view as view_of};
    ghost use Rattle.segment_board.specs.History.{found_operations, newest};
    ghost use Rattle.segment_board.specs.Rule.{HasSeen};
    ghost use Rattle.segment_board.specs.Board.{Informed};

    ghost Value = { Informed };

    ghost view = { λ r. record {
      board = r.front.board;
      seen = (newest r.front.log).operations;
      told = (newest r.told.log).operations;
      found = found_operations (view_of r.place.place);
    } };

    ghost invariant = { λ r. HasSeen (view_of r.place.place) r.front r.told };
}

/// A lookup in the store that a reader finds.
#[derive(Clone, Copy)]
struct StoreQuery {
    alloc: Global,
    src: IsdAs,
    dst: IsdAs,
    now: u32,
}

/// Enters the board, looks the segments up, and leaves. `None` if the reader could not enter.
fn look(
    place: StoreReader,
    asked: StoreQuery,
) -> (
    StoreReader,
    Option<(HistoryPrefix, Result<SegmentSet, AllocError>)>,
)
    ensures stayed { IfNone result.1 (view_of result.0.place ≡ view_of place.place) }
    ensures seen { IfSome result.1 (λ r. view_of result.0.place ≡ Some r.0) }
    ensures later { IfSome result.1 (λ r. IfSome (view_of place.place) (λ y. ContinuesFrom y r.0)) }
    ensures found { IfSome result.1 (λ r. IfOk r.1 (λ set. set
        ≡ segments_for (store_of (newest r.0.log).operations) asked.src asked.dst asked.now)) }
{
    match place.enter_as::<Enters>() {
        Ok(reading) => {
            let shown = reading.get();
            let set = shown
                .store
                .unshared_segments_for(asked.alloc, asked.src, asked.dst, asked.now);
            let front = shown.front.again();
            (reading.leave(), Some((front, set)))
        }
        Err(place) => (place, None),
    }
}

impl BoardReader {
    /// Learns what the writer of this reader's board has published. From now on this reader sees at
    /// least as much. Takes no memory.
    pub fn learn(&mut self, told: Told)
        requires board { told.board ≡ self.old.board }
        ensures board { self.new.board ≡ self.old.board }
        ensures seen { IsPrefix self.old.seen self.new.seen }
        ensures told { IsPrefix told.seen self.new.seen }
        // Nothing is invented: either nothing is new, or what was told is.
        ensures either { (self.new ≡ self.old)
            ⊎ (self.new ≡ record self.old { seen = told.seen; told = told.seen }) }
    {
        if !self.front.reaches(&told.front) {
            self.told = told.front.again();
            self.front = told.front;
        }
    }

    /// Copies of the segments of which paths from `src` to `dst` can be made at the second `now`,
    /// from a store that some published operations made. These operations begin with all that this
    /// reader had seen or learnt; it has seen them after the call, also if memory runs out. Waits
    /// for nobody.
    ///
    /// [`BoardFault::NoEntry`] if the reader could not enter the board. It has seen nothing more
    /// then, and the caller may try again. Memory can run out only once it has entered.
    pub fn lookup(
        &mut self,
        alloc: Global,
        src: IsdAs,
        dst: IsdAs,
        now: u32,
    ) -> Result<SegmentSet, LookupError>
        ensures board { self.new.board ≡ self.old.board }
        ensures found { IfOk result
            (λ set. set ≡ segments_for (store_of self.new.seen) src dst now) }
        ensures later { IsPrefix self.old.seen self.new.seen }
        ensures told { self.new.told ≡ self.old.told }
        ensures entered { OnOk result (self.new.found ≡ self.new.seen) }
        ensures none { IfErr result (λ fault. GivesNothing fault self.old self.new) }
    {
        let asked = StoreQuery {
            alloc,
            src,
            dst,
            now,
        };
        let Some((front, set)) = replace_with(&mut self.place, asked, look) else {
            return Err(OrMemory::Refused(BoardFault::NoEntry));
        };
        if !front.reaches(&self.front) {
            return Err(OrMemory::Refused(BoardFault::NoEntry));
        }
        self.front = front;
        match set {
            Ok(set) => Ok(set),
            Err(_) => Err(OrMemory::Memory),
        }
    }
}
