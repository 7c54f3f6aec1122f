//! The state of a board: a store, and the part of the history whose newest edition made it.

ghost use Rattle.std.specs.Prelude.{◌≡◌};

use crate::history::HistoryPrefix;
use atomic_table::{Join, Split};
use crossbeam_utils::rule::{Outcome, Protocol};
use left_right::Absorb;
use left_right::reader::Reader;
use left_right::writer::Writer;
use path_server::{PathStore, StoreOp};
use std::alloc::AllocError;
use std::marker::Model;

/// A store, and the part of the board's history to which it belongs.
#[derive(Drop)]
pub(crate) struct BoardState {
    pub(crate) store: PathStore,
    pub(crate) front: HistoryPrefix,
}

impl Model for BoardState {
    ghost use Rattle.segment_board.specs.BoardState.{BoardValue};

    ghost Value = { BoardValue };

    ghost view = { λ s. record { store = s.store; front = s.front } };
}

/// An operation on the two copies of a board's state.
#[derive(Drop)]
pub(crate) enum BoardOp {
    /// An operation on the store.
    Apply(StoreOp),
    /// The history at the end of the operations that are published at one step.
    Mark(HistoryPrefix),
}

impl Absorb<BoardOp> for BoardState {
    type State = BoardState;

    ghost use Rattle.segment_board.specs.inner.BoardState.{board_after};

    ghost state = { λ s. s };

    ghost applied = { board_after };

    fn absorb_first(&mut self, operation: &BoardOp, _other: &BoardState) -> Result<(), AllocError> {
        match operation {
            BoardOp::Apply(op) => self.store.apply(op),
            BoardOp::Mark(front) => {
                self.front = front.again();
                Ok(())
            }
        }
    }
}

/// The rule of the board. Its store is the one that the published operations make. These begin with
/// what each thread saw there, at the same edition or at an earlier one. Five kinds of step keep
/// the rule: publishing, entering, telling, learning, and giving a reader its place.
pub(crate) struct Published;

impl Protocol<BoardState, Option<HistoryPrefix>> for Published {
    ghost use Rattle.std.specs.Prelude.{None};
    ghost use Rattle.segment_board.specs.inner.Rule.{KeepsViews};

    ghost holds = { KeepsViews };

    ghost first = { None };
}

/// What publishing shows to the writer: it has seen all that is published.
pub(crate) struct Publishes;

impl Outcome<BoardState, Option<HistoryPrefix>> for Publishes {
    ghost use Rattle.std.specs.Prelude.{◌≡◌, Some};

    ghost then = { λ v x y w. w ≡ Some y.front };
}

/// What entering shows to a reader: it has seen all that is published, which continues what it had
/// seen.
pub(crate) struct Enters;

impl Outcome<BoardState, Option<HistoryPrefix>> for Enters {
    ghost use Rattle.std.specs.Prelude.{◌≡◌, Some};
    ghost use Rattle.segment_board.specs.inner.BoardState.{IsTied};
    ghost use Rattle.segment_board.specs.inner.Rule.{FitsView};

    ghost then = { λ v x y w. (w ≡ Some x.front) × IsTied x × FitsView x v };
}

/// The writer of the two copies.
pub(crate) type StoreWriter = Writer<BoardState, BoardOp, Option<HistoryPrefix>, Published>;

/// A reader's place at the two copies.
pub(crate) type StoreReader = Reader<BoardState, Option<HistoryPrefix>, Published>;

/// The writer names its board, and knows it from then on.
pub(crate) struct Tells;

impl Split<Option<HistoryPrefix>> for Tells {
    ghost use Rattle.segment_board.specs.inner.Rule.{begun_as};

    ghost left = { λ v. v };

    ghost right = { begun_as };
}

/// A reader is told at which board it is.
pub(crate) struct Learns;

impl Join<Option<HistoryPrefix>> for Learns {
    ghost use Rattle.std.specs.Prelude.{None};

    ghost both = { λ v w. w };

    ghost spent = { None };
}
