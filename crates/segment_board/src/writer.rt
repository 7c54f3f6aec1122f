//! The writer of a board.

ghost use Rattle.std.specs.Prelude.{◌≡◌, ◌<◌, ◌≤◌, ◌+◌, ◌++◌, [], ◌∷◌, Some, fold, IfOk, IfErr, OnOk, OnErr, MatchBool, MatchResult};
ghost use Rattle.left_right.specs.Sides.{view as view_of};
ghost use Rattle.path_server.specs.declared.op.StoreOp.TheVariants.{Register, Sweep};
ghost use Rattle.segment_board.specs.declared.fault.BoardFault.TheVariants.{NoPlace};
ghost use Rattle.segment_board.specs.declared.board_state.BoardOp.TheVariants.{Apply, Mark};
ghost use Rattle.segment_board.specs.inner.BoardState.{board_after, IsReady};
ghost use Rattle.segment_board.specs.WriterState.{shown_of, queue_of};

use crate::board_state::{BoardOp, BoardState, Learns, Publishes, StoreWriter, Tells};
use crate::fault::BoardFault;
use crate::history::{Head, HistoryPrefix, Told};
use crate::reader::BoardReader;
use core::mem::replace_with;
use left_right::writer::Writer;
use path_segment::Segment;
use path_server::{PathStore, StoreOp};
use std::alloc::{AllocError, AllocFailed, Global};
use std::marker::Model;
use std::sync::Wait;

/// The writer of a board. In contracts it is its board, the number of editions published there, the
/// operations that are published, and those that are pending. [`BoardWriter::close`] ends it.
pub struct BoardWriter {
    writer: StoreWriter,
    head: Head,
    root: HistoryPrefix,
    latest: HistoryPrefix,
}

impl Model for BoardWriter {
    ghost use Rattle.segment_board.specs.WriterState.{edition_of, queue_of, operations_of};
    ghost use Rattle.segment_board.specs.Board.{Written};
    ghost use Rattle.segment_board.specs.Writing.{IsInOrder};

    ghost Value = { Written };

    ghost view = { λ b. record {
      board = b.latest.board;
      edition = (edition_of b.writer).number;
      published = (edition_of b.writer).operations;
      pending = operations_of (queue_of b.writer);
    } };

    ghost invariant = { λ b. IsInOrder b.writer b.head b.root b.latest };
}

/// Shows the pending operations to readers.
fn show<R: Wait>(writer: StoreWriter, rt: &R) -> (StoreWriter, Result<(), AllocError>)
    requires { IsReady (shown_of writer) (queue_of writer) }
    ensures { MatchResult result.1
        (λ _. (shown_of result.0 ≡ fold board_after (shown_of writer) (queue_of writer))
        × (queue_of result.0 ≡ []) × (view_of result.0.desk.place ≡ Some (shown_of result.0).front))
        (λ _. (shown_of result.0 ≡ shown_of writer) × (queue_of result.0 ≡ queue_of writer)
        × (view_of result.0.desk.place ≡ view_of writer.desk.place)) }
{
    writer.publish_as::<Publishes, R>(rt)
}

/// Adds an operation to those that are pending. It is returned if memory runs out.
fn add(writer: &mut StoreWriter, op: StoreOp) -> Result<(), StoreOp>
    ensures desk { writer.new.desk ≡ writer.old.desk }
    ensures queue { MatchResult result
        (λ _. queue_of writer.new ≡ queue_of writer.old ++ Apply op ∷ [])
        (λ x. (x ≡ op) × (queue_of writer.new ≡ queue_of writer.old)) }
{
    match writer.append(BoardOp::Apply(op)) {
        // What is refused is the operation that was given.
        Err(BoardOp::Apply(op)) => Err(op),
        _ => Ok(()),
    }
}

/// Adds the history at the end of the operations to be published, and returns whether there was
/// memory for it.
fn mark(writer: &mut StoreWriter, front: HistoryPrefix) -> bool
    ensures desk { writer.new.desk ≡ writer.old.desk }
    ensures queue { MatchBool result
        (queue_of writer.new ≡ queue_of writer.old ++ Mark front ∷ [])
        (queue_of writer.new ≡ queue_of writer.old) }
{
    writer.append(BoardOp::Mark(front)).is_ok()
}

/// A board with an empty store and room for 1 to 8 readers at once, unless memory runs out. Waits
/// for nobody, since there is no reader yet.
pub fn new_board<R: Wait>(rt: &R, alloc: Global, readers: usize) -> Result<BoardWriter, AllocError>
    requires some { 0 < readers }
    requires few { readers ≤ 8 }
    ensures { IfOk result (λ board.
        (board.edition ≡ 0) × (board.published ≡ []) × (board.pending ≡ [])) }
{
    let (head, root) = HistoryPrefix::start();
    let latest = root.again();
    let first = BoardState {
        store: PathStore::new(alloc),
        front: root.again(),
    };
    let second = BoardState {
        store: PathStore::new(alloc),
        front: root.again(),
    };
    let writer = Writer::new(alloc, first, second, readers)?;
    match show(writer, rt) {
        (writer, Ok(())) => Ok(BoardWriter {
            writer,
            head,
            root,
            latest,
        }),
        (writer, Err(_)) => {
            drop(writer.take(rt));
            Err(AllocError)
        }
    }
}

impl BoardWriter {
    /// A reader that has seen nothing.
    ///
    /// [`BoardFault::NoPlace`] if no place is free; the caller may try again.
    pub fn reader(&mut self) -> Result<BoardReader, BoardFault>
        ensures same { self.new ≡ self.old }
        ensures reader { IfOk result
            (λ reader. (reader.board ≡ self.old.board) × (reader.seen ≡ []) × (reader.told ≡ [])) }
        ensures none { IfErr result (λ fault. fault ≡ NoPlace) }
    {
        let Ok(mut place) = self.writer.factory().reader() else {
            return Err(BoardFault::NoPlace);
        };
        place.learn::<Learns>(self.writer.tell::<Tells>());
        Ok(BoardReader {
            place,
            front: self.root.again(),
            told: self.root.again(),
        })
    }

    /// Adds the registration of a segment at the second `now` to the pending operations. The
    /// segment is returned if memory runs out.
    pub fn register(&mut self, segment: Segment, now: u32) -> Result<(), AllocFailed<Segment>>
        ensures done { OnOk result (self.new
            ≡ record self.old { pending = self.old.pending ++ Register segment now ∷ [] }) }
        ensures back { IfErr result (λ e. (e.value ≡ segment) × (self.new ≡ self.old)) }
    {
        let Err(op) = add(&mut self.writer, StoreOp::Register(segment, now)) else {
            return Ok(());
        };
        match op {
            StoreOp::Register(value, _) => Err(AllocFailed { value }),
            // What is given back is the registration: `add` takes both operations, so its type
            // can't say which.
            StoreOp::Sweep(_) => unreachable!(),
        }
    }

    /// Adds a sweep at the second `now` to the pending operations. [`AllocError`] if memory runs
    /// out; then nothing is added.
    pub fn sweep(&mut self, now: u32) -> Result<(), AllocError>
        ensures done { OnOk result (self.new
            ≡ record self.old { pending = self.old.pending ++ Sweep now ∷ [] }) }
        ensures kept { OnErr result (self.new ≡ self.old) }
    {
        let Err(_op) = add(&mut self.writer, StoreOp::Sweep(now)) else {
            return Ok(());
        };
        Err(AllocError)
    }

    /// Publishes all pending operations at one step, as the next edition. It may wait for readers
    /// that are inside.
    ///
    /// If memory runs out, all operations are still pending, and a later call publishes them.
    pub fn publish<R: Wait>(&mut self, rt: &R) -> Result<(), AllocError>
        ensures done { OnOk result (self.new ≡ record self.old {
          edition = self.old.edition + 1;
          published = self.old.published ++ self.old.pending;
          pending = [];
        }) }
        ensures kept { OnErr result (self.new ≡ self.old) }
    {
        let mut latest = self.latest.again();
        if !latest.grow(&self.head, &self.writer) {
            return Err(AllocError);
        }
        let marked = mark(&mut self.writer, latest.again());
        self.latest = latest;
        if !marked {
            return Err(AllocError);
        }
        replace_with(&mut self.writer, rt, show)
    }

    /// What is published now, for a reader of this board to learn. Takes no memory.
    pub fn tell(&self) -> Told
        ensures board { result.board ≡ self.now.board }
        ensures seen { result.seen ≡ self.now.published }
    {
        Told {
            front: self.writer.published().front.again(),
        }
    }

    /// Ends the writer. It may wait for readers that are inside.
    pub fn close<R: Wait>(self, rt: &R) {
        let BoardWriter {
            writer,
            head: _head,
            root: _root,
            latest: _latest,
        } = self;
        drop(writer.take(rt));
    }
}
