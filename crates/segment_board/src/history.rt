//! The history of a board: the editions that were prepared for publishing, one after another. It
//! occurs only in contracts; a board stores its length.

ghost use Rattle.std.specs.Prelude.{◌≡◌, ◌+◌, ◌^◌, ◌<◌, [], ◌∷◌, ◌++◌, length, MatchBool};
ghost use mathlib.Core.List.{IsPrefix};
ghost use Rattle.segment_board.specs.History.{newest, opening};
ghost use Rattle.segment_board.specs.inner.History.{head_of, Rises};
ghost use Rattle.segment_board.specs.WriterState.{awaited};

use crate::board_state::StoreWriter;
use crate::edition::Edition;
use logbook::{Gain, Offer, Plain, Play, Rule, Seen, Start, Word};
use std::marker::Model;

/// The word that holds the length of the history.
pub(crate) type Head = Word<Edition, u64, AppendOnly>;

/// The rule of the history: each edition begins with the operations of the one before.
pub struct AppendOnly;

impl Rule<Edition, u64> for AppendOnly {
    ghost use Rattle.std.specs.Prelude.{[], ◌∷◌};
    ghost use base.Fml.{ftrue};
    ghost use Rattle.segment_board.specs.History.{opening};
    ghost use Rattle.segment_board.specs.inner.History.{IsKept};

    ghost holds = { λ cells log. IsKept cells log };

    ghost first = { opening ∷ [] };

    ghost hinted = { λ n log. Unit {0} };

    ghost shows = { λ log. [] };

    ghost keeps = { λ names log. ftrue };

    ghost moves = { λ ask before after answer. Unit {0} };
}

/// No step gives anything in exchange.
struct Nothing;

impl Gain<Edition, u64> for Nothing {
    ghost use base.Fml.{ftrue};

    ghost after = { λ names about answer. ftrue };
}

/// The step that adds the edition that the writer is about to publish.
struct Adds;

impl Play<Edition, u64> for Adds {
    ghost use Rattle.segment_board.specs.inner.History.{Added};

    ghost then = { Added };
}

impl Plain<StoreWriter, Edition, u64> for Adds {
    ghost use Rattle.std.specs.Prelude.{None};
    ghost use Rattle.segment_board.specs.WriterState.{awaited};

    ghost ask = { awaited };

    ghost state = { λ writer. None };
}

/// The beginning of the history that was seen.
#[derive(Drop)]
pub(crate) struct HistoryPrefix {
    count: u64,
    seen: Seen<Edition, u64, AppendOnly>,
}

impl Model for HistoryPrefix {
    ghost use Rattle.std.specs.Prelude.{◌≡◌, length};
    ghost use Rattle.segment_board.specs.History.{KnownHistory};
    ghost use Rattle.segment_board.specs.inner.History.{Rises};

    ghost Value = { KnownHistory };

    ghost view = { λ f. record { board = f.seen.book; log = f.seen.log } };

    ghost invariant = { λ f. (f.count ≡ length f.seen.log) × Rises f.seen.log };
}

impl HistoryPrefix {
    /// A new history, in which nothing was published.
    pub(crate) fn start() -> (Head, HistoryPrefix)
        ensures head { result.0 ≡ head_of result.1.board }
        ensures log { result.1.log ≡ opening ∷ [] }
    {
        let (seen, mut first, _second) = Seen::open(Start::alone(), 1, 0);
        let head = Word::tracked(1, &mut first);
        (head, HistoryPrefix { count: 1, seen })
    }

    /// A copy of this beginning.
    pub(crate) fn again(&self) -> HistoryPrefix
        ensures same { result ≡ self.now }
        ensures rises { Rises result.log }
    {
        HistoryPrefix {
            count: self.count,
            seen: self.seen.again(),
        }
    }

    /// Whether at least as much of the history was seen here as there.
    pub(crate) fn reaches(&self, other: &HistoryPrefix) -> bool
        requires { other.now.board ≡ self.now.board }
        ensures order { MatchBool result (IsPrefix other.now.log self.now.log)
            (IsPrefix self.now.log other.now.log) }
        ensures rises { Rises self.now.log × Rises other.now.log }
    {
        let mut both = self.seen.again();
        both.learn(&other.seen);
        other.count <= self.count
    }

    /// Adds the edition that the writer is about to publish, and returns whether it did. It does if
    /// the whole history was seen here.
    pub(crate) fn grow(&mut self, head: &Head, writer: &StoreWriter) -> bool
        requires head { head.now ≡ head_of self.old.board }
        requires more { IsPrefix (newest self.old.log).operations (awaited writer.now).operations }
        ensures { MatchBool result
            (self.new ≡ record self.old { log = self.old.log ++ awaited writer.now ∷ [] })
            (self.new ≡ self.old) }
    {
        if self.count >= 1 << 62 {
            return false;
        }
        let mut seen = self.seen.again();
        let mut offer: Offer<Edition, u64, AppendOnly, Nothing> = seen.plain::<
            Nothing,
            StoreWriter,
            Adds,
        >(writer);
        let mut pen = seen.no_pen();
        let count = self.count;
        let found = head.compare_exchange::<Adds, Nothing>(
            count,
            count + 1,
            &mut seen,
            &mut offer,
            &mut pen,
        );
        if found != count {
            return false;
        }
        self.count = count + 1;
        self.seen = seen;
        true
    }
}

/// What was published when the writer made this. A reader that learns it sees at least as much from
/// then on.
#[derive(Drop)]
pub struct Told {
    pub(crate) front: HistoryPrefix,
}

impl Model for Told {
    ghost use Rattle.segment_board.specs.History.{newest};
    ghost use Rattle.segment_board.specs.Board.{KnownOperations};

    ghost Value = { KnownOperations };

    ghost view = { λ t. record {
      board = t.front.board;
      seen = (newest t.front.log).operations;
    } };
}
