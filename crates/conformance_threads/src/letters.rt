//! Letters from a board's writer to a reader in another thread.

ghost use Rattle.std.specs.Prelude.{◌≡◌, IfSome};

use segment_board::{BoardReader, Told};
use std::marker::{Brand, PhantomData};
use std::sync::{Mutex, Wait};

/// One board. No value has this type; it occurs as a parameter of the types of letters.
pub(crate) trait OneBoard {
    ghost use Rattle.logbook.specs.Pages.{Book};

    ghost board: { Book };
}

impl OneBoard for Brand {
    ghost board = { record { number = 0; log_name = 0; cells_name = 0 } };
}

/// What the writer of one board has published, for a reader to learn.
#[derive(Drop)]
pub(crate) struct Letter<B: OneBoard> {
    told: Told,
    of: PhantomData<B>,
    ghost from: { told.board ≡ B.board },
}

impl<B: OneBoard> Letter<B> {
    pub(crate) fn new(told: Told) -> Letter<B>
        requires { told.board ≡ B.board }
    {
        Letter {
            told,
            of: PhantomData,
        }
    }

    /// The content of the letter.
    pub(crate) fn open(self) -> Told
        ensures { result.board ≡ B.board }
    {
        self.told
    }
}

/// A reader of one board.
#[derive(Drop)]
pub(crate) struct Seat<B: OneBoard> {
    reader: BoardReader,
    of: PhantomData<B>,
    ghost at: { reader.board ≡ B.board },
}

impl<B: OneBoard> Seat<B> {
    pub(crate) fn new(reader: BoardReader) -> Seat<B>
        requires { reader.board ≡ B.board }
    {
        Seat {
            reader,
            of: PhantomData,
        }
    }

    /// The reader.
    pub(crate) fn leave(self) -> BoardReader
        ensures { result.board ≡ B.board }
    {
        self.reader
    }
}

/// A place for a letter; one thread puts it in, and another takes it out.
#[derive(Drop)]
pub(crate) struct LetterBox<B: OneBoard> {
    letter: Mutex<Option<Letter<B>>>,
}

impl<B: OneBoard> LetterBox<B> {
    pub(crate) fn empty() -> LetterBox<B> {
        LetterBox {
            letter: Mutex::new(None),
        }
    }

    pub(crate) fn put<R: Wait>(&self, rt: &R, letter: Letter<B>) {
        let mut place = self.letter.lock(rt);
        *place = Some(letter);
    }

    pub(crate) fn take<R: Wait>(&self, rt: &R) -> Option<Letter<B>> {
        let mut place = self.letter.lock(rt);
        place.take()
    }
}
