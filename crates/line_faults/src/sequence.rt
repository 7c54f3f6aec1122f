//! Where the text of a sequence can't be read on.

use crate::found::Quoted;
use crate::said::Said;
use policy_expr::{HopPred, MAX_NESTING};
use std::alloc::{AllocError, Global};
use std::fmt::Write;

/// A piece of a sequence's text: a run of the characters of predicates, or another character that
/// is no blank.
#[derive(Clone, Copy)]
struct Piece<'a> {
    /// How many bytes of the text are before it.
    start: usize,
    text: &'a str,
}

/// What was read of a sequence.
#[derive(Drop)]
struct State {
    /// Where the parentheses stand that are open.
    open: Vec<usize>,
    /// Whether an item stands right before.
    has_item: bool,
}

impl State {
    /// Reads one more piece; `false` if it can't stand here.
    fn read(&mut self, piece: Piece<'_>) -> Result<bool, AllocError> {
        match piece.text {
            "(" if self.open.len() < MAX_NESTING => {
                self.open.push(piece.start)?;
                self.has_item = false;
            }
            ")" if self.has_item && !self.open.is_empty() => {
                let _ = self.open.pop();
            }
            "|" if self.has_item => self.has_item = false,
            "?" | "*" | "+" => return Ok(self.has_item),
            text if HopPred::parse(text).is_ok() => self.has_item = true,
            _ => return Ok(false),
        }
        Ok(true)
    }
}

/// Whether a character is one of predicates.
fn is_mark(letter: char) -> bool {
    letter.is_ascii_hexdigit() || matches!(letter, '-' | ':' | '#' | ',')
}

/// Whether a character is a blank.
fn is_blank(letter: char) -> bool {
    matches!(letter, ' ' | '\t' | '\r' | '\n')
}

/// Adds the piece of a text between two places.
fn add_piece<'a>(
    pieces: &mut Vec<Piece<'a>>,
    text: &'a str,
    start: usize,
    end: usize,
) -> Result<(), AllocError> {
    if let Some(text) = text.get(start..end) {
        pieces.push(Piece { start, text })?;
    }
    Ok(())
}

/// The pieces of a text, in order.
fn pieces_of<'a>(alloc: Global, text: &'a str) -> Result<Vec<Piece<'a>>, AllocError> {
    let mut pieces = Vec::new(alloc);
    let mut run = None;
    for (at, letter) in text.char_indices() {
        if is_mark(letter) {
            run = run.or(Some(at));
            continue;
        }
        if let Some(start) = run {
            add_piece(&mut pieces, text, start, at)?;
            run = None;
        }
        if !is_blank(letter) {
            add_piece(&mut pieces, text, at, at.saturating_add(letter.len_utf8()))?;
        }
    }
    if let Some(start) = run {
        add_piece(&mut pieces, text, start, text.len())?;
    }
    Ok(pieces)
}

/// Adds the column, counted from 1, at which a sequence can't be read on, and what stands there;
/// nothing if it can be read to its end.
pub(crate) fn push_stop(alloc: Global, why: &mut Said, text: &str) -> Result<(), AllocError> {
    let mut state = State {
        open: Vec::new(alloc),
        has_item: false,
    };
    for piece in pieces_of(alloc, text)? {
        if !state.read(piece)? {
            let column = piece.start.saturating_add(1);
            write!(why.text, ": column {column}")?;
            return why.push_found(&Quoted(piece.text));
        }
    }
    if !state.has_item {
        let column = text.len().saturating_add(1);
        write!(why.text, ": column {column}")?;
        return why.push_found(&"the end");
    }
    match state.open.last() {
        Some(place) => {
            let column = place.saturating_add(1);
            write!(why.text, ": column {column}")?;
            why.push_found(&Quoted("("))?;
            why.text.push_str(", which is not closed")
        }
        None => Ok(()),
    }
}
