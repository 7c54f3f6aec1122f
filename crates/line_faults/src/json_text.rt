//! The text of a line, read as JSON one byte after another: what may stand next, and which value
//! begins where.

use std::alloc::{AllocError, Global};
use std::fmt;
use std::fmt::Display;

/// What may stand next in a JSON text.
#[derive(Clone, Copy, PartialEq, Eq)]
enum Next {
    Value,
    ValueOrEnd,
    Name,
    NameOrEnd,
    Colon,
    CommaOrEnd,
    Nothing,
}

/// What the last byte belongs to, if it is not read by itself.
#[derive(Clone, Copy, PartialEq, Eq)]
enum Token {
    None,
    Text,
    /// The backslash in a text.
    Escape,
    /// A number, or a word such as `true`.
    Bare,
}

/// A part of a text: where it begins, and where the text goes on.
#[derive(Clone, Copy)]
pub(crate) struct Part {
    pub(crate) start: usize,
    pub(crate) end: usize,
}

/// What begins or ends with a byte.
#[derive(Clone, Copy)]
pub(crate) enum Step {
    /// Nothing that is told.
    Inside,
    /// A text begins, a number or a word.
    Value,
    /// A list or an object begins, which is open now.
    Opens,
    /// A list or an object ends.
    Closes,
    /// The name of a member ends.
    Name,
}

/// A list or an object that is not closed yet.
#[derive(Clone, Copy)]
pub(crate) struct Level {
    pub(crate) is_object: bool,
    /// The place of the value among those of the list.
    pub(crate) number: usize,
    /// The name of the member, between its quotes.
    pub(crate) name: Part,
}

/// How far a JSON text was read.
#[derive(Drop)]
pub(crate) struct Reading {
    open: Vec<Level>,
    next: Next,
    token: Token,
    /// Where the text begins that is read, or the number or word, with its first and last byte.
    start: usize,
    first: u8,
    last: u8,
}

impl Reading {
    /// Of nothing yet.
    pub(crate) fn new(alloc: Global) -> Reading {
        Reading {
            open: Vec::new(alloc),
            next: Next::Value,
            token: Token::None,
            start: 0,
            first: 0,
            last: 0,
        }
    }

    /// Reads this text up to the first byte that can't stand where it stands. Returns the place of
    /// that byte, or the length of the text if there is none.
    pub(crate) fn read_all(&mut self, text: &[u8]) -> Result<usize, AllocError> {
        for (at, byte) in text.iter().enumerate() {
            if !self.may_stand(*byte) {
                return Ok(at);
            }
            let _ = self.read(at, *byte)?;
        }
        Ok(text.len())
    }

    /// Whether a byte may stand next; of a number or a word each of its letters may.
    fn may_stand(&self, byte: u8) -> bool {
        match self.token {
            Token::Text => return byte >= b' ',
            Token::Escape => return b"\"\\/bfnrtu".contains(&byte),
            Token::Bare if is_bare(byte) => return true,
            Token::None | Token::Bare => {}
        }
        match byte {
            b' ' | b'\t' | b'\r' | b'\n' => true,
            b'"' => self.is_value_next() || self.is_name_next(),
            b'{' | b'[' => self.is_value_next(),
            b'}' => self.may_close(true, Next::NameOrEnd),
            b']' => self.may_close(false, Next::ValueOrEnd),
            b':' => self.next == Next::Colon,
            b',' => self.next == Next::CommaOrEnd,
            _ => is_bare(byte) && self.is_value_next(),
        }
    }

    /// Whether the innermost object or list may end here; it may where it has begun, if that is
    /// what stands here.
    fn may_close(&self, is_object: bool, begun: Next) -> bool {
        let is_innermost = match self.open.last() {
            Some(level) => level.is_object == is_object,
            None => false,
        };
        is_innermost && (self.next == begun || self.next == Next::CommaOrEnd)
    }

    /// Whether a value may stand here.
    fn is_value_next(&self) -> bool {
        matches!(self.next, Next::Value | Next::ValueOrEnd)
    }

    /// The lists and objects that are open, the outermost first.
    pub(crate) fn open(&self) -> &[Level] {
        &self.open
    }

    /// Those around the innermost, if one is open.
    pub(crate) fn around(&self) -> Option<&[Level]> {
        Some(self.open.split_last()?.1)
    }

    /// Reads the byte at this place.
    pub(crate) fn read(&mut self, at: usize, byte: u8) -> Result<Step, AllocError> {
        match self.token {
            Token::Text => return Ok(self.read_in_text(at, byte)),
            Token::Escape => {
                self.token = Token::Text;
                return Ok(Step::Inside);
            }
            Token::None | Token::Bare => {}
        }
        match byte {
            b'"' => Ok(self.begin_text(at)),
            b'{' => self.open_level(at, true),
            b'[' => self.open_level(at, false),
            b'}' | b']' => Ok(self.close_level()),
            b':' => Ok(self.pass(Next::Value)),
            b',' => Ok(self.read_comma()),
            b' ' | b'\t' | b'\r' | b'\n' => Ok(self.pass(self.next)),
            _ => Ok(self.read_bare(at, byte)),
        }
    }

    /// Whether a value was read to its end, and lists or objects around it are open.
    pub(crate) fn is_behind_value(&self) -> bool {
        let is_whole = match self.token {
            Token::None => true,
            Token::Bare => !self.is_word_cut(),
            Token::Text | Token::Escape => false,
        };
        is_whole && self.next == Next::CommaOrEnd
    }

    /// Whether a text is read whose first quote is at this column, counted from 1.
    pub(crate) fn is_in_text_from(&self, column: usize) -> bool {
        matches!(self.token, Token::Text | Token::Escape) && self.start == column
    }

    /// Whether a value, a name or a comma is to come.
    pub(crate) fn goes_on(&self) -> bool {
        self.token == Token::None && self.next != Next::CommaOrEnd
    }

    /// The byte of a text.
    fn read_in_text(&mut self, at: usize, byte: u8) -> Step {
        match byte {
            b'\\' => {
                self.token = Token::Escape;
                Step::Inside
            }
            b'"' => self.end_text(at),
            _ => Step::Inside,
        }
    }

    /// Whether a text at this place is the name of a member.
    fn is_name_next(&self) -> bool {
        matches!(self.next, Next::Name | Next::NameOrEnd)
    }

    /// A text begins.
    fn begin_text(&mut self, at: usize) -> Step {
        self.token = Token::Text;
        self.start = at.saturating_add(1);
        if self.is_name_next() {
            Step::Inside
        } else {
            Step::Value
        }
    }

    /// A text ends.
    fn end_text(&mut self, at: usize) -> Step {
        self.token = Token::None;
        if !self.is_name_next() {
            self.next = self.behind_value();
            return Step::Inside;
        }
        let start = self.start;
        if let Some(level) = self.open.last_mut() {
            level.name = Part { start, end: at };
        }
        self.next = Next::Colon;
        Step::Name
    }

    /// What may stand behind a value.
    fn behind_value(&self) -> Next {
        if self.open.is_empty() {
            Next::Nothing
        } else {
            Next::CommaOrEnd
        }
    }

    /// A byte that is no part of a value; this may stand behind it.
    fn pass(&mut self, next: Next) -> Step {
        self.token = Token::None;
        self.next = next;
        Step::Inside
    }

    /// An object or a list begins.
    fn open_level(&mut self, at: usize, is_object: bool) -> Result<Step, AllocError> {
        self.token = Token::None;
        self.next = if is_object {
            Next::NameOrEnd
        } else {
            Next::ValueOrEnd
        };
        self.open.push(Level {
            is_object,
            number: 0,
            name: Part { start: at, end: at },
        })?;
        Ok(Step::Opens)
    }

    /// An object or a list ends.
    fn close_level(&mut self) -> Step {
        let _ = self.open.pop();
        let next = self.behind_value();
        let _ = self.pass(next);
        Step::Closes
    }

    /// A comma between the values of a list, or the members of an object.
    fn read_comma(&mut self) -> Step {
        let mut next = Next::Value;
        if let Some(level) = self.open.last_mut() {
            level.number = level.number.saturating_add(1);
            if level.is_object {
                next = Next::Name;
            }
        }
        self.pass(next)
    }

    /// A byte of a number, or of a word.
    fn read_bare(&mut self, at: usize, byte: u8) -> Step {
        self.last = byte;
        if self.token == Token::Bare {
            return Step::Inside;
        }
        self.token = Token::Bare;
        self.start = at;
        self.first = byte;
        self.next = self.behind_value();
        Step::Value
    }

    /// Whether a number or a word is read that ends before it is whole.
    fn is_word_cut(&self) -> bool {
        self.token == Token::Bare
            && (self.first.is_ascii_alphabetic()
                || matches!(self.last, b'.' | b'-' | b'+' | b'e' | b'E'))
    }

    /// The end of the innermost list or object.
    fn end_of_level(&self) -> &'static str {
        match self.open.last() {
            Some(level) if level.is_object => "\"}\"",
            _ => "\"]\"",
        }
    }
}

/// Whether a byte is one of numbers, or of words such as `true`.
fn is_bare(byte: u8) -> bool {
    byte.is_ascii_alphanumeric() || matches!(byte, b'-' | b'+' | b'.')
}

/// What is wanted behind the text that was read: what may stand there.
impl Display for Reading {
    fn fmt<W: fmt::Write>(&self, f: &mut fmt::Formatter<W>) -> fmt::Result {
        if self.is_word_cut() {
            return f.write_str("a number, true, false or null");
        }
        let what = match (self.token, self.next) {
            (Token::Text, _) => return f.write_str("more of the text, or its closing \""),
            (Token::Escape, _) => return f.write_str("one of \"\\/bfnrtu behind a backslash"),
            (_, Next::Value) if self.open.is_empty() => "a JSON object",
            (_, Next::Value) => "a value",
            (_, Next::ValueOrEnd) => return f.write_str("a value or \"]\""),
            (_, Next::Name) => "a name in double quotes",
            (_, Next::NameOrEnd) => "a name in double quotes or \"}\"",
            (_, Next::Colon) => "\":\"",
            (_, Next::CommaOrEnd) => return write!(f, "\",\" or {}", self.end_of_level()),
            (_, Next::Nothing) => "the end of the line",
        };
        f.write_str(what)
    }
}

/// What closes all lists and objects that are open, the innermost first.
#[derive(Clone, Copy)]
pub(crate) struct Closers<'a>(pub(crate) &'a [Level]);

impl<'a> Display for Closers<'a> {
    fn fmt<W: fmt::Write>(&self, f: &mut fmt::Formatter<W>) -> fmt::Result {
        f.write_char('"')?;
        for level in self.0.iter().rev() {
            f.write_char(if level.is_object { '}' } else { ']' })?;
        }
        f.write_char('"')
    }
}
