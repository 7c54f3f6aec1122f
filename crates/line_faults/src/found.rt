//! What stands at a place of a line, and what is wanted there.

ghost use Rattle.std.specs.Prelude.{◌≡◌, Some, IfSome, OnOk};
ghost use Rattle.line_faults.specs.inner.Meaning.{IsStill, member_said, wanted_said};

use crate::located::number_from;
use crate::place::Place;
use crate::said::Said;
use serde_json::Value;
use std::alloc::{AllocError, Allocator};
use std::fmt;
use std::fmt::{Display, Write};

/// The most characters of a value that are shown.
const MAX_SHOWN: usize = 60;

/// The mark with which some editors begin a file.
const BYTE_ORDER_MARK: char = '\u{FEFF}';

/// A text in quotes.
#[derive(Clone, Copy)]
pub(crate) struct Quoted<'a>(pub(crate) &'a str);

impl<'a> fmt::Display for Quoted<'a> {
    fn fmt<W: fmt::Write>(&self, f: &mut fmt::Formatter<W>) -> fmt::Result {
        write!(f, "\"{}\"", self.0)
    }
}

/// The first characters of a text, with the control characters and those that can't be seen by
/// their numbers.
#[derive(Clone, Copy)]
pub(crate) struct Front<'a>(pub(crate) &'a str);

/// Whether a character can't be told from a blank, or can't be seen at all.
fn is_hidden(letter: char) -> bool {
    letter.is_control() || (letter.is_whitespace() && letter != ' ') || letter == BYTE_ORDER_MARK
}

impl<'a> fmt::Display for Front<'a> {
    fn fmt<W: fmt::Write>(&self, f: &mut fmt::Formatter<W>) -> fmt::Result {
        let mut left = MAX_SHOWN;
        for letter in self.0.chars() {
            if left == 0 {
                return f.write_str("..");
            }
            if is_hidden(letter) {
                write!(f, "<U+{:04X}>", letter as u32)?;
            } else {
                f.write_char(letter)?;
            }
            left -= 1;
        }
        Ok(())
    }
}

/// Adds a value as it stands in the line of a place, or what it is if it is long.
pub(crate) fn push_value(why: &mut Said, place: Place<'_>, value: &Value) -> Result<(), AllocError>
    ensures { IsStill why.old why.new }
{
    match value {
        Value::Array(_) => why.push_found(&"a list"),
        Value::Object(_) => why.push_found(&"an object"),
        Value::Number(_) => match number_at_column(why, place) {
            Some(number) => why.push_found(&Front(number)),
            None => push_printed(why, value),
        },
        _ => push_printed(why, value),
    }
}

/// The number at the noted column of the line of a place, as it is written there.
fn number_at_column<'a>(why: &Said, place: Place<'a>) -> Option<&'a str> {
    number_from(place.text(), why.column?.checked_sub(1)?)
}

/// Adds a value that is no list and no object.
fn push_printed(why: &mut Said, value: &Value) -> Result<(), AllocError>
    ensures { IsStill why.old why.new }
{
    let mut text = String::new(*why.text.allocator());
    write!(text, "{value}")?;
    why.push_found(&Front(&text))
}

/// Adds what stands at a place: a value, or nothing.
pub(crate) fn push_found(
    why: &mut Said,
    place: Place<'_>,
    value: Option<&Value>,
) -> Result<(), AllocError>
    ensures { IsStill why.old why.new }
{
    match value {
        Some(value) => push_value(why, place, value),
        None => why.text.push_str(": missing"),
    }
}

/// Adds what stands at a place, and what is wanted.
pub(crate) fn push_wanted<D: Display>(
    why: &mut Said,
    place: Place<'_>,
    value: Option<&Value>,
    wanted: &D,
) -> Result<(), AllocError>
    ensures member { OnOk result (member_said why.new ≡ member_said why.old) }
    ensures wanted { OnOk result (IfSome (D.output wanted.now)
        (λ bytes. wanted_said why.new ≡ Some bytes)) }
{
    push_found(why, place, value)?;
    why.push_wanted(wanted)
}
