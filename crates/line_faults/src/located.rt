//! Where in a line a value stands.

use crate::json_text::{Level, Part, Reading, Step};
use std::alloc::{AllocError, Global};

/// A step into a value: to a member of an object, or to an item of a list.
#[derive(Clone, Copy)]
pub(crate) enum Inward<'a> {
    Member(&'a str),
    Item(usize),
}

/// The text of a part.
pub(crate) fn text_at(text: &str, part: Part) -> &str {
    text.get(part.start..part.end).unwrap_or("")
}

/// Whether a step leads to the value that is read in an open list or object.
fn is_step(text: &str, level: &Level, step: Inward<'_>) -> bool {
    match step {
        Inward::Member(name) => level.is_object && text_at(text, level.name) == name,
        Inward::Item(number) => !level.is_object && level.number == number,
    }
}

/// Whether these steps lead to the value that is read in these lists and objects.
fn is_at(text: &str, open: &[Level], steps: &[Inward<'_>]) -> bool {
    open.len() == steps.len()
        && open
            .iter()
            .zip(steps)
            .all(|(level, step)| is_step(text, level, *step))
}

/// The lists and objects around a value that begins with the last byte, if one does.
fn levels_around(reading: &Reading, step: Step) -> Option<&[Level]> {
    match step {
        Step::Value => Some(reading.open()),
        Step::Opens => reading.around(),
        Step::Name | Step::Closes | Step::Inside => None,
    }
}

/// Where the value begins to which these steps lead from the whole line; of two members with one
/// name that is the last.
pub(crate) fn start_of(
    alloc: Global,
    text: &str,
    steps: &[Inward<'_>],
) -> Result<Option<usize>, AllocError> {
    let mut reading = Reading::new(alloc);
    let mut start = None;
    for (at, byte) in text.as_bytes().iter().enumerate() {
        let step = reading.read(at, *byte)?;
        if levels_around(&reading, step).is_some_and(|open| is_at(text, open, steps)) {
            start = Some(at);
        }
    }
    Ok(start)
}

/// The place of a value among the items of the list to which these steps lead, if it is in it.
fn number_in(text: &str, open: &[Level], steps: &[Inward<'_>]) -> Option<usize> {
    let (list, around) = open.split_last()?;
    if list.is_object || !is_at(text, around, steps) {
        return None;
    }
    Some(list.number)
}

/// Where the items of the list begin to which these steps lead from the whole line; of two members
/// with one name that is the last. The line is read once.
pub(crate) fn item_starts(
    alloc: Global,
    text: &str,
    steps: &[Inward<'_>],
) -> Result<Vec<usize>, AllocError> {
    let mut reading = Reading::new(alloc);
    let mut starts = Vec::new(alloc);
    for (at, byte) in text.as_bytes().iter().enumerate() {
        let step = reading.read(at, *byte)?;
        let number = levels_around(&reading, step).and_then(|open| number_in(text, open, steps));
        if let Some(number) = number {
            starts.truncate(number);
            starts.push(at)?;
        }
    }
    Ok(starts)
}

/// Whether a byte is one of numbers.
fn is_of_number(byte: u8) -> bool {
    byte.is_ascii_digit() || matches!(byte, b'-' | b'+' | b'.' | b'e' | b'E')
}

/// The number that begins at this place of a text, as it is written there.
pub(crate) fn number_from(text: &str, start: usize) -> Option<&str> {
    let rest = text.get(start..)?;
    let end = rest
        .as_bytes()
        .iter()
        .position(|byte| !is_of_number(*byte))
        .unwrap_or(rest.len());
    rest.get(..end)
}
