//! Lines that are no JSON.
#![tactic(auto, unfolding(json_fields::specs::Fields::document_in))]

ghost use Rattle.std.specs.Prelude.{◌≡◌, IfOk, option_map};
ghost use Rattle.serde_json.specs.View.{view};
ghost use Rattle.json_fields.specs.Fields.{document_in};

use crate::found::Front;
use crate::json_text::{Closers, Reading};
use crate::place::Place;
use crate::said::Said;
use separators::text::trim;
use serde_json::Value;
use std::alloc::{AllocError, Global};
use std::fmt::Write;
use std::str;

/// The value of a line; `None` if it is no JSON.
pub(crate) fn read(alloc: Global, line: &[u8]) -> Result<Option<Value>, AllocError>
    ensures { IfOk result (λ value. option_map view value ≡ document_in line.now) }
{
    match Value::from_slice(alloc, line) {
        Ok(value) => Ok(Some(value)),
        Err(error) if error.is_memory() => Err(AllocError),
        Err(_) => Ok(None),
    }
}

/// Adds where a line is no JSON. Its columns are counted from 1, in bytes. Returns whether its
/// value goes on in another line.
pub(crate) fn push_break(alloc: Global, why: &mut Said, line: &[u8]) -> Result<bool, AllocError> {
    let text = match str::from_utf8(line) {
        Ok(text) => text,
        Err(error) => {
            let column = error.valid_up_to().saturating_add(1);
            why.push_column(column)?;
            why.text.push_str(": the bytes are not UTF-8")?;
            return Ok(false);
        }
    };
    if trim(text).is_empty() {
        why.push_member(&Place::line(text))?;
        why.push_found(&"no text")?;
        why.push_wanted(&"a JSON object")?;
        return Ok(false);
    }
    match Value::from_str(alloc, text) {
        Ok(_) => Ok(false),
        Err(error) if error.is_memory() => Err(AllocError),
        Err(error) if error.is_eof() => push_early_end(alloc, why, text),
        Err(error) => {
            push_stop(alloc, why, text, error.column())?;
            Ok(false)
        }
    }
}

/// Adds that a line ends within a value, and what is wanted behind it. Returns whether the value
/// goes on in another line.
fn push_early_end(alloc: Global, why: &mut Said, text: &str) -> Result<bool, AllocError> {
    let mut reading = Reading::new(alloc);
    let end = reading.read_all(text.as_bytes())?;
    if end < text.len() {
        push_stop(alloc, why, text, end.saturating_add(1))?;
        return Ok(false);
    }
    why.push_column(end.saturating_add(1))?;
    why.text.push_str(": the line ends within a JSON value")?;
    if reading.is_behind_value() {
        why.push_wanted(&Closers(reading.open()))?;
    } else {
        why.push_wanted(&reading)?;
    }
    Ok(reading.goes_on())
}

/// Adds at which column a line is no JSON, what stands there, and what is wanted. A reader has
/// stopped at this column: at the first byte that can't stand there, or where the number, word or
/// text begins that it belongs to.
fn push_stop(alloc: Global, why: &mut Said, text: &str, column: usize) -> Result<(), AllocError> {
    let bytes = text.as_bytes();
    let mut reading = Reading::new(alloc);
    let mut at = reading.read_all(bytes)?;
    if at >= column && !reading.is_in_text_from(column) {
        reading = Reading::new(alloc);
        let before = bytes.get(..column.saturating_sub(1)).unwrap_or(bytes);
        at = reading.read_all(before)?;
    }
    why.push_column(at.saturating_add(1))?;
    why.text.push_str(": not JSON from here on")?;
    let rest = text.get(at..).unwrap_or("");
    if !rest.is_empty() {
        why.push_rest(&Front(rest))?;
    }
    why.push_wanted(&reading)?;
    push_odd_letter(why, rest)
}

/// Adds what a character is that a JSON text may have in a string alone, and that looks like
/// another one or like nothing.
fn push_odd_letter(why: &mut Said, text: &str) -> Result<(), AllocError> {
    let name = match text.chars().next() {
        Some('\u{FEFF}') => "a byte order mark",
        Some('\u{A0}') => "a no-break space",
        Some('\u{201C}' | '\u{201D}') => "a typographic quote",
        Some('\'') => "a single quote",
        Some(letter) if letter.is_control() => "a control character",
        _ => return Ok(()),
    };
    write!(why.text, "; {name} can't stand there")
}
