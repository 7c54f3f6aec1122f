//! The words of lines, as they are told.

ghost use Rattle.std.specs.Prelude.{◌≡◌, ◌++◌, IfOk, OnOk, map};
ghost use Rattle.std.specs.String.{string_bytes};
ghost use Rattle.event_lines.specs.Line.{line_words};
ghost use Rattle.line_faults.specs.Misfits.{words_behind, words_text};

use event_lines::members::line_words;
use std::alloc::{AllocError, Global};
use std::fmt::Write;

/// Adds words behind a word.
fn push_words(text: &mut String, words: &[&str]) -> Result<(), AllocError>
    ensures { OnOk result (string_bytes text.new
        ≡ string_bytes text.old ++ words_behind (map (λ word. word.now) words.now)) }
{
    match words {
        [] => Ok(()),
        [word] => write!(text, " and {word}"),
        [word, more @ ..] => {
            write!(text, ", {word}")?;
            push_words(text, more)
        }
    }
}

/// A text that names each word of lines.
pub(crate) fn line_words_text(alloc: Global) -> Result<String, AllocError>
    ensures { IfOk result (λ text. string_bytes text ≡ words_text line_words) }
{
    let mut text = String::new(alloc);
    if let [word, more @ ..] = line_words() {
        write!(text, "one of {word}")?;
        push_words(&mut text, more)?;
    }
    Ok(text)
}
