//! The member of a refused line that its refusal is about.
#![tactic(auto, unfolding(crate::specs::Subjects::plain_subject, crate::specs::Subjects::subject_of))]

ghost use Rattle.std.specs.Prelude.{◌≡◌, option_map};
ghost use Rattle.serde_json.specs.View.{view};
ghost use Rattle.line_faults.specs.Subjects.{event_subject, is_of_path, is_of_verifier, plain_subject, subject_of};

use crate::history::text_of;
use serde_json::Value;

/// Whether the verifier refuses something by this number.
fn is_of_verifier(code: usize) -> bool
    ensures { result ≡ is_of_verifier code }
{
    70 <= code && code <= 82
}

/// Whether a `send` that is refused by this number is refused for its path.
fn is_of_path(code: usize) -> bool
    ensures { result ≡ is_of_path code }
{
    is_of_verifier(code) || code == 14 || code == 17
}

/// The member that a refusal of this number is about, where the word of the line makes no
/// difference.
fn plain_subject(code: usize) -> Option<&'static str>
    ensures { option_map (λ name. name.now) result ≡ plain_subject code }
{
    match code {
        11 => Some("key"),
        14 => Some("ia"),
        17 => Some("if"),
        31 => Some("beacon"),
        33 => Some("ia"),
        40 => Some("ia"),
        41 => Some("egress"),
        42 => Some("beacon"),
        43 => Some("egress"),
        44 => Some("ia"),
        50 => Some("beacon"),
        51 => Some("beacon"),
        67 => Some("options"),
        85 => Some("dst"),
        _ => None,
    }
}

/// The member that a refusal of this number is about, in a line with this word; none if it is not
/// one that an event passes on from below.
fn subject_of(word: &str, code: usize) -> Option<&'static str>
    ensures { option_map (λ name. name.now) result ≡ subject_of word.now code }
{
    if is_of_path(code) && word == "send" {
        return Some("path");
    }
    if code == 42 && word == "originate" {
        return Some("egress");
    }
    if is_of_verifier(code) {
        return Some("packet");
    }
    plain_subject(code)
}

/// The member of an event that a refusal of this number is about; none if it is not one that the
/// event passes on from below.
pub(crate) fn event_subject(event: &Value, code: usize) -> Option<&'static str>
    ensures { option_map (λ name. name.now) result ≡ event_subject code (view event.now) }
{
    subject_of(text_of(event, "do")?, code)
}
