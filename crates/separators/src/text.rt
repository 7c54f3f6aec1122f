//! Blanks around text.
#![tactic(auto, unfolding(crate::specs::Blanks::after_blanks))]

ghost use Rattle.std.specs.Prelude.{◌≡◌, reverse};
ghost use Rattle.separators.specs.Blanks.{after_blanks, trimmed_text};

use crate::is_blank;

/// The text without blanks at both ends. Its time is linear in the blanks removed.
pub fn trim(text: &str) -> &str
    ensures { result.now ≡ trimmed_text text.now }
{
    trim_end(trim_start(text))
}

/// The text from its first character on that is no blank. Its time is linear in the blanks removed.
pub fn trim_start(text: &str) -> &str
    ensures { result.now ≡ after_blanks text.now }
{
    let mut rest = text;
    while let Some((byte, _)) = rest.as_bytes().split_first() {
        if !is_blank(*byte) {
            return rest;
        }
        rest = &rest[1..];
    }
    rest
}

/// The text up to its last character that is no blank. Its time is linear in the blanks removed.
pub fn trim_end(text: &str) -> &str
    ensures { result.now ≡ reverse (after_blanks (reverse text.now)) }
{
    let mut rest = text;
    while let Some((byte, before)) = rest.as_bytes().split_last() {
        if !is_blank(*byte) {
            return rest;
        }
        rest = &rest[..before.len()];
    }
    rest
}
