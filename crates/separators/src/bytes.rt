//! Blanks around bytes.
#![tactic(auto, unfolding(crate::specs::Blanks::after_blanks))]

ghost use Rattle.std.specs.Prelude.{◌≡◌, reverse};
ghost use Rattle.separators.specs.Blanks.{after_blanks, trimmed_text};

use crate::is_blank;

/// The bytes without blanks at both ends. Its time is linear in the blanks removed.
pub fn trim(bytes: &[u8]) -> &[u8]
    ensures { result.now ≡ trimmed_text bytes.now }
{
    trim_end(trim_start(bytes))
}

/// The bytes from the first on that is no blank. Its time is linear in the blanks removed.
pub fn trim_start(bytes: &[u8]) -> &[u8]
    ensures { result.now ≡ after_blanks bytes.now }
{
    let mut rest = bytes;
    while let Some((byte, behind)) = rest.split_first() {
        if !is_blank(*byte) {
            return rest;
        }
        rest = behind;
    }
    rest
}

/// The bytes up to the last that is no blank. Its time is linear in the blanks removed.
pub fn trim_end(bytes: &[u8]) -> &[u8]
    ensures { result.now ≡ reverse (after_blanks (reverse bytes.now)) }
{
    let mut rest = bytes;
    while let Some((byte, before)) = rest.split_last() {
        if !is_blank(*byte) {
            return rest;
        }
        rest = before;
    }
    rest
}
