//! Separators in a text: blanks around it, which are spaces, tabs, CR and LF and no other white
//! space, and a sign between its parts.
//!
//! [`bytes`] removes blanks from bytes, [`text`] from text, and [`sign`] cuts a text.
#![tactic(auto)]

pub mod bytes;
pub mod sign;
pub mod text;

ghost use Rattle.std.specs.Prelude.{◌≡◌};
ghost use Rattle.separators.specs.Blanks as blanks;

/// Whether the byte is a space, a tab, CR or LF.
pub fn is_blank(byte: u8) -> bool
    ensures { result ≡ blanks.is_blank byte }
{
    byte == b' ' || byte == b'\t' || byte == b'\r' || byte == b'\n'
}
