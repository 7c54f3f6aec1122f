ghost use Rattle.std.specs.Prelude.{◌≡◌, ℕ, ◌+◌, ◌/◌, ◌%◌, ◌^◌, ◌<◌, ◌≤◌, [], ◌∷◌, false, ◌++◌, length, take, drop, Some};
ghost use Rattle.std.specs.Fmt.{decimal, digits, digit_glyph};
ghost use Rattle.arrayvec.specs.ArrayVec.{array_vec_len};
ghost use Rattle.isd_as.specs.Address.{canonical, canonical_as};

use crate::address::IsdAs;
use crate::numbers::{AsNumber, IfId, Isd};
use arrayvec::ArrayVec;
use std::fmt;

/// The first AS number that is printed in groups.
const FIRST_IN_GROUPS: u64 = 1 << 32;

impl fmt::Display for Isd {
    ghost output = { λ isd. Some (decimal isd) };

    fn fmt<W: fmt::Write>(&self, f: &mut fmt::Formatter<W>) -> fmt::Result {
        write!(f, "{}", self.number())
    }
}

impl fmt::Display for AsNumber {
    ghost output = { λ as_number. Some (canonical_as as_number) };

    fn fmt<W: fmt::Write>(&self, f: &mut fmt::Formatter<W>) -> fmt::Result {
        let number = self.number();
        if number < FIRST_IN_GROUPS {
            write!(f, "{number}")
        } else {
            let [high, middle, low] = groups(number);
            write!(f, "{high:x}:{middle:x}:{low:x}")
        }
    }
}

impl fmt::Display for IsdAs {
    ghost output = { λ a. Some (canonical a) };

    // One text, and not three formatters in a row: hops are printed by the thousand.
    fn fmt<W: fmt::Write>(&self, f: &mut fmt::Formatter<W>) -> fmt::Result {
        // Its range, by which the text is ASCII, is known once the number is read.
        let _number = self.number();
        let text = self.text();
        f.write_str(str::from_utf8(&text).unwrap())
    }
}

impl fmt::Display for IfId {
    ghost output = { λ interface. Some (decimal interface) };

    fn fmt<W: fmt::Write>(&self, f: &mut fmt::Formatter<W>) -> fmt::Result {
        write!(f, "{}", self.number())
    }
}

/// The largest number of bytes in the text of an address, that of `65535-ffff:ffff:ffff`.
pub const MAX_TEXT_LEN: usize = 20;

/// A text under construction.
type Text = ArrayVec<u8, MAX_TEXT_LEN>;

impl IsdAs {
    /// Writes the canonical text to the front of the room and returns its length in bytes. The
    /// bytes after it stay as they were.
    pub fn write_text(&self, room: &mut [u8; MAX_TEXT_LEN]) -> usize
        ensures written { take result room.new ≡ canonical self.now }
        ensures len { result ≡ length (canonical self.now) }
        ensures rest { drop result room.new ≡ drop result room.old }
    {
        let text = self.text();
        let len = text.len();
        room[..len].copy_from_slice(&text);
        len
    }

    /// The canonical text.
    #[tactic(auto, using(crate::proofs::Lengths::of_isd))]
    fn text(&self) -> Text
        ensures { result.items ≡ canonical self.now }
    {
        let mut text = Text::new();
        push_decimal(&mut text, u64::from(self.isd().number()));
        text.push(b'-');
        push_as_number(&mut text, self.as_number().number());
        text
    }
}

/// Adds the canonical text of an AS number at the end.
#[tactic(auto, using(crate::proofs::Lengths::of_group, crate::proofs::Lengths::of_decimal_as))]
fn push_as_number(text: &mut Text, number: u64)
    requires fits { number < 2 ^ 48 }
    requires room { array_vec_len text.old ≤ 6 }
    ensures { text.new.items ≡ text.old.items ++ canonical_as number }
{
    if number < FIRST_IN_GROUPS {
        push_decimal(text, number);
    } else {
        let [high, middle, low] = groups(number);
        push_hex(text, high);
        text.push(b':');
        push_hex(text, middle);
        text.push(b':');
        push_hex(text, low);
    }
}

/// Adds a number's decimal digits at the end.
#[tactic(auto, using(crate::proofs::Printed::digits_one))]
fn push_decimal(text: &mut Text, number: u64)
    requires room { array_vec_len text.old + length (decimal number) ≤ MAX_TEXT_LEN }
    ensures added { text.new.items ≡ text.old.items ++ decimal number }
    ensures len { array_vec_len text.new ≡ array_vec_len text.old + length (decimal number) }
{
    if number < 10 {
        text.push(glyph(number));
    } else {
        push_decimal(text, number / 10);
        text.push(glyph(number % 10));
    }
}

/// Adds a number's hexadecimal digits at the end, in lower case.
#[tactic(auto, using(crate::proofs::Printed::digits_one))]
fn push_hex(text: &mut Text, number: u64)
    requires room { array_vec_len text.old + length (digits 16 false number) ≤ MAX_TEXT_LEN }
    ensures added { text.new.items ≡ text.old.items ++ digits 16 false number }
    ensures len { array_vec_len text.new
        ≡ array_vec_len text.old + length (digits 16 false number) }
{
    if number < 16 {
        text.push(glyph(number));
    } else {
        push_hex(text, number / 16);
        text.push(glyph(number % 16));
    }
}

/// The character of a digit below 16, in lower case.
fn glyph(digit: u64) -> u8
    requires { digit < 16 }
    ensures { result ≡ digit_glyph false digit }
{
    let digit = digit as u8;
    if digit < 10 {
        b'0' + digit
    } else {
        b'a' - 10 + digit
    }
}

/// The three groups of 16 bits of an AS number, the highest first.
fn groups(number: u64) -> [u64; 3]
    ensures { result ≡ (number / 2 ^ 32) ∷ (number / 2 ^ 16 % 2 ^ 16) ∷ (number % 2 ^ 16) ∷ [] }
{
    [number >> 32, (number >> 16) % 0x1_0000, number % 0x1_0000]
}
