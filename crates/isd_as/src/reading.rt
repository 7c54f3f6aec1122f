#![tactic(auto, unfolding(crate::specs::Reading::address_at, crate::specs::Reading::as_number_at, crate::specs::Reading::groups_at, crate::specs::Reading::isd_at, crate::specs::Reading::number_at,))]

ghost use Rattle.std.specs.Prelude.{◌≡◌, ℕ, ◌^◌, ◌<◌, ◌≤◌, ◌==◌, length, IfOk};
ghost use Rattle.std.specs.List.{list_any};
ghost use Rattle.std.specs.Str.{chars};
ghost use Rattle.std.specs.Option.{ok_or};
ghost use Rattle.refusal.specs.Refusal.{Gives};
ghost use Rattle.separators.specs.Signs.{cut_at};
ghost use Rattle.isd_as.specs.Address.{colon, Spells, SpellsIsd, SpellsAs};
ghost use Rattle.isd_as.specs.Reading.{all_digits, number_at, is_group, isd_at, groups_at, as_number_at, address_at};

use crate::address::IsdAs;
use crate::fault::AddrFault;
use crate::numbers::{AsNumber, Isd};
use separators::sign::cut;

impl IsdAs {
    /// The address of a text: an ISD in decimal, `-`, and an AS number. The AS number is in decimal
    /// up to 4294967295, or three groups of 1 to 4 hexadecimal digits joined by `:`. Leading zeros,
    /// letters of either case, and groups for a small number are accepted.
    ///
    /// The first of these refusals is returned: [`NoDash`] if there is no `-`; for the ISD
    /// [`BadDigit`], then [`IsdRange`]; for an AS number without `:` [`BadDigit`], then
    /// [`AsRange`]; for one with `:` [`BadGroups`], then [`BadDigit`].
    ///
    /// [`NoDash`]: AddrFault::NoDash
    /// [`BadDigit`]: AddrFault::BadDigit
    /// [`IsdRange`]: AddrFault::IsdRange
    /// [`AsRange`]: AddrFault::AsRange
    /// [`BadGroups`]: AddrFault::BadGroups
    pub fn parse(text: &str) -> Result<IsdAs, AddrFault>
        // The text is a spelling of the address that is returned.
        ensures found { IfOk result (λ a. Spells text.now a) }

        // Each address of which the text is a spelling is returned.
        ensures only { (a : ℕ) → Spells text.now a → result ≡ Ok a }

        // The exact result, with its refusal.
        ensures exact { result ≡ address_at text.now }
    {
        read_address(text)
    }
}

impl Isd {
    /// The ISD of a text: one or more decimal digits, at most 65535. The refusals are
    /// [`AddrFault::BadDigit`], then [`AddrFault::IsdRange`].
    pub fn parse(text: &str) -> Result<Isd, AddrFault>
        ensures found { IfOk result (λ isd. SpellsIsd text.now isd) }
        ensures only { (isd : ℕ) → SpellsIsd text.now isd → result ≡ Ok isd }
        ensures exact { result ≡ isd_at text.now }
    {
        read_isd(text)
    }
}

impl AsNumber {
    /// The AS number of a text: decimal digits, at most 4294967295, or three groups of 1 to 4
    /// hexadecimal digits joined by `:`. Without `:` the refusals are [`AddrFault::BadDigit`], then
    /// [`AddrFault::AsRange`]; with it, [`AddrFault::BadGroups`], then [`AddrFault::BadDigit`].
    pub fn parse(text: &str) -> Result<AsNumber, AddrFault>
        ensures found { IfOk result (λ as_number. SpellsAs text.now as_number) }
        ensures only { (as_number : ℕ) → SpellsAs text.now as_number → result ≡ Ok as_number }
        ensures exact { result ≡ as_number_at text.now }
    {
        read_as_number(text)
    }
}

/// The parts of the text before and after the first such sign, which is an ASCII character.
fn parts(text: &str, sign: char, missing: AddrFault) -> Result<(&str, &str), AddrFault>
    requires { sign < 128 }
    ensures { Gives (λ parts. (parts.0.now, parts.1.now)) result
        (ok_or (cut_at sign text.now) missing) }
{
    cut(text, sign).ok_or(missing)
}

/// Whether each byte of the text is a digit of the radix.
fn is_all_digits(text: &str, radix: u32) -> bool
    requires low { 2 ≤ radix }
    requires high { radix ≤ 16 }
    ensures { result ≡ all_digits radix text.now }
{
    text.as_bytes().iter().all(|b| (*b as char).is_digit(radix))
}

/// The number of a text of digits, if it is below the limit.
fn number_of(text: &str, radix: u32, limit: u64, too_large: AddrFault) -> Result<u64, AddrFault>
    requires low { 2 ≤ radix }
    requires high { radix ≤ 16 }
    ensures exact { result ≡ number_at radix limit too_large text.now }
    ensures bound { IfOk result (λ n. n < limit) }
{
    if text.is_empty() || !is_all_digits(text, radix) {
        return Err(AddrFault::BadDigit);
    }
    match u64::from_str_radix(text, radix) {
        Ok(number) if number < limit => Ok(number),
        _ => Err(too_large),
    }
}

/// The number of characters of the text.
fn char_count(text: &str) -> usize
    ensures { result ≡ length (chars text.now) }
{
    text.chars().count()
}

/// Whether the text has 1 to 4 characters, as a group of an AS number does.
fn has_group_length(text: &str) -> bool
    ensures { result ≡ is_group text.now }
{
    (1..=4).contains(&char_count(text))
}

/// Whether the text has a `:`, the sign between groups.
fn has_colon(text: &str) -> bool
    ensures { result ≡ list_any (λ b. b == colon) text.now }
{
    text.as_bytes().contains(&b':')
}

/// The number of three groups of hexadecimal digits, joined by `:`.
fn groups_of(text: &str) -> Result<u64, AddrFault>
    ensures exact { result ≡ groups_at text.now }
    ensures bound { IfOk result (λ n. n < 2 ^ 48) }
{
    let (first, rest) = parts(text, ':', AddrFault::BadGroups)?;
    let (second, third) = parts(rest, ':', AddrFault::BadGroups)?;
    if has_colon(third) {
        return Err(AddrFault::BadGroups);
    }
    if !(has_group_length(first) && has_group_length(second) && has_group_length(third)) {
        return Err(AddrFault::BadGroups);
    }
    let high = number_of(first, 16, 1 << 16, AddrFault::BadGroups)?;
    let middle = number_of(second, 16, 1 << 16, AddrFault::BadGroups)?;
    let low = number_of(third, 16, 1 << 16, AddrFault::BadGroups)?;
    Ok(high * (1 << 32) + middle * (1 << 16) + low)
}

/// The number of an AS number's text, in decimal or in groups.
fn as_number_of(text: &str) -> Result<u64, AddrFault>
    ensures exact { result ≡ as_number_at text.now }
    ensures bound { IfOk result (λ n. n < 2 ^ 48) }
{
    if has_colon(text) {
        groups_of(text)
    } else {
        number_of(text, 10, 1 << 32, AddrFault::AsRange)
    }
}

/// Reads an ISD; the public call adds the clauses about spellings.
fn read_isd(text: &str) -> Result<Isd, AddrFault>
    ensures { result ≡ isd_at text.now }
{
    let number = number_of(text, 10, 1 << 16, AddrFault::IsdRange)?;
    Ok(Isd(number as u16))
}

/// Reads an AS number; the public call adds the clauses about spellings.
fn read_as_number(text: &str) -> Result<AsNumber, AddrFault>
    ensures { result ≡ as_number_at text.now }
{
    Ok(AsNumber::of(as_number_of(text)?))
}

/// Reads an address; the public call adds the clauses about spellings.
fn read_address(text: &str) -> Result<IsdAs, AddrFault>
    ensures { result ≡ address_at text.now }
{
    let (isd, as_number) = parts(text, '-', AddrFault::NoDash)?;
    let isd = read_isd(isd)?;
    let as_number = read_as_number(as_number)?;
    Ok(IsdAs::new(isd, as_number))
}
