//! Laws of addresses: each is the contract of a function. Those of their text do nothing; those of
//! comparison apply one operator or method.

ghost use Rattle.std.specs.Prelude.{◌≡◌, ℕ, ◌^◌, ◌<◌, ◌≤◌, ◌↔◌, fold, List, length, IsTrue, Ok};
ghost use Rattle.std.specs.Hash as fed;
ghost use Rattle.std.specs.Hash.DefaultHasher as sip;
ghost use Rattle.std.specs.Fmt.{decimal};
ghost use Rattle.isd_as.specs.Address.{Spells, SpellsIsd, SpellsAs, canonical, canonical_as};
ghost use Rattle.isd_as.specs.Reading.{isd_at, as_number_at, address_at};

use crate::address::IsdAs;
use crate::numbers::{AsNumber, IfId, Isd};
use std::hash::{DefaultHasher, Hash, Hasher};

/// The printed text of an address, an ISD or an AS number is a spelling of it.
pub fn printed_is_spelled()
    ensures address { (a : ℕ) → a < 2 ^ 64 → Spells (canonical a) a }
    ensures isd { (n : ℕ) → n < 2 ^ 16 → SpellsIsd (decimal n) n }
    ensures as_number { (n : ℕ) → n < 2 ^ 48 → SpellsAs (canonical_as n) n }
{}

/// Reading the printed text of an address, an ISD or an AS number gives it back.
pub fn printed_is_read()
    ensures address { (a : ℕ) → a < 2 ^ 64 → address_at (canonical a) ≡ Ok a }
    ensures isd { (n : ℕ) → n < 2 ^ 16 → isd_at (decimal n) ≡ Ok n }
    ensures as_number { (n : ℕ) → n < 2 ^ 48 → as_number_at (canonical_as n) ≡ Ok n }
{}

/// No text is a spelling of two addresses, two ISDs or two AS numbers.
pub fn spelled_is_one()
    ensures address { (text : List ℕ) (a b : ℕ) → Spells text a → Spells text b → a ≡ b }
    ensures isd { (text : List ℕ) (m n : ℕ) → SpellsIsd text m → SpellsIsd text n → m ≡ n }
    ensures as_number { (text : List ℕ) (m n : ℕ) → SpellsAs text m → SpellsAs text n → m ≡ n }
{}

/// The printed text of an address has at most 20 bytes.
pub fn printed_is_short()
    ensures { (a : ℕ) → a < 2 ^ 64 → length (canonical a) ≤ 20 }
{}

/// Addresses are equal if and only if their numbers are.
pub fn addresses_are_equal(one: IsdAs, other: IsdAs) -> bool
    ensures { IsTrue result ↔ (one ≡ other) }
{
    one == other
}

/// Addresses are ordered by their numbers.
pub fn addresses_are_ordered(one: IsdAs, other: IsdAs) -> bool
    ensures { IsTrue result ↔ (one < other) }
{
    one < other
}

/// An address is hashed as its number.
pub fn address_is_hashed(address: &IsdAs) -> u64
    ensures { result ≡ sip.finish (fold sip.write sip.initial (fed.u64 address.now)) }
{
    let mut state = DefaultHasher::new();
    address.hash(&mut state);
    state.finish()
}

/// ISDs are equal if and only if their numbers are.
pub fn isds_are_equal(one: Isd, other: Isd) -> bool
    ensures { IsTrue result ↔ (one ≡ other) }
{
    one == other
}

/// ISDs are ordered by their numbers.
pub fn isds_are_ordered(one: Isd, other: Isd) -> bool
    ensures { IsTrue result ↔ (one < other) }
{
    one < other
}

/// An ISD is hashed as its number.
pub fn isd_is_hashed(isd: &Isd) -> u64
    ensures { result ≡ sip.finish (fold sip.write sip.initial (fed.u16 isd.now)) }
{
    let mut state = DefaultHasher::new();
    isd.hash(&mut state);
    state.finish()
}

/// AS numbers are equal if and only if their values are.
pub fn as_numbers_are_equal(one: AsNumber, other: AsNumber) -> bool
    ensures { IsTrue result ↔ (one ≡ other) }
{
    one == other
}

/// AS numbers are ordered by their values.
pub fn as_numbers_are_ordered(one: AsNumber, other: AsNumber) -> bool
    ensures { IsTrue result ↔ (one < other) }
{
    one < other
}

/// An AS number is hashed as its value.
pub fn as_number_is_hashed(as_number: &AsNumber) -> u64
    ensures { result ≡ sip.finish (fold sip.write sip.initial (fed.u64 as_number.now)) }
{
    let mut state = DefaultHasher::new();
    as_number.hash(&mut state);
    state.finish()
}

/// Interfaces are equal if and only if their numbers are.
pub fn interfaces_are_equal(one: IfId, other: IfId) -> bool
    ensures { IsTrue result ↔ (one ≡ other) }
{
    one == other
}

/// Interfaces are ordered by their numbers.
pub fn interfaces_are_ordered(one: IfId, other: IfId) -> bool
    ensures { IsTrue result ↔ (one < other) }
{
    one < other
}

/// An interface is hashed as its number.
pub fn interface_is_hashed(interface: &IfId) -> u64
    ensures { result ≡ sip.finish (fold sip.write sip.initial (fed.u16 interface.now)) }
{
    let mut state = DefaultHasher::new();
    interface.hash(&mut state);
    state.finish()
}

/// [`IfId::NONE`] is 0.
pub fn no_interface() -> IfId
    ensures { result ≡ 0 }
{
    IfId::NONE
}
