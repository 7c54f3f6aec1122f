ghost use Rattle.std.specs.Prelude.{◌≡◌, ℕ, ◌^◌, ◌<◌, ◌↔◌, IsTrue, IsSome, IfSome};

use std::marker::Model;

/// The number of an isolation domain (ISD), 16 bits. 0 is the wildcard.
#[derive(Clone, Copy, Debug, PartialEq, Eq, PartialOrd, Ord, Hash)]
pub struct Isd(pub u16);

impl Model for Isd {
    ghost Value = { ℕ };

    ghost view = { λ isd. isd.0 };

    ghost inverse = { λ n. record { 0 = n } };
}

impl Isd {
    /// The number of this ISD.
    pub fn number(self) -> u16
        ensures { result ≡ self }
    {
        self.0
    }

    /// Whether this is the wildcard, the number 0.
    pub fn is_wildcard(self) -> bool
        ensures { IsTrue result ↔ (self ≡ 0) }
    {
        self.0 == 0
    }
}

/// The number of an autonomous system (AS), below 2^48. 0 is the wildcard.
#[derive(Clone, Copy, Debug, PartialEq, Eq, PartialOrd, Ord, Hash)]
pub struct AsNumber {
    number: u64,
}

impl Model for AsNumber {
    ghost Value = { ℕ };

    ghost view = { λ a. a.number };

    ghost invariant = { λ a. a.number < 2 ^ 48 };

    ghost inverse = { λ n. record { number = n } };
}

impl AsNumber {
    /// The AS of this number.
    pub(crate) fn of(number: u64) -> AsNumber
        requires { number < 2 ^ 48 }
        ensures { result ≡ number }
    {
        AsNumber { number }
    }

    /// The AS of this number, or nothing if the number has more than 48 bits.
    pub fn new(number: u64) -> Option<AsNumber>
        ensures fits { IsSome result ↔ (number < 2 ^ 48) }
        ensures value { IfSome result (λ a. a ≡ number) }
    {
        if number < 1 << 48 {
            Some(AsNumber::of(number))
        } else {
            None
        }
    }

    /// The number of this AS.
    pub fn number(self) -> u64
        ensures value { result ≡ self }
        ensures bound { result < 2 ^ 48 }
    {
        self.number
    }

    /// Whether this is the wildcard, the number 0.
    pub fn is_wildcard(self) -> bool
        ensures { IsTrue result ↔ (self ≡ 0) }
    {
        self.number == 0
    }
}

/// The number of an interface of an AS, 16 bits. 0 means that there is no interface.
#[derive(Clone, Copy, Debug, PartialEq, Eq, PartialOrd, Ord, Hash)]
pub struct IfId(pub u16);

impl Model for IfId {
    ghost Value = { ℕ };

    ghost view = { λ interface. interface.0 };

    ghost inverse = { λ n. record { 0 = n } };
}

impl IfId {
    /// The number 0, used where there is no interface.
    pub const NONE: IfId = IfId(0);

    /// The number of this interface.
    pub fn number(self) -> u16
        ensures { result ≡ self }
    {
        self.0
    }

    /// Whether this is 0, that is, no interface.
    pub fn is_none(self) -> bool
        ensures { IsTrue result ↔ (self ≡ 0) }
    {
        self.0 == 0
    }
}
