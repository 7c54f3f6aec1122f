ghost use Rattle.std.specs.Prelude.{◌≡◌, ℕ, ◌+◌, ◌*◌, ◌/◌, ◌%◌, ◌^◌, ◌<◌, ◌↔◌, IsTrue, Some, nat_eq};
ghost use Rattle.std.specs.Cmp.Rules.{comparing, hashing};
ghost use Rattle.std.specs.Hash as fed;
ghost use Rattle.std.specs.Int.{w64, to_be_bytes, from_be_bytes};
ghost use Rattle.std.specs.Ordering.{nat_cmp};
ghost use Rattle.isd_as.specs.Address.{address_of, isd_of, as_number_of, IsWildcard, Fits};
ghost use Rattle.std.proofs.Common.{rules};
ghost use Rattle.std.proofs.lemmas.Nat.{div-mul-add, mod-mul-add};

use crate::numbers::{AsNumber, Isd};
use std::cmp::Ordering;
use std::fmt;
use std::hash::{Hash, Hasher};
use std::marker::Model;

/// The address of an AS: its ISD and its AS number, as one number of 64 bits.
///
/// Addresses are compared, ordered and hashed by that number. It is held in two halves, so that a
/// hop with its two interfaces takes 12 bytes and not 16: a packet on its way has room for 64 hops.
#[derive(Clone, Copy)]
pub struct IsdAs {
    low: u32,
    high: u32,
}

impl Model for IsdAs {
    ghost Value = { ℕ };

    ghost view = { λ a. a.high * 2 ^ 32 + a.low };

    ghost invariant = { λ a. a.low < 2 ^ 32 };

    ghost inverse = { λ n. record { low = n % 2 ^ 32; high = n / 2 ^ 32 } };

    ghost inverse_ok = { λ a h i. record {
      low = mod-mul-add a.high (2 ^ 32) a.low h i;
      high = div-mul-add a.high (2 ^ 32) a.low h i;
    } };
}

impl IsdAs {
    /// The address of this AS number in this ISD.
    pub fn new(isd: Isd, as_number: AsNumber) -> IsdAs
        ensures { result ≡ address_of isd as_number }
    {
        let high = u64::from(isd.number());
        IsdAs::from_number(high * (1 << 48) + as_number.number())
    }

    /// The address of this number: the high 16 bits are the ISD, the low 48 the AS number.
    pub fn from_number(number: u64) -> IsdAs
        ensures { result ≡ number }
    {
        IsdAs {
            low: (number % (1 << 32)) as u32,
            high: (number >> 32) as u32,
        }
    }

    /// The address as one number.
    pub fn number(self) -> u64
        ensures value { result ≡ self }
        ensures bound { result < 2 ^ 64 }
    {
        u64::from(self.high) * (1 << 32) + u64::from(self.low)
    }

    /// The ISD, the high 16 bits.
    pub fn isd(self) -> Isd
        ensures { result ≡ isd_of self }
    {
        Isd((self.number() >> 48) as u16)
    }

    /// The AS number, the low 48 bits.
    pub fn as_number(self) -> AsNumber
        ensures { result ≡ as_number_of self }
    {
        AsNumber::of(self.number() % (1 << 48))
    }

    /// Whether the ISD or the AS number is the wildcard 0.
    pub fn is_wildcard(self) -> bool
        ensures { IsTrue result ↔ IsWildcard self }
    {
        self.isd().is_wildcard() || self.as_number().is_wildcard()
    }

    /// Whether its ISD and its AS number are the wanted ones, where the wildcard 0 is wanted for
    /// any.
    // A hop is tried with many addresses, most of which the lower halves tell apart. So these come
    // first, and alone.
    pub fn fits(self, wanted: IsdAs) -> bool
        ensures { IsTrue result ↔ (Fits (isd_of wanted) (isd_of self)
            × Fits (as_number_of wanted) (as_number_of self)) }
    {
        if wanted.low == self.low {
            return self.fits_above(wanted);
        }
        wanted.low == 0 && (wanted.high == 0 || self.fits_any(wanted))
    }

    /// The same, for a wanted address with the same lower half.
    fn fits_above(self, wanted: IsdAs) -> bool
        requires { wanted % 2 ^ 32 ≡ self % 2 ^ 32 }
        ensures { IsTrue result ↔ (Fits (isd_of wanted) (isd_of self)
            × Fits (as_number_of wanted) (as_number_of self)) }
    {
        let number = wanted.high % (1 << 16);
        let is_any = wanted.low == 0 && number == 0;
        (number == self.high % (1 << 16) || is_any) && self.fits_isd(wanted)
    }

    /// The same, for a wanted address with the lower half 0, where this one has another.
    fn fits_any(self, wanted: IsdAs) -> bool
        requires any { wanted % 2 ^ 32 ≡ 0 }
        requires other { 0 < self % 2 ^ 32 }
        ensures { IsTrue result ↔ (Fits (isd_of wanted) (isd_of self)
            × Fits (as_number_of wanted) (as_number_of self)) }
    {
        wanted.high % (1 << 16) == 0 && self.fits_isd(wanted)
    }

    /// Whether its ISD is the wanted one.
    fn fits_isd(self, wanted: IsdAs) -> bool
        ensures { IsTrue result ↔ Fits (isd_of wanted) (isd_of self) }
    {
        let isd = wanted.high >> 16;
        isd == 0 || isd == self.high >> 16
    }

    /// The address as 8 bytes, the highest first.
    pub fn to_bytes(self) -> [u8; 8]
        ensures text { result ≡ to_be_bytes w64 self }
        ensures back { from_be_bytes w64 result ≡ self }
    {
        self.number().to_be_bytes()
    }

    /// The address in these 8 bytes, the highest first.
    pub fn from_bytes(bytes: [u8; 8]) -> IsdAs
        ensures value { result ≡ from_be_bytes w64 bytes }
        ensures back { to_be_bytes w64 result ≡ bytes }
    {
        IsdAs::from_number(number_in(&bytes))
    }
}

/// Writes the canonical text.
impl fmt::Debug for IsdAs {
    fn fmt<W: fmt::Write>(&self, f: &mut fmt::Formatter<W>) -> fmt::Result {
        fmt::Display::fmt(self, f)
    }
}

impl PartialEq for IsdAs {
    ghost eq = { nat_eq };

    ghost laws = { Prim.search (comparing, rules) };

    fn eq(&self, other: &Self) -> bool {
        self.number() == other.number()
    }
}

impl Eq for IsdAs {
    ghost laws = { Prim.search rules };
}

impl PartialOrd for IsdAs {
    ghost partial_cmp = { λ x y. Some (nat_cmp x y) };

    ghost laws = { Prim.search (comparing, rules) };

    fn partial_cmp(&self, other: &Self) -> Option<Ordering> {
        Some(self.cmp(other))
    }
}

impl Ord for IsdAs {
    ghost cmp = { nat_cmp };

    ghost total = { Prim.search rules };

    ghost matches_partial_cmp = { Prim.search rules };

    ghost matches_eq = { Prim.search rules };

    fn cmp(&self, other: &Self) -> Ordering {
        self.number().cmp(&other.number())
    }
}

impl Hash for IsdAs {
    ghost hash_input = { fed.u64 };

    ghost respects_eq = { Prim.search (hashing, rules) };

    fn hash<H: Hasher>(&self, state: &mut H) {
        self.number().hash(state);
    }
}

/// The number in these 8 bytes, the highest first.
fn number_in(bytes: &[u8; 8]) -> u64
    ensures value { result ≡ from_be_bytes w64 bytes.now }
    ensures back { to_be_bytes w64 result ≡ bytes.now }
{
    u64::from_be_bytes(*bytes)
}
