ghost use Rattle.std.specs.Prelude.{◌≡◌, ◌⊎◌, ◌↔◌, ℕ, ◌+◌, ◌*◌, ◌^◌, ◌<◌, ◌≤◌, MatchOption};
ghost use Rattle.policy_expr.specs.Sets.{Has};
ghost use Rattle.policy_expr.specs.inner.Sets.{IsSplit};

use std::marker::Model;

/// A set of the predicates of a table, by their numbers: predicate `k` is bit `k`.
#[derive(Clone, Copy, PartialEq, Eq)]
pub(crate) struct PredSet {
    bits: u128,
}

impl Model for PredSet {
    ghost Value = { ℕ };

    ghost view = { λ set. set.bits };

    ghost inverse = { λ n. record { bits = n } };
}

impl PredSet {
    /// No predicate.
    pub(crate) fn none() -> PredSet
        ensures { (k : ℕ) → Has result k → ⊥ }
    {
        PredSet { bits: 0 }
    }

    /// This predicate alone.
    pub(crate) fn only(number: usize) -> PredSet
        requires { number < 128 }
        ensures { (k : ℕ) → Has result k ↔ (k ≡ number) }
    {
        PredSet { bits: 1 << number }
    }

    /// The predicates of either set.
    pub(crate) fn or(self, other: PredSet) -> PredSet
        ensures { (k : ℕ) → Has result k ↔ (Has self k ⊎ Has other k) }
    {
        PredSet {
            bits: self.bits | other.bits,
        }
    }

    /// The predicates of both sets.
    pub(crate) fn and(self, other: PredSet) -> PredSet
        ensures { (k : ℕ) → Has result k ↔ (Has self k × Has other k) }
    {
        PredSet {
            bits: self.bits & other.bits,
        }
    }

    /// An iterator over the predicates.
    pub(crate) fn members(self) -> Members
        ensures { result ≡ self }
    {
        Members {
            low: (self.bits % (1 << 64)) as u64,
            high: (self.bits >> 64) as u64,
        }
    }
}

/// The predicates of a set that were not visited yet, in two halves of a machine word each.
/// Predicate `k` is bit `k` of the low half, or bit `k - 64` of the high half.
#[derive(Drop)]
pub(crate) struct Members {
    low: u64,
    high: u64,
}

impl Model for Members {
    ghost Value = { ℕ };

    ghost view = { λ members. members.high * 2 ^ 64 + members.low };

    ghost invariant = { λ members. members.low < 2 ^ 64 };
}

impl Members {
    /// The next predicate; each is returned once.
    pub(crate) fn next(&mut self) -> Option<usize>
        ensures { MatchOption result ((k : ℕ) → Has self.old k → ⊥)
            (λ number. IsSplit self.old number self.new) }
    {
        match self.next_low() {
            Some(number) => Some(number),
            None => self.next_high(),
        }
    }

    /// The next predicate of the low half.
    pub(crate) fn next_low(&mut self) -> Option<usize>
        ensures { MatchOption result
            (((k : ℕ) → k < 64 → Has self.old k → ⊥) × (self.new ≡ self.old))
            (λ number. IsSplit self.old number self.new) }
    {
        if self.low == 0 {
            return None;
        }
        let number = self.low.trailing_zeros() as usize;
        self.low &= self.low.wrapping_sub(1);
        Some(number)
    }

    /// The next predicate of the high half.
    pub(crate) fn next_high(&mut self) -> Option<usize>
        ensures { MatchOption result
            (((k : ℕ) → 64 ≤ k → Has self.old k → ⊥) × (self.new ≡ self.old))
            (λ number. IsSplit self.old number self.new) }
    {
        if self.high == 0 {
            return None;
        }
        let number = self.high.trailing_zeros() as usize;
        self.high &= self.high.wrapping_sub(1);
        Some(64 + number)
    }
}
