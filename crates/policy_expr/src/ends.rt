ghost use Rattle.std.specs.Prelude.{◌≡◌, ◌⊎◌, ◌↔◌, ℕ, ◌||◌, true, false};
ghost use Rattle.policy_expr.specs.Sets.{Has};
ghost use Rattle.policy_expr.specs.inner.Table.{IsThen};

use crate::pred_set::PredSet;

/// The predicates with which the words of a part of a sequence begin and end.
#[derive(Clone, Copy)]
pub(crate) struct Ends {
    /// The predicates that may come first.
    pub(crate) first: PredSet,
    /// The predicates that may come last.
    pub(crate) last: PredSet,
    /// Whether the walk of no hops is a word.
    pub(crate) has_empty: bool,
}

impl Ends {
    /// The ends of one predicate.
    pub(crate) fn of_hop(only: PredSet) -> Ends
        ensures { result ≡ record { first = only; last = only; has_empty = false } }
    {
        Ends {
            first: only,
            last: only,
            has_empty: false,
        }
    }

    /// The ends of this part followed by the other.
    pub(crate) fn then(self, back: Ends) -> Ends
        ensures { IsThen self back result }
    {
        let first = if self.has_empty {
            self.first.or(back.first)
        } else {
            self.first
        };
        let last = if back.has_empty {
            back.last.or(self.last)
        } else {
            back.last
        };
        Ends {
            first,
            last,
            has_empty: self.has_empty && back.has_empty,
        }
    }

    /// The ends of this part or the other.
    pub(crate) fn or(self, other: Ends) -> Ends
        ensures first { (k : ℕ) → Has result.first k ↔ (Has self.first k ⊎ Has other.first k) }
        ensures last { (k : ℕ) → Has result.last k ↔ (Has self.last k ⊎ Has other.last k) }
        ensures empty { result.has_empty ≡ (self.has_empty || other.has_empty) }
    {
        Ends {
            first: self.first.or(other.first),
            last: self.last.or(other.last),
            has_empty: self.has_empty || other.has_empty,
        }
    }

    /// The ends of this part or nothing.
    pub(crate) fn or_nothing(self) -> Ends
        ensures { result ≡ record self { has_empty = true } }
    {
        Ends {
            has_empty: true,
            ..self
        }
    }
}
