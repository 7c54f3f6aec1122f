//! The rule of an inbox, and what its steps show to their callers.

use crate::account::Account;
use crossbeam_queue::RuledArrayQueue;
use crossbeam_queue::protocol::{Join, Lesson, Outcome, Protocol, Split};

/// The rule: the inbox is in balance, and the values of the first two senders are in order.
pub(crate) struct Kept;

impl<T> Protocol<T, Account<T>> for Kept {
    ghost use Rattle.inbox.specs.Account.{Keeps, everything};

    ghost holds = { Keeps };

    ghost first = { everything };
}

/// The queue of an inbox.
pub(crate) type Queue<T> = RuledArrayQueue<T, Account<T>, Kept>;

/// The receiver's pass is split off.
pub(crate) struct CutsOff;

impl<T> Split<Account<T>> for CutsOff {
    ghost use Rattle.inbox.specs.Account.{first_sender, receiver};

    ghost left = { first_sender };

    ghost right = { receiver };
}

/// A sender's pass is split.
pub(crate) struct Splits;

impl<T> Split<Account<T>> for Splits {
    ghost use Rattle.inbox.specs.Account.{kept, given};

    ghost left = { kept };

    ghost right = { given };
}

/// A pass takes over another one, and shows what its owner then knows.
pub(crate) struct TakesIn;

impl<T> Join<Account<T>> for TakesIn {
    ghost use Rattle.inbox.specs.Account.{joined, spent};

    ghost both = { joined };

    ghost spent = { spent };
}

impl<T> Lesson<T, Account<T>> for TakesIn {
    ghost use Rattle.inbox.specs.Account.{AddsUp};

    ghost fact = { AddsUp };
}

/// What a push shows.
pub(crate) struct Puts;

impl<T> Outcome<T, Account<T>> for Puts {
    ghost use Rattle.std.specs.Prelude.{◌≡◌};
    ghost use Rattle.inbox.specs.Account.{with_put};

    ghost then = { λ v x w. w ≡ with_put v x };
}

impl<T> Lesson<T, Account<T>> for Puts {
    ghost use Rattle.inbox.specs.Account.{AddsUp};

    ghost fact = { AddsUp };
}

/// What a pop shows.
pub(crate) struct Takes;

impl<T> Outcome<T, Account<T>> for Takes {
    ghost use Rattle.std.specs.Prelude.{◌≡◌};
    ghost use Rattle.inbox.specs.Account.{with_taken};

    ghost then = { λ v x w. w ≡ with_taken v x };
}

impl<T> Lesson<T, Account<T>> for Takes {
    ghost use Rattle.inbox.specs.Account.{AddsUp};

    ghost fact = { AddsUp };
}
