//! The passes of an inbox.

ghost use Rattle.std.specs.Prelude.{Bool};

use crate::account::Account;
use crossbeam_queue::Pass;
use std::marker::{Model, PhantomData};

/// The right of a pass.
pub trait Right {
    /// Whether it is the right to take out.
    ghost takes: { Bool };
}

/// The right to put in.
pub struct Sends;

impl Right for Sends {
    ghost use Rattle.std.specs.Prelude.{false};

    ghost takes = { false };
}

/// The right to take out.
pub struct Receives;

impl Right for Receives {
    ghost use Rattle.std.specs.Prelude.{true};

    ghost takes = { true };
}

/// A pass of an inbox. In contracts it is the identity of its inbox and its account. It has no
/// bytes.
#[derive(Drop)]
pub struct InboxPass<T, R: Right> {
    pub(crate) pass: Pass<T, Account<T>>,
    pub(crate) right: PhantomData<R>,
}

impl<T, R: Right> Model for InboxPass<T, R> {
    ghost use Rattle.std.specs.Prelude.{◌≡◌, ◌<◌, true, []};
    ghost use Rattle.crossbeam_queue.specs.Passes.{view as view_of};
    ghost use Rattle.inbox.specs.Inbox.{KnownPass};

    ghost Value = { KnownPass T };

    ghost view = { λ p. record { inbox = p.pass.table_id; account = view_of p.pass } };

    ghost invariant = { λ p. (p.pass.me.1 ≡ []) × (0 < (view_of p.pass).tally.share.pieces)
        × (R.takes ≡ true → (view_of p.pass).roles.takes ≡ true) };
}

/// A sender's pass: the right to put in.
pub type SenderPass<T> = InboxPass<T, Sends>;

/// The receiver's pass: the right to take out.
pub type ReceiverPass<T> = InboxPass<T, Receives>;
