//! The ways into and out of an inbox: each is an inbox together with a pass of it.

ghost use Rattle.std.specs.Prelude.{◌≡◌, IfErr, IfNone, IfSome, OnErr, OnOk};
ghost use Rattle.crossbeam_queue.specs.Fifo.{Held};
ghost use Rattle.inbox.specs.Account.{AddsUp, given, kept, with_put, with_taken};

use crate::inbox::Inbox;
use crate::pass::{InboxPass, Receives, Right, Sends};
use std::marker::Model;
use std::sync::Wait;

/// A way into an inbox or out of it. In contracts it is the inbox and the account of the pass.
#[derive(Drop)]
pub struct InboxEnd<'a, T: Drop, R: Right> {
    inbox: &'a Inbox<T>,
    pass: InboxPass<T, R>,
}

/// A way into an inbox.
pub type Sender<'a, T> = InboxEnd<'a, T, Sends>;

/// The way out of an inbox.
pub type Receiver<'a, T> = InboxEnd<'a, T, Receives>;

impl<'a, T: Drop, R: Right> Model for InboxEnd<'a, T, R> {
    ghost use Rattle.std.specs.Prelude.{◌≡◌};
    ghost use Rattle.inbox.specs.Inbox.{WayThrough};

    ghost Value = { WayThrough T };

    ghost view = { λ e. record { of = e.inbox.now; account = e.pass.account } };

    ghost invariant = { λ e. e.pass.inbox ≡ e.inbox.now.inbox };
}

impl<'a, T: Drop, R: Right> InboxEnd<'a, T, R> {
    /// The way of this inbox by a pass of it.
    pub fn new(inbox: &'a Inbox<T>, pass: InboxPass<T, R>) -> InboxEnd<'a, T, R>
        requires { pass.inbox ≡ inbox.now.inbox }
        ensures of { result.of ≡ inbox.now }
        ensures account { result.account ≡ pass.account }
    {
        InboxEnd { inbox, pass }
    }
}

impl<'a, T: Drop> InboxEnd<'a, T, Sends> {
    /// Puts a value at the back. It is returned only if the inbox is full at that step.
    pub fn push<R: Wait>(&mut self, rt: &R, x: T) -> Result<(), T>
        ensures of { self.new.of ≡ self.old.of }
        ensures put { OnOk result (self.new.account ≡ with_put self.old.account x) }
        ensures back { IfErr result (λ y. y ≡ x) }
        ensures same { OnErr result (self.new ≡ self.old) }
        ensures full { OnErr result (Held self.old.of.slots (AddsUp self.old.account)) }
    {
        self.inbox.push(rt, &mut self.pass, x)
    }

    /// Another way into the same inbox, by another pass of it.
    pub fn split(&mut self) -> Sender<'a, T>
        ensures of { (self.new.of ≡ self.old.of) × (result.of ≡ self.old.of) }
        ensures kept { self.new.account ≡ kept self.old.account }
        ensures given { result.account ≡ given self.old.account }
    {
        InboxEnd {
            inbox: self.inbox,
            pass: self.inbox.split(&mut self.pass),
        }
    }
}

impl<'a, T: Drop> InboxEnd<'a, T, Receives> {
    /// Takes the value at the front. There is none only if the inbox is empty at that step.
    pub fn pop<R: Wait>(&mut self, rt: &R) -> Option<T>
        ensures of { self.new.of ≡ self.old.of }
        ensures taken { IfSome result (λ x. self.new.account ≡ with_taken self.old.account x) }
        ensures same { IfNone result (self.new ≡ self.old) }
        ensures empty { IfNone result (Held 0 (AddsUp self.old.account)) }
    {
        self.inbox.pop(rt, &mut self.pass)
    }
}
