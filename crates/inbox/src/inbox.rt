//! The inbox.

ghost use Rattle.std.specs.Prelude.{◌≡◌, ◌<◌, ◌≤◌, List, IfErr, IfNone, IfOk, IfSome, OnErr, OnOk};
ghost use Rattle.crossbeam_queue.specs.Fifo.{Held};
ghost use Rattle.inbox.specs.Account.{AddsUp, everything, first_sender, receiver};
ghost use Rattle.inbox.specs.Account.{given, joined, kept, with_put, with_taken};

use crate::pass::{InboxPass, ReceiverPass, Right, SenderPass};
use crate::rule::{CutsOff, Puts, Queue, Splits, Takes, TakesIn};
use std::alloc::{AllocError, Global};
use std::marker::{Model, PhantomData};
use std::sync::Wait;

/// A queue of fixed length that threads share. In contracts it is its identity and its number of
/// places.
#[derive(Drop)]
pub struct Inbox<T: Drop> {
    queue: Queue<T>,
}

impl<T: Drop> Model for Inbox<T> {
    ghost use Rattle.crossbeam_queue.specs.Passes.{ruled_capacity};
    ghost use Rattle.inbox.specs.Inbox.{Opened};

    ghost Value = { Opened };

    ghost view = { λ i. record {
      inbox = i.queue.table.shared.table_id;
      slots = ruled_capacity i.queue;
    } };
}

impl<T: Drop> Inbox<T> {
    /// An empty inbox of 1 to 4,096 places, with the passes of the first sender and of the
    /// receiver, by which nothing was put in or taken out. [`AllocError`] if there is no memory for
    /// the places; no later call takes memory.
    pub fn new(
        alloc: Global,
        slots: usize,
    ) -> Result<(Inbox<T>, SenderPass<T>, ReceiverPass<T>), AllocError>
        requires some { 0 < slots }
        requires few { slots ≤ 4096 }
        ensures slots { IfOk result (λ made. made.0.slots ≡ slots) }
        ensures sender { IfOk result (λ made. (made.1.inbox ≡ made.0.inbox)
            × (made.1.account ≡ first_sender everything)) }
        ensures receiver { IfOk result (λ made. (made.2.inbox ≡ made.0.inbox)
            × (made.2.account ≡ receiver everything)) }
    {
        let (queue, mut sender) = Queue::<T>::ruled(alloc, slots)?;
        let receiver = queue.another::<CutsOff>(&mut sender);
        Ok((
            Inbox { queue },
            InboxPass {
                pass: sender,
                right: PhantomData,
            },
            InboxPass {
                pass: receiver,
                right: PhantomData,
            },
        ))
    }

    /// Splits another sender's pass off. The first one that is split off the first sender's pass is
    /// the second sender's. Any sender's pass may be split, any number of times.
    pub fn split(&self, pass: &mut SenderPass<T>) -> SenderPass<T>
        requires { pass.old.inbox ≡ self.now.inbox }
        ensures inbox { (pass.new.inbox ≡ pass.old.inbox) × (result.inbox ≡ pass.old.inbox) }
        ensures kept { pass.new.account ≡ kept pass.old.account }
        ensures given { result.account ≡ given pass.old.account }
    {
        let further = self.queue.another::<Splits>(&mut pass.pass);
        InboxPass {
            pass: further,
            right: PhantomData,
        }
    }

    /// Takes over a pass of this inbox whose thread has ended. From then on the values put in and
    /// taken out by both are in one account. The inbox itself does not change.
    ///
    /// A pass that has taken over all others has the whole share and all three roles. So its owner
    /// knows about all values: each was put in as often as it was taken out or is still there. And
    /// the values that came out, followed by those still there, have the values of each of the
    /// first two senders in that sender's order.
    pub fn take_in<R: Right, E: Right>(&self, pass: &mut InboxPass<T, R>, ended: InboxPass<T, E>)
        requires pass { pass.old.inbox ≡ self.now.inbox }
        requires ended { ended.inbox ≡ self.now.inbox }
        ensures inbox { pass.new.inbox ≡ pass.old.inbox }
        ensures joined { pass.new.account ≡ joined pass.old.account ended.account }
        ensures whole { (items : List T) × AddsUp pass.new.account items }
    {
        let InboxPass {
            pass: ended,
            right: _right,
        } = ended;
        self.queue.absorb::<TakesIn>(&mut pass.pass, ended);
        self.queue.learn_as::<TakesIn>(&mut pass.pass);
    }

    /// Puts a value at the back. It is returned only if the inbox is full at that step; what the
    /// pass knows about all values holds at that step. It may wait for a thread that is within a
    /// step.
    pub fn push<R: Wait>(&self, rt: &R, pass: &mut SenderPass<T>, x: T) -> Result<(), T>
        requires { pass.old.inbox ≡ self.now.inbox }
        ensures inbox { pass.new.inbox ≡ pass.old.inbox }
        ensures put { OnOk result (pass.new.account ≡ with_put pass.old.account x) }
        ensures back { IfErr result (λ y. y ≡ x) }
        ensures same { OnErr result (pass.new ≡ pass.old) }
        ensures full { OnErr result (Held self.now.slots (AddsUp pass.old.account)) }
    {
        self.queue.push_as::<Puts, R>(rt, &mut pass.pass, x)
    }

    /// Takes the value at the front. There is none only if the inbox is empty at that step; what
    /// the pass knows about all values holds at that step. It may wait for a thread that is within
    /// a step.
    pub fn pop<R: Wait>(&self, rt: &R, pass: &mut ReceiverPass<T>) -> Option<T>
        requires { pass.old.inbox ≡ self.now.inbox }
        ensures inbox { pass.new.inbox ≡ pass.old.inbox }
        ensures taken { IfSome result (λ x. pass.new.account ≡ with_taken pass.old.account x) }
        ensures same { IfNone result (pass.new ≡ pass.old) }
        ensures empty { IfNone result (Held 0 (AddsUp pass.old.account)) }
    {
        self.queue.pop_as::<Takes, R>(rt, &mut pass.pass)
    }
}
