//! The inboxes of a run, and their passes.

ghost use Rattle.std.specs.Prelude.{◌≡◌, ◌<◌, ◌≤◌, IfOk, length, map};
ghost use Rattle.std.specs.List.{range_with_len};
ghost use Rattle.router_workers.specs.inner.PassPairs.{AreInboxes, ArePassPairs, inboxes_of};

use crate::carried::RunFacts;
use crate::posted::PostedFlight;
use crate::worker::Worker;
use inbox::{Inbox, Receiver, ReceiverPass, Sender, SenderPass};
use std::alloc::{AllocError, Global};
use std::mem;

/// The two passes of a new inbox.
#[derive(Drop)]
pub(crate) struct PassPair<T: Drop> {
    pub(crate) sender: SenderPass<T>,
    pub(crate) receiver: ReceiverPass<T>,
}

/// Makes `workers` inboxes of `slots` places each, and returns their passes in the same order,
/// unless memory runs out.
pub(crate) fn inboxes_of<T: Drop>(
    alloc: Global,
    workers: usize,
    slots: usize,
) -> Result<(Vec<Inbox<T>>, Vec<PassPair<T>>), AllocError>
    requires workers { 0 < workers }
    requires some { 0 < slots }
    requires few { slots ≤ 4096 }
    ensures inboxes { IfOk result (λ r. AreInboxes workers slots r.0.items) }
    ensures count { IfOk result (λ r. length r.1.items ≡ length r.0.items) }
    ensures pairs { IfOk result (λ r. ArePassPairs r.0.items r.1.items) }
{
    let mut inboxes = Vec::with_capacity(alloc, workers)?;
    let mut pairs = Vec::with_capacity(alloc, workers)?;
    for _ in 0..workers {
        let (inbox, sender, receiver) = Inbox::new(alloc, slots)?;
        inboxes.push(inbox)?;
        pairs.push(PassPair { sender, receiver })?;
    }
    Ok((inboxes, pairs))
}

/// The senders and the receivers of these inboxes, in their order, unless memory runs out.
pub(crate) fn ends_of<'a, T: Drop>(
    alloc: Global,
    inboxes: &'a Vec<Inbox<T>>,
    pairs: Vec<PassPair<T>>,
) -> Result<(Vec<Sender<'a, T>>, Vec<Receiver<'a, T>>), AllocError>
    requires pairs { ArePassPairs inboxes.now.items pairs.items }
    requires count { length pairs.items ≡ length inboxes.now.items }
    ensures senders { IfOk result (λ r. inboxes_of r.0.items ≡ inboxes.now.items) }
    ensures receivers { IfOk result (λ r. inboxes_of r.1.items ≡ inboxes.now.items) }
{
    let mut first_senders = Vec::with_capacity(alloc, pairs.len())?;
    let mut receivers = Vec::with_capacity(alloc, pairs.len())?;
    for pair in pairs {
        let inbox = &inboxes[first_senders.len()];
        first_senders.push(Sender::new(inbox, pair.sender))?;
        receivers.push(Receiver::new(inbox, pair.receiver))?;
    }
    Ok((first_senders, receivers))
}

/// The workers, by their numbers, unless memory runs out: each has its own inbox, a way into every
/// inbox, and room for the ends of this many flights.
pub(crate) fn workers_of<'a, J: RunFacts>(
    alloc: Global,
    first_senders: Vec<Sender<'a, PostedFlight<J>>>,
    receivers: Vec<Receiver<'a, PostedFlight<J>>>,
    flights: usize,
) -> Result<Vec<Worker<'a, J>>, AllocError>
    requires inboxes { AreInboxes J.workers J.slots (inboxes_of first_senders.items) }
    requires own { inboxes_of receivers.items ≡ inboxes_of first_senders.items }
    ensures { IfOk result (λ worker_list.
        map (λ worker. worker.number) worker_list.items ≡ range_with_len 0 J.workers) }
{
    let mut first_senders = first_senders;
    let mut worker_list = Vec::with_capacity(alloc, receivers.len())?;
    for receiver in receivers {
        let number = worker_list.len();
        let senders = ways_of(alloc, &mut first_senders, number)?;
        let ends = Vec::with_capacity(alloc, flights)?;
        worker_list.push(Worker {
            number,
            receiver,
            senders,
            ends,
        })?;
    }
    Ok(worker_list)
}

/// The ways into all inboxes for the worker of this number, unless memory runs out. Worker 0 goes
/// on with those by which the inboxes were filled; those of the others are split off.
fn ways_of<'a, T: Drop>(
    alloc: Global,
    first_senders: &mut Vec<Sender<'a, T>>,
    number: usize,
) -> Result<Vec<Sender<'a, T>>, AllocError>
    ensures kept { inboxes_of first_senders.new.items ≡ inboxes_of first_senders.old.items }
    ensures further { IfOk result (λ ways.
        inboxes_of ways.items ≡ inboxes_of first_senders.old.items) }
{
    let mut ways = split_all(alloc, first_senders)?;
    if number == 0 {
        mem::swap(&mut ways, first_senders);
    }
    Ok(ways)
}

/// Another sender for each inbox, unless memory runs out.
fn split_all<'a, T: Drop>(
    alloc: Global,
    first_senders: &mut Vec<Sender<'a, T>>,
) -> Result<Vec<Sender<'a, T>>, AllocError>
    ensures kept { inboxes_of first_senders.new.items ≡ inboxes_of first_senders.old.items }
    ensures further { IfOk result (λ further.
        inboxes_of further.items ≡ inboxes_of first_senders.old.items) }
{
    let mut further = Vec::with_capacity(alloc, first_senders.len())?;
    for first_sender in first_senders.iter_mut() {
        further.push(first_sender.split())?;
    }
    Ok(further)
}
