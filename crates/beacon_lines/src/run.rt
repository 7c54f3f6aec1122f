//! A network in which beacons are begun, passed on and ended, and the events by which they were.

ghost use Rattle.std.specs.Prelude.{◌≡◌, ◌==◌, false, IfOk, map, OnErr, slice_get};
ghost use Rattle.std.specs.List.{list_any};
ghost use Rattle.std.specs.Option.{option_map_or};
ghost use Rattle.network_core.specs.declared.reply.Reply as replies;
ghost use Rattle.network_core.specs.Event.{event_value};
ghost use Rattle.network_core.specs.Step.{Step};
ghost use Rattle.network_core.specs.Delivery.{IsFramed};
ghost use Rattle.beacon_lines.specs.Beaconing.{network_event};
ghost use Rattle.beacon_lines.specs.inner.Events.{effect_of, Happens, has_passed};
ghost use Rattle.beacon_lines.specs.inner.Search.{begun_net};

use crate::event::{BeaconEvent, Effect, effect_of};
use forwarding::TurnReply;
use isd_as::IsdAs;
use network_core::{Event, Net, Reply};
use path_segment::{Beacon, Entry};
use scion_topology::Topology;
use std::alloc::{AllocError, Global};
use std::marker::Model;

/// A network, the second at which its beacons are begun, and the events that have made it from its
/// topology after that second was set. An invariant says that these events lead to the network,
/// that none was refused, and that the segments which they end are stored, each once.
#[derive(Drop)]
pub(crate) struct BeaconRun {
    net: Net,
    second: u32,
    events: Vec<BeaconEvent>,
}

impl Model for BeaconRun {
    ghost use Rattle.std.specs.Prelude.{map};
    ghost use Rattle.policy_expr.specs.Code.{policy_codes};
    ghost use Rattle.beacon_lines.specs.Beaconing.{BeaconRunValue, IsBeaconing, network_event};

    ghost Value = { BeaconRunValue };

    ghost coded = { Prim.hlevel policy_codes };

    ghost view = { λ r. record {
      net = r.net;
      second = r.second;
      events = map network_event r.events.items;
    } };

    ghost invariant = { λ r.
        IsBeaconing r.net.network r.second (map network_event r.events.items) r.net };
}

/// An event of a network that is to be done now.
#[derive(Clone, Copy)]
struct DueEvent<'a> {
    event: Event<'a>,
}

/// Does an event in a network, and returns what it made. If it is refused, or registers a segment
/// that is stored already, nothing changes.
fn happen(alloc: Global, net: &mut Net, due: &DueEvent<'_>) -> Result<Effect, AllocError>
    ensures done { IfOk result (λ effect. (reply : replies.Reply)
        × ((effect ≡ effect_of reply)
        × (Step net.old (event_value due.now.event) reply net.new
        × IsFramed (event_value due.now.event) reply net.new))) }
    ensures kept { OnErr result (net.new ≡ net.old) }
{
    let reply = net.step(alloc, &due.event)?;
    // The borrow checker has to be told of the types in a reply.
    if let Reply::Turned(TurnReply::Went(_)) = reply {
        return Ok(Effect::Done);
    }
    Ok(effect_of(reply))
}

/// Whether one of the entries is of this AS.
fn is_named(entries: &[Entry], ia: IsdAs) -> bool
    ensures { result ≡ list_any (λ entry. entry.ia == ia) entries.now }
{
    entries.iter().any(|entry| entry.ia == ia)
}

/// Whether the beacon of this number has an entry of this AS.
fn has_entry(beacons: &[Beacon], number: usize, ia: IsdAs) -> bool
    ensures { result ≡ option_map_or (λ chain. list_any (λ entry. entry.ia == ia) chain.entries)
        (slice_get beacons.now number) false }
{
    match beacons.get(number) {
        Some(beacon) => is_named(beacon.entries(), ia),
        None => false,
    }
}

impl BeaconRun {
    /// A network of this topology at the second `now`, and no event after that.
    pub(crate) fn new(alloc: Global, topology: Topology, now: u32) -> Result<BeaconRun, AllocError>
        ensures net { IfOk result
            (λ run. run.net ≡ begun_net topology now) }
        ensures second { IfOk result (λ run. run.second ≡ now) }
    {
        let mut net = Net::new(alloc, topology);
        let tick = Event::Tick { now };
        happen(alloc, &mut net, &DueEvent { event: tick })?;
        Ok(BeaconRun {
            net,
            second: now,
            events: Vec::new(alloc),
        })
    }

    /// The topology.
    pub(crate) fn topology(&self) -> &Topology
        ensures { result.now ≡ self.now.net.network }
    {
        self.net.topology()
    }

    /// The events that were done.
    pub(crate) fn events(&self) -> &[BeaconEvent]
        ensures { map network_event result.now ≡ self.now.events }
    {
        &self.events
    }

    /// Whether the beacon of this number has an entry of this AS.
    pub(crate) fn has_passed(&self, beacon: u32, ia: IsdAs) -> bool
        ensures { result ≡ has_passed self.now.net beacon ia }
    {
        has_entry(self.net.beacons(), beacon as usize, ia)
    }

    /// Tries an event, and returns what it made. If it is refused, or registers a segment that is
    /// stored already, nothing changes.
    pub(crate) fn attempt(
        &mut self,
        alloc: Global,
        event: &BeaconEvent,
    ) -> Result<Effect, AllocError>
        ensures happens { IfOk result
            (λ effect. Happens self.old.net event.now effect self.new.net) }
        ensures second { self.new.second ≡ self.old.second }
    {
        self.events.try_reserve(1)?;
        let Some(due) = event.of_network() else {
            return Ok(Effect::Refused);
        };
        let effect = happen(alloc, &mut self.net, &DueEvent { event: due })?;
        if !effect.is_new() {
            return Ok(effect);
        }
        let _ = self.events.push(*event);
        Ok(effect)
    }
}
