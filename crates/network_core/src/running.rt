ghost use Rattle.std.specs.Prelude.{◌≡◌, IfErr, IfOk, Some, map, slice_get, take};
ghost use Rattle.network_core.specs.Event.{EventValue, event_value};
ghost use Rattle.network_core.specs.Ran.{Ran};
ghost use Rattle.network_core.specs.Step.{TakesMemory};

use crate::event::Event;
use crate::net::Net;
use scion_topology::Topology;
use std::alloc::Global;

/// The state of a run in which memory ran out.
#[derive(Drop)]
pub struct Stopped {
    /// The network after the events that were done.
    pub net: Net,
    /// The number of events that were done.
    pub done: usize,
}

/// Runs events in order, in a new network of this topology. If memory runs out at an event, the
/// network after the events before it is returned.
///
/// Each segment that is ever stored was issued by events of the run. The paths of each answer were
/// accepted when it was given, so the segments of what is sent by an answer were issued before.
///
/// The rest is about a packet that was sent on a path of segments issued before, by an answer, a
/// given way or a reply. Its premises, from the first event that issued these segments up to the
/// delivery: no AS of the path changes its key twice, and no link of it is cut; nobody alters the
/// packet, and nothing loses it; each of its turns comes no later than the path's expiry. Then no
/// router refuses it, and it passes exactly the hops of its path in order. It is delivered if and
/// only if it has had all its turns, at most two for each hop field, and is at a router before. A
/// delivered packet stays as it is. Its hops are a word of the policy under which it was sent, and
/// pass its list.
pub fn run(alloc: Global, topology: Topology, events: &[Event<'_>]) -> Result<Net, Stopped>
    ensures ran { IfOk result (λ net. Ran topology (map event_value events.now) net) }
    ensures stopped { IfErr result (λ s. (event : EventValue)
        × ((slice_get (map event_value events.now) s.done ≡ Some event)
        × (TakesMemory s.net event
        × Ran topology (take s.done (map event_value events.now)) s.net))) }
{
    topology.known();
    let mut net = Net::new(alloc, topology);
    for (done, event) in events.iter().enumerate() {
        match net.step(alloc, event) {
            Ok(_) => {}
            Err(_) => return Err(Stopped { net, done }),
        }
    }
    Ok(net)
}
