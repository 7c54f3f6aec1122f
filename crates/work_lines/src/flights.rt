//! The flights of a network's packets.

ghost use Rattle.std.specs.Prelude.{◌≡◌, All, IfOk};
ghost use Rattle.network_core.specs.Delivery.{AllMayDepart, MayDepart};
ghost use Rattle.work_lines.specs.Report.{AreFlights, IsFlightOf};

use network_core::{Net, Sent};
use router_workers::Flight;
use scion_topology::Topology;
use std::alloc::{AllocError, Global};

/// A flight for each packet of a network, in their order, over its current topology, unless memory
/// runs out.
pub(crate) fn flights_of(alloc: Global, net: &Net) -> Result<Vec<Flight<'_>>, AllocError>
    requires { AllMayDepart net.now }
    ensures flights { IfOk result (λ flights. AreFlights net.now flights.items) }
    ensures fabric { IfOk result (λ flights.
        All (λ flight. flight.fabric ≡ net.now.network) flights.items) }
{
    let packets = net.packets();
    let mut flights = Vec::with_capacity(alloc, packets.len())?;
    for packet in packets {
        flights.push(flight_of(alloc, net.topology(), packet.sent())?)?;
    }
    Ok(flights)
}

/// The flight of what was sent, without any turns, unless memory runs out.
fn flight_of<'a>(
    alloc: Global,
    topology: &'a Topology,
    sent: &'a Sent,
) -> Result<Flight<'a>, AllocError>
    requires { MayDepart topology.now sent.now }
    ensures { IfOk result (λ flight. IsFlightOf topology.now sent.now flight) }
{
    // The network judged the shipment when it was sent, so only memory can be missing.
    Flight::new(alloc, topology, sent).map_err(|_| AllocError)
}
