//! Laws of packets that may arrive: each is the contract of a function that does nothing.

ghost use Rattle.std.specs.Prelude.{◌≡◌, ℕ, ◌+◌, ◌*◌, ◌≤◌, List, length, Ok};
ghost use Rattle.scion_topology.specs.Network.{Network};
ghost use Rattle.scion_topology.specs.Topology.{IsNetwork};
ghost use Rattle.network_core.specs.declared.reply.Reply.{Reply};
ghost use Rattle.network_core.specs.Event.{RouteValue, ByAnswer, Send};
ghost use Rattle.network_core.specs.Value.{Shipment, NetValue, new_net};
ghost use Rattle.network_core.specs.Step.{shipment_by};
ghost use Rattle.network_core.specs.History.{EventRecord, IsHistory, net_after, net_at, Occurs};
ghost use Rattle.network_core.specs.Delivery.{AllFramed};
ghost use Rattle.network_core.specs.Headline.{Undisturbed};
ghost use Rattle.arrivals.specs.Arrivals.{CutsNoLinkOf, MayArrive, RenewsNoKeyTwiceOf};

/// A packet that was sent, that is undisturbed so far and whose path has not expired may arrive.
/// The history can go on by turns of this packet alone, two for each hop field. The packet stays
/// undisturbed, and it is delivered after them.
pub fn undisturbed_packets_may_arrive()
    ensures { (start : NetValue) (history : List EventRecord) (number p : ℕ) (route : RouteValue)
        (payload : List ℕ) (sent : Shipment) → IsNetwork start.network → IsHistory start history
        → AllFramed history → Occurs history number (Send route payload) (Reply.Sent p)
        → shipment_by (net_at start history number) route payload ≡ Ok sent
        → (quiet : Undisturbed start history number p sent.way.pieces)
        → 2 * (net_after start history).moment ≤ quiet.expiry
        → MayArrive start history number p sent }
{}

/// A packet that the last event sent, by a path of an answer, may arrive, if no AS of its path has
/// changed its key twice and no link of its path was cut.
pub fn sent_packets_may_arrive()
    ensures { (network : Network) (history : List EventRecord) (number p ask path : ℕ)
        (payload : List ℕ) (sent : Shipment) → IsNetwork network
        → IsHistory (new_net network) history → AllFramed history
        → Occurs history number (Send (ByAnswer ask path) payload) (Reply.Sent p)
        → length history ≡ number + 1
        → shipment_by (net_at (new_net network) history number) (ByAnswer ask path) payload
        ≡ Ok sent
        → RenewsNoKeyTwiceOf sent.way.pieces history → CutsNoLinkOf sent.way.pieces history
        → MayArrive (new_net network) history number p sent }
{}
