//! Laws of flights: each is the contract of a function that does nothing.

ghost use Rattle.std.specs.Prelude.{◌≡◌, ℕ, List, Some, length, slice_get, All};
ghost use Rattle.scion_topology.specs.Network.{Network};
ghost use Rattle.path_verifier.specs.Accepted.{AreLive};
ghost use Rattle.path_verifier.specs.Walk.{walk_of};
ghost use Rattle.forwarding.specs.Turn.{Packet, after};
ghost use Rattle.forwarding.specs.Journey.{turns_for};
ghost use Rattle.router_workers.specs.declared.end.End.{End};
ghost use Rattle.router_workers.specs.Flight.{SentPacket, FlightValue, IsFlight, flight_at_start};
ghost use Rattle.router_workers.specs.Delivery.{IsFlightForwarded, IsSoundIn, IsSoundEnd};
ghost use Rattle.router_workers.specs.Run.{IsReport};

/// A flight without any turns, on pieces that its network issued under keys that are accepted and
/// over links that are up. After turns at any seconds at which its path is live, no router has
/// refused it, and it has passed the beginning of its walk. It is delivered if and only if it has
/// had all its turns, with its whole walk passed. Two turns for each of its hop fields are enough.
pub fn sound_flights_are_delivered()
    ensures { (n : Network) (sent : SentPacket) (start : Packet) (moments : List ℕ)
        → IsFlight (flight_at_start n sent start) → IsSoundIn n sent
        → All (λ now. AreLive now sent.pieces) moments
        → IsFlightForwarded sent (turns_for n (walk_of sent.pieces)) (length moments)
        (after n start moments) }
{}

/// A run at a second at which the path of such a flight is live refuses it nowhere. The report says
/// that it was delivered after exactly its turns, or dropped before.
pub fn sound_flights_are_reported()
    ensures { (flights : List FlightValue) (now slots i : ℕ) (ends : List End) (n : Network)
        (sent : SentPacket) (start : Packet) (end : End) → IsReport flights now slots ends
        → slice_get flights i ≡ Some (flight_at_start n sent start) → slice_get ends i ≡ Some end
        → IsFlight (flight_at_start n sent start) → IsSoundIn n sent → AreLive now sent.pieces
        → IsSoundEnd (turns_for n (walk_of sent.pieces)) end }
{}
