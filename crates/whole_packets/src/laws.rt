//! Laws of whole packets in a network: each is the contract of a function that does nothing.

ghost use Rattle.std.specs.Prelude.{◌≡◌, ℕ, ◌+◌, ◌*◌, ◌<◌, ◌≤◌, List, length, take, drop, All, Some, slice_get};
ghost use Rattle.scion_topology.specs.Network.{Network};
ghost use Rattle.path_verifier.specs.Piece.{PieceValue};
ghost use Rattle.path_verifier.specs.Header.{total_hops};
ghost use Rattle.forwarding.specs.Turn.{Packet, turn_of, after};
ghost use Rattle.forwarding.specs.Forwardable.{MayForward};
ghost use Rattle.forwarding.specs.OnPath.{OnPath, arrived_with};
ghost use Rattle.network_core.specs.Event.{Lose, Alter};
ghost use Rattle.network_core.specs.Value.{NetValue, PacketValue, Shipment};
ghost use Rattle.network_core.specs.History.{EventRecord, IsHistory, net_after, net_at};
ghost use Rattle.network_core.specs.Headline.{IsDone, Undisturbed, turns_since, Headline};
ghost use Rattle.scion_packet.specs.Parts.{KeepsParts};
ghost use Rattle.whole_packets.specs.Turn.{frame_packet, whole_turn_of, whole_packet_after};
ghost use Rattle.whole_packets.specs.Run.{after_history};

/// A turn of a whole packet in a network is the turn of its frame: the same reply, the same place,
/// and the frame of the new packet is the new frame; and so after any turns. The packet keeps what
/// stands in front of its path header, and its payload.
pub fn whole_packets_go_as_their_frames()
    ensures turn { (n : Network) (now : ℕ) (packet : Packet) (front payload : List ℕ)
        → KeepsParts packet.bytes front payload
        → let turned = whole_turn_of n now packet in
        turn_of n now (frame_packet packet) ≡ (turned.0, frame_packet turned.1) }
    ensures after { (n : Network) (moments : List ℕ) (packet : Packet) (front payload : List ℕ)
        → KeepsParts packet.bytes front payload
        → frame_packet (whole_packet_after n packet moments)
        ≡ after n (frame_packet packet) moments }
    ensures stays { (n : Network) (moments : List ℕ) (packet : Packet) (front payload : List ℕ)
        → KeepsParts packet.bytes front payload
        → KeepsParts (whole_packet_after n packet moments).bytes front payload }
    // If its frame stands on a path, it is delivered as that is: after as many turns or more its
    // frame is that of an arrived packet.
    ensures delivered { (n : Network) (source destination : ℕ) (sent : List ℕ)
        (pieces : List PieceValue) (left : ℕ) (packet : Packet) (front payload : List ℕ)
        (moments : List ℕ) → KeepsParts packet.bytes front payload
        → All (λ now. MayForward n now source destination pieces) moments
        → OnPath n source destination sent pieces left (frame_packet packet)
        → left ≤ length moments
        → frame_packet (whole_packet_after n packet moments)
        ≡ arrived_with source destination sent pieces }
{}

/// This is about a whole packet whose frame is a packet of a network, and about a history in which
/// nobody alters that packet and nothing loses it. If each turn of that packet is a turn of the
/// whole packet, then its frame is that packet after the history, too.
pub fn whole_packets_run_as_their_frames()
    ensures frames { (p : ℕ) (start : NetValue) (history : List EventRecord) (one : PacketValue)
        (packet : Packet) (front payload : List ℕ) → IsHistory start history
        → ((k : ℕ) → ¬ (IsDone history k (Lose p)))
        → ((k at change : ℕ) → ¬ (IsDone history k (Alter p at change)))
        → slice_get start.packets p ≡ Some one → one.packet ≡ frame_packet packet
        → KeepsParts packet.bytes front payload
        → slice_get (net_after start history).packets p
        ≡ Some (record one { packet = frame_packet (after_history p start history packet) }) }
    ensures stays { (p : ℕ) (start : NetValue) (history : List EventRecord) (packet : Packet)
        (front payload : List ℕ) → KeepsParts packet.bytes front payload
        → KeepsParts (after_history p start history packet).bytes front payload }
{}

/// The headline holds of whole packets. A Send, event number `number`, sent packet `p`, and a whole
/// packet has that packet as its frame, at the same router. If packet `p` is undisturbed in the
/// first `k` events, and has had two turns for each hop field, each of which was a turn of the
/// whole packet, then the whole packet is delivered: its frame is that of the arrived packet.
pub fn whole_packets_are_delivered()
    ensures { (start : NetValue) (history : List EventRecord) (number p k : ℕ) (sent : Shipment)
        (one : PacketValue) (packet : Packet) (front payload : List ℕ) → IsHistory start history
        → Headline start history number p sent → number < k
        → Undisturbed start (take k history) number p sent.way.pieces
        → 2 * total_hops sent.way.pieces ≤ turns_since history number p k
        → let sent_net = net_at start history (number + 1) in
        slice_get sent_net.packets p ≡ Some one → one.packet ≡ frame_packet packet
        → KeepsParts packet.bytes front payload
        → frame_packet (after_history p sent_net (drop (number + 1) (take k history)) packet)
        ≡ arrived_with sent.way.source sent.way.destination sent.payload sent.way.pieces }
{}
