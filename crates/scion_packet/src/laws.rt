//! Laws of whole packets: each is the contract of a function that does nothing.

ghost use Rattle.std.specs.Prelude.{◌≡◌, ℕ, List, Ok};
ghost use Rattle.refusal.specs.Refusal.{refused_as};
ghost use Rattle.scion_topology.specs.View.{View};
ghost use Rattle.path_header.specs.Value.{HeaderValue, IsHeader};
ghost use Rattle.path_header.specs.Spelling.{spelling};
ghost use Rattle.router_step.specs.declared.arrival.Arrival.{Arrival};
ghost use Rattle.router_step.specs.declared.outcome.Outcome.{Outcome};
ghost use Rattle.router_step.specs.Packet.{IsFrame, packet_step};
ghost use Rattle.scion_packet.specs.declared.fault.TurnRefusal.TheVariants.{Step};
ghost use Rattle.scion_packet.specs.Value.{WholePacketValue};
ghost use Rattle.scion_packet.specs.Layout.{addresses_of, frame_in};
ghost use Rattle.scion_packet.specs.Spelling.{SpellsPacket, front_of};
ghost use Rattle.scion_packet.specs.Reading.{path_header_in, whole_packet_at};
ghost use Rattle.scion_packet.specs.Reply.{reply_to};
ghost use Rattle.scion_packet.specs.Turn.{whole_packet_step};
ghost use Rattle.scion_packet.specs.Parts.{HasParts, KeepsParts, turned_frame, parts_step, RouterTurn, packet_after_turns, frame_after_turns};

/// A spelling of a whole packet is read as that packet, and it is a packet in parts.
pub fn spelled_is_read()
    ensures read { (v : WholePacketValue) (bytes : List ℕ) → SpellsPacket bytes v
        → whole_packet_at bytes ≡ Ok v }
    ensures parts { (v : WholePacketValue) (bytes : List ℕ) → SpellsPacket bytes v
        → HasParts bytes (front_of v) (spelling v.header) v.payload v.header }
{}

/// The reply to the reply is the packet.
pub fn replied_twice()
    ensures { (v : WholePacketValue) → IsHeader v.header → reply_to (reply_to v) ≡ v }
{}

/// A packet in parts is read, and its frame has the same path header and payload. A turn on it is
/// the step on its path header; in the new packet the new header's bytes replace the old ones.
pub fn packets_are_turned()
    ensures read { (packet front text payload : List ℕ) (header : HeaderValue)
        → HasParts packet front text payload header → path_header_in packet ≡ Ok header }
    ensures frame { (packet front text payload : List ℕ) (header : HeaderValue)
        → HasParts packet front text payload header
        → IsFrame (frame_in packet) (addresses_of front) text payload header }
    ensures turned { (view : View) (now : ℕ) (arrival : Arrival)
        (packet front text payload : List ℕ) (header : HeaderValue)
        → HasParts packet front text payload header
        → whole_packet_step view now arrival packet
        ≡ refused_as Step (parts_step view now arrival front header payload) }
    // The turn is the step on the packet's frame: the same outcome with the new packet's frame, or
    // the same refusal.
    ensures as_frame { (view : View) (now : ℕ) (arrival : Arrival)
        (packet front text payload : List ℕ) (header : HeaderValue)
        → HasParts packet front text payload header
        → turned_frame (whole_packet_step view now arrival packet)
        ≡ refused_as Step (packet_step view now arrival (frame_in packet)) }
    // The packet keeps what stands in front of its path header, and its payload.
    ensures stays { (view : View) (now : ℕ) (arrival : Arrival)
        (packet front text payload : List ℕ) (header : HeaderValue) (outcome : Outcome)
        (new : List ℕ) → HasParts packet front text payload header
        → whole_packet_step view now arrival packet ≡ Ok (outcome, new)
        → KeepsParts new front payload }
{}

/// After any turns, of any routers, a packet's frame is its frame after these turns; and the packet
/// has kept what stands in front of its path header, and its payload.
pub fn packets_go_as_their_frames()
    ensures frames { (turns : List RouterTurn) (packet front payload : List ℕ)
        → KeepsParts packet front payload
        → frame_in (packet_after_turns turns packet)
        ≡ frame_after_turns turns (frame_in packet) }
    ensures stays { (turns : List RouterTurn) (packet front payload : List ℕ)
        → KeepsParts packet front payload
        → KeepsParts (packet_after_turns turns packet) front payload }
{}
