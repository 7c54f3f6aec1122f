//! Laws of router steps: each is the contract of a function that does nothing.

ghost use Rattle.std.specs.Prelude.{◌≡◌, ◌≢◌, ℕ, Bool, true, false, List, Ok, Some};
ghost use Rattle.hop_mac.specs.Hop.{beta_after};
ghost use Rattle.scion_topology.specs.declared.entry.IfEntry.{IfEntry};
ghost use Rattle.scion_topology.specs.View.{View, entry_of};
ghost use Rattle.path_header.specs.Value.{HeaderValue, IsHeader};
ghost use Rattle.path_header.specs.Spelling.{SpellsHeader, spelling};
ghost use Rattle.router_step.specs.declared.arrival.Arrival.{Arrival};
ghost use Rattle.router_step.specs.declared.outcome.Outcome.{Outcome};
ghost use Rattle.router_step.specs.Place.{current_info, current_hop, is_over_link, way_out, moved_on, header_on_leaving};
ghost use Rattle.router_step.specs.Checks.{changes_segment, destination_fits, ends_segment, indices_fit, is_last, is_hop_live, is_mac_right};
ghost use Rattle.router_step.specs.Step.{step_of, switches_here};
ghost use Rattle.router_step.specs.Packet.{IsFrame, frame_step, packet_step};
ghost use Rattle.router_step.specs.Done.{Situation, DoesStep, on_arrival, at_the_way_out, IsOwnHop, IsOwnLink, StaysOnSegment, ChangesSegment};
ghost use Rattle.router_step.specs.Forward.{IsAdmitted, MayLeave, goes};

/// A packet that is not refused is at a live hop, whose authenticator is right under a key that
/// this AS accepts and the accumulator after the arrival. If the path switches to another segment,
/// the same holds for the first hop of that segment. So it is for every packet that leaves over a
/// link or is delivered.
pub fn own_hops_alone()
    ensures here { (at : Situation) (outcome : Outcome) (new : HeaderValue)
        → DoesStep at outcome new → IsOwnHop at.view at.now (on_arrival at) }
    ensures beyond { (at : Situation) (outcome : Outcome) (new : HeaderValue)
        → DoesStep at outcome new → IsOwnHop at.view at.now (at_the_way_out at) }
{
    scion_topology::laws::authentic_by_test();
}

/// A packet leaves only by the way out of its hop, over a link of this router that is up. It goes
/// to another router only if that router owns the way out.
pub fn own_links_alone()
    ensures over_link { (at : Situation) (interface : ℕ) (new : HeaderValue)
        → DoesStep at (Outcome.ToLink interface) new
        → (interface ≡ way_out (current_info (at_the_way_out at)) (current_hop (at_the_way_out at)))
        × ((entry : IfEntry) × IsOwnLink at.view interface entry) }
    ensures inside { (at : Situation) (router : ℕ) (new : HeaderValue)
        → DoesStep at (Outcome.ToRouter router) new
        → (router ≢ at.view.router)
        × ((entry : IfEntry) × ((entry.router ≡ router)
        × (entry_of at.view
        (way_out (current_info (at_the_way_out at)) (current_hop (at_the_way_out at)))
        ≡ Some entry))) }
{}

/// The new header is the old one after three changes: that of the arrival, that of a switch if the
/// path goes on to another segment, and that of the outcome.
pub fn three_changes()
    ensures all { (at : Situation) (outcome : Outcome) (new : HeaderValue)
        → DoesStep at outcome new → new ≡ header_on_leaving outcome (at_the_way_out at) }

    // A packet that goes to another router has only the changes of the arrival and of a switch.
    ensures to_router { (at : Situation) (router : ℕ) (new : HeaderValue)
        → DoesStep at (Outcome.ToRouter router) new → new ≡ at_the_way_out at }
    // A packet is delivered at the last hop of its path, with only the change of the arrival.
    ensures delivered { (at : Situation) (new : HeaderValue)
        → DoesStep at Outcome.Deliver new → (is_last at.header ≡ true) × (new ≡ on_arrival at) }
{}

/// If the path stays on its segment, the new header differs only in the index of its hop field and
/// in the accumulator of that segment.
pub fn segment_stays()
    ensures { (at : Situation) (outcome : Outcome) (new : HeaderValue)
        → IsHeader at.header → DoesStep at outcome new → changes_segment at.header ≡ false
        → StaysOnSegment at.header new }
{}

/// If the path switches to another segment, the segment behind keeps the accumulator after the
/// arrival, that of the next is unchanged before the packet leaves, and both indices go up by one.
pub fn segment_changes()
    ensures { (at : Situation) (outcome : Outcome) (new : HeaderValue)
        → DoesStep at outcome new → changes_segment at.header ≡ true → ChangesSegment at new }
{}

/// A packet that stays on its segment and leaves over a link in construction direction carries the
/// accumulator of the next hop. One that came over a link against construction direction has, after
/// the step, the accumulator of the hop that it passed. One step of the chain leads from that back
/// to the accumulator with which it came.
pub fn accumulator_goes_on()
    ensures along { (at : Situation) (interface : ℕ) (new : HeaderValue)
        → IsHeader at.header → DoesStep at (Outcome.ToLink interface) new
        → changes_segment at.header ≡ false → (current_info at.header).construction ≡ true
        → (current_info new).seg_id
        ≡ beta_after (current_info at.header).seg_id (current_hop at.header).mac }
    ensures against { (at : Situation) (outcome : Outcome) (new : HeaderValue)
        → IsHeader at.header → DoesStep at outcome new → is_over_link at.arrival ≡ true
        → changes_segment at.header ≡ false → (current_info at.header).construction ≡ false
        → beta_after (current_info new).seg_id (current_hop at.header).mac
        ≡ (current_info at.header).seg_id }
    // With a switch, too, a packet that leaves in construction direction carries the next hop's
    // accumulator.
    ensures leaving { (at : Situation) (interface : ℕ) (new : HeaderValue)
        → IsHeader at.header → DoesStep at (Outcome.ToLink interface) new
        → (current_info (at_the_way_out at)).construction ≡ true
        → (current_info new).seg_id
        ≡ beta_after (current_info (at_the_way_out at)).seg_id
        (current_hop (at_the_way_out at)).mac }
{
    hop_mac::laws::step_undone();
}

/// A packet that is not refused still has a header of the grammar, and its indices pass the check
/// of the next router.
pub fn indices_go_on()
    ensures header { (at : Situation) (outcome : Outcome) (new : HeaderValue)
        → IsHeader at.header → DoesStep at outcome new → IsHeader new }
    ensures indices { (at : Situation) (outcome : Outcome) (new : HeaderValue) (arrival : Arrival)
        → IsHeader at.header → DoesStep at outcome new → arrival ≢ Arrival.FromHost
        → indices_fit arrival new ≡ true }
{}

/// If a header has a spelling, so has the header after a step, and it takes the same room.
pub fn spellings_go_on()
    ensures spelled { (at : Situation) (outcome : Outcome) (new : HeaderValue) (text : List ℕ)
        → SpellsHeader text at.header → DoesStep at outcome new
        → SpellsHeader (spelling new) new }
    ensures lens { (at : Situation) (outcome : Outcome) (new : HeaderValue)
        → IsHeader at.header → DoesStep at outcome new → new.lens ≡ at.header.lens }
{}

/// If the checks succeed, the step does too. At the last hop of its path the packet is delivered.
/// Elsewhere it leaves by its hop's way out, after a switch if its segment ends.
pub fn checks_lead_on()
    ensures delivered { (view : View) (now : ℕ) (arrival : Arrival) (source destination : ℕ)
        (header here : HeaderValue) → IsAdmitted view now arrival source header here
        → is_last here ≡ true → destination_fits view destination true ≡ true
        → step_of view now arrival source destination header ≡ Ok (Outcome.Deliver, here) }
    ensures sent_on { (view : View) (now : ℕ) (arrival : Arrival) (source destination : ℕ)
        (header here : HeaderValue) (has_switched : Bool) (out : IfEntry)
        → IsAdmitted view now arrival source header here → is_last here ≡ false
        → destination_fits view destination false ≡ true
        → switches_here view now arrival here ≡ Ok has_switched
        → MayLeave view arrival has_switched (moved_on has_switched here) out
        → let there = moved_on has_switched here in let way = goes view out there in
        step_of view now arrival source destination header ≡ Ok (way, header_on_leaving way there) }

    // Whether the step switches to another segment.
    ensures on_its_segment { (view : View) (now : ℕ) (arrival : Arrival) (here : HeaderValue)
        → ends_segment here ≡ false → switches_here view now arrival here ≡ Ok false }
    ensures to_the_next { (view : View) (now : ℕ) (arrival : Arrival) (here : HeaderValue)
        → ends_segment here ≡ true → is_over_link arrival ≡ true
        → is_hop_live now (current_info (moved_on true here)) (current_hop (moved_on true here))
        ≡ true
        → is_mac_right view (current_info (moved_on true here)) (current_hop (moved_on true here))
        ≡ true
        → switches_here view now arrival here ≡ Ok true }
{}

/// A step on a packet in these parts is the step on its path header; in the new packet the new
/// header's bytes replace the old ones.
pub fn frames_are_stepped()
    ensures { (view : View) (now : ℕ) (arrival : Arrival) (packet addresses text rest : List ℕ)
        (header : HeaderValue) → IsFrame packet addresses text rest header
        → packet_step view now arrival packet
        ≡ frame_step view now arrival packet addresses header rest }
{}
