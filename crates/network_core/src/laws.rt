//! Laws of networks: each is the contract of a function that does nothing.

ghost use Rattle.std.specs.Prelude.{◌≡◌, ℕ, List, take, Ok};
ghost use Rattle.scion_topology.specs.Network.{Network};
ghost use Rattle.scion_topology.specs.Topology.{IsNetwork};
ghost use Rattle.path_verifier.specs.Walk.{walk_of};
ghost use Rattle.forwarding.specs.declared.reply.TurnReply.{TurnReply};
ghost use Rattle.forwarding.specs.Frame.{HasFrame};
ghost use Rattle.forwarding.specs.Journey.{turns_for};
ghost use Rattle.network_core.specs.declared.reply.Reply.{Reply};
ghost use Rattle.network_core.specs.Event.{EventValue, RouteValue, Send, Turn};
ghost use Rattle.network_core.specs.Value.{Shipment, NetValue, new_net};
ghost use Rattle.network_core.specs.Step.{Step, Sends, shipment_by};
ghost use Rattle.network_core.specs.History.{EventRecord, IsHistory, net_after, net_at, AreIssued, AreAsked, Occurs};
ghost use Rattle.network_core.specs.Headline.{Headline};
ghost use Rattle.network_core.specs.Ran.{IsRun};
ghost use Rattle.network_core.specs.Delivery.{AllFramed, AllLeaveUndisturbed, AllLetGoOn, AllMayDepart, AreSound, IsForwarded, turns_of};

/// In every history of a new network, after any number of events, each stored segment was issued by
/// events before. An AS began its beacon, others passed it on, and the last ended it, each under
/// the key that it had in use at its own event.
pub fn stored_segments_are_issued()
    ensures { (network : Network) (history : List EventRecord) → IsNetwork network
        → IsHistory (new_net network) history → AreIssued (new_net network) history }
{}

/// In every history of a new network, after any number of events, each answer was given by an Ask
/// before. Its paths were accepted then, for the ends of the request and under the policy of the
/// used option, and their segments were issued by events before.
pub fn answers_are_accepted()
    ensures { (network : Network) (history : List EventRecord) → IsNetwork network
        → IsHistory (new_net network) history → AreAsked (new_net network) history }
{}

/// This is about a packet that an event sent with this payload on this path, in every history that
/// follows. Its addresses and the numbers of its header fit into their bits. No event that is done
/// loses or alters it, and at each of its turns the network forwards packets on its path. Then,
/// after any number of events, no router has refused it, and it has passed the beginning of its
/// walk. It is delivered if and only if it has had all its turns, and then it has passed its whole
/// walk. `turns_for` gives the number of turns: 2, and for each AS between the ends 1 if one router
/// owns both its interfaces and else 2. That is at most two for each hop field.
pub fn sent_packets_are_delivered()
    ensures let_through { (p k : ℕ) (old new : NetValue) (sent : Shipment)
        (later : List EventRecord)
        → Sends (Ok sent) old (Reply.Sent p) new
        → HasFrame sent.way.source sent.way.destination sent.way.pieces
        → IsHistory new later → AllLetGoOn p sent new later
        → IsForwarded (net_after new (take k later)) p
        (turns_for old.network (walk_of sent.way.pieces)) (turns_of p (take k later)) sent }
    // The network forwards packets on a live path of sound pieces. The pieces stay sound if no
    // event that is done cuts a link of the path or changes a key of its ASes.
    ensures undisturbed { (p k : ℕ) (old new : NetValue) (sent : Shipment)
        (later : List EventRecord)
        → Sends (Ok sent) old (Reply.Sent p) new
        → HasFrame sent.way.source sent.way.destination sent.way.pieces
        → IsNetwork new.network → AreSound new.network sent.way.pieces
        → IsHistory new later → AllLeaveUndisturbed p sent new later
        → IsForwarded (net_after new (take k later)) p
        (turns_for old.network (walk_of sent.way.pieces)) (turns_of p (take k later)) sent }
{}

/// For each packet of a network, in every history of a new network, the AS and the interface by
/// which it left stay: no event removes an AS or an interface.
pub fn packets_may_depart()
    ensures new { (network : Network) → AllMayDepart (new_net network) }
    ensures step { (old new : NetValue) (event : EventValue) (reply : Reply)
        → Step old event reply new → AllMayDepart old → AllMayDepart new }
{}

/// In every history of a new network, each turn that is done is a step of a router: a packet at a
/// router is at one that the topology has.
pub fn no_turn_is_still()
    ensures { (network : Network) (history : List EventRecord) (k p : ℕ) → IsNetwork network
        → IsHistory (new_net network) history
        → ¬ (Occurs history k (Turn p) (Reply.Turned TurnReply.Still)) }
{}

/// The packet that a Send of a history sent, by the numbers of the events. Its path was accepted.
/// Each piece of the path is of a segment that events before issued. From the first of these events
/// up to some later one, no AS of the travelled entries changes its key twice and no link between
/// two of them is cut; nobody alters the packet, and nothing loses it; each of its turns comes no
/// later than its path's expiry. Then no router has refused it, it has passed the beginning of its
/// walk, and it is delivered if and only if it has had all its turns, with its whole walk passed.
/// It is delivered once it has had two turns for each hop field, and may then be answered by the
/// way back, up to the path's expiry. A delivered packet stays as it is.
pub fn headline()
    ensures { (start : NetValue) (history : List EventRecord) (number p : ℕ) (route : RouteValue)
        (payload : List ℕ) → IsNetwork start.network → IsHistory start history
        → AllFramed history → Occurs history number (Send route payload) (Reply.Sent p)
        → (sent : Shipment) × ((shipment_by (net_at start history number) route payload ≡ Ok sent)
        × Headline start history number p sent) }
{}

/// Every history of a new network is a run. This needs that the addresses and the numbers of the
/// headers of what it sent fit into their bits, which holds for every value of [`crate::Event`]
/// ([`crate::Net::step`]).
pub fn histories_are_runs()
    ensures { (network : Network) (history : List EventRecord) → IsNetwork network
        → IsHistory (new_net network) history → AllFramed history → IsRun network history }
{}
