//! Laws of packets on their way: each is the contract of a function that does nothing. Proofs may
//! use a law by citing the lemma of `proofs/` that its proof names.

ghost use Rattle.std.specs.Prelude.{◌≡◌, ◌≢◌, ◌↔◌, ◌⊎◌, ℕ, ◌-◌, ◌*◌, ◌<◌, ◌≤◌, Bool, true, false, List, [], ◌∷◌, ◌++◌, length, All, Ok, IsOk};
ghost use Rattle.scion_topology.specs.Network.{Network};
ghost use Rattle.scion_topology.specs.View.{View};
ghost use Rattle.scion_topology.specs.Topology.{IsNetwork, owner_in, with_rotated_key, set_up, view_in};
ghost use Rattle.path_segment.specs.Chain.{Chain};
ghost use Rattle.path_verifier.specs.Piece.{PieceValue};
ghost use Rattle.path_verifier.specs.Header.{header_of, total_hops};
ghost use Rattle.path_verifier.specs.Walk.{walk_of};
ghost use Rattle.path_verifier.specs.declared.fault.VerifyFault.{VerifyFault};
ghost use Rattle.path_verifier.specs.Accepted.{AreLive, IsExpiry, MakesPath, request_of, IsAccepted, IsRefused};
ghost use Rattle.path_verifier.specs.Turned.{turned_piece, turned_pieces};
ghost use Rattle.path_header.specs.Value.{HeaderValue, IsHeader, header_len};
ghost use Rattle.path_header.specs.Spelling.{FitsBits};
ghost use Rattle.router_step.specs.Packet.{destination_of, source_of, header_in};
ghost use Rattle.path_header.specs.Reversal.{reversed_header};
ghost use Rattle.policy_expr.specs.Policy.{Rules};
ghost use Rattle.forwarding.specs.Turned.{header_behind, no_rules};
ghost use Rattle.beaconing.specs.Entry.{key_in};
ghost use Rattle.beaconing.specs.Calls.{originated_beacon, extended_beacon, terminated_beacon};
ghost use Rattle.beaconing.specs.Issued.{IsMade, IsUnderWay};
ghost use Rattle.forwarding.specs.declared.location.PacketLocation.{PacketLocation};
ghost use Rattle.forwarding.specs.declared.location.RouterStop.{RouterStop};
ghost use Rattle.forwarding.specs.declared.reply.TurnReply.{TurnReply};
ghost use Rattle.forwarding.specs.Frame.{frame_of, HasFrame};
ghost use Rattle.forwarding.specs.Turn.{Packet, IsAtNoRouter, put_at, still, turn_under, turn_of, turned_packet, after};
ghost use Rattle.forwarding.specs.Journey.{first_out, turns_for};
ghost use Rattle.forwarding.specs.Forwardable.{IsForwardable, MayForward};
ghost use Rattle.forwarding.specs.OnPath.{OnPath, ComesNearer, arrived_with, Arrives};
ghost use Rattle.forwarding.specs.Sound.{KeysAndLinksHold, KeyIsInUse, IsIssuedAndAccepted, AvoidsAs, AvoidsLink};

/// One turn of a packet on a path on which the network forwards packets. No router refuses it. It
/// is at the next place of its path, one turn nearer to the end; or it is delivered with its whole
/// walk passed, the header at the end of all pieces, and the payload as it was sent.
pub fn one_turn_leads_on()
    ensures { (n : Network) (now source destination : ℕ) (payload : List ℕ)
        (pieces : List PieceValue) (left : ℕ) (packet : Packet)
        → MayForward n now source destination pieces
        → OnPath n source destination payload pieces left packet
        → ComesNearer n now source destination payload pieces left packet
        ⊎ Arrives n now source destination payload pieces left packet }
{}

/// In a network that does not change, a packet on its path has an exact number of turns to its end.
/// After fewer turns, at seconds at which the network forwards packets on the path, it is still on
/// its path. After that many turns or more it is delivered.
pub fn journeys_end()
    ensures before { (n : Network) (source destination : ℕ) (payload : List ℕ)
        (pieces : List PieceValue) (left : ℕ) (packet : Packet) (moments : List ℕ)
        → All (λ now. MayForward n now source destination pieces) moments
        → OnPath n source destination payload pieces left packet → length moments < left
        → OnPath n source destination payload pieces (left - length moments)
        (after n packet moments) }
    ensures then { (n : Network) (source destination : ℕ) (payload : List ℕ)
        (pieces : List PieceValue) (left : ℕ) (packet : Packet) (moments : List ℕ)
        → All (λ now. MayForward n now source destination pieces) moments
        → OnPath n source destination payload pieces left packet → left ≤ length moments
        → after n packet moments ≡ arrived_with source destination payload pieces }
{}

/// A packet that is sent on a path, at the router that owns the first way out of its walk, is at
/// the beginning of the path and has the turns of its whole walk to go.
pub fn sent_packets_stand()
    ensures { (n : Network) (source destination moment router : ℕ) (payload : List ℕ)
        (pieces : List PieceValue) → MakesPath pieces source destination moment
        → HasFrame source destination pieces
        → owner_in n source (first_out (walk_of pieces)) ≡ Ok router
        → OnPath n source destination payload pieces (turns_for n (walk_of pieces))
        (put_at (frame_of source destination (header_of pieces) payload) source router) }
{}

/// A path's walk takes at most two turns for each of its hop fields.
pub fn turns_are_few()
    ensures { (n : Network) (pieces : List PieceValue) (source destination moment : ℕ)
        → MakesPath pieces source destination moment
        → turns_for n (walk_of pieces) ≤ 2 * total_hops pieces }
{}

/// In a network that does not change, no packet has more than two turns for each of its hop fields,
/// whatever its segments, keys and seconds. The packet comes from a host, at a router that exists,
/// with a header of the grammar whose numbers fit. After that many turns it is at no router. While
/// it is at a router, it has had fewer turns, it has passed fewer hops than it has hop fields, and
/// the router exists. The router that owns an interface exists.
pub fn journeys_are_bounded()
    ensures ended { (n : Network) (source destination ia router : ℕ) (header : HeaderValue)
        (payload moments : List ℕ) → IsNetwork n → IsOk (view_in n ia router) → IsHeader header
        → FitsBits header → 2 * length header.hops ≤ length moments
        → IsAtNoRouter
        (after n (put_at (frame_of source destination header payload) ia router) moments) }
    ensures before { (n : Network) (source destination ia router : ℕ) (header : HeaderValue)
        (payload moments : List ℕ) (stop : RouterStop) → IsNetwork n → IsOk (view_in n ia router)
        → IsHeader header → FitsBits header
        → (after n (put_at (frame_of source destination header payload) ia router) moments).place
        ≡ PacketLocation.AtRouter stop
        → length moments < 2 * length header.hops }
    ensures passed { (n : Network) (source destination ia router : ℕ) (header : HeaderValue)
        (payload moments : List ℕ) (stop : RouterStop) → IsNetwork n → IsOk (view_in n ia router)
        → IsHeader header → FitsBits header
        → let packet = after n
        (put_at (frame_of source destination header payload) ia router) moments
        in packet.place ≡ PacketLocation.AtRouter stop
        → length packet.passed < length header.hops }
    ensures there { (n : Network) (source destination ia router : ℕ) (header : HeaderValue)
        (payload moments : List ℕ) (stop : RouterStop) → IsNetwork n → IsOk (view_in n ia router)
        → IsHeader header → FitsBits header
        → (after n (put_at (frame_of source destination header payload) ia router) moments).place
        ≡ PacketLocation.AtRouter stop
        → IsOk (view_in n stop.ia stop.router) }
    ensures owners { (n : Network) (ia number router : ℕ) → IsNetwork n
        → owner_in n ia number ≡ Ok router → IsOk (view_in n ia router) }
{}

/// A turn of a packet at a router that exists is done, whatever the packet's bytes; after it the
/// packet is at a router that exists, or at none. The routers of a network stay if a link goes up
/// or down or an AS changes its key.
pub fn turns_are_done()
    ensures done { (n : Network) (now : ℕ) (packet : Packet) (stop : RouterStop)
        → packet.place ≡ PacketLocation.AtRouter stop → IsOk (view_in n stop.ia stop.router)
        → (turn_of n now packet).0 ≢ TurnReply.Still }
    ensures there { (n : Network) (now : ℕ) (packet : Packet) (stop next : RouterStop) → IsNetwork n
        → packet.place ≡ PacketLocation.AtRouter stop → IsOk (view_in n stop.ia stop.router)
        → (turned_packet n now packet).place ≡ PacketLocation.AtRouter next
        → IsOk (view_in n next.ia next.router) }
    ensures links { (n m : Network) (up : Bool) (x y ia router : ℕ) → set_up up x y n ≡ Ok m
        → IsOk (view_in n ia router) → IsOk (view_in m ia router) }
    ensures keys { (n m : Network) (x : ℕ) (key : List ℕ) (ia router : ℕ)
        → with_rotated_key x key n ≡ Ok m
        → IsOk (view_in n ia router) → IsOk (view_in m ia router) }
{}

/// A packet on its path stays there if a link goes up or down or an AS changes its key.
pub fn packets_stand_through_changes()
    ensures links { (n m : Network) (up : Bool) (ia number source destination : ℕ)
        (payload : List ℕ) (pieces : List PieceValue) (left : ℕ) (packet : Packet)
        → set_up up ia number n ≡ Ok m → OnPath n source destination payload pieces left packet
        → OnPath m source destination payload pieces left packet }
    ensures keys { (n m : Network) (ia : ℕ) (key : List ℕ) (source destination : ℕ)
        (payload : List ℕ) (pieces : List PieceValue) (left : ℕ) (packet : Packet)
        → with_rotated_key ia key n ≡ Ok m → OnPath n source destination payload pieces left packet
        → OnPath m source destination payload pieces left packet }
{}

/// A packet that is at no router stays as it is, at any second and in any network.
pub fn ended_packets_stay()
    ensures { (n : Network) (now : ℕ) (packet : Packet)
        → ((stop : RouterStop) → packet.place ≢ PacketLocation.AtRouter stop)
        → turn_of n now packet ≡ still packet }
{}

/// A turn with the network's view of the router that has the packet is the packet's turn.
pub fn views_are_of_the_place()
    ensures { (n : Network) (now : ℕ) (packet : Packet) (stop : RouterStop) (view : View)
        → packet.place ≡ PacketLocation.AtRouter stop → view_in n stop.ia stop.router ≡ Ok view
        → turn_under n view now packet ≡ turn_of n now packet }
{}

/// A network forwards packets, in both directions, on a piece that it issued under keys that are
/// still accepted and over links that are up; and so on a path of such pieces while its hops are
/// live.
pub fn sound_pieces_are_open()
    ensures piece { (n : Network) (keys : List (List ℕ)) (piece : PieceValue)
        → IsIssuedAndAccepted n keys piece → IsForwardable n piece }
    ensures path { (n : Network) (now source destination moment : ℕ) (pieces : List PieceValue)
        → IsNetwork n → MakesPath pieces source destination moment → AreLive now pieces
        → All (λ piece. (keys : List (List ℕ)) × IsIssuedAndAccepted n keys piece) pieces
        → MayForward n now source destination pieces }
{}

/// A piece stays sound after each of these: a link is mended; a link is cut that is not one of the
/// piece; an AS changes its key that is not on the piece; an AS on the piece changes its key, if
/// the key of its entry was in use until then.
pub fn sound_pieces_outlast_changes()
    ensures mended { (n m : Network) (ia number : ℕ) (keys : List (List ℕ)) (piece : PieceValue)
        → set_up true ia number n ≡ Ok m → IsIssuedAndAccepted n keys piece
        → IsIssuedAndAccepted m keys piece }
    ensures cut { (n m : Network) (ia number : ℕ) (keys : List (List ℕ)) (piece : PieceValue)
        → set_up false ia number n ≡ Ok m
        → AvoidsLink piece.segment piece.from piece.to ia number
        → IsIssuedAndAccepted n keys piece → IsIssuedAndAccepted m keys piece }
    ensures others { (n m : Network) (ia : ℕ) (key : List ℕ) (keys : List (List ℕ))
        (piece : PieceValue) → with_rotated_key ia key n ≡ Ok m
        → AvoidsAs piece.segment piece.from piece.to ia
        → IsIssuedAndAccepted n keys piece → IsIssuedAndAccepted m keys piece }
    ensures own { (n m : Network) (ia : ℕ) (key : List ℕ) (keys : List (List ℕ))
        (piece : PieceValue) → with_rotated_key ia key n ≡ Ok m
        → KeyIsInUse n keys piece.segment piece.from piece.to ia
        → IsIssuedAndAccepted n keys piece → IsIssuedAndAccepted m keys piece }
{}

/// Between two places of a chain, a beacon under way or a segment, the keys of its entries are
/// accepted and its links are up. This holds when the chain is made, call by call, and after each
/// change that leaves a piece sound.
pub fn chains_hold()
    ensures begun { (n : Network) (ia egress timestamp beta0 : ℕ) (beacon : Chain) (from to : ℕ)
        → IsNetwork n → originated_beacon n ia egress timestamp beta0 ≡ Ok beacon
        → KeysAndLinksHold n (key_in n ia ∷ []) beacon from to }
    ensures passed_on { (n : Network) (keys : List (List ℕ)) (beacon : Chain) (ia egress : ℕ)
        (next : Chain) (from to : ℕ) → IsNetwork n → IsUnderWay n keys beacon
        → KeysAndLinksHold n keys beacon from to → extended_beacon n beacon ia egress ≡ Ok next
        → KeysAndLinksHold n (keys ++ (key_in n ia ∷ [])) next from to }
    ensures ended { (n : Network) (keys : List (List ℕ)) (beacon : Chain) (ia : ℕ)
        (segment : Chain) (from to : ℕ) → IsNetwork n → IsUnderWay n keys beacon
        → KeysAndLinksHold n keys beacon from to → terminated_beacon n beacon ia ≡ Ok segment
        → KeysAndLinksHold n (keys ++ (key_in n ia ∷ [])) segment from to }
    ensures mended { (n m : Network) (ia number : ℕ) (keys : List (List ℕ)) (chain : Chain)
        (from to : ℕ) → set_up true ia number n ≡ Ok m → KeysAndLinksHold n keys chain from to
        → KeysAndLinksHold m keys chain from to }
    ensures cut { (n m : Network) (ia number : ℕ) (keys : List (List ℕ)) (chain : Chain)
        (from to : ℕ) → IsNetwork n → IsMade n keys chain → set_up false ia number n ≡ Ok m
        → AvoidsLink chain from to ia number → KeysAndLinksHold n keys chain from to
        → KeysAndLinksHold m keys chain from to }
    ensures others { (n m : Network) (ia : ℕ) (key : List ℕ) (keys : List (List ℕ))
        (chain : Chain) (from to : ℕ) → with_rotated_key ia key n ≡ Ok m → AvoidsAs chain from to ia
        → KeysAndLinksHold n keys chain from to → KeysAndLinksHold m keys chain from to }
    ensures own { (n m : Network) (ia : ℕ) (key : List ℕ) (keys : List (List ℕ)) (chain : Chain)
        (from to : ℕ) → with_rotated_key ia key n ≡ Ok m → KeyIsInUse n keys chain from to ia
        → KeysAndLinksHold n keys chain from to → KeysAndLinksHold m keys chain from to }
{}

/// The key under which an AS made an entry stays in use until that AS changes its key.
pub fn keys_stay_in_use()
    ensures begun { (n : Network) (ia egress timestamp beta0 : ℕ) (beacon : Chain)
        (from to x : ℕ) → IsNetwork n → originated_beacon n ia egress timestamp beta0 ≡ Ok beacon
        → KeyIsInUse n (key_in n ia ∷ []) beacon from to x }
    ensures passed_on { (n : Network) (keys : List (List ℕ)) (beacon : Chain) (ia egress : ℕ)
        (next : Chain) (from to x : ℕ) → IsUnderWay n keys beacon
        → KeyIsInUse n keys beacon from to x → extended_beacon n beacon ia egress ≡ Ok next
        → KeyIsInUse n (keys ++ (key_in n ia ∷ [])) next from to x }
    ensures ended { (n : Network) (keys : List (List ℕ)) (beacon : Chain) (ia : ℕ)
        (segment : Chain) (from to x : ℕ) → IsUnderWay n keys beacon
        → KeyIsInUse n keys beacon from to x → terminated_beacon n beacon ia ≡ Ok segment
        → KeyIsInUse n (keys ++ (key_in n ia ∷ [])) segment from to x }
    ensures links { (n m : Network) (up : Bool) (x number : ℕ) (keys : List (List ℕ))
        (chain : Chain) (from to ia : ℕ) → set_up up x number n ≡ Ok m
        → KeyIsInUse n keys chain from to ia → KeyIsInUse m keys chain from to ia }
    ensures others { (n m : Network) (x : ℕ) (key : List ℕ) (keys : List (List ℕ)) (chain : Chain)
        (from to ia : ℕ) → with_rotated_key x key n ≡ Ok m → x ≢ ia
        → KeyIsInUse n keys chain from to ia
        → KeyIsInUse m keys chain from to ia }
{}

/// Reading the bytes of a delivered packet gives both addresses as they were sent, and the header
/// at the end of all pieces.
pub fn delivered_packets_are_read()
    ensures { (source destination moment : ℕ) (payload : List ℕ) (pieces : List PieceValue)
        → MakesPath pieces source destination moment → HasFrame source destination pieces
        → let bytes = frame_of source destination (header_behind pieces) payload
        in (source_of bytes ≡ source) × (destination_of bytes ≡ destination)
        × (header_in bytes ≡ Ok (header_behind pieces, header_len (header_behind pieces))) }
{}

/// The header of a delivered packet, reversed, is that of the turned pieces of its path. With it
/// the way back may be sent without a policy at each second up to the path's expiry. After that it
/// is refused as Expired, with any header and any policy. A piece that is sound in one direction is
/// sound in the other.
pub fn delivered_packets_are_answered()
    ensures header { (pieces : List PieceValue) (src dst now : ℕ) → MakesPath pieces src dst now
        → reversed_header (header_behind pieces) ≡ header_of (turned_pieces pieces) }
    ensures in_time { (pieces : List PieceValue) (src dst now moment least : ℕ)
        → MakesPath pieces src dst now → IsExpiry pieces least → 2 * moment ≤ least
        → IsAccepted
        (request_of (turned_pieces pieces) (reversed_header (header_behind pieces)) dst src
        moment no_rules) }
    ensures late { (pieces : List PieceValue) (src dst now moment least : ℕ) (header : HeaderValue)
        (rules : Rules) → MakesPath pieces src dst now → IsExpiry pieces least
        → least < 2 * moment → (fault : VerifyFault)
        → IsRefused (request_of (turned_pieces pieces) header dst src moment rules) fault
        ↔ (fault ≡ VerifyFault.Expired) }
    ensures sound { (n : Network) (keys : List (List ℕ)) (piece : PieceValue)
        → IsIssuedAndAccepted n keys piece
        → IsIssuedAndAccepted n keys (turned_piece piece) }
{}
