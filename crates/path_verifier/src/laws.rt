//! Laws of paths: each is the contract of a function that does nothing.

ghost use Rattle.std.specs.Prelude.{◌≡◌, ◌↔◌, ℕ, ◌+◌, ◌-◌, ◌*◌, ◌≤◌, List, ◌∷◌, ◌++◌, Some, length, map, reverse, slice_get, All};
ghost use Rattle.path_segment.specs.declared.entry.Entry.{Entry};
ghost use Rattle.path_header.specs.Value.{HeaderValue, IsHeader};
ghost use Rattle.policy_expr.specs.Policy.{AllowsHops, HasWord, Rules};
ghost use Rattle.path_verifier.specs.declared.fault.VerifyFault.{VerifyFault};
ghost use Rattle.path_verifier.specs.declared.fault.VerifyFault.TheVariants.{Expired};
ghost use Rattle.path_verifier.specs.Piece.{PieceValue, HasRange, kind_of, travelled_entries};
ghost use Rattle.path_verifier.specs.Header.{field_of, fields_of, len_of, header_of, total_hops};
ghost use Rattle.path_verifier.specs.Walk.{hop_of, hops_of, walk_of};
ghost use Rattle.path_verifier.specs.Accepted.{AreLive, IsAccepted, IsExpiry, MakesPath, MayAdjoin, Request, request_of, IsRefused};
ghost use Rattle.path_verifier.specs.Turned.{turned_piece, turned_pieces, turned_walk};

/// A path may be sent if and only if its pieces are a path from one end to the other, its header is
/// theirs, and the policy's list and sequence allow the walk. It is refused by at most one fault,
/// and by none if it may be sent.
pub fn refusals_are_breaches()
    ensures parts { (request : Request) → IsAccepted request
        ↔ (MakesPath request.pieces request.src request.dst request.moment
        × ((request.header ≡ header_of request.pieces)
        × (AllowsHops request.rules.acl (walk_of request.pieces)
        × HasWord request.rules.sequence (walk_of request.pieces)))) }
    ensures one { (request : Request) (fault other : VerifyFault)
        → IsRefused request fault → IsRefused request other → fault ≡ other }
    ensures either { (request : Request) (fault : VerifyFault)
        → IsRefused request fault → ¬ IsAccepted request }
{}

/// The walk of a path leads from its source to its destination.
pub fn walks_lead_on()
    ensures begins { (pieces : List PieceValue) (src dst now : ℕ) → MakesPath pieces src dst now
        → slice_get (map (λ hop. hop.ia) (walk_of pieces)) 0 ≡ Some src }
    ensures ends { (pieces : List PieceValue) (src dst now : ℕ) → MakesPath pieces src dst now
        → slice_get (map (λ hop. hop.ia) (walk_of pieces)) (length (walk_of pieces) - 1)
        ≡ Some dst }
{}

/// The hops of pieces are all live up to the earliest of their expiries, and not after it.
pub fn live_up_to_expiry()
    ensures { (pieces : List PieceValue) (least now : ℕ) → IsExpiry pieces least
        → AreLive now pieces ↔ (2 * now ≤ least) }
{}

/// The walk of a path has at least two hops, and no more hops than its header has hop fields.
pub fn walks_are_short()
    ensures least { (pieces : List PieceValue) (src dst now : ℕ) → MakesPath pieces src dst now
        → 2 ≤ length (walk_of pieces) }
    ensures most { (pieces : List PieceValue) → length (walk_of pieces) ≤ total_hops pieces }
{}

/// A path has at most three pieces. After an up piece comes a core or a down piece, after a core
/// piece a down piece, and after a down piece nothing.
pub fn pieces_adjoin()
    ensures most { (pieces : List PieceValue) (src dst now : ℕ) → MakesPath pieces src dst now
        → length pieces ≤ 3 }
    ensures kinds { (past later : List PieceValue) (piece next : PieceValue) (src dst now : ℕ)
        → MakesPath (past ++ (piece ∷ (next ∷ later))) src dst now
        → MayAdjoin (kind_of piece) (kind_of next) }
{}

/// The header of a path is one of the grammar, since a segment has at most 63 entries.
pub fn headers_are_of_the_grammar()
    ensures { (pieces : List PieceValue) (src dst now : ℕ) → MakesPath pieces src dst now
        → All (λ piece. length piece.segment.entries ≤ 63) pieces → IsHeader (header_of pieces) }
{}

/// A piece has one hop and one hop field for each of its entries, from one place to the other, both
/// included; each is that of its entry.
pub fn pieces_go_by_entries()
    ensures entries { (piece : PieceValue) → HasRange piece
        → length (travelled_entries piece) ≡ piece.to + 1 - piece.from }
    ensures hops { (piece : PieceValue) → length (hops_of piece) ≡ len_of piece }
    ensures fields { (piece : PieceValue) → length (fields_of piece) ≡ len_of piece }
    ensures hop { (piece : PieceValue) (i : ℕ) (entry : Entry)
        → slice_get (travelled_entries piece) i ≡ Some entry
        → slice_get (hops_of piece) i ≡ Some (hop_of piece.along entry) }
    ensures field { (piece : PieceValue) (i : ℕ) (entry : Entry)
        → slice_get (travelled_entries piece) i ≡ Some entry
        → slice_get (fields_of piece) i ≡ Some (field_of entry) }
{}

/// The way back of a path has its pieces in reverse order, each in the other direction. It is a
/// path at each second at which its hops are live. It passes the same ASes, with ways in and ways
/// out exchanged, and expires when the path does. A path with an expired hop is refused as Expired,
/// with any header and any policy.
pub fn paths_turn_back()
    ensures path { (pieces : List PieceValue) (src dst now moment : ℕ)
        → MakesPath pieces src dst now → AreLive moment pieces
        → MakesPath (turned_pieces pieces) dst src moment }
    ensures walk { (pieces : List PieceValue) (src dst now : ℕ) → MakesPath pieces src dst now
        → walk_of (turned_pieces pieces) ≡ turned_walk (walk_of pieces) }
    ensures expiry { (pieces : List PieceValue) (least : ℕ) → IsExpiry pieces least
        → IsExpiry (turned_pieces pieces) least }
    ensures late { (pieces : List PieceValue) (src dst now moment : ℕ) (header : HeaderValue)
        (rules : Rules) → MakesPath pieces src dst now → ¬ (AreLive moment pieces)
        → IsRefused (request_of pieces header src dst moment rules) Expired }

    // The entries of a piece, and its hop fields, are in reverse order on the way back.
    ensures entries { (piece : PieceValue) → travelled_entries (turned_piece piece)
        ≡ reverse (travelled_entries piece) }
    ensures fields { (piece : PieceValue) → fields_of (turned_piece piece)
        ≡ reverse (fields_of piece) }
{}
