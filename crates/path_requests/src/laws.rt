//! Laws of answers: each is the contract of a function that does nothing.

ghost use Rattle.std.specs.Prelude.{◌≡◌, ℕ, ◌<◌, List, Some, length, slice_get, All};
ghost use Rattle.path_verifier.specs.Piece.{PieceValue, HasRange};
ghost use Rattle.path_verifier.specs.Accepted.{IsExpiry};
ghost use Rattle.policy_expr.specs.Options.{WeighedRules};
ghost use Rattle.combinator.specs.Answer.{AnswerValue};
ghost use Rattle.path_requests.specs.Asked.{PathsAsked};
ghost use Rattle.path_requests.specs.Expiry.{path_expiry};
ghost use Rattle.path_requests.specs.Text.{place_in_list};
ghost use Rattle.path_requests.specs.Answer.{AreAnswer};

/// The half second that an answer gives for a path is the earliest at which one of its hops
/// expires.
pub fn expiry_is_the_earliest()
    ensures { (pieces : List PieceValue) → 0 < length pieces → All HasRange pieces
        → IsExpiry pieces (path_expiry pieces) }
{}

/// The place that an answer gives for a piece is one at which the request has the piece's segment.
pub fn places_are_of_the_segments()
    ensures { (request : PathsAsked) (options : List WeighedRules) (answer : AnswerValue)
        → AreAnswer request options answer
        → All (λ path. All (λ piece. slice_get request.asked.segments
        (place_in_list piece.segment request.asked.segments) ≡ Some piece.segment) path.pieces)
        answer.paths }
{}
