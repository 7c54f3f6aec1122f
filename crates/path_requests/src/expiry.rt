//! The half second at which a path expires.
#![tactic(auto, unfolding(crate::specs::Expiry::path_expiry))]

ghost use Rattle.std.specs.Prelude.{◌≡◌, ◌≤◌, All, length};
ghost use Rattle.path_verifier.specs.Piece.{HasRange};
ghost use Rattle.path_requests.specs.Expiry.{path_expiry, piece_expiry};

use combinator::OwnedPiece;
use path_verifier::VerifiedPath;
use std::alloc::Global;

/// The half second at which the first hop of a piece expires.
fn piece_expiry(piece: &OwnedPiece) -> u64
    requires { HasRange piece.now }
    ensures { result ≡ piece_expiry piece.now }
{
    piece.segment.least_expiry(piece.from, piece.to)
}

/// The half second at which the first hop of pieces expires.
pub(crate) fn path_expiry(pieces: &[OwnedPiece]) -> u64
    requires ranges { All HasRange pieces.now }
    requires few { length pieces.now ≤ 3 }
    ensures { result ≡ path_expiry pieces.now }
{
    match pieces {
        [] => 0,
        [one] => piece_expiry(one),
        [one, two] => piece_expiry(one).min(piece_expiry(two)),
        // A path has at most three pieces.
        [one, two, three, ..] => {
            piece_expiry(one).min(piece_expiry(two).min(piece_expiry(three)))
        }
    }
}

/// The half second at which the first hop of a verified path expires.
pub(crate) fn verified_expiry(path: &VerifiedPath<'_, '_, Global>) -> u64
    ensures { result ≡ path_expiry path.entry.now.pieces }
{
    path.known();
    path.expiry()
}
