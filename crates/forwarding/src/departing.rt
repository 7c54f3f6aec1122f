ghost use Rattle.std.specs.Prelude.{◌≡◌, ℕ};
ghost use Rattle.path_verifier.specs.Accepted.{MakesPath};
ghost use Rattle.path_verifier.specs.Walk.{walk_of};
ghost use Rattle.forwarding.specs.Journey.{first_out};

use isd_as::IfId;
use path_verifier::OwnedPiece;

/// The interface by which the walk of a path leaves its first AS.
pub fn first_out(pieces: &[OwnedPiece]) -> IfId
    requires { (source : ℕ) × ((destination : ℕ) × ((moment : ℕ)
        × MakesPath pieces.now source destination moment)) }
    ensures { result ≡ first_out (walk_of pieces.now) }
{
    let first = &pieces[0];
    let entries = first.segment.entries();
    if first.along {
        entries[first.from].cons_egress
    } else {
        entries[first.to].cons_ingress
    }
}
