ghost use Rattle.std.specs.Prelude.{◌≡◌, ◌≤◌, length, IfOk};

use crate::piece::Piece;
use crate::pieces::{PieceSlots, Pieces};
use path_segment::Segment;
use std::alloc::{AllocError, Global};
use std::marker::Model;

/// A piece that owns its segment.
#[derive(Drop)]
pub struct OwnedPiece {
    /// The segment.
    pub segment: Segment,
    /// The place in the segment of the piece's first entry, in construction order.
    pub from: usize,
    /// The place in the segment of the piece's last entry.
    pub to: usize,
    /// Whether it is travelled in the direction in which the segment was made.
    pub along: bool,
}

impl Model for OwnedPiece {
    ghost use Rattle.path_verifier.specs.Piece.{PieceValue};

    ghost Value = { PieceValue };

    ghost view = { λ p. record { segment = p.segment; from = p.from; to = p.to; along = p.along } };
}

impl OwnedPiece {
    /// A copy of a piece that owns its segment, which shares the parts of the piece's segment.
    /// [`AllocError`] as [`Segment::try_clone`] has it.
    pub(crate) fn of(piece: &Piece<'_>) -> Result<OwnedPiece, AllocError>
        ensures { IfOk result (λ own. own ≡ piece.now) }
    {
        Ok(OwnedPiece {
            segment: piece.segment.try_clone()?,
            from: piece.from,
            to: piece.to,
            along: piece.along,
        })
    }

    /// The piece, which borrows the segment.
    pub(crate) fn lend(&self) -> Piece<'_>
        ensures { result ≡ self.now }
    {
        Piece {
            segment: &self.segment,
            from: self.from,
            to: self.to,
            along: self.along,
        }
    }
}

/// Copies of the pieces of a path that own their segments, unless memory runs out. The segments
/// share the parts of those of the path.
pub fn to_owned_pieces(alloc: Global, pieces: &Pieces<'_>) -> Result<Vec<OwnedPiece>, AllocError>
    ensures { IfOk result (λ own. own.items ≡ pieces.now) }
{
    match &pieces.held {
        PieceSlots::Zero => Ok(Vec::new(alloc)),
        PieceSlots::One(first) => Ok(vec![in alloc; OwnedPiece::of(first)?]?),
        PieceSlots::Two(first, second) => Ok(vec![in alloc;
            OwnedPiece::of(first)?,
            OwnedPiece::of(second)?,
        ]?),
        PieceSlots::Three(first, second, third) => Ok(vec![in alloc;
            OwnedPiece::of(first)?,
            OwnedPiece::of(second)?,
            OwnedPiece::of(third)?,
        ]?),
    }
}

/// The pieces in the same order, which borrow the segments.
pub fn lend_all(pieces: &[OwnedPiece]) -> Pieces<'_>
    requires { length pieces.now ≤ 3 }
    ensures { result ≡ pieces.now }
{
    let held = match pieces {
        [] => PieceSlots::Zero,
        [first] => PieceSlots::One(first.lend()),
        [first, second] => PieceSlots::Two(first.lend(), second.lend()),
        // A path has at most three pieces.
        [first, second, third, ..] => PieceSlots::Three(first.lend(), second.lend(), third.lend()),
    };
    Pieces { held }
}
