//! Paths of a cached answer. Their pieces name segments by their places in the entry's set, so that
//! an entry has no copies of them.

ghost use Rattle.std.specs.Prelude.{◌≡◌, IfOk, IfSome, Some, slice_get};
ghost use Rattle.path_verifier.specs.Walk.{walk_of};
ghost use Rattle.combinator.specs.Candidate.{MaySend, segments_of};
ghost use Rattle.daemon_cache.specs.inner.Kept.{path_in, piece_in, pieces_in};

use arrayvec::ArrayVec;
use combinator::{OwnedPiece, Path};
use path_header::Header;
use path_segment::Segment;
use path_server::SegmentSet;
use path_verifier::{Piece, PieceKind, Pieces};
use policy_expr::WalkHop;
use std::alloc::{AllocError, Global};

/// A piece whose segment is named by its place in the list for its kind.
#[derive(Clone, Copy)]
pub(crate) struct PlacedPiece {
    kind: PieceKind,
    place: usize,
    from: usize,
    to: usize,
    along: bool,
}

// What fills the places of an `ArrayVec` that hold no piece.
impl Default for PlacedPiece {
    fn default() -> Self {
        PlacedPiece {
            kind: PieceKind::Up,
            place: 0,
            from: 0,
            to: 0,
            along: false,
        }
    }
}

/// A path of an entry.
#[derive(Drop)]
pub(crate) struct KeptPath {
    pieces: ArrayVec<PlacedPiece, 3>,
    header: Header,
    walk: Vec<WalkHop>,
}

/// The segments of a set for pieces of this kind.
fn segments_of(set: &SegmentSet, kind: PieceKind) -> &[Segment]
    ensures { result.now ≡ segments_of set.now kind }
{
    match kind {
        PieceKind::Up => set.ups(),
        PieceKind::Core => set.cores(),
        PieceKind::Down => set.downs(),
    }
}

/// A place of a segment in a list, if it is there.
fn place_in(segments: &[Segment], segment: &Segment) -> Option<usize>
    ensures { IfSome result (λ place. slice_get segments.now place ≡ Some segment.now) }
{
    for place in 0..segments.len() {
        if segments[place].is_same(segment) {
            return Some(place);
        }
    }
    None
}

impl PlacedPiece {
    /// A piece by the place of its segment, if the set has it.
    fn of(set: &SegmentSet, piece: &OwnedPiece) -> Option<PlacedPiece>
        ensures { IfSome result (λ placed. piece_in set.now placed ≡ Some piece.now) }
    {
        let lent = Piece {
            segment: &piece.segment,
            from: piece.from,
            to: piece.to,
            along: piece.along,
        };
        let kind = lent.kind();
        let place = place_in(segments_of(set, kind), &piece.segment)?;
        Some(PlacedPiece {
            kind,
            place,
            from: piece.from,
            to: piece.to,
            along: piece.along,
        })
    }

    /// The piece, which borrows its segment from the set.
    fn piece_in<'s>(&self, set: &'s SegmentSet) -> Option<Piece<'s>>
        ensures { result ≡ piece_in set.now self.now }
    {
        let segment = segments_of(set, self.kind).get(self.place)?;
        Some(Piece {
            segment,
            from: self.from,
            to: self.to,
            along: self.along,
        })
    }
}

impl KeptPath {
    /// A path by the places of its segments, if the set has them and memory does not run out.
    pub(crate) fn of(alloc: Global, set: &SegmentSet, path: &Path) -> Option<KeptPath>
        ensures same { IfSome result (λ kept. path_in set.now kept ≡ path.now) }
        ensures walk { IfSome result (λ kept. kept.walk.items ≡ walk_of path.now.pieces) }
    {
        let mut pieces = ArrayVec::new();
        for piece in path.pieces() {
            pieces.push(PlacedPiece::of(set, piece)?);
        }
        let Ok(header) = path.header().clone() else {
            return None;
        };
        let Ok(walk) = Vec::from_slice(alloc, path.walk()) else {
            return None;
        };
        Some(KeptPath {
            pieces,
            header,
            walk,
        })
    }

    /// The pieces, which borrow the segments of the set.
    fn pieces_in<'s>(&self, set: &'s SegmentSet) -> Pieces<'s>
        ensures { result ≡ pieces_in set.now self.now.pieces.items }
    {
        let mut pieces = Pieces::new();
        for placed in self.pieces.as_slice() {
            if let Some(piece) = placed.piece_in(set) {
                // A kept path has at most three pieces.
                pieces.push(piece).unwrap();
            }
        }
        pieces
    }

    /// The path, with copies of the set's segments.
    pub(crate) fn path_in(&self, alloc: Global, set: &SegmentSet) -> Result<Path, AllocError>
        requires sent { MaySend (path_in set.now self.now) }
        requires walk { self.now.walk.items ≡ walk_of (path_in set.now self.now).pieces }
        ensures { IfOk result (λ path. path ≡ path_in set.now self.now) }
    {
        Path::new(alloc, &self.pieces_in(set), &self.header, &self.walk)
    }
}
