//! The pieces that may occur in paths.

ghost use Rattle.std.specs.Prelude.{◌≡◌, ◌<◌, ◌+◌, ◌∷◌, [], ℕ, Bool, true, false, length, All, Contains, OnOk, IfOk};
ghost use Rattle.std.specs.List.Sorted.{IsPermutation};
ghost use Rattle.path_segment.specs.declared.kind.SegKind.TheVariants.{Intra, Core};
ghost use Rattle.path_server.specs.Lookup.{Selection};
ghost use Rattle.path_header.specs.Spelling.{HopFits};
ghost use Rattle.path_verifier.specs.Piece.{PieceValue, kind_in};
ghost use Rattle.path_verifier.specs.Accepted.{AreLive};
ghost use Rattle.path_verifier.specs.Header.{field_of};
ghost use Rattle.policy_expr.specs.Policy.{Rules};
ghost use Rattle.combinator.specs.Candidate.{IsOf, question_of, segments_of};
ghost use Rattle.combinator.specs.inner.UsablePieces.{piece_of, outer_of, IsCut, IsWhole, AreIn};
ghost use Rattle.combinator.specs.inner.Search.{HasFields, HaveAll};

use crate::usable_piece::{UsablePiece, know_all, know_hops};
use isd_as::IsdAs;
use path_segment::{SegKind, Segment};
use path_server::SegmentSet;
use std::alloc::{AllocError, Global};

/// The usable pieces of a set of segments, of which paths from `src` to `dst` are made: pieces of
/// up segments that begin in `src`, pieces of down segments that end in `dst`, and whole core
/// segments in both directions. None has expired. Those that put the same hops into a walk stand
/// side by side, but for pieces that happen to have the same number as they do.
pub(crate) fn usable_pieces_of<'s>(
    alloc: Global,
    set: &'s SegmentSet,
    src: IsdAs,
    dst: IsdAs,
) -> Result<Vec<UsablePiece<'s>>, AllocError>
    ensures own { IfOk result (λ pieces. All (IsOf set.entry.now) pieces.items) }
    ensures live { IfOk result
        (λ pieces. All (λ piece. AreLive set.entry.now.moment (piece ∷ [])) pieces.items) }
    // They serve each policy.
    ensures whole { IfOk result (λ pieces. (rules : Rules)
        → HaveAll (question_of set.entry.now src dst rules) pieces.items) }
    ensures fields { IfOk result (λ pieces. All HasFields pieces.items) }
{
    let mut pieces = Vec::new(alloc);
    add_cuts(&mut pieces, set.downs(), true, dst)?;
    add_cuts(&mut pieces, set.ups(), false, src)?;
    add_cores(&mut pieces, set.cores())?;
    drop_expired(&mut pieces, set.now());
    put_side_by_side(&mut pieces);
    know_all(&pieces);
    Ok(pieces)
}

/// Drops the pieces of which a hop has expired at the second `now`.
fn drop_expired(pieces: &mut Vec<UsablePiece<'_>>, now: u32)
    ensures live { All (λ piece. AreLive now (piece ∷ [])) pieces.new.items }
    ensures own { AreIn pieces.new.items pieces.old.items }
    ensures kept { (piece : PieceValue) → Contains pieces.old.items piece
        → AreLive now (piece ∷ []) → Contains pieces.new.items piece }
{
    let half = 2 * u64::from(now);
    pieces.retain(|piece| piece.lasts_to(half));
}

/// Puts pieces with the same hops side by side.
fn put_side_by_side(pieces: &mut Vec<UsablePiece<'_>>)
    ensures { IsPermutation pieces.old.items pieces.new.items }
{
    pieces.sort_unstable_by(|one, other| one.compare_hops(other));
}

/// Adds the pieces of these intra segments in a direction that have an AS at their outer end.
fn add_cuts<'s>(
    usable_pieces: &mut Vec<UsablePiece<'s>>,
    segments: &'s [Segment],
    along: bool,
    outer: IsdAs,
) -> Result<(), AllocError>
    ensures more { OnOk result (AreIn usable_pieces.old.items usable_pieces.new.items) }
    ensures own { OnOk result ((set : Selection)
        → All (Contains (segments_of set (kind_in Intra along))) segments.entry.now
        → All (IsOf set) usable_pieces.old.items → All (IsOf set) usable_pieces.new.items) }
    ensures all { OnOk result ((piece : PieceValue)
        → IsCut segments.entry.now along outer piece → Contains usable_pieces.new.items piece) }
{
    for segment in segments {
        add_cuts_of(usable_pieces, segment, along, outer)?;
    }
    Ok(())
}

/// Adds the pieces of a segment in a direction that have an AS at their outer end, if it is an
/// intra segment.
fn add_cuts_of<'s>(
    usable_pieces: &mut Vec<UsablePiece<'s>>,
    segment: &'s Segment,
    along: bool,
    outer: IsdAs,
) -> Result<(), AllocError>
    ensures more { OnOk result (AreIn usable_pieces.old.items usable_pieces.new.items) }
    ensures own { OnOk result ((set : Selection)
        → Contains (segments_of set (kind_in Intra along)) segment.entry.now
        → All (IsOf set) usable_pieces.old.items → All (IsOf set) usable_pieces.new.items) }
    ensures all { OnOk result (segment.entry.now.kind ≡ Intra → (from to : ℕ) → from < to
        → to < length segment.entry.now.entries
        → outer_of (piece_of segment.entry.now from to along) ≡ outer
        → Contains usable_pieces.new.items (piece_of segment.entry.now from to along)) }
{
    match segment.kind() {
        SegKind::Core => {}
        SegKind::Intra => {
            know_hops(segment.entries());
            add_pieces_of(usable_pieces, segment, along, outer)?;
        }
    }
    Ok(())
}

/// Adds the pieces of an intra segment in a direction that have an AS at their outer end, which is
/// that of their last entry.
fn add_pieces_of<'s>(
    usable_pieces: &mut Vec<UsablePiece<'s>>,
    segment: &'s Segment,
    along: bool,
    outer: IsdAs,
) -> Result<(), AllocError>
    requires intra { segment.now.kind ≡ Intra }
    requires fits { All (λ entry. HopFits (field_of entry)) segment.now.entries }
    ensures more { OnOk result (AreIn usable_pieces.old.items usable_pieces.new.items) }
    ensures own { OnOk result ((set : Selection)
        → Contains (segments_of set (kind_in segment.entry.now.kind along)) segment.entry.now
        → All (IsOf set) usable_pieces.old.items → All (IsOf set) usable_pieces.new.items) }
    ensures all { OnOk result ((from to : ℕ) → from < to → to < length segment.entry.now.entries
        → outer_of (piece_of segment.entry.now from to along) ≡ outer
        → Contains usable_pieces.new.items (piece_of segment.entry.now from to along)) }
{
    for (to, entry) in segment.entries().iter().enumerate() {
        if entry.ia != outer {
            continue;
        }
        add_cuts_to(usable_pieces, segment, to, along)?;
    }
    Ok(())
}

/// Adds the pieces of an intra segment in a direction that have their last entry at this place.
fn add_cuts_to<'s>(
    usable_pieces: &mut Vec<UsablePiece<'s>>,
    segment: &'s Segment,
    to: usize,
    along: bool,
) -> Result<(), AllocError>
    requires intra { segment.now.kind ≡ Intra }
    requires within { to < length segment.now.entries }
    requires fits { All (λ entry. HopFits (field_of entry)) segment.now.entries }
    ensures more { OnOk result (AreIn usable_pieces.old.items usable_pieces.new.items) }
    ensures own { OnOk result ((set : Selection)
        → Contains (segments_of set (kind_in segment.entry.now.kind along)) segment.entry.now
        → All (IsOf set) usable_pieces.old.items → All (IsOf set) usable_pieces.new.items) }
    ensures all { OnOk result ((from : ℕ) → from < to
        → Contains usable_pieces.new.items (piece_of segment.entry.now from to along)) }
{
    for from in 0..to {
        usable_pieces.push(UsablePiece::new(segment, from, to, along))?;
    }
    Ok(())
}

/// Adds these core segments, whole and in both directions.
fn add_cores<'s>(
    usable_pieces: &mut Vec<UsablePiece<'s>>,
    segments: &'s [Segment],
) -> Result<(), AllocError>
    ensures more { OnOk result (AreIn usable_pieces.old.items usable_pieces.new.items) }
    ensures own { OnOk result ((set : Selection)
        → All (Contains set.cores) segments.entry.now
        → All (IsOf set) usable_pieces.old.items → All (IsOf set) usable_pieces.new.items) }
    ensures all { OnOk result ((piece : PieceValue) → IsWhole segments.entry.now piece
        → Contains usable_pieces.new.items piece) }
{
    for segment in segments {
        add_core(usable_pieces, segment)?;
    }
    Ok(())
}

/// Adds a segment, whole and in both directions, if it is a core segment.
fn add_core<'s>(
    usable_pieces: &mut Vec<UsablePiece<'s>>,
    segment: &'s Segment,
) -> Result<(), AllocError>
    ensures more { OnOk result (AreIn usable_pieces.old.items usable_pieces.new.items) }
    ensures own { OnOk result ((set : Selection) → Contains set.cores segment.entry.now
        → All (IsOf set) usable_pieces.old.items → All (IsOf set) usable_pieces.new.items) }
    ensures all { OnOk result (segment.entry.now.kind ≡ Core → (to : ℕ) (along : Bool)
        → to + 1 ≡ length segment.entry.now.entries
        → Contains usable_pieces.new.items (piece_of segment.entry.now 0 to along)) }
{
    match segment.kind() {
        SegKind::Intra => {}
        SegKind::Core => {
            know_hops(segment.entries());
            add_whole(usable_pieces, segment, true)?;
            add_whole(usable_pieces, segment, false)?;
        }
    }
    Ok(())
}

/// Adds a segment, whole and in this direction.
fn add_whole<'s>(
    usable_pieces: &mut Vec<UsablePiece<'s>>,
    segment: &'s Segment,
    along: bool,
) -> Result<(), AllocError>
    requires { All (λ entry. HopFits (field_of entry)) segment.now.entries }
    ensures more { OnOk result (AreIn usable_pieces.old.items usable_pieces.new.items) }
    ensures own { OnOk result ((set : Selection)
        → Contains (segments_of set (kind_in segment.entry.now.kind along)) segment.entry.now
        → All (IsOf set) usable_pieces.old.items → All (IsOf set) usable_pieces.new.items) }
    ensures all { OnOk result ((to : ℕ) → to + 1 ≡ length segment.entry.now.entries
        → Contains usable_pieces.new.items (piece_of segment.entry.now 0 to along)) }
{
    let last = segment.entries().len() - 1;
    usable_pieces.push(UsablePiece::new(segment, 0, last, along))?;
    Ok(())
}
