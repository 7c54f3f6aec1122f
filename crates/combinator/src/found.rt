//! A path that the search has found, and the order of such paths.

ghost use Rattle.std.specs.Prelude.{◌≡◌, ◌+◌, ◌<◌, ◌≤◌, ◌∷◌, ◌++◌, [], length, IsTrue, IsFalse};
ghost use Rattle.std.specs.List.{AllByRecursion};
ghost use Rattle.path_verifier.specs.Piece.{HasRange};
ghost use Rattle.path_verifier.specs.Header.{header_of, total_hops};
ghost use Rattle.path_verifier.specs.Walk.{walk_of};
ghost use Rattle.combinator.specs.Candidate.{path_with};
ghost use Rattle.combinator.specs.Order.{hop_cmp, path_cmp, walk_cmp};
ghost use Rattle.combinator.specs.inner.Front.{groups_in, pieces_in};
ghost use Rattle.combinator.specs.inner.Over.{OfChoices};
ghost use Rattle.combinator.specs.inner.Search.{ComesBefore, IsNoWorse};

use crate::chosen::Chosen;
use crate::front::Front;
use crate::group::Group;
use path_verifier::{Pieces, Walk};
use policy_expr::WalkHop;
use std::cmp::Ordering;
use std::marker::Model;

/// A path that was found: its pieces, its number of hop fields, at most 64, and its expiry in half
/// seconds.
#[derive(Drop)]
pub(crate) struct Found<'a, 's> {
    chosen: Chosen<'a, 's>,
    hop_count: usize,
    expiry: u64,
}

impl<'a, 's> Model for Found<'a, 's> {
    ghost use Rattle.std.specs.Prelude.{◌≡◌, ◌≤◌};
    ghost use Rattle.path_verifier.specs.Accepted.{IsExpiry};
    ghost use Rattle.path_verifier.specs.Header.{header_of, total_hops};
    ghost use Rattle.combinator.specs.Candidate.{PathValue, path_with};
    ghost use Rattle.combinator.specs.inner.Front.{pieces_in};

    ghost Value = { PathValue };

    ghost view = { λ f. path_with (pieces_in f.chosen) (header_of (pieces_in f.chosen)) };

    ghost invariant = { λ f. (f.hop_count ≡ total_hops (pieces_in f.chosen)) × (f.hop_count ≤ 64)
        × IsExpiry (pieces_in f.chosen) f.expiry };
}

impl<'a, 's> Found<'a, 's> {
    /// The path of these pieces.
    pub(crate) fn of(chosen: Chosen<'a, 's>) -> Found<'a, 's>
        requires { total_hops (pieces_in chosen) ≤ 64 }
        ensures { result ≡ path_with (pieces_in chosen.entry) (header_of (pieces_in chosen.entry)) }
    {
        let hop_count = chosen.hop_count();
        let expiry = chosen.expiry();
        Found {
            chosen,
            hop_count,
            expiry,
        }
    }

    /// Its pieces, in order of travel.
    pub(crate) fn pieces(&self) -> Pieces<'s>
        ensures { result ≡ self.now.pieces }
    {
        self.chosen.pieces()
    }

    /// Does nothing; its contract tells the caller what is known of the path's parts.
    pub(crate) fn known(&self)
        ensures header { self.now.header ≡ header_of self.now.pieces }
        ensures ranges { AllByRecursion HasRange self.now.pieces }
        ensures few { total_hops self.now.pieces ≤ 64 }
    {
        let _ = &self.hop_count;
        self.chosen.known();
    }

    /// Compares this path with another one in the order of answers.
    pub(crate) fn compare(&self, other: &Found<'_, '_>) -> Ordering
        ensures { result ≡ path_cmp self.now other.now }
    {
        match self.hop_count.cmp(&other.hop_count) {
            Ordering::Equal => match self.chosen.compare_headers(&other.chosen) {
                Ordering::Equal => self.compare_walks(other),
                decided => decided,
            },
            decided => decided,
        }
    }

    /// Compares the walks of both paths.
    fn compare_walks(&self, other: &Found<'_, '_>) -> Ordering
        ensures { result ≡ walk_cmp (walk_of self.now.pieces) (walk_of other.now.pieces) }
    {
        self.known();
        other.known();
        let (mine, theirs) = (Walk::of(&self.pieces()), Walk::of(&other.pieces()));
        compare_walks(mine.as_slice(), theirs.as_slice())
    }

    /// Whether another path expires later, or at the same time and has smaller header bytes.
    pub(crate) fn is_worse(&self, other: &Found<'_, '_>) -> bool
        ensures worse { IsTrue result → ¬ (IsNoWorse self.now other.now) }
        ensures no_worse { IsFalse result → IsNoWorse self.now other.now }
    {
        if other.expiry != self.expiry {
            return other.expiry > self.expiry;
        }
        match other.chosen.compare_headers(&self.chosen) {
            Ordering::Less => true,
            _ => false,
        }
    }

    /// Whether this path surely comes before each path of one piece of each of these groups, of one
    /// more, and of at least `further` pieces more, 0 or 1.
    ///
    /// A further piece has two hop fields at least. So a path with as many hop fields as this one
    /// has exactly two for it, and the lengths and the first info fields decide.
    pub(crate) fn comes_before(
        &self,
        front: &Front<'_, '_, '_>,
        group: &Group<'_, '_>,
        further: usize,
    ) -> bool
        requires few { length (groups_in front.now) + further ≤ 2 }
        requires one { further ≤ 1 }
        ensures { IsTrue result → OfChoices (λ pieces. ComesBefore self.now pieces further)
            (groups_in front.now ++ group.now ∷ []) }
    {
        front.known();
        group.known();
        let least = front.hop_count() + group.len() + 2 * further;
        if self.hop_count != least {
            return self.hop_count < least;
        }
        self.chosen.comes_before(front, group, further)
    }
}

/// Compares two walks hop by hop.
pub(crate) fn compare_walks(walk: &[WalkHop], other: &[WalkHop]) -> Ordering
    ensures { result ≡ walk_cmp walk.now other.now }
{
    match (walk.split_first(), other.split_first()) {
        (None, None) => Ordering::Equal,
        (None, Some(_)) => Ordering::Less,
        (Some(_), None) => Ordering::Greater,
        (Some((hop, later)), Some((next, rest))) => match compare_hops(hop, next) {
            Ordering::Equal => compare_walks(later, rest),
            decided => decided,
        },
    }
}

/// Compares two hops: by AS, then by way in, then by way out.
fn compare_hops(hop: &WalkHop, other: &WalkHop) -> Ordering
    ensures { result ≡ hop_cmp hop.now other.now }
{
    match hop.ia.number().cmp(&other.ia.number()) {
        Ordering::Equal => match hop.ingress.0.cmp(&other.ingress.0) {
            Ordering::Equal => hop.egress.0.cmp(&other.egress.0),
            decided => decided,
        },
        decided => decided,
    }
}
