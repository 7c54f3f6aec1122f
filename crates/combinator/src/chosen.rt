//! Pieces chosen from groups, and the order of their headers.

ghost use Rattle.std.specs.Prelude.{◌≡◌, ◌+◌, ◌*◌, ◌<◌, ◌≤◌, ◌∷◌, ◌++◌, [], length, map, take, IsTrue};
ghost use Rattle.std.specs.declared.cmp.Ordering.TheVariants.{Less};
ghost use Rattle.std.specs.Ordering.{nat_cmp};
ghost use Rattle.std.specs.Cmp.Lexicographic.{slice_cmp};
ghost use Rattle.std.specs.List.{AllByRecursion};
ghost use Rattle.path_verifier.specs.Piece.{HasRange};
ghost use Rattle.path_verifier.specs.Header.{header_of, len_of, total_hops};
ghost use Rattle.path_verifier.specs.Accepted.{IsExpiry};
ghost use Rattle.combinator.specs.Candidate.{path_with};
ghost use Rattle.combinator.specs.Order.{bytes_cmp};
ghost use Rattle.combinator.specs.inner.Front.{groups_in, pieces_in};
ghost use Rattle.combinator.specs.inner.Group.{heads_of};
ghost use Rattle.combinator.specs.inner.Over.{OfChoices};
ghost use Rattle.combinator.specs.inner.Search.{ComesBefore, HasFields};
ghost use Rattle.combinator.specs.inner.UsablePieces.{info_number};
ghost use Rattle.combinator.specs.inner.Words.{AreSmall, hops_bytes, lens_cmp, lens_of_pieces};

use crate::front::Front;
use crate::group::Group;
use crate::usable_piece::UsablePiece;
use arrayvec::ArrayVec;
use path_header::SegLens;
use path_verifier::Pieces;
use std::cmp::Ordering;

/// One to three usable pieces, in order of travel.
#[derive(Drop)]
pub(crate) enum Chosen<'a, 's> {
    One(&'a UsablePiece<'s>),
    Two(&'a UsablePiece<'s>, &'a UsablePiece<'s>),
    Three(&'a UsablePiece<'s>, &'a UsablePiece<'s>, &'a UsablePiece<'s>),
}

impl<'a, 's> Chosen<'a, 's> {
    /// The number of their hop fields.
    pub(crate) fn hop_count(&self) -> usize
        ensures { result ≡ total_hops (pieces_in self.now) }
    {
        match self {
            Chosen::One(first) => first.len(),
            Chosen::Two(first, second) => first.len() + second.len(),
            Chosen::Three(first, second, third) => first.len() + second.len() + third.len(),
        }
    }

    /// The half second at which the first of their hops expires.
    pub(crate) fn expiry(&self) -> u64
        ensures { IsExpiry (pieces_in self.now) result }
    {
        match self {
            Chosen::One(first) => first.expiry(),
            Chosen::Two(first, second) => first.expiry().min(second.expiry()),
            Chosen::Three(first, second, third) => {
                first.expiry().min(second.expiry().min(third.expiry()))
            }
        }
    }

    /// Copies of the pieces.
    pub(crate) fn pieces(&self) -> Pieces<'s>
        ensures { result ≡ pieces_in self.now }
    {
        match self {
            Chosen::One(first) => Pieces::one(first.piece()),
            Chosen::Two(first, second) => Pieces::two(first.piece(), second.piece()),
            Chosen::Three(first, second, third) => {
                Pieces::three(first.piece(), second.piece(), third.piece())
            }
        }
    }

    /// Does nothing; its contract tells the caller what is known of the pieces.
    pub(crate) fn known(&self)
        ensures few { length (pieces_in self.now) ≤ 3 }
        ensures ranges { AllByRecursion HasRange (pieces_in self.now) }
        ensures fields { AllByRecursion HasFields (pieces_in self.now) }
    {
        match self {
            Chosen::One(first) => first.known(),
            Chosen::Two(first, second) => {
                first.known();
                second.known();
            }
            Chosen::Three(first, second, third) => {
                first.known();
                second.known();
                third.known();
            }
        }
    }

    /// The lengths of a header of these pieces.
    fn lens(&self) -> SegLens
        ensures value { result ≡ lens_of_pieces (pieces_in self.now) }
        ensures small { AreSmall result }
    {
        match self {
            Chosen::One(first) => SegLens {
                first: first.len() as u8,
                second: 0,
                third: 0,
            },
            Chosen::Two(first, second) => SegLens {
                first: first.len() as u8,
                second: second.len() as u8,
                third: 0,
            },
            Chosen::Three(first, second, third) => SegLens {
                first: first.len() as u8,
                second: second.len() as u8,
                third: third.len() as u8,
            },
        }
    }

    /// The numbers that their info fields spell.
    fn infos(&self) -> ArrayVec<u64, 3>
        ensures { result.items ≡ map info_number (pieces_in self.now) }
    {
        let mut infos = ArrayVec::new();
        match self {
            Chosen::One(first) => infos.push(first.info()),
            Chosen::Two(first, second) => {
                infos.push(first.info());
                infos.push(second.info());
            }
            Chosen::Three(first, second, third) => {
                infos.push(first.info());
                infos.push(second.info());
                infos.push(third.info());
            }
        }
        infos
    }

    /// Compares the headers of these pieces and others by their bytes.
    pub(crate) fn compare_headers(&self, other: &Chosen<'_, '_>) -> Ordering
        ensures { result ≡ bytes_cmp (header_of (pieces_in self.now))
            (header_of (pieces_in other.now)) }
    {
        self.known();
        other.known();
        match compare_lens(self.lens(), other.lens()) {
            Ordering::Equal => match self.compare_infos(other) {
                Ordering::Equal => self.compare_hop_fields(other),
                decided => decided,
            },
            decided => decided,
        }
    }

    /// Compares the numbers that their info fields spell, one after another.
    fn compare_infos(&self, other: &Chosen<'_, '_>) -> Ordering
        ensures { result ≡ slice_cmp nat_cmp (map info_number (pieces_in self.now))
            (map info_number (pieces_in other.now)) }
    {
        self.infos().as_slice().cmp(other.infos().as_slice())
    }

    /// Compares pieces of the same lengths by their hop fields.
    fn compare_hop_fields(&self, other: &Chosen<'_, '_>) -> Ordering
        requires { map len_of (pieces_in self.now) ≡ map len_of (pieces_in other.now) }
        ensures { result ≡ slice_cmp nat_cmp (hops_bytes (pieces_in self.now))
            (hops_bytes (pieces_in other.now)) }
    {
        self.known();
        other.known();
        match (self, other) {
            (Chosen::One(first), Chosen::One(one)) => first.compare_hop_fields(one),
            (Chosen::Two(first, second), Chosen::Two(one, two)) => {
                match first.compare_hop_fields(one) {
                    Ordering::Equal => second.compare_hop_fields(two),
                    decided => decided,
                }
            }
            (Chosen::Three(first, second, third), Chosen::Three(one, two, three)) => {
                match first.compare_hop_fields(one) {
                    Ordering::Equal => match second.compare_hop_fields(two) {
                        Ordering::Equal => third.compare_hop_fields(three),
                        decided => decided,
                    },
                    decided => decided,
                }
            }
            // Both have as many pieces, which the type of a pair of them can't say.
            _ => unreachable!(),
        }
    }

    /// Whether a path of these pieces surely comes before each path of one piece of each of these
    /// groups, of one more, and of at least `further` pieces more, if all have as many hop fields.
    pub(crate) fn comes_before(
        &self,
        front: &Front<'_, '_, '_>,
        group: &Group<'_, '_>,
        further: usize,
    ) -> bool
        requires few { length (groups_in front.now) + further ≤ 2 }
        requires one { further ≤ 1 }
        requires same { total_hops (pieces_in self.now)
            ≡ total_hops (heads_of (groups_in front.now ++ group.now ∷ [])) + 2 * further }
        ensures { IsTrue result → OfChoices (λ pieces. ComesBefore
            (path_with (pieces_in self.now) (header_of (pieces_in self.now))) pieces further)
            (groups_in front.now ++ group.now ∷ []) }
    {
        self.known();
        front.known();
        group.known();
        if !is_same(self.lens(), front.lens_with(group, further)) {
            return false;
        }
        begins_below(
            self.infos().as_slice(),
            front.least_infos_with(group).as_slice(),
        )
    }
}

/// Whether both are the same lengths.
fn is_same(one: SegLens, other: SegLens) -> bool
    ensures { IsTrue result → one ≡ other }
{
    one == other
}

/// Whether the first of these numbers, as many as the bounds, come before the bounds.
fn begins_below(numbers: &[u64], bounds: &[u64]) -> bool
    ensures within { IsTrue result → length bounds.now ≤ length numbers.now }
    ensures less { IsTrue result
        → slice_cmp nat_cmp (take (length bounds.now) numbers.now) bounds.now ≡ Less }
{
    if numbers.len() < bounds.len() {
        return false;
    }
    match numbers[..bounds.len()].cmp(bounds) {
        Ordering::Less => true,
        _ => false,
    }
}

/// Compares lengths place by place.
fn compare_lens(one: SegLens, other: SegLens) -> Ordering
    ensures { result ≡ lens_cmp one other }
{
    match one.first.cmp(&other.first) {
        Ordering::Equal => match one.second.cmp(&other.second) {
            Ordering::Equal => one.third.cmp(&other.third),
            decided => decided,
        },
        decided => decided,
    }
}
