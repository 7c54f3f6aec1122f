//! The groups with which paths begin, and the best pieces of them.

ghost use Rattle.std.specs.Prelude.{◌≡◌, ◌+◌, ◌<◌, ◌≤◌, ◌∷◌, ◌++◌, [], length, map, replicate, IsTrue, IsFalse, List, ◌↔◌};
ghost use Rattle.std.specs.List.{AllByRecursion};
ghost use Rattle.path_header.specs.Value.{lens_from};
ghost use Rattle.path_verifier.specs.Piece.{kind_of};
ghost use Rattle.path_verifier.specs.Accepted.{MayAdjoin};
ghost use Rattle.path_verifier.specs.Header.{len_of, total_hops};
ghost use Rattle.combinator.specs.inner.Over.{IsEndOf};
ghost use Rattle.combinator.specs.inner.Group.{GroupValue, HaveInfosFrom, IsBestOf, IsGroup, heads_of};
ghost use Rattle.combinator.specs.inner.Front.{groups_in, pieces_in};

use crate::chosen::Chosen;
use crate::group::Group;
use arrayvec::ArrayVec;
use path_header::SegLens;
use path_verifier::PieceKind;

/// Up to three groups, in order of travel.
#[derive(Drop)]
pub(crate) enum Front<'g, 'a, 's> {
    Zero,
    One(&'g Group<'a, 's>),
    Two(&'g Group<'a, 's>, &'g Group<'a, 's>),
    Three(&'g Group<'a, 's>, &'g Group<'a, 's>, &'g Group<'a, 's>),
}

impl<'g, 'a, 's> Front<'g, 'a, 's> {
    /// These groups and one more behind them.
    pub(crate) fn with(&self, group: &'g Group<'a, 's>) -> Front<'g, 'a, 's>
        requires { length (groups_in self.now) ≤ 2 }
        ensures { groups_in result ≡ groups_in self.now ++ group.now ∷ [] }
    {
        match self {
            Front::Zero => Front::One(group),
            Front::One(first) => Front::Two(first, group),
            Front::Two(first, second) => Front::Three(first, second, group),
            // No group stands behind three; a type of at most two would be all this once more.
            Front::Three(_, _, _) => unreachable!(),
        }
    }

    /// Does nothing; its contract tells the caller what is known of the groups.
    pub(crate) fn known(&self)
        ensures { AllByRecursion IsGroup (groups_in self.now) }
    {
        match self {
            Front::Zero => {}
            Front::One(first) => first.known(),
            Front::Two(first, second) => {
                first.known();
                second.known();
            }
            Front::Three(first, second, third) => {
                first.known();
                second.known();
                third.known();
            }
        }
    }

    /// Whether a piece of this kind may follow the groups.
    pub(crate) fn may_go_on(&self, kind: PieceKind) -> bool
        ensures { IsFalse result → (front : List GroupValue) × (last : GroupValue)
            × (groups_in self.now ≡ front ++ last ∷ []) × ¬ (MayAdjoin (kind_of last.head) kind) }
    {
        match self {
            Front::Zero => true,
            Front::One(last) => may_adjoin(last.kind(), kind),
            Front::Two(_, last) => may_adjoin(last.kind(), kind),
            Front::Three(_, _, last) => may_adjoin(last.kind(), kind),
        }
    }

    /// One piece of each group.
    pub(crate) fn heads(&self) -> Chosen<'a, 's>
        requires { 0 < length (groups_in self.now) }
        ensures { pieces_in result ≡ heads_of (groups_in self.now) }
    {
        match self {
            // There is a group; but a search begins with none, so the type has this case.
            Front::Zero => unreachable!(),
            Front::One(first) => Chosen::One(first.head()),
            Front::Two(first, second) => Chosen::Two(first.head(), second.head()),
            Front::Three(first, second, third) => {
                Chosen::Three(first.head(), second.head(), third.head())
            }
        }
    }

    /// The number of hop fields of one piece of each group.
    pub(crate) fn hop_count(&self) -> usize
        ensures value { result ≡ total_hops (heads_of (groups_in self.now)) }
        ensures few { result ≤ 189 }
    {
        match self {
            Front::Zero => 0,
            Front::One(first) => first.len(),
            Front::Two(first, second) => first.len() + second.len(),
            Front::Three(first, second, third) => first.len() + second.len() + third.len(),
        }
    }

    /// The place, in the walk of a path that begins with pieces of these groups, of the hop in
    /// which they end; 0 if there are none.
    pub(crate) fn end_place(&self) -> usize
        ensures place { IsEndOf result (groups_in self.now) }
        ensures few { result ≤ 186 }
    {
        self.known();
        match self {
            Front::Zero => 0,
            Front::One(first) => first.len() - 1,
            Front::Two(first, second) => first.len() + second.len() - 2,
            Front::Three(first, second, third) => first.len() + second.len() + third.len() - 3,
        }
    }

    /// The lengths of a path of one piece of each of these groups, one more, and `further` pieces
    /// of two hop fields.
    pub(crate) fn lens_with(&self, group: &Group<'_, '_>, further: usize) -> SegLens
        requires few { length (groups_in self.now) + further ≤ 2 }
        requires one { further ≤ 1 }
        ensures { result ≡ lens_from
            (map len_of (heads_of (groups_in self.now ++ group.now ∷ [])) ++ replicate further 2) }
    {
        let last = group.len() as u8;
        let more = 2 * further as u8;
        match self {
            Front::Zero => SegLens {
                first: last,
                second: more,
                third: 0,
            },
            Front::One(first) => SegLens {
                first: first.len() as u8,
                second: last,
                third: more,
            },
            Front::Two(first, second) | Front::Three(first, second, _) => SegLens {
                first: first.len() as u8,
                second: second.len() as u8,
                third: last,
            },
        }
    }

    /// Lower bounds of the numbers that the info fields of pieces of these groups and one more
    /// spell.
    pub(crate) fn least_infos_with(&self, group: &Group<'_, '_>) -> ArrayVec<u64, 3>
        requires { length (groups_in self.now) ≤ 2 }
        ensures { HaveInfosFrom result.items (groups_in self.now ++ group.now ∷ []) }
    {
        let mut least = ArrayVec::new();
        match self {
            Front::Zero => {}
            Front::One(first) => least.push(first.least_info()),
            Front::Two(first, second) | Front::Three(first, second, _) => {
                least.push(first.least_info());
                least.push(second.least_info());
            }
        }
        least.push(group.least_info());
        least
    }
}

/// The best pieces of these groups, one of each: they last as long as any, and of those that do
/// they are the least.
#[tactic(auto, using(crate::proofs::Bests::best_one, crate::proofs::Bests::best_two, crate::proofs::Bests::best_three))]
pub(crate) fn best<'g, 'a, 's>(front: &Front<'g, 'a, 's>) -> Chosen<'a, 's>
    requires { 0 < length (groups_in front.now) }
    ensures { IsBestOf (groups_in front.now) (pieces_in result) }
{
    match front {
        // There is a group; but a search begins with none, so the type has this case.
        Front::Zero => unreachable!(),
        Front::One(first) => Chosen::One(first.least_until(first.expiry())),
        Front::Two(first, second) => {
            let expiry = first.expiry().min(second.expiry());
            Chosen::Two(first.least_until(expiry), second.least_until(expiry))
        }
        Front::Three(first, second, third) => {
            let expiry = first.expiry().min(second.expiry().min(third.expiry()));
            Chosen::Three(
                first.least_until(expiry),
                second.least_until(expiry),
                third.least_until(expiry),
            )
        }
    }
}

/// Whether a piece of the kind `next` may follow one of the kind `one`.
fn may_adjoin(one: PieceKind, next: PieceKind) -> bool
    ensures { IsTrue result ↔ MayAdjoin one next }
{
    matches!(
        (one, next),
        (PieceKind::Up, PieceKind::Core)
            | (PieceKind::Up, PieceKind::Down)
            | (PieceKind::Core, PieceKind::Down)
    )
}
