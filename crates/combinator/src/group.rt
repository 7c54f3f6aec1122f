//! Groups of pieces that put the same hops into a walk.

ghost use Rattle.std.specs.Prelude.{◌≡◌, ◌≢◌, ◌⊎◌, ◌<◌, ◌≤◌, [], ◌∷◌, ◌++◌, length, All, Contains, IfNone, IfSome, IsFalse, List};
ghost use Rattle.std.specs.Ordering.{nat_cmp};
ghost use Rattle.std.specs.declared.cmp.Ordering.TheVariants.{Greater};
ghost use Rattle.policy_expr.specs.declared.hop.WalkHop.{WalkHop};
ghost use Rattle.path_verifier.specs.Piece.{PieceValue, begins_in, ends_in, kind_of};
ghost use Rattle.path_verifier.specs.Walk.{hops_of};
ghost use Rattle.path_verifier.specs.Header.{len_of};
ghost use Rattle.path_verifier.specs.Accepted.{LastTo};
ghost use Rattle.combinator.specs.inner.Alike.{AreAlike, GoesOn};
ghost use Rattle.combinator.specs.inner.Group.{group_with, fields_cmp, IsGroup, IsLeastAmong, IsLeastUntil, IsOver, HasOneTo, HasInfosFrom};
ghost use Rattle.combinator.specs.inner.UsablePieces.{piece_cmp};

use crate::usable_piece::{UsablePiece, know_all};
use isd_as::IsdAs;
use path_verifier::PieceKind;
use policy_expr::WalkHop;
use std::cmp::Ordering;
use std::marker::Model;

/// Pieces that put the same hops into a walk and are lawful in the same places, with the greatest
/// of their expiries and a lower bound of their info fields.
#[derive(Drop)]
pub(crate) struct Group<'a, 's> {
    head: &'a UsablePiece<'s>,
    pieces: &'a [UsablePiece<'s>],
    expiry: u64,
    info: u64,
}

impl<'a, 's> Model for Group<'a, 's> {
    ghost use Rattle.combinator.specs.inner.Group.{GroupValue, IsGroup, IsOver, HasInfosFrom, HasOneTo, group_with};

    ghost Value = { GroupValue };

    ghost view = { λ g. group_with g.head.now g.pieces.now };

    ghost invariant = { λ g. IsGroup (group_with g.head.now g.pieces.now)
        × IsOver g.expiry (group_with g.head.now g.pieces.now)
        × HasOneTo g.expiry (group_with g.head.now g.pieces.now)
        × HasInfosFrom g.info (group_with g.head.now g.pieces.now) };
}

impl<'a, 's> Group<'a, 's> {
    /// The group of these pieces, to which the head belongs.
    pub(crate) fn of(head: &'a UsablePiece<'s>, pieces: &'a [UsablePiece<'s>]) -> Group<'a, 's>
        requires there { Contains pieces.now head.now }
        requires alike { All (AreAlike head.now) pieces.now }
        ensures value { result ≡ group_with head.entry.now pieces.entry.now }
        ensures group { IsGroup result }
    {
        head.known();
        know_all(pieces);
        Group {
            head,
            pieces,
            expiry: greatest_expiry(pieces),
            info: least_info(pieces),
        }
    }

    /// Does nothing; its contract tells the caller that its pieces may occur in paths and are
    /// alike.
    pub(crate) fn known(&self)
        ensures { IsGroup self.now }
    {
        let _ = &self.pieces;
    }

    /// One of its pieces.
    pub(crate) fn head(&self) -> &'a UsablePiece<'s>
        ensures { result.now ≡ self.now.head }
    {
        self.head
    }

    /// The AS in which its pieces begin.
    pub(crate) fn begins(&self) -> IsdAs
        ensures { result ≡ begins_in self.now.head }
    {
        self.head.begins()
    }

    /// The AS in which its pieces end.
    pub(crate) fn ends(&self) -> IsdAs
        ensures { result ≡ ends_in self.now.head }
    {
        self.head.ends()
    }

    /// The kind of its pieces.
    pub(crate) fn kind(&self) -> PieceKind
        ensures { result ≡ kind_of self.now.head }
    {
        self.head.kind()
    }

    /// The number of hop fields of each of its pieces.
    pub(crate) fn len(&self) -> usize
        ensures value { result ≡ len_of self.now.head }
        ensures some { 2 ≤ result }
        ensures few { result ≤ 63 }
    {
        self.head.len()
    }

    /// The greatest expiry of its pieces.
    pub(crate) fn expiry(&self) -> u64
        ensures over { IsOver result self.now }
        ensures reached { HasOneTo result self.now }
    {
        self.expiry
    }

    /// A lower bound of the numbers of its pieces' info fields; it is reached.
    pub(crate) fn least_info(&self) -> u64
        ensures { HasInfosFrom result self.now }
    {
        self.info
    }

    /// The least piece that lasts to a half second.
    pub(crate) fn least_until(&self, half: u64) -> &'a UsablePiece<'s>
        requires { HasOneTo half self.now }
        ensures { IsLeastUntil half self.now result.now }
    {
        least_until(self.pieces, half).unwrap()
    }

    /// Compares this group with another one in the order of the search, by their heads.
    pub(crate) fn compare(&self, other: &Group<'_, '_>) -> Ordering
        ensures { result ≡ piece_cmp self.now.head other.now.head }
    {
        self.head.compare(other.head)
    }

    /// Compares this group with another one by the ASes in which they begin.
    pub(crate) fn compare_begins(&self, other: &Group<'_, '_>) -> Ordering
        ensures { result ≡ nat_cmp (begins_in self.now.head) (begins_in other.now.head) }
    {
        self.begins().number().cmp(&other.begins().number())
    }

    /// A number by which groups from one AS stand in the order of their first two hops.
    pub(crate) fn walk_key(&self) -> u128 {
        self.head.walk_key()
    }

    /// Whether a walk goes on, from the hop at this place, by the hops of the group.
    pub(crate) fn goes_on(&self, walk: &[WalkHop], place: usize) -> bool
        ensures { IsFalse result → (past rest : List WalkHop) (here : WalkHop)
            → walk.now ≡ past ++ here ∷ rest → length past ≡ place
            → ¬ (GoesOn (hops_of self.now.head) here rest) }
    {
        self.head.goes_on(walk, place)
    }
}

/// The greatest expiry of these pieces.
fn greatest_expiry(pieces: &[UsablePiece<'_>]) -> u64
    requires { 0 < length pieces.now }
    ensures over { (head : PieceValue) → IsOver result (group_with head pieces.now) }
    ensures reached { (head : PieceValue) → HasOneTo result (group_with head pieces.now) }
{
    let mut greatest = 0;
    for piece in pieces {
        greatest = piece.expiry().max(greatest);
    }
    greatest
}

/// The least number of an info field of these pieces.
fn least_info(pieces: &[UsablePiece<'_>]) -> u64
    ensures { (head : PieceValue) → HasInfosFrom result (group_with head pieces.now) }
{
    let mut least = u64::MAX;
    for piece in pieces {
        least = piece.info().min(least);
    }
    least
}

/// Of pieces of one length that last to a half second, the least.
fn least_until<'a, 's>(pieces: &'a [UsablePiece<'s>], half: u64) -> Option<&'a UsablePiece<'s>>
    requires { (one other : PieceValue) → Contains pieces.now one → Contains pieces.now other
        → len_of one ≡ len_of other }
    ensures none { IfNone result ((piece : PieceValue) → Contains pieces.now piece
        → ¬ (LastTo half (piece ∷ []))) }
    ensures some { IfSome result (λ least. IsLeastAmong half pieces.now least.now) }
{
    let mut least = None;
    for piece in pieces {
        if !piece.lasts_to(half) {
            continue;
        }
        least = Some(lesser(least, piece));
    }
    least
}

/// A piece, or one of the same length that is not greater.
fn lesser<'a, 's>(
    least: Option<&'a UsablePiece<'s>>,
    piece: &'a UsablePiece<'s>,
) -> &'a UsablePiece<'s>
    requires { IfSome least (λ best. len_of best.now ≡ len_of piece.now) }
    ensures none { IfNone least.entry (result.now ≡ piece.now) }
    ensures some { IfSome least.entry (λ best. ((result.now ≡ best.now) ⊎ (result.now ≡ piece.now))
        × (fields_cmp result.now best.now ≢ Greater)) }
    ensures piece { fields_cmp result.now piece.now ≢ Greater }
{
    let Some(best) = least else {
        return piece;
    };
    match best.compare_fields(piece) {
        Ordering::Greater => piece,
        _ => best,
    }
}
