#![tactic(auto, unfolding(crate::specs::Walk::hop_of, crate::specs::Walk::walk_of))]

ghost use Rattle.std.specs.Prelude.{◌≡◌, ◌↔◌, ◌+◌, ◌<◌, ◌≤◌, [], ◌∷◌, ◌++◌, length, map, drop, slice_get, take, IsTrue, Some};
ghost use Rattle.std.specs.List.{AllByRecursion};
ghost use Rattle.path_verifier.specs.PieceSlots.{pieces_in};
ghost use Rattle.path_verifier.specs.Piece.{HasRange};
ghost use Rattle.path_verifier.specs.Walk.{hop_of, hops_of, entered_by, left_by, with_meeting_hop, walk_with, walk_of};
ghost use Rattle.path_verifier.specs.Header.{len_of, total_hops};
ghost use Rattle.path_verifier.specs.Accepted.{NamesOnce};
ghost use Rattle.path_verifier.specs.inner.Twice.{is_any_passed, is_passed, names_again, names_twice};

use crate::piece::Piece;
use crate::pieces::{PieceSlots, Pieces};
use arrayvec::ArrayVec;
use doubles::has_double;
use isd_as::{IfId, IsdAs};
use path_header::MAX_HOPS;
use path_segment::Entry;
use policy_expr::WalkHop;
use std::marker::Model;

/// Hops that are compared with each other, which takes less than sorting so few.
const FEW: usize = 24;

/// The walk of a path: its ASes in order of travel, at most 64.
#[derive(Debug, Drop)]
pub struct Walk {
    hops: [WalkHop; MAX_HOPS],
    len: usize,
}

impl Model for Walk {
    ghost use Rattle.std.specs.Prelude.{◌≤◌, List, take};
    ghost use Rattle.policy_expr.specs.declared.hop.WalkHop.{WalkHop};

    ghost Value = { List WalkHop };

    ghost view = { λ w. take w.len w.hops };

    ghost invariant = { λ w. w.len ≤ 64 };
}

impl Walk {
    /// A walk of no hops.
    pub fn new() -> Walk
        ensures { result ≡ [] }
    {
        let nowhere = WalkHop {
            ia: IsdAs::from_number(0),
            ingress: IfId::NONE,
            egress: IfId::NONE,
        };
        Walk {
            hops: [nowhere; MAX_HOPS],
            len: 0,
        }
    }

    /// The walk of these pieces.
    pub fn of(pieces: &Pieces<'_>) -> Walk
        requires ranges { AllByRecursion HasRange pieces.now }
        requires few { total_hops pieces.now ≤ 64 }
        ensures { result ≡ walk_of pieces.now }
    {
        let mut walk = Walk::new();
        walk.follow(&pieces.held);
        walk
    }

    /// Takes all hops out.
    pub(crate) fn clear(&mut self)
        ensures { self.new ≡ [] }
    {
        self.len = 0;
    }

    /// Takes the hops behind the first `len` out; the last one is then left by no interface.
    pub fn shorten(&mut self, len: usize)
        ensures { self.new ≡ left_by 0 (take len self.old) }
    {
        self.len = self.len.min(len);
        self.leave_by(IfId::NONE);
    }

    /// The hops, in order.
    pub fn as_slice(&self) -> &[WalkHop]
        ensures value { result.now ≡ self.now }
        ensures few { length self.now ≤ 64 }
    {
        &self.hops[..self.len]
    }

    /// The number of hops.
    pub fn len(&self) -> usize
        ensures { result ≡ length self.now }
    {
        self.as_slice().len()
    }

    /// Adds a hop at the end.
    fn push(&mut self, hop: WalkHop)
        requires { length self.old < 64 }
        ensures { self.new ≡ self.old ++ hop ∷ [] }
    {
        self.hops[self.len] = hop;
        self.len += 1;
    }

    /// Sets the way into the first hop.
    #[tactic(auto, using(crate::proofs::Ends::entered_front))]
    fn enter_by(&mut self, way: IfId)
        ensures { self.new ≡ entered_by way self.old }
    {
        if self.len > 0 {
            self.hops[0].ingress = way;
        }
    }

    /// Sets the way out of the last hop.
    #[tactic(auto, using(crate::proofs::Ends::left_front))]
    fn leave_by(&mut self, way: IfId)
        ensures { self.new ≡ left_by way self.old }
    {
        if self.len > 0 {
            self.hops[self.len - 1].egress = way;
        }
    }
}

/// The hop of an entry that is travelled in construction direction or against it.
fn hop_of(along: bool, entry: &Entry) -> WalkHop
    ensures { result ≡ hop_of along entry.now }
{
    if along {
        WalkHop {
            ia: entry.ia,
            ingress: entry.cons_ingress,
            egress: entry.cons_egress,
        }
    } else {
        WalkHop {
            ia: entry.ia,
            ingress: entry.cons_egress,
            egress: entry.cons_ingress,
        }
    }
}

impl<'s> Piece<'s> {
    /// The hop of the entry at this place in order of travel, from 0: its AS, and the interfaces by
    /// which the piece enters and leaves it.
    #[tactic(auto, using(crate::proofs::Hops::hop_there))]
    pub fn hop(&self, place: usize) -> WalkHop
        requires range { HasRange self.now }
        requires within { place < len_of self.now }
        ensures { slice_get (hops_of self.now) place ≡ Some result }
    {
        hop_of(self.along, self.entry(place))
    }
}

impl Walk {
    /// Adds the hops of a piece from its second hop on.
    fn push_later(&mut self, piece: &Piece<'_>)
        requires range { HasRange piece.now }
        requires few { length self.old + len_of piece.now ≤ 65 }
        ensures { self.new ≡ self.old ++ drop 1 (hops_of piece.now) }
    {
        for place in 1..piece.len() {
            self.push(piece.hop(place));
        }
    }

    /// Continues in the last AS: the way out of this hop becomes the last way out.
    fn meet(&mut self, hop: WalkHop)
        requires { length self.old < 64 }
        ensures walk { self.new ≡ with_meeting_hop self.old hop }
        ensures few { length self.new ≤ length self.old + 1 }
    {
        if self.len() == 0 {
            self.push(hop);
        } else {
            self.leave_by(hop.egress);
        }
    }

    /// Continues with the hops of a piece.
    #[tactic(auto, using(crate::proofs::Hops::joined_from))]
    fn go_on(&mut self, piece: &Piece<'_>)
        requires range { HasRange piece.now }
        requires few { length self.old + len_of piece.now ≤ 64 }
        ensures walk { self.new ≡ walk_with self.old (hops_of piece.now) }
        ensures few { length self.new ≤ length self.old + len_of piece.now }
    {
        self.meet(piece.hop(0));
        self.push_later(piece);
    }

    /// Goes on with one more piece: the walk of some pieces becomes that of these and one more.
    /// Returns whether no two hops are of one AS, if that was so before: only the new hops are
    /// compared, with each other and with those before.
    pub fn go_on_by(&mut self, piece: &Piece<'_>) -> bool
        requires range { HasRange piece.now }
        requires few { length self.old + len_of piece.now ≤ 64 }
        ensures walk { self.new
            ≡ left_by 0 (entered_by 0 (walk_with self.old (hops_of piece.now))) }
        ensures once { NamesOnce self.old → (IsTrue result ↔ NamesOnce self.new) }
    {
        let len = self.len();
        self.go_on(piece);
        self.enter_by(IfId::NONE);
        self.leave_by(IfId::NONE);
        let (front, later) = self.as_slice().split_at(len);
        !names_again(front, later)
    }

    /// Makes a walk of no hops the walk of these pieces.
    pub(crate) fn follow(&mut self, held: &PieceSlots<'_>)
        requires empty { self.old ≡ [] }
        requires ranges { AllByRecursion HasRange (pieces_in held.now) }
        requires few { total_hops (pieces_in held.now) ≤ 64 }
        ensures { self.new ≡ walk_of (pieces_in held.now) }
    {
        match held {
            PieceSlots::Zero => {}
            PieceSlots::One(first) => self.go_on(first),
            PieceSlots::Two(first, second) => {
                self.go_on(first);
                self.go_on(second);
            }
            PieceSlots::Three(first, second, third) => {
                self.go_on(first);
                self.go_on(second);
                self.go_on(third);
            }
        }
        self.enter_by(IfId::NONE);
        self.leave_by(IfId::NONE);
    }
}

/// Whether no two of these hops are of one AS.
#[tactic(auto, using(crate::proofs::Once::once_if_not_twice))]
pub(crate) fn names_once(hops: &[WalkHop]) -> bool
    requires { length hops.now ≤ 64 }
    ensures { IsTrue result ↔ NamesOnce hops.now }
{
    !names_twice(hops)
}

/// Whether two of these hops are of one AS. A few are compared with each other; of more the numbers
/// are sorted.
#[tactic(auto, using(crate::proofs::Once::doubles_are_twice))]
fn names_twice(hops: &[WalkHop]) -> bool
    requires { length hops.now ≤ 64 }
    ensures { result ≡ names_twice hops.now }
{
    if hops.len() <= FEW {
        return has_pair_of_one_as(hops);
    }
    has_double(&mut numbers_of(hops))
}

/// Whether a hop is of the AS of a later one, looked for from each hop.
fn has_pair_of_one_as(hops: &[WalkHop]) -> bool
    ensures { result ≡ names_twice hops.now }
{
    let mut rest = hops;
    while let Some((hop, later)) = rest.split_first() {
        if is_passed(later, hop.ia) {
            return true;
        }
        rest = later;
    }
    false
}

/// Whether one of the first hops is of the AS of a later one, or two of the later ones are of one
/// AS.
fn names_again(front: &[WalkHop], later: &[WalkHop]) -> bool
    ensures { result ≡ names_again front.now later.now }
{
    is_any_passed(front, later) || has_pair_of_one_as(later)
}

/// Whether one of the first hops is of the AS of a later one.
fn is_any_passed(front: &[WalkHop], later: &[WalkHop]) -> bool
    ensures { result ≡ is_any_passed front.now later.now }
{
    front.iter().any(|hop| is_passed(later, hop.ia))
}

/// Whether one of these hops is of this AS.
fn is_passed(hops: &[WalkHop], ia: IsdAs) -> bool
    ensures { result ≡ is_passed hops.now ia }
{
    hops.iter().any(|hop| hop.ia == ia)
}

/// The numbers of the ASes of these hops.
fn numbers_of(hops: &[WalkHop]) -> ArrayVec<u128, MAX_HOPS>
    requires { length hops.now ≤ 64 }
    ensures { result.items ≡ map (λ hop. hop.ia) hops.now }
{
    let mut numbers = ArrayVec::new();
    for hop in hops {
        numbers.push(u128::from(hop.ia.number()));
    }
    numbers
}
