//! The rules for the pieces of a path: their ranges, kinds, cuts and ends.

ghost use Rattle.std.specs.Prelude.{◌≡◌, ◌↔◌, ◌<◌, ◌≤◌, ◌+◌, ℕ, length, map, All, Any, IsTrue, IfErr, OnOk};
ghost use Rattle.std.specs.List.{AllByRecursion};
ghost use Rattle.path_header.specs.Value.{HeaderValue};
ghost use Rattle.policy_expr.specs.Policy.{Rules};
ghost use Rattle.path_verifier.specs.declared.fault.VerifyFault.{VerifyFault};
ghost use Rattle.path_verifier.specs.Fault.{code_of};
ghost use Rattle.path_verifier.specs.PieceSlots.{pieces_in};
ghost use Rattle.path_verifier.specs.Piece.{HasRange, kind_of, begins_in, ends_in};
ghost use Rattle.path_verifier.specs.Header.{total_hops};
ghost use Rattle.path_verifier.specs.Accepted.{AreCutWell, AreLive, DoAdjoin, DoBeginIn, DoEndIn, DoMeet, IsCore, IsExpiry, MayAdjoin, request_of, Keeps, IsRefused};

use crate::fault::VerifyFault;
use crate::kind::PieceKind;
use crate::kind::PieceKind::{Core, Down, Up};
use crate::piece::Piece;
use crate::pieces::PieceSlots;
use isd_as::IsdAs;
use path_header::MAX_HOPS;

/// Succeeds if the pieces keep each rule from the first to the one on the number of hop fields;
/// else returns the first fault.
pub(crate) fn check_shape(held: &PieceSlots<'_>, src: IsdAs, dst: IsdAs) -> Result<(), VerifyFault>
    ensures kept { OnOk result ((header : HeaderValue) (now : ℕ) (rules : Rules)
        (fault : VerifyFault) → code_of fault < 78
        → Keeps (request_of (pieces_in held.now) header src dst now rules) fault) }
    ensures fault { IfErr result (λ fault. (header : HeaderValue) (now : ℕ) (rules : Rules)
        → IsRefused (request_of (pieces_in held.now) header src dst now rules) fault) }
    ensures early { IfErr result (λ fault. code_of fault < 78) }
    ensures some { OnOk result (0 < length (pieces_in held.now)) }
    ensures ranges { OnOk result (AllByRecursion HasRange (pieces_in held.now)) }
    ensures few { OnOk result (total_hops (pieces_in held.now) ≤ 64) }
{
    if held.is_empty() {
        return Err(VerifyFault::PieceCount);
    }
    if !are_in_range(held) {
        return Err(VerifyFault::Range);
    }
    if !do_adjoin(held) {
        return Err(VerifyFault::Kinds);
    }
    if !are_cut_well(held) {
        return Err(VerifyFault::CutAtCore);
    }
    if !do_meet(held) {
        return Err(VerifyFault::NotJoined);
    }
    if !begin_in(held, src) {
        return Err(VerifyFault::Source);
    }
    if !end_in(held, dst) {
        return Err(VerifyFault::Destination);
    }
    if total_hops(held) > MAX_HOPS {
        return Err(VerifyFault::TooManyHops);
    }
    Ok(())
}

/// Whether the places of each piece are the places of two entries, the first before the second.
fn are_in_range(held: &PieceSlots<'_>) -> bool
    ensures fact { IsTrue result ↔ All HasRange (pieces_in held.now) }
    ensures each { IsTrue result → AllByRecursion HasRange (pieces_in held.now) }
{
    match held {
        PieceSlots::Zero => true,
        PieceSlots::One(first) => first.has_range(),
        PieceSlots::Two(first, second) => first.has_range() && second.has_range(),
        PieceSlots::Three(first, second, third) => {
            first.has_range() && second.has_range() && third.has_range()
        }
    }
}

/// Whether a piece of the second kind may come right after one of the first.
fn may_adjoin(kind: PieceKind, next: PieceKind) -> bool
    ensures { IsTrue result ↔ MayAdjoin kind next }
{
    matches!((kind, next), (Up, Core) | (Up, Down) | (Core, Down))
}

/// Whether each piece may come right after the piece before it.
fn do_adjoin(held: &PieceSlots<'_>) -> bool
    ensures { IsTrue result ↔ DoAdjoin (map kind_of (pieces_in held.now)) }
{
    match held {
        PieceSlots::Zero | PieceSlots::One(_) => true,
        PieceSlots::Two(first, second) => may_adjoin(first.kind(), second.kind()),
        PieceSlots::Three(first, second, third) => {
            may_adjoin(first.kind(), second.kind()) && may_adjoin(second.kind(), third.kind())
        }
    }
}

/// Whether the pieces are cut only where they may be.
fn are_cut_well(held: &PieceSlots<'_>) -> bool
    requires { AllByRecursion HasRange (pieces_in held.now) }
    ensures { IsTrue result ↔ AreCutWell (pieces_in held.now) }
{
    if has_core(held) {
        all_fit_core(held)
    } else {
        all_begin_first(held) || all_begin_later(held)
    }
}

/// Whether there is a core piece.
fn has_core(held: &PieceSlots<'_>) -> bool
    ensures { IsTrue result ↔ Any IsCore (pieces_in held.now) }
{
    match held {
        PieceSlots::Zero => false,
        PieceSlots::One(first) => first.is_core(),
        PieceSlots::Two(first, second) => first.is_core() || second.is_core(),
        PieceSlots::Three(first, second, third) => {
            first.is_core() || second.is_core() || third.is_core()
        }
    }
}

/// Whether a core piece is whole, or another piece begins at the first entry of its segment.
fn fits_core(piece: &Piece<'_>) -> bool
    requires { HasRange piece.now }
    ensures { IsTrue result ↔ ((piece.now.from ≡ 0)
        × (IsCore piece.now → piece.now.to + 1 ≡ length piece.now.segment.entries)) }
{
    piece.begins_first() && (!piece.is_core() || piece.ends_last())
}

/// Whether each piece fits into a path with a core piece.
fn all_fit_core(held: &PieceSlots<'_>) -> bool
    requires { AllByRecursion HasRange (pieces_in held.now) }
    ensures { IsTrue result ↔ All (λ piece. (piece.from ≡ 0)
        × (IsCore piece → piece.to + 1 ≡ length piece.segment.entries)) (pieces_in held.now) }
{
    match held {
        PieceSlots::Zero => true,
        PieceSlots::One(first) => fits_core(first),
        PieceSlots::Two(first, second) => fits_core(first) && fits_core(second),
        PieceSlots::Three(first, second, third) => {
            fits_core(first) && fits_core(second) && fits_core(third)
        }
    }
}

/// Whether each piece begins at the first entry of its segment.
fn all_begin_first(held: &PieceSlots<'_>) -> bool
    ensures { IsTrue result ↔ All (λ piece. piece.from ≡ 0) (pieces_in held.now) }
{
    match held {
        PieceSlots::Zero => true,
        PieceSlots::One(first) => first.begins_first(),
        PieceSlots::Two(first, second) => first.begins_first() && second.begins_first(),
        PieceSlots::Three(first, second, third) => {
            first.begins_first() && second.begins_first() && third.begins_first()
        }
    }
}

/// Whether each piece begins after the first entry of its segment.
fn all_begin_later(held: &PieceSlots<'_>) -> bool
    ensures { IsTrue result ↔ All (λ piece. 0 < piece.from) (pieces_in held.now) }
{
    match held {
        PieceSlots::Zero => true,
        PieceSlots::One(first) => first.begins_later(),
        PieceSlots::Two(first, second) => first.begins_later() && second.begins_later(),
        PieceSlots::Three(first, second, third) => {
            first.begins_later() && second.begins_later() && third.begins_later()
        }
    }
}

/// Whether a piece ends in the AS in which the next one begins.
fn meets(piece: &Piece<'_>, next: &Piece<'_>) -> bool
    requires range { HasRange piece.now }
    requires next_range { HasRange next.now }
    ensures { IsTrue result ↔ (ends_in piece.now ≡ begins_in next.now) }
{
    piece.ends_in() == next.begins_in()
}

/// Whether each piece ends in the AS in which the next one begins.
fn do_meet(held: &PieceSlots<'_>) -> bool
    requires { AllByRecursion HasRange (pieces_in held.now) }
    ensures { IsTrue result ↔ DoMeet (pieces_in held.now) }
{
    match held {
        PieceSlots::Zero | PieceSlots::One(_) => true,
        PieceSlots::Two(first, second) => meets(first, second),
        PieceSlots::Three(first, second, third) => meets(first, second) && meets(second, third),
    }
}

/// Whether the first piece begins in this AS.
fn begin_in(held: &PieceSlots<'_>, src: IsdAs) -> bool
    requires { AllByRecursion HasRange (pieces_in held.now) }
    ensures { IsTrue result ↔ DoBeginIn src (pieces_in held.now) }
{
    match held {
        PieceSlots::Zero => false,
        PieceSlots::One(first) | PieceSlots::Two(first, _) | PieceSlots::Three(first, _, _) => {
            first.begins_in() == src
        }
    }
}

/// Whether the last piece ends in this AS.
fn end_in(held: &PieceSlots<'_>, dst: IsdAs) -> bool
    requires { AllByRecursion HasRange (pieces_in held.now) }
    ensures { IsTrue result ↔ DoEndIn dst (pieces_in held.now) }
{
    match held {
        PieceSlots::Zero => false,
        PieceSlots::One(last) | PieceSlots::Two(_, last) | PieceSlots::Three(_, _, last) =>
            last.ends_in() == dst,
    }
}

/// The number of hop fields of all pieces together.
pub(crate) fn total_hops(held: &PieceSlots<'_>) -> usize
    requires { AllByRecursion HasRange (pieces_in held.now) }
    ensures value { result ≡ total_hops (pieces_in held.now) }
    ensures few { result ≤ 189 }
{
    match held {
        PieceSlots::Zero => 0,
        PieceSlots::One(first) => first.len(),
        PieceSlots::Two(first, second) => first.len() + second.len(),
        PieceSlots::Three(first, second, third) => first.len() + second.len() + third.len(),
    }
}

/// Whether each hop of each piece is live at the second `now`.
pub(crate) fn are_live(held: &PieceSlots<'_>, now: u32) -> bool
    requires { AllByRecursion HasRange (pieces_in held.now) }
    ensures { IsTrue result ↔ AreLive now (pieces_in held.now) }
{
    match held {
        PieceSlots::Zero => true,
        PieceSlots::One(first) => first.is_live(now),
        PieceSlots::Two(first, second) => first.is_live(now) && second.is_live(now),
        PieceSlots::Three(first, second, third) => {
            first.is_live(now) && second.is_live(now) && third.is_live(now)
        }
    }
}

/// The half second at which the first hop of the pieces expires.
#[tactic(auto, using(crate::proofs::Expiry::expiry_of_one))]
pub(crate) fn expiry_of(held: &PieceSlots<'_>) -> u64
    requires some { 0 < length (pieces_in held.now) }
    requires ranges { AllByRecursion HasRange (pieces_in held.now) }
    ensures { IsExpiry (pieces_in held.now) result }
{
    match held {
        // A path has a piece (`some`); what a path is made of begins with none.
        PieceSlots::Zero => unreachable!(),
        PieceSlots::One(first) => first.expiry(),
        PieceSlots::Two(first, second) => first.expiry().min(second.expiry()),
        PieceSlots::Three(first, second, third) => {
            first.expiry().min(second.expiry().min(third.expiry()))
        }
    }
}
