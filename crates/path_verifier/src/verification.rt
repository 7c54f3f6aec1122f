ghost use Rattle.std.specs.Prelude.{◌≡◌, ◌<◌, ◌≤◌, [], length, IfOk, IfErr, IsOk, OnOk};
ghost use Rattle.std.specs.List.{AllByRecursion};
ghost use Rattle.path_header.specs.Value.{HeaderValue};
ghost use Rattle.policy_expr.specs.Policy.{AllowsHops, HasWord, Rules};
ghost use Rattle.path_verifier.specs.PieceSlots.{pieces_in};
ghost use Rattle.path_verifier.specs.Piece.{HasRange};
ghost use Rattle.path_verifier.specs.Header.{header_of, total_hops};
ghost use Rattle.path_verifier.specs.Walk.{walk_of};
ghost use Rattle.path_verifier.specs.declared.fault.VerifyFault.{VerifyFault};
ghost use Rattle.path_verifier.specs.Fault.{code_of};
ghost use Rattle.path_verifier.specs.Accepted.{Request, request_of, IsAccepted, MakesPath, Keeps, IsRefused};

use crate::fault::VerifyFault;
use crate::header::header_of;
use crate::path::VerifiedPath;
use crate::pieces::{PieceSlots, Pieces};
use crate::shape::{are_live, check_shape};
use crate::walk::{Walk, names_once};
use isd_as::IsdAs;
use path_header::Header;
use policy_expr::{Policy, WalkHop};
use std::alloc::Allocator;

/// The path of these pieces with this header, if it may be sent from `src` to `dst` at the second
/// `now` under a policy.
///
/// The first of these refusals is returned: [`VerifyFault::PieceCount`] if there are no pieces;
/// [`VerifyFault::Range`] if a piece is not from one entry of its segment to a later one;
/// [`VerifyFault::Kinds`] if the pieces are not up, core and down in this order, at most one of
/// each; [`VerifyFault::CutAtCore`] if a core piece is not whole, a piece next to it doesn't begin
/// at the first entry of its segment, or of an up and a down piece alone only one does;
/// [`VerifyFault::NotJoined`] if a piece doesn't begin in the AS in which the piece before it ends;
/// [`VerifyFault::Source`] and [`VerifyFault::Destination`] if the path has other ends;
/// [`VerifyFault::TooManyHops`] for more than 64 hop fields; [`VerifyFault::Loop`] if the walk
/// passes an AS twice; [`VerifyFault::Expired`] if a hop is not live at `now`;
/// [`VerifyFault::HeaderDiffers`] if the header is not that of the pieces with the packet at its
/// beginning; [`VerifyFault::AclDenied`] if the policy's list denies a hop, with the first such hop
/// and the entry that denies it; [`VerifyFault::SequenceMismatch`] if the walk is no word of the
/// policy's sequence.
pub fn verify<'s, 'p, A: Allocator + Clone>(
    pieces: &Pieces<'s>,
    header: &Header,
    src: IsdAs,
    dst: IsdAs,
    now: u32,
    policy: &'p Policy<A>,
) -> Result<VerifiedPath<'s, 'p, A>, VerifyFault>
    // A path that is returned is that of the request, and may be sent.
    ensures found { let request = request_of pieces.now header.now src dst now policy.entry.now in
        IfOk result (λ path. (path ≡ request) × IsAccepted request) }
    // If the path may be sent, it is returned.
    ensures only { IsAccepted (request_of pieces.now header.now src dst now policy.entry.now)
        → IsOk result }
    // The exact result, with its refusal.
    ensures exact { IfErr result
        (IsRefused (request_of pieces.now header.now src dst now policy.entry.now)) }
{
    let mut walk = Walk::new();
    follow_pieces(&mut walk, &pieces.held, src, dst, now)?;
    let own = header_of(&pieces.held);
    if !own.is_same(header) {
        return Err(VerifyFault::HeaderDiffers);
    }
    check_policy(walk.as_slice(), policy)?;
    Ok(VerifiedPath {
        pieces: pieces.again(),
        header: own,
        walk,
        src,
        dst,
        now,
        policy,
    })
}

/// The path of these pieces with the header that they give, if it may be sent from `src` to `dst`
/// at the second `now` under a policy.
///
/// The refusals are those of [`verify`], in their order, without [`VerifyFault::HeaderDiffers`].
pub fn accept<'s, 'p, A: Allocator + Clone>(
    pieces: &Pieces<'s>,
    src: IsdAs,
    dst: IsdAs,
    now: u32,
    policy: &'p Policy<A>,
) -> Result<VerifiedPath<'s, 'p, A>, VerifyFault>
    // A path that is returned is that of the request, and may be sent.
    ensures found { let request = request_of pieces.now (header_of pieces.now) src dst now
        policy.entry.now in
        IfOk result (λ path. (path ≡ request) × IsAccepted request) }
    // If the path may be sent, it is returned.
    ensures only { IsAccepted
        (request_of pieces.now (header_of pieces.now) src dst now policy.entry.now)
        → IsOk result }
    // The exact result, with its refusal.
    ensures exact { IfErr result (IsRefused
        (request_of pieces.now (header_of pieces.now) src dst now policy.entry.now)) }
{
    let mut walk = Walk::new();
    follow_pieces(&mut walk, &pieces.held, src, dst, now)?;
    let header = header_of(&pieces.held);
    check_policy(walk.as_slice(), policy)?;
    Ok(VerifiedPath {
        pieces: pieces.again(),
        header,
        walk,
        src,
        dst,
        now,
        policy,
    })
}

impl Walk {
    /// Makes it the walk of these pieces, if they are a path from `src` to `dst` that is live at
    /// the second `now`; what it was before is gone in any case.
    ///
    /// The refusals are those of [`verify`] up to [`VerifyFault::Expired`], in their order.
    pub fn follow_path(
        &mut self,
        pieces: &Pieces<'_>,
        src: IsdAs,
        dst: IsdAs,
        now: u32,
    ) -> Result<(), VerifyFault>
        ensures walk { OnOk result (self.new ≡ walk_of pieces.now) }
        ensures path { OnOk result (MakesPath pieces.now src dst now) }
        // The exact refusal: it is that of the verifier, for each header and policy.
        ensures fault { IfErr result (λ fault. (header : HeaderValue) (rules : Rules)
            → IsRefused (request_of pieces.now header src dst now rules) fault) }
    {
        self.clear();
        follow_pieces(self, &pieces.held, src, dst, now)
    }
}

/// Makes a walk of no hops the walk of the pieces if they are a path; else returns the fault of the
/// first rule that they break. The walk is filled where it lies, since it is large.
fn follow_pieces(
    walk: &mut Walk,
    held: &PieceSlots<'_>,
    src: IsdAs,
    dst: IsdAs,
    now: u32,
) -> Result<(), VerifyFault>
    requires { walk.old ≡ [] }
    ensures walk { OnOk result (walk.new ≡ walk_of (pieces_in held.now)) }
    ensures path { OnOk result (MakesPath (pieces_in held.now) src dst now) }
    ensures fault { IfErr result (λ fault. (header : HeaderValue) (rules : Rules)
        → IsRefused (request_of (pieces_in held.now) header src dst now rules) fault) }
    ensures some { OnOk result (0 < length (pieces_in held.now)) }
    ensures ranges { OnOk result (AllByRecursion HasRange (pieces_in held.now)) }
    ensures few { OnOk result (total_hops (pieces_in held.now) ≤ 64) }
{
    check_shape(held, src, dst)?;
    walk.follow(held);
    if !names_once(walk.as_slice()) {
        return Err(VerifyFault::Loop);
    }
    if !are_live(held, now) {
        return Err(VerifyFault::Expired);
    }
    Ok(())
}

/// Whether a policy allows a walk, or why not.
fn check_policy<A: Allocator + Clone>(
    walk: &[WalkHop],
    policy: &Policy<A>,
) -> Result<(), VerifyFault>
    ensures found { OnOk result
        (AllowsHops policy.now.acl walk.now × HasWord policy.now.sequence walk.now) }
    ensures only { AllowsHops policy.now.acl walk.now → HasWord policy.now.sequence walk.now
        → IsOk result }
    // The fault is the same for each path with this walk and policy that keeps the rules before.
    ensures exact { IfErr result (λ fault. (request : Request) → walk.now ≡ walk_of request.pieces
        → policy.now ≡ request.rules
        → ((earlier : VerifyFault) → code_of earlier < 81 → Keeps request earlier)
        → IsRefused request fault) }
{
    if let Err(denied) = policy.verdict(walk) {
        return Err(VerifyFault::AclDenied(denied));
    }
    if !policy.matches(walk) {
        return Err(VerifyFault::SequenceMismatch);
    }
    Ok(())
}
