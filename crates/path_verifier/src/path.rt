use crate::pieces::Pieces;
use crate::shape::expiry_of;
use crate::walk::Walk;
use isd_as::IsdAs;
use path_header::Header;
use policy_expr::{Policy, WalkHop};
use std::alloc::Allocator;
use std::marker::Model;

/// A path that may be sent. An invariant of the type says that it is accepted for its ends, its
/// second and its policy.
#[derive(Drop)]
pub struct VerifiedPath<'s, 'p, A: Allocator + Clone> {
    pub(crate) pieces: Pieces<'s>,
    pub(crate) header: Header,
    pub(crate) walk: Walk,
    pub(crate) src: IsdAs,
    pub(crate) dst: IsdAs,
    pub(crate) now: u32,
    pub(crate) policy: &'p Policy<A>,
}

impl<'s, 'p, A: Allocator + Clone> Model for VerifiedPath<'s, 'p, A> {
    ghost use Rattle.std.specs.Prelude.{◌≡◌};
    ghost use Rattle.policy_expr.specs.Code.{policy_codes};
    ghost use Rattle.path_verifier.specs.Walk.{walk_of};
    ghost use Rattle.path_verifier.specs.Accepted.{Request, request_of, IsAccepted};

    ghost Value = { Request };

    ghost coded = { Prim.hlevel policy_codes };

    ghost view = { λ v. request_of v.pieces v.header v.src v.dst v.now v.policy.now };

    ghost invariant = { λ v. IsAccepted
        (request_of v.pieces v.header v.src v.dst v.now v.policy.now)
        × (v.walk ≡ walk_of v.pieces) };
}

impl<'s, 'p, A: Allocator + Clone> VerifiedPath<'s, 'p, A> {
    ghost use Rattle.std.specs.Prelude.{◌≡◌, ◌≤◌, length};
    ghost use Rattle.path_verifier.specs.Walk.{walk_of};
    ghost use Rattle.path_verifier.specs.Accepted.{IsAccepted, IsExpiry};

    /// Its pieces, in order of travel.
    pub fn pieces(&self) -> &Pieces<'s>
        ensures { result.now ≡ self.entry.now.pieces }
    {
        &self.pieces
    }

    /// Its header.
    pub fn header(&self) -> &Header
        ensures { result.now ≡ self.entry.now.header }
    {
        &self.header
    }

    /// Its walk: the ASes that it passes, each with the interface by which the walk enters and the
    /// one by which it leaves, 0 at both ends. It has 2 to 64 hops.
    pub fn walk(&self) -> &[WalkHop]
        ensures value { result.now ≡ walk_of self.entry.now.pieces }
        ensures count { (2 ≤ length result.now) × (length result.now ≤ 64) }
    {
        self.walk.as_slice()
    }

    /// The half second at which the first of its hops expires.
    pub fn expiry(&self) -> u64
        ensures { IsExpiry self.entry.now.pieces result }
    {
        let pieces = &self.pieces;
        expiry_of(&pieces.held)
    }

    /// Does nothing; its contract tells the caller that this path is accepted.
    pub fn known(&self)
        ensures { IsAccepted self.entry.now }
    {
        let _ = &self.src;
    }
}
