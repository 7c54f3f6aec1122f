ghost use Rattle.std.specs.Prelude.{◌≡◌, ◌↔◌, All, IsTrue};
ghost use Rattle.path_verifier.specs.Walk.{walk_of};
ghost use Rattle.path_verifier.specs.Accepted.{AreLive, MakesPath, NamesOnce};
ghost use Rattle.path_verifier.specs.Header.{header_of};
ghost use Rattle.combinator.specs.Answer.{question_under};
ghost use Rattle.combinator.specs.Candidate.{IsCandidate, IsOf, path_with};
ghost use Rattle.combinator.specs.inner.Choice.{Allows};

use crate::found::Found;
use isd_as::IsdAs;
use path_server::SegmentSet;
use path_verifier::{Pieces, VerifiedPath, Walk, accept};
use policy_expr::{Policy, PolicyOption, WalkHop};
use std::alloc::Allocator;
use std::marker::Model;

/// A request for paths from one AS to another, of these segments and under a policy.
#[derive(Drop)]
pub(crate) struct PathRequest<'s, 'p, A: Allocator + Clone> {
    pub(crate) set: &'s SegmentSet,
    pub(crate) src: IsdAs,
    pub(crate) dst: IsdAs,
    pub(crate) policy: &'p Policy<A>,
}

impl<'s, 'p, A: Allocator + Clone> Model for PathRequest<'s, 'p, A> {
    ghost use Rattle.policy_expr.specs.Code.{policy_codes};
    ghost use Rattle.combinator.specs.Candidate.{Question, question_of};

    ghost Value = { Question };

    ghost coded = { Prim.hlevel policy_codes };

    ghost view = { λ a. question_of a.set.now a.src a.dst a.policy.now };
}

impl<'s, 'p, A: Allocator + Clone> PathRequest<'s, 'p, A> {
    /// Whether the pieces of a path are a path between the ends that is live at the set's second;
    /// then makes a walk theirs.
    pub(crate) fn makes_path(&self, walk: &mut Walk, found: &Found<'_, '_>) -> bool
        ensures walk { IsTrue result → walk.new ≡ walk_of found.now.pieces }
        ensures path { IsTrue result ↔ MakesPath found.now.pieces self.now.src self.now.dst
            self.now.set.moment }
    {
        match walk.follow_path(&found.pieces(), self.src, self.dst, self.set.now()) {
            Ok(()) => true,
            Err(_) => false,
        }
    }

    /// Whether live pieces of the set, with this walk, which passes no AS twice, are a path that
    /// may be sent.
    pub(crate) fn may_send(&self, pieces: &Pieces<'_>, walk: &Walk) -> bool
        requires own { All (IsOf self.now.set) pieces.now }
        requires live { AreLive self.now.set.moment pieces.now }
        requires walk { walk.now ≡ walk_of pieces.now }
        requires once { NamesOnce walk.now }
        ensures { IsTrue result
            ↔ IsCandidate self.now (path_with pieces.now (header_of pieces.now)) }
    {
        match pieces.check_shape(self.src, self.dst) {
            Ok(()) => allows(self.policy, walk.as_slice()),
            Err(_) => false,
        }
    }

    /// The path that was found, if it may be sent.
    pub(crate) fn verified(&self, found: &Found<'_, 's>) -> VerifiedPath<'s, 'p, A>
        requires { IsCandidate self.now found.now }
        ensures { path_with result.pieces result.header ≡ found.now }
    {
        // It is a candidate, so the verifier accepts it.
        let pieces = found.pieces();
        accept(&pieces, self.src, self.dst, self.set.now(), self.policy).unwrap()
    }
}

/// Whether a policy allows a walk.
pub(crate) fn allows<A: Allocator + Clone>(policy: &Policy<A>, walk: &[WalkHop]) -> bool
    ensures { IsTrue result ↔ Allows policy.now walk.now }
{
    match policy.verdict(walk) {
        Ok(()) => policy.matches(walk),
        Err(_) => false,
    }
}

/// A request for at most `limit` paths from one AS to another, of these segments and under one of
/// several policy options.
#[derive(Drop)]
pub(crate) struct ChoiceRequest<'s, 'p, A: Allocator + Clone> {
    pub(crate) set: &'s SegmentSet,
    pub(crate) src: IsdAs,
    pub(crate) dst: IsdAs,
    pub(crate) options: &'p [PolicyOption<A>],
    pub(crate) limit: usize,
}

impl<'s, 'p, A: Allocator + Clone> ChoiceRequest<'s, 'p, A> {
    /// The request under one of the options.
    pub(crate) fn under(&self, option: &'p PolicyOption<A>) -> PathRequest<'s, 'p, A>
        ensures { result ≡ question_under self.now.set.now self.now.src self.now.dst
            option.entry.now }
    {
        PathRequest {
            set: self.set,
            src: self.src,
            dst: self.dst,
            policy: &option.policy,
        }
    }
}
