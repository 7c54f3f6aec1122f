//! What all requests for the paths between two ASes share.

ghost use Rattle.std.specs.Prelude.{◌≡◌, IfOk, OnOk};
ghost use Rattle.combinator.specs.Answer.{IsAnswer};
ghost use Rattle.combinator.specs.Candidate.{AreSpelled};
ghost use Rattle.combinator.specs.Combiner.{asked_of, combiner_of};
ghost use Rattle.combinator.specs.Walks.{AreWalks};

use crate::answer::{Paths, answer};
use crate::groups::Groups;
use crate::request::PathRequest;
use crate::usable_piece::UsablePiece;
use crate::usable_pieces::usable_pieces_of;
use crate::walks::{Walks, gathered};
use isd_as::IsdAs;
use path_server::SegmentSet;
use policy_expr::Policy;
use std::alloc::{AllocError, Allocator, Global};
use std::marker::Model;

/// Makes paths from one AS to another of the segments of a set. It lists the pieces of the segments
/// once, for all requests that are made of it.
#[derive(Drop)]
pub struct Combiner<'s> {
    set: &'s SegmentSet,
    src: IsdAs,
    dst: IsdAs,
    pieces: Vec<UsablePiece<'s>>,
}

impl<'s> Model for Combiner<'s> {
    ghost use Rattle.combinator.specs.Combiner.{CombinerValue, combiner_of};
    ghost use Rattle.combinator.specs.inner.Search.{AreUsable};

    ghost Value = { CombinerValue };

    ghost view = { λ c. combiner_of c.set.now c.src c.dst };

    ghost invariant = { λ c. AreUsable c.set.now c.src c.dst c.pieces.items };
}

impl<'s> Combiner<'s> {
    /// Makes paths from `src` to `dst` of these segments.
    ///
    /// A segment to `src` or `dst` gives at most 62 usable pieces, those with that AS at their end,
    /// and a core segment gives two. With P pieces of h hops, which are at most 63, making and
    /// sorting them takes about P (h + log P) steps, and the memory is that of P pieces of 80 bytes.
    ///
    /// [`AllocError`] if memory runs out.
    pub fn of(
        alloc: Global,
        set: &'s SegmentSet,
        src: IsdAs,
        dst: IsdAs,
    ) -> Result<Combiner<'s>, AllocError>
        ensures { IfOk result (λ combiner. combiner ≡ combiner_of set.entry.now src dst) }
    {
        let pieces = usable_pieces_of(alloc, set, src, dst)?;
        Ok(Combiner {
            set,
            src,
            dst,
            pieces,
        })
    }

    /// The answer of [`paths_between`](crate::paths_between).
    ///
    /// [`AllocError`] if memory runs out.
    pub fn paths<'p, A: Allocator + Clone>(
        &self,
        alloc: Global,
        policy: &'p Policy<A>,
        limit: usize,
    ) -> Result<Paths<'s, 'p, A>, AllocError>
        ensures answer { IfOk result (IsAnswer (asked_of self.now policy.entry.now) limit) }
        ensures spelled { OnOk result (AreSpelled (asked_of self.now policy.entry.now)) }
    {
        let groups = Groups::of(alloc, &self.pieces)?;
        answer(alloc, &self.request(policy), &groups, limit)
    }

    /// The walks of the paths that may be sent under a policy: all of them, or `limit` of them if
    /// there are as many.
    ///
    /// Of each list of groups that meet, the hops of the last one are compared with those before
    /// them, at most h² / 2 comparisons for a walk of h hops, and the policy is asked, until there
    /// are `limit` walks. The memory is that of groups and walks.
    ///
    /// [`AllocError`] if memory runs out.
    pub fn walks<A: Allocator + Clone>(
        &self,
        alloc: Global,
        policy: &Policy<A>,
        limit: usize,
    ) -> Result<Walks, AllocError>
        ensures { IfOk result (AreWalks (asked_of self.now policy.entry.now) limit) }
    {
        let groups = Groups::in_walk_order(alloc, &self.pieces)?;
        gathered(alloc, &self.request(policy), &groups, limit)
    }

    /// The request for its paths under a policy.
    fn request<'p, A: Allocator + Clone>(&self, policy: &'p Policy<A>) -> PathRequest<'s, 'p, A>
        ensures { result ≡ asked_of self.now policy.entry.now }
    {
        PathRequest {
            set: self.set,
            src: self.src,
            dst: self.dst,
            policy,
        }
    }
}
