//! Whether a path is the best for its walk: no list of groups with the same walk gives a better
//! one.

ghost use Rattle.std.specs.Prelude.{◌≡◌, ◌+◌, ◌<◌, ◌≤◌, length, All, IsTrue, IsFalse};
ghost use Rattle.path_verifier.specs.Walk.{walk_of};
ghost use Rattle.combinator.specs.Candidate.{IsCandidate};
ghost use Rattle.combinator.specs.Answer.{IsBest};
ghost use Rattle.combinator.specs.inner.Front.{groups_in};
ghost use Rattle.combinator.specs.inner.Over.{AreFor, MaySearch, OfChoices, OfEachOver};
ghost use Rattle.combinator.specs.inner.Search.{IsNoBetter};

use crate::found::{Found, compare_walks};
use crate::front::{Front, best};
use crate::search::Search;
use isd_as::IsdAs;
use path_header::MAX_HOPS;
use path_verifier::Walk;
use policy_expr::WalkHop;
use std::alloc::Allocator;
use std::cmp::Ordering;

impl<'g, 'a, 's, 'p, A: Allocator + Clone> Search<'g, 'a, 's, 'p, A> {
    /// Whether a list of groups that begins with these, and goes on from the AS `at` with one to
    /// `depth` more, has the walk of a path and gives a better one.
    pub(crate) fn has_better(
        &self,
        found: &Found<'a, 's>,
        walk: &[WalkHop],
        front: &Front<'g, 'a, 's>,
        at: IsdAs,
        depth: usize,
    ) -> bool
        requires search { MaySearch self.now.ask.now self.now.groups.now }
        requires candidate { IsCandidate self.now.ask.now found.now }
        requires walk { walk.now ≡ walk_of found.now.pieces }
        requires front { AreFor self.now.ask.now (groups_in front.now) }
        requires some { 0 < depth }
        requires few { length (groups_in front.now) + depth ≤ 3 }
        ensures better { IsTrue result → ¬ (IsBest self.now.ask.now found.now) }
        ensures none { IsFalse result → OfEachOver
            (OfChoices (IsNoBetter self.now.ask.now found.now)) self.now.groups.now depth
            (groups_in front.now) at }
    {
        let groups = self.groups;
        let place = front.end_place();
        let next_groups = groups.groups_from(at);
        for group in next_groups {
            if !group.goes_on(walk, place) {
                continue;
            }
            let longer = front.with(group);
            if longer.end_place() + 1 == walk.len() {
                if self.is_better(&longer, found, walk) {
                    return true;
                }
                continue;
            }
            if depth == 1 {
                continue;
            }
            if self.has_better(found, walk, &longer, group.ends(), depth - 1) {
                return true;
            }
        }
        false
    }

    /// Whether the best path of these groups may be sent, has the walk of a path and is better.
    fn is_better(&self, front: &Front<'g, 'a, 's>, found: &Found<'a, 's>, walk: &[WalkHop]) -> bool
        requires candidate { IsCandidate self.now.ask.now found.now }
        requires walk { walk.now ≡ walk_of found.now.pieces }
        requires front { AreFor self.now.ask.now (groups_in front.now) }
        requires some { 0 < length (groups_in front.now) }
        ensures better { IsTrue result → ¬ (IsBest self.now.ask.now found.now) }
        ensures none { IsFalse result → OfChoices (IsNoBetter self.now.ask.now found.now)
            (groups_in front.now) }
    {
        if front.hop_count() > MAX_HOPS {
            return false;
        }
        let rival = Found::of(best(front));
        if !found.is_worse(&rival) {
            return false;
        }
        let ask = self.ask;
        let mut own = Walk::new();
        if !ask.makes_path(&mut own, &rival) {
            return false;
        }
        match compare_walks(own.as_slice(), walk) {
            Ordering::Equal => true,
            _ => false,
        }
    }
}
