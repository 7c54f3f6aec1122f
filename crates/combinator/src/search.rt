//! Finds the first paths of an answer: each is the best for its walk.
//!
//! All lists of groups that meet are tried, but for those that can't be among the first paths. Of
//! each list the best path is looked at alone.

ghost use Rattle.std.specs.Prelude.{◌≡◌, ◌↔◌, ◌+◌, ◌<◌, ◌≤◌, ◌∷◌, ◌++◌, [], length, All, IfOk, IsTrue, IsFalse, OnOk};
ghost use Rattle.std.specs.List.{AllByRecursion};
ghost use Rattle.path_verifier.specs.Accepted.{AreLive, NamesOnce};
ghost use Rattle.path_verifier.specs.Header.{total_hops};
ghost use Rattle.path_verifier.specs.Walk.{walk_of};
ghost use Rattle.combinator.specs.Answer.{IsBest};
ghost use Rattle.combinator.specs.Candidate.{IsOf};
ghost use Rattle.combinator.specs.Order.{path_cmp};
ghost use Rattle.combinator.specs.inner.Front.{groups_in};
ghost use Rattle.combinator.specs.inner.Gathered.{GoesOnTo};
ghost use Rattle.combinator.specs.inner.Group.{heads_of};
ghost use Rattle.combinator.specs.inner.Over.{AreFor, MaySearch, OfChoices, OfEachOver};
ghost use Rattle.combinator.specs.inner.Placed.{InOrder};
ghost use Rattle.combinator.specs.inner.Search.{AreBefore, AreKept, IsMetBy, StillMeet};

use crate::found::Found;
use crate::front::{Front, best};
use crate::group::Group;
use crate::groups::Groups;
use crate::ordered::{is_met, take_in};
use crate::request::PathRequest;
use isd_as::IsdAs;
use path_header::MAX_HOPS;
use path_verifier::Walk;
use std::alloc::{AllocError, Allocator, Global};

/// A search: the request, the groups of which its paths are made, and the largest number of paths.
#[derive(Drop)]
pub(crate) struct Search<'g, 'a, 's, 'p, A: Allocator + Clone> {
    pub(crate) ask: &'g PathRequest<'s, 'p, A>,
    pub(crate) groups: &'g Groups<'a, 's>,
    pub(crate) limit: usize,
}

/// What a search has found so far, and the walk of the groups that it goes on from.
#[derive(Drop)]
struct SearchState<'a, 's> {
    kept: Vec<Found<'a, 's>>,
    walk: Walk,
}

/// The first `limit` paths in the order of answers, of those that are the best for their walks.
pub(crate) fn first_paths<'g, 'a, 's, 'p, A: Allocator + Clone>(
    alloc: Global,
    ask: &'g PathRequest<'s, 'p, A>,
    groups: &'g Groups<'a, 's>,
    limit: usize,
) -> Result<Vec<Found<'a, 's>>, AllocError>
    requires search { MaySearch ask.now groups.now }
    ensures kept { IfOk result (λ paths. AreKept ask.entry.now limit paths.items) }
    ensures met { IfOk result (λ paths. OfEachOver
        (OfChoices (IsMetBy ask.entry.now limit paths.items)) groups.entry.now 3 []
        ask.entry.now.src) }
{
    let search = Search { ask, groups, limit };
    let mut state = SearchState {
        kept: Vec::new(alloc),
        walk: Walk::new(),
    };
    search.try_behind(&mut state, &Front::Zero, ask.src, 3)?;
    Ok(state.kept)
}

impl<'g, 'a, 's, 'p, A: Allocator + Clone> Search<'g, 'a, 's, 'p, A> {
    /// Tries the paths that begin with pieces of these groups and go on, from the AS `at`, with
    /// pieces of one to `depth` more. The walk of these groups goes on by each of them in turn.
    fn try_behind(
        &self,
        state: &mut SearchState<'a, 's>,
        front: &Front<'g, 'a, 's>,
        at: IsdAs,
        depth: usize,
    ) -> Result<(), AllocError>
        requires search { MaySearch self.now.ask.now self.now.groups.now }
        requires kept { AreKept self.now.ask.now self.now.limit state.old.kept.items }
        requires front { AreFor self.now.ask.now (groups_in front.now) }
        requires walk { state.old.walk ≡ walk_of (heads_of (groups_in front.now)) }
        requires once { NamesOnce state.old.walk }
        requires some { 0 < depth }
        requires few { length (groups_in front.now) + depth ≤ 3 }
        ensures walk { OnOk result (state.new.walk ≡ state.old.walk) }
        ensures kept { OnOk result
            (AreKept self.now.ask.now self.now.limit state.new.kept.items) }
        ensures still { OnOk result
            (StillMeet self.now.limit state.old.kept.items state.new.kept.items) }
        ensures met { OnOk result (OfEachOver
            (OfChoices (IsMetBy self.now.ask.now self.now.limit state.new.kept.items))
            self.now.groups.now depth (groups_in front.now) at) }
    {
        let (ask, groups) = (self.ask, self.groups);
        let len = state.walk.len();
        let next_groups = groups.groups_from(at);
        for group in next_groups {
            if !front.may_go_on(group.kind()) {
                continue;
            }
            if is_behind(&state.kept, self.limit, front, group, 0) {
                continue;
            }
            let longer = front.with(group);
            if longer.hop_count() > MAX_HOPS {
                continue;
            }
            let end = group.ends();
            if end == ask.dst {
                self.consider(state, group, &longer)?;
                continue;
            }
            if depth == 1 {
                continue;
            }
            if is_behind(&state.kept, self.limit, front, group, 1) {
                continue;
            }
            if !state.walk.go_on_by(&group.head().piece()) {
                state.walk.shorten(len);
                continue;
            }
            self.try_behind(state, &longer, end, depth - 1)?;
            state.walk.shorten(len);
        }
        Ok(())
    }

    /// Keeps the best path of these groups, if it is the best for its walk and may be among the
    /// first. Its walk goes on by the last of them from the walk of the others.
    fn consider(
        &self,
        state: &mut SearchState<'a, 's>,
        group: &Group<'_, '_>,
        front: &Front<'g, 'a, 's>,
    ) -> Result<(), AllocError>
        requires search { MaySearch self.now.ask.now self.now.groups.now }
        requires kept { AreKept self.now.ask.now self.now.limit state.old.kept.items }
        requires front { AreFor self.now.ask.now (groups_in front.now) }
        requires walk { GoesOnTo state.old.walk group.now (groups_in front.now) }
        requires once { NamesOnce state.old.walk }
        requires few { total_hops (heads_of (groups_in front.now)) ≤ 64 }
        ensures walk { OnOk result (state.new.walk ≡ state.old.walk) }
        ensures kept { OnOk result
            (AreKept self.now.ask.now self.now.limit state.new.kept.items) }
        ensures still { OnOk result
            (StillMeet self.now.limit state.old.kept.items state.new.kept.items) }
        ensures met { OnOk result (OfChoices
            (IsMetBy self.now.ask.now self.now.limit state.new.kept.items)
            (groups_in front.now)) }
    {
        let found = Found::of(best(front));
        if is_met(&state.kept, &found, self.limit) {
            return Ok(());
        }
        let len = state.walk.len();
        if !state.walk.go_on_by(&group.head().piece()) {
            state.walk.shorten(len);
            return Ok(());
        }
        if !self.is_best(&found, &state.walk) {
            state.walk.shorten(len);
            return Ok(());
        }
        state.walk.shorten(len);
        take_in(&mut state.kept, found, self.limit)?;
        Ok(())
    }

    /// Whether a path of live pieces, with this walk, which passes no AS twice, may be sent and is
    /// the best for the walk.
    fn is_best(&self, found: &Found<'a, 's>, walk: &Walk) -> bool
        requires search { MaySearch self.now.ask.now self.now.groups.now }
        requires own { All (IsOf self.now.ask.now.set) found.now.pieces }
        requires live { AreLive self.now.ask.now.set.moment found.now.pieces }
        requires walk { walk.now ≡ walk_of found.now.pieces }
        requires once { NamesOnce walk.now }
        ensures { IsTrue result ↔ IsBest self.now.ask.now found.now }
    {
        let ask = self.ask;
        found.known();
        if !ask.may_send(&found.pieces(), walk) {
            return false;
        }
        !self.has_better(found, walk.as_slice(), &Front::Zero, ask.src, 3)
    }
}

/// Whether there are `limit` paths that come before each path that begins with pieces of these
/// groups and of one more, and goes on with at least `further` pieces, 0 or 1.
fn is_behind(
    kept: &[Found<'_, '_>],
    limit: usize,
    front: &Front<'_, '_, '_>,
    group: &Group<'_, '_>,
    further: usize,
) -> bool
    requires order { InOrder path_cmp kept.now }
    requires few { length (groups_in front.now) + further ≤ 2 }
    requires one { further ≤ 1 }
    ensures { IsTrue result → OfChoices (λ pieces. AreBefore limit kept.now pieces further)
        (groups_in front.now ++ group.now ∷ []) }
{
    match kept.last() {
        Some(last) => kept.len() == limit && last.comes_before(front, group, further),
        None => false,
    }
}
