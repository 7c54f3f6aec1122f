//! Finds the option that is used, by one pass over the lists of groups that meet.
//!
//! The paths of a list of groups have one walk. Of each walk, the options that go before the best
//! one so far are asked whether they allow it. The pass ends when no option goes before the best
//! one.

ghost use Rattle.std.specs.Prelude.{◌≡◌, ◌⊎◌, ◌↔◌, ◌+◌, ◌<◌, ◌≤◌, [], length, IfSome, IsFalse, IsTrue, Some};
ghost use Rattle.path_verifier.specs.Accepted.{AreLive, MakesPath, NamesOnce};
ghost use Rattle.path_verifier.specs.Header.{total_hops};
ghost use Rattle.path_verifier.specs.Walk.{walk_of};
ghost use Rattle.combinator.specs.Answer.{GoesBefore, question_under};
ghost use Rattle.combinator.specs.inner.Choice.{AllowNone, Allows, AreForAny, GoesNoLater, HaveNone, IsAllowed, IsFirst, IsWanted, LeaveNone, LeavesPath, MayChoose};
ghost use Rattle.combinator.specs.inner.Front.{groups_in};
ghost use Rattle.combinator.specs.inner.Gathered.{GoesOnTo};
ghost use Rattle.combinator.specs.inner.Group.{heads_of};
ghost use Rattle.combinator.specs.inner.Over.{OfChoices, OfEachOver};

use crate::front::Front;
use crate::group::Group;
use crate::groups::Groups;
use crate::request::{ChoiceRequest, allows};
use isd_as::IsdAs;
use path_header::MAX_HOPS;
use path_verifier::{Pieces, Walk};
use policy_expr::{PolicyOption, WalkHop};
use std::alloc::Allocator;

/// A pass: the request, the groups of which its paths are made, and the place of the option that
/// goes before all others.
#[derive(Drop)]
struct Pass<'g, 'a, 's, 'p, A: Allocator + Clone> {
    request: &'g ChoiceRequest<'s, 'p, A>,
    groups: &'g Groups<'a, 's>,
    first: usize,
}

/// The place of the option that goes before all others that leave a path, or `None` if no option
/// leaves one.
pub(crate) fn used_option<'g, 'a, 's, 'p, A: Allocator + Clone>(
    request: &'g ChoiceRequest<'s, 'p, A>,
    groups: &'g Groups<'a, 's>,
) -> Option<usize>
    requires search { MayChoose request.now.set.now request.now.src request.now.dst groups.now }
    ensures leaves { let ask = request.entry.now in
        IfSome result (LeavesPath (question_under ask.set.now ask.src ask.dst) ask.options.now) }
    ensures none { let ask = request.entry.now in
        HaveNone (question_under ask.set.now ask.src ask.dst) ask.options.now result }
{
    let pass = Pass {
        request,
        groups,
        first: first_option(request.options),
    };
    let mut walk = Walk::new();
    pass.try_behind(None, &mut walk, &Front::Zero, request.src, 3)
}

impl<'g, 'a, 's, 'p, A: Allocator + Clone> Pass<'g, 'a, 's, 'p, A> {
    /// The best option after the paths that begin with pieces of these groups and go on, from the
    /// AS `at`, with pieces of one to `depth` more. The walk of these groups goes on by each of
    /// them in turn.
    fn try_behind(
        &self,
        best: Option<usize>,
        walk: &mut Walk,
        front: &Front<'g, 'a, 's>,
        at: IsdAs,
        depth: usize,
    ) -> Option<usize>
        requires search { let ask = self.now.request.now in
            MayChoose ask.set.now ask.src ask.dst self.now.groups.now }
        requires first { IsFirst self.now.request.now.options.now self.now.first }
        requires leaves { let ask = self.now.request.now in
            IfSome best (LeavesPath (question_under ask.set.now ask.src ask.dst) ask.options.now) }
        requires front { let ask = self.now.request.now in
            AreForAny ask.set.now ask.src ask.dst (groups_in front.now) }
        requires walk { walk.old ≡ walk_of (heads_of (groups_in front.now)) }
        requires once { NamesOnce walk.old }
        requires some { 0 < depth }
        requires few { length (groups_in front.now) + depth ≤ 3 }
        ensures walk { walk.new ≡ walk.old }
        ensures leaves { let ask = self.now.request.now in
            IfSome result (LeavesPath (question_under ask.set.now ask.src ask.dst) ask.options.now) }
        ensures later { GoesNoLater self.now.request.now.options.now result best }
        ensures none { let ask = self.now.request.now in
            OfEachOver (OfChoices (LeaveNone (question_under ask.set.now ask.src ask.dst)
            ask.options.now result)) self.now.groups.now depth (groups_in front.now) at }
    {
        let (request, groups) = (self.request, self.groups);
        let len = walk.len();
        let mut next = best;
        let next_groups = groups.groups_from(at);
        for group in next_groups {
            if self.is_first(next) {
                return next;
            }
            if !front.may_go_on(group.kind()) {
                continue;
            }
            let longer = front.with(group);
            if longer.hop_count() > MAX_HOPS {
                continue;
            }
            let end = group.ends();
            if end == request.dst {
                next = self.try_paths(next, walk, group, &longer);
                continue;
            }
            if depth == 1 {
                continue;
            }
            if !walk.go_on_by(&group.head().piece()) {
                walk.shorten(len);
                continue;
            }
            next = self.try_behind(next, walk, &longer, end, depth - 1);
            walk.shorten(len);
        }
        next
    }

    /// Whether no option goes before the best one.
    fn is_first(&self, best: Option<usize>) -> bool
        ensures { IsTrue result → best ≡ Some self.now.first }
    {
        match best {
            Some(place) => place == self.first,
            None => false,
        }
    }

    /// The best option after the paths of these groups. Their walk goes on by the last of them from
    /// the walk of the others.
    fn try_paths(
        &self,
        best: Option<usize>,
        walk: &mut Walk,
        group: &Group<'_, '_>,
        front: &Front<'g, 'a, 's>,
    ) -> Option<usize>
        requires leaves { let ask = self.now.request.now in
            IfSome best (LeavesPath (question_under ask.set.now ask.src ask.dst) ask.options.now) }
        requires front { let ask = self.now.request.now in
            AreForAny ask.set.now ask.src ask.dst (groups_in front.now) }
        requires walk { GoesOnTo walk.old group.now (groups_in front.now) }
        requires once { NamesOnce walk.old }
        requires few { total_hops (heads_of (groups_in front.now)) ≤ 64 }
        ensures walk { walk.new ≡ walk.old }
        ensures leaves { let ask = self.now.request.now in
            IfSome result (LeavesPath (question_under ask.set.now ask.src ask.dst) ask.options.now) }
        ensures later { GoesNoLater self.now.request.now.options.now result best }
        ensures none { let ask = self.now.request.now in
            OfChoices (LeaveNone (question_under ask.set.now ask.src ask.dst) ask.options.now result)
            (groups_in front.now) }
    {
        let len = walk.len();
        if !walk.go_on_by(&group.head().piece()) {
            walk.shorten(len);
            return best;
        }
        let next = self.best_on(best, walk, &front.heads().pieces());
        walk.shorten(len);
        next
    }

    /// The best option after live pieces with this walk, which passes no AS twice.
    fn best_on(&self, best: Option<usize>, walk: &Walk, pieces: &Pieces<'_>) -> Option<usize>
        requires held { IfSome best (λ place. place < length self.now.request.now.options.now) }
        requires walk { walk.now ≡ walk_of pieces.now }
        requires live { AreLive self.now.request.now.set.now.moment pieces.now }
        requires once { NamesOnce walk.now }
        ensures allowed { let ask = self.now.request.now in IfSome result (λ place.
            (best ≡ Some place) ⊎ (MakesPath pieces.now ask.src ask.dst ask.set.now.moment
            × IsAllowed ask.options.now walk.now place)) }
        ensures later { GoesNoLater self.now.request.now.options.now result best }
        ensures none { let ask = self.now.request.now in
            MakesPath pieces.now ask.src ask.dst ask.set.now.moment
            → AllowNone ask.options.now result walk.now }
    {
        let request = self.request;
        match pieces.check_shape(request.src, request.dst) {
            Ok(()) => best_for(request.options, best, walk.as_slice()),
            Err(_) => best,
        }
    }
}

/// The best option after a walk: one that allows it and goes before the best one so far, or that
/// one.
fn best_for<A: Allocator + Clone>(
    options: &[PolicyOption<A>],
    best: Option<usize>,
    walk: &[WalkHop],
) -> Option<usize>
    requires { IfSome best (λ place. place < length options.now) }
    ensures allowed { IfSome result (λ place. (best ≡ Some place)
        ⊎ IsAllowed options.now walk.now place) }
    ensures later { GoesNoLater options.now result best }
    ensures none { AllowNone options.now result walk.now }
{
    let mut next = best;
    for (place, option) in options.iter().enumerate() {
        if takes_over(options, next, place, option, walk) {
            next = Some(place);
        }
    }
    next
}

/// Whether an option goes before the best one, if there is a best one, and allows a walk.
fn takes_over<A: Allocator + Clone>(
    options: &[PolicyOption<A>],
    best: Option<usize>,
    place: usize,
    option: &PolicyOption<A>,
    walk: &[WalkHop],
) -> bool
    requires { IfSome best (λ other. other < length options.now) }
    ensures yes { IsTrue result → IsWanted options.now best place option.now
        × Allows option.now.rules walk.now }
    ensures no { IsFalse result → IsWanted options.now best place option.now
        → ¬ (Allows option.now.rules walk.now) }
{
    if !is_wanted(options, best, place, option) {
        return false;
    }
    allows(&option.policy, walk)
}

/// Whether an option goes before the best one, if there is a best one.
fn is_wanted<A: Allocator + Clone>(
    options: &[PolicyOption<A>],
    best: Option<usize>,
    place: usize,
    option: &PolicyOption<A>,
) -> bool
    requires { IfSome best (λ other. other < length options.now) }
    ensures { IsTrue result ↔ IsWanted options.now best place option.now }
{
    match best {
        Some(other) => goes_before(place, option, other, &options[other]),
        None => true,
    }
}

/// Whether an option goes before another one: its weight is larger, or it is equal and the option
/// is listed first.
fn goes_before<A: Allocator + Clone>(
    place: usize,
    option: &PolicyOption<A>,
    best: usize,
    other: &PolicyOption<A>,
) -> bool
    ensures { IsTrue result ↔ GoesBefore place option.now best other.now }
{
    option.weight > other.weight || (option.weight == other.weight && place < best)
}

/// The place of the option that goes before all others; 0 if there are none.
fn first_option<A: Allocator + Clone>(options: &[PolicyOption<A>]) -> usize
    ensures { IsFirst options.now result }
{
    let mut first = 0;
    for (place, option) in options.iter().enumerate() {
        if goes_before(place, option, first, &options[first]) {
            first = place;
        }
    }
    first
}
