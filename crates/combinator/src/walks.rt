//! The walks of the paths that may be sent.
//!
//! All lists of groups that meet are tried until there are as many walks as are looked for. The
//! paths of a list of groups have one walk, so one of them is looked at.

ghost use Rattle.std.specs.Prelude.{◌≡◌, ◌↔◌, ◌+◌, ◌<◌, ◌≤◌, [], length, All, Contains, IfNone, IfOk, IfSome, IsTrue, OnOk, List, option_map, slice_get};
ghost use Rattle.policy_expr.specs.declared.hop.WalkHop.{WalkHop};
ghost use Rattle.path_verifier.specs.Accepted.{NamesOnce};
ghost use Rattle.path_verifier.specs.Header.{total_hops};
ghost use Rattle.path_verifier.specs.Walk.{walk_of};
ghost use Rattle.combinator.specs.Candidate.{Question};
ghost use Rattle.combinator.specs.Order.{walk_cmp};
ghost use Rattle.combinator.specs.Walks.{AreWalks, IsWalkOf};
ghost use Rattle.combinator.specs.inner.Front.{groups_in};
ghost use Rattle.combinator.specs.inner.Gathered.{AreGathered, GoesOnTo, IsListed, StillList, hops_in};
ghost use Rattle.combinator.specs.inner.Group.{heads_of};
ghost use Rattle.combinator.specs.inner.Over.{AreFor, MaySearch, OfChoices, OfEachOver};
ghost use Rattle.combinator.specs.inner.Placed.{InOrder, IsGap};

use crate::found::compare_walks;
use crate::front::Front;
use crate::group::Group;
use crate::groups::Groups;
use crate::request::PathRequest;
use isd_as::IsdAs;
use path_header::MAX_HOPS;
use path_verifier::Walk;
use policy_expr::WalkHop;
use std::alloc::{AllocError, Allocator, Global};
use std::cmp::Ordering;
use std::marker::Model;

/// Walks of paths that may be sent, each once, in the order of walks: hop by hop, by AS, then by
/// way in, then by way out.
#[derive(Drop)]
pub struct Walks {
    walks: Vec<Vec<WalkHop>>,
    /// The place of the walk that came in last; the next one mostly belongs beside it.
    last: usize,
}

impl Model for Walks {
    ghost use Rattle.std.specs.Prelude.{List};
    ghost use Rattle.policy_expr.specs.declared.hop.WalkHop.{WalkHop};
    ghost use Rattle.combinator.specs.inner.Gathered.{hops_in};

    ghost Value = { List (List WalkHop) };

    ghost view = { λ w. hops_in w.walks.items };
}

impl Walks {
    /// No walks.
    fn new(alloc: Global) -> Self
        ensures { result ≡ [] }
    {
        Self {
            walks: Vec::new(alloc),
            last: 0,
        }
    }

    /// The number of walks.
    pub fn len(&self) -> usize
        ensures { result ≡ length self.now }
    {
        self.walks.len()
    }

    /// Whether there is no walk.
    pub fn is_empty(&self) -> bool
        ensures { IsTrue result ↔ (self.now ≡ []) }
    {
        self.walks.is_empty()
    }

    /// The walk at this place, from 0.
    pub fn get(&self, place: usize) -> Option<&[WalkHop]>
        ensures { option_map (λ walk. walk.now) result ≡ slice_get self.now place }
    {
        match self.walks.get(place) {
            Some(walk) => Some(walk.as_slice()),
            None => None,
        }
    }

    /// Adds a walk to those in order, unless it is among them.
    fn take_in(&mut self, alloc: Global, walk: &[WalkHop]) -> Result<(), AllocError>
        requires { InOrder walk_cmp self.old }
        ensures order { OnOk result (InOrder walk_cmp self.new) }
        ensures few { OnOk result (length self.new ≤ length self.old + 1) }
        ensures there { OnOk result (Contains self.new walk.now) }
        ensures others { OnOk result ((other : List WalkHop)
            → Contains self.old other → Contains self.new other) }
        ensures each { OnOk result ((question : Question)
            → All (IsWalkOf question) self.old → IsWalkOf question walk.now
            → All (IsWalkOf question) self.new) }
    {
        let Some(place) = place_in(&self.walks, walk, self.last) else {
            return Ok(());
        };
        let copy = Vec::from_slice(alloc, walk)?;
        self.walks.insert(place, copy)?;
        self.last = place;
        Ok(())
    }
}

/// A request for walks, the groups of which its paths are made, and the largest number of walks.
#[derive(Drop)]
struct Gathering<'g, 'a, 's, 'p, A: Allocator + Clone> {
    alloc: Global,
    ask: &'g PathRequest<'s, 'p, A>,
    groups: &'g Groups<'a, 's>,
    limit: usize,
}

/// The walks of a request, of these groups: all of them, or `limit` of them if there are as many.
pub(crate) fn gathered<'g, 'a, 's, 'p, A: Allocator + Clone>(
    alloc: Global,
    ask: &'g PathRequest<'s, 'p, A>,
    groups: &'g Groups<'a, 's>,
    limit: usize,
) -> Result<Walks, AllocError>
    requires { MaySearch ask.now groups.now }
    ensures { IfOk result (AreWalks ask.entry.now limit) }
{
    let gathering = Gathering {
        alloc,
        ask,
        groups,
        limit,
    };
    let mut walks = Walks::new(alloc);
    let mut walk = Walk::new();
    gathering.try_behind(&mut walks, &mut walk, &Front::Zero, ask.src, 3)?;
    Ok(walks)
}

impl<'g, 'a, 's, 'p, A: Allocator + Clone> Gathering<'g, 'a, 's, 'p, A> {
    /// Adds the walks of the paths that begin with pieces of these groups and go on, from the AS
    /// `at`, with pieces of one to `depth` more. The walk of these groups goes on by each of them
    /// in turn.
    fn try_behind(
        &self,
        walks: &mut Walks,
        walk: &mut Walk,
        front: &Front<'g, 'a, 's>,
        at: IsdAs,
        depth: usize,
    ) -> Result<(), AllocError>
        requires search { MaySearch self.now.ask.now self.now.groups.now }
        requires gathered { AreGathered self.now.ask.now self.now.limit walks.old }
        requires front { AreFor self.now.ask.now (groups_in front.now) }
        requires walk { walk.old ≡ walk_of (heads_of (groups_in front.now)) }
        requires once { NamesOnce walk.old }
        requires some { 0 < depth }
        requires few { length (groups_in front.now) + depth ≤ 3 }
        ensures walk { OnOk result (walk.new ≡ walk.old) }
        ensures gathered { OnOk result
            (AreGathered self.now.ask.now self.now.limit walks.new) }
        ensures still { OnOk result
            (StillList self.now.limit walks.old walks.new) }
        ensures listed { OnOk result (OfEachOver
            (OfChoices (IsListed self.now.ask.now self.now.limit walks.new))
            self.now.groups.now depth (groups_in front.now) at) }
    {
        let (ask, groups) = (self.ask, self.groups);
        let len = walk.len();
        let next_groups = groups.groups_from(at);
        for group in next_groups {
            if walks.len() == self.limit {
                return Ok(());
            }
            if !front.may_go_on(group.kind()) {
                continue;
            }
            let longer = front.with(group);
            if longer.hop_count() > MAX_HOPS {
                continue;
            }
            let end = group.ends();
            if end == ask.dst {
                self.add_walk(walks, walk, group, &longer)?;
                continue;
            }
            if depth == 1 {
                continue;
            }
            if !walk.go_on_by(&group.head().piece()) {
                walk.shorten(len);
                continue;
            }
            self.try_behind(walks, walk, &longer, end, depth - 1)?;
            walk.shorten(len);
        }
        Ok(())
    }

    /// Adds the walk of the paths of these groups, if they may be sent: it goes on by the last of
    /// them from the walk of the others.
    fn add_walk(
        &self,
        walks: &mut Walks,
        walk: &mut Walk,
        group: &Group<'_, '_>,
        front: &Front<'g, 'a, 's>,
    ) -> Result<(), AllocError>
        requires gathered { AreGathered self.now.ask.now self.now.limit walks.old }
        requires front { AreFor self.now.ask.now (groups_in front.now) }
        requires walk { GoesOnTo walk.old group.now (groups_in front.now) }
        requires once { NamesOnce walk.old }
        requires few { total_hops (heads_of (groups_in front.now)) ≤ 64 }
        requires room { length walks.old < self.now.limit }
        ensures walk { OnOk result (walk.new ≡ walk.old) }
        ensures gathered { OnOk result
            (AreGathered self.now.ask.now self.now.limit walks.new) }
        ensures still { OnOk result
            (StillList self.now.limit walks.old walks.new) }
        ensures listed { OnOk result
            (OfChoices (IsListed self.now.ask.now self.now.limit walks.new)
            (groups_in front.now)) }
    {
        let len = walk.len();
        if !walk.go_on_by(&group.head().piece()) {
            walk.shorten(len);
            return Ok(());
        }
        if !self.ask.may_send(&front.heads().pieces(), walk) {
            walk.shorten(len);
            return Ok(());
        }
        walks.take_in(self.alloc, walk.as_slice())?;
        walk.shorten(len);
        Ok(())
    }
}

/// The place where a walk belongs among those in order, or nothing if it is there. It is looked for
/// from the place `near` on, in steps that double.
fn place_in(walks: &[Vec<WalkHop>], walk: &[WalkHop], near: usize) -> Option<usize>
    requires { InOrder walk_cmp (hops_in walks.now) }
    ensures there { IfNone result (Contains (hops_in walks.now) walk.now) }
    ensures within { IfSome result (λ place. place ≤ length walks.now) }
    ensures gap { IfSome result (IsGap walk_cmp walk.now (hops_in walks.now)) }
{
    let mut low = 0;
    let mut high = walks.len();
    let mut step = 0;
    while low < high {
        let middle = place_to_look(low, high, near, step);
        step = step.saturating_mul(2).saturating_add(1);
        match compare_walks(&walks[middle], walk) {
            Ordering::Less => low = middle + 1,
            Ordering::Equal => return None,
            Ordering::Greater => high = middle,
        }
    }
    Some(low)
}

/// A place from `low` on and before `high`: `near` if it is one; else the one of these that is
/// `step` behind the nearest to it, or halfway.
fn place_to_look(low: usize, high: usize, near: usize, step: usize) -> usize
    requires { low < high }
    ensures from { low ≤ result }
    ensures before { result < high }
{
    let half = (high - low) / 2;
    if near < low {
        return low + step.min(half);
    }
    if near < high {
        return near;
    }
    high - 1 - step.min(half)
}
