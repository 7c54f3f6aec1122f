//! Entries of the cache.

ghost use Rattle.std.specs.Prelude.{◌≡◌, ◌↔◌, IfOk, IfSome, IsSome, IsTrue, All, map};
ghost use Rattle.combinator.specs.Lasting.{AreAllLive};
ghost use Rattle.daemon_cache.specs.Request.{IsAnswerToRequest};
ghost use Rattle.daemon_cache.specs.inner.Entry.{HasSegmentsOf, IsFor};
ghost use Rattle.daemon_cache.specs.inner.Kept.{HasItsWalk, path_in};

use crate::kept::KeptPath;
use crate::request::Request;
use crate::texts::KeptRequest;
use combinator::{Path, PathList};
use path_segment::Segment;
use path_server::SegmentSet;
use std::alloc::{AllocError, Global};
use std::marker::Model;

/// An answer, with the request and the segments of which it was made. An invariant of the type says
/// that it answers that request, at a second at which all these segments are live. Its paths name
/// these segments and have no copies, so that an entry has few blocks of memory: mostly another
/// thread took them than the one that gives them back, and then each may cost a wait. It has no
/// policy, so that threads may share it: for types that reach a policy's tree it is not proved that
/// they may go to another thread.
#[derive(Drop)]
pub(crate) struct Entry {
    request: KeptRequest,
    set: SegmentSet,
    option: Option<usize>,
    paths: Vec<KeptPath>,
}

impl Model for Entry {
    ghost use Rattle.std.specs.Prelude.{All};
    ghost use Rattle.daemon_cache.specs.inner.Entry.{CachedAnswer, IsOwn};
    ghost use Rattle.daemon_cache.specs.inner.Kept.{answer_in, HasItsWalk};

    ghost Value = { CachedAnswer };

    ghost view = { λ e. record {
      request = e.request;
      set = e.set;
      answer = answer_in e.set e.option e.paths.items;
    } };

    ghost invariant = { λ e. IsOwn e.request e.set (answer_in e.set e.option e.paths.items)
        × All (HasItsWalk e.set) e.paths.items };
}

/// Whether both are the same segments, in the same order.
fn are_same(segments: &[Segment], others: &[Segment]) -> bool
    ensures { IsTrue result ↔ (segments.now ≡ others.now) }
{
    if segments.len() != others.len() {
        return false;
    }
    for i in 0..segments.len() {
        if !segments[i].is_same(&others[i]) {
            return false;
        }
    }
    true
}

/// Whether both sets have the same segments, each list in the same order.
fn are_of_one(own: &SegmentSet, set: &SegmentSet) -> bool
    ensures { IsTrue result ↔ HasSegmentsOf own.now set.now }
{
    are_same(own.ups(), set.ups())
        && are_same(own.cores(), set.cores())
        && are_same(own.downs(), set.downs())
}

/// The paths of an answer by the places of their segments, if the set has them and memory does not
/// run out.
fn kept_paths(alloc: Global, set: &SegmentSet, paths: &[Path]) -> Option<Vec<KeptPath>>
    ensures same { IfSome result (λ kept. map (path_in set.now) kept.items ≡ paths.now) }
    ensures walks { IfSome result (λ kept. All (HasItsWalk set.now) kept.items) }
{
    let mut kept = Vec::with_capacity(alloc, paths.len()).ok()?;
    for path in paths {
        let Ok(()) = kept.push(KeptPath::of(alloc, set, path)?) else {
            return None;
        };
    }
    Some(kept)
}

impl Entry {
    /// The entry of an answer to a request, made of this set, if memory does not run out.
    pub(crate) fn of(
        alloc: Global,
        set: SegmentSet,
        request: &Request<'_, '_>,
        answer: &PathList,
    ) -> Option<Entry>
        requires live { AreAllLive set set.moment }
        requires answers { IsAnswerToRequest request.now set answer.now }
        ensures { IfSome result (λ entry.
            entry ≡ record { request = request.now; set = set; answer = answer.now }) }
    {
        let paths = kept_paths(alloc, &set, answer.paths())?;
        Some(Entry {
            request: KeptRequest::of(alloc, request).ok()?,
            set,
            option: answer.option(),
            paths,
        })
    }

    /// The answer, with segments of its own, unless memory runs out.
    fn answer(&self, alloc: Global) -> Result<PathList, AllocError>
        ensures { IfOk result (λ answer. answer ≡ self.now.answer) }
    {
        let mut paths = Vec::with_capacity(alloc, self.paths.len())?;
        for kept in &self.paths {
            paths.push(kept.path_in(alloc, &self.set)?)?;
        }
        Ok(PathList::new(self.option, paths))
    }

    /// A copy of the answer if it was made for this request and of this set's segments, whatever
    /// the set's second; else nothing.
    pub(crate) fn serve(
        &self,
        alloc: Global,
        set: &SegmentSet,
        request: &Request<'_, '_>,
    ) -> Option<Result<PathList, AllocError>>
        requires { AreAllLive set.now set.now.moment }
        ensures own { IsSome result ↔ IsFor self.now request.now set.now }
        ensures same { IfSome result (λ given. IfOk given (λ paths. paths ≡ self.now.answer)) }
        ensures answers { IfSome result
            (λ given. IfOk given (IsAnswerToRequest request.now set.now)) }
    {
        if !self.request.is_of(request) || !are_of_one(&self.set, set) {
            return None;
        }
        Some(self.answer(alloc))
    }
}
