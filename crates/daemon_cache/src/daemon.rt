//! The daemon.
// A lawful request wants a path, a refused one has no answer, and what a look-up gives is live.
#![tactic(auto, using(crate::proofs::Lookups::lawful_wants, crate::proofs::Lookups::gives_none, crate::proofs::Lookups::set_is_live))]

ghost use Rattle.std.specs.Prelude.{◌≡◌, ◌<◌, ◌≤◌, [], Ok, IfErr, IfOk, IfSome, OnOk};
ghost use mathlib.Core.List.{IsPrefix};
ghost use Rattle.path_server.specs.Store.{store_of};
ghost use Rattle.path_server.specs.Lookup.{segments_for};
ghost use Rattle.combinator.specs.Lasting.{AreAllLive};
ghost use Rattle.daemon_cache.specs.Request.{GivesNoAnswer, IsAnswerToRequest, lawful_at, request_value};

use crate::entry::Entry;
use crate::fault::{AskError, AskFault};
use crate::request::Request;
use bumpalo::Bump;
use combinator::{PathList, combine};
use isd_as::IsdAs;
use lru::LruCache;
use path_server::SegmentSet;
use policy_expr::OptionText;
use refusal::OrMemory;
use segment_board::BoardReader;
use std::alloc::{AllocError, Global};
use std::num::NonZeroUsize;
use std::sync::{Arc, Mutex, Wait};

/// Answers requests for paths. Threads share it.
#[derive(Drop)]
pub struct Daemon {
    cache: Mutex<LruCache<u64, Arc<Entry>>>,
}

/// An empty cache with room for `capacity` answers.
fn empty_cache(alloc: Global, capacity: usize) -> Result<LruCache<u64, Arc<Entry>>, AllocError>
    requires { 0 < capacity }
    ensures empty { IfOk result (λ cache. cache.entries ≡ []) }
    ensures room { IfOk result (λ cache. cache.cap ≡ capacity) }
{
    let capacity = NonZeroUsize::new(capacity).unwrap();
    LruCache::new(alloc, capacity)
}

/// The answer to a request over a set. Its options are read into an arena that is freed at the end.
fn make_answer(
    alloc: Global,
    set: &SegmentSet,
    request: &Request<'_, '_>,
) -> Result<PathList, AllocError>
    ensures { IfOk result (IsAnswerToRequest request.now set.now) }
{
    let arena = Bump::new(alloc);
    let options = request.options.read(&arena)?;
    let Ok(paths) = combine(
        alloc,
        set,
        request.src,
        request.dst,
        &options,
        request.limit,
    ) else {
        return Err(AllocError);
    };
    Ok(paths)
}

impl Daemon {
    /// A daemon with an empty cache that has room for 1 to 1,024 answers, unless memory runs out.
    pub fn new(alloc: Global, capacity: usize) -> Result<Daemon, AllocError>
        requires some { 0 < capacity }
        requires few { capacity ≤ 1024 }
    {
        Ok(Daemon {
            cache: Mutex::new(empty_cache(alloc, capacity)?),
        })
    }

    /// The cache's entry under a number, shared with the cache.
    fn entry<R: Wait>(&self, rt: &R, key: u64) -> Option<Arc<Entry>> {
        let mut cache = self.cache.lock(rt);
        Arc::try_clone(cache.get(&key)?).ok()
    }

    /// The cached answer to a request over a set. It is copied after the lock was released.
    fn find_cached<R: Wait>(
        &self,
        rt: &R,
        alloc: Global,
        set: &SegmentSet,
        request: &Request<'_, '_>,
    ) -> Option<Result<PathList, AllocError>>
        requires { AreAllLive set.now set.now.moment }
        ensures { IfSome result (λ given. IfOk given (IsAnswerToRequest request.now set.now)) }
    {
        let entry = self.entry(rt, request.key())?;
        entry.serve(alloc, set, request)
    }

    /// Keeps an answer if there is memory for it; else the cache stays as it was. An entry that
    /// leaves the cache is dropped after the lock was released.
    fn keep<R: Wait>(&self, rt: &R, alloc: Global, key: u64, entry: Entry) {
        let Ok(entry) = Arc::new(alloc, entry) else {
            return;
        };
        let left = {
            let mut cache = self.cache.lock(rt);
            cache.push(key, entry)
        };
        drop(left);
    }

    /// The answer to a request over a set, and whether an entry of the cache gave it.
    fn answer_request<R: Wait>(
        &self,
        rt: &R,
        alloc: Global,
        set: SegmentSet,
        request: &Request<'_, '_>,
    ) -> Result<(PathList, bool), AllocError>
        requires { AreAllLive set set.moment }
        ensures { IfOk result (λ given. IsAnswerToRequest request.now set given.0) }
    {
        match self.find_cached(rt, alloc, &set, request) {
            Some(Ok(paths)) => return Ok((paths, true)),
            Some(Err(_)) => return Err(AllocError),
            None => {}
        }
        let paths = make_answer(alloc, &set, request)?;
        if let Some(entry) = Entry::of(alloc, set, request, &paths) {
            self.keep(rt, alloc, request.key(), entry);
        }
        Ok((paths, false))
    }

    /// At most `limit` paths from `src` to `dst` at the second `now`, best first, and whether they
    /// come from the cache. The paths are made of the segments that the reader finds on its board,
    /// under the policies of the options' texts. It may wait for another thread's ask. No clause
    /// speaks of the Boolean that says whether they come from the cache.
    ///
    /// What it costs: an answer from the cache costs a look-up of the segments and a copy of the
    /// answer, at most 64 paths of 64 hops. Any other one also costs a search, and with several
    /// options a pass that finds the one that is used: what these take
    /// [`combinator::paths_between`] and [`combinator::paths_with`] say.
    ///
    /// The first of these refusals is returned: [`AskFault::BadLimit`] if the limit is not 1 to 64;
    /// those of [`policy_expr::PolicyOption::parse_all`]; [`AskFault::SameAs`] if both ends are the
    /// same AS; [`AskFault::NoEntry`] if the reader could not enter the board, and then the caller
    /// may try again. Memory can run out only if none of these comes.
    pub fn ask<R: Wait>(
        &self,
        rt: &R,
        alloc: Global,
        reader: &mut BoardReader,
        src: IsdAs,
        dst: IsdAs,
        options: &[OptionText<'_>],
        now: u32,
        limit: usize,
    ) -> Result<(PathList, bool), AskError>
        ensures board { reader.new.board ≡ reader.old.board }
        ensures later { IsPrefix reader.old.seen reader.new.seen }
        ensures told { reader.new.told ≡ reader.old.told }
        // The answer is one to the request over what the reader has then seen.
        ensures found { IfOk result
            (λ given. IsAnswerToRequest (request_value src dst options.now limit)
            (segments_for (store_of reader.new.seen) src dst now) given.0) }
        // An answer is returned only to a lawful request.
        ensures lawful { OnOk result (lawful_at (request_value src dst options.now limit) ≡ Ok tt) }
        // Why there is no answer.
        ensures refused { IfErr result (λ error. GivesNoAnswer error
            (request_value src dst options.now limit) reader.old reader.new) }
    {
        let request = Request::check(src, dst, options, limit)?;
        let set = match reader.lookup(alloc, src, dst, now) {
            Ok(set) => set,
            Err(OrMemory::Refused(_)) => return Err(OrMemory::Refused(AskFault::NoEntry)),
            Err(OrMemory::Memory) => return Err(OrMemory::Memory),
        };
        match self.answer_request(rt, alloc, set, &request) {
            Ok(given) => Ok(given),
            Err(_) => Err(OrMemory::Memory),
        }
    }
}
