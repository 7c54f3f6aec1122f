//! The paths in the answer to a request.
#![tactic(auto, unfolding(crate::specs::Answer::options_of_request))]

ghost use Rattle.std.specs.Prelude.{◌≡◌, ◌<◌, [], Ok, IfOk, OnOk};
ghost use Rattle.refusal.specs.Refusal.{Reads};
ghost use Rattle.combinator.specs.Fault.{ends_at};
ghost use Rattle.path_requests.specs.Answer.{options_of_request, selection_of, with_all_registered};

use crate::fault::{RequestError, RequestFault};
use crate::request::{PathsRequest, Request};
use combinator::{CombineFault, is_limit};
use path_segment::Segment;
use path_server::{PathStore, SegmentSet, StoreOp};
use policy_expr::{OwnedOptionText, PolicyOption};
use refusal::OrMemory;
use std::alloc::{AllocError, Global};

/// The options of a request, or its first refusal.
pub(crate) fn options(
    alloc: Global,
    request: &PathsRequest,
) -> Result<Vec<PolicyOption<Global>>, RequestError>
    ensures read { Reads (λ options. options.items) result (options_of_request request.now) }
    ensures some { OnOk result (0 < request.now.limit) }
    ensures ends { OnOk result (ends_at request.now.asked.src request.now.asked.dst ≡ Ok tt) }
{
    if !is_limit(request.limit as usize) {
        return Err(OrMemory::Refused(RequestFault::BadLimit));
    }
    let texts = OwnedOptionText::lend_all(alloc, &request.asked.options)?;
    let options = match PolicyOption::parse_all(alloc, &texts) {
        Ok(options) => options,
        Err(OrMemory::Memory) => return Err(OrMemory::Memory),
        Err(OrMemory::Refused(fault)) => {
            return Err(OrMemory::Refused(RequestFault::Policy(fault)));
        }
    };
    if request.asked.src == request.asked.dst {
        return Err(OrMemory::Refused(RequestFault::Ends(CombineFault::SameAs)));
    }
    Ok(options)
}

/// The store after each segment was registered, in their order.
fn store_of(alloc: Global, segments: &[Segment], moment: u32) -> Result<PathStore, AllocError>
    ensures { IfOk result (λ store. store ≡ with_all_registered moment [] segments.now) }
{
    let mut store = PathStore::new(alloc);
    for segment in segments {
        let own = segment.try_clone()?;
        store.apply(&StoreOp::Register(own, moment))?;
    }
    Ok(store)
}

/// The lookup for a request.
pub(crate) fn selection(alloc: Global, request: &Request) -> Result<SegmentSet, AllocError>
    ensures { IfOk result (λ set. set ≡ selection_of request.now) }
{
    let moment = request.moment;
    let store = store_of(alloc, &request.segments, moment)?;
    store.segments_for(alloc, request.src, request.dst, moment)
}
