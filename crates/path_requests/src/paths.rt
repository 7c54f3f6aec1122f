//! Requests for paths.

ghost use Rattle.std.specs.Prelude.{◌≡◌, IfErr};
ghost use Rattle.path_requests.specs.Asked.{MayWantMemory};
ghost use Rattle.path_requests.specs.Answer.{AnswersPaths, AnswersUnder, options_of_request};
ghost use Rattle.path_requests.specs.Told.{Tells};

use crate::answer::{options, selection};
use crate::fault::RequestError;
use crate::request::PathsRequest;
use crate::text;
use combinator::combine;
use refusal::OrMemory;
use std::alloc::Global;

/// The answer to a request.
fn answer(alloc: Global, request: &PathsRequest) -> Result<String, RequestError>
    ensures { Tells (AnswersUnder request.now (options_of_request request.now)) result }
{
    let options = options(alloc, request)?;
    let asked = &request.asked;
    let set = selection(alloc, asked)?;
    let (src, dst, limit) = (asked.src, asked.dst, request.limit as usize);
    match combine(alloc, &set, src, dst, &options, limit) {
        Ok(list) => Ok(text::answer(alloc, &asked.segments, &list)?),
        // The request was judged when it was read, so only memory can be missing.
        Err(_) => Err(OrMemory::Memory),
    }
}

/// The answer to the request for paths in these bytes: the paths, best first, and which policy
/// option was used. For each path it has when the path expires, its header, its kind, its pieces
/// and its walk.
///
/// A request is a JSON object with the members of a line `ask` (`src`, `dst`, `limit`, and a
/// policy), and with `now` and the list `segments`. The paths are those of [`combinator::combine`]
/// over a lookup in a store in which each segment was registered at `now`.
///
/// The first of these refusals is returned: [`RequestFault::BadRequest`] if the bytes are more than
/// [`MAX_REQUEST_LEN`](crate::MAX_REQUEST_LEN) or have another form, [`RequestFault::Segment`] if a
/// segment breaks a rule, [`RequestFault::BadLimit`], [`RequestFault::Policy`] and
/// [`RequestFault::Ends`]. Memory can run out only if the bytes are UTF-8 and not too many.
pub fn paths_answer(alloc: Global, bytes: &[u8]) -> Result<String, RequestError>
    ensures told { Tells (AnswersPaths bytes.now) result }
    ensures wanted { IfErr result (λ error. error ≡ OrMemory.Memory
        → MayWantMemory bytes.now) }
{
    let request = PathsRequest::read(alloc, bytes)?;
    answer(alloc, &request)
}
