//! Requests to verify a path.
#![tactic(auto, unfolding(crate::specs::Given::given_in, crate::specs::Given::given_with, crate::specs::Given::request_at, crate::specs::Given::request_under,))]

ghost use Rattle.std.specs.Prelude.{◌≡◌, IfErr};
ghost use Rattle.json_fields.specs.Documents.{node_data};
ghost use Rattle.refusal.specs.Refusal.{Reads};
ghost use Rattle.path_verifier.specs.Accepted.{request_of};
ghost use Rattle.path_requests.specs.Asked.{MayWantMemory};
ghost use Rattle.path_requests.specs.Given.{given_of, policy_asked, request_at, request_under};
ghost use Rattle.path_requests.specs.Told.{Tells};
ghost use Rattle.path_requests.specs.Verdict.{AnswersVerdict, AnswersVerify, IsJudged};
ghost use Rattle.path_requests.specs.inner.Given.{AnswersGiven};

use crate::fault::{RequestError, RequestFault};
use crate::request::{Request, read_document};
use crate::stretch::{join, pieces};
use crate::text;
use event_lines::fields::read_bytes;
use json_fields::{JsonRoom, Node};
use path_header::{Header, decode};
use path_verifier::{Piece, Pieces, verify};
use policy_expr::{OptionFault, OwnedOptionText, Policy};
use refusal::OrMemory;
use std::alloc::Global;

/// The policy of the only option.
fn policy(alloc: Global, options: &[OwnedOptionText]) -> Result<Policy<Global>, RequestError>
    ensures { Reads (λ p. p) result (policy_asked options.now) }
{
    let texts = OwnedOptionText::lend_all(alloc, options)?;
    let [text] = texts.as_slice() else {
        return Err(OrMemory::Refused(RequestFault::BadRequest));
    };
    match Policy::parse(alloc, &text.text) {
        Ok(policy) => Ok(policy),
        Err(OrMemory::Memory) => Err(OrMemory::Memory),
        Err(OrMemory::Refused(fault)) => Err(OrMemory::Refused(RequestFault::Policy(
            OptionFault::Unread(fault),
        ))),
    }
}

/// The answer about a path of these pieces with this header, under a policy.
fn path_verdict(
    alloc: Global,
    request: &Request,
    pieces: &Pieces<'_>,
    header: &Header,
    policy: &Policy<Global>,
) -> Result<String, RequestError>
    ensures { let asked = request.now in
        Tells (IsJudged (request_of pieces.now header.now asked.src asked.dst asked.moment
        policy.now)) result }
{
    let (src, dst, now) = (request.src, request.dst, request.moment);
    match verify(pieces, header, src, dst, now, policy) {
        Ok(path) => Ok(text::verified_path(alloc, &path)?),
        Err(fault) => Err(OrMemory::Refused(RequestFault::Path(fault))),
    }
}

/// The answer under a policy about a path of these pieces, whose header is at the front of the
/// bytes.
fn verdict_under(
    alloc: Global,
    request: &Request,
    list: &[Piece<'_>],
    bytes: &[u8],
    policy: &Policy<Global>,
) -> Result<String, RequestError>
    ensures { Tells (AnswersVerdict
        (request_under policy.now (given_of request.now list.now bytes.now))) result }
{
    let header = match decode(bytes) {
        Ok((header, _)) => header,
        Err(fault) => return Err(OrMemory::Refused(RequestFault::Header(fault))),
    };
    let pieces = match join(list) {
        Ok(pieces) => pieces,
        Err(fault) => return Err(OrMemory::Refused(RequestFault::Path(fault))),
    };
    path_verdict(alloc, request, &pieces, &header, policy)
}

/// The answer about a path of these pieces, whose header is at the front of the bytes.
fn verdict_of(
    alloc: Global,
    request: &Request,
    list: &[Piece<'_>],
    bytes: &[u8],
) -> Result<String, RequestError>
    ensures { Tells
        (AnswersVerdict (request_at (given_of request.now list.now bytes.now))) result }
{
    let policy = policy(alloc, &request.options)?;
    verdict_under(alloc, request, list, bytes, &policy)
}

/// The answer to a request whose common part was read from this JSON object.
fn verdict_with(
    alloc: Global,
    request: &Request,
    object: &Node<'_, '_>,
) -> Result<String, RequestError>
    ensures { Tells (AnswersGiven request.now (node_data object.now)) result }
{
    let values = object.list("pieces").ok_or(RequestFault::BadRequest)?;
    let pieces = pieces(alloc, &request.segments, values)?.ok_or(RequestFault::BadRequest)?;
    let header = read_bytes(alloc, object, "header")?.ok_or(RequestFault::BadRequest)?;
    verdict_of(alloc, request, &pieces, &header)
}

/// The answer to the request in these bytes to verify a path: when the path expires, its kind and
/// its walk, if it may be sent.
///
/// A request is a JSON object with the members of a request for paths without `limit`, and with
/// `pieces` and `header`. The verdict is that of [`path_verifier::verify`] at `now`.
///
/// The first of these refusals is returned: [`RequestFault::BadRequest`] if the bytes are more than
/// [`MAX_REQUEST_LEN`](crate::MAX_REQUEST_LEN) or have another form, [`RequestFault::Segment`] if a
/// segment breaks a rule, [`RequestFault::Policy`], [`RequestFault::Header`], and
/// [`RequestFault::Path`] with the first rule that the path breaks. Memory can run out only if the
/// bytes are UTF-8 and not too many.
pub fn verdict_answer(alloc: Global, bytes: &[u8]) -> Result<String, RequestError>
    ensures told { Tells (AnswersVerify bytes.now) result }
    ensures wanted { IfErr result (λ error. error ≡ OrMemory.Memory
        → MayWantMemory bytes.now) }
{
    let mut room = JsonRoom::new(alloc);
    let document = read_document(alloc, &mut room, bytes)?;
    let object = document.root();
    let request = Request::of(alloc, &object)?;
    verdict_with(alloc, &request, &object)
}
