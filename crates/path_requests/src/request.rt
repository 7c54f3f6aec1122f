//! Requests, as values.
#![tactic(auto, unfolding(crate::specs::Asked::asked_in, crate::specs::Asked::paths_asked_in, crate::specs::Asked::value_asked, json_fields::specs::Fields::document_in,))]

ghost use Rattle.std.specs.Prelude.{◌≡◌, IfErr, OnOk};
ghost use Rattle.json_fields.specs.Documents.{document_data, node_data};
ghost use Rattle.refusal.specs.Refusal.{Reads};
ghost use Rattle.path_requests.specs.Asked.{MayWantMemory, asked_in, paths_asked_in, value_asked};

use crate::fault::{RequestError, RequestFault};
use crate::segment::segments;
use event_lines::fields::{read_address, read_options, read_u32};
use isd_as::IsdAs;
use json_fields::{Document, JsonRoom, Node};
use path_segment::Segment;
use policy_expr::OwnedOptionText;
use refusal::OrMemory;
use std::alloc::Global;
use std::marker::Model;

/// The largest number of bytes in a request. It bounds the memory of one, some 40 times its bytes.
pub const MAX_REQUEST_LEN: usize = 4_194_304;

/// The JSON value in the bytes of a request: [`RequestFault::BadRequest`] if they are more than
/// [`MAX_REQUEST_LEN`], or no JSON.
pub(crate) fn read_document<'a>(
    alloc: Global,
    room: &'a mut JsonRoom,
    bytes: &'a [u8],
) -> Result<Document<'a>, RequestError>
    ensures read { Reads (λ document. document_data document) result (value_asked bytes.now) }
    ensures known { OnOk result (MayWantMemory bytes.now) }
    ensures wanted { IfErr result (λ error. error ≡ OrMemory.Memory
        → MayWantMemory bytes.now) }
{
    if bytes.len() > MAX_REQUEST_LEN {
        return Err(OrMemory::Refused(RequestFault::BadRequest));
    }
    Ok(Document::read(alloc, room, bytes)?.ok_or(RequestFault::BadRequest)?)
}

/// The common part of all requests.
#[derive(Drop)]
pub(crate) struct Request {
    /// The source AS of the paths.
    pub(crate) src: IsdAs,
    /// The destination AS of the paths.
    pub(crate) dst: IsdAs,
    /// The policy options.
    pub(crate) options: Vec<OwnedOptionText>,
    /// The second for which paths are wanted.
    pub(crate) moment: u32,
    /// The known segments.
    pub(crate) segments: Vec<Segment>,
}

impl Model for Request {
    ghost use Rattle.path_requests.specs.Asked.{Asked};

    ghost Value = { Asked };

    ghost view = { λ r. record {
      src = r.src;
      dst = r.dst;
      options = r.options.items;
      moment = r.moment;
      segments = r.segments.items;
    } };
}

impl Request {
    /// The common part of a request from its JSON object: [`RequestFault::BadRequest`] if it has
    /// another form, [`RequestFault::Segment`] if a segment breaks a rule.
    ///
    /// It takes time and memory in proportion to the object.
    pub(crate) fn of(alloc: Global, object: &Node<'_, '_>) -> Result<Request, RequestError>
        ensures { Reads (λ r. r) result (asked_in (node_data object.now)) }
    {
        let options = read_options(alloc, object)?.ok_or(RequestFault::BadRequest)?;
        let src = read_address(object, "src").ok_or(RequestFault::BadRequest)?;
        let dst = read_address(object, "dst").ok_or(RequestFault::BadRequest)?;
        let moment = read_u32(object, "now").ok_or(RequestFault::BadRequest)?;
        let values = object.list("segments").ok_or(RequestFault::BadRequest)?;
        let segments = segments(alloc, values)?;
        Ok(Request {
            src,
            dst,
            options,
            moment,
            segments,
        })
    }
}

/// A request for paths.
#[derive(Drop)]
pub(crate) struct PathsRequest {
    /// The common part of all requests.
    pub(crate) asked: Request,
    /// The largest number of paths.
    pub(crate) limit: u32,
}

impl Model for PathsRequest {
    ghost use Rattle.path_requests.specs.Asked.{PathsAsked};

    ghost Value = { PathsAsked };

    ghost view = { λ r. record { asked = r.asked; limit = r.limit } };
}

impl PathsRequest {
    /// The request for paths in these bytes, with the refusals of [`Request::of`].
    pub(crate) fn read(alloc: Global, bytes: &[u8]) -> Result<PathsRequest, RequestError>
        ensures read { Reads (λ r. r) result (paths_asked_in bytes.now) }
        ensures known { OnOk result (MayWantMemory bytes.now) }
        ensures wanted { IfErr result (λ error. error ≡ OrMemory.Memory
            → MayWantMemory bytes.now) }
    {
        let mut room = JsonRoom::new(alloc);
        let document = read_document(alloc, &mut room, bytes)?;
        let object = document.root();
        let asked = Request::of(alloc, &object)?;
        let limit = read_u32(&object, "limit").ok_or(RequestFault::BadRequest)?;
        Ok(PathsRequest { asked, limit })
    }
}
