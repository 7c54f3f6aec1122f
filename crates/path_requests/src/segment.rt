//! The segments of a request.

ghost use Rattle.json_fields.specs.Documents.{list_items, node_data};
ghost use Rattle.refusal.specs.Refusal.{Reads};
ghost use Rattle.path_requests.specs.Asked.{each_item, segment_asked};

use crate::fault::{RequestError, RequestFault};
use json_fields::{Node, NodeList};
use path_segment::Segment;
use refusal::OrMemory;
use std::alloc::Global;

/// The segments of a list, or the refusal of the first value that is no segment.
pub(crate) fn segments(
    alloc: Global,
    values: NodeList<'_, '_>,
) -> Result<Vec<Segment>, RequestError>
    ensures { Reads (λ v. v.items) result (each_item segment_asked (list_items values.entry)) }
{
    let mut segments = Vec::new(alloc);
    let mut left = values;
    while let Some((value, later)) = left.split_first() {
        segments.push(segment(alloc, &value)?)?;
        left = later;
    }
    Ok(segments)
}

/// The segment of a JSON value, or why it is refused.
fn segment(alloc: Global, object: &Node<'_, '_>) -> Result<Segment, RequestError>
    ensures { Reads (λ s. s) result (segment_asked (node_data object.now)) }
{
    match Segment::from_object(alloc, object) {
        Ok(segment) => Ok(segment),
        Err(OrMemory::Memory) => Err(OrMemory::Memory),
        Err(OrMemory::Refused(fault)) => { Err(OrMemory::Refused(RequestFault::of_segment(fault))) }
    }
}
