#![tactic(auto, unfolding(crate::specs::Reading::any_address_in, crate::specs::Reading::chain_at, crate::specs::Reading::entry_in, crate::specs::Reading::mac_at, crate::specs::Reading::segment_kind_at, json_fields::specs::Fields::document_in,))]

ghost use Rattle.std.specs.Prelude.{◌≡◌, IfErr, IsTrue};
ghost use Rattle.std.specs.Str.{is_utf8};
ghost use Rattle.json_fields.specs.Documents.{node_data};
ghost use Rattle.refusal.specs.Refusal.{Reads};
ghost use Rattle.path_segment.specs.Reading.{any_address_in, mac_at, segment_kind_at, entry_in, HasMembers, chain_at, chain_or_fault, segment_in};

use crate::entry::Entry;
use crate::fault::{SegmentError, SegmentFault};
use crate::kind::SegKind;
use crate::segment::Segment;
use hex::FromHex;
use isd_as::{IfId, IsdAs};
use json_fields::{Document, JsonRoom, Node, items};
use refusal::OrMemory;
use std::alloc::Global;

impl Segment {
    /// The segment that a JSON text describes.
    ///
    /// An object with `kind` (`core` or `intra`), `timestamp` (0 to 4294967295), `beta0` (0 to
    /// 65535) and the list `entries`. An entry has `ia` (an address), `ingress` and `egress` (0 to
    /// 65535), `exp` (0 to 255) and `mac` (12 hexadecimal digits). Members beside these are
    /// ignored.
    ///
    /// [`SegmentFault::NotJson`] if the text is not of this form, and then the refusals of
    /// [`Segment::new`]. Running out of memory is [`OrMemory::Memory`], which comes only if the
    /// bytes are UTF-8.
    pub fn from_json(alloc: Global, bytes: &[u8]) -> Result<Segment, SegmentError>
        ensures value { Reads (λ s. s) result (segment_in bytes.now) }
        ensures wanted { IfErr result (λ error. error ≡ OrMemory.Memory
            → IsTrue (is_utf8 bytes.now)) }
    {
        let mut room = JsonRoom::new(alloc);
        let document = Document::read(alloc, &mut room, bytes)?.ok_or(SegmentFault::NotJson)?;
        Segment::from_object(alloc, &document.root())
    }

    /// The segment that an object of a JSON text describes, in the form and with the refusals of
    /// [`Segment::from_json`]; or memory runs out, which it can only if `kind`, `timestamp` and
    /// `beta0` are right and `entries` is a list.
    pub fn from_object(alloc: Global, object: &Node<'_, '_>) -> Result<Segment, SegmentError>
        ensures value { Reads (λ s. s) result (chain_or_fault (chain_at (node_data object.now))) }
        ensures wanted { IfErr result (λ error. error ≡ OrMemory.Memory
            → HasMembers (node_data object.now)) }
    {
        let kind = kind(object, "kind").ok_or(SegmentFault::NotJson)?;
        let timestamp = object
            .whole("timestamp", 0, 4_294_967_295)
            .ok_or(SegmentFault::NotJson)?;
        let beta0 = object
            .whole("beta0", 0, 65535)
            .ok_or(SegmentFault::NotJson)?;
        let values = object.list("entries").ok_or(SegmentFault::NotJson)?;
        let entries = items(alloc, values, entry_of)?.ok_or(SegmentFault::NotJson)?;
        Segment::new(kind, timestamp as u32, beta0 as u16, entries)
    }
}

/// The entry of a JSON object.
fn entry_of(object: &Node<'_, '_>) -> Option<Entry>
    ensures { result ≡ entry_in (node_data object.now) }
{
    let ia = address(object, "ia")?;
    let cons_ingress = object.whole("ingress", 0, 65535)?;
    let cons_egress = object.whole("egress", 0, 65535)?;
    let exp_time = object.whole("exp", 0, 255)?;
    let mac = mac(object, "mac")?;
    Some(Entry {
        ia,
        cons_ingress: IfId(cons_ingress as u16),
        cons_egress: IfId(cons_egress as u16),
        exp_time: exp_time as u8,
        mac,
    })
}

/// A member whose value is an address.
fn address(object: &Node<'_, '_>, name: &str) -> Option<IsdAs>
    ensures { result ≡ any_address_in name.now (node_data object.now) }
{
    let text = object.text(name)?;
    IsdAs::parse(text).ok()
}

/// A member whose value is an authenticator in hexadecimal.
fn mac(object: &Node<'_, '_>, name: &str) -> Option<[u8; 6]>
    ensures { result ≡ mac_at name.now (node_data object.now) }
{
    let text = object.text(name)?;
    <[u8; 6] as FromHex>::from_hex(text).ok()
}

/// A member whose value is the name of a kind.
fn kind(object: &Node<'_, '_>, name: &str) -> Option<SegKind>
    ensures { result ≡ segment_kind_at name.now (node_data object.now) }
{
    let text = object.text(name)?;
    match text {
        "core" => Some(SegKind::Core),
        "intra" => Some(SegKind::Intra),
        _ => None,
    }
}
