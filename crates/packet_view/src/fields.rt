//! The fields of a packet, each on a line: its bytes in hexadecimal, and their meaning.

ghost use Rattle.std.specs.Prelude.{◌≡◌, ◌+◌, ◌<◌, ◌≤◌, ◌++◌, length, codes, IfOk, OnOk};
ghost use Rattle.std.specs.String.{string_bytes};
ghost use Rattle.path_header.specs.Value.{header_len};
ghost use Rattle.packet_view.specs.Fields.{address_text, addresses_text, behind_text, field_text, fields_text, flag_of, header_text, hop_field_text, hop_field_text_at, hop_fields_text, info_field_text, info_field_text_at, info_fields_text, last_live, mac_text, meta_text, number_text, payload_text};
ghost use Rattle.packet_view.specs.inner.Part.{parts_text};
ghost use Rattle.router_step.specs.Packet.{header_in};

use crate::part::{Part, add_hex, add_parts, lens_part, place_part};
use hop_mac::expiry;
use isd_as::IsdAs;
use path_header::{HOP_LEN, Header, HopField, INFO_LEN, InfoField, META_LEN};
use router_step::{ADDRESSES_LEN, destination_in, read_header, source_in};
use std::alloc::{AllocError, Global};

/// Where the fields after the meta field begin.
const FIELDS_START: usize = ADDRESSES_LEN + META_LEN;

/// Adds the line of `len` bytes of the packet from this place on, with their meaning.
#[tactic(auto, unfolding(crate::specs::Fields::field_text))]
pub(crate) fn add_field(
    alloc: Global,
    text: &mut String,
    packet: &[u8],
    start: usize,
    len: usize,
    says: &[Part<'_>],
) -> Result<(), AllocError>
    requires { start + len ≤ length packet.now }
    ensures { OnOk result (string_bytes text.new
        ≡ string_bytes text.old ++ field_text packet.now start len (parts_text says.now)) }
{
    let (_, rest) = packet.split_at(start);
    let (bytes, _) = rest.split_at(len);
    add_hex(alloc, text, bytes)?;
    text.push_str(" ")?;
    add_parts(alloc, text, says)?;
    text.push_str("\n")
}

/// Adds the line of an address.
#[tactic(auto, unfolding(crate::specs::Fields::address_text))]
fn add_address(
    alloc: Global,
    text: &mut String,
    packet: &[u8],
    start: usize,
    name: &str,
    address: IsdAs,
) -> Result<(), AllocError>
    requires { start + 8 ≤ length packet.now }
    ensures { OnOk result (string_bytes text.new
        ≡ string_bytes text.old ++ address_text packet.now start name.now address) }
{
    let says = [Part::Words(name), Part::Words(" "), Part::Address(address)];
    add_field(alloc, text, packet, start, 8, &says)
}

/// Adds the lines of both addresses.
#[tactic(auto, unfolding(crate::specs::Fields::addresses_text))]
pub(crate) fn add_addresses(
    alloc: Global,
    text: &mut String,
    packet: &[u8],
) -> Result<(), AllocError>
    requires { 16 ≤ length packet.now }
    ensures { OnOk result (string_bytes text.new
        ≡ string_bytes text.old ++ addresses_text packet.now) }
{
    let destination = destination_in(packet);
    add_address(alloc, text, packet, 0, "destination", destination)?;
    add_address(alloc, text, packet, 8, "source", source_in(packet))
}

/// Adds the lines of the meta field.
#[tactic(auto, unfolding(crate::specs::Fields::meta_text))]
fn add_meta(
    alloc: Global,
    text: &mut String,
    packet: &[u8],
    header: &Header,
) -> Result<(), AllocError>
    requires { 20 ≤ length packet.now }
    ensures { OnOk result (string_bytes text.new
        ≡ string_bytes text.old ++ meta_text packet.now header.now) }
{
    add_field(alloc, text, packet, 16, 1, &[place_part(header)])?;
    add_field(alloc, text, packet, 17, 3, &[lens_part(header.seg_lens())])
}

/// 1 if the segment is travelled in construction direction, else 0.
fn flag_of(info: &InfoField) -> u64
    ensures { result ≡ flag_of info.now }
{
    if info.construction { 1 } else { 0 }
}

/// The last second at which a hop of a segment with this timestamp is live.
pub(crate) fn last_live(timestamp: u32, hop: &HopField) -> u64
    ensures { result ≡ last_live timestamp hop.now }
{
    expiry(timestamp, hop.exp_time) / 2
}

/// An info or a hop field of a packet: its kind, its index among those of the kind, and the place
/// of its first byte.
#[derive(Clone, Copy)]
struct Field<'a> {
    alloc: Global,
    packet: &'a [u8],
    kind: &'a str,
    index: usize,
    start: usize,
}

impl<'a> Field<'a> {
    /// Adds the line of a number in the field, from this place on.
    #[tactic(auto, unfolding(crate::specs::Fields::number_text))]
    fn add_number(
        &self,
        text: &mut String,
        start: usize,
        len: usize,
        name: &'a str,
        value: u64,
    ) -> Result<(), AllocError>
        requires { start + len ≤ length self.now.packet.now }
        ensures { OnOk result (string_bytes text.new ≡ string_bytes text.old
            ++ number_text self.now.packet.now start len self.now.kind.now self.now.index
            name.now value) }
    {
        let says = [
            Part::Words(self.kind),
            Part::Words(" "),
            Part::Number(self.index as u64),
            Part::Words(" "),
            Part::Words(name),
            Part::Words(" "),
            Part::Number(value),
        ];
        add_field(self.alloc, text, self.packet, start, len, &says)
    }

    /// Adds the lines of an info field.
    fn add_info(&self, text: &mut String, info: &InfoField) -> Result<(), AllocError>
        requires whole { self.now.start + 8 ≤ length self.now.packet.now }
        requires kind { self.now.kind.now ≡ codes "info" }
        ensures { OnOk result (string_bytes text.new ≡ string_bytes text.old
            ++ info_field_text self.now.packet.now self.now.start self.now.index info.now) }
    {
        let start = self.start;
        self.add_number(text, start, 2, "construction direction", flag_of(info))?;
        self.add_number(text, start + 2, 2, "accumulator", u64::from(info.seg_id))?;
        self.add_number(
            text,
            start + 4,
            4,
            "made at second",
            u64::from(info.timestamp),
        )
    }

    /// Adds the line of the authenticator of a hop field.
    #[tactic(auto, unfolding(crate::specs::Fields::mac_text))]
    fn add_mac(&self, text: &mut String) -> Result<(), AllocError>
        requires { self.now.start + 12 ≤ length self.now.packet.now }
        ensures { OnOk result (string_bytes text.new ≡ string_bytes text.old
            ++ mac_text self.now.packet.now (self.now.start + 6) self.now.index) }
    {
        let says = [
            Part::Words("hop "),
            Part::Number(self.index as u64),
            Part::Words(" authenticator"),
        ];
        add_field(self.alloc, text, self.packet, self.start + 6, 6, &says)
    }

    /// Adds the lines of a hop field on a segment with this timestamp.
    fn add_hop(&self, text: &mut String, timestamp: u32, hop: &HopField) -> Result<(), AllocError>
        requires whole { self.now.start + 12 ≤ length self.now.packet.now }
        requires kind { self.now.kind.now ≡ codes "hop" }
        ensures { OnOk result (string_bytes text.new ≡ string_bytes text.old
            ++ hop_field_text self.now.packet.now self.now.start self.now.index timestamp
            hop.now) }
    {
        let start = self.start;
        self.add_number(text, start, 1, "flags", 0)?;
        self.add_number(
            text,
            start + 1,
            1,
            "live up to second",
            last_live(timestamp, hop),
        )?;
        let ingress = u64::from(hop.cons_ingress.number());
        self.add_number(text, start + 2, 2, "construction ingress", ingress)?;
        let egress = u64::from(hop.cons_egress.number());
        self.add_number(text, start + 4, 2, "construction egress", egress)?;
        self.add_mac(text)
    }
}

/// Adds the lines of the info field of this index of a header.
fn add_info_at(
    alloc: Global,
    text: &mut String,
    packet: &[u8],
    header: &Header,
    index: usize,
) -> Result<(), AllocError>
    requires within { index < length header.now.infos }
    requires whole { 16 + header_len header.now ≤ length packet.now }
    ensures { OnOk result (string_bytes text.new
        ≡ string_bytes text.old ++ info_field_text_at packet.now header.now index) }
{
    header.known();
    let field = Field {
        alloc,
        packet,
        kind: "info",
        index,
        start: FIELDS_START + INFO_LEN * index,
    };
    field.add_info(text, &header.info(index))
}

/// The info fields.
#[tactic(auto, unfolding(crate::specs::Fields::each_below, crate::specs::Fields::info_fields_text))]
fn info_fields_text(alloc: Global, packet: &[u8], header: &Header) -> Result<String, AllocError>
    requires { 16 + header_len header.now ≤ length packet.now }
    ensures { IfOk result (λ text. string_bytes text
        ≡ info_fields_text packet.now header.now (length header.now.infos)) }
{
    let mut text = String::new(alloc);
    for index in 0..header.info_count() {
        add_info_at(alloc, &mut text, packet, header, index)?;
    }
    Ok(text)
}

/// Adds the lines of the hop field of this index of a header.
fn add_hop_at(
    alloc: Global,
    text: &mut String,
    packet: &[u8],
    header: &Header,
    index: usize,
) -> Result<(), AllocError>
    requires within { index < length header.now.hops }
    requires whole { 16 + header_len header.now ≤ length packet.now }
    ensures { OnOk result (string_bytes text.new
        ≡ string_bytes text.old ++ hop_field_text_at packet.now header.now index) }
{
    header.known();
    let timestamp = header.info(header.segment_of(index)).timestamp;
    let field = Field {
        alloc,
        packet,
        kind: "hop",
        index,
        start: FIELDS_START + INFO_LEN * header.info_count() + HOP_LEN * index,
    };
    field.add_hop(text, timestamp, &header.hop(index))
}

/// The hop fields.
#[tactic(auto, unfolding(crate::specs::Fields::each_below, crate::specs::Fields::hop_fields_text))]
fn hop_fields_text(alloc: Global, packet: &[u8], header: &Header) -> Result<String, AllocError>
    requires { 16 + header_len header.now ≤ length packet.now }
    ensures { IfOk result (λ text. string_bytes text
        ≡ hop_fields_text packet.now header.now (length header.now.hops)) }
{
    let mut text = String::new(alloc);
    for index in 0..header.hop_count() {
        add_hop_at(alloc, &mut text, packet, header, index)?;
    }
    Ok(text)
}

/// Adds the line of the payload, if there is one.
#[tactic(auto, unfolding(crate::specs::Fields::payload_text))]
fn add_payload(
    alloc: Global,
    text: &mut String,
    packet: &[u8],
    start: usize,
) -> Result<(), AllocError>
    requires { start ≤ length packet.now }
    ensures { OnOk result (string_bytes text.new
        ≡ string_bytes text.old ++ payload_text packet.now start) }
{
    if start < packet.len() {
        let says = [Part::Words("payload")];
        add_field(alloc, text, packet, start, packet.len() - start, &says)
    } else {
        Ok(())
    }
}

/// Adds the lines of a path header.
fn add_header(
    alloc: Global,
    text: &mut String,
    packet: &[u8],
    header: &Header,
) -> Result<(), AllocError>
    requires { 16 + header_len header.now ≤ length packet.now }
    ensures { OnOk result (string_bytes text.new ≡ string_bytes text.old
        ++ header_text packet.now header.now) }
{
    add_meta(alloc, text, packet, header)?;
    text.push_str(info_fields_text(alloc, packet, header)?.as_str())?;
    text.push_str(hop_fields_text(alloc, packet, header)?.as_str())
}

/// Adds the lines after the addresses: of a path header and a payload.
#[tactic(auto, unfolding(crate::specs::Fields::behind_text))]
pub(crate) fn add_behind(alloc: Global, text: &mut String, packet: &[u8]) -> Result<(), AllocError>
    requires { 16 ≤ length packet.now }
    ensures { OnOk result (string_bytes text.new
        ≡ string_bytes text.old ++ behind_text packet.now (header_in packet.now)) }
{
    let Ok((header, len)) = read_header(packet) else {
        let rest = packet.len() - ADDRESSES_LEN;
        let says = [Part::Words("no path header")];
        return add_field(alloc, text, packet, ADDRESSES_LEN, rest, &says);
    };
    add_header(alloc, text, packet, &header)?;
    add_payload(alloc, text, packet, ADDRESSES_LEN + len)
}

/// The fields of a packet, each on a line with its bytes in hexadecimal: addresses, meta field,
/// info fields, hop fields and payload. If the packet has no addresses or no path header, the lines
/// say so. `AllocError` if memory runs out.
#[tactic(auto, unfolding(crate::specs::Fields::fields_text))]
pub fn fields_text(alloc: Global, packet: &[u8]) -> Result<String, AllocError>
    ensures { IfOk result (λ text. string_bytes text ≡ fields_text packet.now) }
{
    let mut text = String::new(alloc);
    if packet.len() < ADDRESSES_LEN {
        let says = [Part::Words("no addresses")];
        add_field(alloc, &mut text, packet, 0, packet.len(), &says)?;
        return Ok(text);
    }
    add_addresses(alloc, &mut text, packet)?;
    add_behind(alloc, &mut text, packet)?;
    Ok(text)
}
