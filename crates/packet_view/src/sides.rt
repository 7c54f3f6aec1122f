//! The two sides of each check, as the parts of a line.
#![tactic(auto, unfolding(crate::specs::Sides::arrival_text, crate::specs::Sides::before_text, crate::specs::Sides::destination_sides, crate::specs::Sides::header_sides, crate::specs::Sides::kinds_sides, crate::specs::Sides::link_kind_text, crate::specs::Sides::link_sides, crate::specs::Sides::live_sides, crate::specs::Sides::mac_under, crate::specs::Sides::origin_text, crate::specs::Sides::owner_sides, crate::specs::Sides::owner_text, crate::specs::Sides::source_sides, crate::specs::Sides::switch_sides, crate::specs::Sides::way_in_sides, crate::specs::Sides::way_out_sides,))]

ghost use Rattle.std.specs.Prelude.{◌≡◌, ◌+◌, ◌<◌, ◌≤◌, length, slice_get};
ghost use Rattle.std.specs.Option.{option_copied};
ghost use Rattle.scion_topology.specs.Keys.{key_in_use};
ghost use Rattle.packet_view.specs.Sides.{arrival_text, before_text, destination_sides, header_sides, indices_sides, link_kind_text, kinds_sides, link_sides, live_sides, mac_sides, mac_under, origin_text, owner_sides, owner_text, source_sides, switch_sides, way_in_sides, way_out_sides};
ghost use Rattle.packet_view.specs.inner.Part.{part_text, parts_text};

use crate::fields::last_live;
use crate::part::{Part, lens_part, place_part};
use crate::situation::Situation;
use hop_mac::hop_mac;
use path_header::{HopField, InfoField};
use router_step::{Arrival, way_in, way_out};
use scion_topology::{IfEntry, LinkKind};

/// How the packet came.
fn arrival_part(arrival: Arrival) -> Part<'static>
    ensures { part_text result ≡ arrival_text arrival }
{
    match arrival {
        Arrival::FromHost => Part::Words("a host"),
        Arrival::Inside => Part::Words("inside the AS"),
        Arrival::Link(interface) => Part::Interface(interface),
    }
}

/// The kind of a link: what the AS at its far end is.
fn link_kind_text(kind: LinkKind) -> &'static str
    ensures { result.now ≡ link_kind_text kind }
{
    match kind {
        LinkKind::Core => "core",
        LinkKind::Parent => "parent",
        LinkKind::Child => "child",
    }
}

/// The router that owns an interface, if the AS has the interface.
fn owner_part(entry: Option<&IfEntry>) -> Part<'static>
    ensures { part_text result ≡ owner_text (option_copied entry.entry) }
{
    match entry {
        None => Part::Words("no router"),
        Some(entry) => Part::Router(entry.router),
    }
}

/// The length of the packet.
pub(crate) fn header_sides(packet: &[u8]) -> [Part<'static>; 3]
    ensures { parts_text result ≡ header_sides packet.now }
{
    [
        Part::Words("1 header: a packet of "),
        Part::Number(packet.len() as u64),
        Part::Words(" bytes"),
    ]
}

/// The router that owns the way out, and this one.
pub(crate) fn owner_sides(at: &Situation<'_>, out: &IfEntry) -> [Part<'static>; 4]
    ensures { parts_text result ≡ owner_sides at.entry.now.view out.now }
{
    [
        Part::Words("12 owner: router "),
        Part::Number(u64::from(out.router)),
        Part::Words(", this is router "),
        Part::Number(u64::from(at.view.router())),
    ]
}

/// The state of the link.
pub(crate) fn link_sides(up: bool) -> [Part<'static>; 1]
    ensures { parts_text result ≡ link_sides up }
{
    [Part::Words(if up { "13 link: up" } else { "13 link: down" })]
}

/// The packet's place, the segment lengths, and how the packet came.
pub(crate) fn indices_sides(at: &Situation<'_>) -> [Part<'static>; 8]
    ensures { parts_text result ≡ indices_sides at.entry.now.arrival at.entry.now.header }
{
    [
        Part::Words("2 indices: "),
        place_part(&at.header),
        Part::Words(" of segment "),
        Part::Number(at.segment() as u64),
        Part::Words("; "),
        lens_part(at.header.seg_lens()),
        Part::Words("; from "),
        arrival_part(at.arrival),
    ]
}

/// How the packet came, and the hop's way in.
pub(crate) fn way_in_sides(
    at: &Situation<'_>,
    info: &InfoField,
    hop: &HopField,
) -> [Part<'static>; 8]
    ensures { parts_text result
        ≡ way_in_sides at.entry.now.view at.entry.now.arrival info.now hop.now }
{
    let interface = way_in(info, hop);
    [
        Part::Words("3 way in: from "),
        arrival_part(at.arrival),
        Part::Words("; the way in is interface "),
        Part::Number(u64::from(interface.number())),
        Part::Words(" of "),
        owner_part(at.view.entry(interface)),
        Part::Words(", this is router "),
        Part::Number(u64::from(at.view.router())),
    ]
}

/// The last second at which the hop is live, and the current second.
pub(crate) fn live_sides(
    number: u8,
    now: u32,
    info: &InfoField,
    hop: &HopField,
) -> [Part<'static>; 5]
    ensures { parts_text result ≡ live_sides number now info.now hop.now }
{
    [
        Part::Number(u64::from(number)),
        Part::Words(" live: expires at "),
        Part::Number(last_live(info.timestamp, hop)),
        Part::Words(", now "),
        Part::Number(u64::from(now)),
    ]
}

/// The hop's authenticator under a key and the info field's accumulator.
fn mac_under(info: &InfoField, hop: &HopField, key: &[u8]) -> [u8; 6]
    requires { length key.now ≤ 64 }
    ensures { result ≡ mac_under info.now hop.now key.now }
{
    hop_mac(
        key,
        info.seg_id,
        info.timestamp,
        hop.exp_time,
        hop.cons_ingress.number(),
        hop.cons_egress.number(),
    )
}

/// The hop's authenticator under the key in use.
fn right_mac(at: &Situation<'_>, info: &InfoField, hop: &HopField) -> [u8; 6]
    ensures { result ≡ mac_under info.now hop.now (key_in_use at.entry.now.view.keys) }
{
    mac_under(info, hop, at.key_in_use())
}

/// The authenticator under the key before, if there is one.
fn before_part(at: &Situation<'_>, info: &InfoField, hop: &HopField) -> Part<'static>
    ensures { part_text result
        ≡ before_text info.now hop.now (slice_get at.entry.now.view.keys 1) }
{
    at.view.known();
    match at.view.previous() {
        None => Part::Words(""),
        Some(key) => Part::MacBefore(mac_under(info, hop, key)),
    }
}

/// The packet's authenticator, and the right ones, under all accepted keys.
pub(crate) fn mac_sides(
    number: u8,
    at: &Situation<'_>,
    info: &InfoField,
    hop: &HopField,
) -> [Part<'static>; 7]
    ensures { parts_text result ≡ mac_sides number at.entry.now.view info.now hop.now }
{
    [
        Part::Number(u64::from(number)),
        Part::Words(" authenticator: packet "),
        Part::Mac(hop.mac),
        Part::Words(", "),
        Part::Words("right under the key in use: "),
        Part::Mac(right_mac(at, info, hop)),
        before_part(at, info, hop),
    ]
}

/// The source, how the packet came, and this AS.
pub(crate) fn source_sides(at: &Situation<'_>) -> [Part<'static>; 6]
    ensures { parts_text result
        ≡ source_sides at.entry.now.view at.entry.now.arrival at.entry.now.source }
{
    [
        Part::Words("6 source: "),
        Part::Address(at.source),
        Part::Words(" from "),
        arrival_part(at.arrival),
        Part::Words("; this is "),
        Part::Address(at.view.ia()),
    ]
}

/// The destination, this AS, and the packet's place on its path.
pub(crate) fn destination_sides(at: &Situation<'_>) -> [Part<'static>; 8]
    ensures { parts_text result
        ≡ destination_sides at.entry.now.view at.entry.now.destination at.entry.now.header }
{
    [
        Part::Words("7 destination: "),
        Part::Address(at.destination),
        Part::Words("; this is "),
        Part::Address(at.view.ia()),
        Part::Words(", at hop "),
        Part::Number(at.header.curr_hf() as u64 + 1),
        Part::Words(" of "),
        Part::Number(at.header.hop_count() as u64),
    ]
}

/// The segment of the packet, that of its next hop, and how the packet came.
pub(crate) fn switch_sides(at: &Situation<'_>) -> [Part<'static>; 6]
    requires { at.now.header.curr_hf + 1 < length at.now.header.hops }
    ensures { parts_text result ≡ switch_sides at.entry.now.arrival at.entry.now.header }
{
    [
        Part::Words("9 switch: from segment "),
        Part::Number(at.header.curr_inf() as u64),
        Part::Words(" to "),
        Part::Number(at.header.segment_of(at.header.curr_hf() + 1) as u64),
        Part::Words("; from "),
        arrival_part(at.arrival),
    ]
}

/// The way out, and the router that owns it.
pub(crate) fn way_out_sides(
    at: &Situation<'_>,
    info: &InfoField,
    hop: &HopField,
) -> [Part<'static>; 4]
    ensures { parts_text result ≡ way_out_sides at.entry.now.view info.now hop.now }
{
    let interface = way_out(info, hop);
    [
        Part::Words("10 way out: interface "),
        Part::Number(u64::from(interface.number())),
        Part::Words(" of "),
        owner_part(at.view.entry(interface)),
    ]
}

/// The kind of the link by which the packet came.
fn origin_text(at: &Situation<'_>) -> &'static str
    ensures { result.now ≡ origin_text at.entry.now.view at.entry.now.arrival }
{
    match at.arrival {
        Arrival::FromHost => "a host",
        Arrival::Inside => "inside the AS",
        Arrival::Link(interface) => match at.view.entry(interface) {
            None => "no link",
            Some(entry) => link_kind_text(entry.kind),
        },
    }
}

/// The kinds of the links in and out, and whether there is a switch between them.
pub(crate) fn kinds_sides(at: &Situation<'_>, switched: bool, out: LinkKind) -> [Part<'static>; 5]
    ensures { parts_text result
        ≡ kinds_sides at.entry.now.view at.entry.now.arrival switched out }
{
    [
        Part::Words("11 link kinds: from "),
        Part::Words(origin_text(at)),
        Part::Words(" to "),
        Part::Words(link_kind_text(out)),
        Part::Words(if switched { ", with a switch" } else { "" }),
    ]
}
