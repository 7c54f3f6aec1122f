//! The fields of a whole packet.

ghost use Rattle.std.specs.Prelude.{◌≡◌, ◌+◌, ◌*◌, ◌≤◌, ◌++◌, length, slice_index, take, drop, IfOk, OnOk};
ghost use Rattle.std.specs.Fmt.{decimal};
ghost use Rattle.std.specs.String.{string_bytes};
ghost use Rattle.scion_packet.specs.Layout.{announced_len, announced_payload, destination_host_len, path_place, source_host_len};
ghost use Rattle.scion_packet.specs.Reading.{whole_packet_at};
ghost use Rattle.packet_view.specs.Fields.{field_text};
ghost use Rattle.packet_view.specs.Whole.{announced_text, behind_common_text, common_back_text, common_front_text, first_text, host_types_text, hosts_text, lengths_text, packet_fault_line, whole_fields_text, whole_lines_behind};

use crate::fields::{add_addresses, add_behind, add_field};
use crate::part::Part;
use refusal::NumberedFault;
use router_step::Refusal;
use scion_packet::{PacketFault, PacketInfo, read};
use std::alloc::{AllocError, Global};
use step_line::refusal_line;

/// The length of a common header.
const COMMON_LEN: usize = 12;

/// Where the addresses of the hosts begin.
const HOSTS_START: usize = 28;

/// The lengths of the addresses of the destination host and of the source host.
fn host_lens(packet: &[u8]) -> (usize, usize)
    requires { 12 ≤ length packet.now }
    ensures destination { result.0 ≡ destination_host_len packet.now }
    ensures source { result.1 ≡ source_host_len packet.now }
{
    let types = packet[9];
    let destination = 4 + 4 * usize::from(types / 16 % 4);
    let source = 4 + 4 * usize::from(types % 4);
    (destination, source)
}

/// The length of all headers that the packet announces.
fn announced_len(packet: &[u8]) -> usize
    requires { 12 ≤ length packet.now }
    ensures { result ≡ announced_len packet.now }
{
    4 * usize::from(packet[5])
}

/// The number of bytes of payload that the packet announces.
fn announced_payload(packet: &[u8]) -> usize
    requires { 12 ≤ length packet.now }
    ensures { result ≡ announced_payload packet.now }
{
    usize::from(u16::from_be_bytes([packet[6], packet[7]]))
}

/// Bytes that have the length of a common header, and how memory is taken.
#[derive(Clone, Copy)]
struct Common<'a> {
    alloc: Global,
    packet: &'a [u8],
}

impl<'a> Common<'a> {
    /// Adds the line of the first four bytes.
    fn add_first(&self, text: &mut String) -> Result<(), AllocError>
        requires { 12 ≤ length self.now.packet.now }
        ensures { OnOk result (string_bytes text.new ≡ string_bytes text.old
            ++ field_text self.now.packet.now 0 4 (first_text self.now.packet.now)) }
    {
        let packet = self.packet;
        let word = u32::from_be_bytes([packet[0], packet[1], packet[2], packet[3]]);
        let says = [
            Part::Words("version "),
            Part::Number(u64::from(word >> 28)),
            Part::Words(", traffic class "),
            Part::Number(u64::from((word >> 20) % 256)),
            Part::Words(", flow "),
            Part::Number(u64::from(word % (1 << 20))),
        ];
        add_field(self.alloc, text, packet, 0, 4, &says)
    }

    /// Adds the line of the types and the lengths of both hosts' addresses.
    fn add_host_types(&self, text: &mut String) -> Result<(), AllocError>
        requires { 12 ≤ length self.now.packet.now }
        ensures { OnOk result (string_bytes text.new ≡ string_bytes text.old
            ++ field_text self.now.packet.now 9 1 (host_types_text self.now.packet.now)) }
    {
        let types = self.packet[9];
        let (destination, source) = host_lens(self.packet);
        let says = [
            Part::Words("destination host of "),
            Part::HostKind(types / 64, destination),
            Part::Words("; source host of "),
            Part::HostKind(types / 4 % 4, source),
        ];
        add_field(self.alloc, text, self.packet, 9, 1, &says)
    }

    /// Adds the line of a number of bytes that the packet announces.
    fn add_announced(
        &self,
        text: &mut String,
        start: usize,
        len: usize,
        name: &'a str,
        count: usize,
    ) -> Result<(), AllocError>
        requires { start + len ≤ length self.now.packet.now }
        ensures { OnOk result (string_bytes text.new ≡ string_bytes text.old
            ++ field_text self.now.packet.now start len
            (announced_text name.now count)) }
    {
        let says = [
            Part::Words(name),
            Part::Number(count as u64),
            Part::Words(" bytes"),
        ];
        add_field(self.alloc, text, self.packet, start, len, &says)
    }

    /// Adds the line of one byte, which is a number.
    fn add_byte(&self, text: &mut String, start: usize, name: &'a str) -> Result<(), AllocError>
        requires { start + 1 ≤ length self.now.packet.now }
        ensures { OnOk result (string_bytes text.new ≡ string_bytes text.old
            ++ field_text self.now.packet.now start 1
            (name.now ++ decimal (slice_index self.now.packet.now start))) }
    {
        let says = [
            Part::Words(name),
            Part::Number(u64::from(self.packet[start])),
        ];
        add_field(self.alloc, text, self.packet, start, 1, &says)
    }

    /// Adds the lines of both lengths.
    #[tactic(auto, unfolding(crate::specs::Whole::lengths_text))]
    fn add_lengths(&self, text: &mut String) -> Result<(), AllocError>
        requires { 12 ≤ length self.now.packet.now }
        ensures { OnOk result (string_bytes text.new
            ≡ string_bytes text.old ++ lengths_text self.now.packet.now) }
    {
        let headers = announced_len(self.packet);
        let payload = announced_payload(self.packet);
        self.add_announced(text, 5, 1, "headers of ", headers)?;
        self.add_announced(text, 6, 2, "payload of ", payload)
    }

    /// Adds the lines of the first eight bytes.
    #[tactic(auto, unfolding(crate::specs::Whole::common_front_text))]
    fn add_front(&self, text: &mut String) -> Result<(), AllocError>
        requires { 12 ≤ length self.now.packet.now }
        ensures { OnOk result (string_bytes text.new
            ≡ string_bytes text.old ++ common_front_text self.now.packet.now) }
    {
        self.add_first(text)?;
        self.add_byte(text, 4, "next header ")?;
        self.add_lengths(text)
    }

    /// Adds the lines of the next four.
    #[tactic(auto, unfolding(crate::specs::Whole::common_back_text))]
    fn add_back(&self, text: &mut String) -> Result<(), AllocError>
        requires { 12 ≤ length self.now.packet.now }
        ensures { OnOk result (string_bytes text.new
            ≡ string_bytes text.old ++ common_back_text self.now.packet.now) }
    {
        self.add_byte(text, 8, "path of type ")?;
        self.add_host_types(text)?;
        add_field(
            self.alloc,
            text,
            self.packet,
            10,
            2,
            &[Part::Words("reserved")],
        )
    }
}

/// Adds the lines of both hosts' addresses.
#[tactic(auto, unfolding(crate::specs::Whole::hosts_text))]
fn add_hosts(
    alloc: Global,
    text: &mut String,
    packet: &[u8],
    info: &PacketInfo,
) -> Result<(), AllocError>
    requires common { 12 ≤ length packet.now }
    requires place { path_place packet.now ≤ length packet.now }
    ensures { OnOk result (string_bytes text.new
        ≡ string_bytes text.old ++ hosts_text packet.now info.now) }
{
    let (destination, source) = host_lens(packet);
    let says = [
        Part::Words("destination host "),
        Part::Host(info.destination_host()),
    ];
    add_field(alloc, text, packet, HOSTS_START, destination, &says)?;
    let says = [Part::Words("source host "), Part::Host(info.source_host())];
    add_field(
        alloc,
        text,
        packet,
        HOSTS_START + destination,
        source,
        &says,
    )
}

/// The frame of a whole packet.
pub(crate) fn frame_in(alloc: Global, packet: &[u8]) -> Result<Vec<u8>, AllocError>
    requires common { 12 ≤ length packet.now }
    requires place { path_place packet.now ≤ length packet.now }
    ensures value { IfOk result (λ frame. frame.items
        ≡ take 16 (drop 12 packet.now) ++ drop (path_place packet.now) packet.now) }
    ensures len { IfOk result (λ frame. 16 ≤ length frame.items) }
{
    let (destination, source) = host_lens(packet);
    let (_, behind) = packet.split_at(COMMON_LEN);
    let (addresses, _) = behind.split_at(HOSTS_START - COMMON_LEN);
    let (_, rest) = packet.split_at(HOSTS_START + destination + source);
    let mut frame = Vec::with_capacity(alloc, addresses.len() + rest.len())?;
    frame.extend_from_slice(addresses)?;
    frame.extend_from_slice(rest)?;
    Ok(frame)
}

/// Adds the lines behind the common header of a whole packet that says this besides.
fn add_behind_common(
    alloc: Global,
    text: &mut String,
    packet: &[u8],
    info: &PacketInfo,
) -> Result<(), AllocError>
    requires common { 12 ≤ length packet.now }
    requires place { path_place packet.now ≤ length packet.now }
    ensures { OnOk result (string_bytes text.new ≡ string_bytes text.old
        ++ whole_lines_behind packet.now info.now) }
{
    let frame = frame_in(alloc, packet)?;
    add_addresses(alloc, text, &frame)?;
    add_hosts(alloc, text, packet, info)?;
    add_behind(alloc, text, &frame)
}

/// Adds the lines behind the common header.
fn add_rest(alloc: Global, text: &mut String, packet: &[u8]) -> Result<(), AllocError>
    requires { 12 ≤ length packet.now }
    ensures { OnOk result (string_bytes text.new ≡ string_bytes text.old
        ++ behind_common_text packet.now (whole_packet_at packet.now)) }
{
    match read(packet) {
        Ok(whole) => add_behind_common(alloc, text, packet, &whole.info),
        Err(_) => {
            let says = [Part::Words("no whole packet")];
            add_field(
                alloc,
                text,
                packet,
                COMMON_LEN,
                packet.len() - COMMON_LEN,
                &says,
            )
        }
    }
}

/// The lines of all fields of a whole packet. [`AllocError`] if memory runs out.
pub fn whole_fields_text(alloc: Global, packet: &[u8]) -> Result<String, AllocError>
    ensures { IfOk result (λ text. string_bytes text ≡ whole_fields_text packet.now) }
{
    let mut text = String::new(alloc);
    add_whole_fields(alloc, &mut text, packet)?;
    Ok(text)
}

/// Adds the lines of all fields of a whole packet.
#[tactic(auto, unfolding(crate::specs::Whole::whole_fields_text))]
fn add_whole_fields(alloc: Global, text: &mut String, packet: &[u8]) -> Result<(), AllocError>
    ensures { OnOk result
        (string_bytes text.new ≡ string_bytes text.old ++ whole_fields_text packet.now) }
{
    if packet.len() < COMMON_LEN {
        let says = [Part::Words("no common header")];
        add_field(alloc, text, packet, 0, packet.len(), &says)?;
        return Ok(());
    }
    let common = Common { alloc, packet };
    common.add_front(text)?;
    common.add_back(text)?;
    add_rest(alloc, text, packet)
}

/// The line of bytes that are no whole packet, without its end. `AllocError` if memory runs out.
pub fn packet_fault_line(alloc: Global, fault: PacketFault) -> Result<String, AllocError>
    ensures { IfOk result (λ line. string_bytes line ≡ packet_fault_line fault) }
{
    match fault {
        PacketFault::BadHeader(header) => refusal_line(alloc, Refusal::BadHeader(header)),
        _ => format!(in alloc; "refused {} {}", fault.code(), fault.name()),
    }
}
