//! The parts of a line, which are numbers and words until the line is written.
#![tactic(auto, unfolding(crate::specs::Fields::indices_text, crate::specs::Fields::lens_text))]

ghost use Rattle.std.specs.Prelude.{◌≡◌, ◌++◌, OnOk};
ghost use Rattle.std.specs.String.{string_bytes};
ghost use Rattle.hex.specs.Hex.{encode_lower};
ghost use Rattle.packet_view.specs.Fields.{lens_text, indices_text};
ghost use Rattle.packet_view.specs.Host.{host_text};
ghost use Rattle.packet_view.specs.inner.Part.{part_text, parts_text};
ghost use Rattle.packet_view.specs.declared.part.Part.TheVariants.{Lens, Place};

use crate::host::{add_host, add_host_kind};
use isd_as::{IfId, IsdAs};
use path_header::{Header, SegLens};
use scion_packet::HostAddress;
use std::alloc::{AllocError, Global};

/// A part of a line.
#[derive(Clone, Copy)]
pub(crate) enum Part<'a> {
    /// These words.
    Words(&'a str),
    /// A number, in decimal digits.
    Number(u64),
    /// An address.
    Address(IsdAs),
    /// An authenticator, in hexadecimal.
    Mac([u8; 6]),
    /// An authenticator under the key before the one in use.
    MacBefore([u8; 6]),
    /// A place on a path: the numbers of its info field and of its hop field.
    Place(usize, usize),
    /// The number of hop fields of the first, the second and the third segment.
    Lens(u8, u8, u8),
    /// An interface.
    Interface(IfId),
    /// A router of an AS.
    Router(u8),
    /// The address of a host.
    Host(&'a HostAddress),
    /// The type of a host's address, and the number of its bytes.
    HostKind(u8, usize),
}

/// The place of the packet on its path.
pub(crate) fn place_part(header: &Header) -> Part<'static>
    ensures { part_text result ≡ indices_text header.now }
{
    Part::Place(header.curr_inf(), header.curr_hf())
}

/// The number of hop fields of each segment.
pub(crate) fn lens_part(lens: SegLens) -> Part<'static>
    ensures { part_text result ≡ lens_text lens }
{
    Part::Lens(lens.first, lens.second, lens.third)
}

/// Adds bytes in hexadecimal.
pub(crate) fn add_hex(alloc: Global, text: &mut String, bytes: &[u8]) -> Result<(), AllocError>
    ensures { OnOk result
        (string_bytes text.new ≡ string_bytes text.old ++ encode_lower bytes.now) }
{
    text.push_str(hex::encode(alloc, bytes)?.as_str())
}

/// Adds a place on a path.
fn add_place(text: &mut String, info: usize, hop: usize) -> Result<(), AllocError>
    ensures { OnOk result
        (string_bytes text.new ≡ string_bytes text.old ++ part_text (Place info hop)) }
{
    write!(text, "at info field {info}, hop field {hop}")
}

/// Adds the number of hop fields of each segment.
fn add_lens(text: &mut String, first: u8, second: u8, third: u8) -> Result<(), AllocError>
    ensures { OnOk result
        (string_bytes text.new ≡ string_bytes text.old ++ part_text (Lens first second third)) }
{
    write!(text, "segments of {first}, {second} and {third} hop fields")
}

/// Adds a part.
fn add_part(alloc: Global, text: &mut String, part: &Part<'_>) -> Result<(), AllocError>
    ensures { OnOk result
        (string_bytes text.new ≡ string_bytes text.old ++ part_text part.now) }
{
    match part {
        Part::Words(words) => text.push_str(words),
        Part::Number(number) => write!(text, "{number}"),
        Part::Address(address) => write!(text, "{address}"),
        Part::Mac(mac) => add_hex(alloc, text, mac.as_slice()),
        Part::MacBefore(mac) => {
            text.push_str(", under the one before: ")?;
            add_hex(alloc, text, mac.as_slice())
        }
        Part::Place(info, hop) => add_place(text, *info, *hop),
        Part::Lens(first, second, third) => add_lens(text, *first, *second, *third),
        Part::Interface(interface) => write!(text, "interface {interface}"),
        Part::Router(router) => write!(text, "router {router}"),
        Part::Host(host) => add_host(alloc, text, host),
        Part::HostKind(kind, len) => add_host_kind(text, *kind, *len),
    }
}

/// Adds parts, one after the other.
pub(crate) fn add_parts(
    alloc: Global,
    text: &mut String,
    parts: &[Part<'_>],
) -> Result<(), AllocError>
    ensures { OnOk result
        (string_bytes text.new ≡ string_bytes text.old ++ parts_text parts.now) }
{
    for part in parts {
        add_part(alloc, text, part)?;
    }
    Ok(())
}
