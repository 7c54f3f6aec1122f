//! The address of a host, as text.

ghost use Rattle.std.specs.Prelude.{◌≡◌, ◌++◌, OnOk};
ghost use Rattle.std.specs.String.{string_bytes};
ghost use Rattle.packet_view.specs.Host.{host_kind_text, host_text, ip_host_text};

use crate::part::add_hex;
use scion_packet::HostAddress;
use std::alloc::{AllocError, Global};
use std::net::{Ipv4Addr, Ipv6Addr};

/// The type of the addresses of IPv4 and IPv6.
const IP: u8 = 0;

/// The type of the addresses of services.
const SERVICE: u8 = 1;

/// Adds an address of type 0.
fn add_ip_host(alloc: Global, text: &mut String, bytes: &[u8]) -> Result<(), AllocError>
    ensures { OnOk result
        (string_bytes text.new ≡ string_bytes text.old ++ ip_host_text bytes.now) }
{
    if bytes.len() == 4 {
        let mut octets = [0; 4];
        octets.copy_from_slice(bytes);
        return write!(text, "{}", Ipv4Addr::from_octets(octets));
    }
    if bytes.len() == 16 {
        let mut octets = [0; 16];
        octets.copy_from_slice(bytes);
        return write!(text, "{}", Ipv6Addr::from_octets(octets));
    }
    add_hex(alloc, text, bytes)
}

/// Adds the type of a host's address, and the number of its bytes.
#[tactic(auto, unfolding(crate::specs::Host::host_kind_text))]
pub(crate) fn add_host_kind(text: &mut String, kind: u8, len: usize) -> Result<(), AllocError>
    ensures { OnOk result
        (string_bytes text.new ≡ string_bytes text.old ++ host_kind_text kind len) }
{
    write!(text, "type {kind}, {len} bytes")
}

/// Adds the address of a host.
#[tactic(auto, unfolding(crate::specs::Host::host_text))]
pub(crate) fn add_host(
    alloc: Global,
    text: &mut String,
    host: &HostAddress,
) -> Result<(), AllocError>
    ensures { OnOk result
        (string_bytes text.new ≡ string_bytes text.old ++ host_text host.now) }
{
    let bytes = host.bytes();
    match host.kind() {
        IP => add_ip_host(alloc, text, bytes),
        SERVICE => {
            let number = 256 * u16::from(bytes[0]) + u16::from(bytes[1]);
            write!(text, "service {number}")
        }
        _ => add_hex(alloc, text, bytes),
    }
}
