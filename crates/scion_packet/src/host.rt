ghost use Rattle.std.specs.Prelude.{◌≡◌};

use crate::fault::PacketFault;
use arrayvec::ArrayVec;
use std::marker::Model;

/// The type of the addresses of services; those of IPv4 and IPv6 have 0.
const SERVICE: u8 = 1;

/// The lengths of addresses of IPv4 and of IPv6.
const IPV4_LEN: usize = 4;

const IPV6_LEN: usize = 16;

/// The address of a host in its AS: its type, below 4, and 4, 8, 12 or 16 bytes.
///
/// Type 0 with 4 bytes is IPv4, type 0 with 16 bytes is IPv6, type 1 with 4 bytes is a service. No
/// router looks at it.
#[derive(Clone, Debug, Drop, PartialEq, Eq)]
pub struct HostAddress {
    kind: u8,
    bytes: ArrayVec<u8, 16>,
}

impl Model for HostAddress {
    ghost use Rattle.scion_packet.specs.Value.{HostAddressValue, IsHostAddress};

    ghost Value = { HostAddressValue };

    ghost view = { λ a. record { kind = a.kind; bytes = a.bytes.items } };

    ghost invariant = { λ a. IsHostAddress (record { kind = a.kind; bytes = a.bytes.items }) };

    ghost inverse = { λ v. record { kind = v.kind; bytes = record { items = v.bytes } } };
}

impl HostAddress {
    ghost use Rattle.std.specs.Prelude.{◌≡◌, ◌<◌, ◌↔◌, [], ◌∷◌, ◌++◌, IsOk, IfOk, IfErr};
    ghost use Rattle.std.specs.Int.{w16, to_be_bytes};
    ghost use Rattle.scion_packet.specs.Value.{IsHostAddress};

    /// The address of this type and these bytes: [`PacketFault::BadField`] if the type is above 3,
    /// or if there are not 4, 8, 12 or 16 bytes.
    pub fn new(kind: u8, bytes: &[u8]) -> Result<HostAddress, PacketFault>
        ensures fits { IsOk result ↔ IsHostAddress (record { kind = kind; bytes = bytes.now }) }
        ensures value { IfOk result (λ host. host ≡ record { kind = kind; bytes = bytes.now }) }
        ensures err { IfErr result (λ fault. fault ≡ PacketFault.BadField) }
    {
        if kind > 3 || !matches!(bytes.len(), 4 | 8 | 12 | 16) {
            return Err(PacketFault::BadField);
        }
        Ok(HostAddress::of(kind, bytes))
    }

    /// The address of a host with this address of IPv4.
    pub fn ipv4(address: [u8; 4]) -> HostAddress
        ensures { result ≡ record { kind = 0; bytes = address } }
    {
        HostAddress::of(0, &address)
    }

    /// The address of a host with this address of IPv6.
    pub fn ipv6(address: [u8; 16]) -> HostAddress
        ensures { result ≡ record { kind = 0; bytes = address } }
    {
        HostAddress::of(0, &address)
    }

    /// The address of the service with this number; two bytes of 0 follow it.
    pub fn service(number: u16) -> HostAddress
        ensures { result ≡ record { kind = 1; bytes = to_be_bytes w16 number ++ (0 ∷ 0 ∷ []) } }
    {
        let [high, low] = number.to_be_bytes();
        HostAddress::of(SERVICE, &[high, low, 0, 0])
    }

    /// The address of this type and these bytes.
    // The lengths of IPv4 and IPv6 are told apart, so that their bytes are copied without a call.
    // Never inlined: its three copies would stand in a reader of a packet twice.
    #[inline(never)]
    pub(crate) fn of(kind: u8, bytes: &[u8]) -> HostAddress
        requires { IsHostAddress (record { kind = kind; bytes = bytes.now }) }
        ensures { result ≡ record { kind = kind; bytes = bytes.now } }
    {
        match bytes.len() {
            IPV4_LEN => HostAddress::copied(kind, &bytes[..IPV4_LEN]),
            IPV6_LEN => HostAddress::copied(kind, &bytes[..IPV6_LEN]),
            _ => HostAddress::copied(kind, bytes),
        }
    }

    /// The address of this type, with a copy of these bytes.
    #[inline(always)]
    fn copied(kind: u8, bytes: &[u8]) -> HostAddress
        requires { IsHostAddress (record { kind = kind; bytes = bytes.now }) }
        ensures { result ≡ record { kind = kind; bytes = bytes.now } }
    {
        let mut cells = ArrayVec::new();
        cells.try_extend_from_slice(bytes).unwrap();
        HostAddress { kind, bytes: cells }
    }

    /// The type, below 4.
    pub fn kind(&self) -> u8
        ensures value { result ≡ self.now.kind }
        ensures bound { result < 4 }
    {
        self.kind
    }

    /// The bytes: 4, 8, 12 or 16.
    pub fn bytes(&self) -> &[u8]
        ensures value { result.now ≡ self.now.bytes }
        ensures host { IsHostAddress self.now }
    {
        self.bytes.as_slice()
    }
}
