//! Who sends and receives the datagrams of a run.

ghost use Rattle.std.specs.Prelude.{◌≡◌, ◌^◌, ◌/◌, ◌%◌, ◌<◌, ◌∷◌, []};
ghost use Rattle.scion_topology.specs.Topology.{info_in};
ghost use Rattle.wire_packets.specs.Datagram.{address_sum, hosts_station, ip_address, mac_address, place_in, router_station};

use isd_as::IsdAs;
use scion_topology::Topology;

/// The last byte of the address of the hosts of an AS.
const HOSTS: u8 = 100;

/// A router of an AS, or its hosts: the place of the AS in the topology, and the last byte of the
/// address.
#[derive(Clone, Copy)]
pub struct Station {
    place: usize,
    number: u8,
}

/// The place of an AS in the topology, and 0 if it is none of it.
fn place_in(topology: &Topology, ia: IsdAs) -> usize
    ensures { result ≡ place_in (info_in topology.now ia) }
{
    match topology.as_info(ia) {
        Ok(info) => info.position,
        Err(_) => 0,
    }
}

impl Station {
    /// A router of an AS.
    pub fn router(topology: &Topology, ia: IsdAs, router: u8) -> Station
        ensures { result ≡ router_station topology.now ia router }
    {
        Station {
            place: place_in(topology, ia),
            number: router.wrapping_add(1),
        }
    }

    /// The hosts of an AS.
    pub fn hosts(topology: &Topology, ia: IsdAs) -> Station
        ensures { result ≡ hosts_station topology.now ia }
    {
        Station {
            place: place_in(topology, ia),
            number: HOSTS,
        }
    }

    /// Its address of IPv4.
    pub(crate) fn ip_address(self) -> [u8; 4]
        ensures { result ≡ ip_address self }
    {
        let [high, low] = self.network();
        [10, high, low, self.number]
    }

    /// Its address of Ethernet.
    pub(crate) fn mac_address(self) -> [u8; 6]
        ensures { result ≡ mac_address self }
    {
        let [high, low] = self.network();
        [2, 0, 10, high, low, self.number]
    }

    /// The high and the low byte of the place of its AS.
    fn network(self) -> [u8; 2]
        ensures { result ≡ (self.place / 256 % 256) ∷ (self.place % 256) ∷ [] }
    {
        [(self.place / 256 % 256) as u8, (self.place % 256) as u8]
    }

    /// The sum of the two words of its address of IPv4.
    pub(crate) fn address_sum(self) -> u32
        ensures value { result ≡ address_sum self }
        ensures few { result < 2 ^ 17 }
    {
        let [high, low] = self.network();
        256 * (10 + u32::from(low)) + u32::from(high) + u32::from(self.number)
    }
}
