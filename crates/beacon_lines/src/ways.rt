//! The links over which beacons go, by the AS that they leave.

ghost use Rattle.std.specs.Prelude.{◌≡◌, ◌++◌, flat_map, IfOk, OnOk};
ghost use Rattle.scion_topology.specs.Network.{Network};
ghost use Rattle.scion_topology.specs.declared.network.LinkClass as classes;
ghost use Rattle.beacon_lines.specs.inner.Ways.{AreWays, AreWaysFrom, way_between, ways_by, ways_over};

use isd_as::{IfId, IsdAs};
use scion_topology::{End, Link, LinkClass, Topology};
use std::alloc::{AllocError, Global};

/// A way out of an AS: the interface, and the AS at the far end of its link.
#[derive(Clone, Copy, PartialEq, Eq, PartialOrd, Ord)]
pub(crate) struct WayOut {
    pub(crate) near: IsdAs,
    pub(crate) egress: IfId,
    pub(crate) far: IsdAs,
}

/// The ways out of all ASes by links of one class that are up, by their ASes and then by their
/// interfaces. A child link is a way from the parent alone.
#[derive(Drop)]
pub(crate) struct WaysOut {
    ways: Vec<WayOut>,
}

/// The way from one end of a link to the other.
fn way_between(near: &End, far: &End) -> WayOut
    ensures { result ≡ way_between near.now far.now }
{
    WayOut {
        near: near.ia,
        egress: near.number,
        far: far.ia,
    }
}

/// Adds the ways by a link of a class between these ends, if that class is wanted.
fn add_ways(
    ways: &mut Vec<WayOut>,
    wanted: LinkClass,
    class: LinkClass,
    a: &End,
    b: &End,
) -> Result<(), AllocError>
    ensures { OnOk result (ways.new.items ≡ ways.old.items ++ ways_by wanted class a.now b.now) }
{
    match (wanted, class) {
        (LinkClass::Core, LinkClass::Core) => {
            ways.push(way_between(a, b))?;
            ways.push(way_between(b, a))?;
        }
        (LinkClass::Child, LinkClass::Child) => ways.push(way_between(a, b))?,
        _ => {}
    }
    Ok(())
}

/// Adds the ways by a link, if it is up and of the wanted class.
fn add_link(ways: &mut Vec<WayOut>, wanted: LinkClass, link: &Link) -> Result<(), AllocError>
    ensures { OnOk result (ways.new.items ≡ ways.old.items ++ ways_over wanted link.now) }
{
    if link.up {
        add_ways(ways, wanted, link.class, &link.a, &link.b)
    } else {
        Ok(())
    }
}

/// The ways by links of this class, in the order of the links.
fn ways_of(alloc: Global, links: &[Link], class: LinkClass) -> Result<Vec<WayOut>, AllocError>
    ensures { IfOk result (λ ways. ways.items ≡ flat_map (ways_over class) links.now) }
{
    let mut ways = Vec::new(alloc);
    for link in links {
        add_link(&mut ways, class, link)?;
    }
    Ok(ways)
}

impl WaysOut {
    /// The ways of a topology by links of this class.
    ///
    /// It takes time and memory in proportion to the topology, and sorts the ways.
    pub(crate) fn of(
        alloc: Global,
        topology: &Topology,
        class: LinkClass,
    ) -> Result<WaysOut, AllocError>
        ensures { IfOk result (λ all. AreWays topology.now class all.ways.items) }
    {
        let mut ways = ways_of(alloc, topology.links(), class)?;
        ways.sort_unstable();
        Ok(WaysOut { ways })
    }

    /// The ways out of this AS.
    pub(crate) fn out_of(&self, ia: IsdAs) -> &[WayOut]
        ensures { (n : Network) (class : classes.LinkClass) → AreWays n class self.now.ways.items
            → AreWaysFrom n class ia result.now }
    {
        let start = self.ways.partition_point(|way| way.near < ia);
        let later = &self.ways[start..];
        let count = later.partition_point(|way| way.near <= ia);
        &later[..count]
    }
}
