//! The links that all open walks cross, and the ASes that all of them pass.

ghost use Rattle.std.specs.Prelude.{◌≡◌, ◌++◌, ◌&&◌, All, IfOk, OnOk, filter, map};
ghost use Rattle.std.specs.List.{list_all};
ghost use Rattle.path_report.specs.inner.Cuts.{crosses_at};
ghost use Rattle.path_report.specs.Pair.{addresses, is_between};
ghost use Rattle.path_report.specs.Paths.{passes};
ghost use Rattle.path_report.specs.inner.Needed.{if_through, is_crossed, is_through};
ghost use Rattle.path_report.specs.inner.Places.{HasPlaces};

use crate::open_walk::OpenWalk;
use crate::pair::AsPair;
use crate::survival::crosses_at;
use isd_as::IsdAs;
use scion_topology::{Link, Topology};
use std::alloc::{AllocError, Global};

/// Whether all walks cross the link at a place.
fn do_cross(walks: &[OpenWalk<'_>], place: usize) -> bool
    ensures { result ≡ list_all (crosses_at place) walks.now }
{
    walks.iter().all(|walk| crosses_at(walk, place))
}

/// The links that all walks cross, in the order of the topology.
///
/// It takes the time of each link, for each link of the first walk; and of the links found, for
/// each link of each walk.
pub(crate) fn needed_links(
    alloc: Global,
    topology: &Topology,
    walks: &[OpenWalk<'_>],
) -> Result<Vec<Link>, AllocError>
    requires { All (HasPlaces topology.now.links) walks.now }
    ensures { IfOk result (λ found. found.items
        ≡ filter (is_crossed (map (λ walk. walk.hops.now) walks.now)) topology.now.links) }
{
    topology.known();
    let mut found = Vec::new(alloc);
    for (place, link) in topology.links().iter().enumerate() {
        if do_cross(walks, place) {
            found.push(*link)?;
        }
    }
    Ok(found)
}

/// Whether a walk passes an AS.
fn passes(walk: &OpenWalk<'_>, ia: IsdAs) -> bool
    ensures { result ≡ passes walk.now.hops.now ia }
{
    walk.hops.iter().any(|hop| hop.ia == ia)
}

/// Whether all walks pass an AS.
fn do_pass(walks: &[OpenWalk<'_>], ia: IsdAs) -> bool
    ensures { result ≡ list_all (λ walk. passes walk.hops.now ia) walks.now }
{
    walks.iter().all(|walk| passes(walk, ia))
}

/// Whether an AS is neither of a pair.
fn is_between(pair: &AsPair, ia: IsdAs) -> bool
    ensures { result ≡ is_between pair.now ia }
{
    pair.from != ia && pair.to != ia
}

/// Adds an AS, if it is neither of the pair and all walks pass it.
fn add_if_through(
    pair: &AsPair,
    walks: &[OpenWalk<'_>],
    ia: IsdAs,
    found: &mut Vec<IsdAs>,
) -> Result<(), AllocError>
    ensures { OnOk result
        (found.new.items ≡ found.old.items ++ if_through pair.now walks.now ia) }
{
    if is_between(pair, ia) && do_pass(walks, ia) {
        found.push(ia)?;
    }
    Ok(())
}

/// The ASes between those of a pair that all walks pass, in the order of the topology.
///
/// It takes the time of each AS, for each hop of the first walk; and of the ASes found, for each
/// hop of each walk.
pub(crate) fn needed_ases(
    alloc: Global,
    topology: &Topology,
    pair: &AsPair,
    walks: &[OpenWalk<'_>],
) -> Result<Vec<IsdAs>, AllocError>
    ensures { IfOk result (λ found. found.items
        ≡ filter (is_through pair.now (map (λ walk. walk.hops.now) walks.now))
        (addresses topology.now.ases)) }
{
    let mut found = Vec::new(alloc);
    for one in topology.ases() {
        add_if_through(pair, walks, one.ia, &mut found)?;
    }
    Ok(found)
}
