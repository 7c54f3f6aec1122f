//! The walks whose links are all up.

ghost use Rattle.std.specs.Prelude.{◌≡◌, All, IfOk, List, OnOk, map};
ghost use Rattle.scion_topology.specs.declared.network.Link.{Link};
ghost use Rattle.path_report.specs.Paths.{is_open, open_walks};
ghost use Rattle.path_report.specs.inner.Places.{HasPlaces, IsCrossing, are_up_at, is_up_at, place_left_by, places_crossed};

use combinator::Walks;
use policy_expr::WalkHop;
use scion_topology::{Link, Topology};
use std::alloc::{AllocError, Global};

/// A walk whose links are all up.
#[derive(Drop)]
pub(crate) struct OpenWalk<'w> {
    /// Its hops.
    pub(crate) hops: &'w [WalkHop],
    /// The places of the links that it crosses, in the topology's list.
    pub(crate) places: Vec<usize>,
}

/// A hop, and the place of the link by which it leaves, if it leaves by one.
#[derive(Clone, Copy)]
pub(crate) struct Crossing {
    hop: WalkHop,
    place: Option<usize>,
}

/// The place of the link by which a hop leaves, the hop at this place of its walk. If it is the hop
/// that was there last, that is known already: walks that stand side by side begin alike.
fn place_left_by(
    topology: &Topology,
    known: &mut Vec<Crossing>,
    number: usize,
    hop: &WalkHop,
) -> Result<Option<usize>, AllocError>
    requires { All (IsCrossing topology.now.links) known.old.items }
    ensures known { OnOk result (All (IsCrossing topology.now.links) known.new.items) }
    ensures place { IfOk result (λ place. place ≡ place_left_by topology.now.links hop.now) }
{
    if let Some(crossing) = known.get(number) {
        if crossing.hop == *hop {
            return Ok(crossing.place);
        }
    }
    let place = topology.link_place(hop.ia, hop.egress);
    know(known, number, Crossing { hop: *hop, place })?;
    Ok(place)
}

/// Puts a crossing at its place, or at the end.
fn know(known: &mut Vec<Crossing>, number: usize, crossing: Crossing) -> Result<(), AllocError>
    ensures { OnOk result ((links : List Link) → All (IsCrossing links) known.old.items
        → IsCrossing links crossing → All (IsCrossing links) known.new.items) }
{
    if number < known.len() {
        known[number] = crossing;
        return Ok(());
    }
    known.push(crossing)?;
    Ok(())
}

/// The places of the links that a walk crosses, in the topology's list.
fn places_crossed(
    alloc: Global,
    topology: &Topology,
    known: &mut Vec<Crossing>,
    walk: &[WalkHop],
) -> Result<Vec<usize>, AllocError>
    requires { All (IsCrossing topology.now.links) known.old.items }
    ensures known { OnOk result (All (IsCrossing topology.now.links) known.new.items) }
    ensures places { IfOk result
        (λ places. places.items ≡ places_crossed topology.now.links walk.now) }
{
    let mut places = Vec::with_capacity(alloc, walk.len())?;
    for (number, hop) in walk.iter().enumerate() {
        let left_by = place_left_by(topology, known, number, hop)?;
        if let Some(place) = left_by {
            places.push(place)?;
        }
    }
    Ok(places)
}

/// Whether the link at a place is up.
fn is_up_at(links: &[Link], place: usize) -> bool
    ensures { result ≡ is_up_at links.now place }
{
    match links.get(place) {
        Some(link) => link.up,
        None => true,
    }
}

/// Whether the links at these places are all up.
fn are_up_at(links: &[Link], places: &[usize]) -> bool
    ensures { result ≡ are_up_at links.now places.now }
{
    places.iter().all(|place| is_up_at(links, *place))
}

/// Whether each link that a walk crosses is up.
pub(crate) fn is_open(
    alloc: Global,
    topology: &Topology,
    walk: &[WalkHop],
) -> Result<bool, AllocError>
    ensures { IfOk result (λ yes. yes ≡ is_open topology.now.links walk.now) }
{
    let places = places_crossed(alloc, topology, &mut Vec::new(alloc), walk)?;
    Ok(are_up_at(topology.links(), &places))
}

/// The walks whose links are all up, in their order.
pub(crate) fn open_walks<'w>(
    alloc: Global,
    topology: &Topology,
    walks: &'w Walks,
) -> Result<Vec<OpenWalk<'w>>, AllocError>
    ensures walks { IfOk result (λ found. map (λ walk. walk.hops.now) found.items
        ≡ open_walks topology.now.links walks.now) }
    ensures places { IfOk result (λ found. All (HasPlaces topology.now.links) found.items) }
{
    let mut found = Vec::new(alloc);
    let mut known = Vec::new(alloc);
    for place in 0..walks.len() {
        let hops = walks.get(place).unwrap();
        let places = places_crossed(alloc, topology, &mut known, hops)?;
        if are_up_at(topology.links(), &places) {
            found.push(OpenWalk { hops, places })?;
        }
    }
    Ok(found)
}
