//! Which ASes and which links of a network a picture has.

ghost use Rattle.std.specs.Prelude.{◌≡◌, ◌==◌, ◌&&◌, ◌||◌, ℕ, IfOk, OnOk, nat_eq};
ghost use Rattle.std.specs.HashSet.{contains};
ghost use Rattle.network_view.specs.Extent.{central, has_central, is_central, is_inside, with_neighbours, within};

use isd_as::{Isd, IsdAs};
use scion_topology::{AsEntry, Link};
use std::alloc::{AllocError, Global};
use std::collections::HashSet;

/// The ASes around which a picture is drawn.
#[derive(Clone, Copy, Debug, PartialEq, Eq)]
pub enum Centre {
    /// All ASes.
    Whole,
    /// The core ASes.
    Core,
    /// The ASes of an ISD.
    Isd(Isd),
    /// One AS.
    As(IsdAs),
}

/// The part of a network that a picture shows: the ASes that are at most so many links from one of
/// those around which it is drawn.
#[derive(Clone, Copy, Debug, PartialEq, Eq)]
pub struct Extent {
    /// The ASes around which the picture is drawn.
    pub centre: Centre,
    /// The number of links.
    pub hops: u8,
}

/// The addresses of some ASes.
pub(crate) type Addresses = HashSet<u64>;

/// Adds an AS, if another one is among these.
fn add_if(these: &Addresses, other: IsdAs, ia: IsdAs, all: &mut Addresses) -> Result<(), AllocError>
    ensures { OnOk result ((q : ℕ) → contains nat_eq all.new q
        ≡ (contains nat_eq all.old q || (contains nat_eq these.now other && (ia == q)))) }
{
    if these.contains(&other.number()) {
        all.insert(ia.number())?;
    }
    Ok(())
}

/// These ASes, and those that a link joins to one of them. It takes the time of the ASes and of the
/// links.
pub(crate) fn with_neighbours(links: &[Link], these: &Addresses) -> Result<Addresses, AllocError>
    ensures { IfOk result (λ all.
        contains nat_eq all ≡ with_neighbours links.now (contains nat_eq these.now)) }
{
    let mut all = these.clone()?;
    for link in links {
        add_if(these, link.a.ia, link.b.ia, &mut all)?;
        add_if(these, link.b.ia, link.a.ia, &mut all)?;
    }
    Ok(all)
}

/// The ASes that are at most so many links from one of these. It takes the time of
/// [`with_neighbours`] for each of them.
fn within(links: &[Link], hops: u8, these: Addresses) -> Result<Addresses, AllocError>
    ensures { IfOk result (λ found.
        contains nat_eq found ≡ within links.now hops (contains nat_eq these)) }
{
    let mut found = these;
    for _hop in 0..hops {
        found = with_neighbours(links, &found)?;
    }
    Ok(found)
}

/// Whether an AS is one of those around which a picture is drawn.
fn is_central(centre: &Centre, one: &AsEntry) -> bool
    ensures { result ≡ is_central centre.now one.now }
{
    match *centre {
        Centre::Whole => true,
        Centre::Core => one.core,
        Centre::Isd(isd) => one.ia.isd() == isd,
        Centre::As(ia) => one.ia == ia,
    }
}

/// Whether there is an AS around which a picture is drawn. It takes the time of the ASes.
pub fn has_central(ases: &[AsEntry], centre: &Centre) -> bool
    ensures { result ≡ has_central centre.now ases.now }
{
    ases.iter().any(|one| is_central(centre, one))
}

/// Adds an AS, if it is one of those around which a picture is drawn.
fn add_central(centre: &Centre, one: &AsEntry, found: &mut Addresses) -> Result<(), AllocError>
    ensures { OnOk result ((q : ℕ) → contains nat_eq found.new q
        ≡ (contains nat_eq found.old q || (is_central centre.now one.now && (one.now.ia == q)))) }
{
    if is_central(centre, one) {
        found.insert(one.ia.number())?;
    }
    Ok(())
}

/// The addresses of the ASes around which a picture is drawn.
pub(crate) fn central(
    alloc: Global,
    ases: &[AsEntry],
    centre: &Centre,
) -> Result<Addresses, AllocError>
    ensures { IfOk result (λ found. contains nat_eq found ≡ central centre.now ases.now) }
{
    let mut found = HashSet::new(alloc);
    for one in ases {
        add_central(centre, one, &mut found)?;
    }
    Ok(found)
}

/// The ASes that are in the part of a network that a picture shows.
pub(crate) fn inside(
    alloc: Global,
    ases: &[AsEntry],
    links: &[Link],
    extent: &Extent,
) -> Result<Addresses, AllocError>
    ensures { IfOk result (λ found. contains nat_eq found
        ≡ is_inside (record { ases = ases.now; links = links.now }) extent.now) }
{
    let centre = central(alloc, ases, &extent.centre)?;
    within(links, extent.hops, centre)
}
