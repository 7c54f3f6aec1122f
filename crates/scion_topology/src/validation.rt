ghost use Rattle.std.specs.Prelude.{◌≡◌, IfSome};
ghost use Rattle.std.specs.List.{list_any};
ghost use Rattle.std.specs.Option.{option_copied};
ghost use Rattle.scion_topology.specs.Network.{as_named, is_end, has_end};
ghost use Rattle.scion_topology.specs.Causes.{cause_of, is_too_many, is_listed, has_unknown_end, lacks_router, has_no_router, is_core, is_ill_classed, is_ill_joined};

use crate::as_lookup::AsLookup;
use crate::duplicates::{joins_twice, lists_twice};
use crate::fault::TopologyFault;
use crate::network::{AsEntry, End, Link, LinkClass};
use isd_as::{IfId, IsdAs};
use std::alloc::Global;

/// The largest number of ASes of a topology.
pub const MAX_ASES: usize = 1024;

/// The largest number of links of a topology.
pub const MAX_LINKS: usize = 4096;

/// The first fault of these ASes and links, if they are no network. Each rule is checked for the
/// whole lists before the next.
#[tactic(auto, unfolding(crate::specs::Causes::cause_of))]
pub(crate) fn first_cause(
    alloc: Global,
    listed: &AsLookup<'_>,
    links: &[Link],
) -> Option<TopologyFault>
    ensures { result ≡ cause_of listed.now links.now }
{
    if is_too_many(listed.ases, links) {
        Some(TopologyFault::TooMany)
    } else if lists_twice(alloc, listed.ases) {
        Some(TopologyFault::DuplicateAs)
    } else if is_any_end_unknown(listed, links) {
        Some(TopologyFault::UnknownAs)
    } else if is_any_router_missing(listed, links) {
        Some(TopologyFault::NoRouter)
    } else if is_any_ill_joined(listed, links) {
        Some(TopologyFault::BadKind)
    } else if joins_twice(alloc, links) {
        Some(TopologyFault::DuplicateIf)
    } else {
        None
    }
}

fn is_too_many(ases: &[AsEntry], links: &[Link]) -> bool
    ensures { result ≡ is_too_many ases.now links.now }
{
    ases.is_empty() || ases.len() > MAX_ASES || links.len() > MAX_LINKS
}

fn has_unknown_end(listed: &AsLookup<'_>, link: &Link) -> bool
    ensures { result ≡ has_unknown_end listed.now link.now }
{
    !listed.has(link.a.ia) || !listed.has(link.b.ia)
}

/// Whether a link has an end in no AS of the list.
fn is_any_end_unknown(listed: &AsLookup<'_>, links: &[Link]) -> bool
    ensures { result ≡ list_any (λ link. has_unknown_end listed.now link) links.now }
{
    links.iter().any(|link| has_unknown_end(listed, link))
}

/// Whether the AS of an end has no router of its number.
fn lacks_router(listed: &AsLookup<'_>, end: &End) -> bool
    ensures { result ≡ lacks_router listed.now end.now }
{
    match listed.get(end.ia) {
        Some(one) => one.routers <= end.router,
        None => false,
    }
}

fn has_no_router(listed: &AsLookup<'_>, link: &Link) -> bool
    ensures { result ≡ has_no_router listed.now link.now }
{
    lacks_router(listed, &link.a) || lacks_router(listed, &link.b)
}

/// Whether a link has an end whose AS has no router of its number.
fn is_any_router_missing(listed: &AsLookup<'_>, links: &[Link]) -> bool
    ensures { result ≡ list_any (λ link. has_no_router listed.now link) links.now }
{
    links.iter().any(|link| has_no_router(listed, link))
}

/// Whether the list has a core AS of this address.
fn is_core(listed: &AsLookup<'_>, ia: IsdAs) -> bool
    ensures { result ≡ is_core listed.now ia }
{
    match listed.get(ia) {
        Some(one) => one.core,
        None => false,
    }
}

/// Whether the class of a link doesn't allow its ends.
fn is_ill_classed(listed: &AsLookup<'_>, class: LinkClass, a: IsdAs, b: IsdAs) -> bool
    ensures { result ≡ is_ill_classed listed.now class a b }
{
    match class {
        LinkClass::Core => !is_core(listed, a) || !is_core(listed, b),
        LinkClass::Child => a.isd() != b.isd() || is_core(listed, b),
    }
}

fn is_ill_joined(listed: &AsLookup<'_>, link: &Link) -> bool
    ensures { result ≡ is_ill_joined listed.now link.now }
{
    link.a.ia == link.b.ia || is_ill_classed(listed, link.class, link.a.ia, link.b.ia)
}

/// Whether a link joins ASes that it may not join.
fn is_any_ill_joined(listed: &AsLookup<'_>, links: &[Link]) -> bool
    ensures { result ≡ list_any (λ link. is_ill_joined listed.now link) links.now }
{
    links.iter().any(|link| is_ill_joined(listed, link))
}

/// Whether the end is this interface of this AS.
pub(crate) fn is_end(end: &End, ia: IsdAs, number: IfId) -> bool
    ensures { result ≡ is_end end.now ia number }
{
    end.ia == ia && end.number == number
}

/// Whether the link ends at this interface of this AS.
pub(crate) fn has_end(link: &Link, ia: IsdAs, number: IfId) -> bool
    ensures { result ≡ has_end link.now ia number }
{
    is_end(&link.a, ia, number) || is_end(&link.b, ia, number)
}
