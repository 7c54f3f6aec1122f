//! Topologies of the right form that break a rule: which AS or which link is meant.

ghost use Rattle.std.specs.Prelude.{◌≡◌, nat_le};
ghost use Rattle.line_faults.specs.inner.Joining.{first_at_fault};

use crate::history::{text_of, whole_of};
use crate::place::{Place, push_place};
use crate::said::Said;
use crate::sentence::push_sentence;
use crate::topology::values_of;
use isd_as::IsdAs;
use serde_json::Value;
use std::alloc::{AllocError, Global};
use std::collections::BTreeMap;
use std::fmt;
use std::fmt::Write;

/// What a topology says of an AS.
#[derive(Clone, Copy)]
struct AsRow {
    /// Its place in the list.
    place: usize,
    is_core: bool,
    routers: u64,
}

/// The ASes of a topology by their addresses as numbers.
type AsRows = BTreeMap<u64, AsRow>;

/// Which end of a link.
#[derive(Clone, Copy)]
enum Side {
    A,
    B,
}

impl Side {
    /// The member that is the end.
    fn name(self) -> &'static str {
        match self {
            Side::A => "a",
            Side::B => "b",
        }
    }
}

/// The place of an end of a link.
#[derive(Clone, Copy)]
struct EndPlace {
    /// The place of the link in the list.
    link: usize,
    side: Side,
}

impl EndPlace {
    /// The end in a line.
    fn in_line<'a>(self, line: Place<'a>) -> Place<'a> {
        line.link_end(self.link, self.side.name())
    }
}

impl fmt::Display for EndPlace {
    fn fmt<W: fmt::Write>(&self, f: &mut fmt::Formatter<W>) -> fmt::Result {
        write!(f, "links[{}].{}", self.link, self.side.name())
    }
}

/// An end of a link.
#[derive(Clone, Copy)]
struct LinkEnd {
    place: EndPlace,
    ia: IsdAs,
    number: u64,
    router: u64,
}

impl LinkEnd {
    /// The end on this side of the link at a place.
    fn of(place: usize, link: &Value, side: Side) -> Option<LinkEnd> {
        let end = link.get(side.name())?;
        Some(LinkEnd {
            place: EndPlace { link: place, side },
            ia: address_of(end)?,
            number: whole_of(end, "if")?,
            router: whole_of(end, "router")?,
        })
    }
}

/// The interfaces at which links end, by the address and their number, with the last such end.
type Ends = BTreeMap<(u64, u64), EndPlace>;

/// The address in an object.
fn address_of(object: &Value) -> Option<IsdAs> {
    IsdAs::parse(text_of(object, "ia")?).ok()
}

/// Adds which AS or link breaks the rule of a topology whose refusal has this number.
pub(crate) fn push_broken_rule(
    alloc: Global,
    why: &mut Said,
    line: Place<'_>,
    code: usize,
    topology: &Value,
) -> Result<(), AllocError> {
    let ases = values_of(topology, "ases");
    let links = values_of(topology, "links");
    match code {
        18 => push_count(why, line, ases.len(), links.len())?,
        12 => push_doubled_as(alloc, why, line, ases)?,
        13 => push_doubled_interface(alloc, why, line, links)?,
        _ => push_bad_links(why, line, code, &rows_of(alloc, ases)?, links)?,
    }
    if !why.text.is_empty() {
        why.text.push_str(": ")?;
    }
    push_sentence(&mut why.text, code)
}

/// Adds how many ASes and links there are.
fn push_count(
    why: &mut Said,
    line: Place<'_>,
    ases: usize,
    links: usize,
) -> Result<(), AllocError> {
    push_place(why, line, "ases")?;
    why.push_found(&ases)?;
    write!(why.text, "; links: found {links}")
}

/// The ASes of a list; of two with one address the last.
fn rows_of(alloc: Global, ases: &[Value]) -> Result<AsRows, AllocError> {
    let mut rows = BTreeMap::new(alloc);
    for (place, one) in ases.iter().enumerate() {
        if let Some(ia) = address_of(one) {
            let row = AsRow {
                place,
                is_core: one.get("core").and_then(Value::as_bool).unwrap_or(false),
                routers: whole_of(one, "routers").unwrap_or(0),
            };
            rows.insert(ia.number(), row)?;
        }
    }
    Ok(rows)
}

/// Adds the first AS that is listed before.
fn push_doubled_as(
    alloc: Global,
    why: &mut Said,
    line: Place<'_>,
    ases: &[Value],
) -> Result<(), AllocError> {
    let mut places = BTreeMap::new(alloc);
    for (place, one) in ases.iter().enumerate() {
        let Some(ia) = address_of(one) else {
            continue;
        };
        if let Some(before) = places.insert(ia.number(), place)? {
            push_place(why, line.item("ases", place), "ia")?;
            why.push_found(&ia)?;
            return write!(why.text, ", which is ases[{before}] too");
        }
    }
    Ok(())
}

/// Adds the first interface at which a link before ends.
fn push_doubled_interface(
    alloc: Global,
    why: &mut Said,
    line: Place<'_>,
    links: &[Value],
) -> Result<(), AllocError> {
    let mut ends = Ends::new(alloc);
    for (place, link) in links.iter().enumerate() {
        if push_doubled_end(why, line, &mut ends, LinkEnd::of(place, link, Side::A))?
            || push_doubled_end(why, line, &mut ends, LinkEnd::of(place, link, Side::B))?
        {
            return Ok(());
        }
    }
    Ok(())
}

/// Adds an end if one before is at its interface, and notes it among them. Returns whether there is
/// one.
fn push_doubled_end(
    why: &mut Said,
    line: Place<'_>,
    ends: &mut Ends,
    end: Option<LinkEnd>,
) -> Result<bool, AllocError> {
    let Some(end) = end else {
        return Ok(false);
    };
    let LinkEnd {
        place,
        ia,
        number,
        ..
    } = end;
    let Some(before) = ends.insert((ia.number(), number), place)? else {
        return Ok(false);
    };
    push_place(why, place.in_line(line), "if")?;
    why.push_found(&number)?;
    write!(why.text, ", and {ia} has it at {before} too")?;
    Ok(true)
}

/// What is wrong with an end of a link.
#[derive(Clone, Copy)]
enum EndFault {
    /// Its AS is not listed.
    Unlisted,
    /// Its AS has fewer routers.
    NoRouter(AsRow),
    /// The other end is in its AS.
    SameAs,
    /// It is of a core link, and its AS is no core AS.
    NotCore,
    /// It is the child's, and the parent is in another ISD.
    OtherIsd,
    /// It is the child's, and its AS is a core AS.
    CoreChild,
}

/// Adds the first link that breaks the rule of this number.
fn push_bad_links(
    why: &mut Said,
    line: Place<'_>,
    code: usize,
    rows: &AsRows,
    links: &[Value],
) -> Result<(), AllocError> {
    for (place, link) in links.iter().enumerate() {
        if let Some((end, fault)) = fault_of_link(rows, code, place, link) {
            return push_end_fault(why, line, end, fault);
        }
    }
    Ok(())
}

/// The numbers that a router of an AS may have.
#[derive(Clone, Copy)]
struct RoutersOf {
    /// The place of the AS in the list.
    place: usize,
    /// How many routers it has.
    routers: u64,
}

impl fmt::Display for RoutersOf {
    fn fmt<W: fmt::Write>(&self, f: &mut fmt::Formatter<W>) -> fmt::Result {
        let Self { place, routers } = self;
        write!(f, "less than ases[{place}].routers, which is {routers}")
    }
}

/// Adds that the AS of an end has too few routers for it.
fn push_no_router(
    why: &mut Said,
    line: Place<'_>,
    end: LinkEnd,
    row: AsRow,
) -> Result<(), AllocError> {
    push_place(why, end.place.in_line(line), "router")?;
    why.push_found(&end.router)?;
    let AsRow { place, routers, .. } = row;
    why.push_wanted(&RoutersOf { place, routers })
}

/// Adds what is wrong with an end.
fn push_end_fault(
    why: &mut Said,
    line: Place<'_>,
    end: LinkEnd,
    fault: EndFault,
) -> Result<(), AllocError> {
    let reason = match fault {
        EndFault::NoRouter(row) => return push_no_router(why, line, end, row),
        EndFault::Unlisted => ", which is not among ases",
        EndFault::SameAs => ", in which the other end is too",
        EndFault::NotCore => ", which is no core AS",
        EndFault::OtherIsd => ", which is in another ISD than its parent",
        EndFault::CoreChild => ", which is a core AS and no child",
    };
    push_place(why, end.place.in_line(line), "ia")?;
    why.push_found(&end.ia)?;
    why.text.push_str(reason)
}

/// The end because of which a link breaks the rule of this number, and what is wrong with it.
fn fault_of_link(
    rows: &AsRows,
    code: usize,
    place: usize,
    link: &Value,
) -> Option<(LinkEnd, EndFault)> {
    let a = LinkEnd::of(place, link, Side::A)?;
    let b = LinkEnd::of(place, link, Side::B)?;
    if code == 15 {
        let is_core = text_of(link, "kind")? == "core";
        return fault_of_joining(rows, is_core, a, b);
    }
    let (of_a, of_b) = (fault_of_end(rows, code, a), fault_of_end(rows, code, b));
    first_at_fault(a, of_a, b, of_b)
}

/// The first of two ends with a fault, and its fault.
fn first_at_fault(
    a: LinkEnd,
    of_a: Option<EndFault>,
    b: LinkEnd,
    of_b: Option<EndFault>,
) -> Option<(LinkEnd, EndFault)>
    ensures { result ≡ first_at_fault a b of_a of_b }
{
    match of_a {
        Some(fault) => Some((a, fault)),
        None => Some((b, of_b?)),
    }
}

/// Whether an AS has no router of this number; its routers are numbered from 0.
fn lacks_router(row: &AsRow, router: u64) -> bool
    ensures { result ≡ nat_le row.now.routers router }
{
    row.routers <= router
}

/// What is wrong with an end by itself, by the rule of this number.
fn fault_of_end(rows: &AsRows, code: usize, end: LinkEnd) -> Option<EndFault> {
    let Some(row) = rows.get(&end.ia.number()) else {
        return Some(EndFault::Unlisted);
    };
    if code == 16 && lacks_router(row, end.router) {
        Some(EndFault::NoRouter(*row))
    } else {
        None
    }
}

/// Whether there is a core AS of this address.
fn is_core_as(rows: &AsRows, ia: IsdAs) -> bool {
    rows.get(&ia.number()).is_some_and(|row| row.is_core)
}

/// The end because of which a link joins ASes that it may not join.
fn fault_of_joining(
    rows: &AsRows,
    is_core: bool,
    a: LinkEnd,
    b: LinkEnd,
) -> Option<(LinkEnd, EndFault)> {
    let (is_a_core, is_b_core) = (is_core_as(rows, a.ia), is_core_as(rows, b.ia));
    if a.ia == b.ia {
        Some((b, EndFault::SameAs))
    } else if is_core && !is_a_core {
        Some((a, EndFault::NotCore))
    } else if is_core && !is_b_core {
        Some((b, EndFault::NotCore))
    } else if !is_core && a.ia.isd() != b.ia.isd() {
        Some((b, EndFault::OtherIsd))
    } else if !is_core && is_b_core {
        Some((b, EndFault::CoreChild))
    } else {
        None
    }
}
